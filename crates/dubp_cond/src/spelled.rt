ghost use Rattle.std.specs.Prelude.{◌≡◌, Some, IfOk, IfSome, IsSome, OnErr};
ghost use Rattle.dubp_cond.specs.Tree.{CondTree};
ghost use Rattle.dubp_cond.specs.Conditions.{cond_text, IsCond};
ghost use Rattle.dubp_cond.specs.TextOf.{IsTextOf};
ghost use Rattle.dubp_cond.specs.Reading.{cond_of_text};

use crate::memory::copied;
use crate::passing::pass_whole;
use crate::reading::read_whole;
use crate::tree::Cond;
use crate::writing::put_cond;
use arrayvec::ArrayVec;
use dubp_atoms::{Items, Line, NoMemory};
use std::alloc::Global;
use std::marker::Model;

/// A condition in range, in its spelling: it takes the memory of its text, however deep its groups nest.
///
/// Contracts see it as the tree of its elements, as they see a `Cond`.
#[derive(Debug, Drop)]
pub struct SpelledCond {
    text: Items<u8>,
}

impl Model for SpelledCond {
    ghost use Rattle.dubp_cond.specs.Tree.{CondTree};
    ghost use Rattle.dubp_cond.specs.TreeCode.{cond_code};
    ghost use Rattle.dubp_cond.specs.Conditions.{IsCond};
    ghost use Rattle.dubp_cond.specs.Spelled.{spelled};

    ghost Value = { CondTree };

    ghost coded = { cond_code };

    ghost view = { λ s. spelled s.text };

    ghost invariant = { λ s. IsCond (spelled s.text) };
}

impl SpelledCond {
    /// The condition that this text is. None exactly where `read_cond` gives none. `NoMemory` only where it is a condition's text and
    /// there is no room for a copy of it.
    pub fn read(alloc: Global, text: &[u8]) -> Result<Option<SpelledCond>, NoMemory>
        ensures found { IfOk result (λ found. IfSome found (λ c. IsCond c × (text.now ≡ cond_text c))) }
        ensures only { (c : CondTree) → IsCond c → text.now ≡ cond_text c → IfOk result (λ found. found ≡ Some c) }
        ensures lacked { OnErr result (IsTextOf IsCond cond_text text.now) }
        ensures exact { IfOk result (λ found. found ≡ cond_of_text text.now) }
    {
        read_spelled(alloc, text)
    }

    /// The spelling of a condition in range. `NoMemory` where there is no room for its text.
    pub fn of(alloc: Global, cond: &Cond) -> Result<SpelledCond, NoMemory>
        requires { IsCond cond.now }
        ensures { IfOk result (λ spelled. spelled ≡ cond.now) }
    {
        let mut line: Line = ArrayVec::new();
        put_cond(cond, &mut line);
        let text = Items::from_vec(copied(alloc, line.as_slice())?);
        Ok(SpelledCond { text })
    }

    /// The condition as its elements. `NoMemory` where there is no room for them.
    pub fn tree(&self, alloc: Global) -> Result<Cond, NoMemory>
        ensures { IfOk result (λ tree. tree ≡ self.now) }
    {
        match read_whole(alloc, self.text.as_slice())? {
            Some(cond) => Ok(cond),
            None => Ok(Cond {
                any: Vec::new(alloc),
            }),
        }
    }

    /// The text of the condition.
    pub fn as_text(&self) -> &[u8]
        ensures text { result.now ≡ cond_text self.now }
        ensures valid { IsCond self.now }
    {
        self.text.as_slice()
    }

    /// An equal condition. `NoMemory` where there is no room for it.
    pub fn copy(&self, alloc: Global) -> Result<SpelledCond, NoMemory>
        ensures { IfOk result (λ copied. copied ≡ self.now) }
    {
        Ok(SpelledCond {
            text: self.text.copy(alloc)?,
        })
    }
}

/// Where there is no room for the text, it is a condition's.
pub(crate) fn read_spelled(alloc: Global, text: &[u8]) -> Result<Option<SpelledCond>, NoMemory>
    ensures exact { IfOk result (λ found. found ≡ cond_of_text text.now) }
    ensures lacked { OnErr result (IsSome (cond_of_text text.now)) }
{
    if !pass_whole(text) {
        return Ok(None);
    }
    let text = Items::from_vec(copied(alloc, text)?);
    Ok(Some(SpelledCond { text }))
}
