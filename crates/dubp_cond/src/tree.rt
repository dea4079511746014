use arrayvec::ArrayVec;
use dubp_atoms::{Hash, Key};
use std::marker::Model;

/// The text of a condition, which lies in the value itself.
pub type CondText = ArrayVec<u8, 1000>;

/// A condition (COND): it is true where some of its ALLs is.
///
/// Contracts see it as the tree of its elements, so two conditions are equal where their elements are.
#[cycle(cond)]
#[derive(Debug, Drop)]
pub struct Cond {
    pub any: Vec<All>,
}

impl Model for Cond {
    ghost use Rattle.dubp_cond.specs.Tree.{CondTree, depth};
    ghost use Rattle.dubp_cond.specs.TreeCode.{cond_code};

    ghost Value = { CondTree };

    ghost coded = { cond_code };

    ghost use Rattle.dubp_cond.specs.View.{cond_view};

    ghost view = { λ c. cond_view c.any.items };

    ghost size = { depth };

    ghost use Rattle.dubp_cond.specs.Nesting.{deep_le_depth};

    ghost size_decreases = { λ a h. deep_le_depth a.any.items };
}

/// An ALL: it is true where every one of its ITEMs is.
#[cycle(cond)]
#[derive(Debug, Drop)]
pub struct All {
    pub every: Vec<Item>,
}

/// An ITEM: the signature of a key, the password of a hash, seconds since the source was written, a time, or a condition
/// in parentheses.
#[cycle(cond)]
#[derive(Debug, Drop)]
pub enum Item {
    Sig(Key),
    Xhx(Hash),
    Csv(u64),
    Cltv(u64),
    Group(Box<Cond>),
}
