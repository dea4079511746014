ghost use Rattle.std.specs.Prelude.{◌≡◌, ℕ, ◌<◌, ◌≤◌, ◌^◌, List, [], ◌∷◌, ◌++◌, length, nat_eq, slice_get, get_or, Some, false, replicate, IfOk, OnOk};
ghost use Rattle.std.specs.List.{list_any};
ghost use Rattle.indexmap.specs.IndexSet.{insert_key};
ghost use Rattle.dubp_wot.specs.Sought.{missing};

use crate::sentry::push;
use crate::sought::Sought;
use dubp_atoms::NoMemory;
use std::alloc::Global;
use std::marker::Model;

/// The numbers that a search has found, in the order of finding, with a mark for each.
#[derive(Drop)]
pub(crate) struct Found {
    numbers: Vec<usize>,
    marks: Vec<bool>,
}

impl Model for Found {
    ghost use Rattle.std.specs.Prelude.{ℕ, List};
    ghost use Rattle.dubp_wot.specs.Numbers.{AreMarked};

    ghost Value = { List ℕ };

    ghost view = { λ f. f.numbers.items };

    ghost invariant = { λ f. AreMarked f.numbers.items f.marks.items };
}

impl Found {
    /// None is found yet; there is room for the marks of the numbers below `size`.
    pub(crate) fn new(alloc: Global, size: usize) -> Result<Found, NoMemory>
        ensures { IfOk result (λ found. found ≡ []) }
    {
        let marks = unmarked(alloc, size)?;
        Ok(Found {
            numbers: Vec::new(alloc),
            marks,
        })
    }

    /// How many are found.
    pub(crate) fn len(&self) -> usize
        ensures value { result ≡ length self.now }
        ensures small { result < 2 ^ 63 }
    {
        self.numbers.len()
    }

    /// The number that was found at this place.
    pub(crate) fn at(&self, place: usize) -> usize
        requires { place < length self.now }
        ensures { slice_get self.now place ≡ Some result }
    {
        self.numbers[place]
    }

    /// Whether the number is found.
    pub(crate) fn has(&self, number: usize) -> bool
        ensures { result ≡ list_any (nat_eq number) self.now }
    {
        number < self.marks.len() && self.marks[number]
    }

    /// Puts a number behind the others, unless it is found. `left` is how many of the sought numbers are not found.
    pub(crate) fn insert(
        &mut self,
        number: usize,
        sought: &Sought<'_>,
        left: &mut usize,
    ) -> Result<(), NoMemory>
        requires small { number < 2 ^ 63 }
        requires counted { left.old ≡ missing sought.now.numbers self.old }
        ensures put { OnOk result (self.new ≡ insert_key nat_eq self.old number) }
        ensures counted { OnOk result (left.new ≡ missing sought.now.numbers self.new) }
    {
        if self.has(number) {
            return Ok(());
        }
        self.put(number)?;
        *left -= sought.count(number);
        Ok(())
    }

    /// Puts a number behind the others, with its mark. It stands by itself so that the look at a mark, which each pair costs, is short.
    fn put(&mut self, number: usize) -> Result<(), NoMemory>
        requires { number < 2 ^ 63 }
        ensures { OnOk result (self.new ≡ self.old ++ number ∷ []) }
    {
        lengthen(&mut self.marks, number + 1)?;
        push(&mut self.numbers, number)?;
        self.marks[number] = true;
        Ok(())
    }
}

/// So many marks of numbers that are not found.
fn unmarked(alloc: Global, size: usize) -> Result<Vec<bool>, NoMemory>
    ensures { IfOk result (λ marks. marks.items ≡ replicate size false) }
{
    vec![in alloc; false; size].map_err(|_| NoMemory)
}

/// Makes room for the marks of the numbers below `size`.
fn lengthen(marks: &mut Vec<bool>, size: usize) -> Result<(), NoMemory>
    ensures room { OnOk result (size ≤ length marks.new.items) }
    ensures same { (n : ℕ) → get_or marks.new.items n false ≡ get_or marks.old.items n false }
{
    if marks.len() < size {
        marks.resize(size, false).map_err(|_| NoMemory)?;
    }
    Ok(())
}
