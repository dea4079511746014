ghost use Rattle.std.specs.Prelude.{◌≡◌, ◌+◌, ◌≤◌, ◌<◌, ◌++◌, ◌∷◌, [], MatchOption, None, OnOk, Some, drop, length, reverse, slice_get, take, vec_capacity, vec_len};

use dubp_atoms::NoMemory;
use dubp_people_and_money::LeftBehind;
use std::alloc::Global;
use std::marker::Model;

/// What each block of a chain left behind, and each block that is held.
///
/// Contracts see both lists, newest first, and for how many blocks there is room without memory.
#[derive(Drop)]
pub(crate) struct Traces {
    // Oldest first.
    standing: Vec<LeftBehind>,
    // Newest first.
    held: Vec<LeftBehind>,
}

impl Model for Traces {
    ghost use Rattle.std.specs.Prelude.{reverse, vec_capacity};
    ghost use Rattle.dubp_ledger.specs.Traces.{TracesState};

    ghost Value = { TracesState };

    ghost view = { λ t. record {
      standing = reverse t.standing.items;
      held = t.held.items;
      room = vec_capacity t.standing;
      space = vec_capacity t.held;
    } };
}

impl Traces {
    /// Those of no block. It takes no memory.
    pub(crate) fn new(alloc: Global) -> Traces
        ensures standing { result.standing ≡ [] }
        ensures held { result.held ≡ [] }
    {
        Traces {
            standing: Vec::new(alloc),
            held: Vec::new(alloc),
        }
    }

    /// Takes memory for one block more.
    pub(crate) fn reserve(&mut self) -> Result<(), NoMemory>
        ensures standing { self.new.standing ≡ self.old.standing }
        ensures held { self.new.held ≡ self.old.held }
        ensures reserved { OnOk result (length self.new.standing < self.new.room) }
        ensures room { self.old.room ≤ self.new.room }
    {
        self.standing.reserve(1).map_err(|_| NoMemory)
    }

    /// One block more, which left this behind. There is room for it.
    pub(crate) fn push(&mut self, left: LeftBehind)
        requires { length self.old.standing < self.old.room }
        ensures standing { self.new.standing ≡ left ∷ self.old.standing }
        ensures held { self.new.held ≡ self.old.held }
        ensures room { self.new.room ≡ self.old.room }
    {
        self.standing.push_reserved(left);
    }

    /// Takes the last blocks off.
    pub(crate) fn take_off(&mut self, count: usize)
        ensures standing { self.new.standing ≡ drop count self.old.standing }
        ensures held { self.new.held ≡ self.old.held }
        ensures room { self.new.room ≡ self.old.room }
    {
        let left = self.standing.len().saturating_sub(count);
        self.standing.truncate(left);
    }

    /// Takes memory for so many blocks that are to be held. None is held.
    pub(crate) fn ready(&mut self, count: usize) -> Result<(), NoMemory>
        ensures standing { self.new.standing ≡ self.old.standing }
        ensures held { self.new.held ≡ [] }
        ensures space { OnOk result (count ≤ self.new.space) }
        ensures room { self.new.room ≡ self.old.room }
    {
        self.held.clear();
        self.held.reserve(count).map_err(|_| NoMemory)
    }

    /// The last blocks are held, or all where there are fewer. There is room for them, and none is held.
    pub(crate) fn hold(&mut self, count: usize)
        requires held { self.old.held ≡ [] }
        requires space { count ≤ self.old.space }
        ensures standing { self.new.standing ≡ drop count self.old.standing }
        ensures held { self.new.held ≡ take count self.old.standing }
        ensures room { self.new.room ≡ self.old.room }
        ensures within { length self.old.standing ≤ self.new.room }
    {
        let count = count.min(self.standing.len());
        move_last(&mut self.standing, &mut self.held, count);
    }

    /// The held blocks stand again. There is room for them.
    pub(crate) fn put_back(&mut self)
        requires { length self.old.held + length self.old.standing ≤ self.old.room }
        ensures standing { self.new.standing ≡ self.old.held ++ self.old.standing }
        ensures held { self.new.held ≡ [] }
        ensures room { self.new.room ≡ self.old.room }
    {
        let count = self.held.len();
        move_last(&mut self.held, &mut self.standing, count);
    }

    /// None is held any more.
    pub(crate) fn drop_held(&mut self)
        ensures standing { self.new.standing ≡ self.old.standing }
        ensures held { self.new.held ≡ [] }
        ensures room { self.new.room ≡ self.old.room }
    {
        self.held.clear();
    }

    /// What the block left behind that stands so many before the last. None where there are not so many.
    pub(crate) fn before(&self, count: usize) -> Option<&LeftBehind>
        ensures { MatchOption result (slice_get self.now.standing count ≡ None) (λ t. slice_get self.now.standing count ≡ Some t.now) }
    {
        let place = self.standing.len().checked_sub(count)?.checked_sub(1)?;
        self.standing.get(place)
    }
}

// Moves the last so many, the last first, behind the others. There is room for them.
fn move_last(from: &mut Vec<LeftBehind>, to: &mut Vec<LeftBehind>, count: usize)
    requires few { count ≤ vec_len from.old }
    requires room { vec_len to.old + count ≤ vec_capacity to.old }
    ensures from { reverse from.new.items ≡ drop count (reverse from.old.items) }
    ensures to { to.new.items ≡ to.old.items ++ take count (reverse from.old.items) }
    ensures from_capacity { vec_capacity from.new ≡ vec_capacity from.old }
    ensures to_capacity { vec_capacity to.new ≡ vec_capacity to.old }
{
    for i in 0..count {
        to.push_reserved(from.pop().unwrap());
    }
}
