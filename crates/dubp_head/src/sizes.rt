ghost use Rattle.std.specs.Prelude.{◌≡◌, ◌-◌, ◌<◌, ◌≤◌, List, [], ◌∷◌, drop, length, take, vec_capacity, OnOk};
ghost use Rattle.dubp_chain.specs.declared.head.Head.{Head as HeadValue};
ghost use Rattle.dubp_head.specs.Totals.{AreTotals, total_of};

use dubp_atoms::NoMemory;
use std::alloc::Global;
use std::marker::Model;

/// The sizes of the blocks of a chain, summed up, so that the last of them together are told by two looks.
///
/// Contracts see a `SizesState`. Of which blocks they are is said by `AreTotals`. Only `reserve` takes memory.
#[derive(Drop)]
pub(crate) struct Sizes {
    // For each block, oldest first, the size of it and of those before it together.
    totals: Vec<u128>,
}

impl Model for Sizes {
    ghost use Rattle.std.specs.Prelude.{vec_capacity};
    ghost use Rattle.dubp_head.specs.Totals.{SizesState};

    ghost Value = { SizesState };

    ghost view = { λ s. record { totals = s.totals.items; room = vec_capacity s.totals } };
}

impl Sizes {
    /// Those of no block. It takes no memory.
    pub(crate) fn new(alloc: Global) -> Sizes
        ensures { AreTotals result [] }
    {
        Sizes {
            totals: Vec::new(alloc),
        }
    }

    /// Takes memory for so many blocks.
    pub(crate) fn reserve(&mut self, count: usize) -> Result<(), NoMemory>
        ensures totals { self.new.totals ≡ self.old.totals }
        ensures reserved { OnOk result (count ≤ self.new.room) }
        ensures room { self.old.room ≤ self.new.room }
    {
        let more = count.saturating_sub(self.totals.len());
        self.totals.reserve(more).map_err(|_| NoMemory)
    }

    /// One block more, of this size. There is room for it.
    pub(crate) fn push(&mut self, size: u64)
        requires { length self.old.totals < self.old.room }
        ensures totals { (hs : List HeadValue) (h : HeadValue) → h.size ≡ size → AreTotals self.old hs → AreTotals self.new (h ∷ hs) }
        ensures room { self.new.room ≡ self.old.room }
    {
        let before = self.of_first(self.totals.len());
        self.totals
            .push_reserved(before.saturating_add(size as u128));
    }

    /// The newest block goes.
    pub(crate) fn pop(&mut self)
        ensures totals { (hs : List HeadValue) (h : HeadValue) → AreTotals self.old (h ∷ hs) → AreTotals self.new hs }
        ensures room { self.new.room ≡ self.old.room }
    {
        self.totals.pop();
    }

    /// The size of the last so many blocks together, or of all where there are fewer.
    pub(crate) fn of_last(&self, count: u64) -> u128
        ensures { (hs : List HeadValue) → AreTotals self.now hs → result ≡ total_of (take count hs) }
    {
        let len = self.totals.len();
        let before = len.saturating_sub(count as usize);
        self.of_first(len).saturating_sub(self.of_first(before))
    }

    // The size of the first so many blocks together.
    fn of_first(&self, count: usize) -> u128
        requires { count ≤ length self.now.totals }
        ensures { (hs : List HeadValue) → AreTotals self.now hs → result ≡ total_of (drop (length hs - count) hs) }
    {
        if count == 0 {
            0
        } else {
            self.totals[count - 1]
        }
    }
}
