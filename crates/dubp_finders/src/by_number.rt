ghost use Rattle.std.specs.Prelude.{◌≡◌, ℕ, None, get_or};
ghost use Rattle.std.specs.Ordering.{nat_cmp};
ghost use Rattle.std.specs.Cmp.{nat_cmp_total};
ghost use Rattle.dubp_journal.specs.Finders.{number_respects};

use dubp_costs::NoMemory;
use dubp_journal::Finder;
use std::alloc::Global;

/// Slots of keys that are numbers, counted from 0.
///
/// It takes memory for each number up to the greatest key, and keeps it when a key is removed. `usize::MAX` never gets a slot.
#[derive(Drop)]
pub struct ByNumber {
    slots: Vec<Option<usize>>,
}

impl ByNumber {
    /// No key. It takes no memory.
    pub fn new(alloc: Global) -> ByNumber
        ensures { (k : ℕ) → ⟦<ByNumber as Finder<usize>>⟧.slot_of result k ≡ None }
    {
        ByNumber {
            slots: Vec::new(alloc),
        }
    }
}

impl Finder<usize> for ByNumber {
    ghost cmp = { nat_cmp };

    ghost slot_of = { λ f k. get_or f.slots.items k None };

    fn slot(&self, k: usize) -> Option<usize> {
        if k < self.slots.len() {
            self.slots[k]
        } else {
            None
        }
    }

    fn place(&mut self, k: usize, next: usize) -> Result<Option<usize>, NoMemory> {
        if let Some(slot) = self.slot(k) {
            return Ok(Some(slot));
        }
        if k == usize::MAX {
            return Err(NoMemory);
        }
        if self.slots.len() <= k {
            self.slots.resize(k + 1, None).map_err(|_| NoMemory)?;
        }
        self.slots[k] = Some(next);
        Ok(None)
    }

    fn remove(&mut self, k: usize) {
        if k < self.slots.len() {
            self.slots[k] = None;
        }
    }

    ghost total = { nat_cmp_total };

    ghost respects = { λ f q k. number_respects f.slots.items q k };
}
