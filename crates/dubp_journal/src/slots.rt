ghost use Rattle.std.specs.Prelude.{◌≡◌, ◌<◌, ◌∷◌, ◌++◌, [], None, get_or, length, set, OnOk, OnErr};

use crate::summary::Summary;
use dubp_costs::NoMemory;
use std::alloc::Global;
use std::marker::Model;

/// What stands in each slot of a table, with a summary over all of it.
///
/// Contracts see it as the list of what stands in the slots.
#[derive(Drop)]
pub(crate) struct Slots<V, S: Summary<V>> {
    values: Vec<Option<V>>,
    summary: S,
}

impl<V, S: Summary<V>> Model for Slots<V, S> {
    ghost use Rattle.std.specs.Prelude.{List, Option};

    ghost Value = { List (Option V) };

    ghost view = { λ t. t.values.items };

    ghost invariant = { λ t. S.sums t.summary t.values.items };
}

impl<V: Copy, S: Summary<V>> Slots<V, S> {
    /// No slot. It takes no memory.
    pub(crate) fn new(summary: S, alloc: Global) -> Slots<V, S>
        requires { S.sums summary [] }
        ensures { result ≡ [] }
    {
        Slots {
            values: Vec::new(alloc),
            summary,
        }
    }

    /// How many slots there are.
    pub(crate) fn len(&self) -> usize
        ensures { result ≡ length self.now }
    {
        self.values.len()
    }

    /// What stands in the slot.
    pub(crate) fn get(&self, slot: usize) -> Option<V>
        requires { slot < length self.now }
        ensures { result ≡ get_or self.now slot None }
    {
        self.values[slot]
    }

    /// Whether the slot is there and holds nothing: a hint, of which no contract speaks.
    pub(crate) fn holds_nothing(&self, slot: usize) -> bool {
        slot < self.values.len() && self.values[slot].is_none()
    }

    /// Puts v into the slot. It takes no memory.
    pub(crate) fn set(&mut self, slot: usize, v: Option<V>)
        requires { slot < length self.old }
        ensures { self.new ≡ set self.old slot v }
    {
        self.values[slot] = v;
        self.summary.change(&self.values, slot);
    }

    /// One slot more, which holds nothing. `NoMemory` where there is no room for it, and then nothing has changed.
    pub(crate) fn push(&mut self) -> Result<(), NoMemory>
        ensures pushed { OnOk result (self.new ≡ self.old ++ None ∷ []) }
        ensures refused { OnErr result (self.new ≡ self.old) }
    {
        self.values.reserve(1).map_err(|_| NoMemory)?;
        self.summary.make_room(&self.values)?;
        self.values.push_reserved(None);
        Ok(())
    }

    /// What stands in all slots.
    pub(crate) fn values(&self) -> &[Option<V>]
        ensures { result.now ≡ self.now }
    {
        &self.values
    }

    /// The summary over all slots.
    pub(crate) fn summary(&self) -> &S
        ensures { S.sums result.now self.now }
    {
        &self.summary
    }
}
