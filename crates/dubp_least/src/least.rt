ghost use Rattle.std.specs.Prelude.{◌≡◌, ◌≤◌, nat_lt, ℕ, [], length, IfSome, IfNone};
ghost use Rattle.dubp_journal.specs.Least.{IsLeast, HasNone};
ghost use Rattle.dubp_least.specs.Matches.{IsPlayedOver};
ghost use Rattle.dubp_least.specs.Growing.{one_slot_more};

use crate::matches::{play_above, play_all, value_at, winner_at};
use dubp_costs::NoMemory;
use dubp_journal::{Summary, TellsLeast};
use std::alloc::Global;
use std::marker::PhantomData;

/// By what values are compared: a marker type gives each value its measure. No measure is made to be compared, so it may be of any size.
pub trait Measure<V> {
    ghost measure: { V → ℕ };

    /// Whether the measure of a value is below that of another.
    fn is_below(value: &V, other: &V) -> bool
        ensures { result ≡ nat_lt (measure value.now) (measure other.now) };
}

/// Which slot has the value with the least measure, as a tournament between the slots: each change plays a logarithm of matches, and
/// the least of all is read in one look.
#[derive(Drop)]
pub struct Least<M> {
    // the slot that wins at each node; as many places as it is long
    winners: Vec<usize>,
    of: PhantomData<M>,
}

impl<M> Least<M> {
    /// The summary of no slots, without room. It takes no memory.
    pub fn new<V: Copy>(alloc: Global) -> Least<M>
    where
        M: Measure<V>,
        ensures { ⟦<Least<M> as Summary<V>>⟧.sums result [] }
    {
        Least {
            winners: Vec::new(alloc),
            of: PhantomData,
        }
    }

    /// The first of the slots whose value has the least measure, in one look. `None` where no slot holds anything.
    pub fn least<V: Copy>(&self, values: &[Option<V>]) -> Option<usize>
    where
        M: Measure<V>,
        requires { ⟦<Least<M> as Summary<V>>⟧.sums self.now values.now }
        ensures found { IfSome result (IsLeast M.measure values.now) }
        ensures none { IfNone result (HasNone values.now) }
    {
        if values.is_empty() {
            return None;
        }
        let slot = winner_at(&self.winners, 1);
        match value_at(values, slot) {
            Some(_) => Some(slot),
            None => None,
        }
    }
}

impl<V: Copy, M: Measure<V>> Summary<V> for Least<M> {
    ghost sums = { λ s values. IsPlayedOver M.measure values s.winners.items };

    ghost has_room = { λ s n. n ≤ length s.winners.items };

    fn change(&mut self, values: &[Option<V>], slot: usize) {
        play_above::<V, M>(values, &mut self.winners, slot);
    }

    fn make_room(&mut self, values: &[Option<V>]) -> Result<(), NoMemory> {
        let places = self.winners.len();
        if values.len() < places {
            return Ok(());
        }
        self.winners
            .resize((2 * places).max(1), 0)
            .map_err(|_| NoMemory)?;
        play_all::<V, M>(values, &mut self.winners);
        Ok(())
    }

    ghost grows = { λ s values is room. one_slot_more M.measure values s.winners.items is room };
}

impl<V: Copy, M: Measure<V>> TellsLeast<V> for Least<M> {
    ghost measure = { M.measure };

    // the clauses of the trait, which the check cannot give a method whose trait names a member of another
    fn least_slot(&self, values: &[Option<V>]) -> Option<usize>
        requires { ⟦<Least<M> as Summary<V>>⟧.sums self.now values.now }
        ensures found { IfSome result (IsLeast M.measure values.now) }
        ensures none { IfNone result (HasNone values.now) }
    {
        self.least(values)
    }
}
