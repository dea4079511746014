ghost use Rattle.std.specs.Prelude.{◌≡◌, ◌+◌, ◌≤◌, OnOk, OnErr, IsOk};
ghost use Rattle.dubp_cindex.specs.Changes.{Makes, IsReady, sets_of};

use dubp_atoms::{NoMemory, Steps};
use dubp_undo::{Definition, Finder, Found, Leaf, NoSummary, Tables};
use std::sync::ledger::Ledger as StepBook;

/// What becomes of the value at a key.
#[derive(Clone, Copy, Debug)]
pub enum Change<V> {
    /// It stays.
    Stays,
    /// It is this one from then on, or none.
    Becomes(Option<V>),
}

/// Makes the key ready where its value changes.
pub fn ready_for<B, K: Ord + Copy, V: Copy + Eq, D: Definition<B, K, V>>(
    table: &mut Leaf<B, K, V, D>,
    k: K,
    change: &Change<V>,
) -> Result<(), NoMemory>
    ensures now { ⟦<Leaf<B, K, V, D> as Tables<B>>⟧.now table.new ≡ ⟦<Leaf<B, K, V, D> as Tables<B>>⟧.now table.old }
    ensures count { ⟦<Leaf<B, K, V, D> as Tables<B>>⟧.count table.new ≡ ⟦<Leaf<B, K, V, D> as Tables<B>>⟧.count table.old }
    ensures others { ⟦<Leaf<B, K, V, D> as Tables<B>>⟧.others table.new ≡ ⟦<Leaf<B, K, V, D> as Tables<B>>⟧.others table.old }
    ensures ready { OnOk result (IsReady K.cmp table.new.table k change.now) }
{
    match change {
        Change::Stays => Ok(()),
        Change::Becomes(_) => {
            table.ready(k, 1)?;
            Ok(())
        }
    }
}

/// The same of a table whose slots are found by F.
pub fn ready_found<B, K: Copy, V: Copy + Eq, D: Definition<B, K, V>, F: Finder<K>>(
    table: &mut Found<B, K, V, D, F, NoSummary>,
    k: K,
    change: &Change<V>,
) -> Result<(), NoMemory>
    ensures now { ⟦<Found<B, K, V, D, F, NoSummary> as Tables<B>>⟧.now table.new ≡ ⟦<Found<B, K, V, D, F, NoSummary> as Tables<B>>⟧.now table.old }
    ensures count { ⟦<Found<B, K, V, D, F, NoSummary> as Tables<B>>⟧.count table.new ≡ ⟦<Found<B, K, V, D, F, NoSummary> as Tables<B>>⟧.count table.old }
    ensures others { ⟦<Found<B, K, V, D, F, NoSummary> as Tables<B>>⟧.others table.new ≡ ⟦<Found<B, K, V, D, F, NoSummary> as Tables<B>>⟧.others table.old }
    ensures ready { OnOk result (IsReady F.cmp table.new.table k change.now) }
{
    match change {
        Change::Stays => Ok(()),
        Change::Becomes(_) => {
            table.ready(k, 1)?;
            Ok(())
        }
    }
}

/// Sets the key where its value changes.
pub fn make<L: StepBook, B, K: Ord + Copy, V: Copy + Eq, D: Definition<B, K, V>>(
    table: &mut Leaf<B, K, V, D>,
    k: K,
    change: &Change<V>,
    steps: &mut Steps<L>,
) -> Result<(), NoMemory>
    ensures now { OnOk result (Makes K.cmp (⟦<Leaf<B, K, V, D> as Tables<B>>⟧.now table.old) (⟦<Leaf<B, K, V, D> as Tables<B>>⟧.now table.new) k change.now) }
    ensures others { ⟦<Leaf<B, K, V, D> as Tables<B>>⟧.others table.new ≡ ⟦<Leaf<B, K, V, D> as Tables<B>>⟧.others table.old }
    ensures count { ⟦<Leaf<B, K, V, D> as Tables<B>>⟧.count table.new + steps.old ≤ ⟦<Leaf<B, K, V, D> as Tables<B>>⟧.count table.old + steps.new }
    ensures step { OnOk result (steps.new ≡ steps.old + sets_of change.now) }

    ensures refused { OnErr result (⟦<Leaf<B, K, V, D> as Tables<B>>⟧.now table.new ≡ ⟦<Leaf<B, K, V, D> as Tables<B>>⟧.now table.old) }
    ensures no_step { OnErr result (steps.new ≡ steps.old) }
    ensures succeeds { IsReady K.cmp table.old.table k change.now → IsOk result }
{
    match change {
        Change::Stays => Ok(()),
        Change::Becomes(value) => {
            table.set(k, *value, steps)?;
            Ok(())
        }
    }
}

/// The same of a table whose slots are found by F.
pub fn make_found<L: StepBook, B, K: Copy, V: Copy + Eq, D: Definition<B, K, V>, F: Finder<K>>(
    table: &mut Found<B, K, V, D, F, NoSummary>,
    k: K,
    change: &Change<V>,
    steps: &mut Steps<L>,
) -> Result<(), NoMemory>
    ensures now { OnOk result (Makes F.cmp (⟦<Found<B, K, V, D, F, NoSummary> as Tables<B>>⟧.now table.old) (⟦<Found<B, K, V, D, F, NoSummary> as Tables<B>>⟧.now table.new) k change.now) }
    ensures others { ⟦<Found<B, K, V, D, F, NoSummary> as Tables<B>>⟧.others table.new ≡ ⟦<Found<B, K, V, D, F, NoSummary> as Tables<B>>⟧.others table.old }
    ensures count { ⟦<Found<B, K, V, D, F, NoSummary> as Tables<B>>⟧.count table.new + steps.old ≤ ⟦<Found<B, K, V, D, F, NoSummary> as Tables<B>>⟧.count table.old + steps.new }
    ensures step { OnOk result (steps.new ≡ steps.old + sets_of change.now) }

    ensures refused { OnErr result (⟦<Found<B, K, V, D, F, NoSummary> as Tables<B>>⟧.now table.new ≡ ⟦<Found<B, K, V, D, F, NoSummary> as Tables<B>>⟧.now table.old) }
    ensures no_step { OnErr result (steps.new ≡ steps.old) }
    ensures succeeds { IsReady F.cmp table.old.table k change.now → IsOk result }
{
    match change {
        Change::Stays => Ok(()),
        Change::Becomes(value) => {
            table.set(k, *value, steps)?;
            Ok(())
        }
    }
}
