ghost use Rattle.std.specs.Prelude.{◌≡◌, ◌+◌, ◌≤◌, ◌∷◌, [], List, Option, length, None, OnOk, OnErr, IsOk, IfSome, IfNone, ⊤};
ghost use Rattle.std.specs.BTreeMap.Range.{IsLeBy};
ghost use Rattle.dubp_moving.specs.Others.{Others};
ghost use Rattle.dubp_journal.specs.MovingTable.{get, Puts, IsLeast, IsLowest, HasNone, IsPlaced, Places, IsAfter};
ghost use Rattle.dubp_undo.specs.Definition.{IsAt};
ghost use Rattle.dubp_undo.specs.Turned.{others_of, count_of};

use dubp_costs::{NoMemory, Steps};
use dubp_journal::{Finder, Summary, TellsLeast, UndoTable};
use dubp_moving::{Definition, Tables};
use std::alloc::Global;
use std::marker::PhantomData;
use std::sync::ledger::Ledger as StepBook;

/// One table of a chain of blocks `B`, with its definition `D`, whose slots `F` finds, and over whose values `S` is kept.
///
/// A `Leaf` is one whose slots are found by the order of their keys.
#[derive(Drop)]
pub struct Found<B, K, V, D, F: Finder<K>, S: Summary<V>> {
    pub table: UndoTable<K, V, F, S>,
    of: PhantomData<(B, D)>,
}

impl<B, K: Copy, V: Copy + Eq, D: Definition<B, K, V>, F: Finder<K>, S: Summary<V>> Tables<B>
    for Found<B, K, V, D, F, S> {
    ghost Now = { List (K × V) };

    ghost Names = { ⊤ };

    ghost now = { λ t. t.table.now };

    ghost count = { λ t. count_of t.table };

    ghost others = { λ t. others_of t.table };

    ghost spare = { λ t. t.table.spare };

    ghost names = { λ t. tt };

    ghost is = { λ m n c. IsAt F.cmp D.at n c };

    ghost at = { λ t c. IsAt F.cmp D.at t.table.now c };

    fn depth(&self) -> usize {
        self.table.depth()
    }

    fn mark(&mut self) -> Result<(), NoMemory> {
        self.table.mark()?;
        Ok(())
    }

    fn unmark(&mut self) {
        self.table.unmark();
    }

    fn reserve(&mut self, k: usize) -> Result<(), NoMemory> {
        self.table.reserve(k)?;
        Ok(())
    }

    fn back<L: StepBook>(&mut self, steps: &mut Steps<L>) {
        self.table.back(steps);
    }

    fn hold<L: StepBook>(&mut self, steps: &mut Steps<L>) {
        self.table.hold(steps);
    }

    fn again<L: StepBook>(&mut self, steps: &mut Steps<L>) {
        self.table.again(steps);
    }

    fn drop_oldest(&mut self) {
        self.table.drop_oldest();
    }

    fn drop_ahead(&mut self) {
        self.table.drop_ahead();
    }

    ghost is_at = { λ t c is. is };

    ghost at_is = { λ t c is. is };
}

impl<B, K: Copy, V: Copy + Eq, D: Definition<B, K, V>, F: Finder<K>, S: TellsLeast<V>> Found<
    B,
    K,
    V,
    D,
    F,
    S,
> {
    /// An entry of the table whose value has the least measure, in one look. `None` where the table has no entry.
    pub fn lowest(&self) -> Option<(K, V)>
        ensures found { IfSome result (IsLowest F.cmp S.measure (⟦<Found<B, K, V, D, F, S> as Tables<B>>⟧.now self.now)) }
        ensures none { IfNone result (HasNone F.cmp (⟦<Found<B, K, V, D, F, S> as Tables<B>>⟧.now self.now) (λ q. ⊤)) }
    {
        self.table.lowest()
    }
}

impl<B, K: Copy, V: Copy + Eq, D: Definition<B, K, V>, F: Finder<K>, S: Summary<V>> Found<
    B,
    K,
    V,
    D,
    F,
    S,
> {
    /// The empty table over a finder that finds no key, and the summary of no slot. It keeps no earlier state, and takes no memory.
    pub fn over(finder: F, summary: S, alloc: Global) -> Found<B, K, V, D, F, S>
        requires finds { (k : K) → F.slot_of finder k ≡ None }
        requires sums { S.sums summary [] }
        ensures now { ⟦<Found<B, K, V, D, F, S> as Tables<B>>⟧.now result ≡ [] }
        ensures count { ⟦<Found<B, K, V, D, F, S> as Tables<B>>⟧.count result ≡ 0 }
        ensures others { ⟦<Found<B, K, V, D, F, S> as Tables<B>>⟧.others result ≡ record { kept = []; ahead = []; root = [] } }
    {
        Found {
            table: UndoTable::over(finder, summary, alloc),
            of: PhantomData,
        }
    }

    /// The value that the table has at the key, or `None` where it has none.
    pub fn get(&self, k: K) -> Option<V>
        ensures { result ≡ get F.cmp (⟦<Found<B, K, V, D, F, S> as Tables<B>>⟧.now self.now) k }
    {
        self.table.get(k)
    }

    /// Places the key, and makes room for n keys that are placed to be set. No step.
    ///
    /// `NoMemory` comes only where the key is not placed or `room` is below n.
    pub fn ready(&mut self, k: K, n: usize) -> Result<(), NoMemory>
        ensures now { ⟦<Found<B, K, V, D, F, S> as Tables<B>>⟧.now self.new ≡ ⟦<Found<B, K, V, D, F, S> as Tables<B>>⟧.now self.old }
        ensures count { ⟦<Found<B, K, V, D, F, S> as Tables<B>>⟧.count self.new ≡ ⟦<Found<B, K, V, D, F, S> as Tables<B>>⟧.count self.old }
        ensures others { ⟦<Found<B, K, V, D, F, S> as Tables<B>>⟧.others self.new ≡ ⟦<Found<B, K, V, D, F, S> as Tables<B>>⟧.others self.old }
        ensures placed { OnOk result (Places F.cmp self.old.table.placed self.new.table.placed k) }
        ensures room { OnOk result (n ≤ self.new.table.room) }
        ensures room_stays { self.old.table.room ≤ self.new.table.room }

        ensures refused { OnErr result (self.new.table.placed ≡ self.old.table.placed) }
        ensures succeeds { IsPlaced F.cmp k self.old.table.placed → n ≤ self.old.table.room → IsOk result }
    {
        self.table.ready(k, n)?;
        Ok(())
    }

    /// Gives the key the value v, or takes its value away where v is `None`. One step.
    ///
    /// `NoMemory` comes only where the key is not placed or `room` is 0; the maps are as before then.
    pub fn set<L: StepBook>(
        &mut self,
        k: K,
        v: Option<V>,
        steps: &mut Steps<L>,
    ) -> Result<(), NoMemory>
        ensures now { OnOk result (Puts F.cmp (⟦<Found<B, K, V, D, F, S> as Tables<B>>⟧.now self.old) (⟦<Found<B, K, V, D, F, S> as Tables<B>>⟧.now self.new) k v) }
        ensures others { ⟦<Found<B, K, V, D, F, S> as Tables<B>>⟧.others self.new ≡ ⟦<Found<B, K, V, D, F, S> as Tables<B>>⟧.others self.old }
        ensures count { ⟦<Found<B, K, V, D, F, S> as Tables<B>>⟧.count self.new + steps.old ≤ ⟦<Found<B, K, V, D, F, S> as Tables<B>>⟧.count self.old + steps.new }
        ensures step { OnOk result (steps.new ≡ steps.old + 1) }
        ensures placed { OnOk result (Places F.cmp self.old.table.placed self.new.table.placed k) }
        ensures room { self.old.table.room ≤ self.new.table.room + 1 }

        ensures refused { OnErr result (⟦<Found<B, K, V, D, F, S> as Tables<B>>⟧.now self.new ≡ ⟦<Found<B, K, V, D, F, S> as Tables<B>>⟧.now self.old) }
        ensures refused_count { OnErr result (⟦<Found<B, K, V, D, F, S> as Tables<B>>⟧.count self.new ≡ ⟦<Found<B, K, V, D, F, S> as Tables<B>>⟧.count self.old) }
        ensures no_step { OnErr result (steps.new ≡ steps.old) }
        ensures err_placed { OnErr result (self.new.table.placed ≡ self.old.table.placed) }
        ensures succeeds { IsPlaced F.cmp k self.old.table.placed → 1 ≤ self.old.table.room → IsOk result }
    {
        self.table.set(k, v, steps)?;
        Ok(())
    }
}
