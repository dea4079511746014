ghost use Rattle.std.specs.Prelude.{◌≡◌, ◌⊎◌, ◌+◌, ◌-◌, ◌<◌, ◌≤◌, [], ◌∷◌, ◌++◌, length, drop, None, ⊤, OnOk, OnErr, IsOk, IfSome, IfNone};
ghost use Rattle.std.specs.BTreeMap.Range.{IsFromStart, IsLeBy};
ghost use Rattle.dubp_journal.specs.MovingTable.{MovingTable, empty, IsUnchanged, get, Puts, SameValues, one_more, last_count, first_count, IsLeast, IsLowest, HasNone, IsAllPlaced, IsPlaced, Places, PlacesFewer, IsAfter};

use crate::by_order::ByOrder;
use crate::finder::{Finder, OrderedFinder};
use crate::hints::Hints;
use crate::moves::{Change, changes_since, drop_first, make_room, move_last, note, undo_last};
use crate::places::{give_up_idle, place};
use crate::slots::Slots;
use crate::summary::{NoSummary, Summary, TellsLeast};
use crate::walk::Walk;
use dubp_costs::{NoMemory, Steps};
use std::alloc::Global;
use std::collections::VecDeque;
use std::marker::Model;
use std::ops::Bound;
use std::snapshot::Snapshot;
use std::sync::ledger::Ledger as StepBook;

/// A map that keeps its earlier states, and those that it was taken back from.
///
/// Contracts see it as a `MovingTable`. A key that is placed stays so over every call but `drop_oldest` and `drop_ahead`, and
/// over these too where one of the maps has it; so no way back or forth needs memory. Only `set`, `ready`, `mark` and `reserve`
/// take any, and answer `NoMemory` where there is none. `mark` copies nothing. Every call but `reserve` and `hold` may lower
/// `spare`; only `set` lowers `room`, by 1 at most.
#[derive(Drop)]
pub struct UndoTable<K, V, F: Finder<K> = ByOrder<K>, S: Summary<V> = NoSummary> {
    finder: F,
    // the key of each slot, or `None` where it may be used again; how many changes name it; and what stands there now
    keys: Vec<Option<K>>,
    uses: Vec<usize>,
    slots: Slots<V, S>,
    hints: Hints,
    // the changes since the first mark, and how many come after each mark
    journal: VecDeque<Change<V>>,
    marks: VecDeque<usize>,
    // the same for the way forward, of which the last is the next
    redo: VecDeque<Change<V>>,
    redo_marks: VecDeque<usize>,
    spare: usize,
    // how many changes led to the first mark from the one before it, which is forgotten
    first: usize,
    // the slots from which the changes of the way forward are undone
    root: Snapshot<Slots<V, S>>,
    // the keys and slots of the last `hold` or `again`, where the way forward begins
    rooted_keys: Snapshot<Vec<Option<K>>>,
    rooted: Snapshot<Slots<V, S>>,
}

impl<K, V, F: Finder<K>, S: Summary<V>> Model for UndoTable<K, V, F, S> {
    ghost use Rattle.std.specs.Prelude.{◌+◌, ◌-◌, length, reverse};
    ghost use Rattle.std.specs.VecDeque.{deque_capacity};
    ghost use Rattle.dubp_journal.specs.MovingTable.{MovingTable};
    ghost use Rattle.dubp_journal.specs.Slots.{live, keys_in};
    ghost use Rattle.dubp_journal.specs.Journal.{states, IsKept};

    ghost Value = { MovingTable K V };

    ghost view = { λ t. record {
      past = states t.keys.items t.slots t.journal.items t.marks.items;
      first = t.first;
      now = live t.keys.items t.slots;
      ahead = reverse (states t.keys.items t.root.value t.redo.items t.redo_marks.items);
      root = live t.rooted_keys.value.items t.rooted.value;
      spare = t.spare;
      room = deque_capacity t.journal - (length t.journal.items + length t.redo.items);
      placed = keys_in t.keys.items;
    } };

    ghost invariant = { λ t. IsKept F.cmp (F.slot_of t.finder) t.keys.items t.uses.items t.slots t.root.value (live t.rooted_keys.value.items t.rooted.value) t.journal.items t.redo.items t.marks.items t.redo_marks.items t.spare (deque_capacity t.journal) (deque_capacity t.marks) (deque_capacity t.redo) (deque_capacity t.redo_marks) };
}

impl<K: Ord + Copy, V: Copy + Eq> UndoTable<K, V> {
    /// The empty table whose slots are found by the order of their keys. It keeps no earlier state, and takes no memory.
    pub fn new(alloc: Global) -> UndoTable<K, V>
        ensures { result ≡ empty }
    {
        UndoTable::over(ByOrder::new(alloc), NoSummary, alloc)
    }

    /// A walk over `now` in the order of its keys, from a bound on. It takes no memory.
    pub fn walk_from(&self, from: Bound<K>) -> Walk<'_, K, V>
        ensures { result ≡ record { map = self.now.now; from = from } }
    {
        let table = Snapshot::of(self);
        let left = self.finder.range_from(from);
        Walk::over(table, from, left, self.slots.values())
    }
}

impl<K: Copy, V: Copy + Eq, F: OrderedFinder<K>, S: Summary<V>> UndoTable<K, V, F, S> {
    /// The least key of `now` that is at least k, with its value, or `None` where there is none.
    /// It steps over placed keys without a value.
    pub fn next_from(&self, k: K) -> Option<(K, V)>
        ensures found { IfSome result (IsLeast F.cmp self.now.now (IsLeBy F.cmp k)) }
        ensures none { IfNone result (HasNone F.cmp self.now.now (IsLeBy F.cmp k)) }
    {
        self.first_from(Bound::Included(k))
    }

    /// The least key of `now` above k, or the least of all where k is `None`, with its value. `None` where there is none.
    /// It steps over placed keys without a value.
    pub fn next_after(&self, k: Option<K>) -> Option<(K, V)>
        ensures found { IfSome result (IsLeast F.cmp self.now.now (IsAfter F.cmp k)) }
        ensures none { IfNone result (HasNone F.cmp self.now.now (IsAfter F.cmp k)) }
    {
        match k {
            Some(k) => self.first_from(Bound::Excluded(k)),
            None => self.first_from(Bound::Unbounded),
        }
    }

    // The least key from a bound on whose slot has a value, with that value.
    fn first_from(&self, first: Bound<K>) -> Option<(K, V)>
        ensures found { IfSome result (IsLeast F.cmp self.now.now (IsFromStart F.cmp first)) }
        ensures none { IfNone result (HasNone F.cmp self.now.now (IsFromStart F.cmp first)) }
    {
        self.finder.next_held(first, self.slots.values())
    }
}

impl<K: Copy, V: Copy + Eq, F: Finder<K>, S: TellsLeast<V>> UndoTable<K, V, F, S> {
    /// An entry of `now` whose value has the least measure, in one look. `None` where `now` has no entry.
    pub fn lowest(&self) -> Option<(K, V)>
        ensures found { IfSome result (IsLowest F.cmp S.measure self.now.now) }
        ensures none { IfNone result (HasNone F.cmp self.now.now (λ q. ⊤)) }
    {
        let slot = self.slots.summary().least_slot(self.slots.values())?;
        let k = self.keys[slot]?;
        let v = self.slots.get(slot)?;
        Some((k, v))
    }
}

impl<K: Copy, V: Copy + Eq, F: Finder<K>, S: Summary<V>> UndoTable<K, V, F, S> {
    /// The empty table over a finder that finds no key, and the summary of no slot. It keeps no earlier state, and takes no memory.
    pub fn over(finder: F, summary: S, alloc: Global) -> UndoTable<K, V, F, S>
        requires finds { (k : K) → F.slot_of finder k ≡ None }
        requires sums { S.sums summary [] }
        ensures { result ≡ empty }
    {
        let keys = Vec::new(alloc);
        let slots = Slots::new(summary, alloc);
        let root = Snapshot::of(&slots);
        let rooted_keys = Snapshot::of(&keys);
        let rooted = Snapshot::of(&slots);
        UndoTable {
            finder,
            keys,
            uses: Vec::new(alloc),
            slots,
            hints: Hints::new(alloc),
            // a capacity of 0 is said by this call alone, and takes no memory
            journal: VecDeque::with_capacity(alloc, 0).unwrap(),
            marks: VecDeque::new(alloc),
            redo: VecDeque::new(alloc),
            redo_marks: VecDeque::new(alloc),
            spare: 0,
            first: 0,
            root,
            rooted_keys,
            rooted,
        }
    }

    /// The value that `now` has at the key, or `None` where it has none.
    pub fn get(&self, k: K) -> Option<V>
        ensures { result ≡ get F.cmp self.now.now k }
    {
        let slot = self.finder.slot(k)?;
        self.slots.get(slot)
    }

    /// How many earlier maps are kept.
    ///
    /// Each key of a map of `past`, `now`, `ahead` or, where something is ahead, `root` is placed.
    pub fn depth(&self) -> usize
        ensures depth { result ≡ length self.now.past }
        ensures placed { IsAllPlaced F.cmp self.now }
    {
        self.marks.len()
    }

    /// Gives the key the value v, or takes its value away where v is `None`. One step.
    ///
    /// `NoMemory` comes only where the key is not placed or `room` is 0; nothing has changed then, `spare` and `room` aside.
    pub fn set<L: StepBook>(
        &mut self,
        k: K,
        v: Option<V>,
        steps: &mut Steps<L>,
    ) -> Result<(), NoMemory>
        ensures now { OnOk result (Puts F.cmp self.old.now self.new.now k v) }
        ensures first { self.new.first ≡ self.old.first }
        ensures past { OnOk result (self.new.past ≡ one_more self.old.past) }
        ensures placed { OnOk result (Places F.cmp self.old.placed self.new.placed k) }
        ensures step { OnOk result (steps.new ≡ steps.old + 1) }
        ensures ahead { self.new.ahead ≡ self.old.ahead }
        ensures root { self.new.root ≡ self.old.root }
        ensures room { self.old.room ≤ self.new.room + 1 }

        ensures refused { OnErr result (IsUnchanged self.old self.new) }
        ensures no_step { OnErr result (steps.new ≡ steps.old) }
        ensures succeeds { IsPlaced F.cmp k self.old.placed → 1 ≤ self.old.room → IsOk result }
    {
        make_room(&mut self.journal, self.redo.len(), 1)?;
        let slot = place(
            &mut self.finder,
            &mut self.keys,
            &mut self.uses,
            &mut self.slots,
            &mut self.hints,
            k,
        )?;
        note(
            &mut self.journal,
            &mut self.marks,
            &mut self.uses,
            (slot, self.slots.get(slot)),
        );
        self.slots.set(slot, v);
        self.hints.note_idle(slot, v.is_none());
        self.spare = 0;
        steps.tick();
        Ok(())
    }

    /// Places the key, and makes room for n keys that are placed to be set. No step.
    ///
    /// `NoMemory` comes only where the key is not placed or `room` is below n; nothing has changed then, `spare` and `room`
    /// aside.
    pub fn ready(&mut self, k: K, n: usize) -> Result<(), NoMemory>
        ensures placed { OnOk result (Places F.cmp self.old.placed self.new.placed k) }
        ensures room { OnOk result (n ≤ self.new.room) }
        ensures room_stays { self.old.room ≤ self.new.room }
        ensures past { self.new.past ≡ self.old.past }
        ensures now { self.new.now ≡ self.old.now }
        ensures first { self.new.first ≡ self.old.first }
        ensures ahead { self.new.ahead ≡ self.old.ahead }
        ensures root { self.new.root ≡ self.old.root }

        ensures refused { OnErr result (IsUnchanged self.old self.new) }
        ensures succeeds { IsPlaced F.cmp k self.old.placed → n ≤ self.old.room → IsOk result }
    {
        make_room(&mut self.journal, self.redo.len(), n)?;
        let slot = place(
            &mut self.finder,
            &mut self.keys,
            &mut self.uses,
            &mut self.slots,
            &mut self.hints,
            k,
        )?;
        self.hints.note_idle(slot, self.slots.holds_nothing(slot));
        Ok(())
    }

    /// Keeps `now`, at the end of `past`. Nothing is copied.
    ///
    /// `NoMemory` where there is no room for one more mark; nothing has changed then, `spare` and `room` aside.
    pub fn mark(&mut self) -> Result<(), NoMemory>
        ensures past { OnOk result (self.new.past ≡ self.old.past ++ (self.old.now, 0) ∷ []) }
        ensures now { self.new.now ≡ self.old.now }
        ensures first { self.new.first ≡ self.old.first }
        ensures ahead { self.new.ahead ≡ self.old.ahead }
        ensures root { self.new.root ≡ self.old.root }
        ensures placed { self.new.placed ≡ self.old.placed }
        ensures room_stays { self.old.room ≤ self.new.room }

        ensures refused { OnErr result (IsUnchanged self.old self.new) }
    {
        let extra = self.redo_marks.len() + 1;
        self.marks.reserve(extra).map_err(|_| NoMemory)?;
        self.marks.push_back_reserved(0);
        self.spare = 0;
        Ok(())
    }

    /// Takes back a mark after which no key was set. It takes no memory, and no step.
    pub fn unmark(&mut self)
        requires past { 0 < length self.old.past }
        requires fresh { last_count self.old.past ≡ 0 }
        ensures past { self.old.past ≡ self.new.past ++ (self.old.now, 0) ∷ [] }
        ensures now { self.new.now ≡ self.old.now }
        ensures first { self.new.first ≡ self.old.first }
        ensures ahead { self.new.ahead ≡ self.old.ahead }
        ensures root { self.new.root ≡ self.old.root }
        ensures placed { self.new.placed ≡ self.old.placed }
        ensures room_stays { self.old.room ≤ self.new.room }
    {
        let _count = self.marks.pop_back().unwrap();
        self.spare = 0;
    }

    /// Makes `spare` at least k, with room for the keys set since the last k marks and no more. `spare` never falls.
    ///
    /// `NoMemory` comes only where `spare` is below k; nothing has changed then, `spare` and `room` aside.
    pub fn reserve(&mut self, k: usize) -> Result<(), NoMemory>
        requires { k ≤ length self.old.past }
        ensures spare { OnOk result (k ≤ self.new.spare) }
        ensures spare_stays { self.old.spare ≤ self.new.spare }
        ensures past { self.new.past ≡ self.old.past }
        ensures now { self.new.now ≡ self.old.now }
        ensures first { self.new.first ≡ self.old.first }
        ensures ahead { self.new.ahead ≡ self.old.ahead }
        ensures root { self.new.root ≡ self.old.root }
        ensures placed { self.new.placed ≡ self.old.placed }
        ensures room_stays { self.old.room ≤ self.new.room }

        ensures refused { OnErr result (IsUnchanged self.old self.new) }
        ensures succeeds { k ≤ self.old.spare → IsOk result }
    {
        if k <= self.spare {
            return Ok(());
        }
        let changes = changes_since(&self.marks, k);
        self.redo.reserve_exact(changes).map_err(|_| NoMemory)?;
        self.redo_marks.reserve_exact(k).map_err(|_| NoMemory)?;
        self.spare = k;
        Ok(())
    }

    /// Goes back to the last of `past` and keeps the way forward: the old `now` goes to the front of `ahead`. It takes no
    /// memory. One step for each key that was set between the two.
    pub fn hold<L: StepBook>(&mut self, steps: &mut Steps<L>)
        requires past { 0 < length self.old.past }
        requires spare { 1 ≤ self.old.spare }
        requires begins { (self.old.ahead ≡ []) ⊎ SameValues F.cmp self.old.now self.old.root }
        ensures past { self.old.past ≡ self.new.past ++ (self.new.now, steps.new - steps.old) ∷ [] }
        ensures first { self.new.first ≡ self.old.first }
        ensures ahead { self.new.ahead ≡ (self.old.now, steps.new - steps.old) ∷ self.old.ahead }
        ensures root { self.new.root ≡ self.new.now }
        ensures spare { self.new.spare + 1 ≡ self.old.spare }
        ensures placed { self.new.placed ≡ self.old.placed }
        ensures room_stays { self.old.room ≤ self.new.room }
        ensures steps { steps.old ≤ steps.new }
    {
        let n = self.marks.pop_back().unwrap();
        move_last(&mut self.slots, &mut self.journal, &mut self.redo, n, steps);
        self.redo_marks.push_back_reserved(n);
        self.root = Snapshot::of(&self.slots);
        self.rooted_keys = Snapshot::of(&self.keys);
        self.rooted = Snapshot::of(&self.slots);
        self.spare -= 1;
    }

    /// Goes back to the last of `past`, which leaves it. `ahead` and `root` stay as they are. It takes no memory. One step
    /// for each key that was set between the two.
    pub fn back<L: StepBook>(&mut self, steps: &mut Steps<L>)
        requires { 0 < length self.old.past }
        ensures past { self.old.past ≡ self.new.past ++ (self.new.now, steps.new - steps.old) ∷ [] }
        ensures first { self.new.first ≡ self.old.first }
        ensures ahead { self.new.ahead ≡ self.old.ahead }
        ensures root { self.new.root ≡ self.old.root }
        ensures placed { self.new.placed ≡ self.old.placed }
        ensures room_stays { self.old.room ≤ self.new.room }
        ensures steps { steps.old ≤ steps.new }
    {
        let n = self.marks.pop_back().unwrap();
        undo_last(
            &mut self.slots,
            &mut self.journal,
            &mut self.uses,
            &mut self.hints,
            n,
            steps,
        );
        self.spare = 0;
    }

    /// Goes forward to the first of `ahead`, which leaves it; the old `now` is kept at the end of `past`. It takes no
    /// memory. One step for each key that was set between the two.
    pub fn again<L: StepBook>(&mut self, steps: &mut Steps<L>)
        requires ahead { 0 < length self.old.ahead }
        requires begins { SameValues F.cmp self.old.now self.old.root }
        ensures past { self.new.past ≡ self.old.past ++ (self.old.now, steps.new - steps.old) ∷ [] }
        ensures first { self.new.first ≡ self.old.first }
        ensures ahead { self.old.ahead ≡ (self.new.now, steps.new - steps.old) ∷ self.new.ahead }
        ensures root { self.new.root ≡ self.new.now }
        ensures placed { self.new.placed ≡ self.old.placed }
        ensures room_stays { self.old.room ≤ self.new.room }
        ensures steps { steps.old ≤ steps.new }
    {
        let n = self.redo_marks.pop_back().unwrap();
        move_last(&mut self.slots, &mut self.redo, &mut self.journal, n, steps);
        self.marks.push_back_reserved(n);
        self.root = Snapshot::of(&self.slots);
        self.rooted_keys = Snapshot::of(&self.keys);
        self.rooted = Snapshot::of(&self.slots);
        self.spare = 0;
    }

    /// Forgets the oldest map that is kept. It takes no memory.
    ///
    /// Unless something is ahead, keys lose their places that have no value and were not set since the oldest map that is
    /// still kept. It takes as long as what was set before that map, or was set, made ready or undone since the last map went.
    pub fn drop_oldest(&mut self)
        requires { 0 < length self.old.past }
        ensures past { self.new.past ≡ drop 1 self.old.past }
        ensures now { self.new.now ≡ self.old.now }
        ensures first { self.new.first ≡ first_count self.old.past }
        ensures ahead { self.new.ahead ≡ self.old.ahead }
        ensures root { self.new.root ≡ self.old.root }
        ensures placed { PlacesFewer F.cmp self.old.placed self.new.placed }
        ensures held { IsAllPlaced F.cmp self.new }
        ensures room_stays { self.old.room ≤ self.new.room }
    {
        let n = self.marks.pop_front().unwrap();
        self.first = n;
        drop_first(
            &mut self.journal,
            &mut self.uses,
            &self.slots,
            &mut self.hints,
            n,
        );
        self.spare = 0;
        self.forget();
    }

    /// Forgets what `hold` took off. It takes no memory.
    ///
    /// Keys lose their places that have no value and were not set since the oldest map that is kept. It takes as long as what
    /// was set in the maps ahead, or was set, made ready or undone since the last map went.
    pub fn drop_ahead(&mut self)
        ensures ahead { self.new.ahead ≡ [] }
        ensures past { self.new.past ≡ self.old.past }
        ensures now { self.new.now ≡ self.old.now }
        ensures first { self.new.first ≡ self.old.first }
        ensures root { self.new.root ≡ self.old.root }
        ensures placed { PlacesFewer F.cmp self.old.placed self.new.placed }
        ensures held { IsAllPlaced F.cmp self.new }
        ensures room_stays { self.old.room ≤ self.new.room }
    {
        let changes = self.redo.len();
        drop_first(
            &mut self.redo,
            &mut self.uses,
            &self.slots,
            &mut self.hints,
            changes,
        );
        self.redo_marks.clear();
        self.spare = 0;
        self.forget();
    }

    // Unless something is ahead, gives up the places of keys that have no value and that no change names. It takes no memory.
    fn forget(&mut self)
        ensures past { self.new.past ≡ self.old.past }
        ensures now { self.new.now ≡ self.old.now }
        ensures first { self.new.first ≡ self.old.first }
        ensures ahead { self.new.ahead ≡ self.old.ahead }
        ensures root { self.new.root ≡ self.old.root }
        ensures placed { PlacesFewer F.cmp self.old.placed self.new.placed }
        ensures held { IsAllPlaced F.cmp self.new }
        ensures room { self.new.room ≡ self.old.room }
    {
        if self.redo_marks.is_empty() {
            give_up_idle(
                &mut self.finder,
                &mut self.keys,
                &self.uses,
                &self.slots,
                &mut self.hints,
            );
            self.root = Snapshot::of(&self.slots);
        }
    }
}
