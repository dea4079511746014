ghost use Rattle.std.specs.Prelude.{◌≡◌, ℕ, ◌+◌, ◌≤◌, ◌∷◌, List, [], OnOk, OnErr, IfSome, IfNone, false, ⊤};
ghost use Rattle.std.specs.FinMap.{contains_key, insert, remove};
ghost use Rattle.dubp_expiry.specs.Entries.{Queued, queued, Has, IsBehind, IsNextDue, NoneIsDue, entry_at, until_now, how_many};

use crate::due::{Behind, Due};
use dubp_atoms::{NoMemory, Steps};
use dubp_undo::{Definition, Leaf, Tables};
use std::alloc::Global;
use std::marker::Model;
use std::sync::ledger::Ledger as StepBook;

/// The entries after a block: a state of the queue. No value of it is made.
#[derive(Drop)]
pub struct Entries {
    nothing: (),
}

impl Model for Entries {
    ghost use Rattle.std.specs.Coded.{coded×, coded_ℕ};
    ghost use Rattle.std.specs.FinMap.{code, empty};
    ghost use Rattle.dubp_expiry.specs.Entries.{Queued, due_code};
    ghost use base.Stored.{coded_unit};

    ghost Value = { Queued };

    ghost coded = { code (coded× coded_ℕ due_code) coded_unit };

    ghost view = { λ a. empty };
}

/// The entries under their times.
pub struct InOrder;

impl Definition<Entries, (u64, Option<Due>), ()> for InOrder {
    ghost at = { entry_at };
}

/// The table of entries. A key with a time alone is where the entries of that time begin; nothing stands there.
type EntryTable = Leaf<Entries, (u64, Option<Due>), (), InOrder>;

/// The queue of what falls due.
#[derive(Drop)]
pub struct Queue {
    tables: EntryTable,
}

/// How many entries there are: a measure for loops that empty a queue.
pub trait Counts {
    ghost entries: { Self → ℕ };
}

impl Counts for Queue {
    ghost entries = { λ t. how_many t.tables.table.now };
}

impl Tables<Entries> for Queue {
    ghost Now = { ⟦<EntryTable as Tables<Entries>>⟧.Now };

    ghost Names = { ⟦<EntryTable as Tables<Entries>>⟧.Names };

    ghost now = { λ t. ⟦<EntryTable as Tables<Entries>>⟧.now t.tables };

    ghost count = { λ t. ⟦<EntryTable as Tables<Entries>>⟧.count t.tables };

    ghost others = { λ t. ⟦<EntryTable as Tables<Entries>>⟧.others t.tables };

    ghost spare = { λ t. ⟦<EntryTable as Tables<Entries>>⟧.spare t.tables };

    ghost names = { λ t. ⟦<EntryTable as Tables<Entries>>⟧.names t.tables };

    ghost is = { ⟦<EntryTable as Tables<Entries>>⟧.is };

    ghost at = { λ t c. ⟦<EntryTable as Tables<Entries>>⟧.at t.tables c };

    fn depth(&self) -> usize {
        self.tables.depth()
    }

    fn mark(&mut self) -> Result<(), NoMemory> {
        self.tables.mark()?;
        Ok(())
    }

    fn unmark(&mut self) {
        self.tables.unmark();
    }

    fn reserve(&mut self, k: usize) -> Result<(), NoMemory> {
        self.tables.reserve(k)?;
        Ok(())
    }

    fn hold<L: StepBook>(&mut self, steps: &mut Steps<L>) {
        self.tables.hold(steps);
    }

    fn back<L: StepBook>(&mut self, steps: &mut Steps<L>) {
        self.tables.back(steps);
    }

    fn again<L: StepBook>(&mut self, steps: &mut Steps<L>) {
        self.tables.again(steps);
    }

    fn drop_oldest(&mut self) {
        self.tables.drop_oldest();
    }

    fn drop_ahead(&mut self) {
        self.tables.drop_ahead();
    }

    ghost is_at = { λ t c is. is };

    ghost at_is = { λ t c is. is };
}

impl Queue {
    /// The queue without entries. It takes no memory.
    pub fn new(alloc: Global) -> Queue
        ensures at { ⟦<Queue as Tables<Entries>>⟧.at result [] }
        ensures count { ⟦<Queue as Tables<Entries>>⟧.count result ≡ 0 }
        ensures kept { (⟦<Queue as Tables<Entries>>⟧.others result).kept ≡ [] }
        ensures ahead { (⟦<Queue as Tables<Entries>>⟧.others result).ahead ≡ [] }
    {
        Queue {
            tables: Leaf::new(alloc),
        }
    }

    /// Whether the entry is there. It takes no memory.
    pub fn has(&self, time: u64, due: &Due) -> bool
        ensures { (s : List Queued) → ⟦<Queue as Tables<Entries>>⟧.at self.now s → result ≡ contains_key (queued s) (time, due.now) }
    {
        self.tables.get((time, Some(*due))).is_some()
    }

    /// The first entry, where its time, in seconds, is at most `now`. `None` where nothing is due. It takes no memory.
    pub fn due(&self, now: u64) -> Option<(u64, Due)>
        ensures found { (s : List Queued) → ⟦<Queue as Tables<Entries>>⟧.at self.now s → IfSome result (IsNextDue (queued s) (λ e. ⊤) now) }
        ensures none { (s : List Queued) → ⟦<Queue as Tables<Entries>>⟧.at self.now s → IfNone result (NoneIsDue (queued s) (λ e. ⊤) now) }
    {
        until(self.tables.next_after(None), now)
    }

    /// The first entry behind the place, where its time, in seconds, is at most `now`. `None` where there is none. It takes no memory.
    pub fn due_behind(&self, behind: Behind, now: u64) -> Option<(u64, Due)>
        ensures found { (s : List Queued) → ⟦<Queue as Tables<Entries>>⟧.at self.now s → IfSome result (IsNextDue (queued s) (IsBehind behind) now) }
        ensures none { (s : List Queued) → ⟦<Queue as Tables<Entries>>⟧.at self.now s → IfNone result (NoneIsDue (queued s) (IsBehind behind) now) }
    {
        match behind {
            Behind::Time(time) => {
                if time < now {
                    until(self.tables.next_from((time + 1, None)), now)
                } else {
                    None
                }
            }
            Behind::Entry(time, due) => until(self.tables.next_after(Some((time, Some(due)))), now),
        }
    }

    /// Adds the entry. Where it is there, nothing changes, and there is no step; else there is one set and one step.
    ///
    /// `NoMemory` comes where there is no room for the entry; all is as it was then.
    pub fn plan<L: StepBook>(
        &mut self,
        time: u64,
        due: Due,
        steps: &mut Steps<L>,
    ) -> Result<(), NoMemory>
        ensures at { OnOk result ((s t : List Queued) → ⟦<Queue as Tables<Entries>>⟧.at self.old s → ⟦<Queue as Tables<Entries>>⟧.at self.new (insert (queued s) (time, due) tt ∷ t)) }
        ensures there { (s : List Queued) → ⟦<Queue as Tables<Entries>>⟧.at self.old s → Has (queued s) (time, due) → (⟦<Queue as Tables<Entries>>⟧.now self.new ≡ ⟦<Queue as Tables<Entries>>⟧.now self.old) × (steps.new ≡ steps.old) }
        ensures others { ⟦<Queue as Tables<Entries>>⟧.others self.new ≡ ⟦<Queue as Tables<Entries>>⟧.others self.old }
        ensures count { ⟦<Queue as Tables<Entries>>⟧.count self.new + steps.old ≤ ⟦<Queue as Tables<Entries>>⟧.count self.old + steps.new }
        ensures steps { OnOk result (steps.new ≤ steps.old + 1) }

        ensures refused { OnErr result (⟦<Queue as Tables<Entries>>⟧.now self.new ≡ ⟦<Queue as Tables<Entries>>⟧.now self.old) }
        ensures no_step { OnErr result (steps.new ≡ steps.old) }
    {
        if self.has(time, &due) {
            return Ok(());
        }
        self.tables.set((time, Some(due)), Some(()), steps)?;
        Ok(())
    }

    /// Takes the entry out. Where it is not there, nothing changes, and there is no step; else there is one set and one step.
    ///
    /// `NoMemory` comes where there is no room to keep that the entry was there; all is as it was then.
    pub fn cancel<L: StepBook>(
        &mut self,
        time: u64,
        due: Due,
        steps: &mut Steps<L>,
    ) -> Result<(), NoMemory>
        ensures at { OnOk result ((s t : List Queued) → ⟦<Queue as Tables<Entries>>⟧.at self.old s → ⟦<Queue as Tables<Entries>>⟧.at self.new (remove (queued s) (time, due) ∷ t)) }
        ensures fewer { OnOk result ((s : List Queued) → ⟦<Queue as Tables<Entries>>⟧.at self.old s → Has (queued s) (time, due) → ⟦<Queue as Counts>⟧.entries self.new + 1 ≡ ⟦<Queue as Counts>⟧.entries self.old) }
        ensures not_there { (s : List Queued) → ⟦<Queue as Tables<Entries>>⟧.at self.old s → contains_key (queued s) (time, due) ≡ false → (⟦<Queue as Tables<Entries>>⟧.now self.new ≡ ⟦<Queue as Tables<Entries>>⟧.now self.old) × (steps.new ≡ steps.old) }
        ensures others { ⟦<Queue as Tables<Entries>>⟧.others self.new ≡ ⟦<Queue as Tables<Entries>>⟧.others self.old }
        ensures count { ⟦<Queue as Tables<Entries>>⟧.count self.new + steps.old ≤ ⟦<Queue as Tables<Entries>>⟧.count self.old + steps.new }
        ensures steps { OnOk result (steps.new ≤ steps.old + 1) }

        ensures refused { OnErr result (⟦<Queue as Tables<Entries>>⟧.now self.new ≡ ⟦<Queue as Tables<Entries>>⟧.now self.old) }
        ensures no_step { OnErr result (steps.new ≡ steps.old) }
    {
        if !self.has(time, &due) {
            return Ok(());
        }
        self.tables.set((time, Some(due)), None, steps)?;
        Ok(())
    }
}

/// The entry found, where its time is at most `now`.
fn until(found: Option<((u64, Option<Due>), ())>, now: u64) -> Option<(u64, Due)>
    ensures { result ≡ until_now now found }
{
    match found {
        None => None,
        Some(((_, None), ())) => None,
        Some(((time, Some(due)), ())) => { if time <= now { Some((time, due)) } else { None } }
    }
}
