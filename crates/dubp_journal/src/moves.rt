//! Moves of changes between the slots and the journals, over the fields of a table.
ghost use Rattle.std.specs.Prelude.{◌≡◌, ◌+◌, ◌-◌, ◌^◌, ◌<◌, ◌≤◌, ◌++◌, ℕ, length, get_or, set, take, drop, OnOk, IsOk};
ghost use Rattle.std.specs.List.{All, sum};
ghost use Rattle.std.specs.VecDeque.{deque_capacity};
ghost use Rattle.dubp_journal.specs.Journal.{Follows, undo, redo_of, named, noted, bump, last_changes};

use crate::hints::Hints;
use crate::slots::Slots;
use crate::summary::Summary;
use dubp_costs::{NoMemory, Steps};
use std::collections::VecDeque;
use std::sync::ledger::Ledger as StepBook;

/// A change of a slot, with the value to put back.
pub(crate) type Change<V> = (usize, Option<V>);

/// One change fewer names the slot. Where none does, and it holds nothing, its key may soon be given up.
pub(crate) fn release<V: Copy, S: Summary<V>>(
    uses: &mut Vec<usize>,
    slots: &Slots<V, S>,
    hints: &mut Hints,
    slot: usize,
)
    requires within { slot < length uses.old.items }
    requires named { 0 < get_or uses.old.items slot 0 }
    ensures uses { uses.new.items ≡ set uses.old.items slot (get_or uses.old.items slot 0 - 1) }
{
    uses[slot] -= 1;
    if uses[slot] == 0 {
        hints.note_idle(slot, slots.holds_nothing(slot));
    }
}

/// Undoes the last n changes, one step each.
pub(crate) fn undo_last<V: Copy, S: Summary<V>, L: StepBook>(
    slots: &mut Slots<V, S>,
    journal: &mut VecDeque<Change<V>>,
    uses: &mut Vec<usize>,
    hints: &mut Hints,
    n: usize,
    steps: &mut Steps<L>,
)
    requires few { n ≤ length journal.old.items }
    requires within { All (λ c. c.0 < length slots.old) journal.old.items }
    requires uses_each { length uses.old.items ≡ length slots.old }
    requires counted { (i : ℕ) → named i journal.old.items ≤ get_or uses.old.items i 0 }
    ensures journal { journal.new.items ≡ take (length journal.old.items - n) journal.old.items }
    ensures slots { slots.new ≡ undo slots.old (drop (length journal.old.items - n) journal.old.items) }
    ensures uses { Follows uses.old.items uses.new.items journal.old.items journal.new.items }
    ensures capacity { deque_capacity journal.new ≡ deque_capacity journal.old }
    ensures steps { steps.new ≡ steps.old + n }
{
    for _done in 0..n {
        let (slot, value) = journal.pop_back().unwrap();
        slots.set(slot, value);
        release(uses, slots, hints, slot);
        steps.tick();
    }
}

/// Forgets the first n changes.
pub(crate) fn drop_first<V: Copy, S: Summary<V>>(
    journal: &mut VecDeque<Change<V>>,
    uses: &mut Vec<usize>,
    slots: &Slots<V, S>,
    hints: &mut Hints,
    n: usize,
)
    requires few { n ≤ length journal.old.items }
    requires within { All (λ c. c.0 < length uses.old.items) journal.old.items }
    requires counted { (i : ℕ) → named i journal.old.items ≤ get_or uses.old.items i 0 }
    ensures items { journal.new.items ≡ drop n journal.old.items }
    ensures uses { Follows uses.old.items uses.new.items journal.old.items journal.new.items }
    ensures capacity { deque_capacity journal.new ≡ deque_capacity journal.old }
{
    for _done in 0..n {
        let (slot, _value) = journal.pop_front().unwrap();
        release(uses, slots, hints, slot);
    }
}

/// Undoes the last n changes of `from`, and notes at the end of `to` how to make them again. One step each.
pub(crate) fn move_last<V: Copy, S: Summary<V>, L: StepBook>(
    slots: &mut Slots<V, S>,
    from: &mut VecDeque<Change<V>>,
    to: &mut VecDeque<Change<V>>,
    n: usize,
    steps: &mut Steps<L>,
)
    requires few { n ≤ length from.old.items }
    requires within { All (λ c. c.0 < length slots.old) from.old.items }
    requires room { length to.old.items + n ≤ deque_capacity to.old }
    ensures from { from.new.items ≡ take (length from.old.items - n) from.old.items }
    ensures to { to.new.items ≡ to.old.items ++ redo_of slots.old (drop (length from.old.items - n) from.old.items) }
    ensures slots { slots.new ≡ undo slots.old (drop (length from.old.items - n) from.old.items) }
    ensures from_capacity { deque_capacity from.new ≡ deque_capacity from.old }
    ensures to_capacity { deque_capacity to.new ≡ deque_capacity to.old }
    ensures steps { steps.new ≡ steps.old + n }
{
    for _done in 0..n {
        let (slot, value) = from.pop_back().unwrap();
        to.push_back_reserved((slot, slots.get(slot)));
        slots.set(slot, value);
        steps.tick();
    }
}

/// Notes a change after the last mark, if there is one.
pub(crate) fn note<V: Copy>(
    journal: &mut VecDeque<Change<V>>,
    marks: &mut VecDeque<usize>,
    uses: &mut Vec<usize>,
    change: Change<V>,
)
    requires divided { sum marks.old.items ≡ length journal.old.items }
    requires room { length journal.old.items < deque_capacity journal.old }
    requires within { change.0 < length uses.old.items }
    requires fits { get_or uses.old.items change.0 0 < deque_capacity journal.old }
    ensures journal { journal.new.items ≡ noted marks.old.items journal.old.items change }
    ensures marks { marks.new.items ≡ bump marks.old.items }
    ensures uses { Follows uses.old.items uses.new.items journal.old.items journal.new.items }
    ensures capacity { deque_capacity journal.new ≡ deque_capacity journal.old }
    ensures marks_capacity { deque_capacity marks.new ≡ deque_capacity marks.old }
{
    if let Some(count) = marks.pop_back() {
        journal.push_back_reserved(change);
        marks.push_back_reserved(count + 1);
        uses[change.0] += 1;
    }
}

/// How many changes come after the mark at which the last n begin.
pub(crate) fn changes_since(marks: &VecDeque<usize>, n: usize) -> usize
    requires few { n ≤ length marks.now.items }
    requires fits { sum marks.now.items < 2 ^ 64 }
    ensures { result ≡ last_changes marks.now.items n }
{
    let mut changes = 0;
    for done in 0..n {
        changes += marks[marks.len() - 1 - done];
    }
    changes
}

/// Makes room for n changes, and for the `forward` ones that may come back. `NoMemory` where there is none.
pub(crate) fn make_room<V: Copy>(
    journal: &mut VecDeque<Change<V>>,
    forward: usize,
    n: usize,
) -> Result<(), NoMemory>
    ensures items { journal.new.items ≡ journal.old.items }
    ensures capacity { deque_capacity journal.old ≤ deque_capacity journal.new }
    ensures ok { OnOk result (length journal.new.items + forward + n ≤ deque_capacity journal.new) }
    ensures succeeds { length journal.old.items + forward + n ≤ deque_capacity journal.old → IsOk result }
{
    let extra = forward.checked_add(n).ok_or(NoMemory)?;
    journal.reserve(extra).map_err(|_| NoMemory)?;
    Ok(())
}
