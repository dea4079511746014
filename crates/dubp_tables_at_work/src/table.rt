ghost use Rattle.std.specs.Prelude.{◌≡◌, ◌<◌};

use dubp_atoms::{NoMemory, Steps};
use dubp_undo::UndoTable;
use std::alloc::Global;
use std::marker::Brand;
use std::mem::forget;
use std::sync::ledger::{Blank, Ledger as StepBook};

// How many keys are set, of which some are written once more behind a mark each.
const KEYS: u64 = 100_000;

const MARKS: u64 = 20_000;

const MANY_KEYS: u64 = 1_050_000;

// A call on a table, or some that only stand together.
#[derive(Clone, Copy)]
enum Call {
    Set(u64, Option<u64>),
    Ready(u64, usize),
    Mark,
    MarkAndUnmark,
    Reserve(usize),
    Hold,
    HoldAndAgain,
    Back,
    DropOldest,
    DropAhead,
}

// A call, and the entries and the number of kept maps behind it.
type Row = (Call, &'static [(u64, u64)], usize);

// A write is held, another comes in its place and goes, and the first comes again.
static HELD_WRITE: [Row; 7] = [
    (Call::Mark, &[], 1),
    (Call::Set(1, Some(5)), &[(1, 5)], 1),
    (Call::Mark, &[(1, 5)], 2),
    (Call::Set(1, None), &[], 2),
    (Call::HoldAndAgain, &[], 2),
    (Call::Back, &[(1, 5)], 1),
    (Call::Back, &[], 0),
];

// A key that is made ready is set, another loses its value, and walks step over it.
static WALK: [Row; 6] = [
    (Call::Set(10, Some(1)), &[(10, 1)], 0),
    (Call::MarkAndUnmark, &[(10, 1)], 0),
    (Call::Ready(20, 2), &[(10, 1)], 0),
    (Call::Set(20, Some(2)), &[(10, 1), (20, 2)], 0),
    (Call::Set(10, None), &[(20, 2)], 0),
    (Call::Set(30, Some(3)), &[(20, 2), (30, 3)], 0),
];

// The oldest map is forgotten, and what is held.
static BOTH_ENDS: [Row; 9] = [
    (Call::Mark, &[], 1),
    (Call::Set(10, Some(1)), &[(10, 1)], 1),
    (Call::Mark, &[(10, 1)], 2),
    (Call::Set(10, Some(2)), &[(10, 2)], 2),
    (Call::Hold, &[(10, 1)], 1),
    (Call::DropAhead, &[(10, 1)], 1),
    (Call::Mark, &[(10, 1)], 2),
    (Call::DropOldest, &[(10, 1)], 1),
    (Call::Back, &[(10, 1)], 0),
];

// A key that stands in no map leaves its slot to another, and comes again; the maps that are kept are theirs.
static PLACE_USED_AGAIN: [Row; 12] = [
    (Call::Mark, &[], 1),
    (Call::Set(1, Some(5)), &[(1, 5)], 1),
    (Call::Set(1, None), &[], 1),
    (Call::Set(2, Some(6)), &[(2, 6)], 1),
    (Call::Mark, &[(2, 6)], 2),
    (Call::Set(2, None), &[], 2),
    (Call::DropOldest, &[], 1),
    (Call::Set(3, Some(7)), &[(3, 7)], 1),
    (Call::Set(1, Some(8)), &[(1, 8), (3, 7)], 1),
    (Call::Back, &[(2, 6)], 0),
    (Call::DropAhead, &[(2, 6)], 0),
    (Call::Set(4, Some(9)), &[(2, 6), (4, 9)], 0),
];

// Each call that takes memory.
static REFUSALS: [Row; 6] = [
    (Call::Set(1, Some(5)), &[(1, 5)], 0),
    (Call::Mark, &[(1, 5)], 1),
    (Call::Ready(2, 9), &[(1, 5)], 1),
    (Call::Set(3, Some(6)), &[(1, 5), (3, 6)], 1),
    (Call::Reserve(1), &[(1, 5), (3, 6)], 1),
    (Call::Back, &[(1, 5)], 0),
];

// The first of the entries whose key is at least k.
fn first_from(entries: &[(u64, u64)], k: u64) -> Option<(u64, u64)> {
    for entry in entries {
        if entry.0 >= k {
            return Some(*entry);
        }
    }
    None
}

// Whether the table answers by the entries at each key of the trials.
fn answers_by(table: &UndoTable<u64, u64>, entries: &[(u64, u64)]) -> bool {
    for k in 0..32 {
        let first = first_from(entries, k);
        let value = match first {
            Some((key, value)) if key == k => Some(value),
            _ => None,
        };
        if table.next_from(k) != first || table.get(k) != value {
            return false;
        }
    }
    true
}

// Whether the table has these entries, and no other.
fn has(table: &UndoTable<u64, u64>, entries: &[(u64, u64)]) -> bool {
    let mut last = None;
    for entry in entries {
        if table.next_after(last) != Some(*entry) {
            return false;
        }
        last = Some(entry.0);
    }
    table.next_after(last) == None && answers_by(table, entries)
}

// Goes back, where there is a map to go back to.
fn go_back<L: StepBook>(table: &mut UndoTable<u64, u64>, steps: &mut Steps<L>) {
    if table.depth() > 0 {
        table.back(steps);
    }
}

// Holds what was written last, where nothing is held.
fn hold<L: StepBook>(
    table: &mut UndoTable<u64, u64>,
    steps: &mut Steps<L>,
) -> Result<(), NoMemory> {
    table.drop_ahead();
    if table.depth() > 0 {
        table.reserve(1)?;
        table.hold(steps);
    }
    Ok(())
}

// A write is held where nothing is, another comes in its place and goes, and the first comes again.
fn hold_and_again<L: StepBook>(
    table: &mut UndoTable<u64, u64>,
    steps: &mut Steps<L>,
) -> Result<(), NoMemory> {
    table.drop_ahead();
    if table.depth() == 0 {
        return Ok(());
    }
    table.reserve(1)?;
    table.hold(steps);
    if table.depth() == 0 {
        return Ok(());
    }
    table.reserve(1)?;
    table.ready(2, 9)?;
    table.mark()?;
    table.set(2, Some(6), steps)?;
    table.back(steps);
    table.again(steps);
    Ok(())
}

fn mark_and_unmark(table: &mut UndoTable<u64, u64>) -> Result<(), NoMemory> {
    table.mark()?;
    table.unmark();
    Ok(())
}

fn reserve(table: &mut UndoTable<u64, u64>, count: usize) -> Result<(), NoMemory> {
    if count <= table.depth() {
        table.reserve(count)?;
    }
    Ok(())
}

fn drop_oldest(table: &mut UndoTable<u64, u64>) {
    if table.depth() > 0 {
        table.drop_oldest();
    }
}

fn make<L: StepBook>(
    table: &mut UndoTable<u64, u64>,
    call: Call,
    steps: &mut Steps<L>,
) -> Result<(), NoMemory> {
    match call {
        Call::Set(k, v) => return table.set(k, v, steps),
        Call::Ready(k, n) => return table.ready(k, n),
        Call::Mark => return table.mark(),
        Call::MarkAndUnmark => return mark_and_unmark(table),
        Call::Reserve(count) => return reserve(table, count),
        Call::Hold => return hold(table, steps),
        Call::HoldAndAgain => return hold_and_again(table, steps),
        Call::Back => go_back(table, steps),
        Call::DropOldest => drop_oldest(table),
        Call::DropAhead => table.drop_ahead(),
    }
    Ok(())
}

// Makes the calls, each of which must come to what its row says. One that is refused must leave all as it was, and is made again.
fn goes_through<L: StepBook>(
    table: &mut UndoTable<u64, u64>,
    rows: &[Row],
    steps: &mut Steps<L>,
) -> Result<bool, NoMemory> {
    let mut good = true;
    let mut before: &[(u64, u64)] = &[];
    for (call, entries, depth) in rows {
        let kept = table.depth();
        if make(table, *call, steps).is_err() {
            good = good && has(table, before) && table.depth() == kept;
            make(table, *call, steps)?;
        }
        good = good && has(table, entries) && table.depth() == *depth;
        before = entries;
    }
    Ok(good)
}

// Many keys, then a mark and a write many times, with room for as many ways forward, then all the way back.
fn goes_far_back<L: StepBook>(
    table: &mut UndoTable<u64, u64>,
    steps: &mut Steps<L>,
) -> Result<bool, NoMemory> {
    for i in 0..KEYS {
        table.set(i, Some(i), steps)?;
    }
    for j in 0..MARKS {
        table.mark()?;
        table.set(j, Some(0), steps)?;
    }
    let depth = table.depth();
    table.reserve(depth)?;
    for _ in 0..MARKS {
        go_back(table, steps);
    }
    let mut same = true;
    for i in 0..KEYS {
        same = same && table.get(i) == Some(i);
    }
    Ok(depth as u64 == MARKS && same && table.depth() == 0)
}

// More than a million keys are set.
fn sets_many_keys<L: StepBook>(
    table: &mut UndoTable<u64, u64>,
    steps: &mut Steps<L>,
) -> Result<bool, NoMemory> {
    for i in 0..MANY_KEYS {
        table.set(i, Some(i), steps)?;
    }
    Ok(table.get(MANY_KEYS - 1) == Some(MANY_KEYS - 1))
}

// What is tried on a new table.
#[derive(Clone, Copy)]
enum Trial {
    Rows(&'static [Row]),
    FarBack,
    ManyKeys,
}

fn passes<L: StepBook>(alloc: Global, blank: Blank, trial: Trial) -> Result<bool, NoMemory>
    requires name { blank.name ≡ L.name }
    requires parts { blank.parts ≡ L.parts }
    requires some { 0 < blank.parts }
{
    let mut steps = Steps::<L>::open(blank);
    let mut table = UndoTable::new(alloc);
    let good = match trial {
        Trial::Rows(rows) => goes_through(&mut table, rows, &mut steps),
        Trial::FarBack => goes_far_back(&mut table, &mut steps),
        Trial::ManyKeys => sets_many_keys(&mut table, &mut steps),
    };
    forget(table);
    good
}

// Whether a new table passes the trial.
fn is_passed(alloc: Global, trial: Trial) -> bool {
    let good = passes::<Brand>(alloc, Blank::new(1), trial);
    good == Ok(true)
}

#[test]
fn a_new_table_passes_each_trial(rt: HostRuntime) {
    let trials = [
        Trial::Rows(&HELD_WRITE),
        Trial::Rows(&WALK),
        Trial::Rows(&BOTH_ENDS),
        Trial::Rows(&PLACE_USED_AGAIN),
        Trial::Rows(&REFUSALS),
        Trial::FarBack,
        Trial::ManyKeys,
    ];
    for trial in trials {
        assert!(rt; is_passed(rt.alloc(), trial));
    }
}
