ghost use Rattle.std.specs.Prelude.{◌≡◌, ◌<◌, ℕ, None};

use dubp_atoms::{NoMemory, Secret, Steps};
use dubp_finders::{ByHash, ByNumber};
use dubp_least::{Least, Measure};
use dubp_undo::{ByOrder, Finder, UndoTable};
use std::alloc::Global;
use std::marker::Brand;
use std::mem::forget;
use std::sync::ledger::{Blank, Ledger as StepBook};

// A number is its own measure.
struct AsItIs;

impl Measure<u64> for AsItIs {
    ghost measure = { λ v. v };

    fn is_below(value: &u64, other: &u64) -> bool {
        value < other
    }
}

// Whether the lowest entry is that of 7, then that of 9 once 7 has no value, and that of 7 again behind the way back.
fn goes_and_comes_back<F: Finder<usize>, L: StepBook>(
    table: &mut UndoTable<usize, u64, F, Least<AsItIs>>,
    steps: &mut Steps<L>,
) -> Result<bool, NoMemory> {
    table.set(7, Some(2), steps)?;
    table.set(9, Some(3), steps)?;
    table.mark()?;
    let first = table.lowest();
    table.set(7, None, steps)?;
    let second = table.lowest();
    if table.depth() > 0 {
        table.back(steps);
    }
    Ok(
        first == Some((7, 2))
            && second == Some((9, 3))
            && table.lowest() == first
            && table.get(9) == Some(3),
    )
}

fn passes<F: Finder<usize>, L: StepBook>(
    finder: F,
    alloc: Global,
    blank: Blank,
) -> Result<bool, NoMemory>
    requires finds { (k : ℕ) → F.slot_of finder k ≡ None }
    requires name { blank.name ≡ L.name }
    requires parts { blank.parts ≡ L.parts }
    requires some { 0 < blank.parts }
{
    let mut steps = Steps::<L>::open(blank);
    let mut table = UndoTable::over(finder, Least::new::<u64>(alloc), alloc);
    let good = goes_and_comes_back(&mut table, &mut steps);
    forget(table);
    good
}

// Whether a new table over the finder passes.
fn is_passed<F: Finder<usize>>(finder: F, alloc: Global) -> bool
    requires { (k : ℕ) → F.slot_of finder k ≡ None }
{
    passes::<F, Brand>(finder, alloc, Blank::new(1)) == Ok(true)
}

#[test]
fn slots_are_found_by_order_number_and_hash(rt: HostRuntime) {
    let by_order: ByOrder<usize> = ByOrder::new(rt.alloc());
    assert!(rt; is_passed(by_order, rt.alloc()));
    assert!(rt; is_passed(ByNumber::new(rt.alloc()), rt.alloc()));
    let by_hash: ByHash<usize, Secret> = ByHash::new(rt.alloc(), Secret::known());
    assert!(rt; is_passed(by_hash, rt.alloc()));
}
