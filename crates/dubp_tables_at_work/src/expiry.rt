ghost use Rattle.std.specs.Prelude.{◌≡◌, ◌<◌};

use dubp_atoms::{Key, NoMemory, Steps};
use dubp_expiry::{Behind, Due, Queue};
use dubp_undo::Tables;
use std::alloc::Global;
use std::marker::Brand;
use std::mem::forget;
use std::sync::ledger::{Blank, Ledger as StepBook};

// Three entries, two of one time: each is found in its turn, and none before its time.
fn finds_in_order<L: StepBook>(
    queue: &mut Queue,
    key: Key,
    steps: &mut Steps<L>,
) -> Result<bool, NoMemory> {
    queue.plan(20, Due::Revocation(key), steps)?;
    queue.plan(10, Due::Certification(key, key), steps)?;
    queue.plan(10, Due::Membership(key), steps)?;
    let first = Some((10, Due::Membership(key)));
    let second = Some((10, Due::Certification(key, key)));
    let third = Some((20, Due::Revocation(key)));
    let by_time = queue.due(9).is_none()
        && queue.due(10) == first
        && queue.due_behind(Behind::Time(9), 30) == first
        && queue.due_behind(Behind::Time(10), 30) == third
        && queue.due_behind(Behind::Time(10), 19).is_none();
    let by_entry = queue.due_behind(Behind::Entry(10, Due::Membership(key)), 10) == second
        && queue
            .due_behind(Behind::Entry(10, Due::Certification(key, key)), 10)
            .is_none();
    queue.cancel(10, Due::Membership(key), steps)?;
    queue.cancel(11, Due::Membership(key), steps)?;
    Ok(by_time && by_entry && queue.due(30) == second)
}

// Takes three entries in their order out of a new queue.
fn counts_steps<L: StepBook>(alloc: Global, blank: Blank, key: Key) -> Result<bool, NoMemory>
    requires name { blank.name ≡ L.name }
    requires parts { blank.parts ≡ L.parts }
    requires some { 0 < blank.parts }
{
    let mut steps = Steps::<L>::open(blank);
    let mut queue = Queue::new(alloc);
    let good = finds_in_order(&mut queue, key, &mut steps);
    forget(queue);
    good
}

// What is due is taken out, entry after entry.
fn empties<L: StepBook>(alloc: Global, blank: Blank, key: Key) -> Result<bool, NoMemory>
    requires name { blank.name ≡ L.name }
    requires parts { blank.parts ≡ L.parts }
    requires some { 0 < blank.parts }
{
    let mut steps = Steps::<L>::open(blank);
    let mut queue = Queue::new(alloc);
    let kept = queue.depth();
    queue.plan(10, Due::Membership(key), &mut steps)?;
    'taking: while let Some((time, due)) = queue.due(10) {
        queue.cancel(time, due, &mut steps)?;
    }
    Ok(kept == 0 && queue.due(10).is_none())
}

#[test]
fn entries_are_found_in_order(rt: HostRuntime) {
    match Key::read(b"HnFcSms8jzwngtVomTTnzudZx7SHUQY8sVE1y8yBmULk") {
        None => assert!(rt; false),
        Some(key) => {
            let good = counts_steps::<Brand>(rt.alloc(), Blank::new(1), key);
            assert!(rt; good == Ok(true));
            let empty = empties::<Brand>(rt.alloc(), Blank::new(1), key);
            assert!(rt; empty == Ok(true));
        }
    }
}
