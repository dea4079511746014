ghost use Rattle.std.specs.Prelude.{◌≡◌, ℕ, ◌+◌, ◌*◌, ◌≤◌, ◌<◌, ◌^◌, List, Option, IfSome, OnOk, option_map};
ghost use Rattle.dubp_chain.specs.Tables.{MembershipRow};
ghost use Rattle.dubp_expiry.specs.Entries.{Queued};
ghost use Rattle.dubp_left.specs.Left.{due_of, member_entry};
ghost use Rattle.dubp_steps.specs.AfterLines.{enter_entry, revoke_entry};
ghost use Rattle.dubp_steps.specs.Loops.{without_entry, with_later, without_ends};
ghost use Rattle.dubp_people_apply.specs.Held.{Waiting, HasEntries};
ghost use Rattle.dubp_people_apply.specs.Lines.{EndsAreSmall, IsReplaced};

use dubp_atoms::{Key, NoMemory, Steps};
use dubp_expiry::{Due, Entries, Queue};
use dubp_mindex::MemberRow;
use dubp_moving::Tables;
use std::sync::ledger::Ledger as StepBook;

/// The time so long after another, where it can be told.
pub(crate) fn later(time: u64, lasting: u64) -> u64
    ensures { time + lasting < 2 ^ 64 → result ≡ time + lasting }
{
    time.saturating_add(lasting)
}

/// The time twice so long after another, where it can be told.
pub(crate) fn twice_later(time: u64, lasting: u64) -> u64
    ensures { time + 2 * lasting < 2 ^ 64 → result ≡ time + 2 * lasting }
{
    time.saturating_add(lasting).saturating_add(lasting)
}

/// The entry leaves the queue.
pub(crate) fn take_out<L: StepBook>(
    queue: &mut Queue,
    time: u64,
    due: Due,
    steps: &mut Steps<L>,
) -> Result<(), NoMemory>
    ensures entries { OnOk result ((waiting : Waiting) → HasEntries (⟦<Queue as Tables<Entries>>⟧.at queue.old) waiting → HasEntries (⟦<Queue as Tables<Entries>>⟧.at queue.new) (without_entry time (due_of due) waiting)) }
    ensures others { ⟦<Queue as Tables<Entries>>⟧.others queue.new ≡ ⟦<Queue as Tables<Entries>>⟧.others queue.old }
    ensures count { ⟦<Queue as Tables<Entries>>⟧.count queue.new + steps.old ≤ ⟦<Queue as Tables<Entries>>⟧.count queue.old + steps.new }
    ensures steps { OnOk result (steps.new ≤ steps.old + 1) }
{
    queue.cancel(time, due, steps)?;
    Ok(())
}

/// The entry joins the queue, where its time is still to come.
pub(crate) fn plan_later<L: StepBook>(
    queue: &mut Queue,
    now: u64,
    time: u64,
    due: Due,
    steps: &mut Steps<L>,
) -> Result<(), NoMemory>
    ensures entries { OnOk result ((waiting : Waiting) → HasEntries (⟦<Queue as Tables<Entries>>⟧.at queue.old) waiting → HasEntries (⟦<Queue as Tables<Entries>>⟧.at queue.new) (with_later now time (due_of due) waiting)) }
    ensures others { ⟦<Queue as Tables<Entries>>⟧.others queue.new ≡ ⟦<Queue as Tables<Entries>>⟧.others queue.old }
    ensures count { ⟦<Queue as Tables<Entries>>⟧.count queue.new + steps.old ≤ ⟦<Queue as Tables<Entries>>⟧.count queue.old + steps.new }
    ensures steps { OnOk result (steps.new ≤ steps.old + 1) }
{
    if now < time {
        queue.plan(time, due, steps)
    } else {
        Ok(())
    }
}

/// Both ends of the row leave the queue.
fn take_ends_out<L: StepBook>(
    queue: &mut Queue,
    row: &Option<MemberRow>,
    key: Key,
    lasting: u64,
    steps: &mut Steps<L>,
) -> Result<(), NoMemory>
    ensures entries { OnOk result ((waiting : Waiting) (before : Option MembershipRow) → row.now ≡ option_map member_entry before → IfSome before (EndsAreSmall lasting)
        → HasEntries (⟦<Queue as Tables<Entries>>⟧.at queue.old) waiting → HasEntries (⟦<Queue as Tables<Entries>>⟧.at queue.new) (without_ends lasting key before waiting)) }
    ensures others { ⟦<Queue as Tables<Entries>>⟧.others queue.new ≡ ⟦<Queue as Tables<Entries>>⟧.others queue.old }
    ensures count { ⟦<Queue as Tables<Entries>>⟧.count queue.new + steps.old ≤ ⟦<Queue as Tables<Entries>>⟧.count queue.old + steps.new }
    ensures steps { OnOk result (steps.new ≤ steps.old + 2) }
{
    match row {
        None => Ok(()),
        Some(row) => {
            let expiry = later(row.made, lasting);
            let revocation = twice_later(row.made, lasting);
            take_out(queue, expiry, Due::Membership(key), steps)?;
            take_out(queue, revocation, Due::Revocation(key), steps)
        }
    }
}

/// The ends of the row leave the queue, and those of the membership made anew join it where they are still to come.
pub(crate) fn replan<L: StepBook>(
    queue: &mut Queue,
    row: &Option<MemberRow>,
    key: Key,
    made: u64,
    lasting: u64,
    now: u64,
    steps: &mut Steps<L>,
) -> Result<(), NoMemory>
    ensures entries { OnOk result ((waiting : Waiting) (before : Option MembershipRow) → IsReplaced lasting made key row.now before waiting
        → HasEntries (⟦<Queue as Tables<Entries>>⟧.at queue.old) waiting → HasEntries (⟦<Queue as Tables<Entries>>⟧.at queue.new) (λ time due. enter_entry now lasting made key time due (waiting time due))) }
    ensures others { ⟦<Queue as Tables<Entries>>⟧.others queue.new ≡ ⟦<Queue as Tables<Entries>>⟧.others queue.old }
    ensures count { ⟦<Queue as Tables<Entries>>⟧.count queue.new + steps.old ≤ ⟦<Queue as Tables<Entries>>⟧.count queue.old + steps.new }
    ensures steps { OnOk result (steps.new ≤ steps.old + 4) }
{
    take_ends_out(queue, row, key, lasting, steps)?;
    let expiry = later(made, lasting);
    let revocation = twice_later(made, lasting);
    plan_later(queue, now, expiry, Due::Membership(key), steps)?;
    plan_later(queue, now, revocation, Due::Revocation(key), steps)
}
