ghost use Rattle.std.specs.Prelude.{◌≡◌, ℕ, ◌+◌, ◌*◌, ◌≤◌, List, length, OnOk, option_map, fold};
ghost use Rattle.dubp_block.specs.declared.block.Block.{Block as BlockValue};
ghost use Rattle.dubp_chain.specs.Chains.{Chain};
ghost use Rattle.dubp_mindex.specs.Members.{Members};
ghost use Rattle.dubp_expiry.specs.Entries.{Queued};
ghost use Rattle.dubp_expiry.specs.declared.queue.Queue.{Queue as QueueValue};
ghost use Rattle.dubp_left.specs.Next.{IsWritten};
ghost use Rattle.dubp_steps.specs.AfterLines.{enter_line, leave_line, revoke_line, membership_after_lines, enter_queue, revoke_queue};
ghost use Rattle.dubp_people_apply.specs.Held.{Memberships, Waiting};
ghost use Rattle.dubp_people_apply.specs.Lines.{Stands};

use crate::queue::{replan, take_out, twice_later};
use crate::records::time_of_membership;
use dubp_atoms::{Key, NoMemory, Steps};
use dubp_block::{Block, MemberLine, RevokedLine};
use dubp_expiry::{Due, Entries, Queue};
use dubp_left::{Facts, Next};
use dubp_mindex::{MIndex, MemberRow, MemberRows};
use dubp_moving::Tables;
use std::sync::ledger::Ledger as StepBook;

/// A line of Joiners or Actives gives its key a membership made anew.
fn enter<L: StepBook>(
    memberships: &mut MIndex,
    queue: &mut Queue,
    facts: &Facts,
    block: &Block,
    next: &Next,
    line: &MemberLine,
    steps: &mut Steps<L>,
) -> Result<(), NoMemory>
    ensures stands { OnOk result ((c : Chain) (rows : Memberships) (waiting : Waiting) → ⟦<Facts as Tables<Block>>⟧.at facts.now c → IsWritten c block.now next.now
        → Stands c block.now (⟦<MIndex as Tables<MemberRows>>⟧.at memberships.old) (⟦<Queue as Tables<Entries>>⟧.at queue.old) rows waiting
        → Stands c block.now (⟦<MIndex as Tables<MemberRows>>⟧.at memberships.new) (⟦<Queue as Tables<Entries>>⟧.at queue.new) (λ k. enter_line c block.now k (rows k) line.now) (λ time due. enter_queue c block.now time due (waiting time due) line.now)) }
    ensures memberships_others { ⟦<MIndex as Tables<MemberRows>>⟧.others memberships.new ≡ ⟦<MIndex as Tables<MemberRows>>⟧.others memberships.old }
    ensures queue_others { ⟦<Queue as Tables<Entries>>⟧.others queue.new ≡ ⟦<Queue as Tables<Entries>>⟧.others queue.old }
    ensures count { ⟦<MIndex as Tables<MemberRows>>⟧.count memberships.new + ⟦<Queue as Tables<Entries>>⟧.count queue.new + steps.old ≤ ⟦<MIndex as Tables<MemberRows>>⟧.count memberships.old + ⟦<Queue as Tables<Entries>>⟧.count queue.old + steps.new }
    ensures steps { OnOk result (steps.new ≤ steps.old + 5) }
{
    let lasting = next.params.ms_validity;
    let made = time_of_membership(facts, block, line);
    let before = memberships.row(line.key);
    replan(queue, &before, line.key, made, lasting, next.time, steps)?;
    let row = MemberRow {
        last_number: line.stamp.number,
        made,
        written: block.number,
        leaving: false,
        revoked: twice_later(made, lasting) <= next.time,
    };
    memberships.put_row(line.key, row, steps)
}

/// Each line of the section gives its key a membership made anew.
fn enter_all<L: StepBook>(
    memberships: &mut MIndex,
    queue: &mut Queue,
    facts: &Facts,
    block: &Block,
    next: &Next,
    lines: &[MemberLine],
    steps: &mut Steps<L>,
) -> Result<(), NoMemory>
    ensures stands { OnOk result ((c : Chain) (rows : Memberships) (waiting : Waiting) → ⟦<Facts as Tables<Block>>⟧.at facts.now c → IsWritten c block.now next.now
        → Stands c block.now (⟦<MIndex as Tables<MemberRows>>⟧.at memberships.old) (⟦<Queue as Tables<Entries>>⟧.at queue.old) rows waiting
        → Stands c block.now (⟦<MIndex as Tables<MemberRows>>⟧.at memberships.new) (⟦<Queue as Tables<Entries>>⟧.at queue.new) (λ k. fold (enter_line c block.now k) (rows k) lines.now) (λ time due. fold (enter_queue c block.now time due) (waiting time due) lines.now)) }
    ensures memberships_others { ⟦<MIndex as Tables<MemberRows>>⟧.others memberships.new ≡ ⟦<MIndex as Tables<MemberRows>>⟧.others memberships.old }
    ensures queue_others { ⟦<Queue as Tables<Entries>>⟧.others queue.new ≡ ⟦<Queue as Tables<Entries>>⟧.others queue.old }
    ensures count { ⟦<MIndex as Tables<MemberRows>>⟧.count memberships.new + ⟦<Queue as Tables<Entries>>⟧.count queue.new + steps.old ≤ ⟦<MIndex as Tables<MemberRows>>⟧.count memberships.old + ⟦<Queue as Tables<Entries>>⟧.count queue.old + steps.new }
    ensures steps { OnOk result (steps.new ≤ steps.old + 5 * length lines.now) }
{
    for line in lines {
        enter(memberships, queue, facts, block, next, line, steps)?;
    }
    Ok(())
}

/// A line of Leavers says that the membership of its key is not to be renewed.
fn leave<L: StepBook>(
    memberships: &mut MIndex,
    block: &Block,
    line: &MemberLine,
    steps: &mut Steps<L>,
) -> Result<(), NoMemory>
    ensures stands { OnOk result ((c : Chain) (queue : QueueValue) (rows : Memberships) (waiting : Waiting)
        → Stands c block.now (⟦<MIndex as Tables<MemberRows>>⟧.at memberships.old) (⟦<Queue as Tables<Entries>>⟧.at queue) rows waiting
        → Stands c block.now (⟦<MIndex as Tables<MemberRows>>⟧.at memberships.new) (⟦<Queue as Tables<Entries>>⟧.at queue) (λ k. leave_line block.now k (rows k) line.now) waiting) }
    ensures memberships_others { ⟦<MIndex as Tables<MemberRows>>⟧.others memberships.new ≡ ⟦<MIndex as Tables<MemberRows>>⟧.others memberships.old }
    ensures count { ⟦<MIndex as Tables<MemberRows>>⟧.count memberships.new + steps.old ≤ ⟦<MIndex as Tables<MemberRows>>⟧.count memberships.old + steps.new }
    ensures steps { OnOk result (steps.new ≤ steps.old + 1) }
{
    match memberships.row(line.key) {
        None => Ok(()),
        Some(before) => {
            let row = MemberRow {
                last_number: line.stamp.number,
                written: block.number,
                leaving: true,
                ..before
            };
            memberships.put_row(line.key, row, steps)
        }
    }
}

/// Each line of Leavers says that the membership of its key is not to be renewed.
fn leave_all<L: StepBook>(
    memberships: &mut MIndex,
    block: &Block,
    lines: &[MemberLine],
    steps: &mut Steps<L>,
) -> Result<(), NoMemory>
    ensures stands { OnOk result ((c : Chain) (queue : QueueValue) (rows : Memberships) (waiting : Waiting)
        → Stands c block.now (⟦<MIndex as Tables<MemberRows>>⟧.at memberships.old) (⟦<Queue as Tables<Entries>>⟧.at queue) rows waiting
        → Stands c block.now (⟦<MIndex as Tables<MemberRows>>⟧.at memberships.new) (⟦<Queue as Tables<Entries>>⟧.at queue) (λ k. fold (leave_line block.now k) (rows k) lines.now) waiting) }
    ensures memberships_others { ⟦<MIndex as Tables<MemberRows>>⟧.others memberships.new ≡ ⟦<MIndex as Tables<MemberRows>>⟧.others memberships.old }
    ensures count { ⟦<MIndex as Tables<MemberRows>>⟧.count memberships.new + steps.old ≤ ⟦<MIndex as Tables<MemberRows>>⟧.count memberships.old + steps.new }
    ensures steps { OnOk result (steps.new ≤ steps.old + length lines.now) }
{
    for line in lines {
        leave(memberships, block, line, steps)?;
    }
    Ok(())
}

/// A line of Revoked revokes the membership of its key, which is not revoked by time then.
fn revoke<L: StepBook>(
    memberships: &mut MIndex,
    queue: &mut Queue,
    next: &Next,
    line: &RevokedLine,
    steps: &mut Steps<L>,
) -> Result<(), NoMemory>
    ensures stands { OnOk result ((c : Chain) (b : BlockValue) (rows : Memberships) (waiting : Waiting) → IsWritten c b next.now
        → Stands c b (⟦<MIndex as Tables<MemberRows>>⟧.at memberships.old) (⟦<Queue as Tables<Entries>>⟧.at queue.old) rows waiting
        → Stands c b (⟦<MIndex as Tables<MemberRows>>⟧.at memberships.new) (⟦<Queue as Tables<Entries>>⟧.at queue.new) (λ k. revoke_line k (rows k) line.now) (λ time due. revoke_queue due (waiting time due) line.now)) }
    ensures memberships_others { ⟦<MIndex as Tables<MemberRows>>⟧.others memberships.new ≡ ⟦<MIndex as Tables<MemberRows>>⟧.others memberships.old }
    ensures queue_others { ⟦<Queue as Tables<Entries>>⟧.others queue.new ≡ ⟦<Queue as Tables<Entries>>⟧.others queue.old }
    ensures count { ⟦<MIndex as Tables<MemberRows>>⟧.count memberships.new + ⟦<Queue as Tables<Entries>>⟧.count queue.new + steps.old ≤ ⟦<MIndex as Tables<MemberRows>>⟧.count memberships.old + ⟦<Queue as Tables<Entries>>⟧.count queue.old + steps.new }
    ensures steps { OnOk result (steps.new ≤ steps.old + 2) }
{
    match memberships.row(line.key) {
        None => Ok(()),
        Some(before) => {
            let revocation = twice_later(before.made, next.params.ms_validity);
            take_out(queue, revocation, Due::Revocation(line.key), steps)?;
            let row = MemberRow {
                revoked: true,
                ..before
            };
            memberships.put_row(line.key, row, steps)
        }
    }
}

/// Each line of Revoked revokes the membership of its key.
fn revoke_all<L: StepBook>(
    memberships: &mut MIndex,
    queue: &mut Queue,
    next: &Next,
    lines: &[RevokedLine],
    steps: &mut Steps<L>,
) -> Result<(), NoMemory>
    ensures stands { OnOk result ((c : Chain) (b : BlockValue) (rows : Memberships) (waiting : Waiting) → IsWritten c b next.now
        → Stands c b (⟦<MIndex as Tables<MemberRows>>⟧.at memberships.old) (⟦<Queue as Tables<Entries>>⟧.at queue.old) rows waiting
        → Stands c b (⟦<MIndex as Tables<MemberRows>>⟧.at memberships.new) (⟦<Queue as Tables<Entries>>⟧.at queue.new) (λ k. fold (revoke_line k) (rows k) lines.now) (λ time due. fold (revoke_queue due) (waiting time due) lines.now)) }
    ensures memberships_others { ⟦<MIndex as Tables<MemberRows>>⟧.others memberships.new ≡ ⟦<MIndex as Tables<MemberRows>>⟧.others memberships.old }
    ensures queue_others { ⟦<Queue as Tables<Entries>>⟧.others queue.new ≡ ⟦<Queue as Tables<Entries>>⟧.others queue.old }
    ensures count { ⟦<MIndex as Tables<MemberRows>>⟧.count memberships.new + ⟦<Queue as Tables<Entries>>⟧.count queue.new + steps.old ≤ ⟦<MIndex as Tables<MemberRows>>⟧.count memberships.old + ⟦<Queue as Tables<Entries>>⟧.count queue.old + steps.new }
    ensures steps { OnOk result (steps.new ≤ steps.old + 2 * length lines.now) }
{
    for line in lines {
        revoke(memberships, queue, next, line, steps)?;
    }
    Ok(())
}

/// Writes the sections Joiners, Actives, Leavers and Revoked into the memberships and the queue.
///
/// The ends of a membership that is made anew leave the queue, and the new ones join it where they are later than the time of the
/// chain with the block. `NoMemory` where there is no room; some lines may have been written then.
pub fn write_memberships<L: StepBook>(
    memberships: &mut MIndex,
    queue: &mut Queue,
    facts: &Facts,
    block: &Block,
    next: &Next,
    steps: &mut Steps<L>,
) -> Result<(), NoMemory>
    ensures stands { OnOk result ((c : Chain) (rows : Memberships) (waiting : Waiting) → ⟦<Facts as Tables<Block>>⟧.at facts.now c → IsWritten c block.now next.now
        → Stands c block.now (⟦<MIndex as Tables<MemberRows>>⟧.at memberships.old) (⟦<Queue as Tables<Entries>>⟧.at queue.old) rows waiting
        → Stands c block.now (⟦<MIndex as Tables<MemberRows>>⟧.at memberships.new) (⟦<Queue as Tables<Entries>>⟧.at queue.new) (λ k. membership_after_lines c block.now k (rows k)) (λ time due. fold (revoke_queue due) (fold (enter_queue c block.now time due) (fold (enter_queue c block.now time due) (waiting time due) block.now.joiners) block.now.actives) block.now.revoked)) }
    ensures memberships_others { ⟦<MIndex as Tables<MemberRows>>⟧.others memberships.new ≡ ⟦<MIndex as Tables<MemberRows>>⟧.others memberships.old }
    ensures queue_others { ⟦<Queue as Tables<Entries>>⟧.others queue.new ≡ ⟦<Queue as Tables<Entries>>⟧.others queue.old }
    ensures count { ⟦<MIndex as Tables<MemberRows>>⟧.count memberships.new + ⟦<Queue as Tables<Entries>>⟧.count queue.new + steps.old ≤ ⟦<MIndex as Tables<MemberRows>>⟧.count memberships.old + ⟦<Queue as Tables<Entries>>⟧.count queue.old + steps.new }
    ensures steps { OnOk result (steps.new ≤ steps.old + (5 * (length block.now.joiners + length block.now.actives) + length block.now.leavers + 2 * length block.now.revoked)) }
{
    let joiners = block.joiners.as_slice();
    let actives = block.actives.as_slice();
    enter_all(memberships, queue, facts, block, next, joiners, steps)?;
    enter_all(memberships, queue, facts, block, next, actives, steps)?;
    leave_all(memberships, block, block.leavers.as_slice(), steps)?;
    revoke_all(memberships, queue, next, block.revoked.as_slice(), steps)
}
