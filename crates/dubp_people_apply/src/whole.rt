ghost use Rattle.std.specs.Prelude.{◌≡◌, ◌∷◌, ◌++◌, take, length, OnOk, ◌+◌, ◌≤◌};
ghost use Rattle.dubp_chain.specs.Chains.{Chain};
ghost use Rattle.dubp_left.specs.Next.{IsWritten};
ghost use Rattle.dubp_steps.specs.Taken.{is_over_at_once, is_revoked_at_once, is_ended_at_once};
ghost use Rattle.dubp_people_apply.specs.Counting.{IsWithin, membership_sets, certification_sets, queue_sets};
ghost use Rattle.dubp_people_apply.specs.Ends.{end_records};
ghost use Rattle.dubp_people_apply.specs.Taking.{IsSince, AreNoted, HasAllTaken, AreLeftBy};

use crate::at_once::at_once;
use crate::certifications::write_certifications;
use crate::ended::{Ended, put_ended};
use crate::memberships::write_memberships;
use crate::taking::take_due;
use dubp_atoms::{NoMemory, Steps};
use dubp_block::Block;
use dubp_cindex::{CIndex, CertRows};
use dubp_expiry::{Entries, Queue};
use dubp_left::{Facts, Next};
use dubp_mindex::{MIndex, MemberRows};
use dubp_moving::Tables;
use dubp_validity::Record;
use std::alloc::Global;
use std::sync::ledger::Ledger as StepBook;

/// Writes the lines of the block, and takes what is due then. The sets begin with those who are at an end with a line.
fn write_tables<L: StepBook>(
    memberships: &mut MIndex,
    certifications: &mut CIndex,
    queue: &mut Queue,
    facts: &Facts,
    since: Option<u64>,
    block: &Block,
    next: &Next,
    ended: &mut Ended,
    steps: &mut Steps<L>,
) -> Result<(), NoMemory>
    ensures taken { OnOk result ((c : Chain) → ⟦<Facts as Tables<Block>>⟧.at facts.now c → IsWritten c block.now next.now → IsSince c since
        → AreLeftBy c (⟦<MIndex as Tables<MemberRows>>⟧.at memberships.old) (⟦<CIndex as Tables<CertRows>>⟧.at certifications.old) (⟦<Queue as Tables<Entries>>⟧.at queue.old)
        → AreNoted ended.old (is_over_at_once c block.now) (is_revoked_at_once c block.now) (is_ended_at_once c block.now)
        → HasAllTaken c block.now (⟦<MIndex as Tables<MemberRows>>⟧.at memberships.new) (⟦<CIndex as Tables<CertRows>>⟧.at certifications.new) (⟦<Queue as Tables<Entries>>⟧.at queue.new) ended.new) }
    ensures memberships_others { ⟦<MIndex as Tables<MemberRows>>⟧.others memberships.new ≡ ⟦<MIndex as Tables<MemberRows>>⟧.others memberships.old }
    ensures certifications_others { ⟦<CIndex as Tables<CertRows>>⟧.others certifications.new ≡ ⟦<CIndex as Tables<CertRows>>⟧.others certifications.old }
    ensures queue_others { ⟦<Queue as Tables<Entries>>⟧.others queue.new ≡ ⟦<Queue as Tables<Entries>>⟧.others queue.old }
    ensures count { ⟦<MIndex as Tables<MemberRows>>⟧.count memberships.new + ⟦<CIndex as Tables<CertRows>>⟧.count certifications.new + ⟦<Queue as Tables<Entries>>⟧.count queue.new + steps.old ≤ ⟦<MIndex as Tables<MemberRows>>⟧.count memberships.old + ⟦<CIndex as Tables<CertRows>>⟧.count certifications.old + ⟦<Queue as Tables<Entries>>⟧.count queue.old + steps.new }
    ensures within { OnOk result ((c : Chain) → ⟦<Facts as Tables<Block>>⟧.at facts.now c → IsWritten c block.now next.now → IsSince c since
        → AreLeftBy c (⟦<MIndex as Tables<MemberRows>>⟧.at memberships.old) (⟦<CIndex as Tables<CertRows>>⟧.at certifications.old) (⟦<Queue as Tables<Entries>>⟧.at queue.old)
        → AreNoted ended.old (is_over_at_once c block.now) (is_revoked_at_once c block.now) (is_ended_at_once c block.now)
        → IsWithin block.now ended.new steps.old steps.new) }
{
    write_memberships(memberships, queue, facts, block, next, steps)?;
    write_certifications(certifications, queue, facts, block, next, steps)?;
    take_due(
        memberships,
        certifications,
        queue,
        since,
        next,
        ended,
        steps,
    )
}

/// Writes the block into the memberships, the certifications and the queue, and appends the records of all ends, which take no memory where
/// nothing ends.
///
/// `facts` are those of the chain below the block, and `since` is its time in seconds, where it has a block. What is kept stays so.
/// `NoMemory` where there is no room; what was written until then stands in the tables, and some records may have been appended, behind those that were there.
#[tactic(auto, using(crate::proofs::Begins::begins_on))]
pub fn write_ends<L: StepBook>(
    alloc: Global,
    memberships: &mut MIndex,
    certifications: &mut CIndex,
    queue: &mut Queue,
    facts: &Facts,
    since: Option<u64>,
    block: &Block,
    next: &Next,
    out: &mut Vec<Record>,
    steps: &mut Steps<L>,
) -> Result<(), NoMemory>
    ensures left { OnOk result ((c : Chain) → ⟦<Facts as Tables<Block>>⟧.at facts.now c → IsWritten c block.now next.now → IsSince c since
        → AreLeftBy c (⟦<MIndex as Tables<MemberRows>>⟧.at memberships.old) (⟦<CIndex as Tables<CertRows>>⟧.at certifications.old) (⟦<Queue as Tables<Entries>>⟧.at queue.old)
        → AreLeftBy (block.now ∷ c) (⟦<MIndex as Tables<MemberRows>>⟧.at memberships.new) (⟦<CIndex as Tables<CertRows>>⟧.at certifications.new) (⟦<Queue as Tables<Entries>>⟧.at queue.new)) }
    ensures records { OnOk result ((c : Chain) → ⟦<Facts as Tables<Block>>⟧.at facts.now c → IsWritten c block.now next.now → IsSince c since
        → AreLeftBy c (⟦<MIndex as Tables<MemberRows>>⟧.at memberships.old) (⟦<CIndex as Tables<CertRows>>⟧.at certifications.old) (⟦<Queue as Tables<Entries>>⟧.at queue.old) → out.new.items ≡ out.old.items ++ end_records c block.now) }
    ensures begins { take (length out.old.items) out.new.items ≡ out.old.items }
    ensures memberships_others { ⟦<MIndex as Tables<MemberRows>>⟧.others memberships.new ≡ ⟦<MIndex as Tables<MemberRows>>⟧.others memberships.old }
    ensures certifications_others { ⟦<CIndex as Tables<CertRows>>⟧.others certifications.new ≡ ⟦<CIndex as Tables<CertRows>>⟧.others certifications.old }
    ensures queue_others { ⟦<Queue as Tables<Entries>>⟧.others queue.new ≡ ⟦<Queue as Tables<Entries>>⟧.others queue.old }
    ensures count { ⟦<MIndex as Tables<MemberRows>>⟧.count memberships.new + ⟦<CIndex as Tables<CertRows>>⟧.count certifications.new + ⟦<Queue as Tables<Entries>>⟧.count queue.new + steps.old ≤ ⟦<MIndex as Tables<MemberRows>>⟧.count memberships.old + ⟦<CIndex as Tables<CertRows>>⟧.count certifications.old + ⟦<Queue as Tables<Entries>>⟧.count queue.old + steps.new }
    ensures steps { OnOk result ((c : Chain) → ⟦<Facts as Tables<Block>>⟧.at facts.now c → IsWritten c block.now next.now → IsSince c since
        → AreLeftBy c (⟦<MIndex as Tables<MemberRows>>⟧.at memberships.old) (⟦<CIndex as Tables<CertRows>>⟧.at certifications.old) (⟦<Queue as Tables<Entries>>⟧.at queue.old) → steps.new ≤ steps.old + (membership_sets c block.now + certification_sets c block.now + queue_sets c block.now)) }
{
    let mut ended = at_once(
        alloc,
        memberships,
        certifications,
        facts,
        since,
        block,
        next,
    )?;
    write_tables(
        memberships,
        certifications,
        queue,
        facts,
        since,
        block,
        next,
        &mut ended,
        steps,
    )?;
    put_ended(&mut ended, out)
}
