ghost use Rattle.std.specs.Prelude.{◌≡◌, ℕ, ◌+◌, ◌≤◌, ◌∷◌, ◌++◌, List, length, OnOk};
ghost use Rattle.std.specs.Cmp.Lexicographic.{slice_cmp};
ghost use Rattle.std.specs.Ordering.{nat_cmp};
ghost use Rattle.dubp_undo.specs.States.{states};
ghost use Rattle.dubp_chain.specs.Chains.{Chain};
ghost use Rattle.dubp_registry.specs.OfLeft.{queue_left};
ghost use Rattle.dubp_registry.specs.OfLeft.{IsWritten};
ghost use Rattle.dubp_registry.specs.OfFacts.{IsNext};
ghost use Rattle.dubp_people_apply.specs.Writing.{most_sets};
ghost use Rattle.dubp_people_apply.specs.Counting.{membership_sets, certification_sets, queue_sets, touching_lines};
ghost use Rattle.dubp_people_apply.specs.Ends.{end_records};
ghost use Rattle.dubp_people_apply.specs.Taking.{IsSince};

use crate::kicked::{KickedTable, write_kicked};
use dubp_atoms::{NoMemory, Steps};
use dubp_block::Block;
use dubp_chain::Head;
use dubp_expiry::{Entries, Queue};
use dubp_people_apply::{write_ends, write_identities};
use dubp_registry::{Facts, Indexes, Next, Others};
use dubp_undo::Tables;
use dubp_validity::Record;
use std::alloc::Global;
use std::sync::ledger::Ledger as StepBook;

/// Writes the block into the three indexes and the queue, and appends the records of its ends.
///
/// `facts` are those of the chain below the block, and `since` is its time in seconds, where it has a block. What is kept stays so.
fn write_indexes<L: StepBook>(
    alloc: Global,
    indexes: &mut Indexes,
    queue: &mut Queue,
    facts: &Facts,
    since: Option<u64>,
    block: &Block,
    next: &Next,
    out: &mut Vec<Record>,
    steps: &mut Steps<L>,
) -> Result<(), NoMemory>
    ensures indexes { OnOk result ((c : Chain) → ⟦<Facts as Tables<Block>>⟧.at facts.now c → IsWritten c block.now next.now → IsSince c since → ⟦<Indexes as Tables<Block>>⟧.at indexes.old c → ⟦<Queue as Tables<Entries>>⟧.at queue.old (states queue_left c) → ⟦<Indexes as Tables<Block>>⟧.at indexes.new (block.now ∷ c)) }
    ensures queue { OnOk result ((c : Chain) → ⟦<Facts as Tables<Block>>⟧.at facts.now c → IsWritten c block.now next.now → IsSince c since → ⟦<Indexes as Tables<Block>>⟧.at indexes.old c → ⟦<Queue as Tables<Entries>>⟧.at queue.old (states queue_left c) → ⟦<Queue as Tables<Entries>>⟧.at queue.new (states queue_left (block.now ∷ c))) }
    ensures records { OnOk result ((c : Chain) → ⟦<Facts as Tables<Block>>⟧.at facts.now c → IsWritten c block.now next.now → IsSince c since → ⟦<Indexes as Tables<Block>>⟧.at indexes.old c → ⟦<Queue as Tables<Entries>>⟧.at queue.old (states queue_left c) → out.new.items ≡ out.old.items ++ end_records c block.now) }
    ensures indexes_others { ⟦<Indexes as Tables<Block>>⟧.others indexes.new ≡ ⟦<Indexes as Tables<Block>>⟧.others indexes.old }
    ensures queue_others { ⟦<Queue as Tables<Entries>>⟧.others queue.new ≡ ⟦<Queue as Tables<Entries>>⟧.others queue.old }
    ensures count { ⟦<Indexes as Tables<Block>>⟧.count indexes.new + ⟦<Queue as Tables<Entries>>⟧.count queue.new + steps.old ≤ ⟦<Indexes as Tables<Block>>⟧.count indexes.old + ⟦<Queue as Tables<Entries>>⟧.count queue.old + steps.new }
    ensures steps { OnOk result ((c : Chain) → ⟦<Facts as Tables<Block>>⟧.at facts.now c → IsWritten c block.now next.now → IsSince c since → ⟦<Indexes as Tables<Block>>⟧.at indexes.old c → ⟦<Queue as Tables<Entries>>⟧.at queue.old (states queue_left c) → steps.new ≤ steps.old + (most_sets block.now + (membership_sets c block.now + certification_sets c block.now + queue_sets c block.now))) }
{
    write_identities(&mut indexes.tables.first.tables, block, steps)?;
    write_ends(
        alloc,
        &mut indexes.tables.second.tables,
        &mut indexes.tables.third.tables,
        queue,
        facts,
        since,
        block,
        next,
        out,
        steps,
    )?;
    Ok(())
}

/// Notes who has to be excluded, and writes the block into the facts.
///
/// The indexes and the queue are those of the chain with the block already, and `ended` has the records of its ends.
pub(crate) fn write_others<L: StepBook>(
    others: &mut Others,
    indexes: &Indexes,
    block: &Block,
    head: &Head,
    next: &Next,
    ended: &[Record],
    steps: &mut Steps<L>,
) -> Result<(), NoMemory>
    ensures at { OnOk result ((c : Chain) → IsWritten c block.now next.now → IsNext c block.now head.now → ended.now ≡ end_records c block.now → ⟦<Indexes as Tables<Block>>⟧.at indexes.now (block.now ∷ c) → ⟦<Queue as Tables<Entries>>⟧.at others.old.tables.first.tables (states queue_left (block.now ∷ c)) → ⟦<KickedTable as Tables<Block>>⟧.at others.old.tables.second c → ⟦<Facts as Tables<Block>>⟧.at others.old.tables.third c → ⟦<Others as Tables<Block>>⟧.at others.new (block.now ∷ c)) }
    ensures others { ⟦<Others as Tables<Block>>⟧.others others.new ≡ ⟦<Others as Tables<Block>>⟧.others others.old }
    ensures count { ⟦<Others as Tables<Block>>⟧.count others.new + steps.old ≤ ⟦<Others as Tables<Block>>⟧.count others.old + steps.new }
    ensures steps { OnOk result (steps.new ≤ steps.old + (touching_lines block.now + length ended.now + 2)) }
{
    write_kicked(
        &mut others.tables.second,
        indexes,
        next,
        block,
        ended,
        steps,
    )?;
    write_facts(&mut others.tables.third, block, head, steps)?;
    Ok(())
}

/// Writes the block into the facts.
fn write_facts<L: StepBook>(
    facts: &mut Facts,
    block: &Block,
    head: &Head,
    steps: &mut Steps<L>,
) -> Result<(), NoMemory>
    ensures at { OnOk result ((c : Chain) → ⟦<Facts as Tables<Block>>⟧.at facts.old c → IsNext c block.now head.now → ⟦<Facts as Tables<Block>>⟧.at facts.new (block.now ∷ c)) }
    ensures others { ⟦<Facts as Tables<Block>>⟧.others facts.new ≡ ⟦<Facts as Tables<Block>>⟧.others facts.old }
    ensures count { ⟦<Facts as Tables<Block>>⟧.count facts.new + steps.old ≤ ⟦<Facts as Tables<Block>>⟧.count facts.old + steps.new }
    ensures steps { OnOk result (steps.new ≤ steps.old + 2) }
{
    facts.write(block, head, steps)?;
    Ok(())
}

/// The same with the queue and the facts in their place beside the keys that have to be excluded.
pub(crate) fn write_lines<L: StepBook>(
    alloc: Global,
    indexes: &mut Indexes,
    others: &mut Others,
    since: Option<u64>,
    block: &Block,
    next: &Next,
    out: &mut Vec<Record>,
    steps: &mut Steps<L>,
) -> Result<(), NoMemory>
    ensures indexes { OnOk result ((c : Chain) → IsWritten c block.now next.now → IsSince c since → ⟦<Indexes as Tables<Block>>⟧.at indexes.old c → ⟦<Others as Tables<Block>>⟧.at others.old c → ⟦<Indexes as Tables<Block>>⟧.at indexes.new (block.now ∷ c)) }
    ensures queue { OnOk result ((c : Chain) → IsWritten c block.now next.now → IsSince c since → ⟦<Indexes as Tables<Block>>⟧.at indexes.old c → ⟦<Others as Tables<Block>>⟧.at others.old c → ⟦<Queue as Tables<Entries>>⟧.at others.new.tables.first.tables (states queue_left (block.now ∷ c))) }
    ensures beside { (others.new.tables.second ≡ others.old.tables.second) × (others.new.tables.third ≡ others.old.tables.third) }
    ensures records { OnOk result ((c : Chain) → IsWritten c block.now next.now → IsSince c since → ⟦<Indexes as Tables<Block>>⟧.at indexes.old c → ⟦<Others as Tables<Block>>⟧.at others.old c → out.new.items ≡ out.old.items ++ end_records c block.now) }
    ensures others { ⟦<Indexes as Tables<Block>>⟧.others indexes.new ≡ ⟦<Indexes as Tables<Block>>⟧.others indexes.old }
    ensures others_others { ⟦<Others as Tables<Block>>⟧.others others.new ≡ ⟦<Others as Tables<Block>>⟧.others others.old }
    ensures count { ⟦<Indexes as Tables<Block>>⟧.count indexes.new + ⟦<Others as Tables<Block>>⟧.count others.new + steps.old ≤ ⟦<Indexes as Tables<Block>>⟧.count indexes.old + ⟦<Others as Tables<Block>>⟧.count others.old + steps.new }
    ensures steps { OnOk result ((c : Chain) → IsWritten c block.now next.now → IsSince c since → ⟦<Indexes as Tables<Block>>⟧.at indexes.old c → ⟦<Others as Tables<Block>>⟧.at others.old c → steps.new ≤ steps.old + (most_sets block.now + (membership_sets c block.now + certification_sets c block.now + queue_sets c block.now))) }
{
    write_indexes(
        alloc,
        indexes,
        &mut others.tables.first.tables,
        &others.tables.third,
        since,
        block,
        next,
        out,
        steps,
    )?;
    Ok(())
}
