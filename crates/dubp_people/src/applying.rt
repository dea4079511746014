ghost use Rattle.std.specs.Prelude.{◌≡◌, ℕ, ◌+◌, ◌*◌, ◌≤◌, ◌∷◌, ◌++◌, List, length, IfOk, OnOk, OnErr};
ghost use Rattle.dubp_chain.specs.Chains.{Chain};
ghost use Rattle.dubp_people_apply.specs.Ends.{end_records};
ghost use Rattle.dubp_people_apply.specs.OfSteps.{people_records};
ghost use Rattle.dubp_people.specs.Applied.{IsApplied};

use crate::next::time_before;
use crate::writing::{write_lines, write_others};
use dubp_atoms::{NoMemory, Steps};
use dubp_block::Block;
use dubp_chain::Head;
use dubp_people_apply::put_line_records;
use dubp_registry::{Registry, next_of};
use dubp_undo::Tables;
use dubp_validity::Record;
use std::alloc::Global;
use std::sync::ledger::Ledger as StepBook;

/// Writes the block, whose head this is, behind the chain, and appends its records of people in the order of the protocol.
///
/// It adds at most eight steps for each of these records, and eight. What is kept stays so. `NoMemory` where there is no room: the
/// records are as before then, and what was written until then stands in the tables until they go back to what is kept.
pub fn apply<L: StepBook>(
    alloc: Global,
    people: &mut Registry,
    block: &Block,
    head: &Head,
    out: &mut Vec<Record>,
    steps: &mut Steps<L>,
) -> Result<(), NoMemory>
    ensures at { OnOk result ((c : Chain) → IsApplied c block.now head.now → ⟦<Registry as Tables<Block>>⟧.at people.old c → ⟦<Registry as Tables<Block>>⟧.at people.new (block.now ∷ c)) }
    ensures records { OnOk result ((c : Chain) → IsApplied c block.now head.now → ⟦<Registry as Tables<Block>>⟧.at people.old c → out.new.items ≡ out.old.items ++ people_records c block.now) }
    ensures others { ⟦<Registry as Tables<Block>>⟧.others people.new ≡ ⟦<Registry as Tables<Block>>⟧.others people.old }
    ensures count { ⟦<Registry as Tables<Block>>⟧.count people.new + steps.old ≤ ⟦<Registry as Tables<Block>>⟧.count people.old + steps.new }
    ensures steps { OnOk result ((c : Chain) → IsApplied c block.now head.now → ⟦<Registry as Tables<Block>>⟧.at people.old c → steps.new ≤ steps.old + (8 * length (people_records c block.now) + 8)) }
    ensures refused { OnErr result (out.new.items ≡ out.old.items) }
{
    let mut records = Vec::new(alloc);
    put_line_records(people.facts(), block, &mut records)?;
    let mut ended = write_block(alloc, people, block, head, steps)?;
    append(&mut ended, &mut records)?;
    append(&mut records, out)?;
    Ok(())
}

/// Writes the block, whose head this is, behind the chain, and hands out the records of its ends, which no line tells: `apply` without the
/// records of the lines. Where nothing ends they take no memory.
///
/// It adds as many steps as `apply`, and what is kept stays so. `NoMemory` where there is no room: what was written until then stands in the
/// tables until they go back to what is kept.
pub fn write_block<L: StepBook>(
    alloc: Global,
    people: &mut Registry,
    block: &Block,
    head: &Head,
    steps: &mut Steps<L>,
) -> Result<Vec<Record>, NoMemory>
    ensures at { OnOk result ((c : Chain) → IsApplied c block.now head.now → ⟦<Registry as Tables<Block>>⟧.at people.old c → ⟦<Registry as Tables<Block>>⟧.at people.new (block.now ∷ c)) }
    ensures records { IfOk result (λ ended. (c : Chain) → IsApplied c block.now head.now → ⟦<Registry as Tables<Block>>⟧.at people.old c → ended.items ≡ end_records c block.now) }
    ensures others { ⟦<Registry as Tables<Block>>⟧.others people.new ≡ ⟦<Registry as Tables<Block>>⟧.others people.old }
    ensures count { ⟦<Registry as Tables<Block>>⟧.count people.new + steps.old ≤ ⟦<Registry as Tables<Block>>⟧.count people.old + steps.new }
    ensures steps { OnOk result ((c : Chain) → IsApplied c block.now head.now → ⟦<Registry as Tables<Block>>⟧.at people.old c → steps.new ≤ steps.old + (8 * length (people_records c block.now) + 8)) }
{
    let next = next_of(people.facts(), block, head);
    let since = time_before(people, block);
    let mut ended = Vec::new(alloc);
    let tables = &mut people.tables;
    write_lines(
        alloc,
        &mut tables.first,
        &mut tables.second,
        since,
        block,
        &next,
        &mut ended,
        steps,
    )?;
    write_others(
        &mut tables.second,
        &tables.first,
        block,
        head,
        &next,
        ended.as_slice(),
        steps,
    )?;
    Ok(ended)
}

/// Moves the records behind those that are there.
fn append(records: &mut Vec<Record>, out: &mut Vec<Record>) -> Result<(), NoMemory>
    ensures appended { OnOk result (out.new.items ≡ out.old.items ++ records.old.items) }
    ensures refused { OnErr result (out.new.items ≡ out.old.items) }
{
    out.append(records).map_err(|_| NoMemory)
}
