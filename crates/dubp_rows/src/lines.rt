//! The records of the lines of a block.
ghost use Rattle.std.specs.Prelude.{◌≡◌, [], ◌∷◌, ◌++◌, take, length, OnOk};
ghost use Rattle.dubp_chain.specs.Chains.{Chain};
ghost use Rattle.dubp_validity.specs.Records.{line_records};
ghost use Rattle.dubp_validity.specs.Rules.{IsSound};

use dubp_atoms::NoMemory;
use dubp_block::Block;
use dubp_money::Facts;
use dubp_moving::Tables;
use dubp_people_apply::put_line_records;
use dubp_validity::Record;
use std::alloc::Global;

/// The number of the first block of a chain.
const FIRST_NUMBER: u64 = 0;

/// Appends the records of the lines of the block, section by section, where the facts are those of a chain that it is a block of.
///
/// What a line names was made on a block before its own, and the chain dates that block as it did then. Only what the first block
/// has was made on no block. `NoMemory` where there is no room for the records; some may have been appended then, behind what was there.
pub(crate) fn put_lines(
    alloc: Global,
    block: &Block,
    facts: &Facts,
    out: &mut Vec<Record>,
) -> Result<(), NoMemory>
    ensures appended { OnOk result ((d c : Chain) → ⟦<Facts as Tables<Block>>⟧.at facts.now (d ++ block.now ∷ c) → IsSound (d ++ block.now ∷ c) → out.new.items ≡ out.old.items ++ line_records c block.now) }
    ensures begins { take (length out.old.items) out.new.items ≡ out.old.items }
{
    if block.number == FIRST_NUMBER {
        return put_first_lines(alloc, block, out);
    }
    put_line_records(facts, block, out)
}

// Those of the first block. It takes the facts of the empty chain.
fn put_first_lines(alloc: Global, block: &Block, out: &mut Vec<Record>) -> Result<(), NoMemory>
    ensures appended { OnOk result (out.new.items ≡ out.old.items ++ line_records [] block.now) }
    ensures begins { take (length out.old.items) out.new.items ≡ out.old.items }
{
    let none = Facts::new(alloc);
    put_line_records(&none, block, out)
}
