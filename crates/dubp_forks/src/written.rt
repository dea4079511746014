ghost use Rattle.std.specs.Prelude.{◌≡◌, ◌<◌, ◌≤◌, ◌++◌, ◌∷◌, [], Some, IfOk, OnOk, length, reverse, take};
ghost use Rattle.dubp_block.specs.declared.block.Block.{Block as BlockValue};
ghost use Rattle.dubp_chain.specs.Chains.{block_of_number};
ghost use Rattle.dubp_forks.specs.Entries.{entries_of, entry_of};

use crate::stored::Stored;
use dubp_atoms::{NoMemory, Stamp};
use dubp_block::stamp_of;
use dubp_ledger::{Ledger, PeopleAndMoney};
use std::alloc::Global;

/// The entries of the last `count` blocks of the chain, in ascending number, of all where it has fewer. `NoMemory` where there is no room
/// for their texts.
pub(crate) fn write_last<T: PeopleAndMoney>(
    alloc: Global,
    ledger: &Ledger<T>,
    count: usize,
) -> Result<Vec<(Stamp, Stored)>, NoMemory>
    ensures entries { IfOk result (λ last. last.items ≡ entries_of (reverse (take count ledger.now.chain))) }
    ensures few { IfOk result (λ last. length last.items ≤ count) }
{
    let len = ledger.len();
    let mut last = Vec::new(alloc);
    let mut number = len.saturating_sub(count);
    while number < len {
        let entry = entry_at(alloc, ledger, number as u64)?;
        push_entry(&mut last, entry)?;
        number += 1;
    }
    Ok(last)
}

// The entry of the block of this number. `NoMemory` where there is no room for its text.
fn entry_at<T: PeopleAndMoney>(
    alloc: Global,
    ledger: &Ledger<T>,
    number: u64,
) -> Result<(Stamp, Stored), NoMemory>
    requires { number < length ledger.now.chain }
    ensures { IfOk result (λ entry. (b : BlockValue) × (block_of_number ledger.now.chain number ≡ Some b) × (entry ≡ entry_of b)) }
{
    let Some(block) = ledger.block_at(number) else {
        unreachable!();
    };
    let stored = Stored::write(alloc, block)?;
    Ok((stamp_of(block), stored))
}

fn push_entry(last: &mut Vec<(Stamp, Stored)>, entry: (Stamp, Stored)) -> Result<(), NoMemory>
    ensures { OnOk result (last.new.items ≡ last.old.items ++ entry ∷ []) }
{
    last.push(entry).map_err(|_| NoMemory)
}
