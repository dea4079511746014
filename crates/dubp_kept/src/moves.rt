ghost use Rattle.std.specs.Prelude.{◌≡◌, ◌+◌, ◌-◌, ◌≤◌, ◌<◌, ◌∷◌, ℕ, Some, cond, length, min, IfOk, OnOk, OnErr};
ghost use Rattle.dubp_block.specs.Text.{IsBlock};
ghost use Rattle.dubp_chain.specs.Chains.{Chain};
ghost use Rattle.dubp_chain.specs.Heads.{head_of};
ghost use Rattle.dubp_head.specs.OfValidity.{IsSound, IsShort};
ghost use Rattle.dubp_local.specs.Local.{all_hashes};
ghost use Rattle.dubp_kept.specs.KeptChain.{most_steps, StandsWithin, WaitsWithin};
ghost use Rattle.dubp_kept.specs.LeftBehind.{left_behind};

use crate::left_behind::LeftBehind;
use crate::written::Written;
use dubp_atoms::{NoMemory, Steps};
use dubp_block::Block;
use dubp_chain::Head;
use dubp_docs::TxHashes;
use dubp_moving::Tables;
use std::alloc::Global;
use std::sync::ledger::Ledger as StepBook;

/// Marks the tables and writes the block into them, and hands out what the block leaves behind; where that is refused, the tables stand
/// for the chain as before.
pub(crate) fn enter<T: Written, L: StepBook>(
    tables: &mut T,
    alloc: Global,
    block: &Block,
    head: &Head,
    hashes: &[TxHashes],
    steps: &mut Steps<L>,
) -> Result<LeftBehind, NoMemory>
    requires text { IsBlock block.now }
    requires short { IsShort block.now }
    requires hashes { hashes.now ≡ all_hashes block.now }
    ensures stands { OnOk result ((c : Chain) → IsSound (block.now ∷ c) → IsBlock block.now → head_of (block.now ∷ c) ≡ Some head.now → StandsWithin (T.is (T.names tables.old)) (T.now tables.old) (T.count tables.old) (T.others tables.old).kept c → StandsWithin (T.is (T.names tables.new)) (T.now tables.new) (T.count tables.new) (T.others tables.new).kept (block.now ∷ c)) }
    ensures left { IfOk result (λ left. (c : Chain) → IsSound (block.now ∷ c) → IsBlock block.now → head_of (block.now ∷ c) ≡ Some head.now → T.at tables.old c → left ≡ left_behind c block.now) }
    ensures steps { OnOk result ((c : Chain) → IsSound (block.now ∷ c) → IsBlock block.now → head_of (block.now ∷ c) ≡ Some head.now → T.at tables.old c → steps.new ≤ steps.old + most_steps c block.now) }
    ensures depth { OnOk result (length (T.others tables.new).kept ≡ length (T.others tables.old).kept + 1) }
    ensures waits { (o : Chain) (i : ℕ) → WaitsWithin (T.is (T.names tables.old)) (T.others tables.old) o i → WaitsWithin (T.is (T.names tables.new)) (T.others tables.new) o i }
    ensures ahead { (T.others tables.new).ahead ≡ (T.others tables.old).ahead }
    ensures refused { OnErr result ((c : Chain) → StandsWithin (T.is (T.names tables.old)) (T.now tables.old) (T.count tables.old) (T.others tables.old).kept c → StandsWithin (T.is (T.names tables.new)) (T.now tables.new) (T.count tables.new) (T.others tables.new).kept c) }
    ensures refused_depth { OnErr result (length (T.others tables.new).kept ≡ length (T.others tables.old).kept) }
{
    tables.mark()?;
    match tables.write(alloc, block, head, hashes, steps) {
        Ok(left) => { Ok(left) }
        Err(error) => {
            tables.back(steps);
            Err(error)
        }
    }
}

/// Forgets the oldest kept states, until no more than so many are kept.
pub(crate) fn trim<T: Written>(tables: &mut T, most: usize)
    ensures stands { (c : Chain) → StandsWithin (T.is (T.names tables.old)) (T.now tables.old) (T.count tables.old) (T.others tables.old).kept c → StandsWithin (T.is (T.names tables.new)) (T.now tables.new) (T.count tables.new) (T.others tables.new).kept c }
    ensures depth { length (T.others tables.new).kept ≡ min (length (T.others tables.old).kept) most }
    ensures waits { (o : Chain) (i : ℕ) → WaitsWithin (T.is (T.names tables.old)) (T.others tables.old) o i → WaitsWithin (T.is (T.names tables.new)) (T.others tables.new) o i }
    ensures ahead { (T.others tables.new).ahead ≡ (T.others tables.old).ahead }
{
    while tables.depth() > most {
        tables.drop_oldest();
    }
}

/// The same, unless all states are to stay.
pub(crate) fn trim_unless<T: Written>(tables: &mut T, all: bool, most: usize)
    ensures stands { (c : Chain) → StandsWithin (T.is (T.names tables.old)) (T.now tables.old) (T.count tables.old) (T.others tables.old).kept c → StandsWithin (T.is (T.names tables.new)) (T.now tables.new) (T.count tables.new) (T.others tables.new).kept c }
    ensures depth { length (T.others tables.new).kept ≡ cond all (length (T.others tables.old).kept) (min (length (T.others tables.old).kept) most) }
    ensures waits { (o : Chain) (i : ℕ) → WaitsWithin (T.is (T.names tables.old)) (T.others tables.old) o i → WaitsWithin (T.is (T.names tables.new)) (T.others tables.new) o i }
    ensures ahead { (T.others tables.new).ahead ≡ (T.others tables.old).ahead }
{
    if all {
        return;
    }
    trim(tables, most);
}
