ghost use Rattle.std.specs.Prelude.{◌≡◌, ◌+◌, ◌≤◌, ◌<◌, ◌++◌, [], ℕ, length, option_copied, reverse, vec_len, vec_capacity, OnOk};
ghost use Rattle.dubp_params.specs.Ranges.{IsInRange};
ghost use Rattle.dubp_chain.specs.Chains.{Chain, first_block, params as params_of};
ghost use Rattle.dubp_head.specs.HeadsStates.{KeepsRoom};
ghost use Rattle.dubp_kept.specs.KeptChain.{stated_params, steps_of_last, StandsWithin, WaitsWithin};
ghost use Rattle.dubp_kept.specs.Moves.{HasMoved, MayReturn};

use crate::written::Written;
use dubp_atoms::{NoMemory, Steps};
use dubp_block::Block;
use dubp_chain::Head;
use dubp_head::Heads;
use dubp_moving::Tables;
use dubp_params::Params;
use std::sync::ledger::Ledger as StepBook;

/// Takes memory for so many states ahead, of which there are none then. The tables stand for the chain as before.
pub(crate) fn make_ready<T: Written>(tables: &mut T, count: usize) -> Result<(), NoMemory>
    requires { count ≤ length (T.others tables.old).kept }
    ensures stands { (c : Chain) → StandsWithin (T.is (T.names tables.old)) (T.now tables.old) (T.count tables.old) (T.others tables.old).kept c → StandsWithin (T.is (T.names tables.new)) (T.now tables.new) (T.count tables.new) (T.others tables.new).kept c }
    ensures waits { (c : Chain) → WaitsWithin (T.is (T.names tables.new)) (T.others tables.new) c 0 }
    ensures ahead { (T.others tables.new).ahead ≡ [] }
    ensures kept { (T.others tables.new).kept ≡ (T.others tables.old).kept }
    ensures spare { OnOk result (count ≤ T.spare tables.new) }
{
    tables.drop_ahead();
    tables.reserve(count)?;
    Ok(())
}

/// Takes the last so many blocks off and holds them and their heads, newest first. There is room for them.
pub(crate) fn move_off<T: Written, L: StepBook>(
    blocks: &mut Vec<Block>,
    heads: &mut Heads,
    tables: &mut T,
    held: &mut Vec<Block>,
    behind: &mut Vec<Head>,
    count: usize,
    steps: &mut Steps<L>,
)
    requires moved { HasMoved (StandsWithin (T.is (T.names tables.old)) (T.now tables.old) (T.count tables.old) (T.others tables.old).kept) (WaitsWithin (T.is (T.names tables.old)) (T.others tables.old)) (length (T.others tables.old).ahead) heads.old behind.old.items blocks.old.items held.old.items (reverse blocks.old.items) 0 }
    requires few { count ≤ vec_len blocks.old }
    requires kept { count ≤ length (T.others tables.old).kept }
    requires spare { count ≤ T.spare tables.old }
    requires room { count ≤ vec_capacity held.old }
    requires heads_room { count ≤ vec_capacity behind.old }
    ensures moved { HasMoved (StandsWithin (T.is (T.names tables.new)) (T.now tables.new) (T.count tables.new) (T.others tables.new).kept) (WaitsWithin (T.is (T.names tables.new)) (T.others tables.new)) (length (T.others tables.new).ahead) heads.new behind.new.items blocks.new.items held.new.items (reverse blocks.old.items) count }
    ensures depth { length (T.others tables.new).kept + count ≡ length (T.others tables.old).kept }
    ensures steps { steps.new ≤ steps.old + steps_of_last count (reverse blocks.old.items) }
    ensures capacity { vec_capacity blocks.new ≡ vec_capacity blocks.old }
    ensures keeps { KeepsRoom heads.old heads.new }
{
    for i in 0..count {
        behind.push_reserved(heads.pop());
        held.push_reserved(blocks.pop().unwrap());
        tables.hold(steps);
    }
}

/// Puts the held blocks back, whose heads are there, and for which there is room.
pub(crate) fn put_back<T: Written, L: StepBook>(
    blocks: &mut Vec<Block>,
    heads: &mut Heads,
    tables: &mut T,
    held: &mut Vec<Block>,
    behind: &mut Vec<Head>,
    steps: &mut Steps<L>,
)
    requires returns { MayReturn (StandsWithin (T.is (T.names tables.old)) (T.now tables.old) (T.count tables.old) (T.others tables.old).kept) (WaitsWithin (T.is (T.names tables.old)) (T.others tables.old)) (length (T.others tables.old).ahead) heads.old behind.old.items blocks.old.items held.old.items (vec_capacity blocks.old) }
    ensures moved { HasMoved (StandsWithin (T.is (T.names tables.new)) (T.now tables.new) (T.count tables.new) (T.others tables.new).kept) (WaitsWithin (T.is (T.names tables.new)) (T.others tables.new)) (length (T.others tables.new).ahead) heads.new behind.new.items blocks.new.items held.new.items (held.old.items ++ reverse blocks.old.items) 0 }
    ensures depth { length (T.others tables.new).kept ≡ length (T.others tables.old).kept + length held.old.items }
    ensures steps { steps.new ≤ steps.old + steps_of_last (length held.old.items) (held.old.items ++ reverse blocks.old.items) }
    ensures capacity { vec_capacity blocks.new ≡ vec_capacity blocks.old }
    ensures keeps { KeepsRoom heads.old heads.new }
{
    if let Some(params) = first_params(blocks, held) {
        move_back(blocks, heads, tables, held, behind, &params, steps);
    }
}

/// The same. These are the parameters of the chain with the held blocks.
fn move_back<T: Written, L: StepBook>(
    blocks: &mut Vec<Block>,
    heads: &mut Heads,
    tables: &mut T,
    held: &mut Vec<Block>,
    behind: &mut Vec<Head>,
    params: &Params,
    steps: &mut Steps<L>,
)
    requires returns { MayReturn (StandsWithin (T.is (T.names tables.old)) (T.now tables.old) (T.count tables.old) (T.others tables.old).kept) (WaitsWithin (T.is (T.names tables.old)) (T.others tables.old)) (length (T.others tables.old).ahead) heads.old behind.old.items blocks.old.items held.old.items (vec_capacity blocks.old) }
    requires params { params.now ≡ params_of (held.old.items ++ reverse blocks.old.items) }
    requires range { IsInRange params.now }
    ensures moved { HasMoved (StandsWithin (T.is (T.names tables.new)) (T.now tables.new) (T.count tables.new) (T.others tables.new).kept) (WaitsWithin (T.is (T.names tables.new)) (T.others tables.new)) (length (T.others tables.new).ahead) heads.new behind.new.items blocks.new.items held.new.items (held.old.items ++ reverse blocks.old.items) 0 }
    ensures depth { length (T.others tables.new).kept ≡ length (T.others tables.old).kept + length held.old.items }
    ensures steps { steps.new ≤ steps.old + steps_of_last (length held.old.items) (held.old.items ++ reverse blocks.old.items) }
    ensures capacity { vec_capacity blocks.new ≡ vec_capacity blocks.old }
    ensures keeps { KeepsRoom heads.old heads.new }
{
    while let Some(block) = held.pop() {
        let head = behind.pop().unwrap();
        heads.put_back(head, params);
        blocks.push_reserved(block);
        tables.again(steps);
    }
}

/// The parameters that the first block states of the chain whose last blocks are held; the others stand oldest first.
#[tactic(auto, using(crate::proofs::First::first_behind_some, crate::proofs::First::first_behind_none))]
fn first_params(blocks: &[Block], held: &[Block]) -> Option<Params>
    ensures { result ≡ stated_params (held.now ++ reverse blocks.now) }
{
    match first_of(blocks) {
        Some(block) => block.stated_params().copied(),
        None => last_of(held)?.stated_params().copied(),
    }
}

/// The first block of a chain that stands oldest first.
#[tactic(auto, using(crate::proofs::First::first_turned))]
fn first_of(blocks: &[Block]) -> Option<&Block>
    ensures { option_copied result ≡ first_block (reverse blocks.now) }
{
    blocks.first()
}

/// The first block of a chain that stands newest first.
#[tactic(auto, using(crate::proofs::First::first_last))]
fn last_of(blocks: &[Block]) -> Option<&Block>
    ensures { option_copied result ≡ first_block blocks.now }
{
    blocks.last()
}
