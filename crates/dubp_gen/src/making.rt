ghost use Rattle.std.specs.Prelude.{◌≡◌, ◌≤◌, ◌∷◌, ◌++◌, [], None, IfOk, IfErr, OnOk, OnErr, length, min, reverse};
ghost use Rattle.std.specs.List.{AllByRecursion};
ghost use Rattle.dubp_block.specs.Text.{IsBlock};
ghost use Rattle.dubp_ledger.specs.Traces.{IsShort};
ghost use Rattle.dubp_gen.specs.Generated.{Ends, IsMade};
ghost use Rattle.dubp_gen.specs.Making.{made_in, made_of};
ghost use Rattle.dubp_validity.specs.LocalRules.{InnerHashIsRight};

use crate::chain::{Chain, GenRefusal};
use crate::next::make_next;
use dubp_atoms::{Hash, Key, NoMemory, Sig, Steps};
use dubp_block::{Block, copy_block};
use dubp_drafts::next_number;
use dubp_ledger::{Ledger, PeopleAndMoney};
use dubp_verdict::Verdicts;
use std::alloc::Global;
use std::sync::ledger::Ledger as StepBook;

/// The first `n` blocks of the chain that begins with the number `start`, with their verdicts: at most 5,000.
///
/// `NoNonce` exactly where a block is met that cannot be sealed, `Invalid` exactly where one breaks a rule, and both name the first of them.
/// `NoMemory` where there is no room for the chain. The steps are those of a ledger of its own.
pub fn make_chain<T: PeopleAndMoney, L: StepBook>(
    alloc: Global,
    n: u64,
    start: u64,
    steps: &mut Steps<L>,
) -> Result<Chain, GenRefusal>
    requires { n ≤ 5000 }
    ensures made { IfOk result (λ made. IsMade start n (made_of made)) }
    ensures blocks { IfOk result (λ made. AllByRecursion IsBlock (reverse made.blocks.items)) }
    ensures short { IfOk result (λ made. AllByRecursion IsShort (reverse made.blocks.items)) }
    ensures hashed { IfOk result (λ made. AllByRecursion InnerHashIsRight (reverse made.blocks.items)) }
    ensures ended { IfErr result (Ends start n) }
{
    let mut ledger: Ledger<T> = Ledger::new(alloc);
    let verdicts = make_ledger(alloc, n, start, &mut ledger, steps)?;
    ledger.laws();
    let Ok(blocks) = copy_blocks(alloc, &ledger) else {
        return Err(GenRefusal::NoMemory);
    };
    Ok(Chain { blocks, verdicts })
}

/// Makes the same blocks in a ledger that has none, and tells their verdicts, in the order of those of a `Chain`.
///
/// It is refused as `make_chain` is; after a refusal the ledger has some of the blocks. The steps are those of the ledger.
pub fn make_ledger<T: PeopleAndMoney, L: StepBook>(
    alloc: Global,
    n: u64,
    start: u64,
    ledger: &mut Ledger<T>,
    steps: &mut Steps<L>,
) -> Result<Vec<(Key, Hash, Sig)>, GenRefusal>
    requires few { n ≤ 5000 }
    requires empty { ledger.old.chain ≡ [] }
    requires fresh { ledger.old.kept ≡ 0 }
    requires whole { ledger.old.out ≡ None }
    ensures made { IfOk result (λ given. IsMade start n (made_in ledger.new given.items)) }
    ensures kept { OnOk result (ledger.new.kept ≡ min n 100) }
    ensures out { OnOk result (ledger.new.out ≡ None) }
    ensures ended { IfErr result (Ends start n) }
{
    let mut verdicts = Verdicts::new(alloc);
    let mut noted = Vec::new(alloc);
    let mut x = start;
    for _ in 0..n {
        make_next(alloc, ledger, &mut verdicts, x, &mut noted, steps)?;
        x = next_number(x);
    }
    Ok(noted)
}

/// The blocks of the ledger, in ascending number. `NoMemory` only where it has one.
fn copy_blocks<T: PeopleAndMoney>(alloc: Global, ledger: &Ledger<T>) -> Result<Vec<Block>, NoMemory>
    ensures blocks { IfOk result (λ blocks. reverse blocks.items ≡ ledger.now.chain) }
    ensures some { OnErr result (1 ≤ length ledger.now.chain) }
{
    let mut blocks = Vec::new(alloc);
    for number in 0..ledger.len() as u64 {
        if let Some(block) = ledger.block_at(number) {
            push_copy(alloc, block, &mut blocks)?;
        }
    }
    Ok(blocks)
}

fn push_copy(alloc: Global, block: &Block, blocks: &mut Vec<Block>) -> Result<(), NoMemory>
    ensures { OnOk result (blocks.new.items ≡ blocks.old.items ++ block.now ∷ []) }
{
    let copied = copy_block(alloc, block)?;
    blocks.push(copied).map_err(|_| NoMemory)
}
