//! The statement of a condition.
ghost use Rattle.std.specs.Prelude.{◌+◌, ◌<◌, IfOk, OnOk, length};
ghost use Rattle.dubp_statement.specs.OfReplay.{IsStatement, account_of};
ghost use Rattle.dubp_statement.specs.Fronts.{first_blocks};
ghost use Rattle.dubp_statement.specs.Tallies.{IsTallyOf};

use crate::blocks::add_block;
use crate::tally::Tally;
use dubp_atoms::NoMemory;
use dubp_cond::CondText;
use dubp_ledger::{Ledger, PeopleAndMoney};
use dubp_replay::Move;
use dubp_replay::move_laws::{accounts_have_the_moves, balances_are_numbers, moves_are_statements};
use std::alloc::Global;

/// The moves of the condition of this text on the chain of the ledger, block by block, each with the units that the condition has behind it.
///
/// `NoMemory` where there is no room for the moves or for the names of the condition's sources.
pub fn statement<T: PeopleAndMoney>(
    alloc: Global,
    ledger: &Ledger<T>,
    cond: &CondText,
) -> Result<Vec<Move>, NoMemory>
    ensures { IfOk result (λ moves. IsStatement ledger.now.chain cond.now.items moves.items) }
{
    ledger.laws();
    accounts_have_the_moves();
    moves_are_statements();
    balances_are_numbers();
    let tally = tally_of(alloc, ledger, cond.as_slice())?;
    Ok(tally.into_moves())
}

// What the blocks do to the account, oldest first.
fn tally_of<T: PeopleAndMoney>(
    alloc: Global,
    ledger: &Ledger<T>,
    cond: &[u8],
) -> Result<Tally, NoMemory>
    ensures { IfOk result (IsTallyOf (account_of cond.now ledger.now.chain)) }
{
    let mut tally = Tally::new(alloc, ledger.tables().secret());
    for number in 0..ledger.len() as u64 {
        add_block_of(ledger, number, cond, &mut tally)?;
    }
    Ok(tally)
}

// The block of this number.
fn add_block_of<T: PeopleAndMoney>(
    ledger: &Ledger<T>,
    number: u64,
    cond: &[u8],
    tally: &mut Tally,
) -> Result<(), NoMemory>
    requires { number < length ledger.now.chain }
    ensures { OnOk result (IsTallyOf (account_of cond.now (first_blocks number ledger.now.chain)) tally.old → IsTallyOf (account_of cond.now (first_blocks (number + 1) ledger.now.chain)) tally.new) }
{
    let Some(written) = ledger.written_at(number) else {
        return Ok(());
    };
    add_block(tally, cond, written.block, written.head, written.left)
}
