//! What a block does to a condition's account.
ghost use Rattle.std.specs.Prelude.{◌≡◌, ℕ, ◌≤◌, List, ◌∷◌, Some, fold, take, length, map, OnOk};
ghost use Rattle.std.specs.List.{enumerate_from};
ghost use Rattle.dubp_block.specs.Text.{IsBlock};
ghost use Rattle.dubp_chain.specs.Chains.{Chain};
ghost use Rattle.dubp_chain.specs.Heads.{head_of};
ghost use Rattle.dubp_atoms.specs.Same.{Text, same_text};
ghost use Rattle.dubp_chain.specs.Money.{Source, dividends_at, dividend_source, hashes_in, output_source, signed_by};
ghost use Rattle.dubp_chain.specs.OfCond.{T, cond_text};
ghost use Rattle.dubp_chain.specs.OfDocs.{tx_hash};
ghost use Rattle.dubp_kept.specs.LeftBehind.{left_behind};
ghost use Rattle.dubp_replay.specs.OfMoves.{Account, Spent, with_block, with_cleared, with_gone, with_made, with_transaction};
ghost use Rattle.dubp_validity.specs.Records.{input_of};
ghost use Rattle.dubp_validity.specs.declared.record.Record.TheVariants.{Clear};
ghost use Rattle.dubp_statement.specs.Tallies.{IsTallyOf, moves_of};

use crate::conditions::{is_text_of, signer};
use crate::tally::Tally;
use dubp_atoms::{Hash, Key, NoMemory};
use dubp_block::Block;
use dubp_chain::Head;
use dubp_cond::{Input, Output, SourceId, Tx};
use dubp_kept::LeftBehind;
use dubp_replay::Kind;
use dubp_validity::Record;

/// One block more, which is in range, with its head and what it left behind: first its transactions, then its dividends, then what it cleared.
///
/// `NoMemory` where there is no room for the moves of the condition of this text; some may have been appended then, behind what was there.
#[tactic(auto, using(crate::proofs::Lists::begins_on))]
pub fn add_block(
    tally: &mut Tally,
    cond: &[u8],
    block: &Block,
    head: &Head,
    left: &LeftBehind,
) -> Result<(), NoMemory>
    requires { IsBlock block.now }
    ensures account { OnOk result ((c : Chain) (a : Account) → head_of (block.now ∷ c) ≡ Some head.now → left.now ≡ left_behind c block.now → IsTallyOf a tally.old → IsTallyOf (with_block cond.now c block.now a) tally.new) }
    ensures begins { take (length (moves_of tally.old)) (moves_of tally.new) ≡ moves_of tally.old }
{
    add_transactions(tally, cond, block, left.transactions.as_slice())?;
    add_dividends(tally, cond, block.number, head, left.paid.as_slice())?;
    add_cleared(tally, block.number, left.cleared.as_slice())
}

// The transactions of the block, which have these hashes, one after the other.
#[tactic(auto, using(crate::proofs::Lists::begins_on))]
fn add_transactions(
    tally: &mut Tally,
    cond: &[u8],
    block: &Block,
    hashes: &[Hash],
) -> Result<(), NoMemory>
    ensures account { OnOk result ((time : ℕ) (a : Account) → hashes.now ≡ hashes_in block.now → IsTallyOf a tally.old → IsTallyOf (fold (with_transaction cond.now block.now.number time block.now.currency) a block.now.transactions) tally.new) }
    ensures begins { take (length (moves_of tally.old)) (moves_of tally.new) ≡ moves_of tally.old }
{
    let txs = block.transactions.as_slice();
    for (tx, hash) in txs.iter().zip(hashes) {
        add_transaction(tally, cond, block.number, tx, hash)?;
    }
    Ok(())
}

// What a transaction of this hash spends, and then what it makes.
#[tactic(auto, using(crate::proofs::Lists::begins_on))]
fn add_transaction(
    tally: &mut Tally,
    cond: &[u8],
    number: u64,
    tx: &Tx,
    hash: &Hash,
) -> Result<(), NoMemory>
    ensures account { OnOk result ((currency : Text) (time : ℕ) (a : Account) → hash.now ≡ tx_hash currency tx.now → IsTallyOf a tally.old → IsTallyOf (with_transaction cond.now number time currency a tx.now) tally.new) }
    ensures begins { take (length (moves_of tally.old)) (moves_of tally.new) ≡ moves_of tally.old }
{
    add_inputs(tally, number, tx.inputs.as_slice())?;
    add_outputs(tally, cond, number, tx, hash)
}

// What these inputs spend.
#[tactic(auto, using(crate::proofs::Lists::begins_on))]
fn add_inputs(tally: &mut Tally, number: u64, inputs: &[Input]) -> Result<(), NoMemory>
    ensures account { OnOk result ((a : Account) → IsTallyOf a tally.old → IsTallyOf (fold (with_gone Spent number) a inputs.now) tally.new) }
    ensures begins { take (length (moves_of tally.old)) (moves_of tally.new) ≡ moves_of tally.old }
{
    for input in inputs {
        tally.take(number, Kind::Spent, input)?;
    }
    Ok(())
}

// What a transaction of this hash makes.
#[tactic(auto, using(crate::proofs::Lists::begins_on))]
fn add_outputs(
    tally: &mut Tally,
    cond: &[u8],
    number: u64,
    tx: &Tx,
    hash: &Hash,
) -> Result<(), NoMemory>
    ensures account { OnOk result ((time : ℕ) (a : Account) → IsTallyOf a tally.old → IsTallyOf (fold (with_made cond.now number) a (map (output_source time hash.now) (enumerate_from 0 tx.now.outputs))) tally.new) }
    ensures begins { take (length (moves_of tally.old)) (moves_of tally.new) ≡ moves_of tally.old }
{
    let mut place = 0;
    for output in tx.outputs.as_slice() {
        add_output(tally, cond, number, output, hash, place)?;
        place += 1;
    }
    Ok(())
}

// The output at this place of the transaction of this hash, where it has the condition.
fn add_output(
    tally: &mut Tally,
    cond: &[u8],
    number: u64,
    output: &Output,
    hash: &Hash,
    place: u64,
) -> Result<(), NoMemory>
    ensures account { OnOk result ((s : Source) (a : Account) → s.cond ≡ output.now.cond → input_of s ≡ record { amount = output.now.amount; base = output.now.base; source = T hash.now place } → IsTallyOf a tally.old → IsTallyOf (with_made cond.now number a s) tally.new) }
    ensures begins { take (length (moves_of tally.old)) (moves_of tally.new) ≡ moves_of tally.old }
{
    if !is_text_of(cond, &output.cond) {
        return Ok(());
    }
    let source = SourceId::T {
        tx: *hash,
        index: place,
    };
    let input = Input {
        amount: output.amount,
        base: output.base,
        source,
    };
    tally.make(number, &input)
}

// What the block of this number, whose head this is, pays to these members.
#[tactic(auto, using(crate::proofs::Lists::begins_on))]
fn add_dividends(
    tally: &mut Tally,
    cond: &[u8],
    number: u64,
    head: &Head,
    members: &[Key],
) -> Result<(), NoMemory>
    ensures account { OnOk result ((a : Account) → IsTallyOf a tally.old → IsTallyOf (fold (with_made cond.now number) a (dividends_at number (Some head.now) members.now)) tally.new) }
    ensures begins { take (length (moves_of tally.old)) (moves_of tally.new) ≡ moves_of tally.old }
{
    let Some(amount) = head.ud else {
        return Ok(());
    };
    let Some(key) = signer(cond) else {
        return Ok(());
    };
    for member in members {
        add_dividend(tally, key, number, amount, head.unit_base, member)?;
    }
    Ok(())
}

// The dividend of a member, where it is for the condition that the key of this text alone signs.
fn add_dividend(
    tally: &mut Tally,
    key: &[u8],
    number: u64,
    amount: u64,
    base: u8,
    member: &Key,
) -> Result<(), NoMemory>
    ensures account { OnOk result ((cond : Text) (time : ℕ) (a : Account) → same_text cond (cond_text (signed_by member.now)) ≡ same_text key.now member.now → IsTallyOf a tally.old → IsTallyOf (with_made cond number a (dividend_source time number amount base member.now)) tally.new) }
    ensures begins { take (length (moves_of tally.old)) (moves_of tally.new) ≡ moves_of tally.old }
{
    if key != member.as_bytes() {
        return Ok(());
    }
    let source = SourceId::D {
        key: *member,
        block: number,
    };
    let input = Input {
        amount,
        base,
        source,
    };
    tally.make(number, &input)
}

// What the block of this number cleared, as records.
#[tactic(auto, using(crate::proofs::Lists::begins_on))]
fn add_cleared(tally: &mut Tally, number: u64, cleared: &[Record]) -> Result<(), NoMemory>
    ensures account { OnOk result ((sources : List Source) (a : Account) → cleared.now ≡ map (λ s. Clear (input_of s)) sources → IsTallyOf a tally.old → IsTallyOf (fold (with_cleared number) a sources) tally.new) }
    ensures begins { take (length (moves_of tally.old)) (moves_of tally.new) ≡ moves_of tally.old }
{
    for item in cleared {
        clear(tally, number, item)?;
    }
    Ok(())
}

// The source that this record says was cleared.
fn clear(tally: &mut Tally, number: u64, item: &Record) -> Result<(), NoMemory>
    ensures account { OnOk result ((s : Source) (a : Account) → item.now ≡ Clear (input_of s) → IsTallyOf a tally.old → IsTallyOf (with_cleared number a s) tally.new) }
    ensures begins { take (length (moves_of tally.old)) (moves_of tally.new) ≡ moves_of tally.old }
{
    match item {
        Record::Clear { input } => tally.take(number, Kind::Cleared, input),
        _ => Ok(()),
    }
}
