ghost use Rattle.std.specs.Prelude.{◌≡◌, true, ◌+◌, ◌≤◌, ◌++◌, ◌∷◌, [], OnOk, All};
ghost use Rattle.arrayvec.specs.ArrayVec.{array_vec_len};
ghost use Rattle.dubp_cond.specs.Transactions.{is_comment, IsTx};
ghost use Rattle.dubp_block.specs.AddsLines.{AddsLines};
ghost use Rattle.dubp_block.specs.Sections.{tx_line, has_comment as has_comment_of, comment_lines, compact_lines, transaction_lines};

use crate::entries::{add_line, add_value, add_values};
use dubp_atoms::{Items, Line, TextSink, put_bytes, put_number};
use dubp_cond::Tx;

/// Adds the lines of the transactions, one transaction behind the other. Each line is put together in `line`, whatever that holds.
pub fn add_transactions<S: TextSink>(
    out: &mut S,
    line: &mut Line,
    transactions: &Items<Tx>,
) -> Result<(), S::Refusal>
    requires { All IsTx transactions.now }
    ensures { OnOk result (AddsLines S.has out.old out.new (transaction_lines transactions.now)) }
{
    for tx in transactions.as_slice() {
        add_transaction(out, line, tx)?;
    }
    Ok(())
}

/// Adds the lines of a transaction in its compact form, which are put together in `line`.
pub fn add_transaction<S: TextSink>(out: &mut S, line: &mut Line, tx: &Tx) -> Result<(), S::Refusal>
    requires { IsTx tx.now }
    ensures { OnOk result (AddsLines S.has out.old out.new (compact_lines tx.now)) }
{
    add_first_line(out, line, tx)?;
    add_value(out, line, b"", &tx.stamp)?;
    add_values(out, line, &tx.issuers)?;
    add_values(out, line, &tx.inputs)?;
    add_values(out, line, &tx.unlocks)?;
    add_values(out, line, &tx.outputs)?;
    add_comment(out, &tx.comment)?;
    add_values(out, line, &tx.sigs)?;
    Ok(())
}

// Adds the first line of a transaction.
#[tactic(auto, using(crate::proofs::Added::one_line))]
fn add_first_line<S: TextSink>(out: &mut S, line: &mut Line, tx: &Tx) -> Result<(), S::Refusal>
    ensures { OnOk result (AddsLines S.has out.old out.new (tx_line tx.now ∷ [])) }
{
    line.clear();
    put_first_line(tx, line);
    put_bytes(line, b"\n");
    out.put(line.as_slice())
}

// Appends how many lines of each kind a transaction has, and its locktime.
fn put_first_line(tx: &Tx, out: &mut Line)
    requires { array_vec_len out.old + 300 ≤ 2048 }
    ensures text { out.new.items ≡ out.old.items ++ tx_line tx.now }
    ensures room { array_vec_len out.new ≤ array_vec_len out.old + 300 }
{
    put_bytes(out, b"TX:10:");
    put_number(tx.issuers.len() as u128, out);
    put_bytes(out, b":");
    put_number(tx.inputs.len() as u128, out);
    put_bytes(out, b":");
    put_number(tx.unlocks.len() as u128, out);
    put_bytes(out, b":");
    put_number(tx.outputs.len() as u128, out);
    put_bytes(out, b":");
    put_number(has_comment(&tx.comment), out);
    put_bytes(out, b":");
    put_number(tx.locktime as u128, out);
}

// 0 where the comment is empty, else 1.
fn has_comment(comment: &Items<u8>) -> u128
    ensures { result ≡ has_comment_of comment.now }
{
    u128::from(!comment.is_empty())
}

// Adds the line of a comment, where it is not empty.
fn add_comment<S: TextSink>(out: &mut S, comment: &Items<u8>) -> Result<(), S::Refusal>
    requires { is_comment comment.now ≡ true }
    ensures { OnOk result (AddsLines S.has out.old out.new (comment_lines comment.now)) }
{
    if comment.is_empty() {
        Ok(())
    } else {
        add_line(out, comment.as_slice())
    }
}
