ghost use Rattle.std.specs.Prelude.{◌≡◌, codes, is_some, IfOk};
ghost use Rattle.std.specs.List.{list_all};
ghost use Rattle.dubp_atoms.specs.Reading.{text_if};
ghost use Rattle.dubp_lines.specs.Lines.{split};
ghost use Rattle.dubp_lines.specs.Taking.{Gives, GivesInRoom};
ghost use Rattle.dubp_cond.specs.Transactions.{is_comment_letter, is_comment};
ghost use Rattle.dubp_docs.specs.Reading.{named_line, transaction_at, last};
ghost use Rattle.dubp_docs.specs.Passing.{passed_at};

use crate::doc::TxDoc;
use crate::kinds::StampText;
use crate::lists::{pass_list, pass_sigs, take_list, take_sigs};
use crate::reading::take_opening;
use crate::steps::take_named;
use dubp_atoms::{Items, Key, NoMemory};
use dubp_cond::{Input, Output, Tx, UnlockLine};
use dubp_lines::{LineRefusal, Lines, Refused};
use std::alloc::Global;

/// The most characters of a comment.
const MAX_COMMENT: usize = 255;

fn all_comment_letters(text: &[u8]) -> bool
    ensures { result ≡ list_all is_comment_letter text.now }
{
    text.iter().all(|c| matches!(*c, b' '..=b'~'))
}

#[tactic(auto, unfolding(dubp_cond::specs::Transactions::is_comment))]
fn is_comment_text(text: &[u8]) -> bool
    ensures { result ≡ is_comment text.now }
{
    text.len() <= MAX_COMMENT && all_comment_letters(text)
}

/// Takes the line of the comment.
fn take_comment<'a>(lines: &mut Lines<'a>) -> Result<&'a [u8], Refused>
    ensures { Gives (λ comment. (comment.now, lines.new)) result (named_line (text_if is_comment) (codes "Comment: ") lines.old) }
{
    let line = lines.first()?;
    let Some(comment) = line.strip_prefix(b"Comment: ") else {
        return Err(lines.refused());
    };
    if !is_comment_text(comment) {
        return Err(lines.refused());
    }
    lines.skip();
    Ok(comment)
}

/// Takes a transaction and the first three lines of its document.
fn take_transaction(alloc: Global, lines: &mut Lines<'_>) -> Result<TxDoc, LineRefusal>
    ensures { GivesInRoom (λ x. (x, lines.new)) result (transaction_at lines.old) }
{
    let currency = take_opening(lines, b"Type: Transaction")?;
    let stamp = take_named::<StampText>(lines, b"Blockstamp: ")?;
    let locktime = take_named::<u64>(lines, b"Locktime: ")?;
    let issuers = take_list::<Key>(alloc, lines, b"Issuers:")?;
    let inputs = take_list::<Input>(alloc, lines, b"Inputs:")?;
    let unlocks = take_list::<UnlockLine>(alloc, lines, b"Unlocks:")?;
    let outputs = take_list::<Output>(alloc, lines, b"Outputs:")?;
    let text = take_comment(lines)?;
    let comment = copied(alloc, text)?;
    let sigs = take_sigs(alloc, lines, issuers.len())?;
    Ok(TxDoc {
        currency,
        tx: Tx {
            stamp,
            locktime,
            issuers,
            inputs,
            unlocks,
            outputs,
            comment,
            sigs,
        },
    })
}

fn copied(alloc: Global, bytes: &[u8]) -> Result<Items<u8>, NoMemory>
    ensures { IfOk result (λ copied. copied ≡ bytes.now) }
{
    let copied = Vec::from_slice(alloc, bytes).map_err(|_| NoMemory)?;
    Ok(Items::from_vec(copied))
}

/// Passes over a transaction and the first three lines of its document, and counts its signatures.
fn pass_transaction(lines: &mut Lines<'_>) -> Result<usize, Refused>
    ensures { Gives (λ n. (n, lines.new)) result (passed_at lines.old) }
{
    take_opening(lines, b"Type: Transaction")?;
    take_named::<StampText>(lines, b"Blockstamp: ")?;
    take_named::<u64>(lines, b"Locktime: ")?;
    let issuers = pass_list::<Key>(lines, b"Issuers:")?;
    pass_list::<Input>(lines, b"Inputs:")?;
    pass_list::<UnlockLine>(lines, b"Unlocks:")?;
    pass_list::<Output>(lines, b"Outputs:")?;
    take_comment(lines)?;
    pass_sigs(lines, issuers)
}

/// Whether the text is that of a transaction's document. It takes no memory.
pub fn is_transaction(text: &[u8]) -> bool
    ensures { result ≡ is_some (last (transaction_at (split text.now))) }
{
    let mut lines = Lines::of(text);
    match pass_transaction(&mut lines) {
        Ok(_) => lines.is_done(),
        Err(_) => false,
    }
}

/// The document of a transaction that this text is. `NoMemory` where there is no room for it.
pub fn read_transaction(alloc: Global, text: &[u8]) -> Result<Option<TxDoc>, NoMemory>
    ensures { IfOk result (λ found. found ≡ last (transaction_at (split text.now))) }
{
    let mut lines = Lines::of(text);
    match take_transaction(alloc, &mut lines) {
        Ok(doc) => {
            if lines.is_done() {
                Ok(Some(doc))
            } else {
                Ok(None)
            }
        }
        Err(LineRefusal::NoMemory) => Err(NoMemory),
        Err(LineRefusal::Left(_)) => Ok(None),
    }
}
