ghost use Rattle.std.specs.Prelude.{◌≡◌, IfOk};
ghost use Rattle.dubp_cond.specs.Transactions.{is_comment, is_comment_letter};
ghost use Rattle.std.specs.List.{list_all};
ghost use Rattle.dubp_lines.specs.Taking.{GivesInRoom};
ghost use Rattle.dubp_block.specs.ReadingLines.{comment_of};
ghost use Rattle.dubp_block.specs.Reading.{comment_at, tx_at, transactions_at};

use crate::kinds::{StampLine, TxHead};
use crate::rows::{ReadRow, push, take_row, take_rows};
use dubp_atoms::{Items, Key, NoMemory, Sig};
use dubp_cond::{Input, Output, Tx, UnlockLine};
use dubp_lines::{LineRefusal, Lines};
use std::alloc::Global;

/// The most characters of a comment.
const MAX_COMMENT: usize = 255;

/// Takes the section Transactions, up to a line that begins no transaction.
pub fn take_transactions(alloc: Global, lines: &mut Lines<'_>) -> Result<Items<Tx>, LineRefusal>
    ensures { GivesInRoom (λ v. (v, lines.new)) result (transactions_at lines.old) }
{
    lines.take(b"Transactions:")?;
    let mut taken = Vec::new(alloc);
    'entries: while lines.has_next(b"TX:") {
        let tx = take_tx(alloc, lines)?;
        push(&mut taken, tx)?;
    }
    Ok(Items::from_vec(taken))
}

// Takes a transaction in compact form.
#[tactic(auto, unfolding(crate::specs::Reading::tx_at, dubp_lines::specs::Readers::and_then))]
fn take_tx(alloc: Global, lines: &mut Lines<'_>) -> Result<Tx, LineRefusal>
    ensures { GivesInRoom (λ x. (x, lines.new)) result (tx_at lines.old) }
{
    let head = lines.take_value::<TxHead>(b"TX:10:")?;
    let stamp = lines.take_line::<StampLine>()?;
    let issuers = take_rows::<Key>(alloc, lines, head.issuers)?;
    let inputs = take_rows::<Input>(alloc, lines, head.inputs)?;
    let unlocks = take_rows::<UnlockLine>(alloc, lines, head.unlocks)?;
    let outputs = take_rows::<Output>(alloc, lines, head.outputs)?;
    let comment = take_comment(alloc, lines, head.comments)?;
    let sigs = take_rows::<Sig>(alloc, lines, head.issuers)?;
    Ok(Tx {
        stamp,
        locktime: head.locktime,
        issuers,
        inputs,
        unlocks,
        outputs,
        comment,
        sigs,
    })
}

// Takes the comment's line, where there is one.
fn take_comment(
    alloc: Global,
    lines: &mut Lines<'_>,
    comments: u64,
) -> Result<Items<u8>, LineRefusal>
    ensures { GivesInRoom (λ x. (x, lines.new)) result (comment_at comments lines.old) }
{
    if comments == 0 {
        return Ok(Items::new(alloc));
    }
    take_row::<Comment>(alloc, lines)
}

// A comment that is not empty.
struct Comment;

impl ReadRow for Comment {
    type Value = Items<u8>;

    ghost reads = { comment_of };

    #[tactic(auto, unfolding(crate::specs::ReadingLines::comment_of))]
    fn read_row(alloc: Global, line: &[u8]) -> Result<Option<Items<u8>>, NoMemory> {
        if line.is_empty() || !is_comment_text(line) {
            return Ok(None);
        }
        let comment = Vec::from_slice(alloc, line).map_err(|_| NoMemory)?;
        Ok(Some(Items::from_vec(comment)))
    }
}

#[tactic(auto, unfolding(dubp_cond::specs::Transactions::is_comment))]
fn is_comment_text(text: &[u8]) -> bool
    ensures { result ≡ is_comment text.now }
{
    text.len() <= MAX_COMMENT && all_comment_letters(text)
}

fn all_comment_letters(text: &[u8]) -> bool
    ensures { result ≡ list_all is_comment_letter text.now }
{
    text.iter().all(|c| matches!(*c, b' '..=b'~'))
}
