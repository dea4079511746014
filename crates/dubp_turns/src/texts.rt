ghost use Rattle.std.specs.Prelude.{◌≡◌, ◌++◌, ◌≤◌, [], Err, IfOk, OnOk, length};
ghost use Rattle.dubp_atoms.specs.Spelling.{stamp_text};
ghost use Rattle.dubp_replay.specs.Answers.{answer_line, ended, failed_line, failures_answer, switched_answer};
ghost use Rattle.dubp_turns.specs.Texts.{failed_lines, pend_text};

use crate::stating::{put_full, put_no_memory, put_refused};
use arrayvec::ArrayVec;
use dubp_atoms::{Hash, Line, NoMemory, Stamp, put_bytes};
use dubp_pool::PendRefusal;
use dubp_replay::Failure;
use dubp_rules::code;
use std::alloc::Global;

/// The answer to FAILED: a line for each failure, in the order in which they came, and END.
///
/// `NoMemory` where there is no room for it.
pub(crate) fn failures_text(alloc: Global, failures: &[Failure]) -> Result<Vec<u8>, NoMemory>
    ensures { IfOk result (λ text. text.items ≡ failures_answer failures.now) }
{
    let mut text = Vec::new(alloc);
    add_failures(&mut text, failures)?;
    add(&mut text, b"END\n")?;
    Ok(text)
}

fn add_failures(text: &mut Vec<u8>, failures: &[Failure]) -> Result<(), NoMemory>
    ensures { OnOk result (text.new.items ≡ text.old.items ++ failed_lines failures.now) }
{
    for failure in failures {
        add(text, failed_text(failure).as_slice())?;
    }
    Ok(())
}

/// `FAILED`, the stamp of the branch, the stamp of the block at which it failed, and the code of the rule.
pub(crate) fn failed_text(failure: &Failure) -> Line
    ensures { result.items ≡ failed_line failure.now }
{
    let mut line: Line = ArrayVec::new();
    put_bytes(&mut line, b"FAILED ");
    failure.tip.put(&mut line);
    put_bytes(&mut line, b" ");
    failure.at.put(&mut line);
    put_bytes(&mut line, b" ");
    put_bytes(&mut line, code(failure.rule).as_slice());
    put_bytes(&mut line, b"\n");
    line
}

/// `SWITCHED` and the stamp.
pub(crate) fn switched_text(stamp: &Stamp) -> Line
    ensures { result.items ≡ switched_answer stamp.now }
{
    let mut line: Line = ArrayVec::new();
    put_bytes(&mut line, b"SWITCHED ");
    stamp.put(&mut line);
    put_bytes(&mut line, b"\n");
    line
}

/// Puts `PENDING` and the hash of the document, or why it does not wait, into an empty line. It takes no memory.
pub(crate) fn put_pend(outcome: Result<Hash, PendRefusal>, line: &mut Line)
    requires { line.old.items ≡ [] }
    ensures { line.new.items ≡ pend_text outcome }
{
    match outcome {
        Ok(hash) => put_hashed(b"PENDING ", hash, line),
        Err(refusal) => put_pend_refusal(refusal, line),
    }
}

// Why a document does not wait.
fn put_pend_refusal(refusal: PendRefusal, line: &mut Line)
    requires { line.old.items ≡ [] }
    ensures { line.new.items ≡ pend_text (Err refusal) }
{
    match refusal {
        PendRefusal::Unread => put_refused(b"D01", line),
        PendRefusal::Known(hash) => put_hashed(b"KNOWN ", hash, line),
        PendRefusal::Full { held: _ } => put_full(line),
        PendRefusal::NoMemory => put_no_memory(line),
    }
}

// A word and a hash.
fn put_hashed(word: &[u8], hash: Hash, line: &mut Line)
    requires short { length word.now ≤ 64 }
    requires empty { line.old.items ≡ [] }
    ensures { line.new.items ≡ answer_line (word.now ++ hash) }
{
    put_bytes(line, word);
    put_bytes(line, hash.as_bytes());
    put_bytes(line, b"\n");
}

/// Adds bytes to a text. `NoMemory` where there is no room for them; then the text is as before.
pub(crate) fn add(text: &mut Vec<u8>, bytes: &[u8]) -> Result<(), NoMemory>
    ensures { OnOk result (text.new.items ≡ text.old.items ++ bytes.now) }
{
    text.extend_from_slice(bytes).map_err(|_| NoMemory)
}
