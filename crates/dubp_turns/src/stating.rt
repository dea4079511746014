ghost use Rattle.std.specs.Prelude.{◌≡◌, ◌++◌, ◌≤◌, [], decimal, length};
ghost use Rattle.dubp_atoms.specs.Spelling.{stamp_text};
ghost use Rattle.dubp_replay.specs.Answers.{accepted_answer, answer_line, branch_refused_answer, forgotten_answer, full_answer, no_memory_answer, noted_answer, refused_answer, reverted_answer, too_deep_answer, unknown_answer, unread_answer};
ghost use Rattle.dubp_turns.specs.Deciding.{offer_text, refusal_text, switch_text};
ghost use Rattle.dubp_rules.specs.Table.{code_text};

use dubp_atoms::{Line, Stamp, put_bytes, put_number};
use dubp_forks::{OfferRefusal, SubmitRefusal, SwitchRefusal};
use dubp_rules::{Rule, code};

// The answers of one line to commands that change the state. Each is put into an empty line at hand; none takes memory.

/// `ACCEPTED` and the stamp.
pub fn put_accepted(stamp: &Stamp, line: &mut Line)
    requires { line.old.items ≡ [] }
    ensures { line.new.items ≡ accepted_answer stamp.now }
{
    put_stamped(b"ACCEPTED ", stamp, line);
}

/// The code of the rule that the block breaks, or `NOMEM`. The block is let go.
pub fn put_refusal(refusal: SubmitRefusal, line: &mut Line)
    requires { line.old.items ≡ [] }
    ensures { line.new.items ≡ refusal_text refusal }
{
    match refusal {
        SubmitRefusal::Refused { rule, block: _ } => put_refused(code(rule).as_slice(), line),
        SubmitRefusal::NoMemory { block: _ } => put_no_memory(line),
    }
}

/// `STORED` and the stamp, or why the block was not stored.
pub fn put_offer(outcome: Result<Stamp, OfferRefusal>, line: &mut Line)
    requires { line.old.items ≡ [] }
    ensures { line.new.items ≡ offer_text outcome }
{
    match outcome {
        Ok(stamp) => put_stamped(b"STORED ", &stamp, line),
        Err(OfferRefusal::Unread { line: number }) => put_unread(number, line),
        Err(OfferRefusal::Local(rule)) => put_refused(code(rule).as_slice(), line),
        Err(OfferRefusal::Known(stamp)) => put_stamped(b"KNOWN ", &stamp, line),
        Err(OfferRefusal::Full { held: _ }) => put_full(line),
        Err(OfferRefusal::NoMemory) => put_no_memory(line),
    }
}

/// `SWITCHED` and this stamp, or why the branch did not take the place of blocks of the chain.
pub fn put_switch(stamp: &Stamp, outcome: Result<(), SwitchRefusal>, line: &mut Line)
    requires { line.old.items ≡ [] }
    ensures { line.new.items ≡ switch_text stamp.now outcome }
{
    match outcome {
        Ok(()) => put_stamped(b"SWITCHED ", stamp, line),
        Err(SwitchRefusal::Unknown) => put_unknown(line),
        Err(SwitchRefusal::Detached { at }) => put_stamped(b"DETACHED ", &at, line),
        Err(SwitchRefusal::TooDeep { kept }) => put_too_deep(kept, line),
        Err(SwitchRefusal::Full { held: _ }) => put_full(line),
        Err(SwitchRefusal::Refused { at, rule }) => put_branch_refused(&at, rule, line),
        Err(SwitchRefusal::NoMemory) => put_no_memory(line),
    }
}

/// `REFUSED P01` and the number of the line that is refused.
pub fn put_unread(refused_line: u64, line: &mut Line)
    requires { line.old.items ≡ [] }
    ensures { line.new.items ≡ unread_answer refused_line }
{
    put_numbered(b"REFUSED P01 ", refused_line, line);
}

/// `REVERTED` and how many blocks were.
pub fn put_reverted(count: u64, line: &mut Line)
    requires { line.old.items ≡ [] }
    ensures { line.new.items ≡ reverted_answer count }
{
    put_numbered(b"REVERTED ", count, line);
}

/// `REFUSED W01` and how many blocks can be reversed.
pub fn put_too_deep(kept: usize, line: &mut Line)
    requires { line.old.items ≡ [] }
    ensures { line.new.items ≡ too_deep_answer kept }
{
    put_numbered(b"REFUSED W01 ", kept as u64, line);
}

// `REFUSED`, the stamp of a block of a branch, and the code of the rule that it breaks.
fn put_branch_refused(at: &Stamp, rule: Rule, line: &mut Line)
    requires { line.old.items ≡ [] }
    ensures { line.new.items ≡ branch_refused_answer at.now (code_text rule) }
{
    put_bytes(line, b"REFUSED ");
    at.put(line);
    put_bytes(line, b" ");
    put_bytes(line, code(rule).as_slice());
    put_bytes(line, b"\n");
}

/// A word of at most 64 bytes and a number.
pub fn put_numbered(word: &[u8], number: u64, line: &mut Line)
    requires short { length word.now ≤ 64 }
    requires empty { line.old.items ≡ [] }
    ensures { line.new.items ≡ answer_line (word.now ++ decimal number) }
{
    put_bytes(line, word);
    put_number(number as u128, line);
    put_bytes(line, b"\n");
}

// A word and a stamp.
fn put_stamped(word: &[u8], stamp: &Stamp, line: &mut Line)
    requires short { length word.now ≤ 64 }
    requires empty { line.old.items ≡ [] }
    ensures { line.new.items ≡ answer_line (word.now ++ stamp_text stamp.now) }
{
    put_bytes(line, word);
    stamp.put(line);
    put_bytes(line, b"\n");
}

/// `REFUSED` and a code of at most 64 bytes.
pub fn put_refused(code: &[u8], line: &mut Line)
    requires short { length code.now ≤ 64 }
    requires empty { line.old.items ≡ [] }
    ensures { line.new.items ≡ refused_answer code.now }
{
    put_bytes(line, b"REFUSED ");
    put_bytes(line, code);
    put_bytes(line, b"\n");
}

/// A text of at most 64 bytes without LF.
pub fn put_one(text: &[u8], line: &mut Line)
    requires short { length text.now ≤ 64 }
    requires empty { line.old.items ≡ [] }
    ensures { line.new.items ≡ answer_line text.now }
{
    put_bytes(line, text);
    put_bytes(line, b"\n");
}

/// `NOTED`: the verdict is among those that were given.
pub fn put_noted(line: &mut Line)
    requires { line.old.items ≡ [] }
    ensures { line.new.items ≡ noted_answer }
{
    put_one(b"NOTED", line);
}

/// `FULL 1024`: as many blocks are stored as can be, or as many documents wait as may.
pub fn put_full(line: &mut Line)
    requires { line.old.items ≡ [] }
    ensures { line.new.items ≡ full_answer }
{
    put_one(b"FULL 1024", line);
}

/// `UNKNOWN`: no stored block has the stamp, or no document that waits the hash.
pub fn put_unknown(line: &mut Line)
    requires { line.old.items ≡ [] }
    ensures { line.new.items ≡ unknown_answer }
{
    put_one(b"UNKNOWN", line);
}

/// `FORGOTTEN`: the block is no longer stored, or the document waits no longer.
pub fn put_forgotten(line: &mut Line)
    requires { line.old.items ≡ [] }
    ensures { line.new.items ≡ forgotten_answer }
{
    put_one(b"FORGOTTEN", line);
}

/// `NOMEM`: memory ran out, and nothing changed.
pub fn put_no_memory(line: &mut Line)
    requires { line.old.items ≡ [] }
    ensures { line.new.items ≡ no_memory_answer }
{
    put_one(b"NOMEM", line);
}
