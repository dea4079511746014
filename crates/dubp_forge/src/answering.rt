//! The block that is forged of the documents that wait, and a line for each that is left out.
ghost use Rattle.std.specs.Prelude.{◌≡◌, ◌++◌, IfOk, OnOk};
ghost use Rattle.dubp_atoms.specs.Spelling.{IsNumber};
ghost use Rattle.dubp_block.specs.Text.{IsBlock};
ghost use Rattle.dubp_rules.specs.Table.{code_text};
ghost use Rattle.dubp_replay.specs.Answers.{forged_answer, left_line, none_answer, refused_answer};
ghost use Rattle.dubp_replay.specs.Turns.{IsForgeAnswer};
ghost use Rattle.dubp_replay.specs.AnswerBytes.{answer_bytes};
ghost use Rattle.dubp_forge.specs.Telling.{Tells, left_lines};

use crate::forged::{ForgeRefusal, Forged};
use crate::forging::forge;
use arrayvec::ArrayVec;
use dubp_atoms::{Hash, Key, Line, NoMemory, put_bytes};
use dubp_block::put_block;
use dubp_ledger::{Ledger, PeopleAndMoney};
use dubp_pool::Pool;
use dubp_replay::Answer;
use dubp_rules::{Rule, code};
use dubp_verdict::Verdicts;
use std::alloc::Global;

/// The answer to FORGE: the text of the block that this key can issue at this time, of the documents that wait, a line for each document that is
/// left out, and END; `NONE` where the chain is empty; or the rule that the block without documents breaks. The time is below 2^53.
///
/// `NoMemory` where there is no room for the block, for what it is tried by, or for the text.
pub fn forge_answer<T: PeopleAndMoney>(
    alloc: Global,
    ledger: &Ledger<T>,
    pool: &Pool,
    verdicts: &Verdicts,
    key: Key,
    time: u64,
) -> Result<Answer, NoMemory>
    requires { IsNumber time }
    ensures { IfOk result (λ answer. IsForgeAnswer (record { verdicts = verdicts.now; chain = ledger.now.chain; issuer = key; time = time; pool = pool.now }) ledger.now.chain (answer_bytes answer)) }
{
    match forge(alloc, ledger, pool, verdicts, key, time) {
        Ok(forged) => block_answer(alloc, &forged),
        Err(refusal) => refusal_answer(refusal),
    }
}

// `NONE` behind no block, or the rule that the block without documents breaks.
fn refusal_answer(refusal: ForgeRefusal) -> Result<Answer, NoMemory>
    ensures { Tells refusal result }
{
    match refusal {
        ForgeRefusal::NoChain => Ok(Answer::One(none_line())),
        ForgeRefusal::Refused(rule) => Ok(Answer::One(refused_line(rule))),
        ForgeRefusal::NoMemory => Err(NoMemory),
    }
}

// The text of the block, the lines of what it leaves out, and END.
fn block_answer(alloc: Global, forged: &Forged) -> Result<Answer, NoMemory>
    requires { IsBlock forged.now.block }
    ensures { IfOk result (λ answer. answer_bytes answer ≡ forged_answer forged.now.block forged.now.left.items) }
{
    let mut text = put_block(alloc, &forged.block)?;
    add_left(&mut text, forged.left.as_slice())?;
    add(&mut text, b"END\n")?;
    Ok(Answer::Many(text))
}

fn add_left(text: &mut Vec<u8>, left: &[(Hash, Rule)]) -> Result<(), NoMemory>
    ensures { OnOk result (text.new.items ≡ text.old.items ++ left_lines left.now) }
{
    for entry in left {
        add(text, line_of(entry).as_slice())?;
    }
    Ok(())
}

// `LEFT`, the hash of the document, and the code of the rule.
fn line_of(entry: &(Hash, Rule)) -> Line
    ensures { result.items ≡ left_line entry.now }
{
    let (hash, rule) = entry;
    let mut line: Line = ArrayVec::new();
    put_bytes(&mut line, b"LEFT ");
    put_bytes(&mut line, hash.as_bytes());
    put_bytes(&mut line, b" ");
    put_bytes(&mut line, code(*rule).as_slice());
    put_bytes(&mut line, b"\n");
    line
}

fn none_line() -> Line
    ensures { result.items ≡ none_answer }
{
    let mut line: Line = ArrayVec::new();
    put_bytes(&mut line, b"NONE\n");
    line
}

fn refused_line(rule: Rule) -> Line
    ensures { result.items ≡ refused_answer (code_text rule) }
{
    let mut line: Line = ArrayVec::new();
    put_bytes(&mut line, b"REFUSED ");
    put_bytes(&mut line, code(rule).as_slice());
    put_bytes(&mut line, b"\n");
    line
}

fn add(text: &mut Vec<u8>, bytes: &[u8]) -> Result<(), NoMemory>
    ensures { OnOk result (text.new.items ≡ text.old.items ++ bytes.now) }
{
    text.extend_from_slice(bytes).map_err(|_| NoMemory)
}
