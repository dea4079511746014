//! The records of a block, a line each.
ghost use Rattle.std.specs.Prelude.{◌≡◌, ◌++◌, [], All, IfOk, IfSome, OnOk, Some, true, option_copied};
ghost use Rattle.dubp_atoms.specs.Letters.{is_key};
ghost use Rattle.dubp_cond.specs.Sources.{IsInput};
ghost use Rattle.dubp_replay.specs.Answers.{records_answer_of};
ghost use Rattle.dubp_validity.specs.Records.{IsRecord};
ghost use Rattle.dubp_answers.specs.RecordLines.{record_line, record_lines};
ghost use Rattle.dubp_answers.specs.RecordNumbers.{HasInputNumbers, HasNumbers};

use crate::blocks::none_text;
use crate::values::add;
use arrayvec::ArrayVec;
use dubp_atoms::{Key, Line, NoMemory, put_bytes};
use dubp_cond::{Input, SourceId};
use dubp_validity::{Record, put_record};
use std::alloc::Global;

/// The answer to RECORDS: a line for each record of the block, in their order, and END, or `NONE` where there is no block.
///
/// The numbers of each record are in the ranges of their spellings, as those of a chain's records are. `NoMemory` where there is no room for the
/// text.
pub fn records_text(alloc: Global, records: Option<&[Record]>) -> Result<Vec<u8>, NoMemory>
    requires { IfSome (option_copied records) (All HasNumbers) }
    ensures { IfOk result (λ text. text.items ≡ records_answer_of (option_copied records.entry)) }
{
    match records {
        Some(found) => lines_text(alloc, found),
        None => none_text(alloc),
    }
}

fn lines_text(alloc: Global, records: &[Record]) -> Result<Vec<u8>, NoMemory>
    requires { All HasNumbers records.now }
    ensures { IfOk result (λ text. text.items ≡ records_answer_of (Some records.now)) }
{
    let mut text = Vec::new(alloc);
    add_records(&mut text, records)?;
    add(&mut text, b"END\n")?;
    Ok(text)
}

fn add_records(text: &mut Vec<u8>, records: &[Record]) -> Result<(), NoMemory>
    requires { All HasNumbers records.now }
    ensures { OnOk result (text.new.items ≡ text.old.items ++ record_lines records.now) }
{
    let mut line: Line = ArrayVec::new();
    for item in records {
        put_line(item, &mut line);
        add(text, line.as_slice())?;
        line.clear();
    }
    Ok(())
}

fn put_line(item: &Record, line: &mut Line)
    requires numbers { HasNumbers item.now }
    requires empty { line.old.items ≡ [] }
    ensures { line.new.items ≡ record_line item.now }
{
    look_at_texts(item);
    put_record(item, line);
    put_bytes(line, b"\n");
}

// Does nothing but look at the keys, names and hashes of the record, which are in range by their types.
fn look_at_texts(item: &Record)
    requires { HasNumbers item.now }
    ensures { IsRecord item.now }
{
    match item {
        Record::Create { key, uid, stamp } => {
            look_at_key(key);
            uid.as_bytes();
            stamp.hash.as_bytes();
        }
        Record::Enter { key } => look_at_key(key),
        Record::Exit { key } => look_at_key(key),
        Record::Join { key, .. } => look_at_key(key),
        Record::Active { key, .. } => look_at_key(key),
        Record::Leave { key, .. } => look_at_key(key),
        Record::Revoke { key } => look_at_key(key),
        Record::Expire { key } => look_at_key(key),
        Record::ExpireRev { key } => look_at_key(key),
        Record::Cert { from, to, .. } => {
            look_at_key(from);
            look_at_key(to);
        }
        Record::CertExpire { from, to } => {
            look_at_key(from);
            look_at_key(to);
        }
        Record::Spend { input } => look_at_input(input),
        Record::Make { input, .. } => look_at_input(input),
        Record::Dividend { input } => look_at_input(input),
        Record::Clear { input } => look_at_input(input),
    }
}

fn look_at_key(key: &Key)
    ensures { is_key key.now ≡ true }
{
    key.as_bytes();
}

fn look_at_input(input: &Input)
    requires { HasInputNumbers input.now }
    ensures { IsInput input.now }
{
    match &input.source {
        SourceId::D { key, .. } => look_at_key(key),
        SourceId::T { tx, .. } => {
            tx.as_bytes();
        }
    }
}
