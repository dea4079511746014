//! Records that are copied.
ghost use Rattle.std.specs.Prelude.{◌≡◌, ◌++◌, take, length, IfOk, OnOk};
ghost use Rattle.dubp_validity.specs.declared.record.Record.TheVariants.{Make};

use dubp_atoms::{Items, NoMemory};
use dubp_cond::Input;
use dubp_validity::Record;
use std::alloc::Global;

/// Appends copies of the records.
///
/// `NoMemory` where there is no room for them, or none for the text of a condition; some may have been appended then, behind what was there.
#[tactic(auto, using(dubp_money::proofs::Begins::begins_behind))]
pub(crate) fn put_copies(
    alloc: Global,
    items: &[Record],
    out: &mut Vec<Record>,
) -> Result<(), NoMemory>
    ensures appended { OnOk result (out.new.items ≡ out.old.items ++ items.now) }
    ensures begins { take (length out.old.items) out.new.items ≡ out.old.items }
{
    for item in items {
        let copy = copy_of(alloc, item)?;
        out.push(copy).map_err(|_| NoMemory)?;
    }
    Ok(())
}

/// An equal record. Memory is taken for the text of a condition alone; `NoMemory` where there is none for it.
fn copy_of(alloc: Global, item: &Record) -> Result<Record, NoMemory>
    ensures { IfOk result (λ copy. copy ≡ item.now) }
{
    let copy = match item {
        Record::Create { key, uid, stamp } => Record::Create {
            key: *key,
            uid: *uid,
            stamp: *stamp,
        },
        Record::Enter { key } => Record::Enter { key: *key },
        Record::Exit { key } => Record::Exit { key: *key },
        Record::Join { key, made } => Record::Join {
            key: *key,
            made: *made,
        },
        Record::Active { key, made } => Record::Active {
            key: *key,
            made: *made,
        },
        Record::Leave { key, made } => Record::Leave {
            key: *key,
            made: *made,
        },
        Record::Revoke { key } => Record::Revoke { key: *key },
        Record::Expire { key } => Record::Expire { key: *key },
        Record::ExpireRev { key } => Record::ExpireRev { key: *key },
        Record::Cert { from, to, made } => Record::Cert {
            from: *from,
            to: *to,
            made: *made,
        },
        Record::CertExpire { from, to } => Record::CertExpire {
            from: *from,
            to: *to,
        },
        Record::Spend { input } => Record::Spend { input: *input },
        Record::Make { input, cond } => copy_of_make(alloc, input, cond)?,
        Record::Dividend { input } => Record::Dividend { input: *input },
        Record::Clear { input } => Record::Clear { input: *input },
    };
    Ok(copy)
}

// A source that is made, with the text of its condition.
fn copy_of_make(alloc: Global, input: &Input, cond: &Items<u8>) -> Result<Record, NoMemory>
    ensures { IfOk result (λ copy. copy ≡ Make input.now cond.now) }
{
    let cond = cond.copy(alloc)?;
    Ok(Record::Make {
        input: *input,
        cond,
    })
}
