ghost use Rattle.std.specs.Prelude.{◌≡◌, IfOk};
ghost use Rattle.dubp_cond.specs.View.{item_tree, all_tree};

use crate::memory::{boxed, push};
use crate::output::Output;
use crate::tree::{All, Cond, Item};
use crate::tx::Tx;
use crate::unlock::{Unlock, UnlockLine};
use dubp_atoms::{Items, NoMemory};
use std::alloc::Global;

#[cycle(copy)]
fn copy_item(alloc: Global, item: &Item) -> Result<Item, NoMemory>
    ensures { IfOk result (λ copied. item_tree copied ≡ item_tree item.now) }
{
    Ok(match item {
        Item::Sig(key) => Item::Sig(*key),
        Item::Xhx(hash) => Item::Xhx(*hash),
        Item::Csv(seconds) => Item::Csv(*seconds),
        Item::Cltv(time) => Item::Cltv(*time),
        Item::Group(cond) => Item::Group(boxed(alloc, copy_cond(alloc, cond)?)?),
    })
}

#[cycle(copy)]
fn copy_all(alloc: Global, all: &All) -> Result<All, NoMemory>
    ensures { IfOk result (λ copied. all_tree copied ≡ all_tree all.now) }
{
    let mut every = Vec::new(alloc);
    for item in &all.every {
        push(&mut every, copy_item(alloc, item)?)?;
    }
    Ok(All { every })
}

/// An equal condition. `NoMemory` where there is no room for it.
#[cycle(copy)]
pub fn copy_cond(alloc: Global, cond: &Cond) -> Result<Cond, NoMemory>
    ensures { IfOk result (λ copied. copied ≡ cond.now) }
{
    let mut any = Vec::new(alloc);
    for all in &cond.any {
        push(&mut any, copy_all(alloc, all)?)?;
    }
    Ok(Cond { any })
}

fn copy_unlock(alloc: Global, unlock: &Unlock) -> Result<Unlock, NoMemory>
    ensures { IfOk result (λ copied. copied ≡ unlock.now) }
{
    Ok(match unlock {
        Unlock::Sig(issuer) => Unlock::Sig(*issuer),
        Unlock::Xhx(password) => Unlock::Xhx(password.copy(alloc)?),
    })
}

fn copy_unlocks(alloc: Global, unlocks: &[Unlock]) -> Result<Vec<Unlock>, NoMemory>
    ensures { IfOk result (λ copied. copied.items ≡ unlocks.now) }
{
    let mut copied = Vec::new(alloc);
    for unlock in unlocks {
        push(&mut copied, copy_unlock(alloc, unlock)?)?;
    }
    Ok(copied)
}

fn copy_unlock_line(alloc: Global, line: &UnlockLine) -> Result<UnlockLine, NoMemory>
    ensures { IfOk result (λ copied. copied ≡ line.now) }
{
    Ok(UnlockLine {
        input: line.input,
        list: Items::from_vec(copy_unlocks(alloc, line.list.as_slice())?),
    })
}

fn copy_unlock_lines(alloc: Global, lines: &[UnlockLine]) -> Result<Vec<UnlockLine>, NoMemory>
    ensures { IfOk result (λ copied. copied.items ≡ lines.now) }
{
    let mut copied = Vec::new(alloc);
    for line in lines {
        push(&mut copied, copy_unlock_line(alloc, line)?)?;
    }
    Ok(copied)
}

fn copy_output(alloc: Global, output: &Output) -> Result<Output, NoMemory>
    ensures { IfOk result (λ copied. copied ≡ output.now) }
{
    Ok(Output {
        amount: output.amount,
        base: output.base,
        cond: output.cond.copy(alloc)?,
    })
}

fn copy_outputs(alloc: Global, outputs: &[Output]) -> Result<Vec<Output>, NoMemory>
    ensures { IfOk result (λ copied. copied.items ≡ outputs.now) }
{
    let mut copied = Vec::new(alloc);
    for output in outputs {
        push(&mut copied, copy_output(alloc, output)?)?;
    }
    Ok(copied)
}

/// An equal transaction. `NoMemory` where there is no room for it.
pub fn copy_tx(alloc: Global, tx: &Tx) -> Result<Tx, NoMemory>
    ensures { IfOk result (λ copied. copied ≡ tx.now) }
{
    Ok(Tx {
        stamp: tx.stamp,
        locktime: tx.locktime,
        issuers: tx.issuers.copy(alloc)?,
        inputs: tx.inputs.copy(alloc)?,
        unlocks: Items::from_vec(copy_unlock_lines(alloc, tx.unlocks.as_slice())?),
        outputs: Items::from_vec(copy_outputs(alloc, tx.outputs.as_slice())?),
        comment: tx.comment.copy(alloc)?,
        sigs: tx.sigs.copy(alloc)?,
    })
}
