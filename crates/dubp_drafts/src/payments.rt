ghost use Rattle.std.specs.Prelude.{◌≡◌, ◌<◌, ◌≤◌, ◌++◌, ◌∷◌, [], All as AllOf, IfOk, OnOk, true};
ghost use Rattle.dubp_atoms.specs.Letters.{is_sig};
ghost use Rattle.dubp_atoms.specs.Spelling.{IsStamp};
ghost use Rattle.dubp_cond.specs.Sources.{IsInput};
ghost use Rattle.dubp_cond.specs.Transactions.{IsTx};
ghost use Rattle.dubp_drafts.specs.Drafting.{IsSpendable, first_unlocks, output_to, outputs, paid, payee, transaction, transactions, transactions_given, unsigned_transaction};

use crate::blanks::{blank_sig, currency};
use crate::drafting::payer;
use crate::keys::key_of;
use crate::memory::{only, push, vec_of};
use crate::signing::sign_and_note;
use dubp_atoms::{Hash, Items, Key, NoMemory, Sig, Stamp};
use dubp_cond::{All, Cond, Input, Item, Output, SpelledCond, Tx, Unlock, UnlockLine};
use dubp_docs::signed_tx;
use std::alloc::Global;

// The transaction of the block with this number of the run, where there is a source to spend. Its verdict is noted.
pub(crate) fn transactions(
    alloc: Global,
    x: u64,
    stamp: &Stamp,
    source: Option<Input>,
    verdicts: &mut Vec<(Key, Hash, Sig)>,
) -> Result<Items<Tx>, NoMemory>
    requires stamp { IsStamp stamp.now }
    requires source { IsSpendable source }
    ensures lines { IfOk result (λ lines. lines ≡ transactions x stamp.now source) }
    ensures verdicts { OnOk result (verdicts.new.items ≡ verdicts.old.items ++ transactions_given x stamp.now source) }
    ensures valid { IfOk result (λ lines. AllOf IsTx lines) }
{
    match source {
        None => Ok(Items::new(alloc)),
        Some(source) => only(alloc, transaction(alloc, x, stamp, source, verdicts)?),
    }
}

// The payer pays from this source, and signs that.
fn transaction(
    alloc: Global,
    x: u64,
    stamp: &Stamp,
    source: Input,
    verdicts: &mut Vec<(Key, Hash, Sig)>,
) -> Result<Tx, NoMemory>
    requires stamp { IsStamp stamp.now }
    requires source { IsSpendable (Some source) }
    ensures value { IfOk result (λ tx. tx ≡ transaction x stamp.now source) }
    ensures verdicts { OnOk result (verdicts.new.items ≡ verdicts.old.items ++ transactions_given x stamp.now (Some source)) }
    ensures valid { IfOk result (λ tx. IsTx tx) }
{
    let unsigned = unsigned_transaction(alloc, x, stamp, source)?;
    let text = signed_tx(alloc, &currency(), &unsigned)?;
    let sig = sign_and_note(&key_of(payer(x)), text.as_slice(), verdicts)?;
    signed(alloc, unsigned, sig)
}

// The transaction with this signature alone.
fn signed(alloc: Global, unsigned: Tx, sig: Sig) -> Result<Tx, NoMemory>
    ensures value { IfOk result (λ tx. tx ≡ record unsigned { sigs = sig ∷ [] }) }
    ensures valid { is_sig sig ≡ true }
{
    let mut tx = unsigned;
    tx.sigs = only(alloc, sig)?;
    Ok(tx)
}

// The transaction with a blank signature.
fn unsigned_transaction(alloc: Global, x: u64, stamp: &Stamp, source: Input) -> Result<Tx, NoMemory>
    requires stamp { IsStamp stamp.now }
    requires source { IsSpendable (Some source) }
    ensures value { IfOk result (λ tx. tx ≡ unsigned_transaction x stamp.now source) }
    ensures valid { IfOk result (λ tx. IsTx tx) }
{
    // The source is put together again below, since a copy of the whole gets no proof.
    let Input {
        amount,
        base,
        source: id,
    } = source;
    let issuers = only(alloc, key_of(payer(x)))?;
    let inputs = only(
        alloc,
        Input {
            amount,
            base,
            source: id,
        },
    )?;
    let sigs = only(alloc, blank_sig())?;
    let unlocks = first_unlocks(alloc)?;
    let outputs = outputs(alloc, x, amount, base)?;
    Ok(Tx {
        stamp: *stamp,
        locktime: 0,
        issuers,
        inputs,
        unlocks,
        outputs,
        comment: Items::new(alloc),
        sigs,
    })
}

// The first issuer unlocks the first input.
fn first_unlocks(alloc: Global) -> Result<Items<UnlockLine>, NoMemory>
    ensures { IfOk result (λ lines. lines ≡ first_unlocks) }
{
    let list = only(alloc, Unlock::Sig(0))?;
    only(alloc, UnlockLine { input: 0, list })
}

// The payee gets from 1 to all of the amount, and the payer the rest.
fn outputs(alloc: Global, x: u64, amount: u64, base: u8) -> Result<Items<Output>, NoMemory>
    requires { 1 ≤ amount }
    ensures { IfOk result (λ lines. lines ≡ outputs x amount base) }
{
    let paid = paid(x, amount);
    let mut outputs = Vec::new(alloc);
    push(&mut outputs, output_to(alloc, paid, base, payee(x))?)?;
    let rest = amount - paid;
    if rest != 0 {
        push(&mut outputs, output_to(alloc, rest, base, payer(x))?)?;
    }
    Ok(Items::from_vec(outputs))
}

// To the key of a number alone.
fn output_to(alloc: Global, amount: u64, base: u8, person: u32) -> Result<Output, NoMemory>
    requires { person < 8 }
    ensures { IfOk result (λ line. line ≡ output_to amount base person) }
{
    let every = vec_of(alloc, Item::Sig(key_of(person)))?;
    let any = vec_of(alloc, All { every })?;
    let cond = SpelledCond::of(alloc, &Cond { any })?;
    Ok(Output { amount, base, cond })
}

// What the payee gets of this amount.
fn paid(x: u64, amount: u64) -> u64
    requires { 1 ≤ amount }
    ensures value { result ≡ paid x amount }
    ensures within { result ≤ amount }
{
    1 + (x >> 48) % amount
}

// The number of the key that is paid.
fn payee(x: u64) -> u32
    ensures number { result ≡ payee x }
    ensures few { result < 8 }
{
    ((x >> 40) % 8) as u32
}
