ghost use Rattle.std.specs.Prelude.{◌≡◌, ◌↔◌, ℕ, ◌++◌, ◌<◌, ◌≤◌, ◌==◌, IfOk, IsTrue, OnOk, count_by, length, map, slice_index};
ghost use Rattle.std.specs.List.{AllByRecursion};
ghost use Rattle.dubp_block.specs.Text.{IsBlock};
ghost use Rattle.dubp_validity.specs.OfChain.{inputs_of};
ghost use Rattle.dubp_validity.specs.LocalRules.{InputsAreUnlockedOnce, IsUnlockedOnce, NamesAnIssuer, SendersStandOnce, SourcesStandOnce};

use crate::once::stand_once;
use dubp_atoms::{NoMemory, Secret};
use dubp_block::Block;
use dubp_cond::{Input, SourceId, Tx, Unlock, UnlockLine};
use std::alloc::Global;

/// The most inputs and unlock lines of a transaction.
const MAX_LINES: usize = 100;

/// No transaction names an issuer twice: rule `L19`.
pub(crate) fn senders_stand_once(
    alloc: Global,
    secret: Secret,
    block: &Block,
) -> Result<bool, NoMemory>
    ensures { IfOk result (λ holds. IsTrue holds ↔ SendersStandOnce block.now) }
{
    let transactions = block.transactions.as_slice();
    for tx in transactions {
        if !stand_once(alloc, secret, tx.issuers.as_slice())? {
            return Ok(false);
        }
    }
    Ok(true)
}

/// How many unlock lines each input has, for the numbers below `MAX_LINES`.
fn unlock_counts(unlocks: &[UnlockLine]) -> [u8; MAX_LINES]
    requires { length unlocks.now ≤ 100 }
    ensures { (i : ℕ) → i < 100 → slice_index result i ≡ count_by (λ line. line.input == i) unlocks.now }
{
    let mut counts = [0u8; MAX_LINES];
    for line in unlocks {
        if line.input < MAX_LINES as u64 {
            counts[line.input as usize] += 1;
        }
    }
    counts
}

/// Whether each of the first inputs has exactly one unlock line.
fn each_is_unlocked(unlocks: &[UnlockLine], inputs: usize) -> bool
    requires lines { length unlocks.now ≤ 100 }
    requires inputs { inputs ≤ 100 }
    ensures { IsTrue result ↔ ((i : ℕ) → i < inputs → count_by (λ line. line.input == i) unlocks.now ≡ 1) }
{
    let counts = unlock_counts(unlocks);
    for input in 0..inputs {
        if counts[input] != 1 {
            return false;
        }
    }
    true
}

/// Whether each unlock line is of one of the first inputs.
fn are_of_inputs(unlocks: &[UnlockLine], inputs: usize) -> bool
    ensures { IsTrue result ↔ AllByRecursion (λ line. line.input < inputs) unlocks.now }
{
    for line in unlocks {
        if line.input >= inputs as u64 {
            return false;
        }
    }
    true
}

/// Whether a SIG names one of so many issuers.
fn names_an_issuer(unlock: &Unlock, issuers: usize) -> bool
    ensures { IsTrue result ↔ NamesAnIssuer issuers unlock.now }
{
    match unlock {
        Unlock::Sig(issuer) => *issuer < issuers as u64,
        Unlock::Xhx(_) => true,
    }
}

fn all_name_issuers(list: &[Unlock], issuers: usize) -> bool
    ensures { IsTrue result ↔ AllByRecursion (NamesAnIssuer issuers) list.now }
{
    for unlock in list {
        if !names_an_issuer(unlock, issuers) {
            return false;
        }
    }
    true
}

fn lines_name_issuers(unlocks: &[UnlockLine], issuers: usize) -> bool
    ensures { IsTrue result ↔ AllByRecursion (λ line. AllByRecursion (NamesAnIssuer issuers) line.list) unlocks.now }
{
    for line in unlocks {
        if !all_name_issuers(line.list.as_slice(), issuers) {
            return false;
        }
    }
    true
}

/// Whether each input has exactly one unlock line, and each unlock line is of an input and of issuers that are there.
fn is_unlocked_once(tx: &Tx) -> bool
    requires inputs { length tx.now.inputs ≤ 100 }
    requires unlocks { length tx.now.unlocks ≤ 100 }
    ensures { IsTrue result ↔ IsUnlockedOnce tx.now }
{
    let unlocks = tx.unlocks.as_slice();
    let inputs = tx.inputs.len();
    let issuers = tx.issuers.len();
    if !each_is_unlocked(unlocks, inputs) {
        return false;
    }
    if !are_of_inputs(unlocks, inputs) {
        return false;
    }
    lines_name_issuers(unlocks, issuers)
}

/// Each input has exactly one unlock line, each unlock line is of an input, and each SIG names an issuer: rule `L20`.
pub(crate) fn inputs_are_unlocked_once(block: &Block) -> bool
    requires { IsBlock block.now }
    ensures { IsTrue result ↔ InputsAreUnlockedOnce block.now }
{
    let transactions = block.transactions.as_slice();
    for tx in transactions {
        if !is_unlocked_once(tx) {
            return false;
        }
    }
    true
}

/// Appends the source of each input.
fn put_sources(inputs: &[Input], sources: &mut Vec<SourceId>) -> Result<(), NoMemory>
    ensures { OnOk result (sources.new.items ≡ sources.old.items ++ map (λ input. input.source) inputs.now) }
{
    for input in inputs {
        sources.push(input.source).map_err(|_| NoMemory)?;
    }
    Ok(())
}

/// The sources of all inputs of the block, in order.
fn all_sources(alloc: Global, block: &Block) -> Result<Vec<SourceId>, NoMemory>
    ensures { IfOk result (λ sources. sources.items ≡ map (λ input. input.source) (inputs_of block.now)) }
{
    let mut sources = Vec::new(alloc);
    let transactions = block.transactions.as_slice();
    for tx in transactions {
        put_sources(tx.inputs.as_slice(), &mut sources)?;
    }
    Ok(sources)
}

/// No source stands twice among the inputs of the block: rule `L21`.
pub(crate) fn sources_stand_once(
    alloc: Global,
    secret: Secret,
    block: &Block,
) -> Result<bool, NoMemory>
    ensures { IfOk result (λ holds. IsTrue holds ↔ SourcesStandOnce block.now) }
{
    let sources = all_sources(alloc, block)?;
    stand_once(alloc, secret, sources.as_slice())
}
