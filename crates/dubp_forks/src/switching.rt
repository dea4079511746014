ghost use Rattle.std.specs.Prelude.{◌≡◌, ◌+◌, ◌-◌, ◌≤◌, List, None, Some, IfErr, IfOk, IsSome, OnOk, OnErr, drop, length};
ghost use Rattle.indexmap.specs.IndexMap.{get};
ghost use Rattle.dubp_atoms.specs.Same.{same_stamp};
ghost use Rattle.dubp_block.specs.Text.{stamp_of as block_stamp};
ghost use Rattle.dubp_block.specs.declared.block.Block.{Block as BlockValue};
ghost use Rattle.dubp_ledger.specs.OfKept.{most_steps, steps_of_last, with_block};
ghost use Rattle.dubp_validity.specs.Rules.{FirstBroken, IsSound};
ghost use Rattle.dubp_forks.specs.Entries.{AreKept, blocks_in};
ghost use Rattle.dubp_forks.specs.Stores.{AreOutside, IsStorable};
ghost use Rattle.dubp_forks.specs.Switching.{HasSwitched, IsLaid, IsOnward, IsTooMuch, IsWhy, IsWhyNot};
ghost use Rattle.dubp_forks.specs.declared.refusals.SwitchRefusal.TheVariants.{Detached};
ghost use Rattle.dubp_atoms.specs.declared.stamp.Stamp.{Stamp as StampValue};
ghost use Rattle.dubp_replay.specs.Turns.{blocks_behind, most_stored};

use crate::entries::{drop_path, put_last};
use crate::refusals::SwitchRefusal;
use crate::store::MOST_STORED;
use crate::stored::Stored;
use crate::written::write_last;
use dubp_atoms::{Secret, Stamp, Steps};
use dubp_block::HashedBlock;
use dubp_ledger::{Ledger, PeopleAndMoney, SubmitRefusal};
use dubp_verdict::Verdicts;
use indexmap::IndexMap;
use std::alloc::Global;
use std::sync::ledger::Ledger as StepBook;

/// Reads the stored block of this stamp again, and accepts it. On a refusal the ledger is as before.
fn accept<T: PeopleAndMoney, L: StepBook>(
    alloc: Global,
    blocks: &IndexMap<Stamp, Stored, Secret>,
    stamp: &Stamp,
    ledger: &mut Ledger<T>,
    verdicts: &Verdicts,
    steps: &mut Steps<L>,
) -> Result<(), SwitchRefusal>
    requires { (b : BlockValue) × (get same_stamp blocks.now stamp.now ≡ Some b) × (stamp.now ≡ block_stamp b) × IsStorable b }
    ensures accepted { OnOk result ((b : BlockValue) → get same_stamp blocks.now stamp.now ≡ Some b → FirstBroken verdicts.now ledger.old.chain b None × (ledger.new ≡ with_block b ledger.old)) }
    ensures same { OnErr result (ledger.new ≡ ledger.old) }
    ensures refused { IfErr result (λ refusal. (b : BlockValue) → get same_stamp blocks.now stamp.now ≡ Some b → IsWhy verdicts.now ledger.old.chain b refusal) }
    ensures grows { OnOk result ((b : BlockValue) × (ledger.new ≡ with_block b ledger.old) × (steps.new ≤ steps.old + most_steps ledger.old.chain b)) }
{
    let Some(stored) = blocks.get(stamp) else {
        unreachable!();
    };
    let Ok(read) = stored.read(alloc) else {
        return Err(SwitchRefusal::NoMemory);
    };
    let HashedBlock { block, inner } = read;
    match ledger.submit_read(block, &inner, verdicts, steps) {
        Ok(_) => Ok(()),
        Err(SubmitRefusal::Refused { rule, block: _ }) => {
            Err(SwitchRefusal::Refused { at: *stamp, rule })
        }
        Err(SubmitRefusal::NoMemory { block: _ }) => Err(SwitchRefusal::NoMemory),
    }
}

/// Takes the last `count` blocks off the chain, of which so many can be reversed. It takes no memory.
fn take_back<T: PeopleAndMoney, L: StepBook>(
    count: usize,
    ledger: &mut Ledger<T>,
    steps: &mut Steps<L>,
)
    requires { count ≤ ledger.old.kept }
    ensures chain { ledger.new.chain ≡ drop count ledger.old.chain }
    ensures kept { ledger.new.kept + count ≡ ledger.old.kept }
    ensures out { ledger.new.out ≡ ledger.old.out }
{
    if let Err(_) = ledger.revert(count as u64, steps) {
        unreachable!();
    }
}

/// Accepts the stored blocks of these stamps, newest first, from the last up. Where one is refused the ledger is as before.
fn accept_all<T: PeopleAndMoney, L: StepBook>(
    alloc: Global,
    blocks: &IndexMap<Stamp, Stored, Secret>,
    stamps: &[Stamp],
    ledger: &mut Ledger<T>,
    verdicts: &Verdicts,
    steps: &mut Steps<L>,
) -> Result<(), SwitchRefusal>
    requires kept { AreKept blocks.now.entries }
    requires laid { (path : List BlockValue) × IsLaid (blocks_in blocks.now.entries) stamps.now path }
    requires out { IsSome ledger.old.out }
    ensures accepted { OnOk result ((path : List BlockValue) → IsLaid (blocks_in blocks.now.entries) stamps.now path → IsOnward verdicts.now ledger.old path ledger.new) }
    ensures same { OnErr result (ledger.new ≡ ledger.old) }
    ensures refused { IfErr result (λ refusal. (path : List BlockValue) → IsLaid (blocks_in blocks.now.entries) stamps.now path → IsWhyNot verdicts.now ledger.old.chain path refusal) }
    ensures steps { OnOk result (steps.new ≤ steps.old + steps_of_last (length stamps.now) ledger.new.chain) }
{
    let all = stamps.len();
    let mut left = all;
    while left > 0 {
        if let Err(refusal) = accept(alloc, blocks, &stamps[left - 1], ledger, verdicts, steps) {
            take_back(all - left, ledger, steps);
            return Err(refusal);
        }
        left -= 1;
    }
    Ok(())
}

/// Takes so many blocks off the chain, and accepts the stored blocks of these stamps, newest first, in their place. Those leave the store
/// then, and the ones that were taken off stand last in it.
///
/// On a refusal, and where there is no room, all is as before.
pub(crate) fn replace<T: PeopleAndMoney, L: StepBook>(
    alloc: Global,
    blocks: &mut IndexMap<Stamp, Stored, Secret>,
    stamps: &[Stamp],
    count: usize,
    ledger: &mut Ledger<T>,
    verdicts: &Verdicts,
    steps: &mut Steps<L>,
) -> Result<(), SwitchRefusal>
    requires kept { AreKept blocks.old.entries }
    requires laid { (path : List BlockValue) × IsLaid (blocks_in blocks.old.entries) stamps.now path }
    requires alone { ledger.old.out ≡ None }
    requires few { count ≤ ledger.old.kept }
    requires outside { AreOutside (blocks_in blocks.old.entries) ledger.old.chain }
    requires sound { IsSound ledger.old.chain }
    ensures switched { OnOk result ((path : List BlockValue) → IsLaid (blocks_in blocks.old.entries) stamps.now path → HasSwitched verdicts.now ledger.old (blocks_in blocks.old.entries) path count blocks.new.entries ledger.new) }
    ensures back { OnErr result (blocks.new.entries ≡ blocks.old.entries) }
    ensures same { OnErr result (ledger.new ≡ ledger.old) }
    ensures refused { IfErr result (λ refusal. (path : List BlockValue) → IsLaid (blocks_in blocks.old.entries) stamps.now path → IsWhyNot verdicts.now (drop count ledger.old.chain) path refusal) }
    ensures steps { OnOk result (steps.new ≤ steps.old + (steps_of_last count ledger.old.chain + steps_of_last (length stamps.now) ledger.new.chain)) }
{
    if let Err(_) = blocks.reserve(count) {
        return Err(SwitchRefusal::NoMemory);
    }
    let Ok(last) = write_last(alloc, ledger, count) else {
        return Err(SwitchRefusal::NoMemory);
    };
    let Ok(held) = ledger.hold(count, steps) else {
        return Err(SwitchRefusal::NoMemory);
    };
    if let Err(refusal) = accept_all(alloc, blocks, stamps, ledger, verdicts, steps) {
        ledger.restore(held, steps);
        return Err(refusal);
    }
    ledger.settle(held);
    drop_path(blocks, stamps);
    put_last(blocks, last);
    Ok(())
}

/// How many blocks of the chain stand behind the ancestor at which a path ends: all of them where it ends before block 0.
///
/// `Detached` where it ends at a stamp that is not in the chain. It takes no memory.
pub(crate) fn count_behind<T: PeopleAndMoney>(
    ledger: &Ledger<T>,
    end: Option<Stamp>,
) -> Result<usize, SwitchRefusal>
    ensures found { IfOk result (λ count. blocks_behind ledger.now.chain end ≡ Some count) }
    ensures detached { IfErr result (λ refusal. (at : StampValue) × (refusal ≡ Detached at) × (end ≡ Some at) × (blocks_behind ledger.now.chain end ≡ None)) }
{
    let Some(at) = end else {
        return Ok(ledger.len());
    };
    match ledger.place_of(&at) {
        Some(count) => Ok(count),
        None => Err(SwitchRefusal::Detached { at }),
    }
}

/// Whether so many blocks can be reversed, and stored in place of a path of so many.
///
/// `TooDeep` where more would be reversed than can be, else `Full` where more would be stored than can be. It takes no memory.
pub(crate) fn check_room(
    kept: usize,
    count: usize,
    stored: usize,
    path: usize,
) -> Result<(), SwitchRefusal>
    requires kept { kept ≤ 100 }
    requires stored { stored ≤ most_stored }
    ensures fits { OnOk result ((count ≤ kept) × ((stored - path) + count ≤ most_stored)) }
    ensures refused { IfErr result (IsTooMuch kept count ((stored - path) + count)) }
{
    if count > kept {
        return Err(SwitchRefusal::TooDeep { kept });
    }
    let held = stored.saturating_sub(path) + count;
    if held > MOST_STORED {
        return Err(SwitchRefusal::Full { held });
    }
    Ok(())
}
