ghost use Rattle.std.specs.Prelude.{◌≡◌, ◌++◌, ◌+◌, ◌∷◌, [], drop, map, reverse, take, IfOk, OnOk};
ghost use Rattle.dubp_block.specs.Text.{stamp_of as block_stamp};
ghost use Rattle.dubp_replay.specs.Turns.{offered};
ghost use Rattle.dubp_choosing.specs.States.{IsTipOf, list_of, seen_of};
ghost use Rattle.dubp_resolve.specs.Known.{seen};

use crate::branches::Branches;
use dubp_atoms::{NoMemory, Stamp};
use dubp_forks::{Ledger, PeopleAndMoney};
use dubp_replay::Failure;
use dubp_resolve::{Offered, View, choose};
use std::alloc::Global;

/// The stamp of the stored block to switch to. None exactly where there is no candidate.
///
/// `NoMemory` where there is no room to find it.
pub(crate) fn find_tip<T: PeopleAndMoney>(
    alloc: Global,
    branches: &Branches<T>,
    failures: &[Failure],
) -> Result<Option<Stamp>, NoMemory>
    ensures { IfOk result (λ tip. IsTipOf branches.now failures.now tip) }
{
    branches.laws();
    let view = see(alloc, branches, failures)?;
    choose(alloc, branches.secret(), &view)
}

/// What a choice depends on. Of the chain it has the stamps of the last blocks, one more than can be reversed.
fn see<T: PeopleAndMoney>(
    alloc: Global,
    branches: &Branches<T>,
    failures: &[Failure],
) -> Result<View, NoMemory>
    ensures { IfOk result (λ view. seen view ≡ seen_of branches.now failures.now) }
{
    let ledger = branches.ledger();
    let offers = offers_of(alloc, branches)?;
    let recent = recent_of(alloc, ledger)?;
    let failed = places_of(alloc, failures)?;
    Ok(View {
        offers,
        recent,
        length: ledger.len() as u64,
        kept: ledger.kept(),
        failed,
    })
}

/// The stored blocks, in the order in which they came.
fn offers_of<T: PeopleAndMoney>(
    alloc: Global,
    branches: &Branches<T>,
) -> Result<Vec<Offered>, NoMemory>
    ensures { IfOk result (λ offers. offers.items ≡ map offered branches.now.store) }
{
    let mut offers = Vec::new(alloc);
    for place in 0..branches.held() {
        let (stamp, previous) = branches.entry(place);
        add_offer(&mut offers, stamp, previous)?;
    }
    Ok(offers)
}

fn add_offer(
    offers: &mut Vec<Offered>,
    stamp: Stamp,
    previous: Option<Stamp>,
) -> Result<(), NoMemory>
    ensures { OnOk result (offers.new.items ≡ offers.old.items ++ record { stamp = stamp; previous = previous } ∷ []) }
{
    if offers.push(Offered { stamp, previous }).is_err() {
        return Err(NoMemory);
    }
    Ok(())
}

/// The stamps of the last blocks of the chain, one more than can be reversed, in ascending number.
fn recent_of<T: PeopleAndMoney>(alloc: Global, ledger: &Ledger<T>) -> Result<Vec<Stamp>, NoMemory>
    ensures { IfOk result (λ recent. recent.items ≡ reverse (take (ledger.now.kept + 1) (map block_stamp ledger.now.chain))) }
{
    let mut recent = Vec::new(alloc);
    let mut count = ledger.kept();
    add_some(&mut recent, ledger.stamp_before(count as u64))?;
    while count > 0 {
        count -= 1;
        add_some(&mut recent, ledger.stamp_before(count as u64))?;
    }
    Ok(recent)
}

fn add_some(stamps: &mut Vec<Stamp>, stamp: Option<Stamp>) -> Result<(), NoMemory>
    ensures { OnOk result (stamps.new.items ≡ stamps.old.items ++ list_of stamp) }
{
    match stamp {
        Some(stamp) => add_stamp(stamps, stamp),
        None => Ok(()),
    }
}

fn add_stamp(stamps: &mut Vec<Stamp>, stamp: Stamp) -> Result<(), NoMemory>
    ensures { OnOk result (stamps.new.items ≡ stamps.old.items ++ stamp ∷ []) }
{
    stamps.push(stamp).map_err(|_| NoMemory)
}

/// The blocks at which the branches failed.
fn places_of(alloc: Global, failures: &[Failure]) -> Result<Vec<Stamp>, NoMemory>
    ensures { IfOk result (λ places. places.items ≡ map (λ f. f.at) failures.now) }
{
    let mut places = Vec::new(alloc);
    for failure in failures {
        add_stamp(&mut places, failure.at)?;
    }
    Ok(places)
}
