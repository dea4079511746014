ghost use Rattle.std.specs.Prelude.{◌≡◌, ◌↔◌, ◌≤◌, IsTrue, Any};
ghost use Rattle.dubp_cond.specs.View.{item_tree, all_tree};
ghost use Rattle.dubp_cond.specs.Truth.{IsItemTrue, IsAllTrue, IsTrueAt, Signs, Opens};
ghost use Rattle.dubp_cond.specs.Asked.{moment_of};

use crate::tree::{All, Cond, Item};
use crate::unlock::Unlock;
use dubp_atoms::{Hash, Key};

/// What a condition is asked about.
#[derive(Drop)]
struct Moment<'a> {
    unlocks: &'a [Unlock],
    issuers: &'a [Key],
    now: u64,
    written: u64,
}

fn signs(unlock: &Unlock, key: &Key, issuers: &[Key]) -> bool
    ensures { IsTrue result ↔ Signs issuers.now key.now unlock.now }
{
    match unlock {
        Unlock::Sig(i) => {
            let i = *i as usize;
            i < issuers.len() && issuers[i] == *key
        }
        Unlock::Xhx(_) => false,
    }
}

fn opens(unlock: &Unlock, hash: &Hash) -> bool
    ensures { IsTrue result ↔ Opens hash.now unlock.now }
{
    match unlock {
        Unlock::Sig(_) => false,
        Unlock::Xhx(password) => Hash::of(password.as_slice()) == *hash,
    }
}

fn is_signed(key: &Key, unlocks: &[Unlock], issuers: &[Key]) -> bool
    ensures { IsTrue result ↔ Any (Signs issuers.now key.now) unlocks.now }
{
    unlocks.iter().any(|unlock| signs(unlock, key, issuers))
}

fn is_opened(hash: &Hash, unlocks: &[Unlock]) -> bool
    ensures { IsTrue result ↔ Any (Opens hash.now) unlocks.now }
{
    unlocks.iter().any(|unlock| opens(unlock, hash))
}

#[cycle(truth)]
fn is_item_true(item: &Item, moment: &Moment<'_>) -> bool
    requires { moment.now.written ≤ moment.now.now }
    ensures { IsTrue result ↔ IsItemTrue (moment_of moment.entry.now) (item_tree item.now) }
{
    match item {
        Item::Sig(key) => is_signed(key, moment.unlocks, moment.issuers),
        Item::Xhx(hash) => is_opened(hash, moment.unlocks),
        Item::Csv(seconds) => moment.now - moment.written >= *seconds,
        Item::Cltv(time) => moment.now >= *time,
        Item::Group(cond) => is_some_true(cond, moment),
    }
}

#[cycle(truth)]
fn is_every_true(all: &All, moment: &Moment<'_>) -> bool
    requires { moment.now.written ≤ moment.now.now }
    ensures { IsTrue result ↔ IsAllTrue (moment_of moment.entry.now) (all_tree all.now) }
{
    for item in &all.every {
        if !is_item_true(item, moment) {
            return false;
        }
    }
    true
}

#[cycle(truth)]
fn is_some_true(cond: &Cond, moment: &Moment<'_>) -> bool
    requires { moment.now.written ≤ moment.now.now }
    ensures { IsTrue result ↔ IsTrueAt (moment_of moment.entry.now) cond.now }
{
    for all in &cond.any {
        if is_every_true(all, moment) {
            return true;
        }
    }
    false
}

/// Whether a condition is true for an input with these unlocks in a transaction of these issuers.
///
/// `now` is the median time, and `written`, which is at most `now`, that of the block in which the source was made. It takes
/// no memory.
pub fn holds(cond: &Cond, unlocks: &[Unlock], issuers: &[Key], now: u64, written: u64) -> bool
    requires { written ≤ now }
    ensures { IsTrue result ↔ IsTrueAt (record { unlocks = unlocks.now; issuers = issuers.now; now = now; written = written }) cond.now }
{
    let moment = Moment {
        unlocks,
        issuers,
        now,
        written,
    };
    is_some_true(cond, &moment)
}
