ghost use Rattle.std.specs.Prelude.{◌≡◌, ℕ, ◌≤◌, ◌<◌, ◌^◌, ◌↔◌, List, [], ◌∷◌, ◌++◌, IsTrue, IfOk, OnOk, OnErr, length};
ghost use Rattle.dubp_atoms.specs.Same.{Text};
ghost use Rattle.dubp_atoms.specs.Walks.{d_sen_of, has_issued_and_received, sentries_of};

use crate::web::Web;
use dubp_atoms::{Key, NoMemory};
use std::alloc::Global;

/// The least number whose power is at least the number of members: so many certifications a sentry has issued and received.
///
/// `members` is below 2 ^ 21 and `steps_max` from 1 to 16. It takes no memory.
pub fn d_sen(members: u64, steps_max: u64) -> u64
    requires members { members < 2 ^ 21 }
    requires steps { (1 ≤ steps_max) × (steps_max ≤ 16) }
    ensures value { result ≡ d_sen_of members steps_max }
    ensures enough { members ≤ result ^ steps_max }
    ensures least { (d : ℕ) → d < result → d ^ steps_max < members }
{
    let mut low = 0;
    let mut high = members;
    while low < high {
        let middle = (low + high) / 2;
        if is_enough(middle, steps_max, members) {
            high = middle;
        } else {
            low = middle + 1;
        }
    }
    low
}

/// Whether the power of the base is at least the number of members.
fn is_enough(base: u64, steps: u64, members: u64) -> bool
    requires steps { 1 ≤ steps }
    requires base { base ≤ 2 ^ 21 }
    requires members { members < 2 ^ 21 }
    ensures { IsTrue result ↔ (members ≤ base ^ steps) }
{
    if base == 0 {
        return members == 0;
    }
    let mut power = 1;
    for i in 0..steps {
        if power >= members {
            return true;
        }
        power *= base;
    }
    power >= members
}

/// The members who are sentries, in the order of their texts.
///
/// There are below 2 ^ 21 members, and `steps_max` is from 1 to 16. `NoMemory` where there is no memory for the lists.
pub fn sentries<W: Web>(alloc: Global, web: &W, steps_max: u64) -> Result<Vec<Key>, NoMemory>
    requires members { (members : List Text) × (pairs : List (Text × Text)) × (W.shows web.now members pairs × (length members < 2 ^ 21)) }
    requires steps { (1 ≤ steps_max) × (steps_max ≤ 16) }
    ensures { IfOk result (λ found. (members : List Text) (pairs : List (Text × Text)) → W.shows web.now members pairs → found.items ≡ sentries_of members pairs steps_max) }
{
    let least = d_sen(web.count_members(), steps_max);
    let members = web.members(alloc)?;
    let mut found = Vec::new(alloc);
    for key in &members {
        if has_issued_and_received_least(web, key, least) {
            push(&mut found, *key)?;
        }
    }
    Ok(found)
}

/// Whether the key certifies at least this many keys, and is certified by at least this many.
fn has_issued_and_received_least<W: Web>(web: &W, key: &Key, least: u64) -> bool
    ensures { (members : List Text) (pairs : List (Text × Text)) → W.shows web.now members pairs → result ≡ has_issued_and_received pairs least key.now }
{
    web.stock(key) >= least && web.received(key) >= least
}

/// Appends the item.
pub(crate) fn push<T: Drop>(list: &mut Vec<T>, item: T) -> Result<(), NoMemory>
    ensures put { OnOk result (list.new.items ≡ list.old.items ++ item ∷ []) }
    ensures refused { OnErr result (list.new.items ≡ list.old.items) }
{
    list.push(item).map_err(|_| NoMemory)
}
