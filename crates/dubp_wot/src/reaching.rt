ghost use Rattle.std.specs.Prelude.{◌≡◌, ℕ, ◌≤◌, ◌<◌, ◌^◌, List, length, IfOk, OnOk, Contains};
ghost use Rattle.dubp_atoms.specs.Same.{Text};
ghost use Rattle.dubp_atoms.specs.Walks.{Reaches, IsCountOf, IsReachedBy, others, sentries_of};
ghost use Rattle.dubp_wot.specs.Known.{AreIssuersOf, KnowIssuers};
ghost use Rattle.dubp_wot.specs.Numbers.{AreBelow, Keeps, named};
ghost use Rattle.dubp_wot.specs.Search.{Grows, Closed, In};
ghost use Rattle.dubp_wot.specs.Sought.{AreSought, missing};

use crate::found::Found;
use crate::known::KnownIssuers;
use crate::sentry::sentries;
use crate::sought::Sought;
use crate::web::Web;
use dubp_atoms::{Key, NoMemory};
use std::alloc::Global;

/// How many of the sentries other than the target reach it within `steps_max`, and how many sentries other than it there are.
///
/// There are below 2 ^ 21 members, and `steps_max` is from 1 to 16. `NoMemory` where there is no memory for the search.
pub fn reaches<W: Web>(
    alloc: Global,
    web: &W,
    target: Key,
    steps_max: u64,
) -> Result<(u64, u64), NoMemory>
    requires members { (members : List Text) × (pairs : List (Text × Text)) × (W.shows web.now members pairs × (length members < 2 ^ 21)) }
    requires steps { (1 ≤ steps_max) × (steps_max ≤ 16) }
    ensures reached { IfOk result (λ r. (members : List Text) (pairs : List (Text × Text)) → W.shows web.now members pairs → IsReachedBy members pairs steps_max target r.0) }
    ensures count { IfOk result (λ r. (members : List Text) (pairs : List (Text × Text)) → W.shows web.now members pairs → r.1 ≡ length (others (sentries_of members pairs steps_max) target)) }
{
    let sentries = sentries(alloc, web, steps_max)?;
    reaches_among(alloc, web, &sentries, target, steps_max)
}

/// The same among keys at hand: how many of them other than the target reach it, and how many others there are.
///
/// `NoMemory` where there is no memory for the search.
pub fn reaches_among<W: Web>(
    alloc: Global,
    web: &W,
    sentries: &[Key],
    target: Key,
    steps_max: u64,
) -> Result<(u64, u64), NoMemory>
    ensures reached { IfOk result (λ r. (members : List Text) (pairs : List (Text × Text)) → W.shows web.now members pairs → IsCountOf (λ s. Reaches members pairs steps_max s target) (others sentries.now target) r.0) }
    ensures count { IfOk result (λ r. r.1 ≡ length (others sentries.now target)) }
{
    let mut known = KnownIssuers::new(alloc, web.secret());
    let sought = Sought::new(alloc, web, &mut known, sentries)?;
    reaches_among_known(alloc, web, &mut known, &sought, target, steps_max)
}

/// The same among keys that have their numbers, with what is known of the web, which is asked only for what is not: for many targets in one web.
///
/// The search ends as soon as each member among the keys is found.
/// `NoMemory` where there is no memory for the search, or for what it came to know; what is known is true then, too.
pub fn reaches_among_known<W: Web>(
    alloc: Global,
    web: &W,
    known: &mut KnownIssuers,
    sought: &Sought<'_>,
    target: Key,
    steps_max: u64,
) -> Result<(u64, u64), NoMemory>
    requires known { (members : List Text) (pairs : List (Text × Text)) → W.shows web.now members pairs → KnowIssuers members pairs known.old }
    requires sought { (members : List Text) (pairs : List (Text × Text)) → W.shows web.now members pairs → AreSought members known.old sought.now }
    ensures known { (members : List Text) (pairs : List (Text × Text)) → W.shows web.now members pairs → KnowIssuers members pairs known.new }
    ensures sought { (members : List Text) (pairs : List (Text × Text)) → W.shows web.now members pairs → AreSought members known.new sought.now }
    ensures reached { IfOk result (λ r. (members : List Text) (pairs : List (Text × Text)) → W.shows web.now members pairs → IsCountOf (λ s. Reaches members pairs steps_max s target) (others sought.now.keys target) r.0) }
    ensures count { IfOk result (λ r. r.1 ≡ length (others sought.now.keys target)) }
{
    let reached = count_reaching(alloc, web, known, sought, target, steps_max)?;
    let all = sought.count_others(target);
    Ok((reached as u64, all as u64))
}

/// How many of the sought keys other than the target reach it within `steps_max`.
fn count_reaching<W: Web>(
    alloc: Global,
    web: &W,
    known: &mut KnownIssuers,
    sought: &Sought<'_>,
    target: Key,
    steps_max: u64,
) -> Result<usize, NoMemory>
    requires known { (members : List Text) (pairs : List (Text × Text)) → W.shows web.now members pairs → KnowIssuers members pairs known.old }
    ensures known { (members : List Text) (pairs : List (Text × Text)) → W.shows web.now members pairs → KnowIssuers members pairs known.new }
    ensures kept { Keeps known.old.keys known.new.keys }
    ensures reached { IfOk result (λ n. (members : List Text) (pairs : List (Text × Text)) → W.shows web.now members pairs → AreSought members known.old sought.now → IsCountOf (λ s. Reaches members pairs steps_max s target) (others sought.now.keys target) n) }
{
    if !web.is_member(&target) {
        return Ok(0);
    }
    let first = known.number(target)?;
    let mut found = Found::new(alloc, known.len())?;
    let mut left = sought.count_members();
    found.insert(first, sought, &mut left)?;
    let others = left;
    let mut start = 0;
    for level in 0..steps_max {
        let _keys = known.len();
        let end = found.len();
        if left == 0 {
            return Ok(others);
        }
        if start == end {
            return Ok(others - left);
        }
        add_level(alloc, web, known, sought, start, &mut found, &mut left)?;
        start = end;
    }
    let _keys = known.len();
    Ok(others - left)
}

/// Adds the next level: the members who certify a key that was found, from `start` on. It ends where none of the sought keys is left.
fn add_level<W: Web>(
    alloc: Global,
    web: &W,
    known: &mut KnownIssuers,
    sought: &Sought<'_>,
    start: usize,
    found: &mut Found,
    left: &mut usize,
) -> Result<(), NoMemory>
    requires known { (members : List Text) (pairs : List (Text × Text)) → W.shows web.now members pairs → KnowIssuers members pairs known.old }
    requires within { AreBelow (length known.old.keys) found.old }
    requires counted { left.old ≡ missing sought.now.numbers found.old }
    ensures known { (members : List Text) (pairs : List (Text × Text)) → W.shows web.now members pairs → KnowIssuers members pairs known.new }
    ensures kept { Keeps known.old.keys known.new.keys }
    ensures within { OnOk result (AreBelow (length known.new.keys) found.new) }
    ensures counted { OnOk result (left.new ≡ missing sought.now.numbers found.new) }
    ensures keeps { OnOk result ((n : ℕ) → In found.old n → In found.new n) }
    ensures grows { OnOk result ((members : List Text) (pairs : List (Text × Text)) → W.shows web.now members pairs → Grows members pairs (In (named known.old.keys found.old)) (named known.old.keys found.old) (named known.new.keys found.new)) }
    ensures closed { OnOk result ((members : List Text) (pairs : List (Text × Text)) → W.shows web.now members pairs → 0 < left.new → Closed members pairs start (named known.old.keys found.old) → Closed members pairs (length found.old) (named known.new.keys found.new)) }
{
    for i in start..found.len() {
        if *left == 0 {
            return Ok(());
        }
        let to = found.at(i);
        known.ask(alloc, web, to)?;
        let _keys = known.len();
        add_issuers(known.of(to), sought, found, left)?;
    }
    Ok(())
}

/// Adds the members who certify a key.
fn add_issuers(
    issuers: &[usize],
    sought: &Sought<'_>,
    found: &mut Found,
    left: &mut usize,
) -> Result<(), NoMemory>
    requires small { AreBelow (2 ^ 63) issuers.now }
    requires counted { left.old ≡ missing sought.now.numbers found.old }
    ensures longer { OnOk result (length found.old ≤ length found.new) }
    ensures within { OnOk result ((size : ℕ) → AreBelow size issuers.now → AreBelow size found.old → AreBelow size found.new) }
    ensures counted { OnOk result (left.new ≡ missing sought.now.numbers found.new) }
    ensures keeps { OnOk result ((n : ℕ) → In found.old n → In found.new n) }
    ensures grows { OnOk result ((members : List Text) (pairs : List (Text × Text)) (keys : List Text) (to : Text) → AreIssuersOf members pairs to (named keys issuers.now) → Grows members pairs (λ b. b ≡ to) (named keys found.old) (named keys found.new)) }
    ensures all { OnOk result ((n : ℕ) → Contains issuers.now n → In found.new n) }
{
    for from in issuers {
        found.insert(*from, sought, left)?;
    }
    Ok(())
}
