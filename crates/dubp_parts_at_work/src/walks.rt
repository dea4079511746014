ghost use Rattle.std.specs.Prelude.{◌≡◌, ◌≤◌, ◌&&◌, true, length, find, IsTrue};
ghost use Rattle.std.specs.List.{list_all, list_any};
ghost use Rattle.std.specs.Option.{option_map_or};
ghost use Rattle.std.proofs.Props.{props};
ghost use Rattle.dubp_atoms.specs.Same.{same_text};
ghost use Rattle.dubp_atoms.specs.Walks.{received_of, stock_of};
ghost use Rattle.dubp_wot.specs.Order.{IsInOrder, IsNextIssuer, is_above, less};

use dubp_atoms::{Key, NoMemory, Secret};
use dubp_wot::{Web, d_sen, reaches, reaches_among, sentries};
use std::alloc::{AllocError, Global};
use std::mem::forget;
use std::test::Fail;

/// A web as two lists.
#[derive(Drop)]
struct Listed {
    members: Vec<Key>,
    pairs: Vec<(Key, Key)>,
    ghost in_order: { IsInOrder members.items } by { Prim.hlevel props },
}

impl Web for Listed {
    ghost shows = { λ w members pairs. (members ≡ w.members.items) × (pairs ≡ w.pairs.items) };

    fn is_member(&self, key: &Key) -> bool {
        self.members.contains(key)
    }

    fn count_members(&self) -> u64 {
        self.members.len() as u64
    }

    fn next_member(&self, after: Option<Key>) -> Option<Key> {
        first_above(&self.members, &after)
    }

    fn next_issuer(&self, to: Key, after: Option<Key>) -> Option<Key> {
        least_issuer(&self.pairs, &to, &after)
    }

    fn stock(&self, key: &Key) -> u64 {
        count_certified(&self.pairs, key) as u64
    }

    fn received(&self, key: &Key) -> u64 {
        count_issuers(&self.pairs, key) as u64
    }

    fn secret(&self) -> Secret {
        Secret::known()
    }
}

fn first_above(keys: &[Key], after: &Option<Key>) -> Option<Key>
    ensures { result ≡ find (is_above after.now) keys.now }
{
    match keys.split_first() {
        Some((key, rest)) => {
            if is_above_key(after, key) {
                Some(*key)
            } else {
                first_above(rest, after)
            }
        }
        None => None,
    }
}

fn is_above_key(after: &Option<Key>, key: &Key) -> bool
    ensures { result ≡ is_above after.now key.now }
{
    match after {
        Some(low) => *low < *key,
        None => true,
    }
}

fn is_below_key(key: &Key, best: &Option<Key>) -> bool
    ensures { result ≡ option_map_or (less key.now) best.now true }
{
    match best {
        Some(high) => *key < *high,
        None => true,
    }
}

fn least_issuer(pairs: &[(Key, Key)], to: &Key, after: &Option<Key>) -> Option<Key>
    ensures { IsNextIssuer pairs.now to.now after.now result }
{
    match pairs.split_first() {
        Some((pair, rest)) => {
            let best = least_issuer(rest, to, after);
            if *to == pair.1 && is_above_key(after, &pair.0) && is_below_key(&pair.0, &best) {
                Some(pair.0)
            } else {
                best
            }
        }
        None => None,
    }
}

fn count_issuers(pairs: &[(Key, Key)], to: &Key) -> usize
    ensures count { result ≡ received_of pairs.now to.now }
    ensures within { result ≤ length pairs.now }
{
    match pairs.split_first() {
        Some((pair, rest)) => {
            let count = count_issuers(rest, to);
            if *to == pair.1 && !has_pair(rest, &pair.0, to) {
                count + 1
            } else {
                count
            }
        }
        None => 0,
    }
}

fn count_certified(pairs: &[(Key, Key)], from: &Key) -> usize
    ensures count { result ≡ stock_of pairs.now from.now }
    ensures within { result ≤ length pairs.now }
{
    match pairs.split_first() {
        Some((pair, rest)) => {
            let count = count_certified(rest, from);
            if *from == pair.0 && !has_pair(rest, from, &pair.1) {
                count + 1
            } else {
                count
            }
        }
        None => 0,
    }
}

fn has_pair(pairs: &[(Key, Key)], from: &Key, to: &Key) -> bool
    ensures { result ≡ list_any (λ p. same_text from.now p.0 && same_text to.now p.1) pairs.now }
{
    match pairs.split_first() {
        Some((pair, rest)) => (*from == pair.0 && *to == pair.1) || has_pair(rest, from, to),
        None => false,
    }
}

fn is_in_order(keys: &[Key]) -> bool
    ensures { IsTrue result → IsInOrder keys.now }
{
    match keys.split_first() {
        Some((first, rest)) => is_below_all(first, rest) && is_in_order(rest),
        None => true,
    }
}

fn is_below_all(key: &Key, keys: &[Key]) -> bool
    ensures { result ≡ list_all (less key.now) keys.now }
{
    match keys.split_first() {
        Some((first, rest)) => *key < *first && is_below_all(key, rest),
        None => true,
    }
}

/// The keys that repeat a letter each: those of the members A to E, and that of X, who is no member.
const KEYS: &[u8] =
    b"AAAAAAAAAAAAAAAAAAAAAAAAAAAAAAAAAAAAAAAAAAABBBBBBBBBBBBBBBBBBBBBBBBBBBBBBBBBBBBBBBBBBBCCCCCCCCCCCCCCCCCCCCCCCCCCCCCCCCCCCCCCCCCCCDDDDDDDDDDDDDDDDDDDDDDDDDDDDDDDDDDDDDDDDDDDEEEEEEEEEEEEEEEEEEEEEEEEEEEEEEEEEEEEEEEEEEEXXXXXXXXXXXXXXXXXXXXXXXXXXXXXXXXXXXXXXXXXXX";

const LENGTH: usize = 43;

/// The places of the keys.
const A: usize = 0;

const B: usize = 1;

const C: usize = 2;

const D: usize = 3;

const E: usize = 4;

const X: usize = 5;

/// The web of the members, and of who certifies whom.
fn make_web(alloc: Global, places: &[(usize, usize)]) -> Result<Listed, Fail> {
    let pairs = pairs_of(alloc, &keys_of(alloc)?, places)?;
    let mut members = keys_of(alloc)?;
    members.truncate(X);
    if !is_in_order(&members) {
        return Err(Fail::from("members in no order"));
    }
    Ok(Listed { members, pairs })
}

fn keys_of(alloc: Global) -> Result<Vec<Key>, AllocError> {
    let mut keys = Vec::new(alloc);
    for text in KEYS.chunks(LENGTH) {
        if let Some(key) = Key::read(text) {
            keys.push(key)?;
        }
    }
    Ok(keys)
}

fn pairs_of(
    alloc: Global,
    keys: &[Key],
    places: &[(usize, usize)],
) -> Result<Vec<(Key, Key)>, AllocError> {
    let mut pairs = Vec::new(alloc);
    for (from, to) in places {
        let Some(from) = keys.get(*from) else {
            continue;
        };
        if let Some(to) = keys.get(*to) {
            pairs.push((*from, *to))?;
        }
    }
    Ok(pairs)
}

/// A walk of four pairs from A to E, and one of two through X, who is no member.
const WALKS: [(usize, usize); 6] = [(A, B), (B, C), (C, D), (D, E), (A, X), (X, E)];

/// The greatest number of steps, and how many of the four sentries other than the target reach it.
const REACHED: [(u64, u64); 5] = [(4, 4), (3, 3), (2, 2), (1, 1), (16, 4)];

/// Whether as many of the sentries reach the target within each number of steps as should.
fn are_reached(
    alloc: Global,
    web: &Listed,
    sentries: &[Key],
    target: Key,
) -> Result<bool, NoMemory> {
    let mut good = true;
    for (steps_max, reached) in &REACHED {
        let found = reaches_among(alloc, web, sentries, target, *steps_max)?;
        good = good && found == (*reached, 4);
    }
    Ok(good)
}

/// Whether the members of the web reach E as they should.
fn members_reach(alloc: Global, web: &Listed) -> Result<bool, NoMemory> {
    match web.members.last() {
        Some(target) => are_reached(alloc, web, &web.members, *target),
        None => Ok(false),
    }
}

#[test]
fn walks_within_the_limit_reach(rt: HostRuntime) -> Result<(), Fail> {
    let web = make_web(rt.alloc(), &WALKS)?;
    let good = members_reach(rt.alloc(), &web);
    forget(web);
    assert!(rt; good == Ok(true));
    Ok(())
}

/// A has issued two and received two; C has received two and issued one.
const CERTIFICATIONS: [(usize, usize); 6] = [(A, B), (A, C), (B, A), (B, C), (C, A), (C, A)];

/// A place, how many sentries reach its key within three steps, and how many there are beside it.
const SENTRIES: [(usize, (u64, u64)); 3] = [(A, (0, 0)), (C, (1, 1)), (D, (0, 1))];

fn is_first_alone(members: &[Key], found: &[Key]) -> bool {
    match members.first() {
        Some(first) => found == [*first].as_slice(),
        None => false,
    }
}

/// Whether A alone is a sentry, and as many sentries reach each of three as should.
fn a_is_the_sentry(alloc: Global, web: &Listed) -> Result<bool, NoMemory> {
    if web.count_members() != 5 {
        return Ok(false);
    }
    let mut good = is_first_alone(&web.members, &sentries(alloc, web, 3)?);
    for (place, numbers) in &SENTRIES {
        if let Some(target) = web.members.get(*place) {
            good = good && reaches(alloc, web, *target, 3)? == *numbers;
        }
    }
    Ok(good)
}

#[test]
fn sentries_have_issued_and_received(rt: HostRuntime) -> Result<(), Fail> {
    let web = make_web(rt.alloc(), &CERTIFICATIONS)?;
    let good = a_is_the_sentry(rt.alloc(), &web);
    forget(web);
    assert!(rt; good == Ok(true));
    Ok(())
}

// The members, the greatest number of steps, and the least degree.
const DEGREES: [(u64, u64, u64); 5] = [
    (8, 3, 2),
    (9, 3, 3),
    (0, 3, 0),
    (1, 1, 1),
    (2_000_000, 1, 2_000_000),
];

#[test]
fn least_degrees(rt: HostRuntime) {
    for (members, steps_max, least) in &DEGREES {
        assert!(rt; d_sen(*members, *steps_max) == *least);
    }
}
