ghost use Rattle.std.specs.Prelude.{◌≡◌, ◌↔◌, ◌⊎◌, ◌≤◌, ◌<◌, ◌*◌, ◌^◌, List, filter, MatchOption, IfOk, IsSome, IsSomeAnd, IsTrue, None};
ghost use Rattle.dubp_atoms.specs.Same.{Text};
ghost use Rattle.dubp_atoms.specs.Walks.{d_sen_of, has_issued_and_received};
ghost use Rattle.dubp_chain.specs.Chains.{Chain, params as params_of};
ghost use Rattle.dubp_chain.specs.Live.{live_pairs};
ghost use Rattle.dubp_chain.specs.Members.{members};
ghost use Rattle.dubp_chain.specs.People.{identity};
ghost use Rattle.dubp_validity.specs.Rules.{IsSound};
ghost use Rattle.dubp_wot.specs.Order.{IsInOrder};
ghost use Rattle.dubp_people_views.specs.Nearness.{IsDistanceOf, IsSearchable};

use crate::keys::push;
use crate::{Registry, Standing};
use dubp_atoms::{Dec, Key, NoMemory};
use dubp_block::Block;
use dubp_moving::Tables;
use dubp_params::Params;
use dubp_wot::{Web, d_sen, reaches_among};
use std::alloc::Global;

/// The most steps that the parameters of a chain allow.
const MOST_STEPS: u64 = 16;

/// Each chain has fewer members.
const MEMBERS_LIMIT: u64 = 1 << 21;

/// How near a key is to the sentries.
#[derive(Clone, Copy, Debug, PartialEq, Eq)]
pub struct DistanceView {
    /// How many of the sentries other than the key reach it.
    pub reached: u64,
    /// How many sentries other than the key there are.
    pub sentries: u64,
    /// Whether those who reach it are a part of them that is great enough.
    pub passes: bool,
}

/// How near the key is to the sentries of the chain, or None where it has no identity.
///
/// It looks at each member, and at the certifications of those from whom a walk leads to the key. `NoMemory` where there is none for
/// the list of the sentries or for the search.
pub fn distance(
    alloc: Global,
    registry: &Registry,
    key: Key,
) -> Result<Option<DistanceView>, NoMemory>
    ensures { IfOk result (λ found. (c : Chain) → ⟦<Registry as Tables<Block>>⟧.at registry.now c → IsSound c → MatchOption found (identity c key ≡ None) (λ d. IsSome (identity c key) × IsDistanceOf c key d)) }
{
    let Some(params) = params_for(registry, key) else {
        return Ok(None);
    };
    let web = Standing { registry };
    let found = measured(alloc, &web, &params, key)?;
    Ok(found)
}

/// The parameters of the chain, or None where the key has no identity.
fn params_for(registry: &Registry, key: Key) -> Option<Params>
    ensures { (c : Chain) → ⟦<Registry as Tables<Block>>⟧.at registry.now c → MatchOption result (identity c key ≡ None) (λ p. IsSome (identity c key) × (p ≡ params_of c)) }
{
    registry.identity(key)?;
    let first = registry.first()?;
    Some(first.params)
}

/// How near the key is to the sentries of the web, or None where the steps or the members are more than those of any chain.
fn measured<W: Web>(
    alloc: Global,
    web: &W,
    params: &Params,
    key: Key,
) -> Result<Option<DistanceView>, NoMemory>
    ensures { IfOk result (λ found. (c : Chain) → W.shows web.now (members c) (live_pairs c) → params.now ≡ params_of c → IsSearchable c → IsSomeAnd found (IsDistanceOf c key)) }
{
    let Some(least) = least_certifications(web.count_members(), params.step_max) else {
        return Ok(None);
    };
    let found = sentries(alloc, web, least)?;
    let (reached, count) = reaches_among(alloc, web, found.as_slice(), key, params.step_max)?;
    Ok(Some(DistanceView {
        reached,
        sentries: count,
        passes: is_near(params.xpercent, reached, count),
    }))
}

/// How many certifications a sentry has issued and received, or None where the steps or the members are more than those of any chain.
fn least_certifications(members: u64, steps: u64) -> Option<u64>
    ensures { MatchOption result ((16 < steps) ⊎ (2 ^ 21 ≤ members)) (λ d. d ≡ d_sen_of members steps) }
{
    // a chain whose first block sets no parameters allows no step
    if steps == 0 {
        return Some(0);
    }
    if steps > MOST_STEPS || members >= MEMBERS_LIMIT {
        return None;
    }
    Some(d_sen(members, steps))
}

/// The members, by key, who have issued and received at least so many certifications.
fn sentries<W: Web>(alloc: Global, web: &W, least: u64) -> Result<Vec<Key>, NoMemory>
    ensures { IfOk result (λ found. (members : List Text) (pairs : List (Text × Text)) → W.shows web.now members pairs → IsInOrder members → found.items ≡ filter (has_issued_and_received pairs least) members) }
{
    let members = web.members(alloc)?;
    let mut found = Vec::new(alloc);
    for key in &members {
        if is_sentry(web, key, least) {
            push(&mut found, *key)?;
        }
    }
    Ok(found)
}

/// Whether the key has issued and received at least so many certifications.
fn is_sentry<W: Web>(web: &W, key: &Key, least: u64) -> bool
    ensures { (members : List Text) (pairs : List (Text × Text)) → W.shows web.now members pairs → result ≡ has_issued_and_received pairs least key.now }
{
    web.stock(key) >= least && web.received(key) >= least
}

/// Whether the part of the sentries that reaches the key is at least this one.
fn is_near(percent: Dec, reached: u64, count: u64) -> bool
    ensures { IsTrue result ↔ (percent.mantissa * count ≤ reached * 10 ^ percent.places) }
{
    let wanted = u128::from(percent.mantissa) * u128::from(count);
    match 10u128.checked_pow(u32::from(percent.places)) {
        None => reached > 0 || wanted == 0,
        Some(power) => is_at_least(u128::from(reached), power, wanted),
    }
}

/// Whether the product of the first two is at least the third.
fn is_at_least(factor: u128, power: u128, wanted: u128) -> bool
    ensures { IsTrue result ↔ (wanted ≤ factor * power) }
{
    match factor.checked_mul(power) {
        None => true,
        Some(product) => wanted <= product,
    }
}
