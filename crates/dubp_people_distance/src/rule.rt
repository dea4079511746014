ghost use Rattle.std.specs.Prelude.{◌≡◌, ◌↔◌, List, [], ◌∷◌, ◌<◌, ◌≤◌, ◌^◌, ◌*◌, length, IfOk, IsTrue};
ghost use Rattle.std.specs.List.{AllByRecursion};
ghost use Rattle.dubp_atoms.specs.Same.{Text};
ghost use Rattle.dubp_chain.specs.Chains.{Chain, params as params_of};
ghost use Rattle.dubp_chain.specs.Distance.{sentries as sentries_on};
ghost use Rattle.dubp_chain.specs.Live.{live_pairs};
ghost use Rattle.dubp_chain.specs.Members.{members};
ghost use Rattle.dubp_left.specs.OfValidity.{ComersPass};
ghost use Rattle.dubp_people_distance.specs.Webs.{HasPassed};
ghost use Rattle.dubp_wot.specs.Known.{KnowIssuers};
ghost use Rattle.dubp_wot.specs.Sought.{AreSought};

use crate::next_web::NextWeb;
use crate::two_chains::TwoChains;
use dubp_atoms::{Dec, Key, NoMemory};
use dubp_block::{Block, MemberLine};
use dubp_params::Params;
use dubp_wot::{KnownIssuers, Sought, Web, reaches_among_known, sentries};
use std::alloc::Global;

/// Whether each key of Joiners and Actives passes the distance rule in the new chain: rule `G76`. Nothing is made where there is none.
///
/// There are below 2 ^ 21 members in the new chain. `NoMemory` where there is no memory for what the block changes or for the search.
pub fn comers_pass<T: TwoChains>(alloc: Global, chains: &T, block: &Block) -> Result<bool, NoMemory>
    requires few { (c : Chain) × (T.stand chains.now c block.now × (length (members (block.now ∷ c)) < 2 ^ 21)) }
    ensures { IfOk result (λ holds. (c : Chain) → T.stand chains.now c block.now → (IsTrue holds ↔ ComersPass c block.now)) }
{
    if has_no_comers(block) {
        return Ok(true);
    }
    let params = chains.params();
    if has_no_steps(&params) {
        return Ok(true);
    }
    let web = NextWeb::of(alloc, chains, block)?;
    let found = sentries(alloc, &web, params.step_max)?;
    let holds = both_pass(alloc, &web, found.as_slice(), &params, block)?;
    Ok(holds)
}

/// Whether the block has no line of Joiners and none of Actives.
fn has_no_comers(block: &Block) -> bool
    ensures joiners { IsTrue result → block.now.joiners ≡ [] }
    ensures actives { IsTrue result → block.now.actives ≡ [] }
{
    block.joiners.is_empty() && block.actives.is_empty()
}

/// Whether no step is allowed, as where no parameters are set: nothing is asked then.
fn has_no_steps(params: &Params) -> bool
    ensures { IsTrue result ↔ (params.now.step_max ≡ 0) }
{
    params.step_max == 0
}

/// Whether each key of Joiners and Actives is near enough to the sentries of the web.
///
/// The web is asked for the issuers of a key once, and the sentries get their numbers once.
fn both_pass<W: Web>(
    alloc: Global,
    web: &W,
    sentries: &[Key],
    params: &Params,
    block: &Block,
) -> Result<bool, NoMemory>
    ensures { IfOk result (λ holds. (c : Chain) → W.shows web.now (members (block.now ∷ c)) (live_pairs (block.now ∷ c)) → params.now ≡ params_of (block.now ∷ c) → sentries.now ≡ sentries_on (block.now ∷ c) → (IsTrue holds ↔ ComersPass c block.now)) }
{
    let mut known = KnownIssuers::new(alloc, web.secret());
    let sought = Sought::new(alloc, web, &mut known, sentries)?;
    let lines = block.joiners.as_slice();
    let joiners = lines_pass(alloc, web, &mut known, &sought, params, lines)?;
    if !joiners {
        return Ok(false);
    }
    let lines = block.actives.as_slice();
    let actives = lines_pass(alloc, web, &mut known, &sought, params, lines)?;
    Ok(actives)
}

/// Whether the key of each line is near enough.
fn lines_pass<W: Web>(
    alloc: Global,
    web: &W,
    known: &mut KnownIssuers,
    sought: &Sought<'_>,
    params: &Params,
    lines: &[MemberLine],
) -> Result<bool, NoMemory>
    requires known { (keys : List Text) (pairs : List (Text × Text)) → W.shows web.now keys pairs → KnowIssuers keys pairs known.old }
    requires sought { (keys : List Text) (pairs : List (Text × Text)) → W.shows web.now keys pairs → AreSought keys known.old sought.now }
    ensures known { (keys : List Text) (pairs : List (Text × Text)) → W.shows web.now keys pairs → KnowIssuers keys pairs known.new }
    ensures sought { (keys : List Text) (pairs : List (Text × Text)) → W.shows web.now keys pairs → AreSought keys known.new sought.now }
    ensures pass { IfOk result (λ holds. (d : Chain) → W.shows web.now (members d) (live_pairs d) → params.now ≡ params_of d → sought.now.keys ≡ sentries_on d → (IsTrue holds ↔ AllByRecursion (HasPassed d) lines.now)) }
{
    for line in lines {
        if !line_passes(alloc, web, known, sought, params, line)? {
            return Ok(false);
        }
    }
    Ok(true)
}

/// Whether so many of the sentries reach the key of the line that it is near enough.
fn line_passes<W: Web>(
    alloc: Global,
    web: &W,
    known: &mut KnownIssuers,
    sought: &Sought<'_>,
    params: &Params,
    line: &MemberLine,
) -> Result<bool, NoMemory>
    requires known { (keys : List Text) (pairs : List (Text × Text)) → W.shows web.now keys pairs → KnowIssuers keys pairs known.old }
    requires sought { (keys : List Text) (pairs : List (Text × Text)) → W.shows web.now keys pairs → AreSought keys known.old sought.now }
    ensures known { (keys : List Text) (pairs : List (Text × Text)) → W.shows web.now keys pairs → KnowIssuers keys pairs known.new }
    ensures sought { (keys : List Text) (pairs : List (Text × Text)) → W.shows web.now keys pairs → AreSought keys known.new sought.now }
    ensures passes { IfOk result (λ holds. (d : Chain) → W.shows web.now (members d) (live_pairs d) → params.now ≡ params_of d → sought.now.keys ≡ sentries_on d → (IsTrue holds ↔ HasPassed d line.now)) }
{
    let steps_max = params.step_max;
    let (reached, count) = reaches_among_known(alloc, web, known, sought, line.key, steps_max)?;
    Ok(is_near(params.xpercent, reached, count))
}

/// Whether the part of the sentries that is reached is at least this one.
fn is_near(percent: Dec, reached: u64, count: u64) -> bool
    ensures { IsTrue result ↔ (percent.mantissa * count ≤ reached * 10 ^ percent.places) }
{
    let wanted = u128::from(percent.mantissa) * u128::from(count);
    match 10u128.checked_pow(u32::from(percent.places)) {
        None => reached > 0 || wanted == 0,
        Some(power) => is_at_least(u128::from(reached), power, wanted),
    }
}

/// Whether the product of the first two is at least the third.
fn is_at_least(factor: u128, power: u128, wanted: u128) -> bool
    ensures { IsTrue result ↔ (wanted ≤ factor * power) }
{
    match factor.checked_mul(power) {
        None => true,
        Some(product) => wanted <= product,
    }
}
