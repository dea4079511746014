ghost use Rattle.std.specs.Prelude.{◌≡◌, ◌^◌, ◌<◌, ◌≤◌, ◌↔◌, IsTrue, List, IfOk, IsOk, length, take};
ghost use Rattle.dubp_chain.specs.declared.head.Head.{Head as HeadValue};
ghost use Rattle.dubp_head.specs.Totals.{total_of};
ghost use Rattle.std.specs.List.{AllByRecursion};
ghost use Rattle.dubp_params.specs.declared.params.Params.{Params as ParamsValue};
ghost use Rattle.dubp_params.specs.Ranges.{IsInRange};
ghost use Rattle.dubp_block.specs.Text.{block_hash_of, size_of};
ghost use Rattle.dubp_pow.specs.Meeting.{Meets};
ghost use Rattle.dubp_rules.specs.First.{FirstOf, IsFirst};
ghost use Rattle.dubp_validity.specs.HeadRules.{greatest_size};
ghost use Rattle.dubp_chain.specs.Heads.{next_head};
ghost use Rattle.dubp_head.specs.Bounds.{IsSmall};
ghost use Rattle.dubp_head.specs.HeadsStates.{AreOver};
ghost use Rattle.dubp_head.specs.Following.{AreHeads, MayFollow, KeepsLimits};
ghost use Rattle.dubp_head.specs.NextHead.{HeaderHolds, header_rules, stated_rules, IsSmallEnough, difficulty_for};

use crate::difficulties::difficulty_over;
use crate::heads::Heads;
use dubp_atoms::NoMemory;
use dubp_block::{Block, size};
use dubp_chain::Head;
use dubp_params::Params;
use dubp_pow::meets;
use dubp_rules::{Rule, first_of};

/// A size below this is always small enough.
const ALWAYS_ALLOWED: u128 = 500;

/// The first of G50 and G54 to G62 that fails. `head` is the head of the block behind the heads. It takes no memory, and is never
/// refused.
pub fn head_rules(
    heads: &Heads,
    params: &Params,
    head: &Head,
    block: &Block,
) -> Result<Option<Rule>, NoMemory>
    requires valid { IsInRange params.now }
    requires over { AreOver heads.now params.now }
    requires heads { AreHeads params.now heads.now.list }
    requires block { MayFollow head.now.members heads.now.list block.now }
    requires limits { KeepsLimits params.now head.now.members heads.now.list block.now }
    requires head { head.now ≡ next_head params.now head.now.members heads.now.list block.now }
    ensures broken { IfOk result (IsFirst (HeaderHolds params.now heads.now.list head.now block.now) header_rules) }
    ensures always { IsOk result }
{
    Ok(head_rules_over(heads, params, head, block))
}

/// The same, by itself.
pub fn head_rules_over(heads: &Heads, params: &Params, head: &Head, block: &Block) -> Option<Rule>
    requires valid { IsInRange params.now }
    requires over { AreOver heads.now params.now }
    requires heads { AreHeads params.now heads.now.list }
    requires block { MayFollow head.now.members heads.now.list block.now }
    requires limits { KeepsLimits params.now head.now.members heads.now.list block.now }
    requires head { head.now ≡ next_head params.now head.now.members heads.now.list block.now }
    ensures { IsFirst (HeaderHolds params.now heads.now.list head.now block.now) header_rules result }
{
    match stated_rules_over(heads, head, block) {
        Some(rule) => Some(rule),
        None => {
            let meets = meets_difficulty(heads, params, head, block);
            if meets { None } else { Some(Rule::G62) }
        }
    }
}

/// The first of G50 and G54 to G61 that fails: all but the rule on the difficulty. `head` is the head of the block behind the heads,
/// which are in order by some parameters. It takes no memory.
pub fn stated_rules_over(heads: &Heads, head: &Head, block: &Block) -> Option<Rule>
    requires heads { (p : ParamsValue) × (IsInRange p × AreHeads p heads.now.list) }
    requires block { MayFollow head.now.members heads.now.list block.now }
    ensures { (p : ParamsValue) → IsFirst (HeaderHolds p heads.now.list head.now block.now) stated_rules result }
{
    first_broken(heads, head, block)
}

fn first_broken(heads: &Heads, head: &Head, block: &Block) -> Option<Rule>
    requires small { AllByRecursion IsSmall heads.now.list }
    requires size { size_of block.now < 2 ^ 53 }
    requires short { length heads.now.list ≤ 2 ^ 40 }
    ensures { (p : ParamsValue) → FirstOf (HeaderHolds p heads.now.list head.now block.now) stated_rules result }
{
    first_of!(
        Rule::G50 => is_small_enough(heads, head, block),
        Rule::G54 => block.issuers == head.issuers,
        Rule::G55 => block.frame == head.frame,
        Rule::G56 => is_variation(head, block),
        Rule::G57 => block.median_time == head.median_time,
        Rule::G58 => block.dividend == head.ud,
        Rule::G59 => block.unit_base == head.unit_base as u64,
        Rule::G60 => block.members == head.members,
        Rule::G61 => block.pow_min == head.pow_min,
    )
}

fn is_variation(head: &Head, block: &Block) -> bool
    ensures { IsTrue result ↔ (block.now.frame_var ≡ head.now.frame_var) }
{
    block.frame_var == head.frame_var
}

fn is_small_enough(heads: &Heads, head: &Head, block: &Block) -> bool
    requires small { AllByRecursion IsSmall heads.now.list }
    requires short { length heads.now.list ≤ 2 ^ 40 }
    requires size { size_of block.now < 2 ^ 53 }
    ensures { IsTrue result ↔ IsSmallEnough heads.now.list head.now block.now }
{
    let Some(_last) = heads.last() else {
        return true;
    };
    let count = head.issuers.min(heads.len() as u64);
    (size(block) as u128) < greatest_size(heads.size_of_last(count), count)
}

// Below what a size must stay behind so many blocks of this size together: eleven tenths of their mean size, rounded up, or what is always
// allowed.
fn greatest_size(total: u128, count: u64) -> u128
    requires { total < 2 ^ 94 }
    ensures { (hs : List HeadValue) → count ≤ length hs → total ≡ total_of (take count hs) → result ≡ greatest_size count hs }
{
    if count == 0 {
        return ALWAYS_ALLOWED;
    }
    (11 * total)
        .div_ceil(10 * count as u128)
        .max(ALWAYS_ALLOWED)
}

fn meets_difficulty(heads: &Heads, params: &Params, head: &Head, block: &Block) -> bool
    requires valid { IsInRange params.now }
    requires over { AreOver heads.now params.now }
    requires heads { AreHeads params.now heads.now.list }
    requires hash { head.now.hash ≡ block_hash_of block.now }
    ensures { IsTrue result ↔ Meets (block_hash_of block.now) (difficulty_for params.now heads.now.list block.now.pow_min block.now.issuer) }
{
    let difficulty = difficulty_over(heads, params, block.pow_min, &block.issuer);
    meets(&head.hash, difficulty)
}
