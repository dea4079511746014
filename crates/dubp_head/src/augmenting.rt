ghost use Rattle.std.specs.Prelude.{◌≡◌, ◌^◌, ◌<◌, ◌≤◌, Some, IfOk, IfErr, length};
ghost use Rattle.dubp_params.specs.Ranges.{IsInRange};
ghost use Rattle.dubp_block.specs.Text.{block_hash_of, size_of};
ghost use Rattle.dubp_chain.specs.Heads.{newest, next_head, first_head, next_median_time, next_least_difficulty, moved_on, elapsed_over};
ghost use Rattle.dubp_head.specs.Bounds.{InBounds};
ghost use Rattle.dubp_head.specs.HeadsStates.{AreOver};
ghost use Rattle.dubp_head.specs.Following.{AreHeads, MayFollow, KeepsLimits};
ghost use Rattle.dubp_head.specs.NextHead.{IsRefusal, IsOfLimit, PassesLimit};
ghost use Rattle.dubp_head.specs.Money.{later_without};

use crate::heads::Heads;
use crate::money::{money_at, with_money};
use crate::refusal::{HeadRefusal, Passed};
use dubp_atoms::Hash;
use dubp_block::{Block, block_hash, size};
use dubp_chain::Head;
use dubp_params::Params;
use dubp_pow::{next_frame, next_pow_min, next_var};

/// The head of the block behind the chain. `members` is the number of members of the chain with the block, below 2^21.
/// Refused exactly where X03, X04 or X08 fails. It takes no memory, and is never refused for want of it.
pub fn augment(
    heads: &Heads,
    params: &Params,
    block: &Block,
    members: u64,
) -> Result<Head, HeadRefusal>
    requires valid { IsInRange params.now }
    requires over { AreOver heads.now params.now }
    requires heads { AreHeads params.now heads.now.list }
    requires block { MayFollow members heads.now.list block.now }
    ensures head { IfOk result (λ h. (h ≡ next_head params.now members heads.now.list block.now) × KeepsLimits params.now members heads.now.list block.now) }
    ensures refused { IfErr result (IsRefusal params.now members heads.now.list block.now) }
    ensures always { IfErr result IsOfLimit }
{
    match augment_over(heads, params, block, &block_hash(block), members) {
        Ok(head) => Ok(head),
        Err(passed) => Err(HeadRefusal::Refused {
            rule: passed.rule,
            head: passed.head,
        }),
    }
}

/// The same for a block whose hash is at hand, where a limit that is passed is told without an error of memory.
pub fn augment_over(
    heads: &Heads,
    params: &Params,
    block: &Block,
    hash: &Hash,
    members: u64,
) -> Result<Head, Passed>
    requires valid { IsInRange params.now }
    requires over { AreOver heads.now params.now }
    requires heads { AreHeads params.now heads.now.list }
    requires hash { hash.now ≡ block_hash_of block.now }
    requires block { MayFollow members heads.now.list block.now }
    ensures head { IfOk result (λ h. (h ≡ next_head params.now members heads.now.list block.now) × KeepsLimits params.now members heads.now.list block.now) }
    ensures passed { IfErr result (λ passed. PassesLimit params.now members heads.now.list block.now passed.rule passed.head) }
{
    let Some(before) = heads.last() else {
        return Ok(first_head(params, block, hash, members));
    };
    let head = without_dividend(heads, before, params, block, hash, members);
    match money_at(before, params, head.median_time, members) {
        Ok(money) => Ok(with_money(head, money)),
        Err(rule) => Err(Passed { rule, head }),
    }
}

// The values at the first block.
fn first_head(params: &Params, block: &Block, hash: &Hash, members: u64) -> Head
    requires hash { hash.now ≡ block_hash_of block.now }
    requires size { size_of block.now < 2 ^ 53 }
    ensures { result ≡ first_head params.now members block.now }
{
    Head {
        version: block.version,
        number: block.number,
        hash: *hash,
        issuer: block.issuer,
        time: block.time,
        median_time: block.time,
        frame: 1,
        frame_var: 0,
        issuers: 0,
        pow_min: block.pow_min,
        diff_number: params.dt_diff_eval,
        members,
        dividend: params.ud0,
        unit_base: 0,
        mass: 0,
        mass_reeval: 0,
        ud_time: params.ud_time0,
        ud_reeval_time: params.ud_reeval_time0,
        ud: None,
        size: size(block),
    }
}

// The values at a block behind others, with no dividend and the money of the head before.
fn without_dividend(
    heads: &Heads,
    before: &Head,
    params: &Params,
    block: &Block,
    hash: &Hash,
    members: u64,
) -> Head
    requires valid { IsInRange params.now }
    requires hash { hash.now ≡ block_hash_of block.now }
    requires over { AreOver heads.now params.now }
    requires before { newest heads.now.list ≡ Some before.now }
    requires bounds { InBounds params.now (length heads.now.list) before.now }
    requires size { size_of block.now < 2 ^ 53 }
    ensures { result ≡ later_without params.now members before.now heads.now.list block.now }
{
    let time = median_time(heads, before, params);
    let issuers = heads.issuers_of_frame();
    Head {
        version: block.version,
        number: block.number,
        hash: *hash,
        issuer: block.issuer,
        time: block.time,
        median_time: time,
        frame: next_frame(before.frame, before.frame_var),
        frame_var: next_var(before.frame_var, before.issuers, issuers),
        issuers,
        pow_min: least_difficulty(heads, before, params),
        diff_number: moved_on(params.dt_diff_eval, before.diff_number, heads.len() as u64),
        members,
        dividend: before.dividend,
        unit_base: before.unit_base,
        mass: before.mass,
        mass_reeval: before.mass_reeval,
        ud_time: moved_on(params.dt, before.ud_time, time),
        ud_reeval_time: moved_on(params.dt_reeval, before.ud_reeval_time, time),
        ud: None,
        size: size(block),
    }
}

// The greater of the median time before and the median of the times of the last blocks.
fn median_time(heads: &Heads, before: &Head, params: &Params) -> u64
    requires over { AreOver heads.now params.now }
    requires before { newest heads.now.list ≡ Some before.now }
    ensures { result ≡ next_median_time params.now before.now heads.now.list }
{
    match heads.median() {
        Some(median) => before.median_time.max(median),
        None => before.median_time,
    }
}

// The least difficulty of the next block.
pub(crate) fn least_difficulty(heads: &Heads, before: &Head, params: &Params) -> u64
    requires valid { IsInRange params.now }
    requires over { AreOver heads.now params.now }
    requires before { newest heads.now.list ≡ Some before.now }
    requires bounds { InBounds params.now (length heads.now.list) before.now }
    ensures { result ≡ next_least_difficulty params.now before.now heads.now.list }
{
    let number = heads.len() as u64;
    let range = params.dt_diff_eval.min(number);
    let elapsed = elapsed_over(heads, before, range, median_time(heads, before, params));
    next_pow_min(
        before.pow_min,
        before.diff_number <= number,
        range,
        elapsed,
        params,
    )
}

// By how much the median time went on since the block so many blocks back.
fn elapsed_over(heads: &Heads, before: &Head, range: u64, time: u64) -> u64
    requires { 1 ≤ range }
    ensures { result ≡ elapsed_over range time before.now heads.now.list }
{
    match heads.before(range - 1) {
        Some(head) => time.saturating_sub(head.median_time),
        None => time.saturating_sub(before.median_time),
    }
}

// A number or a time that has been reached moves on by one step.
fn moved_on(step: u64, previous: u64, reached: u64) -> u64
    requires short { step < 2 ^ 40 }
    requires low { previous < 2 ^ 42 }
    ensures { result ≡ moved_on step previous reached }
{
    if previous <= reached {
        previous + step
    } else {
        previous
    }
}
