ghost use Rattle.std.specs.Prelude.{◌≡◌, ◌+◌, ◌^◌, ◌<◌, ◌≤◌};
ghost use Rattle.dubp_params.specs.Ranges.{IsAtMostOne};
ghost use Rattle.dubp_pow.specs.Difficulty.{IsHandicap, handicap_of, issuer_diff_of, exclusion_factor, past_fifteen};

use crate::table::ladder;
use dubp_params::Dec;

/// The greatest handicap.
const GREATEST_HANDICAP: usize = 64;

/// One, in the millionths of the table and twice, since the median is doubled.
const DOUBLED_MILLION: u128 = 2_000_000;

/// By how much the difficulty of an issuer rises who has `blocks` blocks in the frame.
///
/// `doubled_median` is the doubled median of the blocks of an issuer there. Both are below 2^54. It takes no memory.
pub fn handicap(blocks: u64, doubled_median: u64) -> u64
    requires few { blocks < 2 ^ 54 }
    requires small { doubled_median < 2 ^ 54 }
    ensures greatest { IsHandicap blocks doubled_median result }
    ensures value { result ≡ handicap_of blocks doubled_median }
    ensures at_most { result ≤ 64 }
{
    greatest_reached(blocks, doubled_median)
}

fn greatest_reached(blocks: u64, doubled_median: u64) -> u64
    requires few { blocks < 2 ^ 54 }
    requires small { doubled_median < 2 ^ 54 }
    ensures { IsHandicap blocks doubled_median result }
{
    let ladder = ladder();
    let reach = (blocks as u128 + 1) * DOUBLED_MILLION;
    for h in 1..GREATEST_HANDICAP + 1 {
        if reach < ladder.at(h) as u128 * doubled_median as u128 {
            return h as u64 - 1;
        }
    }
    GREATEST_HANDICAP as u64
}

/// The difficulty of one issuer for the next block.
///
/// `previous_issuers` is the number of issuers at the last block of this one, and `since` the number of blocks behind it. Both
/// are 0 where the issuer has no block, and below 2^54. `rot` is at most 1. It takes no memory.
pub fn issuer_diff(pow_min: u64, rot: Dec, previous_issuers: u64, since: u64, handicap: u64) -> u128
    requires at_most_one { IsAtMostOne rot }
    requires few_issuers { previous_issuers < 2 ^ 54 }
    requires few_blocks { since < 2 ^ 54 }
    ensures { result ≡ issuer_diff_of pow_min rot previous_issuers since handicap }
{
    let pow_min = pow_min as u128;
    let excluding = pow_min * exclusion_factor(rot, previous_issuers, since) as u128;
    past_fifteen(pow_min.max(excluding)) + handicap as u128
}

fn exclusion_factor(rot: Dec, issuers: u64, since: u64) -> u64
    requires at_most_one { IsAtMostOne rot }
    requires few_issuers { issuers < 2 ^ 54 }
    requires few_blocks { since < 2 ^ 54 }
    ensures value { result ≡ exclusion_factor rot issuers since }
    ensures small { result ≤ issuers }
{
    let weighed = rot.mantissa as u128 * issuers as u128;
    match 10u128.checked_pow(rot.places as u32) {
        Some(one) => (weighed / one / (1 + since as u128)) as u64,
        None => 0,
    }
}

fn past_fifteen(difficulty: u128) -> u128
    requires { difficulty < 2 ^ 120 }
    ensures value { result ≡ past_fifteen difficulty }
    ensures near { result ≤ difficulty + 1 }
{
    if (difficulty + 1) % 16 == 0 {
        difficulty + 1
    } else {
        difficulty
    }
}
