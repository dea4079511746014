ghost use Rattle.std.specs.Prelude.{◌≡◌, ◌+◌, ◌*◌, ◌^◌, ◌<◌, ◌≤◌, ◌↔◌, SomeIff, IfOk, Err};
ghost use Rattle.std.specs.Int.{div_ceil};
ghost use Rattle.dubp_params.specs.Ranges.{IsInRange};
ghost use Rattle.dubp_dividend.specs.Reevaluation.{numerator, denominator, next_in_base, rebased, within_limits, next_dividend_of};

use crate::dividends::{Dividend, Limit};
use crate::division::div_ceil_by_power;
use dubp_params::Params;

/// A numerator stays below this.
const NUMERATOR_LIMIT: u128 = 1 << 127;

/// An amount from here on is divided by ten, and its base rises.
const REBASED_FROM: u128 = 10_000;

/// The greatest base.
const GREATEST_BASE: u8 = 15;

/// An amount stays below this.
const AMOUNT_LIMIT: u128 = 1 << 53;

/// The dividend after a re-evaluation.
///
/// `mass_reeval` is the mass in units at the re-evaluation before, and `members` the number of members, below 2^21. The base of
/// `prev` is at most 15, and the parameters are in range. `X03` comes where the numerator reaches 2^127, else `X04` where the
/// base would pass 15, else `X08` where the amount reaches 2^53. It takes no memory.
pub fn next_dividend(
    prev: Dividend,
    mass_reeval: u128,
    members: u64,
    params: &Params,
) -> Result<Dividend, Limit>
    requires valid { IsInRange params.now }
    requires few { members < 2 ^ 21 }
    requires based { prev.base ≤ 15 }
    ensures exact { result ≡ next_dividend_of prev mass_reeval members params.now }

    // The three refusals in their order, and what comes where there is none.
    ensures x03 { (result ≡ Err Limit.X03) ↔ (2 ^ 127 ≤ numerator prev.base mass_reeval members params.now) }
    ensures x04 { (result ≡ Err Limit.X04) ↔ ((numerator prev.base mass_reeval members params.now < 2 ^ 127) × (15 < (next_in_base prev mass_reeval members params.now).base)) }
    ensures x08 { (result ≡ Err Limit.X08) ↔ ((numerator prev.base mass_reeval members params.now < 2 ^ 127) × ((next_in_base prev mass_reeval members params.now).base ≤ 15) × (2 ^ 53 ≤ (next_in_base prev mass_reeval members params.now).amount)) }
    ensures value { IfOk result (λ next. next ≡ next_in_base prev mass_reeval members params.now) }
    ensures limits { IfOk result (λ next. (next.base ≤ 15) × (next.amount < 2 ^ 53)) }
{
    reevaluated(prev, mass_reeval, members, params)
}

fn reevaluated(
    prev: Dividend,
    mass_reeval: u128,
    members: u64,
    params: &Params,
) -> Result<Dividend, Limit>
    requires valid { IsInRange params.now }
    requires few { members < 2 ^ 21 }
    requires based { prev.base ≤ 15 }
    ensures { result ≡ next_dividend_of prev mass_reeval members params.now }
{
    match numerator(prev.base, mass_reeval, members, params) {
        None => Err(Limit::X03),
        Some(numerator) => {
            let amount = prev.amount as u128 + share(numerator, members, params);
            within_limits(amount, prev.base)
        }
    }
}

// The numerator, where it is below its limit.
fn numerator(base: u8, mass: u128, members: u64, params: &Params) -> Option<u128>
    requires { IsInRange params.now }
    ensures { SomeIff result (numerator base mass members params.now < 2 ^ 127) (numerator base mass members params.now) }
{
    if members == 0 {
        return Some(0);
    }
    let mantissa = params.c.mantissa as u128;
    let mass = div_ceil_by_power(mass, base);
    let product = product_of(mantissa * mantissa, mass, params.dt as u128)?;
    if product < NUMERATOR_LIMIT {
        Some(product)
    } else {
        None
    }
}

// The product, where it is within 128 bits. The last factor is not 0.
fn product_of(first: u128, second: u128, last: u128) -> Option<u128>
    requires { 1 ≤ last }
    ensures { SomeIff result (first * second * last < 2 ^ 128) (first * second * last) }
{
    first.checked_mul(second)?.checked_mul(last)
}

// What the dividend rises by.
fn share(numerator: u128, members: u64, params: &Params) -> u128
    requires valid { IsInRange params.now }
    requires few { members < 2 ^ 21 }
    ensures value { 1 ≤ members → result ≡ div_ceil numerator (denominator members params.now) }
    ensures none { members ≡ 0 → result ≡ 0 }
    ensures small { result ≤ numerator }
{
    if members == 0 {
        return 0;
    }
    let places = params.c.places;
    let scaled = div_ceil_by_power(div_ceil_by_power(numerator, places), places);
    scaled.div_ceil(members as u128 * params.dt_reeval as u128)
}

// The amount in this base or the one above, where it is within its limits.
fn within_limits(amount: u128, base: u8) -> Result<Dividend, Limit>
    requires { base ≤ 15 }
    ensures { result ≡ within_limits (rebased amount base) }
{
    if amount < REBASED_FROM {
        return Ok(Dividend {
            amount: amount as u64,
            base,
        });
    }
    if base == GREATEST_BASE {
        return Err(Limit::X04);
    }
    let tenth = amount.div_ceil(10);
    if tenth >= AMOUNT_LIMIT {
        return Err(Limit::X08);
    }
    Ok(Dividend {
        amount: tenth as u64,
        base: base + 1,
    })
}
