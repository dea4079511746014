ghost use Rattle.std.specs.Prelude.{◌≡◌, ◌*◌, ◌^◌, ◌<◌, ◌≤◌, IsTrue, Some, None, IfOk, IfErr, IfSome, nat_le, if◌then◌else◌};
ghost use Rattle.dubp_params.specs.Ranges.{IsInRange};
ghost use Rattle.dubp_dividend.specs.Reevaluation.{numerator};
ghost use Rattle.dubp_rules.specs.First.{FirstOf};
ghost use Rattle.dubp_chain.specs.Heads.{units, paid_units};
ghost use Rattle.dubp_head.specs.Bounds.{MoneyInBounds};
ghost use Rattle.dubp_head.specs.Following.{limit_rules};
ghost use Rattle.dubp_head.specs.Money.{amount_at, paid_at, mass_at, money_at, with_money, MoneyHolds};

use dubp_chain::Head;
use dubp_dividend::{Dividend, Limit, next_dividend};
use dubp_params::Params;
use dubp_rules::Rule;

/// A mass stays below this.
const MASS_LIMIT: u128 = 1 << 100;

/// The money at a block, as the fields of its head of the same names.
#[derive(Clone, Copy, Debug)]
pub(crate) struct Money {
    pub dividend: u64,
    pub unit_base: u8,
    pub mass: u128,
    pub mass_reeval: u128,
    pub ud: Option<u64>,
}

/// The money at a block behind the head `before`, where the median time is `time`, or the first limit that it passes.
pub(crate) fn money_at(
    before: &Head,
    params: &Params,
    time: u64,
    members: u64,
) -> Result<Money, Rule>
    requires valid { IsInRange params.now }
    requires few { members < 2 ^ 21 }
    requires bounds { MoneyInBounds before.now }
    ensures value { IfOk result (λ money. money ≡ money_at params.now members before.now time) }
    ensures kept { IfOk result (λ _. FirstOf (MoneyHolds params.now members before.now time) limit_rules None) }
    ensures passed { IfErr result (λ rule. FirstOf (MoneyHolds params.now members before.now time) limit_rules (Some rule)) }
{
    let amount = amount_at(before, params, time, members)?;
    let ud = paid_at(before, amount.amount, time);
    let mass = before.mass + paid_units(ud, amount.base, members);
    if mass >= MASS_LIMIT {
        return Err(Rule::X08);
    }
    Ok(Money {
        dividend: amount.amount,
        unit_base: amount.base,
        mass,
        mass_reeval: mass_reeval_at(before, time),
        ud,
    })
}

// The dividend and its base: those before, unless the time of the next re-evaluation has been reached.
fn amount_at(before: &Head, params: &Params, time: u64, members: u64) -> Result<Dividend, Rule>
    requires valid { IsInRange params.now }
    requires few { members < 2 ^ 21 }
    requires bounds { MoneyInBounds before.now }
    ensures value { IfOk result (λ amount. amount ≡ amount_at params.now members before.now time) }
    ensures fits { IfOk result (λ _. IsTrue (nat_le before.now.ud_reeval_time time) → numerator before.now.unit_base before.now.mass_reeval members params.now < 2 ^ 127) }
    ensures limits { IfOk result (λ amount. (amount.base ≤ 15) × (amount.amount < 2 ^ 53)) }
    ensures passed { IfErr result (λ rule. FirstOf (MoneyHolds params.now members before.now time) limit_rules (Some rule)) }
{
    let previous = Dividend {
        amount: before.dividend,
        base: before.unit_base,
    };
    if time < before.ud_reeval_time {
        return Ok(previous);
    }
    match next_dividend(previous, before.mass_reeval, members, params) {
        Ok(next) => Ok(next),
        Err(Limit::X03) => Err(Rule::X03),
        Err(Limit::X04) => Err(Rule::X04),
        Err(Limit::X08) => Err(Rule::X08),
    }
}

// The new dividend, where the time of the next one has been reached.
fn paid_at(before: &Head, amount: u64, time: u64) -> Option<u64>
    ensures { result ≡ (if nat_le before.now.ud_time time then Some amount else None) }
{
    if before.ud_time <= time {
        Some(amount)
    } else {
        None
    }
}

// The mass at the last re-evaluation.
fn mass_reeval_at(before: &Head, time: u64) -> u128
    ensures { result ≡ (if nat_le before.now.ud_reeval_time time then before.now.mass else before.now.mass_reeval) }
{
    if before.ud_reeval_time <= time {
        before.mass
    } else {
        before.mass_reeval
    }
}

// The units that a dividend gives to so many members.
fn paid_units(paid: Option<u64>, base: u8, members: u64) -> u128
    requires small { IfSome paid (λ amount. amount < 2 ^ 53) }
    requires low { base ≤ 15 }
    requires few { members < 2 ^ 21 }
    ensures value { result ≡ paid_units paid base members }
    ensures small { result < 2 ^ 124 }
{
    match paid {
        Some(amount) => units(amount, base) * members as u128,
        None => 0,
    }
}

fn units(amount: u64, base: u8) -> u128
    requires small { amount < 2 ^ 53 }
    requires low { base ≤ 15 }
    ensures value { result ≡ units amount base }
    ensures small { result < 2 ^ 103 }
{
    amount as u128 * 10u128.pow(base as u32)
}

/// The head with this money.
pub(crate) fn with_money(head: Head, money: Money) -> Head
    ensures { result ≡ with_money head money }
{
    Head {
        dividend: money.dividend,
        unit_base: money.unit_base,
        mass: money.mass,
        mass_reeval: money.mass_reeval,
        ud: money.ud,
        ..head
    }
}
