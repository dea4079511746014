ghost use Rattle.dubp_params.specs.Ranges.{IsInRange};

use dubp_atoms::{Dec, Line};
use dubp_dividend::{Dividend, Limit, next_dividend};
use dubp_params::{
    Params, in_range, max_acceleration, max_gen_time, min_gen_time, put_params, read_params,
};
use dubp_pow::next_pow_min;

/// Those of a running currency.
const RUNNING: &[u8] =
    b"0.0488:86400:1000:432000:100:5259600:63115200:5:5259600:5259600:0.8:31557600:5:24:300:12:0.67:1488970800:1490094000:15778800";

/// Such that the numerator of the next dividend is the mass in the previous base.
const PLAIN: &[u8] =
    b"1:1:1000:432000:100:5259600:63115200:5:5259600:5259600:0.8:31557600:5:24:300:12:0.67:1488970800:1490094000:1099511627775";

/// Such that this numerator is past its limit.
const GREATEST: &[u8] =
    b"1.000000000:1099511627775:1000:432000:100:5259600:63115200:5:5259600:5259600:0.8:31557600:5:24:300:12:0.67:1488970800:1490094000:15778800";

/// Those of a quick currency, in which ten blocks are a range.
const QUICK: &[u8] =
    b"0.1:100:1000:50:20:1000:5000:1:1000:1000:0.5:2000:3:5:60:10:0.67:1100:1500:1000";

const GROWTH: Dec = Dec {
    mantissa: 488,
    places: 4,
};

const PERCENT_ROT: Dec = Dec {
    mantissa: 67,
    places: 2,
};

// What is read of the first two fields, of the share of issuers and of the last.
fn fields_are_read(params: &Params) -> bool {
    params.c == GROWTH
        && params.dt == 86_400
        && params.percent_rot == PERCENT_ROT
        && params.dt_reeval == 15_778_800
}

// Whether the text is that of parameters, which are written as it.
fn is_read_and_written(text: &[u8]) -> bool {
    let Some(params) = read_params(text) else {
        return false;
    };
    let mut line = Line::new();
    put_params(&params, &mut line);
    fields_are_read(&params) && line.as_slice() == text
}

#[test]
fn reads_and_writes_twenty_fields(rt: HostRuntime) {
    assert!(rt; is_read_and_written(RUNNING));
}

/// What follows from parameters.
enum Fact {
    /// The greatest and the least time between blocks, and the greatest acceleration.
    Times(u64, u64, u64),
    /// The least difficulty, whether it may move, the time that a range of ten blocks took, and the next least difficulty.
    PowMin(u32, bool, u64, u64),
    /// The dividend and its base, the mass, the members, and the next dividend and its base or the limit that is passed.
    Dividend(u64, u8, u128, u16, Result<(u64, u8), Limit>),
}

const FACTS: [(&[u8], Fact); 20] = [
    (RUNNING, Fact::Times(357, 252, 8568)),
    (QUICK, Fact::PowMin(14, true, 500, 16)),
    (QUICK, Fact::PowMin(16, true, 720, 14)),
    (QUICK, Fact::PowMin(0, true, 720, 0)),
    (QUICK, Fact::PowMin(5, true, 600, 5)),
    (QUICK, Fact::PowMin(5, true, 0, 6)),
    (QUICK, Fact::PowMin(14, false, 500, 14)),
    (
        RUNNING,
        Fact::Dividend(1000, 0, 1_000_000, 10, Ok((1002, 0))),
    ),
    (
        RUNNING,
        Fact::Dividend(1000, 0, 1_000_000, 0, Ok((1000, 0))),
    ),
    (RUNNING, Fact::Dividend(9999, 0, 0, 10, Ok((9999, 0)))),
    (RUNNING, Fact::Dividend(10_000, 0, 0, 10, Ok((1000, 1)))),
    (RUNNING, Fact::Dividend(10_001, 0, 0, 10, Ok((1001, 1)))),
    (RUNNING, Fact::Dividend(10_000, 15, 0, 10, Err(Limit::X04))),
    (RUNNING, Fact::Dividend(10_000, 14, 0, 0, Ok((1000, 15)))),
    (RUNNING, Fact::Dividend(u64::MAX, 3, 0, 1, Err(Limit::X08))),
    (RUNNING, Fact::Dividend(u64::MAX, 15, 0, 1, Err(Limit::X04))),
    (
        PLAIN,
        Fact::Dividend(1000, 0, (1 << 127) - 1, 1, Err(Limit::X08)),
    ),
    (PLAIN, Fact::Dividend(1000, 0, 1 << 127, 1, Err(Limit::X03))),
    (
        PLAIN,
        Fact::Dividend(1000, 0, u128::MAX, 1, Err(Limit::X03)),
    ),
    (
        GREATEST,
        Fact::Dividend(9999, 15, u128::MAX, 1, Err(Limit::X03)),
    ),
];

/// The next dividend and its base, or the limit that is passed. None where there is no such base.
fn next(
    amount: u64,
    base: u8,
    mass: u128,
    members: u16,
    params: &Params,
) -> Option<Result<(u64, u8), Limit>>
    requires { IsInRange params.now }
{
    if base > 15 {
        return None;
    }
    match next_dividend(Dividend { amount, base }, mass, u64::from(members), params) {
        Ok(next) => Some(Ok((next.amount, next.base))),
        Err(limit) => Some(Err(limit)),
    }
}

fn follows(fact: &Fact, params: &Params) -> bool
    requires { IsInRange params.now }
{
    match fact {
        Fact::Times(greatest, least, acceleration) => {
            max_gen_time(params) == *greatest
                && min_gen_time(params) == *least
                && max_acceleration(params) == *acceleration
        }
        Fact::PowMin(prev, moved, elapsed, next) => {
            next_pow_min(u64::from(*prev), *moved, 10, *elapsed, params) == *next
        }
        Fact::Dividend(amount, base, mass, members, found) => {
            next(*amount, *base, *mass, *members, params) == Some(*found)
        }
    }
}

/// Whether the text is that of parameters in range, from which this follows.
fn is_so(text: &[u8], fact: &Fact) -> bool {
    let Some(params) = read_params(text) else {
        return false;
    };
    in_range(&params) && follows(fact, &params)
}

#[test]
fn times_difficulties_and_dividends_follow(rt: HostRuntime) {
    for (text, fact) in &FACTS {
        assert!(rt; is_so(text, fact));
    }
}
