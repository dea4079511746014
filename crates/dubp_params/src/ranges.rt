ghost use Rattle.std.specs.Prelude.{◌≡◌, ◌^◌, ◌≤◌, ◌<◌, ◌↔◌, IsTrue};
ghost use Rattle.dubp_params.specs.Ranges.{IsAtMostOne, IsBetween, IsSpan, IsTime, IsInRange, greatest_gen_time, least_gen_time, greatest_acceleration};

use crate::params::Params;
use dubp_atoms::Dec;

/// Times stay below this number of seconds.
const TIME_LIMIT: u64 = 1 << 40;

/// Whether a currency may have these parameters: the part of rule `X02` on parameters. It takes no memory.
pub fn in_range(params: &Params) -> bool
    ensures { IsTrue result ↔ IsInRange params.now }
{
    first_in_range(params)
        && second_in_range(params)
        && third_in_range(params)
        && last_in_range(params)
}

fn first_in_range(params: &Params) -> bool
    ensures { IsTrue result ↔ (IsAtMostOne params.now.c × IsSpan params.now.dt × IsSpan params.now.ud0 × IsTime params.now.sig_period × IsBetween 1 65536 params.now.sig_stock) }
{
    is_at_most_one(&params.c)
        && is_span(params.dt)
        && is_span(params.ud0)
        && params.sig_period < TIME_LIMIT
        && is_between(1, 65_536, params.sig_stock)
}

fn second_in_range(params: &Params) -> bool
    ensures { IsTrue result ↔ (IsSpan params.now.sig_window × IsSpan params.now.sig_validity × (params.now.sig_qty ≤ 65536) × IsSpan params.now.idty_window × IsSpan params.now.ms_window) }
{
    is_span(params.sig_window)
        && is_span(params.sig_validity)
        && params.sig_qty <= 65_536
        && is_span(params.idty_window)
        && is_span(params.ms_window)
}

fn third_in_range(params: &Params) -> bool
    ensures { IsTrue result ↔ (IsAtMostOne params.now.xpercent × IsSpan params.now.ms_validity × IsBetween 1 16 params.now.step_max × IsBetween 1 10000 params.now.median_time_blocks × IsBetween 2 (2 ^ 20) params.now.avg_gen_time) }
{
    is_at_most_one(&params.xpercent)
        && is_span(params.ms_validity)
        && is_between(1, 16, params.step_max)
        && is_between(1, 10_000, params.median_time_blocks)
        && is_between(2, 1 << 20, params.avg_gen_time)
}

fn last_in_range(params: &Params) -> bool
    ensures { IsTrue result ↔ (IsBetween 1 10000 params.now.dt_diff_eval × IsAtMostOne params.now.percent_rot × IsTime params.now.ud_time0 × IsTime params.now.ud_reeval_time0 × IsSpan params.now.dt_reeval) }
{
    is_between(1, 10_000, params.dt_diff_eval)
        && is_at_most_one(&params.percent_rot)
        && params.ud_time0 < TIME_LIMIT
        && params.ud_reeval_time0 < TIME_LIMIT
        && is_span(params.dt_reeval)
}

fn is_at_most_one(dec: &Dec) -> bool
    ensures { IsTrue result ↔ IsAtMostOne dec.now }
{
    let mantissa = dec.mantissa;
    match 10u64.checked_pow(dec.places as u32) {
        Some(one) => mantissa <= one,
        None => true,
    }
}

fn is_span(seconds: u64) -> bool
    ensures { IsTrue result ↔ IsSpan seconds }
{
    1 <= seconds && seconds < TIME_LIMIT
}

fn is_between(low: u64, high: u64, n: u64) -> bool
    ensures { IsTrue result ↔ IsBetween low high n }
{
    low <= n && n <= high
}

/// The greatest seconds between blocks that the difficulty bears: avgGenTime × 1.189, rounded up. It takes no memory.
pub fn max_gen_time(params: &Params) -> u64
    requires { IsInRange params.now }
    ensures value { result ≡ greatest_gen_time params.now }
    ensures small { result < 2 ^ 21 }
{
    (params.avg_gen_time * 1189).div_ceil(1000)
}

/// The least seconds between blocks that the difficulty bears: avgGenTime / 1.189, rounded down. It takes no memory.
pub fn min_gen_time(params: &Params) -> u64
    requires { IsInRange params.now }
    ensures value { result ≡ least_gen_time params.now }
    ensures small { result < 2 ^ 20 }
{
    params.avg_gen_time * 1000 / 1189
}

/// How many seconds the time of a block may be ahead of its median time. It takes no memory.
pub fn max_acceleration(params: &Params) -> u64
    requires { IsInRange params.now }
    ensures value { result ≡ greatest_acceleration params.now }
    ensures small { result < 2 ^ 35 }
{
    max_gen_time(params) * params.median_time_blocks
}
