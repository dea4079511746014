ghost use Rattle.std.specs.Prelude.{◌≡◌, IfSome, Some, option_map};
ghost use Rattle.dubp_atoms.specs.Reading.{dec_of, number_of};
ghost use Rattle.dubp_params.specs.Reading.{field_at, first_at, second_at, third_at, last_at, params_of};
ghost use Rattle.dubp_params.specs.Spelling.{IsParams, params_text};
ghost use Rattle.dubp_params.specs.declared.params.Params.{Params as ParamsValue};

use crate::params::Params;
use dubp_atoms::{Dec, cut, read_number};

/// The parameters that this text is. None exactly where it is the text of none; their ranges are no part of it. It takes no
/// memory.
pub fn read_params(text: &[u8]) -> Option<Params>
    ensures found { IfSome result (λ p. IsParams p × (text.now ≡ params_text p)) }
    ensures only { (p : ParamsValue) → IsParams p → text.now ≡ params_text p → result ≡ Some p }
    ensures exact { result ≡ params_of text.now }
{
    fields(text)
}

#[tactic(auto, unfolding(crate::specs::Reading::params_of))]
fn fields(text: &[u8]) -> Option<Params>
    ensures { result ≡ params_of text.now }
{
    let (first, rest) = first_five(text)?;
    let (second, rest) = second_five(rest)?;
    let (third, rest) = third_five(rest)?;
    let last = last_five(rest)?;
    Some(Params {
        c: first.c,
        dt: first.dt,
        ud0: first.ud0,
        sig_period: first.sig_period,
        sig_stock: first.sig_stock,
        sig_window: second.sig_window,
        sig_validity: second.sig_validity,
        sig_qty: second.sig_qty,
        idty_window: second.idty_window,
        ms_window: second.ms_window,
        xpercent: third.xpercent,
        ms_validity: third.ms_validity,
        step_max: third.step_max,
        median_time_blocks: third.median_time_blocks,
        avg_gen_time: third.avg_gen_time,
        dt_diff_eval: last.dt_diff_eval,
        percent_rot: last.percent_rot,
        ud_time0: last.ud_time0,
        ud_reeval_time0: last.ud_reeval_time0,
        dt_reeval: last.dt_reeval,
    })
}

fn number_field(text: &[u8]) -> Option<(u64, &[u8])>
    ensures { option_map (λ p. (p.0, p.1.now)) result ≡ field_at number_of text.now }
{
    let (front, rest) = cut(text, b':')?;
    let number = read_number(front)?;
    Some((number, rest))
}

fn dec_field(text: &[u8]) -> Option<(Dec, &[u8])>
    ensures { option_map (λ p. (p.0, p.1.now)) result ≡ field_at dec_of text.now }
{
    let (front, rest) = cut(text, b':')?;
    let dec = Dec::read(front)?;
    Some((dec, rest))
}

#[derive(Clone, Copy)]
struct FirstFive {
    c: Dec,
    dt: u64,
    ud0: u64,
    sig_period: u64,
    sig_stock: u64,
}

#[tactic(auto, unfolding(crate::specs::Reading::first_at))]
fn first_five(text: &[u8]) -> Option<(FirstFive, &[u8])>
    ensures { option_map (λ p. (p.0, p.1.now)) result ≡ first_at text.now }
{
    let (c, rest) = dec_field(text)?;
    let (dt, rest) = number_field(rest)?;
    let (ud0, rest) = number_field(rest)?;
    let (sig_period, rest) = number_field(rest)?;
    let (sig_stock, rest) = number_field(rest)?;
    let first = FirstFive {
        c,
        dt,
        ud0,
        sig_period,
        sig_stock,
    };
    Some((first, rest))
}

#[derive(Clone, Copy)]
struct SecondFive {
    sig_window: u64,
    sig_validity: u64,
    sig_qty: u64,
    idty_window: u64,
    ms_window: u64,
}

#[tactic(auto, unfolding(crate::specs::Reading::second_at))]
fn second_five(text: &[u8]) -> Option<(SecondFive, &[u8])>
    ensures { option_map (λ p. (p.0, p.1.now)) result ≡ second_at text.now }
{
    let (sig_window, rest) = number_field(text)?;
    let (sig_validity, rest) = number_field(rest)?;
    let (sig_qty, rest) = number_field(rest)?;
    let (idty_window, rest) = number_field(rest)?;
    let (ms_window, rest) = number_field(rest)?;
    let second = SecondFive {
        sig_window,
        sig_validity,
        sig_qty,
        idty_window,
        ms_window,
    };
    Some((second, rest))
}

#[derive(Clone, Copy)]
struct ThirdFive {
    xpercent: Dec,
    ms_validity: u64,
    step_max: u64,
    median_time_blocks: u64,
    avg_gen_time: u64,
}

#[tactic(auto, unfolding(crate::specs::Reading::third_at))]
fn third_five(text: &[u8]) -> Option<(ThirdFive, &[u8])>
    ensures { option_map (λ p. (p.0, p.1.now)) result ≡ third_at text.now }
{
    let (xpercent, rest) = dec_field(text)?;
    let (ms_validity, rest) = number_field(rest)?;
    let (step_max, rest) = number_field(rest)?;
    let (median_time_blocks, rest) = number_field(rest)?;
    let (avg_gen_time, rest) = number_field(rest)?;
    let third = ThirdFive {
        xpercent,
        ms_validity,
        step_max,
        median_time_blocks,
        avg_gen_time,
    };
    Some((third, rest))
}

#[derive(Clone, Copy)]
struct LastFive {
    dt_diff_eval: u64,
    percent_rot: Dec,
    ud_time0: u64,
    ud_reeval_time0: u64,
    dt_reeval: u64,
}

#[tactic(auto, unfolding(crate::specs::Reading::last_at))]
fn last_five(text: &[u8]) -> Option<LastFive>
    ensures { result ≡ last_at text.now }
{
    let (dt_diff_eval, rest) = number_field(text)?;
    let (percent_rot, rest) = dec_field(rest)?;
    let (ud_time0, rest) = number_field(rest)?;
    let (ud_reeval_time0, rest) = number_field(rest)?;
    let dt_reeval = read_number(rest)?;
    Some(LastFive {
        dt_diff_eval,
        percent_rot,
        ud_time0,
        ud_reeval_time0,
        dt_reeval,
    })
}
