ghost use Rattle.std.specs.Prelude.{◌≡◌, ◌+◌, ◌≤◌, ◌++◌, ◌∷◌, [], decimal};
ghost use Rattle.arrayvec.specs.ArrayVec.{array_vec_len};
ghost use Rattle.dubp_atoms.specs.Letters.{COLON};
ghost use Rattle.dubp_atoms.specs.Spelling.{IsDec, IsNumber, dec_text};
ghost use Rattle.dubp_params.specs.Spelling.{IsParams, params_text};

use crate::params::Params;
use dubp_atoms::{Dec, Line, put_bytes, put_number};

/// Appends the text. The values have texts, and `out` has 400 free places. It takes no memory.
pub fn put_params(params: &Params, out: &mut Line)
    requires room { array_vec_len out.old + 400 ≤ 2048 }
    requires valid { IsParams params.now }
    ensures text { out.new.items ≡ out.old.items ++ params_text params.now }
    ensures room { array_vec_len out.new ≤ array_vec_len out.old + 400 }
{
    put_first_five(params, out);
    put_second_five(params, out);
    put_third_five(params, out);
    put_last_five(params, out);
}

fn put_first_five(params: &Params, out: &mut Line)
    requires room { array_vec_len out.old + 155 ≤ 2048 }
    requires valid { IsParams params.now }
    ensures text { out.new.items ≡ out.old.items ++ (dec_text params.now.c ++ COLON ∷ (decimal params.now.dt ++ COLON ∷ (decimal params.now.ud0 ++ COLON ∷ (decimal params.now.sig_period ++ COLON ∷ (decimal params.now.sig_stock ++ COLON ∷ ([])))))) }
    ensures room { array_vec_len out.new ≤ array_vec_len out.old + 95 }
{
    put_dec_field(&params.c, out);
    put_number_field(params.dt, out);
    put_number_field(params.ud0, out);
    put_number_field(params.sig_period, out);
    put_number_field(params.sig_stock, out);
}

fn put_second_five(params: &Params, out: &mut Line)
    requires room { array_vec_len out.old + 145 ≤ 2048 }
    requires valid { IsParams params.now }
    ensures text { out.new.items ≡ out.old.items ++ (decimal params.now.sig_window ++ COLON ∷ (decimal params.now.sig_validity ++ COLON ∷ (decimal params.now.sig_qty ++ COLON ∷ (decimal params.now.idty_window ++ COLON ∷ (decimal params.now.ms_window ++ COLON ∷ ([])))))) }
    ensures room { array_vec_len out.new ≤ array_vec_len out.old + 85 }
{
    put_number_field(params.sig_window, out);
    put_number_field(params.sig_validity, out);
    put_number_field(params.sig_qty, out);
    put_number_field(params.idty_window, out);
    put_number_field(params.ms_window, out);
}

fn put_third_five(params: &Params, out: &mut Line)
    requires room { array_vec_len out.old + 155 ≤ 2048 }
    requires valid { IsParams params.now }
    ensures text { out.new.items ≡ out.old.items ++ (dec_text params.now.xpercent ++ COLON ∷ (decimal params.now.ms_validity ++ COLON ∷ (decimal params.now.step_max ++ COLON ∷ (decimal params.now.median_time_blocks ++ COLON ∷ (decimal params.now.avg_gen_time ++ COLON ∷ ([])))))) }
    ensures room { array_vec_len out.new ≤ array_vec_len out.old + 95 }
{
    put_dec_field(&params.xpercent, out);
    put_number_field(params.ms_validity, out);
    put_number_field(params.step_max, out);
    put_number_field(params.median_time_blocks, out);
    put_number_field(params.avg_gen_time, out);
}

fn put_last_five(params: &Params, out: &mut Line)
    requires room { array_vec_len out.old + 118 ≤ 2048 }
    requires valid { IsParams params.now }
    ensures text { out.new.items ≡ out.old.items ++ (decimal params.now.dt_diff_eval ++ COLON ∷ (dec_text params.now.percent_rot ++ COLON ∷ (decimal params.now.ud_time0 ++ COLON ∷ (decimal params.now.ud_reeval_time0 ++ COLON ∷ (decimal params.now.dt_reeval))))) }
    ensures room { array_vec_len out.new ≤ array_vec_len out.old + 94 }
{
    put_number_field(params.dt_diff_eval, out);
    put_dec_field(&params.percent_rot, out);
    put_number_field(params.ud_time0, out);
    put_number_field(params.ud_reeval_time0, out);
    put_number(params.dt_reeval as u128, out);
}

// A number and `:`.
fn put_number_field(n: u64, out: &mut Line)
    requires room { array_vec_len out.old + 41 ≤ 2048 }
    requires valid { IsNumber n }
    ensures text { out.new.items ≡ out.old.items ++ (decimal n ++ COLON ∷ []) }
    ensures room { array_vec_len out.new ≤ array_vec_len out.old + 17 }
{
    put_number(n as u128, out);
    put_bytes(out, b":");
}

// A decimal number and `:`.
fn put_dec_field(dec: &Dec, out: &mut Line)
    requires room { array_vec_len out.old + 61 ≤ 2048 }
    requires valid { IsDec dec.now }
    ensures text { out.new.items ≡ out.old.items ++ (dec_text dec.now ++ COLON ∷ []) }
    ensures room { array_vec_len out.new ≤ array_vec_len out.old + 27 }
{
    dec.put(out);
    put_bytes(out, b":");
}
