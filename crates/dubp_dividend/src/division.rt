ghost use Rattle.std.specs.Prelude.{◌≡◌, ◌^◌, ◌≤◌};
ghost use Rattle.std.specs.Int.{div_ceil};

// `n` / 10^`exponent`, rounded up. The power may be past 128 bits.
pub(crate) fn div_ceil_by_power(n: u128, exponent: u8) -> u128
    ensures value { result ≡ div_ceil n (10 ^ exponent) }
    ensures small { result ≤ n }
{
    match 10u128.checked_pow(exponent as u32) {
        Some(power) => n.div_ceil(power),
        None => n.min(1),
    }
}
