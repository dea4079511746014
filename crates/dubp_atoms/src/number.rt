ghost use Rattle.std.specs.Prelude.{◌≡◌, ℕ, ℤ, ◌+◌, ◌^◌, ◌<◌, ◌≤◌, ◌++◌, length, IfSome, Some, decimal};
ghost use Rattle.std.specs.Fmt.{signed_decimal};
ghost use Rattle.arrayvec.specs.ArrayVec.{array_vec_len};
ghost use Rattle.dubp_atoms.specs.Reading.{digits_from, number_of, signed_of};
ghost use Rattle.dubp_atoms.specs.Spelling.{IsNumber, IsSigned};

use crate::line::{Line, put_bytes};
use itoa::Buffer;

/// The number whose decimal text this is. None exactly where the text is no number from 0 to 2^53 − 1, or has a needless 0.
pub fn read_number(text: &[u8]) -> Option<u64>
    ensures found { IfSome result (λ n. IsNumber n × (text.now ≡ decimal n)) }
    ensures only { (n : ℕ) → IsNumber n → text.now ≡ decimal n → result ≡ Some n }
    ensures exact { result ≡ number_of text.now }
{
    number(text)
}

#[tactic(auto, unfolding(crate::specs::Reading::number_of))]
fn number(text: &[u8]) -> Option<u64>
    ensures { result ≡ number_of text.now }
{
    if text.is_empty() || text.len() > 16 {
        return None;
    }
    if text[0] == b'0' && text.len() != 1 {
        return None;
    }
    let n = digits(text)?;
    if n < 1 << 53 { Some(n) } else { None }
}

fn digits(text: &[u8]) -> Option<u64>
    requires { length text.now ≤ 16 }
    ensures { result ≡ digits_from 0 text.now }
{
    let mut value = 0u64;
    for c in text {
        if !c.is_ascii_digit() {
            return None;
        }
        value = value * 10 + (*c - b'0') as u64;
    }
    Some(value)
}

/// The signed number whose decimal text this is. None exactly where the text is no number from −(2^53 − 1) to 2^53 − 1, has
/// a needless 0 or a `+`, or is `-0`.
pub fn read_signed(text: &[u8]) -> Option<i64>
    ensures found { IfSome result (λ n. IsSigned n × (text.now ≡ signed_decimal n)) }
    ensures only { (n : ℤ) → IsSigned n → text.now ≡ signed_decimal n → result ≡ Some n }
    ensures exact { result ≡ signed_of text.now }
{
    signed(text)
}

#[tactic(auto, unfolding(crate::specs::Reading::signed_of))]
fn signed(text: &[u8]) -> Option<i64>
    ensures { result ≡ signed_of text.now }
{
    match text.strip_prefix(b"-") {
        None => {
            let n = read_number(text)?;
            Some(n as i64)
        }
        Some(rest) => {
            let n = read_number(rest)?;
            if n == 0 { None } else { Some(-(n as i64)) }
        }
    }
}

/// Appends the decimal text. `out` has 40 free places. It takes no memory.
pub fn put_number(n: u128, out: &mut Line)
    requires { array_vec_len out.old + 40 ≤ 2048 }
    ensures text { out.new.items ≡ out.old.items ++ decimal n }
    ensures room { array_vec_len out.new ≤ array_vec_len out.old + 40 }
    ensures short { n < 2 ^ 53 → array_vec_len out.new ≤ array_vec_len out.old + 16 }
{
    let mut buffer = Buffer::new();
    put_bytes(out, buffer.format(n).as_bytes());
}

/// Appends the decimal text. `out` has 40 free places. It takes no memory.
pub fn put_signed(n: i64, out: &mut Line)
    requires { array_vec_len out.old + 40 ≤ 2048 }
    ensures text { out.new.items ≡ out.old.items ++ signed_decimal n }
    ensures room { array_vec_len out.new ≤ array_vec_len out.old + 40 }
{
    let mut buffer = Buffer::new();
    put_bytes(out, buffer.format(n).as_bytes());
}
