ghost use Rattle.std.specs.Prelude.{◌≡◌, ◌+◌, ◌*◌, ◌^◌, ◌<◌, ◌≤◌, ◌++◌, length, IfSome, Some};
ghost use Rattle.arrayvec.specs.ArrayVec.{array_vec_len};
ghost use Rattle.dubp_atoms.specs.Reading.{digits_from, dec_of, places_of};
ghost use Rattle.dubp_atoms.specs.Spelling.{IsDec, dec_text, last_digits};
ghost use Rattle.dubp_atoms.specs.declared.dec.Dec.{Dec as DecValue};

use crate::cutting::cut;
use crate::line::{Line, put_bytes};
use crate::number::{put_number, read_number};

/// A decimal number of at most nine places: `mantissa` / 10^`places`.
///
/// The mantissa is below 2^53. `1.50` and `1.5` are two values.
#[derive(Clone, Copy, Debug, PartialEq, Eq)]
pub struct Dec {
    pub mantissa: u64,
    pub places: u8,
}

impl Dec {
    /// The decimal number that this text is. None exactly where it is the text of none.
    pub fn read(text: &[u8]) -> Option<Dec>
        ensures found { IfSome result (λ d. IsDec d × (text.now ≡ dec_text d)) }
        ensures only { (d : DecValue) → IsDec d → text.now ≡ dec_text d → result ≡ Some d }
        ensures exact { result ≡ dec_of text.now }
    {
        read_dec(text)
    }

    /// Appends its text. The value is in range, and `out` has 60 free places. It takes no memory.
    pub fn put(&self, out: &mut Line)
        requires room { array_vec_len out.old + 60 ≤ 2048 }
        requires valid { IsDec self.now }
        ensures text { out.new.items ≡ out.old.items ++ dec_text self.now }
        ensures room { array_vec_len out.new ≤ array_vec_len out.old + 26 }
    {
        if self.places == 0 {
            put_number(self.mantissa as u128, out);
        } else {
            put_number((self.mantissa / power_of_ten(self.places)) as u128, out);
            put_bytes(out, b".");
            put_last_digits(self.places, self.mantissa, out);
        }
    }
}

#[tactic(auto, unfolding(crate::specs::Reading::dec_of))]
fn read_dec(text: &[u8]) -> Option<Dec>
    ensures { result ≡ dec_of text.now }
{
    match cut(text, b'.') {
        None => {
            let mantissa = read_number(text)?;
            Some(Dec {
                mantissa,
                places: 0,
            })
        }
        Some((whole, places)) => {
            let whole = read_number(whole)?;
            read_places(whole, places)
        }
    }
}

// The digits after the point, behind the whole part.
#[tactic(auto, unfolding(crate::specs::Reading::places_of))]
fn read_places(whole: u64, places: &[u8]) -> Option<Dec>
    requires { whole < 2 ^ 53 }
    ensures { result ≡ places_of whole places.now }
{
    if places.is_empty() || places.len() > 9 {
        return None;
    }
    let mantissa = more_digits(whole, places)?;
    if mantissa < 1 << 53 {
        Some(Dec {
            mantissa: mantissa as u64,
            places: places.len() as u8,
        })
    } else {
        None
    }
}

fn more_digits(whole: u64, text: &[u8]) -> Option<u128>
    requires whole { whole < 2 ^ 53 }
    requires short { length text.now ≤ 9 }
    ensures { result ≡ digits_from whole text.now }
{
    let mut value = whole as u128;
    for c in text {
        if !c.is_ascii_digit() {
            return None;
        }
        value = value * 10 + (*c - b'0') as u128;
    }
    Some(value)
}

// The last digits of a number, with zeros before them where it has fewer.
fn put_last_digits(count: u8, n: u64, out: &mut Line)
    requires room { array_vec_len out.old + 9 ≤ 2048 }
    requires few { count ≤ 9 }
    ensures text { out.new.items ≡ out.old.items ++ last_digits count n }
    ensures room { array_vec_len out.new ≡ array_vec_len out.old + count }
{
    for k in (0..count).rev() {
        let digit = n / power_of_ten(k) % 10;
        out.push(b'0' + digit as u8);
    }
}

fn power_of_ten(k: u8) -> u64
    requires { k ≤ 9 }
    ensures value { result ≡ 10 ^ k }
    ensures some { 0 < result }
{
    10u64.pow(k as u32)
}
