ghost use Rattle.std.specs.Prelude.{◌≡◌, ◌↔◌, IsTrue, true};
ghost use Rattle.std.specs.List.{All};
ghost use Rattle.dubp_params.specs.OfAtoms.{is_upper_hex};
ghost use Rattle.dubp_pow.specs.Meeting.{Meets, hex_value};

use dubp_params::Hash;

/// No hash meets this difficulty: 16 for each of its 64 digits.
const UNMEETABLE: u128 = 1024;

/// Whether a hash meets a difficulty. It takes no memory.
pub fn meets(hash: &Hash, d: u128) -> bool
    ensures { IsTrue result ↔ Meets hash.now d }
{
    if d >= UNMEETABLE {
        return false;
    }
    let digits = hash.as_bytes();
    let zeros = (d / 16) as usize;
    let most = 15 - (d % 16) as u8;
    all_zero(&digits[..zeros]) && hex_value(digits[zeros]) <= most
}

fn all_zero(digits: &[u8]) -> bool
    ensures { IsTrue result ↔ All (λ c. c ≡ 48) digits.now }
{
    digits.iter().all(|c| *c == b'0')
}

fn hex_value(digit: u8) -> u8
    requires { is_upper_hex digit ≡ true }
    ensures { result ≡ hex_value digit }
{
    if digit.is_ascii_digit() {
        digit - b'0'
    } else {
        digit - b'A' + 10
    }
}
