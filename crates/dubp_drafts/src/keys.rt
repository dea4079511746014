ghost use Rattle.std.specs.Prelude.{◌≡◌, ◌<◌, true};
ghost use Rattle.dubp_atoms.specs.Letters.{is_base58};
ghost use Rattle.dubp_drafts.specs.Keys.{base58_digit, key_text, uid_text};

use arrayvec::ArrayVec;
use dubp_atoms::{Key, Line, Uid, put_bytes, put_number};

/// How many keys there are: 58 × 58 × 58.
pub const KEYS: u32 = 195_112;

/// The digits of Base58, from that of 0 on.
const ALPHABET: [u8; 58] = *b"123456789ABCDEFGHJKLMNPQRSTUVWXYZabcdefghijkmnopqrstuvwxyz";

/// The key of a number below `KEYS`: forty `1`, and the number as three digits of Base58, the greatest first. It takes no memory.
pub fn key_of(number: u32) -> Key
    requires { number < KEYS }
    ensures { result ≡ key_text number }
{
    let mut text = [b'1'; 43];
    text[40] = base58_digit(number / 3364);
    text[41] = base58_digit(number / 58 % 58);
    text[42] = base58_digit(number % 58);
    Key::read(&text).unwrap()
}

fn base58_digit(value: u32) -> u8
    requires { value < 58 }
    ensures value { result ≡ base58_digit value }
    ensures letter { is_base58 result ≡ true }
{
    ALPHABET[value as usize]
}

/// The name of the key of a number: `user` and the number. It takes no memory.
pub fn uid_of(number: u32) -> Uid
    ensures { result ≡ uid_text number }
{
    let mut text: Line = ArrayVec::new();
    put_bytes(&mut text, b"user");
    put_number(number as u128, &mut text);
    Uid::read(text.as_slice()).unwrap()
}
