ghost use Rattle.std.specs.Prelude.{◌≡◌, ℕ, List, Option};
ghost use Rattle.dubp_atoms.specs.Letters.{is_key, is_hash, is_currency, is_sig};
ghost use Rattle.dubp_atoms.specs.Reading.{text_if, number_of, signed_of};

use dubp_atoms::{Currency, Hash, Key, Sig, read_number, read_signed};

/// A kind of value that a line has, and how its text is read.
pub trait ReadText {
    type Value;

    ghost reads: { List ℕ → Option Self.Value };

    /// The value that this text is. None exactly where it is the text of none. It takes no memory.
    fn read_text(text: &[u8]) -> Option<Self::Value>
        ensures { result ≡ reads text.now };
}

impl ReadText for u64 {
    type Value = u64;

    ghost reads = { number_of };

    fn read_text(text: &[u8]) -> Option<u64> {
        read_number(text)
    }
}

impl ReadText for i64 {
    type Value = i64;

    ghost reads = { signed_of };

    fn read_text(text: &[u8]) -> Option<i64> {
        read_signed(text)
    }
}

impl ReadText for Key {
    type Value = Key;

    ghost reads = { text_if is_key };

    fn read_text(text: &[u8]) -> Option<Key> {
        Key::read(text)
    }
}

impl ReadText for Hash {
    type Value = Hash;

    ghost reads = { text_if is_hash };

    fn read_text(text: &[u8]) -> Option<Hash> {
        Hash::read(text)
    }
}

impl ReadText for Currency {
    type Value = Currency;

    ghost reads = { text_if is_currency };

    fn read_text(text: &[u8]) -> Option<Currency> {
        Currency::read(text)
    }
}

impl ReadText for Sig {
    type Value = Sig;

    ghost reads = { text_if is_sig };

    fn read_text(text: &[u8]) -> Option<Sig> {
        Sig::read(text)
    }
}
