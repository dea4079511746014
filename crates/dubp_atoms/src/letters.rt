//! Which bytes the longer texts are made of.
//!
//! Every byte of a text is looked at, whatever those before it were: so a processor tests many of them at a time.
ghost use Rattle.std.specs.Prelude.{◌≡◌};
ghost use Rattle.std.specs.List.{list_all};
ghost use Rattle.dubp_atoms.specs.Letters.{is_base58, is_base64, is_between, is_upper_hex};

pub(crate) fn all_base58(text: &[u8]) -> bool
    ensures { result ≡ list_all is_base58 text.now }
{
    let mut all = true;
    for c in text {
        all &= is_base58_byte(*c);
    }
    all
}

pub(crate) fn all_base64(text: &[u8]) -> bool
    ensures { result ≡ list_all is_base64 text.now }
{
    let mut all = true;
    for c in text {
        all &= is_base64_byte(*c);
    }
    all
}

pub(crate) fn all_upper_hex(text: &[u8]) -> bool
    ensures { result ≡ list_all is_upper_hex text.now }
{
    let mut all = true;
    for c in text {
        all &= is_upper_hex_byte(*c);
    }
    all
}

fn is_base58_byte(c: u8) -> bool
    ensures { result ≡ is_base58 c }
{
    lies_between(b'1', b'9', c)
        | lies_between(b'A', b'H', c)
        | lies_between(b'J', b'N', c)
        | lies_between(b'P', b'Z', c)
        | lies_between(b'a', b'k', c)
        | lies_between(b'm', b'z', c)
}

fn is_base64_byte(c: u8) -> bool
    ensures { result ≡ is_base64 c }
{
    lies_between(b'0', b'9', c)
        | lies_between(b'A', b'Z', c)
        | lies_between(b'a', b'z', c)
        | (c == b'+')
        | (c == b'/')
}

fn is_upper_hex_byte(c: u8) -> bool
    ensures { result ≡ is_upper_hex c }
{
    lies_between(b'0', b'9', c) | lies_between(b'A', b'F', c)
}

fn lies_between(low: u8, high: u8, c: u8) -> bool
    ensures { result ≡ is_between low high c }
{
    (low <= c) & (c <= high)
}
