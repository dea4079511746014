use dubp_atoms::{
    Dec, Hash, Hashing, Items, Line, Stamp, TextSink, put_number, put_signed, read_number,
    read_signed,
};
use std::alloc::Global;
use std::mem::forget;

// A text, and the number, the signed number, or the mantissa and the places that it is.
enum Text {
    Number(&'static [u8], u64),
    Signed(&'static [u8], i64),
    Decimal(&'static [u8], u64, u8),
}

const TEXTS: [Text; 12] = [
    Text::Number(b"0", 0),
    Text::Number(b"10", 10),
    Text::Number(b"9007199254740991", 9_007_199_254_740_991),
    Text::Signed(b"0", 0),
    Text::Signed(b"-1", -1),
    Text::Signed(b"9007199254740991", 9_007_199_254_740_991),
    Text::Signed(b"-9007199254740991", -9_007_199_254_740_991),
    Text::Decimal(b"0", 0, 0),
    Text::Decimal(b"0.0488", 488, 4),
    Text::Decimal(b"1.50", 150, 2),
    Text::Decimal(b"12.050", 12_050, 3),
    Text::Decimal(b"0.123456789", 123_456_789, 9),
];

fn is_read(text: &Text) -> bool {
    match text {
        Text::Number(text, number) => read_number(text) == Some(*number),
        Text::Signed(text, number) => read_signed(text) == Some(*number),
        Text::Decimal(text, mantissa, places) => {
            match Dec::read(text) {
                Some(decimal) => decimal.mantissa == *mantissa && decimal.places == *places,
                None => false,
            }
        }
    }
}

const EMPTY_HASH: &[u8] = b"E3B0C44298FC1C149AFBF4C8996FB92427AE41E4649B934CA495991B7852B855";

const HASH_OF_ABC: &[u8] = b"BA7816BF8F01CFEA414140DE5DAE2223B00361A396177A9CB410FF61F20015AD";

// Whether nothing has its hash, `abc` in two pieces its own, and a copy behind the first that of `a`.
fn are_hashed() -> bool {
    let empty = Hash::of(b"");
    let mut hashing = Hashing::new();
    let Ok(()) = hashing.put(b"a");
    let mut copied = hashing.copy();
    let Ok(()) = hashing.put(b"bc");
    let Ok(()) = copied.put(b"");
    Hash::read(EMPTY_HASH) == Some(empty)
        && empty.as_bytes() == EMPTY_HASH
        && hashing.hash().as_bytes() == HASH_OF_ABC
        && copied.hash() == Hash::of(b"a")
}

const WRITTEN: &[u8] =
    b"12-E3B0C44298FC1C149AFBF4C8996FB92427AE41E4649B934CA495991B7852B85512.050340282366920938463463374607431768211455-7";

// Whether a stamp, a decimal, the greatest number and a negative one are written one behind the other.
fn are_written() -> bool {
    let mut line = Line::new();
    if let Some(stamp) = Stamp::read(
        b"12-E3B0C44298FC1C149AFBF4C8996FB92427AE41E4649B934CA495991B7852B855",
    ) {
        stamp.put(&mut line);
    }
    if let Some(decimal) = Dec::read(b"12.050") {
        decimal.put(&mut line);
    }
    put_number(u128::MAX, &mut line);
    put_signed(-7, &mut line);
    line.as_slice() == WRITTEN
}

const ITEMS: [u64; 3] = [1, 2, 3];

// Whether a copy of the list has the three items, as such and as a vector.
fn are_copied(alloc: Global) -> bool {
    let Ok(vector) = ITEMS.to_vec(alloc) else {
        return false;
    };
    let Ok(items) = Items::from_vec(vector).copy(alloc) else {
        return false;
    };
    let same = items.as_slice() == ITEMS.as_slice() && items.len() == 3 && !items.is_empty();
    let inner = items.into_vec();
    let kept = inner.as_slice() == ITEMS.as_slice();
    forget(inner);
    same && kept
}

#[test]
fn texts_are_read_hashed_and_written(rt: HostRuntime) {
    for text in &TEXTS {
        assert!(rt; is_read(text));
    }
    assert!(rt; are_hashed() && are_written() && are_copied(rt.alloc()));
}
