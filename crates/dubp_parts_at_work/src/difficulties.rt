use dubp_atoms::{Dec, Hash};
use dubp_pow::{handicap, issuer_diff, ladder, meets, next_frame, next_var};

// What follows from some numbers.
enum Fact {
    // The frame, its variation and the next frame.
    Frame(u32, i64, u64),
    // The variation, the issuers before and after, and the next variation.
    Variation(i32, u32, u32, i64),
    // A place in the ladder, and what stands there.
    Row(usize, u64),
    // The blocks of an issuer, twice the median of all, and the handicap.
    Handicap(u32, u32, u64),
    // The least difficulty, the issuers, the blocks since, the handicap, and the difficulty.
    Difficulty(u64, u32, u32, u64, u128),
    // A hash, a difficulty, and whether the one meets the other.
    Met(&'static [u8], u128, bool),
}

const FACTS: [Fact; 28] = [
    Fact::Frame(1, 0, 1),
    Fact::Frame(1, 5, 2),
    Fact::Frame(2, 4, 3),
    Fact::Frame(7, -1, 6),
    Fact::Frame(1, -9, 1),
    Fact::Variation(0, 0, 1, 5),
    Fact::Variation(5, 1, 1, 4),
    Fact::Variation(-3, 4, 2, -12),
    Fact::Variation(0, 6, 6, 0),
    Fact::Row(0, 1_000_000),
    Fact::Row(4, 1_998_608),
    Fact::Row(5, 2_376_345),
    Fact::Handicap(3, 4, 4),
    Fact::Handicap(1, 2, 4),
    Fact::Handicap(0, 2, 0),
    Fact::Handicap(0, 4, 0),
    Fact::Handicap(40_000, 1, 64),
    // Six issuers and no block since: 0.67 × 6 is 4.02, of which 4 count.
    Fact::Difficulty(0, 0, 0, 4, 4),
    Fact::Difficulty(70, 6, 0, 0, 280),
    Fact::Difficulty(70, 6, 3, 0, 70),
    Fact::Difficulty(79, 0, 0, 0, 80),
    Fact::Difficulty(79, 0, 0, 3, 83),
    Fact::Met(
        b"00009FFFFFFFFFFFFFFFFFFFFFFFFFFFFFFFFFFFFFFFFFFFFFFFFFFFFFFFFFFF",
        70,
        true,
    ),
    Fact::Met(
        b"0000A00000000000000000000000000000000000000000000000000000000000",
        70,
        false,
    ),
    Fact::Met(
        b"0001000000000000000000000000000000000000000000000000000000000000",
        70,
        false,
    ),
    Fact::Met(
        b"FFFFFFFFFFFFFFFFFFFFFFFFFFFFFFFFFFFFFFFFFFFFFFFFFFFFFFFFFFFFFFFF",
        0,
        true,
    ),
    Fact::Met(
        b"0000000000000000000000000000000000000000000000000000000000000000",
        1023,
        true,
    ),
    Fact::Met(
        b"0000000000000000000000000000000000000000000000000000000000000000",
        1024,
        false,
    ),
];

const ROT: Dec = Dec {
    mantissa: 67,
    places: 2,
};

// Whether the hash that the text is meets the difficulty.
fn is_met(text: &[u8], d: u128) -> Option<bool> {
    match Hash::read(text) {
        Some(hash) => Some(meets(&hash, d)),
        None => None,
    }
}

fn is_so(fact: &Fact) -> bool {
    match fact {
        Fact::Frame(frame, var, next) => {
            *frame >= 1 && next_frame(u64::from(*frame), *var) == *next
        }
        Fact::Variation(var, before, after, next) => {
            next_var(i64::from(*var), u64::from(*before), u64::from(*after)) == *next
        }
        Fact::Row(h, row) => *h <= 64 && ladder().at(*h) == *row,
        Fact::Handicap(blocks, median, want) => {
            handicap(u64::from(*blocks), u64::from(*median)) == *want
        }
        Fact::Difficulty(pow_min, issuers, since, handicap, want) => {
            issuer_diff(
                *pow_min,
                ROT,
                u64::from(*issuers),
                u64::from(*since),
                *handicap,
            ) == *want
        }
        Fact::Met(text, d, want) => is_met(text, *d) == Some(*want),
    }
}

#[test]
fn frames_and_difficulties_follow(rt: HostRuntime) {
    for fact in &FACTS {
        assert!(rt; is_so(fact));
    }
}
