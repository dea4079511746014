ghost use Rattle.std.specs.Prelude.{◌≡◌, ◌^◌, ◌<◌, ◌≤◌, pos, neg_ℤ, ◌-ℤ◌, ◌*ℤ◌, ◌≤ℤ◌};
ghost use Rattle.dubp_pow.specs.Frames.{next_frame_of, next_var_of};

use std::cmp::Ordering;

/// By how much the variation moves for each issuer that there is more than before.
const VARIATION_OF_AN_ISSUER: i64 = 5;

/// The next number of blocks over which issuers are counted.
///
/// `frame` is from 1 to 2^53, and `var` between −2^60 and 2^60. It takes no memory.
pub fn next_frame(frame: u64, var: i64) -> u64
    requires some { 1 ≤ frame }
    requires low { frame ≤ 2 ^ 53 }
    ensures { result ≡ next_frame_of frame var }
{
    match var.cmp(&0) {
        Ordering::Greater => frame + 1,
        Ordering::Equal => frame,
        Ordering::Less => (frame - 1).max(1),
    }
}

/// The next variation of the frame, from the previous number of issuers and the new one.
///
/// The numbers of issuers are below 2^53, and `var` is between −2^60 and 2^60. It takes no memory.
pub fn next_var(var: i64, before: u64, after: u64) -> i64
    requires least { neg_ℤ (pos (2 ^ 60)) ≤ℤ var }
    requires greatest { var ≤ℤ pos (2 ^ 60) }
    requires few_before { before < 2 ^ 53 }
    requires few_after { after < 2 ^ 53 }
    ensures { result ≡ next_var_of var before after }
{
    var + issuers_moved(before, after) - var.signum()
}

fn issuers_moved(before: u64, after: u64) -> i64
    requires few_before { before < 2 ^ 53 }
    requires few_after { after < 2 ^ 53 }
    ensures value { result ≡ pos 5 *ℤ (pos after -ℤ pos before) }
    ensures least { neg_ℤ (pos (2 ^ 56)) ≤ℤ result }
    ensures greatest { result ≤ℤ pos (2 ^ 56) }
{
    VARIATION_OF_AN_ISSUER * (after as i64 - before as i64)
}
