ghost use Rattle.std.specs.Prelude.{◌≤◌};

use dubp_atoms::Key;
use dubp_cond::{holds, is_cond, read_cond, read_unlock};
use std::alloc::Global;
use std::mem::forget;

const K0: &[u8] = b"1111111111111111111111111111111111111111111";

const K1: &[u8] = b"1111111111111111111111111111111111111111112";

// A key with time, or another key with a password, which is `abc`.
const TIMED: &[u8] =
    b"(SIG(1111111111111111111111111111111111111111111) && CSV(3600)) || (SIG(1111111111111111111111111111111111111111112) && XHX(BA7816BF8F01CFEA414140DE5DAE2223B00361A396177A9CB410FF61F20015AD))";

// Whether the condition holds, where all are texts of their kind.
fn holds_at(
    alloc: Global,
    cond: &[u8],
    unlocks: &[u8],
    issuer: &[u8],
    now: u64,
    written: u64,
) -> Option<bool>
    requires { written ≤ now }
{
    let issuers = [Key::read(issuer)?];
    let Ok(Some(cond)) = read_cond(alloc, cond) else {
        return None;
    };
    let Ok(Some(unlocks)) = read_unlock(alloc, unlocks) else {
        return None;
    };
    let is = holds(&cond, unlocks.list.as_slice(), &issuers, now, written);
    forget(unlocks);
    forget(cond);
    Some(is)
}

// A condition, unlocks, the key of the issuer, the time, the time of writing, and whether the condition holds.
const TIMES: [(&[u8], &[u8], &[u8], u64, u64, bool); 8] = [
    (TIMED, b"0:SIG(0)", K0, 4599, 1000, false),
    (TIMED, b"0:SIG(0)", K0, 4600, 1000, true),
    (TIMED, b"0:SIG(0)", K1, 4600, 1000, false),
    (TIMED, b"0:SIG(0) XHX(abd)", K1, 4600, 1000, false),
    (TIMED, b"0:SIG(0) XHX(abc)", K1, 1000, 1000, true),
    (TIMED, b"0:SIG(1) XHX(abc)", K1, 1000, 1000, false),
    (b"CLTV(1000) && CSV(0)", b"0:SIG(0)", K0, 999, 0, false),
    (b"CLTV(1000) && CSV(0)", b"0:SIG(0)", K0, 1000, 0, true),
];

#[test]
fn conditions_hold_at_their_time(rt: HostRuntime) {
    assert!(rt; is_cond(TIMED));
    for (cond, unlocks, issuer, now, written, is) in &TIMES {
        assert!(rt; holds_at(rt.alloc(), cond, unlocks, issuer, *now, *written) == Some(*is));
    }
}
