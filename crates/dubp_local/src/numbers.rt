//! Rules on the numbers of the header and of the lines.
ghost use Rattle.std.specs.Prelude.{◌≡◌, ◌⊎◌, ◌<◌, ◌^◌, ◌↔◌, IsTrue, MatchOption, option_copied, ⊤};
ghost use Rattle.std.specs.List.{AllByRecursion};
ghost use Rattle.dubp_atoms.specs.Same.{empty_stamp};
ghost use Rattle.dubp_block.specs.Text.{IsBlock};
ghost use Rattle.dubp_params.specs.Ranges.{IsInRange};
ghost use Rattle.dubp_validity.specs.OfChain.{Chain};
ghost use Rattle.dubp_validity.specs.LocalRules.{ParamsAreInRange, NumbersAreSmall, FirstTimesAreEqual, CertificationsAreOfEarlierBlocks, FirstStampsAreEmpty, HaveEmptyStamps, TimeIsNear};
ghost use Rattle.dubp_local.specs.Local.{AreParamsOf};
ghost use Rattle.dubp_local.specs.Parts.{HasEmptyStamp, SectionsHaveEmptyStamps};

use dubp_atoms::Stamp;
use dubp_block::{Block, CertLine, IdentityLine, MemberLine};
use dubp_params::{Params, in_range, max_acceleration};

/// The greatest PoWMin of a block that sets the parameters.
const GREATEST_FIRST_POW_MIN: u64 = 1023;

/// The SHA-256 of the empty text.
const EMPTY_HASH: &[u8; 64] = b"E3B0C44298FC1C149AFBF4C8996FB92427AE41E4649B934CA495991B7852B855";

/// Numbers and times stay below this.
const NUMBER_LIMIT: u64 = 1 << 40;

/// The block has no Parameters, or each is in its range and PoWMin is at most 1023: rule `X02`.
pub(crate) fn params_are_in_range(block: &Block) -> bool
    ensures { IsTrue result ↔ ParamsAreInRange block.now }
{
    match &block.params {
        None => true,
        Some(params) => in_range(params.get()) && block.pow_min <= GREATEST_FIRST_POW_MIN,
    }
}

/// Number, Time and MedianTime are each below 2^40: rule `X07`.
pub(crate) fn numbers_are_small(block: &Block) -> bool
    ensures { IsTrue result ↔ NumbersAreSmall block.now }
{
    block.number < NUMBER_LIMIT && block.time < NUMBER_LIMIT && block.median_time < NUMBER_LIMIT
}

/// In block 0, Time equals MedianTime: rule `L02`.
pub(crate) fn first_times_are_equal(block: &Block) -> bool
    ensures { IsTrue result ↔ FirstTimesAreEqual block.now }
{
    block.number != 0 || block.time == block.median_time
}

/// The block number of each certification is below Number, or both are 0: rule `L03`.
pub(crate) fn certifications_are_of_earlier_blocks(block: &Block) -> bool
    ensures { IsTrue result ↔ CertificationsAreOfEarlierBlocks block.now }
{
    let number = block.number;
    block
        .certifications
        .as_slice()
        .iter()
        .all(|line| is_of_earlier_block(line, number))
}

fn is_of_earlier_block(line: &CertLine, number: u64) -> bool
    ensures { IsTrue result ↔ ((line.now.number < number) ⊎ ((line.now.number ≡ 0) × (number ≡ 0))) }
{
    line.number < number || (line.number == 0 && number == 0)
}

/// In block 0, each stamp in Identities, Joiners, Actives and Leavers is the stamp of the empty text: rule `L04`.
pub(crate) fn first_stamps_are_empty(block: &Block) -> bool
    ensures { IsTrue result ↔ FirstStampsAreEmpty block.now }
{
    block.number != 0 || all_stamps_are_empty(block)
}

fn all_stamps_are_empty(block: &Block) -> bool
    ensures { IsTrue result ↔ SectionsHaveEmptyStamps block.now }
{
    are_unstamped(block.identities.as_slice())
        && have_empty_stamps(block.joiners.as_slice())
        && have_empty_stamps(block.actives.as_slice())
        && have_empty_stamps(block.leavers.as_slice())
}

fn are_unstamped(lines: &[IdentityLine]) -> bool
    ensures { IsTrue result ↔ AllByRecursion HasEmptyStamp lines.now }
{
    lines.iter().all(|line| is_empty_stamp(&line.stamp))
}

fn have_empty_stamps(lines: &[MemberLine]) -> bool
    ensures { IsTrue result ↔ AllByRecursion HaveEmptyStamps lines.now }
{
    lines.iter().all(|line| is_empty_stamp(&line.stamp) && is_empty_stamp(&line.identity_stamp))
}

fn is_empty_stamp(stamp: &Stamp) -> bool
    ensures { IsTrue result ↔ (stamp.now ≡ empty_stamp) }
{
    stamp.number == 0 && stamp.hash.as_bytes() == EMPTY_HASH.as_slice()
}

/// Number is 0, or the chain is empty, or Time is at least MedianTime and at most maxAcceleration above it: rule `L06`.
pub(crate) fn time_is_near(block: &Block, params: Option<&Params>) -> bool
    requires block { IsBlock block.now }
    requires params { MatchOption params ⊤ (λ p. IsInRange p.now) }
    ensures { (c : Chain) → AreParamsOf (option_copied params.entry) c → (IsTrue result ↔ TimeIsNear c block.now) }
{
    let Some(params) = params else {
        return true;
    };
    block.number == 0
        || (block.median_time <= block.time
            && block.time <= block.median_time + max_acceleration(params))
}
