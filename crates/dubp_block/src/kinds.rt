ghost use Rattle.std.specs.Prelude.{◌≡◌};
ghost use Rattle.dubp_atoms.specs.Reading.{stamp_of};
ghost use Rattle.dubp_params.specs.Reading.{params_of};
ghost use Rattle.dubp_block.specs.ReadingLines.{version_of, base_of, count_of, comments_of, head_of};

use dubp_atoms::{Stamp, cut, read_number};
use dubp_lines::ReadText;
use dubp_params::{Params, read_params};

/// The greatest power of ten of a unit.
const MAX_BASE: u64 = 15;

/// The most lines of a list of a transaction.
const MAX_ROWS: u64 = 100;

/// The version of a block: 10 or 11.
pub struct Version;

impl ReadText for Version {
    type Value = u64;

    ghost reads = { version_of };

    #[tactic(auto, unfolding(crate::specs::ReadingLines::version_of))]
    fn read_text(text: &[u8]) -> Option<u64> {
        let version = read_number(text)?;
        if version == 10 || version == 11 {
            Some(version)
        } else {
            None
        }
    }
}

/// The power of ten of a unit: at most 15.
pub struct Base;

impl ReadText for Base {
    type Value = u64;

    ghost reads = { base_of };

    #[tactic(auto, unfolding(crate::specs::ReadingLines::base_of))]
    fn read_text(text: &[u8]) -> Option<u64> {
        let base = read_number(text)?;
        if base <= MAX_BASE { Some(base) } else { None }
    }
}

/// The parameters of a currency.
pub struct Parameters;

impl ReadText for Parameters {
    type Value = Params;

    ghost reads = { params_of };

    fn read_text(text: &[u8]) -> Option<Params> {
        read_params(text)
    }
}

/// A stamp that is the whole line.
pub struct StampLine;

impl ReadText for StampLine {
    type Value = Stamp;

    ghost reads = { stamp_of };

    fn read_text(text: &[u8]) -> Option<Stamp> {
        Stamp::read(text)
    }
}

/// What the first line of a transaction says: how many lines each part has, and the locktime.
#[derive(Clone, Copy)]
pub struct TxHead {
    /// 1 to 100, as the next three.
    pub issuers: u64,
    pub inputs: u64,
    pub unlocks: u64,
    pub outputs: u64,
    /// 0 or 1.
    pub comments: u64,
    pub locktime: u64,
}

impl ReadText for TxHead {
    type Value = TxHead;

    ghost reads = { head_of };

    #[tactic(auto, unfolding(crate::specs::ReadingLines::head_of))]
    fn read_text(text: &[u8]) -> Option<TxHead> {
        let (issuers, rest) = cut(text, b':')?;
        let issuers = read_count(issuers)?;
        let (inputs, rest) = cut(rest, b':')?;
        let inputs = read_count(inputs)?;
        let (unlocks, rest) = cut(rest, b':')?;
        let unlocks = read_count(unlocks)?;
        let (outputs, rest) = cut(rest, b':')?;
        let outputs = read_count(outputs)?;
        let (comments, rest) = cut(rest, b':')?;
        let comments = read_comments(comments)?;
        let locktime = read_number(rest)?;
        Some(TxHead {
            issuers,
            inputs,
            unlocks,
            outputs,
            comments,
            locktime,
        })
    }
}

#[tactic(auto, unfolding(crate::specs::ReadingLines::count_of))]
fn read_count(text: &[u8]) -> Option<u64>
    ensures { result ≡ count_of text.now }
{
    let count = read_number(text)?;
    if 1 <= count && count <= MAX_ROWS {
        Some(count)
    } else {
        None
    }
}

#[tactic(auto, unfolding(crate::specs::ReadingLines::comments_of))]
fn read_comments(text: &[u8]) -> Option<u64>
    ensures { result ≡ comments_of text.now }
{
    let comments = read_number(text)?;
    if comments <= 1 { Some(comments) } else { None }
}
