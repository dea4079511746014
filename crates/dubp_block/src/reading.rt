ghost use Rattle.std.specs.Prelude.{◌≡◌, IfOk, IfErr, MatchResult};
ghost use Rattle.dubp_lines.specs.Lines.{split};
ghost use Rattle.dubp_lines.specs.Taking.{Gives, GivesInRoom, line_number};
ghost use Rattle.dubp_atoms.specs.Hashing.{hash_of};
ghost use Rattle.dubp_block.specs.Text.{IsBlock, block_text, inner_text};
ghost use Rattle.dubp_block.specs.Reading.{opening_at, issuing_at, first_links_at, later_links_at, links_at, closing_at, block_at, block_of};
ghost use Rattle.dubp_block.specs.Refusals.{NamesLine};
ghost use Rattle.dubp_block.specs.declared.block.Block.{Block as BlockValue};
ghost use Rattle.dubp_block.specs.declared.refusal.ReadRefusal.TheVariants.{NoMemory as Memory};

use crate::block::Block;
use crate::hashing::inner_hash_in;
use crate::kinds::{Base, Parameters, Version};
use crate::refusal::ReadRefusal;
use crate::sections::{take_first_sections, take_last_sections};
use dubp_atoms::{Currency, Hash, Key, Sig};
use dubp_lines::{LineRefusal, Lines, Refused, count_lines};
use dubp_params::{Params, boxed_params};
use std::alloc::Global;

/// The block that this text is.
///
/// `NotABlock` comes only where the bytes are no block's text, with the line that is refused; `NoMemory` where there is no room for
/// what the lines so far say. Room for a line is taken when the line comes, however many its transaction announces.
pub fn read_block(alloc: Global, text: &[u8]) -> Result<Block, ReadRefusal>
    ensures found { IfOk result (λ b. IsBlock b × (text.now ≡ block_text b)) }
    ensures only { (b : BlockValue) → IsBlock b → text.now ≡ block_text b → MatchResult result (λ v. v ≡ b) (λ e. e ≡ Memory) }
    ensures refused { IfErr result (NamesLine text.now) }
{
    match take_all(alloc, text) {
        Ok(block) => Ok(block),
        Err(LineRefusal::NoMemory) => Err(ReadRefusal::NoMemory),
        Err(LineRefusal::Left(left)) => Err(ReadRefusal::NotABlock {
            line: line_number(text, left),
        }),
    }
}

/// A block that was read, and the SHA-256 of its text before the InnerHash line: what a right InnerHash is.
#[derive(Debug, Drop)]
pub struct HashedBlock {
    pub block: Block,
    pub inner: Hash,
}

/// The block that this text is, as `read_block` reads it, and the hash of the text before its InnerHash line, for which nothing
/// is written again.
pub fn read_hashed_block(alloc: Global, text: &[u8]) -> Result<HashedBlock, ReadRefusal>
    ensures found { IfOk result (λ h. IsBlock h.block × (text.now ≡ block_text h.block)) }
    ensures inner { IfOk result (λ h. h.inner ≡ hash_of (inner_text h.block)) }
    ensures only { (b : BlockValue) → IsBlock b → text.now ≡ block_text b → MatchResult result (λ h. h.block ≡ b) (λ e. e ≡ Memory) }
    ensures refused { IfErr result (NamesLine text.now) }
{
    match read_block(alloc, text) {
        Ok(block) => {
            let inner = inner_hash_in(text, &block);
            Ok(HashedBlock { block, inner })
        }
        Err(refusal) => Err(refusal),
    }
}

// The number of a line, where so many lines are left from it on.
fn line_number(text: &[u8], left: usize) -> u64
    ensures { result ≡ line_number text.now left }
{
    count_lines(text).saturating_sub(left) as u64 + 1
}

#[tactic(auto, unfolding(crate::specs::Reading::block_of))]
fn take_all(alloc: Global, text: &[u8]) -> Result<Block, LineRefusal>
    ensures { GivesInRoom (λ b. b) result (block_of (split text.now)) }
{
    let mut lines = Lines::of(text);
    let block = take_block(alloc, &mut lines)?;
    if !lines.is_done() {
        return Err(LineRefusal::from(lines.refused()));
    }
    Ok(block)
}

#[tactic(auto, unfolding(crate::specs::Reading::block_at, dubp_lines::specs::Readers::and_then))]
fn take_block(alloc: Global, lines: &mut Lines<'_>) -> Result<Block, LineRefusal>
    ensures { GivesInRoom (λ b. (b, lines.new)) result (block_at lines.old) }
{
    let opening = take_opening(lines)?;
    let issuing = take_issuing(lines)?;
    let links = take_links(lines, opening.number)?;
    let members = lines.take_value::<u64>(b"MembersCount: ")?;
    let first = take_first_sections(alloc, lines)?;
    let last = take_last_sections(alloc, lines)?;
    let closing = take_closing(lines)?;
    Ok(Block {
        version: opening.version,
        currency: opening.currency,
        number: opening.number,
        pow_min: opening.pow_min,
        time: opening.time,
        median_time: opening.median_time,
        dividend: issuing.dividend,
        unit_base: issuing.unit_base,
        issuer: issuing.issuer,
        frame: issuing.frame,
        frame_var: issuing.frame_var,
        issuers: issuing.issuers,
        previous: links.previous,
        params: boxed_params(alloc, links.params)?,
        members,
        identities: first.identities,
        joiners: first.joiners,
        actives: first.actives,
        leavers: first.leavers,
        revoked: last.revoked,
        excluded: last.excluded,
        certifications: last.certifications,
        transactions: last.transactions,
        inner_hash: closing.inner_hash,
        nonce: closing.nonce,
        sig: closing.sig,
    })
}

// The lines from Version to MedianTime.
#[derive(Clone, Copy)]
struct Opening {
    version: u64,
    currency: Currency,
    number: u64,
    pow_min: u64,
    time: u64,
    median_time: u64,
}

#[tactic(auto, unfolding(crate::specs::Reading::opening_at, dubp_lines::specs::Readers::and_then))]
fn take_opening(lines: &mut Lines<'_>) -> Result<Opening, Refused>
    ensures { Gives (λ x. (x, lines.new)) result (opening_at lines.old) }
{
    let version = lines.take_value::<Version>(b"Version: ")?;
    lines.take(b"Type: Block")?;
    let currency = lines.take_value::<Currency>(b"Currency: ")?;
    let number = lines.take_value::<u64>(b"Number: ")?;
    let pow_min = lines.take_value::<u64>(b"PoWMin: ")?;
    let time = lines.take_value::<u64>(b"Time: ")?;
    let median_time = lines.take_value::<u64>(b"MedianTime: ")?;
    Ok(Opening {
        version,
        currency,
        number,
        pow_min,
        time,
        median_time,
    })
}

// The lines from UniversalDividend, where there is one, to DifferentIssuersCount.
#[derive(Clone, Copy)]
struct Issuing {
    dividend: Option<u64>,
    unit_base: u64,
    issuer: Key,
    frame: u64,
    frame_var: i64,
    issuers: u64,
}

#[tactic(auto, unfolding(crate::specs::Reading::issuing_at, dubp_lines::specs::Readers::and_then))]
fn take_issuing(lines: &mut Lines<'_>) -> Result<Issuing, Refused>
    ensures { Gives (λ x. (x, lines.new)) result (issuing_at lines.old) }
{
    let dividend = lines.take_optional::<u64>(b"UniversalDividend: ")?;
    let unit_base = lines.take_value::<Base>(b"UnitBase: ")?;
    let issuer = lines.take_value::<Key>(b"Issuer: ")?;
    let frame = lines.take_value::<u64>(b"IssuersFrame: ")?;
    let frame_var = lines.take_value::<i64>(b"IssuersFrameVar: ")?;
    let issuers = lines.take_value::<u64>(b"DifferentIssuersCount: ")?;
    Ok(Issuing {
        dividend,
        unit_base,
        issuer,
        frame,
        frame_var,
        issuers,
    })
}

// PreviousHash and PreviousIssuer, or Parameters.
#[derive(Clone, Copy)]
struct Links {
    previous: Option<(Hash, Key)>,
    params: Option<Params>,
}

fn take_links(lines: &mut Lines<'_>, number: u64) -> Result<Links, Refused>
    ensures { Gives (λ x. (x, lines.new)) result (links_at number lines.old) }
{
    if number == 0 {
        take_first_links(lines)
    } else {
        take_later_links(lines)
    }
}

#[tactic(auto, unfolding(crate::specs::Reading::first_links_at, dubp_lines::specs::Readers::and_then))]
fn take_first_links(lines: &mut Lines<'_>) -> Result<Links, Refused>
    ensures { Gives (λ x. (x, lines.new)) result (first_links_at lines.old) }
{
    let params = lines.take_value::<Parameters>(b"Parameters: ")?;
    Ok(Links {
        previous: None,
        params: Some(params),
    })
}

#[tactic(auto, unfolding(crate::specs::Reading::later_links_at, dubp_lines::specs::Readers::and_then))]
fn take_later_links(lines: &mut Lines<'_>) -> Result<Links, Refused>
    ensures { Gives (λ x. (x, lines.new)) result (later_links_at lines.old) }
{
    let hash = lines.take_value::<Hash>(b"PreviousHash: ")?;
    let issuer = lines.take_value::<Key>(b"PreviousIssuer: ")?;
    Ok(Links {
        previous: Some((hash, issuer)),
        params: None,
    })
}

// InnerHash, Nonce and the signature.
#[derive(Clone, Copy)]
struct Closing {
    inner_hash: Hash,
    nonce: u64,
    sig: Sig,
}

#[tactic(auto, unfolding(crate::specs::Reading::closing_at, dubp_lines::specs::Readers::and_then))]
fn take_closing(lines: &mut Lines<'_>) -> Result<Closing, Refused>
    ensures { Gives (λ x. (x, lines.new)) result (closing_at lines.old) }
{
    let inner_hash = lines.take_value::<Hash>(b"InnerHash: ")?;
    let nonce = lines.take_value::<u64>(b"Nonce: ")?;
    let sig = lines.take_line::<Sig>()?;
    Ok(Closing {
        inner_hash,
        nonce,
        sig,
    })
}
