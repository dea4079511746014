ghost use Rattle.std.specs.Prelude.{◌≡◌, ◌+◌, ◌*◌, ◌%◌, ◌<◌, All, IfOk};
ghost use Rattle.dubp_atoms.specs.Spelling.{IsStamp};
ghost use Rattle.dubp_block.specs.Sections.{IsCertification, IsIdentity, IsMembership};
ghost use Rattle.dubp_block.specs.Text.{IsBlock};
ghost use Rattle.dubp_cond.specs.Transactions.{IsTx};
ghost use Rattle.dubp_drafts.specs.Drafting.{IsSpendable, blank, draft_of, first_draft, first_given, given_of, payer as payer_of, with_parameters};
ghost use Rattle.dubp_drafts.specs.Keys.{key_text};

use crate::blanks::{blank_hash, blank_sig, currency, empty_stamp, parameters};
use crate::drafted::Draft;
use crate::keys::key_of;
use crate::payments::transactions;
use crate::sections::{actives, certifications, identities, joiners};
use dubp_atoms::{Items, NoMemory, Stamp};
use dubp_block::{Block, CertLine, IdentityLine, MemberLine};
use dubp_cond::{Input, Tx};
use dubp_params::boxed_params;
use std::alloc::Global;

// When the block of number 0 is made, in seconds.
const FIRST_TIME: u64 = 1_000_000;

const SECONDS_BETWEEN_BLOCKS: u64 = 60;

/// The number of the key whose source the block with this number of the run spends. It takes no memory.
pub fn payer(x: u64) -> u32
    ensures number { result ≡ payer_of x }
    ensures few { result < 8 }
{
    ((x >> 33) % 8) as u32
}

/// The first block of every generated chain, without its inner hash, nonce and signature.
///
/// `NoMemory` where there is no room for it.
pub fn first_draft(alloc: Global) -> Result<Draft, NoMemory>
    ensures block { IfOk result (λ d. d.block ≡ first_draft) }
    ensures verdicts { IfOk result (λ d. d.verdicts.items ≡ first_given) }
    ensures valid { IfOk result (λ d. IsBlock d.block) }
{
    let mut first = draft(alloc, 0, 0, &empty_stamp(), None)?;
    first.block.params = boxed_params(alloc, Some(parameters()))?;
    first.block.members = 8;
    Ok(first)
}

/// The issuer, the time and the lines of the block of this number, behind the block of this stamp.
///
/// `x` is its number in the run of numbers (`next_number`), and `source` what its payer (`payer`) spends, where there is such a source: it is in
/// range and worth at least 1. The number is below 5,000. `NoMemory` where there is no room for the lines.
pub fn draft(
    alloc: Global,
    number: u64,
    x: u64,
    stamp: &Stamp,
    source: Option<Input>,
) -> Result<Draft, NoMemory>
    requires number { number < 5000 }
    requires stamp { IsStamp stamp.now }
    requires source { IsSpendable source }
    ensures block { IfOk result (λ d. d.block ≡ draft_of number x stamp.now source) }
    ensures verdicts { IfOk result (λ d. d.verdicts.items ≡ given_of number x stamp.now source) }
    ensures valid { IfOk result (λ d. IsBlock (with_parameters d.block)) }
{
    let mut verdicts = Vec::new(alloc);
    let identities = identities(alloc, number, stamp, &mut verdicts)?;
    let joiners = joiners(alloc, number, stamp, &mut verdicts)?;
    let actives = actives(alloc, number, stamp, &mut verdicts)?;
    let certifications = certifications(alloc, number, stamp, &mut verdicts)?;
    let transactions = transactions(alloc, x, stamp, source, &mut verdicts)?;
    let block = block_with(
        alloc,
        number,
        identities,
        joiners,
        actives,
        certifications,
        transactions,
    );
    Ok(Draft { block, verdicts })
}

// The issuer and the time of the block of this number, with these lines, under the header of a first block.
fn block_with(
    alloc: Global,
    number: u64,
    identities: Items<IdentityLine>,
    joiners: Items<MemberLine>,
    actives: Items<MemberLine>,
    certifications: Items<CertLine>,
    transactions: Items<Tx>,
) -> Block
    requires number { number < 5000 }
    ensures value { result ≡ record (blank (key_text (number % 8)) (1000000 + 60 * number)) { identities = identities; joiners = joiners; actives = actives; certifications = certifications; transactions = transactions } }
{
    let time = FIRST_TIME + SECONDS_BETWEEN_BLOCKS * number;
    Block {
        version: 10,
        currency: currency(),
        number: 0,
        pow_min: 0,
        time,
        median_time: time,
        dividend: None,
        unit_base: 0,
        issuer: key_of((number % 8) as u32),
        frame: 1,
        frame_var: 0,
        issuers: 0,
        previous: None,
        params: None,
        members: 0,
        identities,
        joiners,
        actives,
        leavers: Items::new(alloc),
        revoked: Items::new(alloc),
        excluded: Items::new(alloc),
        certifications,
        transactions,
        inner_hash: blank_hash(),
        nonce: 0,
        sig: blank_sig(),
    }
}
