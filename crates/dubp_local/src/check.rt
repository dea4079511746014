//! The local rules in the order of the table, and the first that a block breaks.
ghost use Rattle.std.specs.Prelude.{◌≡◌, ◌↔◌, IsTrue, IfOk, MatchOption, option_copied, ⊤};
ghost use Rattle.dubp_atoms.specs.Hashing.{hash_of};
ghost use Rattle.dubp_block.specs.Text.{IsBlock, inner_text, signed_text};
ghost use Rattle.dubp_params.specs.Ranges.{IsInRange};
ghost use Rattle.dubp_local.specs.Local.{FirstLocal, local_rules, unsigned_rules, all_hashes};
ghost use Rattle.dubp_local.specs.Asking.{FirstAsked, IsSignedWhereAsked, asked_rules, rules_before_l24};
ghost use Rattle.dubp_local.specs.Checking.{IsChecked, broken_rule};

use crate::closing::{begin_closing, end_closing};
use crate::numbers::{
    certifications_are_of_earlier_blocks, first_stamps_are_empty, first_times_are_equal,
    numbers_are_small, params_are_in_range, time_is_near,
};
use crate::once::{
    identities_join, identities_stand_once, issuers_stand_once, moving_keys_stand_once,
    nobody_certified_parts, nobody_certifies_themselves, pairs_stand_once, revoked_stand_once,
    uids_stand_once,
};
use crate::signatures::{
    block_is_signed, identities_are_signed, inner_hash_is_right, memberships_are_signed,
    transactions_are_signed,
};
use crate::transactions::{
    amounts_are_not_zero, transactions_are_balanced, transactions_are_short,
};
use crate::unlocks::{inputs_are_unlocked_once, senders_stand_once, sources_stand_once};
use dubp_atoms::{Hash, Hashing, Items, NoMemory, TextSink};
use dubp_block::{Block, inner_hash_of};
use dubp_docs::{TxHashes, all_tx_hashes};
use dubp_params::Params;
use dubp_rules::{Rule, first_of};
use dubp_verdict::Verdicts;
use std::alloc::Global;

/// What a block was found to be, checked by itself.
#[derive(Debug, Drop)]
pub enum Checked {
    /// The first local rule that the block breaks.
    Breaks(Rule),
    /// It breaks none, and these are its hashes.
    Keeps(MadeHashes),
}

/// The hashes that were made of a block while it was checked.
#[derive(Debug, Drop)]
pub struct MadeHashes {
    /// Those of its transactions, in order.
    pub transactions: Items<TxHashes>,
    /// Its own.
    pub block: Hash,
}

impl Checked {
    // The rule that the block breaks, if it breaks one.
    fn broken(self) -> Option<Rule>
        ensures { result ≡ broken_rule self }
    {
        match self {
            Checked::Breaks(rule) => Some(rule),
            Checked::Keeps(_hashes) => None,
        }
    }
}

/// Whether a block is asked for its signature.
#[derive(Clone, Copy)]
pub enum Asked {
    /// It is signed, and each rule is asked.
    Signed,
    /// It is not signed yet, and what it keeps only once it is signed is not asked.
    Unsigned,
}

/// The first local rule that the block breaks, or None where it keeps them all.
///
/// The parameters are those of the chain, in their ranges, and None where the chain is empty. `NoMemory` where there is no room to
/// look for what stands twice, or for the hashes of the transactions.
pub fn check_local(
    alloc: Global,
    block: &Block,
    verdicts: &Verdicts,
    params: Option<&Params>,
) -> Result<Option<Rule>, NoMemory>
    requires block { IsBlock block.now }
    requires params { MatchOption params ⊤ (λ p. IsInRange p.now) }
    ensures { IfOk result (FirstLocal local_rules verdicts.now (option_copied params.entry) block.now) }
{
    let found = check_local_read(alloc, block, &inner_hash_of(block), verdicts, params)?;
    Ok(found)
}

/// The same of a block whose inner hash is at hand, as it is where the block was just read.
pub fn check_local_read(
    alloc: Global,
    block: &Block,
    inner: &Hash,
    verdicts: &Verdicts,
    params: Option<&Params>,
) -> Result<Option<Rule>, NoMemory>
    requires block { IsBlock block.now }
    requires inner { inner.now ≡ hash_of (inner_text block.now) }
    requires params { MatchOption params ⊤ (λ p. IsInRange p.now) }
    ensures { IfOk result (FirstLocal local_rules verdicts.now (option_copied params.entry) block.now) }
{
    let checked = check_local_hashed(alloc, block, inner, verdicts, params, Asked::Signed)?;
    Ok(checked.broken())
}

/// The same without rule `L05`, for a block that is not signed yet.
pub fn check_unsigned(
    alloc: Global,
    block: &Block,
    verdicts: &Verdicts,
    params: Option<&Params>,
) -> Result<Option<Rule>, NoMemory>
    requires block { IsBlock block.now }
    requires params { MatchOption params ⊤ (λ p. IsInRange p.now) }
    ensures { IfOk result (FirstLocal unsigned_rules verdicts.now (option_copied params.entry) block.now) }
{
    let inner = inner_hash_of(block);
    let checked = check_local_hashed(alloc, block, &inner, verdicts, params, Asked::Unsigned)?;
    Ok(checked.broken())
}

/// As `check_local` of a block that is signed, and as `check_unsigned` of one that is not, whose inner hash is at hand; and hands on the
/// hashes of a block that keeps the rules, its own and those of its transactions. Each is made once.
pub fn check_local_hashed(
    alloc: Global,
    block: &Block,
    inner: &Hash,
    verdicts: &Verdicts,
    params: Option<&Params>,
    asked: Asked,
) -> Result<Checked, NoMemory>
    requires block { IsBlock block.now }
    requires inner { inner.now ≡ hash_of (inner_text block.now) }
    requires params { MatchOption params ⊤ (λ p. IsInRange p.now) }
    ensures { IfOk result (IsChecked (FirstLocal (asked_rules asked) verdicts.now (option_copied params.entry) block.now) block.now) }
{
    let checked = check_asked(alloc, block, inner, verdicts, params, asked)?;
    Ok(checked)
}

fn check_asked(
    alloc: Global,
    block: &Block,
    inner: &Hash,
    verdicts: &Verdicts,
    params: Option<&Params>,
    asked: Asked,
) -> Result<Checked, NoMemory>
    requires block { IsBlock block.now }
    requires inner { inner.now ≡ hash_of (inner_text block.now) }
    requires params { MatchOption params ⊤ (λ p. IsInRange p.now) }
    ensures { IfOk result (IsChecked (FirstAsked local_rules asked verdicts.now (option_copied params.entry) block.now) block.now) }
{
    let closing = begin_closing(block);
    if let Some(rule) = first_before_l24(alloc, block, inner, &closing, verdicts, params, asked)? {
        return Ok(Checked::Breaks(rule));
    }
    let hashes = all_tx_hashes(alloc, &block.currency, block.transactions.as_slice())?;
    if !transactions_are_signed(block, hashes.as_slice(), verdicts) {
        return Ok(Checked::Breaks(Rule::L24));
    }
    Ok(Checked::Keeps(MadeHashes {
        transactions: Items::from_vec(hashes),
        block: end_closing(closing, block),
    }))
}

// The first rule before L24 that the block breaks. What its issuer signs was put into `closing`.
fn first_before_l24(
    alloc: Global,
    block: &Block,
    inner: &Hash,
    closing: &Hashing,
    verdicts: &Verdicts,
    params: Option<&Params>,
    asked: Asked,
) -> Result<Option<Rule>, NoMemory>
    requires block { IsBlock block.now }
    requires inner { inner.now ≡ hash_of (inner_text block.now) }
    requires closing { ⟦<Hashing as TextSink>⟧.has closing.now (signed_text block.now) }
    requires params { MatchOption params ⊤ (λ p. IsInRange p.now) }
    ensures { IfOk result (FirstAsked rules_before_l24 asked verdicts.now (option_copied params.entry) block.now) }
{
    let secret = verdicts.secret();
    Ok(first_of!(
        Rule::X02 => params_are_in_range(block),
        Rule::X07 => numbers_are_small(block),
        Rule::L01 => inner_hash_is_right(block, inner),
        Rule::L02 => first_times_are_equal(block),
        Rule::L03 => certifications_are_of_earlier_blocks(block),
        Rule::L04 => first_stamps_are_empty(block),
        Rule::L05 => is_signed_where_asked(asked, block, closing, verdicts),
        Rule::L06 => time_is_near(block, params),
        Rule::L07 => identities_are_signed(block, verdicts),
        Rule::L08 => uids_stand_once(alloc, secret, block)?,
        Rule::L09 => identities_stand_once(alloc, secret, block)?,
        Rule::L10 => identities_join(alloc, secret, block)?,
        Rule::L11 => memberships_are_signed(block, verdicts),
        Rule::L12 => moving_keys_stand_once(alloc, secret, block)?,
        Rule::L13 => revoked_stand_once(alloc, secret, block)?,
        Rule::L14 => pairs_stand_once(alloc, secret, block)?,
        Rule::L15 => nobody_certifies_themselves(block),
        Rule::L16 => issuers_stand_once(alloc, secret, block)?,
        Rule::L17 => nobody_certified_parts(alloc, secret, block)?,
        Rule::L18 => transactions_are_short(block),
        Rule::L19 => senders_stand_once(alloc, secret, block)?,
        Rule::L20 => inputs_are_unlocked_once(block),
        Rule::L21 => sources_stand_once(alloc, secret, block)?,
        Rule::L22 => amounts_are_not_zero(block),
        Rule::L23 => transactions_are_balanced(block),
    ))
}

fn is_signed_where_asked(
    asked: Asked,
    block: &Block,
    closing: &Hashing,
    verdicts: &Verdicts,
) -> bool
    requires { ⟦<Hashing as TextSink>⟧.has closing.now (signed_text block.now) }
    ensures { IsTrue result ↔ IsSignedWhereAsked asked verdicts.now block.now }
{
    match asked {
        Asked::Signed => block_is_signed(block, closing, verdicts),
        Asked::Unsigned => true,
    }
}
