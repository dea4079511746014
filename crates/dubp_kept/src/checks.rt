ghost use Rattle.std.specs.Prelude.{◌≡◌, ◌≤◌, ◌↔◌, IsTrue, option_copied, reverse};
ghost use Rattle.dubp_chain.specs.Chains.{first_block};
ghost use Rattle.dubp_validity.specs.Rules.{IsSound};
ghost use Rattle.dubp_validity.specs.HeadRules.{CurrencyAndVersionFit, IssuerIsMember, NumberIsNext, PreviousHashIsRight, PreviousIssuerIsRight};
ghost use Rattle.dubp_kept.specs.KeptChain.{IsKnown};

use crate::judges::Judges;
use dubp_block::Block;
use dubp_chain::Head;
use dubp_head::Heads;
use dubp_moving::Tables;

// The blocks of a chain stand oldest first here; contracts speak of the chain, which is these blocks turned round.

/// Number is the length of the chain: rule `G51`.
pub fn number_is_next(blocks: &[Block], block: &Block) -> bool
    ensures { IsTrue result ↔ NumberIsNext (reverse blocks.now) block.now }
{
    block.number == blocks.len() as u64
}

/// The chain is empty, or PreviousHash is the hash of its last block: rule `G52`.
pub fn previous_hash_is_right(blocks: &[Block], heads: &Heads, block: &Block) -> bool
    requires { IsKnown (reverse blocks.now) heads.now }
    ensures { IsTrue result ↔ PreviousHashIsRight (reverse blocks.now) block.now }
{
    match (heads.last(), &block.previous) {
        (None, _) => true,
        (Some(head), Some((hash, _))) => *hash == head.hash,
        (Some(_), None) => false,
    }
}

/// The chain is empty, or PreviousIssuer is the issuer of its last block: rule `G53`.
pub fn previous_issuer_is_right(blocks: &[Block], heads: &Heads, block: &Block) -> bool
    requires { IsKnown (reverse blocks.now) heads.now }
    ensures { IsTrue result ↔ PreviousIssuerIsRight (reverse blocks.now) block.now }
{
    match (heads.last(), &block.previous) {
        (None, _) => true,
        (Some(head), Some((_, issuer))) => *issuer == head.issuer,
        (Some(_), None) => false,
    }
}

/// The chain is empty, or Currency is that of its first block and Version is not below that of its last: rule `G49`.
pub fn currency_and_version_fit(blocks: &[Block], heads: &Heads, block: &Block) -> bool
    requires { IsKnown (reverse blocks.now) heads.now }
    ensures { IsTrue result ↔ CurrencyAndVersionFit (reverse blocks.now) block.now }
{
    match (first_of(blocks), heads.last()) {
        (Some(first), Some(head)) => fits_between(first, head, block),
        _ => true,
    }
}

fn fits_between(first: &Block, last: &Head, block: &Block) -> bool
    ensures { IsTrue result ↔ ((block.now.currency ≡ first.now.currency) × (last.now.version ≤ block.now.version)) }
{
    block.currency == first.currency && last.version <= block.version
}

/// The chain is empty, or Issuer is a member of it: rule `G101`.
pub fn issuer_is_member<T: Judges>(tables: &T, blocks: &[Block], block: &Block) -> bool
    requires at { T.at tables.now (reverse blocks.now) }
    requires sound { IsSound (reverse blocks.now) }
    ensures { IsTrue result ↔ IssuerIsMember (reverse blocks.now) block.now }
{
    blocks.is_empty() || tables.is_member(block.issuer)
}

/// The first block of the chain.
#[tactic(auto, using(crate::proofs::Chains::first_turned))]
pub fn first_of(blocks: &[Block]) -> Option<&Block>
    ensures { option_copied result ≡ first_block (reverse blocks.now) }
{
    blocks.first()
}
