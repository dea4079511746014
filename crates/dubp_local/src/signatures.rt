//! Rules on hashes and signatures. No text is made to be hashed.
ghost use Rattle.std.specs.Prelude.{◌≡◌, ◌↔◌, ◌++◌, IsTrue, true};
ghost use Rattle.dubp_atoms.specs.Hashing.{hash_of};
ghost use Rattle.dubp_block.specs.Text.{inner_text, signed_text};
ghost use Rattle.dubp_validity.specs.LocalRules.{InnerHashIsRight, BlockIsSigned, IdentitiesAreSigned, MembershipsAreSigned, AreSigned, TransactionsAreSigned};
ghost use Rattle.dubp_local.specs.Local.{all_hashes};
ghost use Rattle.dubp_local.specs.Directions.{comes_in};
ghost use Rattle.dubp_local.specs.Parts.{IsSignedIdentity, IsSignedMembership, IsSignedOver};

use dubp_atoms::{Currency, Hash, Hashing, TextSink};
use dubp_block::{Block, IdentityLine, MemberLine};
use dubp_cond::Tx;
use dubp_docs::{TxHashes, identity_hash, membership_hash};
use dubp_verdict::Verdicts;

/// InnerHash is the hash of the text above its line, which is at hand: rule `L01`.
pub(crate) fn inner_hash_is_right(block: &Block, inner: &Hash) -> bool
    requires { inner.now ≡ hash_of (inner_text block.now) }
    ensures { IsTrue result ↔ InnerHashIsRight block.now }
{
    block.inner_hash == *inner
}

/// The signature of the block has a verdict by Issuer, over the text that was put: rule `L05`.
pub(crate) fn block_is_signed(block: &Block, closing: &Hashing, verdicts: &Verdicts) -> bool
    requires { ⟦<Hashing as TextSink>⟧.has closing.now (signed_text block.now) }
    ensures { IsTrue result ↔ BlockIsSigned verdicts.now block.now }
{
    verdicts.has_hash(&block.issuer, &closing.copy().hash(), &block.sig)
}

/// Each signature in Identities has a verdict by its key over the identity document: rule `L07`.
pub(crate) fn identities_are_signed(block: &Block, verdicts: &Verdicts) -> bool
    ensures { IsTrue result ↔ IdentitiesAreSigned verdicts.now block.now }
{
    let currency = &block.currency;
    block
        .identities
        .as_slice()
        .iter()
        .all(|line| identity_is_signed(line, currency, verdicts))
}

fn identity_is_signed(line: &IdentityLine, currency: &Currency, verdicts: &Verdicts) -> bool
    ensures { IsTrue result ↔ IsSignedIdentity verdicts.now currency.now line.now }
{
    let hash = identity_hash(currency, &line.key, &line.uid, &line.stamp);
    verdicts.has_hash(&line.key, &hash, &line.sig)
}

/// Whether a membership document asks to be a member, or to be none any more.
#[derive(Clone, Copy)]
pub(crate) enum Direction {
    In,
    Out,
}

/// Each line of Joiners and Actives has a verdict over its membership document with IN, each line of Leavers with OUT: rule `L11`.
pub(crate) fn memberships_are_signed(block: &Block, verdicts: &Verdicts) -> bool
    ensures { IsTrue result ↔ MembershipsAreSigned verdicts.now block.now }
{
    let leavers = block.leavers.as_slice();
    comers_are_signed(block, verdicts)
        && are_signed(leavers, Direction::Out, &block.currency, verdicts)
}

fn comers_are_signed(block: &Block, verdicts: &Verdicts) -> bool
    ensures { IsTrue result ↔ AreSigned verdicts.now block.now.currency true (block.now.joiners ++ block.now.actives) }
{
    let joiners = block.joiners.as_slice();
    let actives = block.actives.as_slice();
    are_signed(joiners, Direction::In, &block.currency, verdicts)
        && are_signed(actives, Direction::In, &block.currency, verdicts)
}

fn are_signed(
    lines: &[MemberLine],
    direction: Direction,
    currency: &Currency,
    verdicts: &Verdicts,
) -> bool
    ensures { IsTrue result ↔ AreSigned verdicts.now currency.now (comes_in direction) lines.now }
{
    lines.iter().all(|line| membership_is_signed(line, direction, currency, verdicts))
}

fn membership_is_signed(
    line: &MemberLine,
    direction: Direction,
    currency: &Currency,
    verdicts: &Verdicts,
) -> bool
    ensures { IsTrue result ↔ IsSignedMembership verdicts.now currency.now (comes_in direction) line.now }
{
    let comes_in = matches!(direction, Direction::In);
    let hash = membership_hash(
        currency,
        &line.key,
        &line.stamp,
        comes_in,
        &line.uid,
        &line.identity_stamp,
    );
    verdicts.has_hash(&line.key, &hash, &line.sig)
}

/// In each transaction each signature has a verdict, by the issuer at its place, over the signed text: rule `L24`.
pub(crate) fn transactions_are_signed(
    block: &Block,
    hashes: &[TxHashes],
    verdicts: &Verdicts,
) -> bool
    requires { hashes.now ≡ all_hashes block.now }
    ensures { IsTrue result ↔ TransactionsAreSigned verdicts.now block.now }
{
    let transactions = block.transactions.as_slice();
    for i in 0..transactions.len() {
        if !is_signed_by_all(&transactions[i], &hashes[i].signed, verdicts) {
            return false;
        }
    }
    true
}

fn is_signed_by_all(tx: &Tx, hash: &Hash, verdicts: &Verdicts) -> bool
    ensures { IsTrue result ↔ IsSignedOver verdicts.now hash.now tx.now }
{
    let sigs = tx.sigs.as_slice();
    tx.issuers
        .as_slice()
        .iter()
        .zip(sigs)
        .all(|(issuer, sig)| verdicts.has_hash(issuer, hash, sig))
}
