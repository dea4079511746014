//! Rules on the lines of Revoked.
ghost use Rattle.std.specs.Prelude.{◌↔◌, IsTrue};
ghost use Rattle.std.specs.Option.{IsSomeAnd};
ghost use Rattle.dubp_chain.specs.Chains.{Chain};
ghost use Rattle.dubp_validity.specs.Rules.{IsSound};
ghost use Rattle.dubp_validity.specs.PeopleRules.{RevokedHaveIdentities, RevocationsAreSigned};
ghost use Rattle.dubp_people_rules.specs.Lines.{MayBeRevoked, IsRevocationSigned, IsSignedRevocation};

use crate::identities::has_identity;
use dubp_atoms::Currency;
use dubp_block::{Block, RevokedLine};
use dubp_docs::revocation_hash;
use dubp_iindex::IdentityRow;
use dubp_moving::Tables;
use dubp_registry::Registry;
use dubp_verdict::Verdicts;

/// Each key of Revoked has an identity in the chain and is not revoked in it: rule `G83`.
pub fn revoked_have_identities(registry: &Registry, block: &Block) -> bool
    ensures { (c : Chain) → ⟦<Registry as Tables<Block>>⟧.at registry.now c → IsSound c → (IsTrue result ↔ RevokedHaveIdentities c block.now) }
{
    let lines = block.revoked.as_slice();
    for line in lines {
        if !may_be_revoked(registry, line) {
            return false;
        }
    }
    true
}

fn may_be_revoked(registry: &Registry, line: &RevokedLine) -> bool
    ensures { (c : Chain) → ⟦<Registry as Tables<Block>>⟧.at registry.now c → IsSound c → (IsTrue result ↔ MayBeRevoked c line.now) }
{
    has_identity(registry, line.key) && !registry.is_revoked(line.key)
}

/// Each line of Revoked has a verdict by its key over the revocation document of the key's identity in the chain: rule `G84`.
/// Without an identity it has none.
pub fn revocations_are_signed(registry: &Registry, block: &Block, verdicts: &Verdicts) -> bool
    ensures { (c : Chain) → ⟦<Registry as Tables<Block>>⟧.at registry.now c → (IsTrue result ↔ RevocationsAreSigned verdicts.now c block.now) }
{
    let lines = block.revoked.as_slice();
    for line in lines {
        if !revocation_is_signed(registry, block, verdicts, line) {
            return false;
        }
    }
    true
}

fn revocation_is_signed(
    registry: &Registry,
    block: &Block,
    verdicts: &Verdicts,
    line: &RevokedLine,
) -> bool
    ensures { (c : Chain) → ⟦<Registry as Tables<Block>>⟧.at registry.now c → (IsTrue result ↔ IsRevocationSigned verdicts.now c block.now line.now) }
{
    is_signed_by(registry.identity(line.key), &block.currency, verdicts, line)
}

/// Whether there is an identity, and the line has a verdict over its revocation document.
fn is_signed_by(
    identity: Option<IdentityRow>,
    currency: &Currency,
    verdicts: &Verdicts,
    line: &RevokedLine,
) -> bool
    ensures { IsTrue result ↔ IsSomeAnd identity (IsSignedRevocation verdicts.now currency.now line.now) }
{
    match identity {
        Some(row) => is_signed_over(&row, currency, verdicts, line),
        None => false,
    }
}

/// Whether the line has a verdict over the revocation document of the identity with this row.
fn is_signed_over(
    row: &IdentityRow,
    currency: &Currency,
    verdicts: &Verdicts,
    line: &RevokedLine,
) -> bool
    ensures { IsTrue result ↔ IsSignedRevocation verdicts.now currency.now line.now row.now }
{
    let hash = revocation_hash(currency, &line.key, &row.uid, &row.stamp, &row.sig);
    verdicts.has_hash(&line.key, &hash, &line.sig)
}
