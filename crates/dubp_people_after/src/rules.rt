ghost use Rattle.std.specs.Prelude.{◌≡◌, ◌↔◌, IsTrue};
ghost use Rattle.std.specs.List.{AllByRecursion};
ghost use Rattle.dubp_block.specs.declared.block.Block.{Block as BlockValue};
ghost use Rattle.dubp_chain.specs.Chains.{Chain};
ghost use Rattle.dubp_registry.specs.OfValidity.{IssuersAreMembers, ReceiversAreMembers, ReceiversStay, MembershipsHaveIdentities, CertificationsAreSigned, may_certify};
ghost use Rattle.dubp_people_after.specs.Lines.{HasIdentity, HasMember, HasStaying, IsCertified};
ghost use Rattle.dubp_people_after.specs.Names.{Certifies, CertifiesOn};

use crate::after::{Name, WithBlock};
use dubp_atoms::{Currency, Stamp};
use dubp_block::{Block, CertLine, MemberLine};
use dubp_chain::certification_hash;
use dubp_verdict::Verdicts;

/// Each issuer of a certification is a member of the chain, or of the new chain where the chain is empty: rule `G68`.
pub fn issuers_are_members<A: WithBlock>(after: &A, block: &Block) -> bool
    ensures { (c : Chain) → A.after after.now c block.now → (IsTrue result ↔ IssuersAreMembers c block.now) }
{
    let lines = block.certifications.as_slice();
    lines.iter().all(|line| issuer_is_member(after, line))
}

fn issuer_is_member<A: WithBlock>(after: &A, line: &CertLine) -> bool
    ensures { (c : Chain) (b : BlockValue) → A.after after.now c b → result ≡ may_certify c b line.now.from }
{
    after.may_certify(line.from)
}

/// Each receiver of a certification is a member of the new chain: rule `G69`.
pub fn receivers_are_members<A: WithBlock>(after: &A, block: &Block) -> bool
    ensures { (c : Chain) → A.after after.now c block.now → (IsTrue result ↔ ReceiversAreMembers c block.now) }
{
    have_members(after, block.certifications.as_slice())
}

fn have_members<A: WithBlock>(after: &A, lines: &[CertLine]) -> bool
    ensures { (c : Chain) (b : BlockValue) → A.after after.now c b → (IsTrue result ↔ AllByRecursion (HasMember c b) lines.now) }
{
    lines.iter().all(|line| has_member(after, line))
}

fn has_member<A: WithBlock>(after: &A, line: &CertLine) -> bool
    ensures { (c : Chain) (b : BlockValue) → A.after after.now c b → (IsTrue result ↔ HasMember c b line.now) }
{
    after.is_member(line.to)
}

/// No receiver of a certification is leaving in the new chain: rule `G70`.
pub fn receivers_stay<A: WithBlock>(after: &A, block: &Block) -> bool
    ensures { (c : Chain) → A.after after.now c block.now → (IsTrue result ↔ ReceiversStay c block.now) }
{
    have_staying(after, block.certifications.as_slice())
}

fn have_staying<A: WithBlock>(after: &A, lines: &[CertLine]) -> bool
    ensures { (c : Chain) (b : BlockValue) → A.after after.now c b → (IsTrue result ↔ AllByRecursion (HasStaying c b) lines.now) }
{
    lines.iter().all(|line| has_staying(after, line))
}

fn has_staying<A: WithBlock>(after: &A, line: &CertLine) -> bool
    ensures { (c : Chain) (b : BlockValue) → A.after after.now c b → (IsTrue result ↔ HasStaying c b line.now) }
{
    !after.is_leaving(line.to)
}

/// Each membership has a line of Identities, in the chain or in the block, with its key, UID and identity stamp: rule `G82`.
pub fn memberships_have_identities<A: WithBlock>(after: &A, block: &Block) -> bool
    ensures { (c : Chain) → A.after after.now c block.now → (IsTrue result ↔ MembershipsHaveIdentities c block.now) }
{
    if !have_identities(after, block.joiners.as_slice()) {
        return false;
    }
    if !have_identities(after, block.actives.as_slice()) {
        return false;
    }
    have_identities(after, block.leavers.as_slice())
}

fn have_identities<A: WithBlock>(after: &A, lines: &[MemberLine]) -> bool
    ensures { (c : Chain) (b : BlockValue) → A.after after.now c b → (IsTrue result ↔ AllByRecursion (HasIdentity c b) lines.now) }
{
    lines.iter().all(|line| has_identity(after, line))
}

fn has_identity<A: WithBlock>(after: &A, line: &MemberLine) -> bool
    ensures { (c : Chain) (b : BlockValue) → A.after after.now c b → (IsTrue result ↔ HasIdentity c b line.now) }
{
    after.has_identity(line)
}

/// Each certification has a verdict by its issuer over the certification document on the identity of its receiver in the new
/// chain: rule `G72`. Without an identity it has none.
pub fn certifications_are_signed<A: WithBlock>(
    after: &A,
    block: &Block,
    verdicts: &Verdicts,
) -> bool
    ensures { (c : Chain) → A.after after.now c block.now → (IsTrue result ↔ CertificationsAreSigned verdicts.now c block.now) }
{
    are_certified(after, block, block.certifications.as_slice(), verdicts)
}

fn are_certified<A: WithBlock>(
    after: &A,
    block: &Block,
    lines: &[CertLine],
    verdicts: &Verdicts,
) -> bool
    ensures { (c : Chain) → A.after after.now c block.now → (IsTrue result ↔ AllByRecursion (IsCertified verdicts.now c block.now) lines.now) }
{
    lines
        .iter()
        .all(|line| is_certified(after, block, line, verdicts))
}

fn is_certified<A: WithBlock>(
    after: &A,
    block: &Block,
    line: &CertLine,
    verdicts: &Verdicts,
) -> bool
    ensures { (c : Chain) → A.after after.now c block.now → (IsTrue result ↔ IsCertified verdicts.now c block.now line.now) }
{
    let name = after.name(line.to);
    let stamp = after.certification_stamp(line);
    certifies(&block.currency, line, name, stamp, verdicts)
}

/// Whether there are both, and the issuer's signature of the document that names them has a verdict.
fn certifies(
    currency: &Currency,
    line: &CertLine,
    name: Option<Name>,
    stamp: Option<Stamp>,
    verdicts: &Verdicts,
) -> bool
    ensures { IsTrue result ↔ Certifies verdicts.now currency.now line.now name stamp }
{
    match (name, stamp) {
        (Some(name), Some(stamp)) => certifies_on(currency, line, &name, &stamp, verdicts),
        _ => false,
    }
}

fn certifies_on(
    currency: &Currency,
    line: &CertLine,
    name: &Name,
    stamp: &Stamp,
    verdicts: &Verdicts,
) -> bool
    ensures { IsTrue result ↔ CertifiesOn verdicts.now currency.now line.now name.now stamp.now }
{
    let hash = certification_hash(
        currency,
        &line.from,
        &line.to,
        &name.uid,
        &name.stamp,
        &name.sig,
        stamp,
    );
    verdicts.has_hash(&line.from, &hash, &line.sig)
}
