ghost use Rattle.std.specs.Prelude.{◌≡◌, ℕ, Result};
ghost use Rattle.dubp_lines.specs.Lines.{Place, split};
ghost use Rattle.dubp_lines.specs.Taking.{Gives};
ghost use Rattle.dubp_docs.specs.Reading.{opening_at, identity_at, revocation_at, certification_at, membership_at, last, short_doc_of};

use crate::doc::{CertificationDoc, Doc, IdentityDoc, MembershipDoc, RevocationDoc};
use crate::kinds::{DirectionText, StampText, UidText};
use crate::steps::{take_just, take_named, take_sig};
use dubp_atoms::{Currency, Key, Sig};
use dubp_lines::{Lines, Refused};

/// Takes the first three lines of a document, of which the second is given.
#[tactic(auto, unfolding(crate::specs::Reading::opening_at))]
pub fn take_opening(lines: &mut Lines<'_>, kind: &[u8]) -> Result<Currency, Refused>
    ensures { Gives (λ x. (x, lines.new)) result (opening_at kind.now lines.old) }
{
    take_just(lines, b"Version: 10")?;
    take_just(lines, kind)?;
    take_named::<Currency>(lines, b"Currency: ")
}

fn take_identity(lines: &mut Lines<'_>) -> Result<IdentityDoc, Refused>
    ensures { Gives (λ x. (x, lines.new)) result (identity_at lines.old) }
{
    let currency = take_opening(lines, b"Type: Identity")?;
    let issuer = take_named::<Key>(lines, b"Issuer: ")?;
    let unique_id = take_named::<UidText>(lines, b"UniqueID: ")?;
    let timestamp = take_named::<StampText>(lines, b"Timestamp: ")?;
    let sig = take_sig(lines)?;
    Ok(IdentityDoc {
        currency,
        issuer,
        unique_id,
        timestamp,
        sig,
    })
}

fn take_revocation(lines: &mut Lines<'_>) -> Result<RevocationDoc, Refused>
    ensures { Gives (λ x. (x, lines.new)) result (revocation_at lines.old) }
{
    let currency = take_opening(lines, b"Type: Revocation")?;
    let issuer = take_named::<Key>(lines, b"Issuer: ")?;
    let idty_unique_id = take_named::<UidText>(lines, b"IdtyUniqueID: ")?;
    let idty_timestamp = take_named::<StampText>(lines, b"IdtyTimestamp: ")?;
    let idty_signature = take_named::<Sig>(lines, b"IdtySignature: ")?;
    let sig = take_sig(lines)?;
    Ok(RevocationDoc {
        currency,
        issuer,
        idty_unique_id,
        idty_timestamp,
        idty_signature,
        sig,
    })
}

fn take_certification(lines: &mut Lines<'_>) -> Result<CertificationDoc, Refused>
    ensures { Gives (λ x. (x, lines.new)) result (certification_at lines.old) }
{
    let currency = take_opening(lines, b"Type: Certification")?;
    let issuer = take_named::<Key>(lines, b"Issuer: ")?;
    let idty_issuer = take_named::<Key>(lines, b"IdtyIssuer: ")?;
    let idty_unique_id = take_named::<UidText>(lines, b"IdtyUniqueID: ")?;
    let idty_timestamp = take_named::<StampText>(lines, b"IdtyTimestamp: ")?;
    let idty_signature = take_named::<Sig>(lines, b"IdtySignature: ")?;
    let cert_timestamp = take_named::<StampText>(lines, b"CertTimestamp: ")?;
    let sig = take_sig(lines)?;
    Ok(CertificationDoc {
        currency,
        issuer,
        idty_issuer,
        idty_unique_id,
        idty_timestamp,
        idty_signature,
        cert_timestamp,
        sig,
    })
}

fn take_membership(lines: &mut Lines<'_>) -> Result<MembershipDoc, Refused>
    ensures { Gives (λ x. (x, lines.new)) result (membership_at lines.old) }
{
    let currency = take_opening(lines, b"Type: Membership")?;
    let issuer = take_named::<Key>(lines, b"Issuer: ")?;
    let block = take_named::<StampText>(lines, b"Block: ")?;
    let membership = take_named::<DirectionText>(lines, b"Membership: ")?;
    let user_id = take_named::<UidText>(lines, b"UserID: ")?;
    let cert_ts = take_named::<StampText>(lines, b"CertTS: ")?;
    let sig = take_sig(lines)?;
    Ok(MembershipDoc {
        currency,
        issuer,
        block,
        membership,
        user_id,
        cert_ts,
        sig,
    })
}

/// The value that was taken, where nothing stands behind it.
fn whole<T: Drop>(taken: Result<T, Refused>, lines: &Lines<'_>) -> Option<T>
    ensures { (read : Result (T × Place) ℕ) → Gives (λ x. (x, lines.now)) taken read → result ≡ last read }
{
    match taken {
        Ok(value) => { if lines.is_done() { Some(value) } else { None } }
        Err(_) => None,
    }
}

fn read_identity(text: &[u8]) -> Option<IdentityDoc>
    ensures { result ≡ last (identity_at (split text.now)) }
{
    let mut lines = Lines::of(text);
    let taken = take_identity(&mut lines);
    whole(taken, &lines)
}

fn read_revocation(text: &[u8]) -> Option<RevocationDoc>
    ensures { result ≡ last (revocation_at (split text.now)) }
{
    let mut lines = Lines::of(text);
    let taken = take_revocation(&mut lines);
    whole(taken, &lines)
}

fn read_certification(text: &[u8]) -> Option<CertificationDoc>
    ensures { result ≡ last (certification_at (split text.now)) }
{
    let mut lines = Lines::of(text);
    let taken = take_certification(&mut lines);
    whole(taken, &lines)
}

fn read_membership(text: &[u8]) -> Option<MembershipDoc>
    ensures { result ≡ last (membership_at (split text.now)) }
{
    let mut lines = Lines::of(text);
    let taken = take_membership(&mut lines);
    whole(taken, &lines)
}

/// The document that this text is, where it is one of the four that take no memory.
#[tactic(auto, unfolding(crate::specs::Reading::short_doc_of))]
pub fn read_short(text: &[u8]) -> Option<Doc>
    ensures { result ≡ short_doc_of (split text.now) }
{
    if let Some(doc) = read_identity(text) {
        return Some(Doc::Identity(doc));
    }
    if let Some(doc) = read_revocation(text) {
        return Some(Doc::Revocation(doc));
    }
    if let Some(doc) = read_certification(text) {
        return Some(Doc::Certification(doc));
    }
    if let Some(doc) = read_membership(text) {
        return Some(Doc::Membership(doc));
    }
    None
}
