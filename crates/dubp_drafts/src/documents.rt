ghost use Rattle.std.specs.Prelude.{◌≡◌, IfOk};
ghost use Rattle.dubp_atoms.specs.Spelling.{IsStamp};
ghost use Rattle.dubp_docs.specs.Spelling.{IsDoc};
ghost use Rattle.dubp_drafts.specs.Drafting.{certification_document, identity_document, identity_message, membership_document};
ghost use Rattle.dubp_drafts.specs.Keys.{key_text};
ghost use Rattle.dubp_drafts.specs.Sealing.{signature_of};

use crate::blanks::{blank_sig, currency};
use crate::keys::{key_of, uid_of};
use crate::signing::{sign, text_to_sign};
use dubp_atoms::{NoMemory, Sig, Stamp};
use dubp_docs::{CertificationDoc, Doc, IdentityDoc, MembershipDoc};
use std::alloc::Global;

// By which a person takes a name, on the block of a stamp.
pub(crate) fn identity_document(stamp: &Stamp, person: u16) -> Doc
    requires { IsStamp stamp.now }
    ensures value { result ≡ identity_document stamp.now person }
    ensures valid { IsDoc result }
{
    Doc::Identity(IdentityDoc {
        currency: currency(),
        issuer: key_of(u32::from(person)),
        unique_id: uid_of(u32::from(person)),
        timestamp: *stamp,
        sig: blank_sig(),
    })
}

// By which a person, whose identity has the stamp `since`, asks to be a member.
pub(crate) fn membership_document(stamp: &Stamp, since: &Stamp, person: u16) -> Doc
    requires stamp { IsStamp stamp.now }
    requires since { IsStamp since.now }
    ensures value { result ≡ membership_document stamp.now since.now person }
    ensures valid { IsDoc result }
{
    Doc::Membership(MembershipDoc {
        currency: currency(),
        issuer: key_of(u32::from(person)),
        block: *stamp,
        membership: true,
        user_id: uid_of(u32::from(person)),
        cert_ts: *since,
        sig: blank_sig(),
    })
}

// By which one person certifies another, whose identity has the same stamp.
pub(crate) fn certification_document(
    alloc: Global,
    stamp: &Stamp,
    from: u16,
    to: u16,
) -> Result<Doc, NoMemory>
    requires { IsStamp stamp.now }
    ensures value { IfOk result (λ document. document ≡ certification_document stamp.now (from, to)) }
    ensures valid { IfOk result (λ document. IsDoc document) }
{
    let idty_signature = identity_signature(alloc, stamp, to)?;
    Ok(Doc::Certification(CertificationDoc {
        currency: currency(),
        issuer: key_of(u32::from(from)),
        idty_issuer: key_of(u32::from(to)),
        idty_unique_id: uid_of(u32::from(to)),
        idty_timestamp: *stamp,
        idty_signature,
        cert_timestamp: *stamp,
        sig: blank_sig(),
    }))
}

// The signature of a person's identity.
fn identity_signature(alloc: Global, stamp: &Stamp, person: u16) -> Result<Sig, NoMemory>
    requires { IsStamp stamp.now }
    ensures { IfOk result (λ sig. sig ≡ signature_of (key_text person) (identity_message stamp.now person)) }
{
    let text = text_to_sign(alloc, identity_document(stamp, person))?;
    Ok(sign(&key_of(u32::from(person)), text.as_slice()))
}
