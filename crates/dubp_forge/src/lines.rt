ghost use Rattle.std.specs.Prelude.{◌≡◌, ◌++◌, ◌∷◌, [], OnOk};
ghost use Rattle.dubp_forge.specs.Steps.{all_but_last};
ghost use Rattle.dubp_forging.specs.Drafts.{certification_line as the_certification_line, identity_line as the_identity_line, membership_line as the_membership_line, revoked_line as the_revoked_line};

use dubp_atoms::{Items, NoMemory};
use dubp_block::{CertLine, IdentityLine, MemberLine, RevokedLine};
use dubp_docs::{CertificationDoc, IdentityDoc, MembershipDoc, RevocationDoc};
use std::alloc::Global;
use std::mem;

/// Puts a line behind those of a section. After `NoMemory` the section is of no use.
pub(crate) fn push<L: Drop>(alloc: Global, section: &mut Items<L>, line: L) -> Result<(), NoMemory>
    ensures { OnOk result (section.new ≡ section.old ++ line ∷ []) }
{
    let mut lines = mem::replace(section, Items::new(alloc)).into_vec();
    lines.push(line).map_err(|_| NoMemory)?;
    *section = Items::from_vec(lines);
    Ok(())
}

/// Takes the last line off a section. It takes no memory.
pub(crate) fn pop<L: Drop>(alloc: Global, section: &mut Items<L>)
    ensures { section.new ≡ all_but_last section.old }
{
    let mut lines = mem::replace(section, Items::new(alloc)).into_vec();
    lines.pop();
    *section = Items::from_vec(lines);
}

/// The line of an identity.
pub(crate) fn identity_line(document: &IdentityDoc) -> IdentityLine
    ensures { result ≡ the_identity_line document.now }
{
    IdentityLine {
        key: document.issuer,
        sig: document.sig,
        stamp: document.timestamp,
        uid: document.unique_id,
    }
}

/// The line of a membership.
pub(crate) fn membership_line(document: &MembershipDoc) -> MemberLine
    ensures { result ≡ the_membership_line document.now }
{
    MemberLine {
        key: document.issuer,
        sig: document.sig,
        stamp: document.block,
        identity_stamp: document.cert_ts,
        uid: document.user_id,
    }
}

/// The line of a revocation.
pub(crate) fn revoked_line(document: &RevocationDoc) -> RevokedLine
    ensures { result ≡ the_revoked_line document.now }
{
    RevokedLine {
        key: document.issuer,
        sig: document.sig,
    }
}

/// The line of a certification, with the number of its stamp.
pub(crate) fn certification_line(document: &CertificationDoc) -> CertLine
    ensures { result ≡ the_certification_line document.now }
{
    CertLine {
        from: document.issuer,
        to: document.idty_issuer,
        number: document.cert_timestamp.number,
        sig: document.sig,
    }
}
