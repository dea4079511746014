ghost use Rattle.std.specs.Prelude.{◌≡◌, ◌<◌, ◌++◌, ◌∷◌, [], All, IfOk, OnOk, map};
ghost use Rattle.dubp_atoms.specs.Spelling.{IsStamp};
ghost use Rattle.dubp_block.specs.Sections.{IsCertification, IsIdentity, IsMembership};
ghost use Rattle.dubp_drafts.specs.Drafting.{certification_given, certification_line, identity_given, identity_line, member_line, membership_given};

use crate::documents::{certification_document, identity_document, membership_document};
use crate::keys::{key_of, uid_of};
use crate::memory::push;
use crate::signing::sign_document;
use dubp_atoms::{Hash, Items, Key, NoMemory, Sig, Stamp};
use dubp_block::{CertLine, IdentityLine, MemberLine};
use std::alloc::Global;

// The lines by which these people take their names, on the block of a stamp. Their verdicts are noted.
pub(crate) fn identity_lines(
    alloc: Global,
    stamp: &Stamp,
    people: &[u16],
    verdicts: &mut Vec<(Key, Hash, Sig)>,
) -> Result<Items<IdentityLine>, NoMemory>
    requires { IsStamp stamp.now }
    ensures lines { IfOk result (λ lines. lines ≡ map (identity_line stamp.now) people.now) }
    ensures verdicts { OnOk result (verdicts.new.items ≡ verdicts.old.items ++ map (identity_given stamp.now) people.now) }
    ensures valid { IfOk result (λ lines. All IsIdentity lines) }
{
    let mut lines = Vec::new(alloc);
    for person in people {
        let line = identity_line(alloc, stamp, *person, verdicts)?;
        push(&mut lines, line)?;
    }
    Ok(Items::from_vec(lines))
}

// The lines by which these people ask to be members. Their identities have the stamp `since`.
pub(crate) fn member_lines(
    alloc: Global,
    stamp: &Stamp,
    since: &Stamp,
    people: &[u16],
    verdicts: &mut Vec<(Key, Hash, Sig)>,
) -> Result<Items<MemberLine>, NoMemory>
    requires stamp { IsStamp stamp.now }
    requires since { IsStamp since.now }
    ensures lines { IfOk result (λ lines. lines ≡ map (member_line stamp.now since.now) people.now) }
    ensures verdicts { OnOk result (verdicts.new.items ≡ verdicts.old.items ++ map (membership_given stamp.now since.now) people.now) }
    ensures valid { IfOk result (λ lines. All IsMembership lines) }
{
    let mut lines = Vec::new(alloc);
    for person in people {
        let line = member_line(alloc, stamp, since, *person, verdicts)?;
        push(&mut lines, line)?;
    }
    Ok(Items::from_vec(lines))
}

// The lines of these certifications, of one person by another, in the block of this number.
pub(crate) fn certification_lines(
    alloc: Global,
    number: u64,
    stamp: &Stamp,
    pairs: &[(u16, u16)],
    verdicts: &mut Vec<(Key, Hash, Sig)>,
) -> Result<Items<CertLine>, NoMemory>
    requires number { number < 5000 }
    requires stamp { IsStamp stamp.now }
    ensures lines { IfOk result (λ lines. lines ≡ map (certification_line number stamp.now) pairs.now) }
    ensures verdicts { OnOk result (verdicts.new.items ≡ verdicts.old.items ++ map (certification_given stamp.now) pairs.now) }
    ensures valid { IfOk result (λ lines. All IsCertification lines) }
{
    let mut lines = Vec::new(alloc);
    for pair in pairs {
        let line = certification_line(alloc, number, stamp, *pair, verdicts)?;
        push(&mut lines, line)?;
    }
    Ok(Items::from_vec(lines))
}

fn identity_line(
    alloc: Global,
    stamp: &Stamp,
    person: u16,
    verdicts: &mut Vec<(Key, Hash, Sig)>,
) -> Result<IdentityLine, NoMemory>
    requires { IsStamp stamp.now }
    ensures line { IfOk result (λ line. line ≡ identity_line stamp.now person) }
    ensures verdict { OnOk result (verdicts.new.items ≡ verdicts.old.items ++ identity_given stamp.now person ∷ []) }
    ensures valid { IfOk result (λ line. IsIdentity line) }
{
    let key = key_of(u32::from(person));
    let document = identity_document(stamp, person);
    let sig = sign_document(alloc, &key, document, verdicts)?;
    Ok(IdentityLine {
        key,
        sig,
        stamp: *stamp,
        uid: uid_of(u32::from(person)),
    })
}

fn member_line(
    alloc: Global,
    stamp: &Stamp,
    since: &Stamp,
    person: u16,
    verdicts: &mut Vec<(Key, Hash, Sig)>,
) -> Result<MemberLine, NoMemory>
    requires stamp { IsStamp stamp.now }
    requires since { IsStamp since.now }
    ensures line { IfOk result (λ line. line ≡ member_line stamp.now since.now person) }
    ensures verdict { OnOk result (verdicts.new.items ≡ verdicts.old.items ++ membership_given stamp.now since.now person ∷ []) }
    ensures valid { IfOk result (λ line. IsMembership line) }
{
    let key = key_of(u32::from(person));
    let document = membership_document(stamp, since, person);
    let sig = sign_document(alloc, &key, document, verdicts)?;
    Ok(MemberLine {
        key,
        sig,
        stamp: *stamp,
        identity_stamp: *since,
        uid: uid_of(u32::from(person)),
    })
}

// It is made on the block before that of this number.
fn certification_line(
    alloc: Global,
    number: u64,
    stamp: &Stamp,
    pair: (u16, u16),
    verdicts: &mut Vec<(Key, Hash, Sig)>,
) -> Result<CertLine, NoMemory>
    requires number { number < 5000 }
    requires stamp { IsStamp stamp.now }
    ensures line { IfOk result (λ line. line ≡ certification_line number stamp.now pair) }
    ensures verdict { OnOk result (verdicts.new.items ≡ verdicts.old.items ++ certification_given stamp.now pair ∷ []) }
    ensures valid { IfOk result (λ line. IsCertification line) }
{
    let (from, to) = pair;
    let key = key_of(u32::from(from));
    let document = certification_document(alloc, stamp, from, to)?;
    let sig = sign_document(alloc, &key, document, verdicts)?;
    Ok(CertLine {
        from: key,
        to: key_of(u32::from(to)),
        number: number.saturating_sub(1),
        sig,
    })
}
