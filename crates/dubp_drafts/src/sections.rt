ghost use Rattle.std.specs.Prelude.{◌≡◌, ◌<◌, ◌++◌, All, IfOk, OnOk, map};
ghost use Rattle.dubp_atoms.specs.Same.{empty_stamp};
ghost use Rattle.dubp_atoms.specs.Spelling.{IsStamp};
ghost use Rattle.dubp_block.specs.Sections.{IsCertification, IsIdentity, IsMembership};
ghost use Rattle.dubp_drafts.specs.Drafting.{certification_given, certification_line, certified, identity_given, identity_line, member_line, membership_given, newcomers, renewed};

use crate::blanks::empty_stamp;
use crate::lines::{certification_lines, identity_lines, member_lines};
use crate::people::{certified, newcomers, renewed};
use dubp_atoms::{Hash, Items, Key, NoMemory, Sig, Stamp};
use dubp_block::{CertLine, IdentityLine, MemberLine};
use std::alloc::Global;

// Identities of the block of this number. Their verdicts are noted, as those of each section.
pub(crate) fn identities(
    alloc: Global,
    number: u64,
    stamp: &Stamp,
    verdicts: &mut Vec<(Key, Hash, Sig)>,
) -> Result<Items<IdentityLine>, NoMemory>
    requires number { number < 5000 }
    requires stamp { IsStamp stamp.now }
    ensures lines { IfOk result (λ lines. lines ≡ map (identity_line stamp.now) (newcomers number)) }
    ensures verdicts { OnOk result (verdicts.new.items ≡ verdicts.old.items ++ map (identity_given stamp.now) (newcomers number)) }
    ensures valid { IfOk result (λ lines. All IsIdentity lines) }
{
    let people = newcomers(alloc, number)?;
    identity_lines(alloc, stamp, people.as_slice(), verdicts)
}

// Joiners, whose identities are made on the same block.
pub(crate) fn joiners(
    alloc: Global,
    number: u64,
    stamp: &Stamp,
    verdicts: &mut Vec<(Key, Hash, Sig)>,
) -> Result<Items<MemberLine>, NoMemory>
    requires number { number < 5000 }
    requires stamp { IsStamp stamp.now }
    ensures lines { IfOk result (λ lines. lines ≡ map (member_line stamp.now stamp.now) (newcomers number)) }
    ensures verdicts { OnOk result (verdicts.new.items ≡ verdicts.old.items ++ map (membership_given stamp.now stamp.now) (newcomers number)) }
    ensures valid { IfOk result (λ lines. All IsMembership lines) }
{
    let people = newcomers(alloc, number)?;
    member_lines(alloc, stamp, stamp, people.as_slice(), verdicts)
}

// Actives, which are first members, so that their identities have the empty stamp.
pub(crate) fn actives(
    alloc: Global,
    number: u64,
    stamp: &Stamp,
    verdicts: &mut Vec<(Key, Hash, Sig)>,
) -> Result<Items<MemberLine>, NoMemory>
    requires number { number < 5000 }
    requires stamp { IsStamp stamp.now }
    ensures lines { IfOk result (λ lines. lines ≡ map (member_line stamp.now empty_stamp) (renewed number)) }
    ensures verdicts { OnOk result (verdicts.new.items ≡ verdicts.old.items ++ map (membership_given stamp.now empty_stamp) (renewed number)) }
    ensures valid { IfOk result (λ lines. All IsMembership lines) }
{
    let people = renewed(alloc, number)?;
    member_lines(alloc, stamp, &empty_stamp(), people.as_slice(), verdicts)
}

// Certifications, made on the block before.
pub(crate) fn certifications(
    alloc: Global,
    number: u64,
    stamp: &Stamp,
    verdicts: &mut Vec<(Key, Hash, Sig)>,
) -> Result<Items<CertLine>, NoMemory>
    requires number { number < 5000 }
    requires stamp { IsStamp stamp.now }
    ensures lines { IfOk result (λ lines. lines ≡ map (certification_line number stamp.now) (certified number)) }
    ensures verdicts { OnOk result (verdicts.new.items ≡ verdicts.old.items ++ map (certification_given stamp.now) (certified number)) }
    ensures valid { IfOk result (λ lines. All IsCertification lines) }
{
    let pairs = certified(alloc, number)?;
    certification_lines(alloc, number, stamp, pairs.as_slice(), verdicts)
}
