ghost use Rattle.std.specs.Prelude.{◌≡◌};
ghost use Rattle.dubp_lines.specs.Taking.{GivesInRoom};
ghost use Rattle.dubp_block.specs.Reading.{section_at, first_sections_at, last_sections_at};

use crate::block::{CertLine, IdentityLine, MemberLine, RevokedLine};
use crate::rows::{ReadRow, push, take_row};
use crate::transactions::take_transactions;
use dubp_atoms::{Items, Key};
use dubp_cond::Tx;
use dubp_lines::{LineRefusal, Lines};
use std::alloc::Global;

/// The first four sections.
#[derive(Drop)]
pub struct FirstSections {
    pub identities: Items<IdentityLine>,
    pub joiners: Items<MemberLine>,
    pub actives: Items<MemberLine>,
    pub leavers: Items<MemberLine>,
}

/// Takes the first four sections, up to the heading behind them.
#[tactic(auto, unfolding(crate::specs::Reading::first_sections_at, dubp_lines::specs::Readers::and_then))]
pub fn take_first_sections(
    alloc: Global,
    lines: &mut Lines<'_>,
) -> Result<FirstSections, LineRefusal>
    ensures { GivesInRoom (λ x. (x, lines.new)) result (first_sections_at lines.old) }
{
    let identities = take_section::<IdentityLine>(alloc, lines, b"Identities:", b"Joiners:")?;
    let joiners = take_section::<MemberLine>(alloc, lines, b"Joiners:", b"Actives:")?;
    let actives = take_section::<MemberLine>(alloc, lines, b"Actives:", b"Leavers:")?;
    let leavers = take_section::<MemberLine>(alloc, lines, b"Leavers:", b"Revoked:")?;
    Ok(FirstSections {
        identities,
        joiners,
        actives,
        leavers,
    })
}

/// The last four sections.
#[derive(Drop)]
pub struct LastSections {
    pub revoked: Items<RevokedLine>,
    pub excluded: Items<Key>,
    pub certifications: Items<CertLine>,
    pub transactions: Items<Tx>,
}

/// Takes the last four sections, up to a line that begins no transaction.
#[tactic(auto, unfolding(crate::specs::Reading::last_sections_at, dubp_lines::specs::Readers::and_then))]
pub fn take_last_sections(alloc: Global, lines: &mut Lines<'_>) -> Result<LastSections, LineRefusal>
    ensures { GivesInRoom (λ x. (x, lines.new)) result (last_sections_at lines.old) }
{
    let revoked = take_section::<RevokedLine>(alloc, lines, b"Revoked:", b"Excluded:")?;
    let excluded = take_section::<Key>(alloc, lines, b"Excluded:", b"Certifications:")?;
    let certifications = take_section::<CertLine>(
        alloc,
        lines,
        b"Certifications:",
        b"Transactions:",
    )?;
    let transactions = take_transactions(alloc, lines)?;
    Ok(LastSections {
        revoked,
        excluded,
        certifications,
        transactions,
    })
}

// Takes a heading, and lines of this kind up to the next heading.
fn take_section<R: ReadRow>(
    alloc: Global,
    lines: &mut Lines<'_>,
    heading: &[u8],
    next: &[u8],
) -> Result<Items<R::Value>, LineRefusal>
    ensures { GivesInRoom (λ v. (v, lines.new)) result (section_at heading.now next.now R.reads lines.old) }
{
    lines.take(heading)?;
    let mut taken = Vec::new(alloc);
    'entries: while !lines.is_next(next) {
        let row = take_row::<R>(alloc, lines)?;
        push(&mut taken, row)?;
    }
    Ok(Items::from_vec(taken))
}
