ghost use Rattle.std.specs.Prelude.{◌≡◌, ◌∷◌, false, nat_le, IfOk, OnOk, fold};
ghost use Rattle.std.specs.Option.{option_map_or};
ghost use Rattle.std.specs.BTreeSet.{contains};
ghost use Rattle.dubp_atoms.specs.Same.{Text};
ghost use Rattle.dubp_moving.specs.States.{states};
ghost use Rattle.dubp_block.specs.declared.block.Block.{Block as BlockValue};
ghost use Rattle.dubp_chain.specs.Chains.{Chain};
ghost use Rattle.dubp_chain.specs.People.{expired};
ghost use Rattle.dubp_validity.specs.Rules.{IsSound};
ghost use Rattle.dubp_cindex.specs.Rows.{lives};
ghost use Rattle.dubp_left.specs.Left.{membership_left, memberships_left, certifications_left};
ghost use Rattle.dubp_left.specs.Next.{IsWritten};
ghost use Rattle.dubp_steps.specs.AfterLines.{lasting as lasting_of};
ghost use Rattle.dubp_steps.specs.Ordered.{text_cmp, pair_cmp};
ghost use Rattle.dubp_steps.specs.Taken.{is_over_at_once, is_revoked_at_once, is_ended_at_once};
ghost use Rattle.dubp_steps.specs.Loops.{over_line, over_by_time_line, ended_line};
ghost use Rattle.dubp_people_apply.specs.Taking.{IsSince, AreNoted};

use crate::ended::Ended;
use crate::queue::{later, twice_later};
use crate::records::{time_of_certification, time_of_membership};
use crate::taking::note;
use dubp_atoms::{Key, NoMemory};
use dubp_block::{Block, CertLine, MemberLine};
use dubp_cindex::{CIndex, CertRow, CertRows};
use dubp_left::{Facts, Next};
use dubp_mindex::{MIndex, MemberRow, MemberRows};
use dubp_moving::Tables;
use std::alloc::Global;
use std::collections::BTreeSet;

/// Whether the time of the chain has reached this one.
fn is_reached(time: u64, since: Option<u64>) -> bool
    ensures { result ≡ option_map_or (nat_le time) since false }
{
    match since {
        None => false,
        Some(now) => time <= now,
    }
}

/// Whether the membership is over at the time of the chain, where it lasts so long.
fn is_over(row: &Option<MemberRow>, lasting: u64, since: Option<u64>) -> bool
    ensures { (c : Chain) (b : BlockValue) (k : Text) → IsSound (b ∷ c) → IsSince c since → lasting ≡ lasting_of c b → row.now ≡ membership_left c k → result ≡ expired c k }
{
    match row {
        None => false,
        Some(row) => is_reached(later(row.made, lasting), since),
    }
}

/// Whether the certification is live.
fn is_live(row: &Option<CertRow>) -> bool
    ensures { result ≡ lives row.now }
{
    match row {
        Some(row) => row.live,
        None => false,
    }
}

/// The key of a line of Joiners or Actives joins the set, where its membership is over with the line and was not before.
fn note_over(
    memberships: &MIndex,
    facts: &Facts,
    since: Option<u64>,
    block: &Block,
    next: &Next,
    line: &MemberLine,
    set: &mut BTreeSet<Key>,
) -> Result<(), NoMemory>
    ensures { OnOk result ((c : Chain) → ⟦<Facts as Tables<Block>>⟧.at facts.now c → ⟦<MIndex as Tables<MemberRows>>⟧.at memberships.now (states memberships_left c) → IsWritten c block.now next.now → IsSince c since
        → (k : Text) → contains text_cmp set.new k ≡ over_line c block.now k (contains text_cmp set.old k) line.now) }
{
    let lasting = next.params.ms_validity;
    let made = time_of_membership(facts, block, line);
    let row = memberships.row(line.key);
    if next.time < later(made, lasting) {
        return Ok(());
    }
    if is_over(&row, lasting, since) {
        return Ok(());
    }
    note(set, line.key)
}

/// The keys of the lines of the section join the set, each where its membership is over with the line and was not before.
fn note_all_over(
    memberships: &MIndex,
    facts: &Facts,
    since: Option<u64>,
    block: &Block,
    next: &Next,
    lines: &[MemberLine],
    set: &mut BTreeSet<Key>,
) -> Result<(), NoMemory>
    ensures { OnOk result ((c : Chain) → ⟦<Facts as Tables<Block>>⟧.at facts.now c → ⟦<MIndex as Tables<MemberRows>>⟧.at memberships.now (states memberships_left c) → IsWritten c block.now next.now → IsSince c since
        → (k : Text) → contains text_cmp set.new k ≡ fold (over_line c block.now k) (contains text_cmp set.old k) lines.now) }
{
    for line in lines {
        note_over(memberships, facts, since, block, next, line, set)?;
    }
    Ok(())
}

/// The key of a line of Joiners or Actives joins the set, where it is revoked by time with the line.
fn note_revoked(
    facts: &Facts,
    block: &Block,
    next: &Next,
    line: &MemberLine,
    set: &mut BTreeSet<Key>,
) -> Result<(), NoMemory>
    ensures { OnOk result ((c : Chain) → ⟦<Facts as Tables<Block>>⟧.at facts.now c → IsWritten c block.now next.now
        → (k : Text) → contains text_cmp set.new k ≡ over_by_time_line c block.now k (contains text_cmp set.old k) line.now) }
{
    let lasting = next.params.ms_validity;
    let made = time_of_membership(facts, block, line);
    if twice_later(made, lasting) <= next.time {
        note(set, line.key)
    } else {
        Ok(())
    }
}

/// The keys of the lines of the section join the set, each where it is revoked by time with the line.
fn note_all_revoked(
    facts: &Facts,
    block: &Block,
    next: &Next,
    lines: &[MemberLine],
    set: &mut BTreeSet<Key>,
) -> Result<(), NoMemory>
    ensures { OnOk result ((c : Chain) → ⟦<Facts as Tables<Block>>⟧.at facts.now c → IsWritten c block.now next.now
        → (k : Text) → contains text_cmp set.new k ≡ fold (over_by_time_line c block.now k) (contains text_cmp set.old k) lines.now) }
{
    for line in lines {
        note_revoked(facts, block, next, line, set)?;
    }
    Ok(())
}

/// The pair of a line of Certifications joins the set, where it is at its end with the line and was live before.
fn note_ended(
    certifications: &CIndex,
    facts: &Facts,
    block: &Block,
    next: &Next,
    line: &CertLine,
    set: &mut BTreeSet<(Key, Key)>,
) -> Result<(), NoMemory>
    ensures { OnOk result ((c : Chain) → ⟦<Facts as Tables<Block>>⟧.at facts.now c → ⟦<CIndex as Tables<CertRows>>⟧.at certifications.now (states certifications_left c) → IsWritten c block.now next.now
        → (x y : Text) → contains pair_cmp set.new (x, y) ≡ ended_line c block.now x y (contains pair_cmp set.old (x, y)) line.now) }
{
    let made = time_of_certification(facts, block, line);
    let row = certifications.row(line.from, line.to);
    if next.time < later(made, next.params.sig_validity) {
        return Ok(());
    }
    if is_live(&row) {
        note(set, (line.from, line.to))
    } else {
        Ok(())
    }
}

/// The pairs of the lines join the set, each where it is at its end with the line and was live before.
fn note_all_ended(
    certifications: &CIndex,
    facts: &Facts,
    block: &Block,
    next: &Next,
    lines: &[CertLine],
    set: &mut BTreeSet<(Key, Key)>,
) -> Result<(), NoMemory>
    ensures { OnOk result ((c : Chain) → ⟦<Facts as Tables<Block>>⟧.at facts.now c → ⟦<CIndex as Tables<CertRows>>⟧.at certifications.now (states certifications_left c) → IsWritten c block.now next.now
        → (x y : Text) → contains pair_cmp set.new (x, y) ≡ fold (ended_line c block.now x y) (contains pair_cmp set.old (x, y)) lines.now) }
{
    for line in lines {
        note_ended(certifications, facts, block, next, line, set)?;
    }
    Ok(())
}

/// Of whom there is a record because a line of the block is at its end when the block is written. The indexes are as they are before
/// the lines are written.
pub(crate) fn at_once(
    alloc: Global,
    memberships: &MIndex,
    certifications: &CIndex,
    facts: &Facts,
    since: Option<u64>,
    block: &Block,
    next: &Next,
) -> Result<Ended, NoMemory>
    ensures { IfOk result (λ ended. (c : Chain) → ⟦<Facts as Tables<Block>>⟧.at facts.now c → ⟦<MIndex as Tables<MemberRows>>⟧.at memberships.now (states memberships_left c) → ⟦<CIndex as Tables<CertRows>>⟧.at certifications.now (states certifications_left c) → IsWritten c block.now next.now → IsSince c since
        → AreNoted ended (is_over_at_once c block.now) (is_revoked_at_once c block.now) (is_ended_at_once c block.now)) }
{
    let joiners = block.joiners.as_slice();
    let actives = block.actives.as_slice();
    let mut expired = BTreeSet::new(alloc);
    note_all_over(
        memberships,
        facts,
        since,
        block,
        next,
        joiners,
        &mut expired,
    )?;
    note_all_over(
        memberships,
        facts,
        since,
        block,
        next,
        actives,
        &mut expired,
    )?;
    let mut revoked = BTreeSet::new(alloc);
    note_all_revoked(facts, block, next, joiners, &mut revoked)?;
    note_all_revoked(facts, block, next, actives, &mut revoked)?;
    let mut ended = BTreeSet::new(alloc);
    let lines = block.certifications.as_slice();
    note_all_ended(certifications, facts, block, next, lines, &mut ended)?;
    Ok(Ended {
        expired,
        revoked,
        ended,
    })
}
