ghost use Rattle.std.specs.Prelude.{◌≡◌, ◌+◌, ◌≤◌, ◌∷◌, ℕ, Some, None, false, is_some, nat_le, length, if◌then◌else◌, fold, OnOk};
ghost use Rattle.std.specs.Option.{option_map_or};
ghost use Rattle.std.specs.Cmp.Lexicographic.{slice_cmp};
ghost use Rattle.std.specs.Ordering.{nat_cmp};
ghost use Rattle.dubp_atoms.specs.Same.{Text, same_text};
ghost use Rattle.dubp_undo.specs.Definition.{IsAt};
ghost use Rattle.dubp_undo.specs.MovingTable.{get};
ghost use Rattle.dubp_undo.specs.States.{states};
ghost use Rattle.dubp_chain.specs.Chains.{Chain};
ghost use Rattle.dubp_people_apply.specs.Counting.{touching_lines};
ghost use Rattle.dubp_people_apply.specs.Ends.{end_records};
ghost use Rattle.dubp_people.specs.Exclusion.{is_member_row, has_lapsed, is_kicked, kicked_with, noted_anew};
ghost use Rattle.dubp_registry.specs.OfLeft.{kicked_at};
ghost use Rattle.dubp_registry.specs.OfLeft.{IsWritten};

use crate::touching::Touching;
use dubp_atoms::{Key, NoMemory, Steps};
use dubp_block::Block;
use dubp_iindex::IdentityRow;
use dubp_mindex::MemberRow;
use dubp_registry::{Indexes, KickedOf, Next};
use dubp_undo::{Leaf, Tables};
use dubp_validity::Record;
use std::sync::ledger::Ledger as StepBook;

pub(crate) type KickedTable = Leaf<Block, Key, (), KickedOf>;

/// Whether the key has to be excluded by what stands in the indexes at this time.
fn has_to_be_excluded(indexes: &Indexes, next: &Next, key: Key) -> bool
    ensures { (c : Chain) → ⟦<Indexes as Tables<Block>>⟧.at indexes.now c → result ≡ kicked_with next.now c key }
{
    let identity = indexes.tables.first.tables.row(key);
    let membership = indexes.tables.second.tables.row(key);
    let received = indexes.tables.third.tables.received(key);
    is_kicked(&identity, &membership, received, next)
}

/// The same by the rows of the key, and by how many live certifications it has received.
fn is_kicked(
    identity: &Option<IdentityRow>,
    membership: &Option<MemberRow>,
    received: u64,
    next: &Next,
) -> bool
    ensures { result ≡ is_kicked next.now.params next.now.time received identity.now membership.now }
{
    is_member(identity) && has_lapsed(membership, received, next)
}

fn is_member(identity: &Option<IdentityRow>) -> bool
    ensures { result ≡ is_member_row identity.now }
{
    match identity {
        Some(row) => row.member,
        None => false,
    }
}

/// Whether the membership is revoked or has ended, or too few certifications are received.
fn has_lapsed(membership: &Option<MemberRow>, received: u64, next: &Next) -> bool
    ensures { result ≡ option_map_or (has_lapsed next.now.params next.now.time received) membership.now false }
{
    match membership {
        Some(row) => { row.revoked || has_ended(row.made, next) || received < next.params.sig_qty }
        None => false,
    }
}

/// Whether a membership that was made at this time, in seconds, has come to its end.
fn has_ended(made: u64, next: &Next) -> bool
    ensures { result ≡ nat_le (made + next.now.params.ms_validity) next.now.time }
{
    match next.time.checked_sub(next.params.ms_validity) {
        Some(since) => made <= since,
        None => false,
    }
}

/// Notes whether the key has to be excluded: one step where that changes.
fn note<L: StepBook>(
    kicked: &mut KickedTable,
    key: Key,
    is: bool,
    steps: &mut Steps<L>,
) -> Result<(), NoMemory>
    ensures now { OnOk result ((k : Text) → is_some (get (slice_cmp nat_cmp) kicked.new.table.now k) ≡ (if same_text k key then is else is_some (get (slice_cmp nat_cmp) kicked.old.table.now k))) }
    ensures others { ⟦<KickedTable as Tables<Block>>⟧.others kicked.new ≡ ⟦<KickedTable as Tables<Block>>⟧.others kicked.old }
    ensures count { ⟦<KickedTable as Tables<Block>>⟧.count kicked.new + steps.old ≤ ⟦<KickedTable as Tables<Block>>⟧.count kicked.old + steps.new }
    ensures steps { OnOk result (steps.new ≤ steps.old + 1) }
{
    if kicked.get(key).is_some() == is {
        return Ok(());
    }
    kicked.set(key, noted(is), steps)?;
    Ok(())
}

/// What stands at a key of the table.
fn noted(is: bool) -> Option<()>
    ensures { result ≡ (if is then Some tt else None) }
{
    if is { Some(()) } else { None }
}

/// Notes it anew of the key that the line or the record names, where it names one.
fn renew<L: StepBook, T: Touching>(
    kicked: &mut KickedTable,
    indexes: &Indexes,
    next: &Next,
    entry: &T,
    steps: &mut Steps<L>,
) -> Result<(), NoMemory>
    ensures now { OnOk result ((c : Chain) → ⟦<Indexes as Tables<Block>>⟧.at indexes.now c → (k : Text) → is_some (get (slice_cmp nat_cmp) kicked.new.table.now k) ≡ noted_anew (kicked_with next.now c k) (T.touches k) (is_some (get (slice_cmp nat_cmp) kicked.old.table.now k)) entry.now) }
    ensures others { ⟦<KickedTable as Tables<Block>>⟧.others kicked.new ≡ ⟦<KickedTable as Tables<Block>>⟧.others kicked.old }
    ensures count { ⟦<KickedTable as Tables<Block>>⟧.count kicked.new + steps.old ≤ ⟦<KickedTable as Tables<Block>>⟧.count kicked.old + steps.new }
    ensures steps { OnOk result (steps.new ≤ steps.old + 1) }
{
    match entry.touched() {
        Some(key) => {
            let is = has_to_be_excluded(indexes, next, key);
            note(kicked, key, is, steps)?;
            Ok(())
        }
        None => Ok(()),
    }
}

/// The same of each of these lines or records: at most one step for each.
fn renew_all<L: StepBook, T: Touching>(
    kicked: &mut KickedTable,
    indexes: &Indexes,
    next: &Next,
    entries: &[T],
    steps: &mut Steps<L>,
) -> Result<(), NoMemory>
    ensures now { OnOk result ((c : Chain) → ⟦<Indexes as Tables<Block>>⟧.at indexes.now c → (k : Text) → is_some (get (slice_cmp nat_cmp) kicked.new.table.now k) ≡ fold (noted_anew (kicked_with next.now c k) (T.touches k)) (is_some (get (slice_cmp nat_cmp) kicked.old.table.now k)) entries.now) }
    ensures others { ⟦<KickedTable as Tables<Block>>⟧.others kicked.new ≡ ⟦<KickedTable as Tables<Block>>⟧.others kicked.old }
    ensures count { ⟦<KickedTable as Tables<Block>>⟧.count kicked.new + steps.old ≤ ⟦<KickedTable as Tables<Block>>⟧.count kicked.old + steps.new }
    ensures steps { OnOk result (steps.new ≤ steps.old + length entries.now) }
{
    for entry in entries {
        renew(kicked, indexes, next, entry, steps)?;
    }
    Ok(())
}

/// Notes of each key that a line or an end may have changed whether it has to be excluded: at most one step for each of them.
///
/// The indexes are those of the chain with the block, and `ended` has the records of its ends.
pub(crate) fn write_kicked<L: StepBook>(
    kicked: &mut KickedTable,
    indexes: &Indexes,
    next: &Next,
    block: &Block,
    ended: &[Record],
    steps: &mut Steps<L>,
) -> Result<(), NoMemory>
    ensures at { OnOk result ((c : Chain) → IsWritten c block.now next.now → ended.now ≡ end_records c block.now → ⟦<Indexes as Tables<Block>>⟧.at indexes.now (block.now ∷ c) → IsAt (slice_cmp nat_cmp) kicked_at kicked.old.table.now c → IsAt (slice_cmp nat_cmp) kicked_at kicked.new.table.now (block.now ∷ c)) }
    ensures others { ⟦<KickedTable as Tables<Block>>⟧.others kicked.new ≡ ⟦<KickedTable as Tables<Block>>⟧.others kicked.old }
    ensures count { ⟦<KickedTable as Tables<Block>>⟧.count kicked.new + steps.old ≤ ⟦<KickedTable as Tables<Block>>⟧.count kicked.old + steps.new }
    ensures steps { OnOk result (steps.new ≤ steps.old + (touching_lines block.now + length ended.now)) }
{
    renew_all(kicked, indexes, next, block.joiners.as_slice(), steps)?;
    renew_all(kicked, indexes, next, block.actives.as_slice(), steps)?;
    renew_all(kicked, indexes, next, block.revoked.as_slice(), steps)?;
    renew_all(kicked, indexes, next, block.excluded.as_slice(), steps)?;
    let certifications = block.certifications.as_slice();
    renew_all(kicked, indexes, next, certifications, steps)?;
    renew_all(kicked, indexes, next, ended, steps)?;
    Ok(())
}
