ghost use Rattle.std.specs.Prelude.{◌≡◌, ℕ, ◌+◌, ◌≤◌, List, ◌∷◌, true, false, ◌||◌, ◌&&◌, if◌then◌else◌, OnOk, IfSome, IfNone, option_map, Option, ◌*◌};
ghost use Rattle.std.specs.Ordering.{is_eq};
ghost use Rattle.std.specs.BTreeSet.{contains, btree_set_len};
ghost use Rattle.dubp_atoms.specs.Same.{same_text};
ghost use Rattle.dubp_block.specs.declared.block.Block.{Block as BlockValue};
ghost use Rattle.dubp_chain.specs.Chains.{Chain};
ghost use Rattle.dubp_validity.specs.Reduced.{set_ended};
ghost use Rattle.dubp_validity.specs.Rules.{IsSound};
ghost use Rattle.dubp_mindex.specs.Members.{Members};
ghost use Rattle.dubp_cindex.specs.Rows.{Rows};
ghost use Rattle.dubp_expiry.specs.Entries.{Queued, queued, IsNextDue, NoneIsDue};
ghost use Rattle.dubp_expiry.specs.declared.queue.Queue.{Queue as QueueValue};
ghost use Rattle.dubp_expiry.specs.declared.due.Behind.TheVariants.{Time};
ghost use Rattle.dubp_left.specs.Left.{due_of};
ghost use Rattle.dubp_steps.specs.AfterLines.{now_of, set_revoked};
ghost use Rattle.dubp_steps.specs.Loops.{Standing, IsTaking, take, is_noted};
ghost use Rattle.dubp_people_apply.specs.Counting.{revoked_by, ended_by, IsOneMore, IsCounted};
ghost use Rattle.dubp_people_apply.specs.Held.{Memberships, Certifications, HasMemberships, HasCertifications, HasEntries};
ghost use Rattle.dubp_people_apply.specs.Taking.{IsSince, AreNoted, StandAs, IsBehindAny, HasAllTaken};

use crate::ended::Ended;
use crate::queue::take_out;
use dubp_atoms::{Key, NoMemory, Steps};
use dubp_cindex::{CIndex, CertRow, CertRows};
use dubp_expiry::{Behind, Due, Entries, Queue};
use dubp_left::Next;
use dubp_mindex::{MIndex, MemberRow, MemberRows};
use dubp_moving::Tables;
use std::collections::BTreeSet;
use std::sync::ledger::Ledger as StepBook;

/// The key joins the set.
pub(crate) fn note<K: Ord + Drop>(set: &mut BTreeSet<K>, key: K) -> Result<(), NoMemory>
    ensures keys { OnOk result ((k : K) → contains K.cmp set.new k ≡ (is_eq (K.cmp k key) || contains K.cmp set.old k)) }
    ensures len { OnOk result (contains K.cmp set.old key ≡ false → btree_set_len set.new ≡ btree_set_len set.old + 1) }
{
    match set.insert(key) {
        Ok(_) => Ok(()),
        Err(_) => Err(NoMemory),
    }
}

/// The membership of the key is revoked, where it has one.
fn revoke_row<L: StepBook>(
    memberships: &mut MIndex,
    key: Key,
    steps: &mut Steps<L>,
) -> Result<(), NoMemory>
    ensures rows { OnOk result ((rows : Memberships) → HasMemberships (⟦<MIndex as Tables<MemberRows>>⟧.at memberships.old) rows
        → HasMemberships (⟦<MIndex as Tables<MemberRows>>⟧.at memberships.new) (λ k. if same_text k key then option_map set_revoked (rows k) else rows k)) }
    ensures memberships_others { ⟦<MIndex as Tables<MemberRows>>⟧.others memberships.new ≡ ⟦<MIndex as Tables<MemberRows>>⟧.others memberships.old }
    ensures count { ⟦<MIndex as Tables<MemberRows>>⟧.count memberships.new + steps.old ≤ ⟦<MIndex as Tables<MemberRows>>⟧.count memberships.old + steps.new }
    ensures steps { OnOk result (steps.new ≤ steps.old + 1) }
{
    match memberships.row(key) {
        None => Ok(()),
        Some(before) => {
            let row = MemberRow {
                revoked: true,
                ..before
            };
            memberships.put_row(key, row, steps)
        }
    }
}

/// The certification of the pair ends, where there is one.
fn end_row<L: StepBook>(
    certifications: &mut CIndex,
    from: Key,
    to: Key,
    steps: &mut Steps<L>,
) -> Result<(), NoMemory>
    ensures rows { OnOk result ((rows : Certifications) → HasCertifications (⟦<CIndex as Tables<CertRows>>⟧.at certifications.old) rows
        → HasCertifications (⟦<CIndex as Tables<CertRows>>⟧.at certifications.new) (λ x y. if same_text x from && same_text y to then option_map set_ended (rows x y) else rows x y)) }
    ensures certifications_others { ⟦<CIndex as Tables<CertRows>>⟧.others certifications.new ≡ ⟦<CIndex as Tables<CertRows>>⟧.others certifications.old }
    ensures count { ⟦<CIndex as Tables<CertRows>>⟧.count certifications.new + steps.old ≤ ⟦<CIndex as Tables<CertRows>>⟧.count certifications.old + steps.new }
    ensures steps { OnOk result (steps.new ≤ steps.old + 5) }
{
    match certifications.row(from, to) {
        None => Ok(()),
        Some(before) => {
            let row = CertRow {
                live: false,
                ..before
            };
            certifications.put_row(from, to, row, steps)
        }
    }
}

/// What a due changes beside the queue: its row, and the set of its records.
fn change<L: StepBook>(
    memberships: &mut MIndex,
    certifications: &mut CIndex,
    ended: &mut Ended,
    due: &Due,
    steps: &mut Steps<L>,
) -> Result<(), NoMemory>
    ensures stand { OnOk result ((queue : QueueValue) (s : Standing) (time : ℕ) → HasEntries (⟦<Queue as Tables<Entries>>⟧.at queue) (take time (due_of due.now) s).queue
        → HasMemberships (⟦<MIndex as Tables<MemberRows>>⟧.at memberships.old) s.memberships → HasCertifications (⟦<CIndex as Tables<CertRows>>⟧.at certifications.old) s.certifications → AreNoted ended.old s.over s.revoked s.ended
        → StandAs (⟦<MIndex as Tables<MemberRows>>⟧.at memberships.new) (⟦<CIndex as Tables<CertRows>>⟧.at certifications.new) (⟦<Queue as Tables<Entries>>⟧.at queue) ended.new (take time (due_of due.now) s)) }
    ensures memberships_others { ⟦<MIndex as Tables<MemberRows>>⟧.others memberships.new ≡ ⟦<MIndex as Tables<MemberRows>>⟧.others memberships.old }
    ensures certifications_others { ⟦<CIndex as Tables<CertRows>>⟧.others certifications.new ≡ ⟦<CIndex as Tables<CertRows>>⟧.others certifications.old }
    ensures count { ⟦<MIndex as Tables<MemberRows>>⟧.count memberships.new + ⟦<CIndex as Tables<CertRows>>⟧.count certifications.new + steps.old ≤ ⟦<MIndex as Tables<MemberRows>>⟧.count memberships.old + ⟦<CIndex as Tables<CertRows>>⟧.count certifications.old + steps.new }
    ensures more { OnOk result ((s : Standing) → AreNoted ended.old s.over s.revoked s.ended → is_noted s (due_of due.now) ≡ false → IsOneMore (due_of due.now) ended.old ended.new) }
    ensures steps { OnOk result (steps.new ≤ steps.old + (revoked_by (due_of due.now) + 5 * ended_by (due_of due.now))) }
{
    match due {
        Due::Membership(key) => note(&mut ended.expired, *key),
        Due::Revocation(key) => {
            revoke_row(memberships, *key, steps)?;
            note(&mut ended.revoked, *key)
        }
        Due::Certification(from, to) => {
            end_row(certifications, *from, *to, steps)?;
            note(&mut ended.ended, (*from, *to))
        }
    }
}

/// One entry leaves the queue: its row changes, and its key or pair joins a set.
fn take_one<L: StepBook>(
    memberships: &mut MIndex,
    certifications: &mut CIndex,
    queue: &mut Queue,
    ended: &mut Ended,
    time: u64,
    due: &Due,
    steps: &mut Steps<L>,
) -> Result<(), NoMemory>
    ensures stand { OnOk result ((s : Standing) → StandAs (⟦<MIndex as Tables<MemberRows>>⟧.at memberships.old) (⟦<CIndex as Tables<CertRows>>⟧.at certifications.old) (⟦<Queue as Tables<Entries>>⟧.at queue.old) ended.old s
        → StandAs (⟦<MIndex as Tables<MemberRows>>⟧.at memberships.new) (⟦<CIndex as Tables<CertRows>>⟧.at certifications.new) (⟦<Queue as Tables<Entries>>⟧.at queue.new) ended.new (take time (due_of due.now) s)) }
    ensures memberships_others { ⟦<MIndex as Tables<MemberRows>>⟧.others memberships.new ≡ ⟦<MIndex as Tables<MemberRows>>⟧.others memberships.old }
    ensures certifications_others { ⟦<CIndex as Tables<CertRows>>⟧.others certifications.new ≡ ⟦<CIndex as Tables<CertRows>>⟧.others certifications.old }
    ensures queue_others { ⟦<Queue as Tables<Entries>>⟧.others queue.new ≡ ⟦<Queue as Tables<Entries>>⟧.others queue.old }
    ensures count { ⟦<MIndex as Tables<MemberRows>>⟧.count memberships.new + ⟦<CIndex as Tables<CertRows>>⟧.count certifications.new + ⟦<Queue as Tables<Entries>>⟧.count queue.new + steps.old ≤ ⟦<MIndex as Tables<MemberRows>>⟧.count memberships.old + ⟦<CIndex as Tables<CertRows>>⟧.count certifications.old + ⟦<Queue as Tables<Entries>>⟧.count queue.old + steps.new }
    ensures more { OnOk result ((s : Standing) → AreNoted ended.old s.over s.revoked s.ended → is_noted s (due_of due.now) ≡ false → IsOneMore (due_of due.now) ended.old ended.new) }
    ensures steps { OnOk result (steps.new ≤ steps.old + (1 + (revoked_by (due_of due.now) + 5 * ended_by (due_of due.now)))) }
{
    take_out(queue, time, *due, steps)?;
    change(memberships, certifications, ended, due, steps)
}

/// The first entry behind the place, where its time is at most `now`; where there is no place, the first of all.
fn next_due(queue: &Queue, behind: &Option<Behind>, now: u64) -> Option<(u64, Due)>
    ensures found { (s : List Queued) → ⟦<Queue as Tables<Entries>>⟧.at queue.now s → IfSome result (IsNextDue (queued s) (IsBehindAny behind.now) now) }
    ensures none { (s : List Queued) → ⟦<Queue as Tables<Entries>>⟧.at queue.now s → IfNone result (NoneIsDue (queued s) (IsBehindAny behind.now) now) }
{
    match behind {
        None => queue.due(now),
        Some(place) => queue.due_behind(*place, now),
    }
}

/// Where a search for what is due begins: behind the time of the chain.
fn place_of(since: Option<u64>) -> Option<Behind>
    ensures { result ≡ option_map Time since }
{
    match since {
        None => None,
        Some(time) => Some(Behind::Time(time)),
    }
}

/// Takes from the queue what is due at the time of the chain with the block, once the lines are written. `since` is the time of the
/// chain. The rows of what is taken change, and its keys and pairs join the sets.
///
/// `NoMemory` where there is no room; some may have been taken then.
pub fn take_due<L: StepBook>(
    memberships: &mut MIndex,
    certifications: &mut CIndex,
    queue: &mut Queue,
    since: Option<u64>,
    next: &Next,
    ended: &mut Ended,
    steps: &mut Steps<L>,
) -> Result<(), NoMemory>
    ensures taken { OnOk result ((c : Chain) (b : BlockValue) (s : Standing) → IsSound (b ∷ c) → IsSince c since → next.now.time ≡ now_of c b → IsTaking c b s
        → StandAs (⟦<MIndex as Tables<MemberRows>>⟧.at memberships.old) (⟦<CIndex as Tables<CertRows>>⟧.at certifications.old) (⟦<Queue as Tables<Entries>>⟧.at queue.old) ended.old s
        → HasAllTaken c b (⟦<MIndex as Tables<MemberRows>>⟧.at memberships.new) (⟦<CIndex as Tables<CertRows>>⟧.at certifications.new) (⟦<Queue as Tables<Entries>>⟧.at queue.new) ended.new) }
    ensures memberships_others { ⟦<MIndex as Tables<MemberRows>>⟧.others memberships.new ≡ ⟦<MIndex as Tables<MemberRows>>⟧.others memberships.old }
    ensures certifications_others { ⟦<CIndex as Tables<CertRows>>⟧.others certifications.new ≡ ⟦<CIndex as Tables<CertRows>>⟧.others certifications.old }
    ensures queue_others { ⟦<Queue as Tables<Entries>>⟧.others queue.new ≡ ⟦<Queue as Tables<Entries>>⟧.others queue.old }
    ensures count { ⟦<MIndex as Tables<MemberRows>>⟧.count memberships.new + ⟦<CIndex as Tables<CertRows>>⟧.count certifications.new + ⟦<Queue as Tables<Entries>>⟧.count queue.new + steps.old ≤ ⟦<MIndex as Tables<MemberRows>>⟧.count memberships.old + ⟦<CIndex as Tables<CertRows>>⟧.count certifications.old + ⟦<Queue as Tables<Entries>>⟧.count queue.old + steps.new }
    ensures counted { OnOk result ((c : Chain) (b : BlockValue) (s : Standing) → IsSound (b ∷ c) → IsSince c since → next.now.time ≡ now_of c b → IsTaking c b s
        → StandAs (⟦<MIndex as Tables<MemberRows>>⟧.at memberships.old) (⟦<CIndex as Tables<CertRows>>⟧.at certifications.old) (⟦<Queue as Tables<Entries>>⟧.at queue.old) ended.old s
        → IsCounted ended.old ended.new steps.old steps.new) }
{
    let mut behind = place_of(since);
    // One entry a turn: no queue has as many.
    'taking: for _turn in 0..u64::MAX {
        let Some((time, due)) = next_due(queue, &behind, next.time) else {
            return Ok(());
        };
        take_one(memberships, certifications, queue, ended, time, &due, steps)?;
        behind = Some(Behind::Entry(time, due));
    }
    Err(NoMemory)
}
