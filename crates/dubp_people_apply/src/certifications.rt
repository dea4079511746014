ghost use Rattle.std.specs.Prelude.{◌≡◌, ℕ, ◌+◌, ◌*◌, ◌≤◌, List, ◌∷◌, length, OnOk, Option, option_map, fold, IfSome};
ghost use Rattle.std.specs.FinMap.{insert, empty};
ghost use Rattle.dubp_moving.specs.States.{newest};
ghost use Rattle.dubp_chain.specs.Chains.{Chain};
ghost use Rattle.dubp_chain.specs.Tables.{CertificationRow};
ghost use Rattle.dubp_cindex.specs.Rows.{Rows};
ghost use Rattle.dubp_expiry.specs.Entries.{Queued};
ghost use Rattle.dubp_left.specs.Left.{cert_entry};
ghost use Rattle.dubp_left.specs.Next.{IsWritten};
ghost use Rattle.dubp_steps.specs.AfterLines.{certify_line, certification_after_lines, certify_entry, certify_queue};
ghost use Rattle.dubp_steps.specs.Loops.{without_end};
ghost use Rattle.dubp_people_apply.specs.Held.{Certifications, Waiting, HasEntries};
ghost use Rattle.dubp_people_apply.specs.Lines.{EndIsSmall, IsReplacedPair, StandsCertified};

use crate::queue::{later, plan_later, take_out};
use crate::records::time_of_certification;
use dubp_atoms::{Key, NoMemory, Steps};
use dubp_block::{Block, CertLine};
use dubp_cindex::{CIndex, CertRow, CertRows};
use dubp_expiry::{Due, Entries, Queue};
use dubp_left::{Facts, Next};
use dubp_moving::Tables;
use std::sync::ledger::Ledger as StepBook;

/// The end of the row leaves the queue.
fn take_end_out<L: StepBook>(
    queue: &mut Queue,
    row: &Option<CertRow>,
    from: Key,
    to: Key,
    lasting: u64,
    steps: &mut Steps<L>,
) -> Result<(), NoMemory>
    ensures entries { OnOk result ((waiting : Waiting) (before : Option CertificationRow) → row.now ≡ option_map cert_entry before → IfSome before (EndIsSmall lasting)
        → HasEntries (⟦<Queue as Tables<Entries>>⟧.at queue.old) waiting → HasEntries (⟦<Queue as Tables<Entries>>⟧.at queue.new) (without_end lasting from to before waiting)) }
    ensures queue_others { ⟦<Queue as Tables<Entries>>⟧.others queue.new ≡ ⟦<Queue as Tables<Entries>>⟧.others queue.old }
    ensures count { ⟦<Queue as Tables<Entries>>⟧.count queue.new + steps.old ≤ ⟦<Queue as Tables<Entries>>⟧.count queue.old + steps.new }
    ensures steps { OnOk result (steps.new ≤ steps.old + 1) }
{
    match row {
        None => Ok(()),
        Some(row) => {
            let end = later(row.made, lasting);
            take_out(queue, end, Due::Certification(from, to), steps)
        }
    }
}

/// The end of the row leaves the queue, and that of the certification made anew joins it where it is still to come.
fn replan<L: StepBook>(
    queue: &mut Queue,
    row: &Option<CertRow>,
    line: &CertLine,
    made: u64,
    next: &Next,
    steps: &mut Steps<L>,
) -> Result<(), NoMemory>
    ensures entries { OnOk result ((waiting : Waiting) (before : Option CertificationRow) → IsReplacedPair next.now.params.sig_validity made line.now.from line.now.to row.now before waiting
        → HasEntries (⟦<Queue as Tables<Entries>>⟧.at queue.old) waiting → HasEntries (⟦<Queue as Tables<Entries>>⟧.at queue.new) (λ time due. certify_entry next.now.time next.now.params.sig_validity made line.now.from line.now.to time due (waiting time due))) }
    ensures queue_others { ⟦<Queue as Tables<Entries>>⟧.others queue.new ≡ ⟦<Queue as Tables<Entries>>⟧.others queue.old }
    ensures count { ⟦<Queue as Tables<Entries>>⟧.count queue.new + steps.old ≤ ⟦<Queue as Tables<Entries>>⟧.count queue.old + steps.new }
    ensures steps { OnOk result (steps.new ≤ steps.old + 2) }
{
    let lasting = next.params.sig_validity;
    take_end_out(queue, row, line.from, line.to, lasting, steps)?;
    let end = later(made, lasting);
    let due = Due::Certification(line.from, line.to);
    plan_later(queue, next.time, end, due, steps)
}

/// A line of Certifications gives its pair a certification made anew.
fn certify<L: StepBook>(
    certifications: &mut CIndex,
    queue: &mut Queue,
    facts: &Facts,
    block: &Block,
    next: &Next,
    line: &CertLine,
    steps: &mut Steps<L>,
) -> Result<(), NoMemory>
    ensures stands { OnOk result ((c : Chain) (rows : Certifications) (waiting : Waiting) → ⟦<Facts as Tables<Block>>⟧.at facts.now c → IsWritten c block.now next.now
        → StandsCertified c block.now (⟦<CIndex as Tables<CertRows>>⟧.at certifications.old) (⟦<Queue as Tables<Entries>>⟧.at queue.old) rows waiting
        → StandsCertified c block.now (⟦<CIndex as Tables<CertRows>>⟧.at certifications.new) (⟦<Queue as Tables<Entries>>⟧.at queue.new) (λ x y. certify_line c block.now x y (rows x y) line.now) (λ time due. certify_queue c block.now time due (waiting time due) line.now)) }
    ensures certifications_others { ⟦<CIndex as Tables<CertRows>>⟧.others certifications.new ≡ ⟦<CIndex as Tables<CertRows>>⟧.others certifications.old }
    ensures queue_others { ⟦<Queue as Tables<Entries>>⟧.others queue.new ≡ ⟦<Queue as Tables<Entries>>⟧.others queue.old }
    ensures count { ⟦<CIndex as Tables<CertRows>>⟧.count certifications.new + ⟦<Queue as Tables<Entries>>⟧.count queue.new + steps.old ≤ ⟦<CIndex as Tables<CertRows>>⟧.count certifications.old + ⟦<Queue as Tables<Entries>>⟧.count queue.old + steps.new }
    ensures steps { OnOk result (steps.new ≤ steps.old + 7) }
{
    let made = time_of_certification(facts, block, line);
    let before = certifications.row(line.from, line.to);
    replan(queue, &before, line, made, next, steps)?;
    let row = CertRow {
        made,
        written: block.number,
        live: next.time < later(made, next.params.sig_validity),
    };
    certifications.put_row(line.from, line.to, row, steps)
}

/// Each line of Certifications gives its pair a certification made anew.
fn certify_all<L: StepBook>(
    certifications: &mut CIndex,
    queue: &mut Queue,
    facts: &Facts,
    block: &Block,
    next: &Next,
    lines: &[CertLine],
    steps: &mut Steps<L>,
) -> Result<(), NoMemory>
    ensures stands { OnOk result ((c : Chain) (rows : Certifications) (waiting : Waiting) → ⟦<Facts as Tables<Block>>⟧.at facts.now c → IsWritten c block.now next.now
        → StandsCertified c block.now (⟦<CIndex as Tables<CertRows>>⟧.at certifications.old) (⟦<Queue as Tables<Entries>>⟧.at queue.old) rows waiting
        → StandsCertified c block.now (⟦<CIndex as Tables<CertRows>>⟧.at certifications.new) (⟦<Queue as Tables<Entries>>⟧.at queue.new) (λ x y. fold (certify_line c block.now x y) (rows x y) lines.now) (λ time due. fold (certify_queue c block.now time due) (waiting time due) lines.now)) }
    ensures certifications_others { ⟦<CIndex as Tables<CertRows>>⟧.others certifications.new ≡ ⟦<CIndex as Tables<CertRows>>⟧.others certifications.old }
    ensures queue_others { ⟦<Queue as Tables<Entries>>⟧.others queue.new ≡ ⟦<Queue as Tables<Entries>>⟧.others queue.old }
    ensures count { ⟦<CIndex as Tables<CertRows>>⟧.count certifications.new + ⟦<Queue as Tables<Entries>>⟧.count queue.new + steps.old ≤ ⟦<CIndex as Tables<CertRows>>⟧.count certifications.old + ⟦<Queue as Tables<Entries>>⟧.count queue.old + steps.new }
    ensures steps { OnOk result (steps.new ≤ steps.old + 7 * length lines.now) }
{
    for line in lines {
        certify(certifications, queue, facts, block, next, line, steps)?;
    }
    Ok(())
}

/// Writes the section Certifications into the certifications and the queue.
///
/// The end of a certification that is made anew leaves the queue, and the new one joins it where it is later than the time of the
/// chain with the block. `NoMemory` where there is no room; some lines may have been written then.
pub fn write_certifications<L: StepBook>(
    certifications: &mut CIndex,
    queue: &mut Queue,
    facts: &Facts,
    block: &Block,
    next: &Next,
    steps: &mut Steps<L>,
) -> Result<(), NoMemory>
    ensures stands { OnOk result ((c : Chain) (rows : Certifications) (waiting : Waiting) → ⟦<Facts as Tables<Block>>⟧.at facts.now c → IsWritten c block.now next.now
        → StandsCertified c block.now (⟦<CIndex as Tables<CertRows>>⟧.at certifications.old) (⟦<Queue as Tables<Entries>>⟧.at queue.old) rows waiting
        → StandsCertified c block.now (⟦<CIndex as Tables<CertRows>>⟧.at certifications.new) (⟦<Queue as Tables<Entries>>⟧.at queue.new) (λ x y. certification_after_lines c block.now x y (rows x y)) (λ time due. fold (certify_queue c block.now time due) (waiting time due) block.now.certifications)) }
    ensures certifications_others { ⟦<CIndex as Tables<CertRows>>⟧.others certifications.new ≡ ⟦<CIndex as Tables<CertRows>>⟧.others certifications.old }
    ensures queue_others { ⟦<Queue as Tables<Entries>>⟧.others queue.new ≡ ⟦<Queue as Tables<Entries>>⟧.others queue.old }
    ensures count { ⟦<CIndex as Tables<CertRows>>⟧.count certifications.new + ⟦<Queue as Tables<Entries>>⟧.count queue.new + steps.old ≤ ⟦<CIndex as Tables<CertRows>>⟧.count certifications.old + ⟦<Queue as Tables<Entries>>⟧.count queue.old + steps.new }
    ensures steps { OnOk result (steps.new ≤ steps.old + 7 * length block.now.certifications) }
{
    let lines = block.certifications.as_slice();
    certify_all(certifications, queue, facts, block, next, lines, steps)
}
