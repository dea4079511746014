ghost use Rattle.std.specs.Prelude.{◌≡◌, ◌++◌, ◌∷◌, [], IfOk, OnErr, OnOk, Some};
ghost use Rattle.dubp_choosing.specs.States.{IsTipOf, choosing};
ghost use Rattle.dubp_replay.specs.Answers.{failed_line, stored_answer};
ghost use Rattle.dubp_replay.specs.Turns.{Chooses, left_over};
ghost use Rattle.dubp_turns.specs.Choosing.{AreTried, ChoosesBehind, TriedOne};
ghost use Rattle.dubp_turns.specs.Told.{told_text};

use crate::branches::Branches;
use crate::seeing::find_tip;
use crate::stating::{put_no_memory, put_offer};
use crate::texts::{add, failed_text, switched_text};
use crate::told::Told;
use dubp_atoms::{Line, NoMemory, Stamp, Steps};
use dubp_forks::{PeopleAndMoney, SwitchRefusal};
use dubp_replay::Failure;
use std::alloc::Global;
use std::sync::ledger::Ledger as StepBook;

/// Chooses behind an OFFER that stored the block of this stamp. Where memory runs out the block leaves the store.
pub(crate) fn choose_behind<T: PeopleAndMoney, L: StepBook>(
    alloc: Global,
    stamp: Stamp,
    branches: &mut Branches<T>,
    failures: &mut Vec<Failure>,
    line: &mut Line,
    steps: &mut Steps<L>,
) -> Told
    requires held { left_over branches.old.store failures.old.items ≡ failures.old.items }
    requires empty { line.old.items ≡ [] }
    ensures { ChoosesBehind stamp branches.old failures.old.items (told_text line.new.items result) branches.new failures.new.items }
{
    match resolve_behind(alloc, &stamp, branches, failures, line, steps) {
        Ok(lines) => Told::Here(lines),
        Err(NoMemory) => {
            branches.take_out(stamp);
            line.clear();
            put_no_memory(line);
            Told::InLine
        }
    }
}

/// The same, where the answer begins with `STORED` and this stamp, which are put into an empty line. `NoMemory` leaves all else as before.
fn resolve_behind<T: PeopleAndMoney, L: StepBook>(
    alloc: Global,
    stamp: &Stamp,
    branches: &mut Branches<T>,
    failures: &mut Vec<Failure>,
    line: &mut Line,
    steps: &mut Steps<L>,
) -> Result<Vec<u8>, NoMemory>
    requires held { left_over branches.old.store failures.old.items ≡ failures.old.items }
    requires empty { line.old.items ≡ [] }
    ensures chosen { IfOk result (λ lines. Chooses (stored_answer stamp.now) (choosing branches.old failures.old.items) lines.items (choosing branches.new failures.new.items)) }
    ensures held { OnOk result (left_over branches.new.store failures.new.items ≡ failures.new.items) }
    ensures refused { OnErr result ((branches.new ≡ branches.old) × (failures.new.items ≡ failures.old.items)) }
{
    put_offer(Ok(*stamp), line);
    resolve(alloc, line.as_slice(), branches, failures, steps)
}

/// Tries one choice after another, until one is switched to or none is left. The answer has the line that comes first, and one for each
/// choice that was tried.
///
/// `NoMemory` where there is no room; then all is as before.
pub(crate) fn resolve<T: PeopleAndMoney, L: StepBook>(
    alloc: Global,
    first: &[u8],
    branches: &mut Branches<T>,
    failures: &mut Vec<Failure>,
    steps: &mut Steps<L>,
) -> Result<Vec<u8>, NoMemory>
    requires { left_over branches.old.store failures.old.items ≡ failures.old.items }
    ensures chosen { IfOk result (λ lines. Chooses first.now (choosing branches.old failures.old.items) lines.items (choosing branches.new failures.new.items)) }
    ensures held { OnOk result (left_over branches.new.store failures.new.items ≡ failures.new.items) }
    ensures refused { OnErr result ((branches.new ≡ branches.old) × (failures.new.items ≡ failures.old.items)) }
{
    let mut lines = Vec::new(alloc);
    add(&mut lines, first)?;
    let count = failures.len();
    match try_all(alloc, branches, failures, &mut lines, steps) {
        Ok(()) => Ok(lines),
        Err(NoMemory) => {
            failures.truncate(count);
            Err(NoMemory)
        }
    }
}

/// The same, where the lines come behind those that are there. `NoMemory` leaves the failures that were noted.
fn try_all<T: PeopleAndMoney, L: StepBook>(
    alloc: Global,
    branches: &mut Branches<T>,
    failures: &mut Vec<Failure>,
    lines: &mut Vec<u8>,
    steps: &mut Steps<L>,
) -> Result<(), NoMemory>
    requires { left_over branches.old.store failures.old.items ≡ failures.old.items }
    ensures chosen { OnOk result (Chooses lines.old.items (choosing branches.old failures.old.items) lines.new.items (choosing branches.new failures.new.items)) }
    ensures held { OnOk result (left_over branches.new.store failures.new.items ≡ failures.new.items) }
    ensures refused { OnErr result (AreTried branches.old failures.old.items branches.new failures.new.items) }
{
    'choices: loop {
        branches.laws();
        let Some(tip) = find_tip(alloc, branches, failures.as_slice())? else {
            return Ok(());
        };
        if try_one(tip, branches, failures, lines, steps)? {
            return Ok(());
        }
    }
}

/// Switches to the choice, or notes that it failed. Behind the lines comes the one that says which. Whether the switch took place.
///
/// The line of the switch is written before it, so that nothing behind it takes memory. `NoMemory` leaves all as before but the lines.
fn try_one<T: PeopleAndMoney, L: StepBook>(
    tip: Stamp,
    branches: &mut Branches<T>,
    failures: &mut Vec<Failure>,
    lines: &mut Vec<u8>,
    steps: &mut Steps<L>,
) -> Result<bool, NoMemory>
    requires { IsTipOf branches.old failures.old.items (Some tip) }
    ensures tried { IfOk result (λ done. TriedOne branches.old failures.old.items lines.old.items tip done branches.new failures.new.items lines.new.items) }
    ensures refused { OnErr result ((branches.new ≡ branches.old) × (failures.new.items ≡ failures.old.items)) }
{
    let written = lines.len();
    add(lines, switched_text(&tip).as_slice())?;
    branches.laws();
    match branches.switch_to(tip, steps) {
        Ok(()) => {
            let_go(branches, failures);
            Ok(true)
        }
        Err(SwitchRefusal::Refused { at, rule }) => {
            lines.truncate(written);
            note(Failure { tip, at, rule }, failures, lines)?;
            Ok(false)
        }
        Err(SwitchRefusal::NoMemory) => Err(NoMemory),
        Err(SwitchRefusal::Unknown) => unreachable!(),
        Err(SwitchRefusal::Detached { .. }) => unreachable!(),
        Err(SwitchRefusal::TooDeep { .. }) => unreachable!(),
        Err(SwitchRefusal::Full { .. }) => unreachable!(),
    }
}

/// The failure is noted, and its line written. `NoMemory` leaves the failures as they were.
fn note(failure: Failure, failures: &mut Vec<Failure>, lines: &mut Vec<u8>) -> Result<(), NoMemory>
    ensures failures { OnOk result (failures.new.items ≡ failures.old.items ++ failure ∷ []) }
    ensures lines { OnOk result (lines.new.items ≡ lines.old.items ++ failed_line failure) }
    ensures refused { OnErr result (failures.new.items ≡ failures.old.items) }
{
    add(lines, failed_text(&failure).as_slice())?;
    failures.push(failure).map_err(|_| NoMemory)
}

/// A failure is kept as long as the block at which it came is stored. It takes no memory.
pub(crate) fn let_go<T: PeopleAndMoney>(branches: &Branches<T>, failures: &mut Vec<Failure>)
    ensures { failures.new.items ≡ left_over branches.now.store failures.old.items }
{
    failures.retain(|failure| branches.has(&failure.at));
}
