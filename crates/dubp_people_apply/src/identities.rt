ghost use Rattle.std.specs.Prelude.{◌≡◌, ℕ, ◌+◌, ◌*◌, ◌≤◌, List, ◌∷◌, Bool, false, fold, length, OnOk, OnErr};
ghost use Rattle.dubp_moving.specs.States.{states};
ghost use Rattle.dubp_chain.specs.Chains.{Chain};
ghost use Rattle.dubp_left.specs.OfValidity.{IsSound};
ghost use Rattle.dubp_iindex.specs.Rows.{Rows};
ghost use Rattle.dubp_left.specs.Left.{identities_left};
ghost use Rattle.dubp_people_apply.specs.Writing.{row_of, created, with_member, joined, UidsApart, IsNewLine, AreNewLines, most_sets};

use dubp_atoms::{Key, NoMemory, Steps};
use dubp_block::{Block, IdentityLine, MemberLine};
use dubp_iindex::{IIndex, IdentityRow, IdentityRows};
use dubp_moving::Tables;
use std::sync::ledger::Ledger as StepBook;

/// Writes what the block makes of the identities: at most 4 steps for each line of Identities, Joiners and Excluded.
///
/// What is kept stays so. `NoMemory` leaves the index between two lines.
pub fn write_identities<L: StepBook>(
    index: &mut IIndex,
    block: &Block,
    steps: &mut Steps<L>,
) -> Result<(), NoMemory>
    ensures at { OnOk result ((c : Chain) → IsSound (block.now ∷ c) → ⟦<IIndex as Tables<IdentityRows>>⟧.at index.old (states identities_left c) → ⟦<IIndex as Tables<IdentityRows>>⟧.at index.new (states identities_left (block.now ∷ c))) }
    ensures others { ⟦<IIndex as Tables<IdentityRows>>⟧.others index.new ≡ ⟦<IIndex as Tables<IdentityRows>>⟧.others index.old }
    ensures count { ⟦<IIndex as Tables<IdentityRows>>⟧.count index.new + steps.old ≤ ⟦<IIndex as Tables<IdentityRows>>⟧.count index.old + steps.new }
    ensures steps { OnOk result (steps.new ≤ steps.old + most_sets block.now) }
{
    create_all(index, block.number, block.identities.as_slice(), steps)?;
    join_all(index, block.joiners.as_slice(), steps)?;
    exclude_all(index, block.excluded.as_slice(), steps)?;
    Ok(())
}

/// Puts the row of each line.
fn create_all<L: StepBook>(
    index: &mut IIndex,
    number: u64,
    lines: &[IdentityLine],
    steps: &mut Steps<L>,
) -> Result<(), NoMemory>
    ensures at { OnOk result ((rows : Rows) (t : List Rows) → AreNewLines number rows lines.now → ⟦<IIndex as Tables<IdentityRows>>⟧.at index.old (rows ∷ t) → ⟦<IIndex as Tables<IdentityRows>>⟧.at index.new (fold (created number) rows lines.now ∷ t)) }
    ensures others { ⟦<IIndex as Tables<IdentityRows>>⟧.others index.new ≡ ⟦<IIndex as Tables<IdentityRows>>⟧.others index.old }
    ensures count { ⟦<IIndex as Tables<IdentityRows>>⟧.count index.new + steps.old ≤ ⟦<IIndex as Tables<IdentityRows>>⟧.count index.old + steps.new }
    ensures steps { OnOk result (steps.new ≤ steps.old + 4 * length lines.now) }
{
    for line in lines {
        create(index, number, line, steps)?;
    }
    Ok(())
}

/// Puts the row of a new identity.
fn create<L: StepBook>(
    index: &mut IIndex,
    number: u64,
    line: &IdentityLine,
    steps: &mut Steps<L>,
) -> Result<(), NoMemory>
    ensures at { OnOk result ((rows : Rows) (t : List Rows) → IsNewLine rows line.now → ⟦<IIndex as Tables<IdentityRows>>⟧.at index.old (rows ∷ t) → ⟦<IIndex as Tables<IdentityRows>>⟧.at index.new (created number rows line.now ∷ t)) }
    ensures others { ⟦<IIndex as Tables<IdentityRows>>⟧.others index.new ≡ ⟦<IIndex as Tables<IdentityRows>>⟧.others index.old }
    ensures count { ⟦<IIndex as Tables<IdentityRows>>⟧.count index.new + steps.old ≤ ⟦<IIndex as Tables<IdentityRows>>⟧.count index.old + steps.new }
    ensures steps { OnOk result (steps.new ≤ steps.old + 4) }
{
    let row = IdentityRow {
        uid: line.uid,
        stamp: line.stamp,
        sig: line.sig,
        written: number,
        member: false,
    };
    index.put_row(line.key, row, steps)?;
    Ok(())
}

/// Makes the key of each line a member.
fn join_all<L: StepBook>(
    index: &mut IIndex,
    lines: &[MemberLine],
    steps: &mut Steps<L>,
) -> Result<(), NoMemory>
    ensures at { OnOk result ((rows : Rows) (t : List Rows) → UidsApart rows → ⟦<IIndex as Tables<IdentityRows>>⟧.at index.old (rows ∷ t) → ⟦<IIndex as Tables<IdentityRows>>⟧.at index.new (fold joined rows lines.now ∷ t)) }
    ensures others { ⟦<IIndex as Tables<IdentityRows>>⟧.others index.new ≡ ⟦<IIndex as Tables<IdentityRows>>⟧.others index.old }
    ensures count { ⟦<IIndex as Tables<IdentityRows>>⟧.count index.new + steps.old ≤ ⟦<IIndex as Tables<IdentityRows>>⟧.count index.old + steps.new }
    ensures steps { OnOk result (steps.new ≤ steps.old + 4 * length lines.now) }
{
    for line in lines {
        set_member(index, line.key, true, steps)?;
    }
    Ok(())
}

/// Ends that each of the keys is a member.
fn exclude_all<L: StepBook>(
    index: &mut IIndex,
    keys: &[Key],
    steps: &mut Steps<L>,
) -> Result<(), NoMemory>
    ensures at { OnOk result ((rows : Rows) (t : List Rows) → UidsApart rows → ⟦<IIndex as Tables<IdentityRows>>⟧.at index.old (rows ∷ t) → ⟦<IIndex as Tables<IdentityRows>>⟧.at index.new (fold (with_member false) rows keys.now ∷ t)) }
    ensures others { ⟦<IIndex as Tables<IdentityRows>>⟧.others index.new ≡ ⟦<IIndex as Tables<IdentityRows>>⟧.others index.old }
    ensures count { ⟦<IIndex as Tables<IdentityRows>>⟧.count index.new + steps.old ≤ ⟦<IIndex as Tables<IdentityRows>>⟧.count index.old + steps.new }
    ensures steps { OnOk result (steps.new ≤ steps.old + 4 * length keys.now) }
{
    for key in keys {
        set_member(index, *key, false, steps)?;
    }
    Ok(())
}

/// Makes the key a member, or ends that, where it has an identity.
fn set_member<L: StepBook>(
    index: &mut IIndex,
    key: Key,
    member: bool,
    steps: &mut Steps<L>,
) -> Result<(), NoMemory>
    ensures at { OnOk result ((rows : Rows) (t : List Rows) → UidsApart rows → ⟦<IIndex as Tables<IdentityRows>>⟧.at index.old (rows ∷ t) → ⟦<IIndex as Tables<IdentityRows>>⟧.at index.new (with_member member rows key ∷ t)) }
    ensures others { ⟦<IIndex as Tables<IdentityRows>>⟧.others index.new ≡ ⟦<IIndex as Tables<IdentityRows>>⟧.others index.old }
    ensures count { ⟦<IIndex as Tables<IdentityRows>>⟧.count index.new + steps.old ≤ ⟦<IIndex as Tables<IdentityRows>>⟧.count index.old + steps.new }
    ensures steps { OnOk result (steps.new ≤ steps.old + 4) }
{
    match index.row(key) {
        Some(row) => {
            index.put_row(key, IdentityRow { member, ..row }, steps)?;
            Ok(())
        }
        None => Ok(()),
    }
}
