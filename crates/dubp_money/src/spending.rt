ghost use Rattle.std.specs.Prelude.{◌≡◌, ◌+◌, ◌*◌, ◌≤◌, ◌++◌, List, ◌∷◌, [], map, take, length, OnOk};
ghost use Rattle.dubp_sindex.specs.Accounts.{accounts};
ghost use Rattle.dubp_sindex.specs.Rows.{Entry, AreRows, without};
ghost use Rattle.dubp_validity.specs.declared.record.Record.TheVariants.{Spend};
ghost use Rattle.dubp_money.specs.Index.{HasRows, Stays};
ghost use Rattle.dubp_money.specs.Writing.{without_inputs};

use dubp_atoms::{NoMemory, Steps};
use dubp_cond::{Input, SourceId, Tx};
use dubp_sindex::{SIndex, SourceRows};
use dubp_undo::Tables;
use dubp_validity::Record;
use std::sync::ledger::Ledger as StepBook;

// The source is no longer unspent.
pub(crate) fn spend_source<L: StepBook>(
    index: &mut SIndex,
    id: SourceId,
    steps: &mut Steps<L>,
) -> Result<(), NoMemory>
    ensures at { OnOk result ((rows : List Entry) → AreRows rows → HasRows index.old rows → HasRows index.new (without id rows)) }
    ensures steps { OnOk result (steps.new ≤ steps.old + 5) }
    ensures others { ⟦<SIndex as Tables<SourceRows>>⟧.others index.new ≡ ⟦<SIndex as Tables<SourceRows>>⟧.others index.old }
    ensures count { ⟦<SIndex as Tables<SourceRows>>⟧.count index.new + steps.old ≤ ⟦<SIndex as Tables<SourceRows>>⟧.count index.old + steps.new }
    ensures accounts { accounts index.new ≡ accounts index.old }
    ensures stays { Stays index.old index.new }
{
    index.spend(id, steps)?;
    Ok(())
}

/// The sources that the inputs of the transaction name are no longer unspent. At most five sets an input.
///
/// On `NoMemory` some of them may be spent; what is kept stays so.
pub fn spend_inputs<L: StepBook>(
    index: &mut SIndex,
    tx: &Tx,
    steps: &mut Steps<L>,
) -> Result<(), NoMemory>
    ensures at { OnOk result ((rows : List Entry) → AreRows rows → HasRows index.old rows → HasRows index.new (without_inputs tx.now.inputs rows)) }
    ensures steps { OnOk result (steps.new ≤ steps.old + 5 * length tx.now.inputs) }
    ensures others { ⟦<SIndex as Tables<SourceRows>>⟧.others index.new ≡ ⟦<SIndex as Tables<SourceRows>>⟧.others index.old }
    ensures count { ⟦<SIndex as Tables<SourceRows>>⟧.count index.new + steps.old ≤ ⟦<SIndex as Tables<SourceRows>>⟧.count index.old + steps.new }
    ensures accounts { accounts index.new ≡ accounts index.old }
    ensures stays { Stays index.old index.new }
{
    for input in tx.inputs.as_slice() {
        spend_source(index, input.source, steps)?;
    }
    Ok(())
}

fn put_spend(input: &Input, out: &mut Vec<Record>) -> Result<(), NoMemory>
    ensures appended { OnOk result (out.new.items ≡ out.old.items ++ Spend input.now ∷ []) }
    ensures begins { take (length out.old.items) out.new.items ≡ out.old.items }
{
    out.push(Record::Spend { input: *input })
        .map_err(|_| NoMemory)
}

/// Appends a record for each input of the transaction.
#[tactic(auto, using(crate::proofs::Begins::begins_behind))]
pub fn put_spends(tx: &Tx, out: &mut Vec<Record>) -> Result<(), NoMemory>
    ensures appended { OnOk result (out.new.items ≡ out.old.items ++ map Spend tx.now.inputs) }
    ensures begins { take (length out.old.items) out.new.items ≡ out.old.items }
{
    for input in tx.inputs.as_slice() {
        put_spend(input, out)?;
    }
    Ok(())
}
