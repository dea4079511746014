ghost use Rattle.std.specs.Prelude.{◌≡◌, ◌+◌, ◌*◌, ◌≤◌, ◌++◌, List, ◌∷◌, [], IsTrue, take, length, map, ℕ, OnOk, IfOk};
ghost use Rattle.std.specs.List.{list_any};
ghost use Rattle.dubp_atoms.specs.Same.{same_text};
ghost use Rattle.dubp_cond.specs.Conditions.{cond_text};
ghost use Rattle.dubp_validity.specs.declared.record.Record.TheVariants.{Make};
ghost use Rattle.dubp_validity.specs.Records.{make_record};
ghost use Rattle.dubp_chain.specs.Money.{signed_by};
ghost use Rattle.dubp_sindex.specs.Accounts.{accounts};
ghost use Rattle.dubp_sindex.specs.Rows.{Entry, AreRows, IsNewRow};
ghost use Rattle.dubp_sindex.specs.Numbering.{signed_text};
ghost use Rattle.dubp_money_steps.specs.Left.{account_in, entry_of, HasTexts};
ghost use Rattle.dubp_money.specs.Index.{HasRows, Stays};
ghost use Rattle.dubp_money.specs.Texts.{Grows};
ghost use Rattle.dubp_money.specs.Making.{outputs_at, CanFollow, with_made, source_of};

use crate::counting::place_behind;
use dubp_atoms::{Hash, Items, Key, NoMemory, Steps};
use dubp_cond::{Input, Output, SourceId, SpelledCond, Tx};
use dubp_sindex::{SIndex, SourceRow, SourceRows};
use dubp_undo::Tables;
use dubp_validity::Record;
use std::alloc::Global;
use std::sync::ledger::Ledger as StepBook;

/// A source that is made, without its condition: when, in seconds, and its place in the order of making.
#[derive(Clone, Copy, Debug, PartialEq, Eq)]
pub struct NewSource {
    pub id: SourceId,
    pub amount: u64,
    pub base: u8,
    pub made_at: u64,
    pub order: u64,
}

// The row of a source whose condition has this number.
fn row_of(source: &NewSource, account: usize) -> SourceRow
    ensures { result ≡ record { amount = source.now.amount; base = source.now.base; account = account; made_at = source.now.made_at; order = source.now.order } }
{
    SourceRow {
        amount: source.amount,
        base: source.base,
        account,
        made_at: source.made_at,
        order: source.order,
    }
}

// The source is unspent, behind all others, and its condition has a number.
fn make_source<L: StepBook>(
    index: &mut SIndex,
    source: NewSource,
    cond: &SpelledCond,
    steps: &mut Steps<L>,
) -> Result<(), NoMemory>
    ensures at { OnOk result ((rows : List Entry) → AreRows rows → HasRows index.old rows → IsNewRow rows (entry_of (account_in (accounts index.new)) (source.order, source_of source cond.now)) → HasRows index.new (rows ++ entry_of (account_in (accounts index.new)) (source.order, source_of source cond.now) ∷ [])) }
    ensures has { OnOk result (IsTrue (list_any (same_text (cond_text cond.now)) (accounts index.new))) }
    ensures texts { Grows (accounts index.old) (accounts index.new) }
    ensures stays { Stays index.old index.new }
    ensures steps { OnOk result (steps.new ≤ steps.old + 5) }
    ensures others { ⟦<SIndex as Tables<SourceRows>>⟧.others index.new ≡ ⟦<SIndex as Tables<SourceRows>>⟧.others index.old }
    ensures count { ⟦<SIndex as Tables<SourceRows>>⟧.count index.new + steps.old ≤ ⟦<SIndex as Tables<SourceRows>>⟧.count index.old + steps.new }
{
    let account = index.spelled_account(cond)?;
    index.make(source.id, row_of(&source, account), steps)?;
    Ok(())
}

// The same of a source whose condition this key signs.
pub(crate) fn make_signed<L: StepBook>(
    index: &mut SIndex,
    source: NewSource,
    key: &Key,
    steps: &mut Steps<L>,
) -> Result<(), NoMemory>
    ensures at { OnOk result ((rows : List Entry) → AreRows rows → HasRows index.old rows → IsNewRow rows (entry_of (account_in (accounts index.new)) (source.order, source_of source (signed_by key.now))) → HasRows index.new (rows ++ entry_of (account_in (accounts index.new)) (source.order, source_of source (signed_by key.now)) ∷ [])) }
    ensures has { OnOk result (IsTrue (list_any (same_text (signed_text key.now)) (accounts index.new))) }
    ensures texts { Grows (accounts index.old) (accounts index.new) }
    ensures stays { Stays index.old index.new }
    ensures steps { OnOk result (steps.new ≤ steps.old + 5) }
    ensures others { ⟦<SIndex as Tables<SourceRows>>⟧.others index.new ≡ ⟦<SIndex as Tables<SourceRows>>⟧.others index.old }
    ensures count { ⟦<SIndex as Tables<SourceRows>>⟧.count index.new + steps.old ≤ ⟦<SIndex as Tables<SourceRows>>⟧.count index.old + steps.new }
{
    let account = index.signed_account(key)?;
    index.make(source.id, row_of(&source, account), steps)?;
    Ok(())
}

/// The outputs of the transaction of this hash are unspent sources, from this place on in the order of making, made at this
/// time in seconds. Each of their conditions has a number. At most five sets an output.
///
/// On `NoMemory` some of them may be made; what is kept stays so.
pub fn make_outputs<L: StepBook>(
    index: &mut SIndex,
    tx: &Tx,
    hash: &Hash,
    time: u64,
    order: u64,
    steps: &mut Steps<L>,
) -> Result<(), NoMemory>
    ensures at { OnOk result ((rows : List Entry) → AreRows rows → CanFollow rows order (outputs_at time hash.now tx.now) → HasRows index.old rows → HasRows index.new (with_made (accounts index.new) rows order (outputs_at time hash.now tx.now))) }
    ensures has { OnOk result (HasTexts (accounts index.new) (outputs_at time hash.now tx.now)) }
    ensures texts { Grows (accounts index.old) (accounts index.new) }
    ensures stays { Stays index.old index.new }
    ensures steps { OnOk result (steps.new ≤ steps.old + 5 * length tx.now.outputs) }
    ensures others { ⟦<SIndex as Tables<SourceRows>>⟧.others index.new ≡ ⟦<SIndex as Tables<SourceRows>>⟧.others index.old }
    ensures count { ⟦<SIndex as Tables<SourceRows>>⟧.count index.new + steps.old ≤ ⟦<SIndex as Tables<SourceRows>>⟧.count index.old + steps.new }
{
    let mut place = 0;
    for output in tx.outputs.as_slice() {
        let source = NewSource {
            id: SourceId::T {
                tx: *hash,
                index: place,
            },
            amount: output.amount,
            base: output.base,
            made_at: time,
            order: place_behind(order, place),
        };
        make_source(index, source, &output.cond, steps)?;
        place += 1;
    }
    Ok(())
}

// The text of the condition, in memory of its own length.
fn text_of(alloc: Global, cond: &SpelledCond) -> Result<Items<u8>, NoMemory>
    ensures { IfOk result (λ text. text ≡ cond_text cond.now) }
{
    let text: Vec<u8> = Vec::from_slice(alloc, cond.as_text()).map_err(|_| NoMemory)?;
    Ok(Items::from_vec(text))
}

fn put_make(
    alloc: Global,
    output: &Output,
    source: SourceId,
    out: &mut Vec<Record>,
) -> Result<(), NoMemory>
    ensures appended { OnOk result (out.new.items ≡ out.old.items ++ Make (record { amount = output.now.amount; base = output.now.base; source = source }) (cond_text output.now.cond) ∷ []) }
    ensures begins { take (length out.old.items) out.new.items ≡ out.old.items }
{
    let cond = text_of(alloc, &output.cond)?;
    let input = Input {
        amount: output.amount,
        base: output.base,
        source,
    };
    out.push(Record::Make { input, cond }).map_err(|_| NoMemory)
}

/// Appends a record for each output of the transaction of this hash.
#[tactic(auto, using(crate::proofs::Begins::begins_on))]
pub fn put_makes(alloc: Global, tx: &Tx, hash: &Hash, out: &mut Vec<Record>) -> Result<(), NoMemory>
    ensures appended { OnOk result ((time : ℕ) → out.new.items ≡ out.old.items ++ map make_record (outputs_at time hash.now tx.now)) }
    ensures begins { take (length out.old.items) out.new.items ≡ out.old.items }
{
    let mut place = 0;
    for output in tx.outputs.as_slice() {
        let source = SourceId::T {
            tx: *hash,
            index: place,
        };
        put_make(alloc, output, source, out)?;
        place += 1;
    }
    Ok(())
}
