ghost use Rattle.std.specs.Prelude.{◌≡◌, ◌+◌, ◌*◌, ◌≤◌, ◌++◌, List, ◌∷◌, [], take, length, map, OnOk, IfOk};
ghost use Rattle.dubp_cond.specs.declared.source.SourceId.TheVariants.{D};
ghost use Rattle.dubp_validity.specs.declared.record.Record.TheVariants.{Dividend};
ghost use Rattle.dubp_validity.specs.Records.{input_of};
ghost use Rattle.dubp_sindex.specs.Accounts.{accounts};
ghost use Rattle.dubp_sindex.specs.Rows.{Entry, AreRows};
ghost use Rattle.dubp_money_steps.specs.Left.{HasTexts};
ghost use Rattle.dubp_money.specs.Index.{HasRows, Stays};
ghost use Rattle.dubp_money.specs.Texts.{Grows};
ghost use Rattle.dubp_money.specs.Making.{dividends_to, CanFollow, with_made};

use crate::counting::place_behind;
use crate::making::{NewSource, make_signed};
use dubp_atoms::{Key, NoMemory, Steps};
use dubp_cond::{Input, SourceId};
use dubp_sindex::{SIndex, SourceRows};
use dubp_undo::Tables;
use dubp_validity::Record;
use std::sync::ledger::Ledger as StepBook;

/// What the block of this number pays to each member, at this time in seconds.
#[derive(Clone, Copy, Debug, PartialEq, Eq)]
pub struct Payment {
    pub amount: u64,
    pub base: u8,
    pub number: u64,
    pub time: u64,
}

/// The dividends of the members are unspent sources, from this place on in the order of making. Each of their conditions has a
/// number. At most five sets a member.
///
/// On `NoMemory` some of them may be made; what is kept stays so.
pub fn pay_dividends<L: StepBook>(
    index: &mut SIndex,
    payment: Payment,
    members: &[Key],
    order: u64,
    steps: &mut Steps<L>,
) -> Result<(), NoMemory>
    ensures at { OnOk result ((rows : List Entry) → AreRows rows → CanFollow rows order (dividends_to payment members.now) → HasRows index.old rows → HasRows index.new (with_made (accounts index.new) rows order (dividends_to payment members.now))) }
    ensures has { OnOk result (HasTexts (accounts index.new) (dividends_to payment members.now)) }
    ensures texts { Grows (accounts index.old) (accounts index.new) }
    ensures stays { Stays index.old index.new }
    ensures steps { OnOk result (steps.new ≤ steps.old + 5 * length members.now) }
    ensures others { ⟦<SIndex as Tables<SourceRows>>⟧.others index.new ≡ ⟦<SIndex as Tables<SourceRows>>⟧.others index.old }
    ensures count { ⟦<SIndex as Tables<SourceRows>>⟧.count index.new + steps.old ≤ ⟦<SIndex as Tables<SourceRows>>⟧.count index.old + steps.new }
{
    let mut place = 0;
    for key in members {
        let source = NewSource {
            id: SourceId::D {
                key: *key,
                block: payment.number,
            },
            amount: payment.amount,
            base: payment.base,
            made_at: payment.time,
            order: place_behind(order, place),
        };
        make_signed(index, source, key, steps)?;
        place += 1;
    }
    Ok(())
}

fn put_dividend(payment: Payment, key: &Key, out: &mut Vec<Record>) -> Result<(), NoMemory>
    ensures appended { OnOk result (out.new.items ≡ out.old.items ++ Dividend (record { amount = payment.amount; base = payment.base; source = D key.now payment.number }) ∷ []) }
    ensures begins { take (length out.old.items) out.new.items ≡ out.old.items }
{
    let source = SourceId::D {
        key: *key,
        block: payment.number,
    };
    let input = Input {
        amount: payment.amount,
        base: payment.base,
        source,
    };
    out.push(Record::Dividend { input }).map_err(|_| NoMemory)
}

/// Appends a record for the dividend of each of the members.
#[tactic(auto, using(crate::proofs::Begins::begins_behind))]
pub fn put_dividends(
    payment: Payment,
    members: &[Key],
    out: &mut Vec<Record>,
) -> Result<(), NoMemory>
    ensures appended { OnOk result (out.new.items ≡ out.old.items ++ map (λ s. Dividend (input_of s)) (dividends_to payment members.now)) }
    ensures begins { take (length out.old.items) out.new.items ≡ out.old.items }
{
    for key in members {
        put_dividend(payment, key, out)?;
    }
    Ok(())
}
