ghost use Rattle.std.specs.Prelude.{◌≡◌, ◌+◌, ◌*◌, ◌<◌, ◌≤◌, ◌++◌, ◌∷◌, List, [], filter, take, length, not, map, OnOk, IfOk, IfSome, IfNone};
ghost use Rattle.dubp_sindex.specs.Accounts.{accounts as texts};
ghost use Rattle.dubp_sindex.specs.Rows.{Entry, AreRows, is_of, of_account, units_in};
ghost use Rattle.dubp_money_steps.specs.Clearing.{HasEnough, kept, taken as cleared, clear_record};
ghost use Rattle.dubp_money.specs.Index.{HasRows, Stays};
ghost use Rattle.dubp_money.specs.Writing.{AreCleared};

use crate::spending::spend_source;
use dubp_atoms::{NoMemory, Steps};
use dubp_cond::{Input, SourceId};
use dubp_sindex::{SIndex, SourceRow, SourceRows};
use dubp_undo::Tables;
use dubp_validity::Record;
use std::alloc::Global;
use std::sync::ledger::Ledger as StepBook;

fn put_entry(
    taken: &mut Vec<(SourceId, SourceRow)>,
    entry: (SourceId, SourceRow),
) -> Result<(), NoMemory>
    ensures appended { OnOk result (taken.new.items ≡ taken.old.items ++ entry ∷ []) }
    ensures begins { take (length taken.old.items) taken.new.items ≡ taken.old.items }
{
    taken.push(entry).map_err(|_| NoMemory)
}

// Takes all sources of the account, and puts them behind what was taken.
#[tactic(auto, using(crate::proofs::Begins::begins_behind))]
fn take_account<L: StepBook>(
    index: &mut SIndex,
    alloc: Global,
    account: usize,
    taken: &mut Vec<(SourceId, SourceRow)>,
    steps: &mut Steps<L>,
) -> Result<(), NoMemory>
    ensures left { OnOk result ((rows : List Entry) → AreRows rows → HasRows index.old rows → HasRows index.new (filter (λ e. not (is_of account e)) rows)) }
    ensures taken { OnOk result ((rows : List Entry) → AreRows rows → HasRows index.old rows → taken.new.items ≡ taken.old.items ++ of_account account rows) }
    ensures begins { take (length taken.old.items) taken.new.items ≡ taken.old.items }
    ensures steps { OnOk result (steps.new + 5 * length taken.old.items ≤ steps.old + 5 * length taken.new.items) }
    ensures others { ⟦<SIndex as Tables<SourceRows>>⟧.others index.new ≡ ⟦<SIndex as Tables<SourceRows>>⟧.others index.old }
    ensures count { ⟦<SIndex as Tables<SourceRows>>⟧.count index.new + steps.old ≤ ⟦<SIndex as Tables<SourceRows>>⟧.count index.old + steps.new }
    ensures texts { texts index.new ≡ texts index.old }
    ensures stays { Stays index.old index.new }
{
    let found = index.sources(alloc, account)?;
    for entry in &found {
        spend_source(index, entry.0, steps)?;
        put_entry(taken, *entry)?;
    }
    Ok(())
}

// The account with the least balance, where that is below the limit.
fn lowest_below(index: &SIndex, limit: u128) -> Option<usize>
    ensures found { (rows : List Entry) → HasRows index.now rows → IfSome result (λ account. units_in account rows < limit) }
    ensures none { (rows : List Entry) → HasRows index.now rows → IfNone result (HasEnough limit rows) }
{
    match index.lowest() {
        Some(lowest) => account_below(lowest, limit),
        None => None,
    }
}

// The account of the balance, where that is below the limit.
fn account_below(lowest: (u128, usize), limit: u128) -> Option<usize>
    ensures found { IfSome result (λ account. (account ≡ lowest.1) × (lowest.0 < limit)) }
    ensures none { IfNone result (limit ≤ lowest.0) }
{
    if limit <= lowest.0 {
        return None;
    }
    Some(lowest.1)
}

// Takes all sources of the account with the least balance, as long as that is below the limit.
fn take_little<L: StepBook>(
    index: &mut SIndex,
    alloc: Global,
    limit: u128,
    steps: &mut Steps<L>,
) -> Result<Vec<(SourceId, SourceRow)>, NoMemory>
    ensures cleared { IfOk result (λ taken. (rows : List Entry) → AreRows rows → HasRows index.old rows → AreCleared (HasRows index.new) limit rows taken.items) }
    ensures steps { IfOk result (λ taken. steps.new ≤ steps.old + 5 * length taken.items) }
    ensures others { ⟦<SIndex as Tables<SourceRows>>⟧.others index.new ≡ ⟦<SIndex as Tables<SourceRows>>⟧.others index.old }
    ensures count { ⟦<SIndex as Tables<SourceRows>>⟧.count index.new + steps.old ≤ ⟦<SIndex as Tables<SourceRows>>⟧.count index.old + steps.new }
    ensures texts { texts index.new ≡ texts index.old }
    ensures stays { Stays index.old index.new }
{
    let mut taken = Vec::new(alloc);
    // what the index has is no value, so no measure speaks of it; there are fewer accounts than turns
    'accounts: for _ in 0..u64::MAX {
        let Some(account) = lowest_below(index, limit) else {
            return Ok(taken);
        };
        take_account(index, alloc, account, &mut taken, steps)?;
    }
    Err(NoMemory)
}

/// Takes the sources of each account whose balance is below the limit, and hands them out in the order of making. The accounts are
/// found by their balances, the least first, so none that has the limit is looked at but one. At most five sets a source.
///
/// On `NoMemory` some of them may be taken; what is kept stays so.
pub fn clear_accounts<L: StepBook>(
    index: &mut SIndex,
    alloc: Global,
    limit: u128,
    steps: &mut Steps<L>,
) -> Result<Vec<(SourceId, SourceRow)>, NoMemory>
    ensures left { OnOk result ((rows : List Entry) → AreRows rows → HasRows index.old rows → HasRows index.new (kept limit rows)) }
    ensures taken { IfOk result (λ taken. (rows : List Entry) → AreRows rows → HasRows index.old rows → taken.items ≡ cleared limit rows) }
    ensures steps { IfOk result (λ taken. steps.new ≤ steps.old + 5 * length taken.items) }
    ensures others { ⟦<SIndex as Tables<SourceRows>>⟧.others index.new ≡ ⟦<SIndex as Tables<SourceRows>>⟧.others index.old }
    ensures count { ⟦<SIndex as Tables<SourceRows>>⟧.count index.new + steps.old ≤ ⟦<SIndex as Tables<SourceRows>>⟧.count index.old + steps.new }
    ensures texts { texts index.new ≡ texts index.old }
    ensures stays { Stays index.old index.new }
{
    let mut taken = take_little(index, alloc, limit, steps)?;
    taken.sort_unstable_by_key(|entry| entry.1.order);
    Ok(taken)
}

fn put_clear(entry: &(SourceId, SourceRow), out: &mut Vec<Record>) -> Result<(), NoMemory>
    ensures appended { OnOk result (out.new.items ≡ out.old.items ++ clear_record entry.now ∷ []) }
    ensures begins { take (length out.old.items) out.new.items ≡ out.old.items }
{
    let input = Input {
        amount: entry.1.amount,
        base: entry.1.base,
        source: entry.0,
    };
    out.push(Record::Clear { input }).map_err(|_| NoMemory)
}

/// Appends a record of clearing for each of the sources.
#[tactic(auto, using(crate::proofs::Begins::begins_behind))]
pub fn put_clears(taken: &[(SourceId, SourceRow)], out: &mut Vec<Record>) -> Result<(), NoMemory>
    ensures appended { OnOk result (out.new.items ≡ out.old.items ++ map clear_record taken.now) }
    ensures begins { take (length out.old.items) out.new.items ≡ out.old.items }
{
    for entry in taken {
        put_clear(entry, out)?;
    }
    Ok(())
}
