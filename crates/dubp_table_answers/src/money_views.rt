ghost use Rattle.std.specs.Prelude.{◌≡◌, ◌∷◌, ◌++◌, [], map, slice_get, option_map, IfOk, OnOk};
ghost use Rattle.dubp_chain.specs.Chains.{Chain};
ghost use Rattle.dubp_chain.specs.Money.{balance as balance_of_chain, sources_of};
ghost use Rattle.dubp_money.specs.OfValidity.{IsSound};
ghost use Rattle.dubp_answers.specs.SourceLines.{view_of};
ghost use Rattle.dubp_table_answers.specs.MoneyViews.{row_view};

use dubp_answers::SourceView;
use dubp_atoms::NoMemory;
use dubp_block::Block;
use dubp_cond::{CondText, SourceId};
use dubp_money::{Money, Sources};
use dubp_moving::Tables;
use dubp_sindex::SourceRow;
use std::alloc::Global;

/// The units that the condition of this text has. It takes no memory.
pub fn balance(money: &Money, cond: &CondText) -> u128
    ensures { (c : Chain) → ⟦<Money as Tables<Block>>⟧.at money.now c → result ≡ balance_of_chain c cond.now.items }
{
    units_of(money.sources(), cond.as_slice())
}

/// The unspent sources of the condition of this text, in the order of making.
///
/// `NoMemory` where there is no room for them.
pub fn sources(alloc: Global, money: &Money, cond: &CondText) -> Result<Vec<SourceView>, NoMemory>
    ensures { IfOk result (λ found. (c : Chain) → ⟦<Money as Tables<Block>>⟧.at money.now c → IsSound c → found.items ≡ map view_of (sources_of c cond.now.items)) }
{
    let rows = rows_of(alloc, money.sources(), cond.as_slice())?;
    let found = views_of(alloc, rows.as_slice())?;
    Ok(found)
}

/// The first unspent source of the condition of this text, in the order of making, or `None` where it has none. It takes no memory.
pub fn first_source(money: &Money, cond: &CondText) -> Option<SourceView>
    ensures { (c : Chain) → ⟦<Money as Tables<Block>>⟧.at money.now c → IsSound c → result ≡ option_map view_of (slice_get (sources_of c cond.now.items) 0) }
{
    first_of(money.sources(), cond.as_slice())
}

/// What is shown of the first source of the condition of this text.
fn first_of(sources: &Sources, cond: &[u8]) -> Option<SourceView>
    ensures { (c : Chain) → ⟦<Sources as Tables<Block>>⟧.at sources.now c → IsSound c → result ≡ option_map view_of (slice_get (sources_of c cond.now) 0) }
{
    match sources.index.find(cond) {
        Some(account) => view_at(sources.index.first_source(account)),
        None => None,
    }
}

/// What is shown of a row, where there is one.
fn view_at(row: Option<(SourceId, SourceRow)>) -> Option<SourceView>
    ensures { result ≡ option_map row_view row }
{
    match row {
        Some(row) => Some(view_of(&row)),
        None => None,
    }
}

/// What is shown of these rows.
fn views_of(alloc: Global, rows: &[(SourceId, SourceRow)]) -> Result<Vec<SourceView>, NoMemory>
    ensures { IfOk result (λ found. found.items ≡ map row_view rows.now) }
{
    let mut found = Vec::new(alloc);
    for row in rows {
        push(&mut found, view_of(row))?;
    }
    Ok(found)
}

/// The units of the condition of this text.
fn units_of(sources: &Sources, cond: &[u8]) -> u128
    ensures { (c : Chain) → ⟦<Sources as Tables<Block>>⟧.at sources.now c → result ≡ balance_of_chain c cond.now }
{
    match sources.index.find(cond) {
        Some(account) => sources.index.balance(account),
        None => 0,
    }
}

/// The rows of the sources of the condition of this text, in the order of making.
fn rows_of(
    alloc: Global,
    sources: &Sources,
    cond: &[u8],
) -> Result<Vec<(SourceId, SourceRow)>, NoMemory>
    ensures { IfOk result (λ rows. (c : Chain) → ⟦<Sources as Tables<Block>>⟧.at sources.now c → IsSound c → map row_view rows.items ≡ map view_of (sources_of c cond.now)) }
{
    match sources.index.find(cond) {
        Some(account) => {
            let rows = sources.index.sources(alloc, account)?;
            Ok(rows)
        }
        None => Ok(Vec::new(alloc)),
    }
}

/// What is shown of a row.
fn view_of(row: &(SourceId, SourceRow)) -> SourceView
    ensures { result ≡ row_view row.now }
{
    SourceView {
        amount: row.1.amount,
        base: row.1.base,
        source: row.0,
    }
}

/// Appends the value.
fn push<T: Drop>(list: &mut Vec<T>, value: T) -> Result<(), NoMemory>
    ensures { OnOk result (list.new.items ≡ list.old.items ++ value ∷ []) }
{
    list.push(value).map_err(|_| NoMemory)
}
