ghost use Rattle.std.specs.Prelude.{◌≡◌, ◌<◌, ℕ, List, Some, false, IfSome};
ghost use Rattle.std.specs.List.{list_any};
ghost use Rattle.std.specs.Ordering.{nat_cmp};
ghost use Rattle.dubp_undo.specs.MovingTable.{get};
ghost use Rattle.dubp_sindex.specs.declared.rows.LinkedRow.{LinkedRow};
ghost use Rattle.dubp_sindex.specs.Rows.{Entry, AreRows, of_account};
ghost use Rattle.dubp_sindex.specs.Origins.{OriginTexts};
ghost use Rattle.dubp_sindex.specs.Derived.{after, balance_at, before, is_at, last_place, linked_at};

use crate::link::Link;
use crate::rows::{Balance, Rows};

/// The place of the last source of an account with this balance.
pub fn last_of(balance: Option<Balance>) -> Link
    ensures { (account : ℕ) (rows : List Entry) → AreRows rows → balance ≡ balance_at account rows → result ≡ last_place (of_account account rows) }
{
    match balance {
        Some(balance) => Link::to(balance.last),
        None => Link::none(),
    }
}

// The same place, where it is below the other one.
fn lower(link: Link, place: usize) -> Link
    ensures falls { IfSome result (λ p. p < place) }
    ensures is { IfSome link (λ p. p < place) → result ≡ link }
{
    match link.place() {
        Some(below) if below < place => link,
        _ => Link::none(),
    }
}

// The place before that of this source in the list of its account.
fn before_it(rows: &Rows, place: usize) -> Link
    ensures falls { IfSome result (λ p. p < place) }
    ensures is { (row : LinkedRow) → get nat_cmp rows.now.table.now place ≡ Some row → IfSome row.before (λ p. p < place) → result ≡ row.before }
{
    match rows.get(place) {
        Some(row) => lower(row.before, place),
        None => Link::none(),
    }
}

/// The neighbours that a source at a free place has in the list of an account, which ends at `last`: the greatest place below, and the
/// least above.
///
/// It walks back from the last: no step where the source goes to the end.
pub fn neighbours(rows: &Rows, last: Link, place: usize) -> (Link, Link)
    ensures before { (o : OriginTexts) (account : ℕ) (all : List Entry) → ((p : ℕ) → get nat_cmp rows.now.table.now p ≡ linked_at o p all) → AreRows all → last ≡ last_place (of_account account all) → list_any (is_at place) all ≡ false → result.0 ≡ before place (of_account account all) }
    ensures after { (o : OriginTexts) (account : ℕ) (all : List Entry) → ((p : ℕ) → get nat_cmp rows.now.table.now p ≡ linked_at o p all) → AreRows all → last ≡ last_place (of_account account all) → list_any (is_at place) all ≡ false → result.1 ≡ after place (of_account account all) }
{
    let mut before = last;
    let mut after = Link::none();
    'back: while let Some(here) = before.place() {
        if here < place {
            return (before, after);
        }
        after = before;
        before = before_it(rows, here);
    }
    (before, after)
}
