ghost use Rattle.std.specs.Prelude.{◌≡◌, List, []};
ghost use Rattle.dubp_sindex.specs.States.{names_of, linked_of, balances_of};
ghost use Rattle.dubp_sindex.specs.Derived.{measure};

use crate::link::Link;
use crate::origins::Name;
use dubp_atoms::Secret;
use dubp_finders::{ByHash, ByNumber};
use dubp_least::{Least, Measure};
use dubp_undo::{Definition, Found, NoSummary, Three};
use std::marker::Model;

/// An unspent source.
#[derive(Clone, Copy, Debug, PartialEq, Eq)]
pub struct SourceRow {
    /// The amount, in units of 10^`base`, below 2^53.
    pub amount: u64,
    /// The base, at most 15.
    pub base: u8,
    /// The number of the account that its condition has.
    pub account: usize,
    /// The median time of the block that made it, in seconds.
    pub made_at: u64,
    /// Its place in the order of making, below 2^63. The index takes memory for each place up to the greatest.
    pub order: u64,
}

/// An unspent source in the list of those of its account: its name, its row, and the places of the one made before it and of the one
/// made after it.
#[derive(Clone, Copy, Debug, PartialEq, Eq)]
pub struct LinkedRow {
    pub name: Name,
    pub row: SourceRow,
    pub before: Link,
    pub after: Link,
}

/// What an account with unspent sources has: its number, their units together, how many they are, and the places of the first and the
/// last of them.
#[derive(Clone, Copy, Debug, PartialEq, Eq)]
pub struct Balance {
    pub account: usize,
    pub units: u128,
    pub count: usize,
    pub first: usize,
    pub last: usize,
}

/// The rows after a block: a state of the index. No value of it is made.
#[derive(Drop)]
pub struct SourceRows {
    nothing: (),
}

impl Model for SourceRows {
    ghost use Rattle.std.specs.Prelude.{List, []};
    ghost use Rattle.dubp_sindex.specs.Rows.{Entry};

    ghost Value = { List Entry };

    ghost view = { λ s. [] };
}

/// The rows after a block with the origins that have a number: a state of the three tables. No value of it is made.
#[derive(Drop)]
pub struct NumberedRows {
    nothing: (),
}

impl Model for NumberedRows {
    ghost use Rattle.std.specs.Prelude.{[]};
    ghost use Rattle.dubp_sindex.specs.Origins.{no_origins};
    ghost use Rattle.dubp_sindex.specs.States.{TableState};

    ghost Value = { TableState };

    ghost view = { λ s. (no_origins, []) };
}

/// The place of each unspent source, by its name.
pub struct NamesOf;

impl Definition<NumberedRows, Name, usize> for NamesOf {
    ghost at = { names_of };
}

/// The source at each place in the order of making, with its neighbours.
pub struct RowsOf;

impl Definition<NumberedRows, usize, LinkedRow> for RowsOf {
    ghost at = { linked_of };
}

/// The balance of each account that has an unspent source.
pub struct BalancesOf;

impl Definition<NumberedRows, usize, Balance> for BalancesOf {
    ghost at = { balances_of };
}

/// Balances are in the order of their units, and of the numbers of their accounts where these are the same.
pub struct ByUnits;

impl Measure<Balance> for ByUnits {
    ghost measure = { measure };

    fn is_below(value: &Balance, other: &Balance) -> bool {
        value.units < other.units || (value.units == other.units && value.account < other.account)
    }
}

/// The places of sources, by their names.
pub type Names = Found<NumberedRows, Name, usize, NamesOf, ByHash<Name, Secret>, NoSummary>;

/// The sources by their places, each in the list of its account.
pub type Rows = Found<NumberedRows, usize, LinkedRow, RowsOf, ByNumber, NoSummary>;

/// The balances of accounts, with the least of them.
pub type Balances = Found<NumberedRows, usize, Balance, BalancesOf, ByNumber, Least<ByUnits>>;

/// The three tables.
pub type SourceTables = Three<NumberedRows, Names, Rows, Balances>;
