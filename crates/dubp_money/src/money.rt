ghost use Rattle.std.specs.Prelude.{◌≡◌, [], option_map};
ghost use Rattle.dubp_chain.specs.Chains.{Chain};
ghost use Rattle.dubp_chain.specs.Tables.{has_transaction, totals};
ghost use Rattle.dubp_money.specs.Tables.{transaction_at, totals_at, totals_entry};

use crate::sources::Sources;
use dubp_atoms::{Hash, NoMemory, Secret, Steps};
use dubp_block::Block;
use dubp_facts::Facts;
use dubp_finders::ByHash;
use dubp_undo::{Both, Definition, Found, Leaf, NoSummary, Tables, Three};
use std::alloc::Global;
use std::sync::ledger::Ledger as StepBook;

/// The units that a chain issued, those that are unspent and those that were cleared, and how many sources it made.
#[derive(Clone, Copy, Debug, PartialEq, Eq)]
pub struct Totals {
    pub issued: u128,
    pub unspent: u128,
    pub cleared: u128,
    pub made: u64,
}

/// The hashes of the transactions of each chain.
pub struct TransactionsOf;

impl Definition<Block, Hash, ()> for TransactionsOf {
    ghost at = { transaction_at };
}

/// The totals of each chain.
pub struct TotalsOf;

impl Definition<Block, (), Totals> for TotalsOf {
    ghost at = { totals_at };
}

pub(crate) type HashTable = Found<Block, Hash, (), TransactionsOf, ByHash<Hash, Secret>, NoSummary>;

pub(crate) type HashesAndTotals = Both<Block, HashTable, Leaf<Block, (), Totals, TotalsOf>>;

type MoneyTables = Three<Block, Sources, HashesAndTotals, Facts>;

/// The money of a chain: its unspent sources, the hashes of its transactions and its totals, and its facts.
#[derive(Drop)]
pub struct Money {
    pub(crate) tables: MoneyTables,
}

impl Tables<Block> for Money {
    ghost Now = { ⟦<MoneyTables as Tables<Block>>⟧.Now };

    ghost Names = { ⟦<MoneyTables as Tables<Block>>⟧.Names };

    ghost now = { λ t. ⟦<MoneyTables as Tables<Block>>⟧.now t.tables };

    ghost count = { λ t. ⟦<MoneyTables as Tables<Block>>⟧.count t.tables };

    ghost others = { λ t. ⟦<MoneyTables as Tables<Block>>⟧.others t.tables };

    ghost spare = { λ t. ⟦<MoneyTables as Tables<Block>>⟧.spare t.tables };

    ghost names = { λ t. ⟦<MoneyTables as Tables<Block>>⟧.names t.tables };

    ghost is = { ⟦<MoneyTables as Tables<Block>>⟧.is };

    ghost at = { λ t c. ⟦<MoneyTables as Tables<Block>>⟧.at t.tables c };

    fn depth(&self) -> usize {
        self.tables.depth()
    }

    fn mark(&mut self) -> Result<(), NoMemory> {
        self.tables.mark()?;
        Ok(())
    }

    fn unmark(&mut self) {
        self.tables.unmark();
    }

    fn reserve(&mut self, k: usize) -> Result<(), NoMemory> {
        self.tables.reserve(k)?;
        Ok(())
    }

    fn hold<L: StepBook>(&mut self, steps: &mut Steps<L>) {
        self.tables.hold(steps);
    }

    fn back<L: StepBook>(&mut self, steps: &mut Steps<L>) {
        self.tables.back(steps);
    }

    fn again<L: StepBook>(&mut self, steps: &mut Steps<L>) {
        self.tables.again(steps);
    }

    fn drop_oldest(&mut self) {
        self.tables.drop_oldest();
    }

    fn drop_ahead(&mut self) {
        self.tables.drop_ahead();
    }

    ghost is_at = { λ t c is. is };

    ghost at_is = { λ t c is. is };
}

// The tables beside the sources, in which nothing stands.
fn no_tables(alloc: Global, secret: Secret) -> HashesAndTotals
    ensures at { ⟦<HashesAndTotals as Tables<Block>>⟧.at result [] }
    ensures count { ⟦<HashesAndTotals as Tables<Block>>⟧.count result ≡ 0 }
    ensures kept { (⟦<HashesAndTotals as Tables<Block>>⟧.others result).kept ≡ [] }
    ensures ahead { (⟦<HashesAndTotals as Tables<Block>>⟧.others result).ahead ≡ [] }
{
    Both::new(
        Found::over(ByHash::new(alloc, secret), NoSummary, alloc),
        Leaf::new(alloc),
    )
}

impl Money {
    /// That of the empty chain. It takes no memory.
    pub fn new(alloc: Global) -> Money
        ensures at { ⟦<Money as Tables<Block>>⟧.at result [] }
        ensures count { ⟦<Money as Tables<Block>>⟧.count result ≡ 0 }
        ensures kept { (⟦<Money as Tables<Block>>⟧.others result).kept ≡ [] }
        ensures ahead { (⟦<Money as Tables<Block>>⟧.others result).ahead ≡ [] }
    {
        Money::with_secret(alloc, Secret::known())
    }

    /// That of the empty chain, whose accounts and sources strangers choose: they are hashed by the secret. It takes no memory.
    pub fn with_secret(alloc: Global, secret: Secret) -> Money
        ensures at { ⟦<Money as Tables<Block>>⟧.at result [] }
        ensures count { ⟦<Money as Tables<Block>>⟧.count result ≡ 0 }
        ensures kept { (⟦<Money as Tables<Block>>⟧.others result).kept ≡ [] }
        ensures ahead { (⟦<Money as Tables<Block>>⟧.others result).ahead ≡ [] }
    {
        Money {
            tables: Three::new(
                Sources::new(alloc, secret),
                no_tables(alloc, secret),
                Facts::new(alloc),
            ),
        }
    }

    /// Whether the chain has a transaction of this hash. It takes no memory.
    pub fn has_transaction(&self, hash: Hash) -> bool
        ensures { (c : Chain) → ⟦<Money as Tables<Block>>⟧.at self.now c → result ≡ has_transaction c hash }
    {
        match self.tables.second.first.get(hash) {
            Some(()) => true,
            None => false,
        }
    }

    /// The totals, or None where the chain is empty. It takes no memory.
    pub fn totals(&self) -> Option<Totals>
        ensures { (c : Chain) → ⟦<Money as Tables<Block>>⟧.at self.now c → result ≡ option_map totals_entry (totals c) }
    {
        self.tables.second.second.get(())
    }

    /// The unspent sources.
    pub fn sources(&self) -> &Sources
        ensures { (c : Chain) → ⟦<Money as Tables<Block>>⟧.at self.now c → ⟦<Sources as Tables<Block>>⟧.at result.now c }
    {
        &self.tables.first
    }

    /// The parameters, the currency and the times of the blocks.
    pub fn facts(&self) -> &Facts
        ensures { (c : Chain) → ⟦<Money as Tables<Block>>⟧.at self.now c → ⟦<Facts as Tables<Block>>⟧.at result.now c }
    {
        &self.tables.third
    }
}
