ghost use Rattle.std.specs.Prelude.{◌≡◌, ◌∷◌, ◌<◌, ◌≤◌, List, [], Some, length, slice_get, OnOk, OnErr, IfOk};
ghost use Rattle.dubp_atoms.specs.Same.{Text};
ghost use Rattle.dubp_cond.specs.Conditions.{cond_text};
ghost use Rattle.dubp_sindex.specs.Accounts.{accounts};
ghost use Rattle.dubp_sindex.specs.Numbering.{AreApart, number_of, signed_text, with_text};
ghost use Rattle.dubp_sindex.specs.Origins.{OriginTexts, AreKnown, no_origins};
ghost use Rattle.dubp_sindex.specs.Rows.{AreRows};
ghost use Rattle.dubp_sindex.specs.States.{States, rows_of};

use crate::accounts::Accounts;
use crate::origins::Origins;
use crate::rows::{Balance, NumberedRows, SourceRows, SourceTables};
use arrayvec::ArrayVec;
use dubp_atoms::{Key, Line, NoMemory, Secret, Steps};
use dubp_cond::{Cond, SpelledCond, put_cond};
use dubp_finders::{ByHash, ByNumber};
use dubp_least::Least;
use dubp_undo::{Found, NoSummary, Tables, Three};
use std::alloc::Global;
use std::sync::ledger::Ledger as StepBook;

/// The unspent sources, the accounts that have them, and the origins that name them.
///
/// Its tables move as one, and the accounts and origins stay: a text that has a number keeps it over every move.
#[derive(Drop)]
pub struct SIndex {
    pub(crate) tables: SourceTables,
    pub(crate) origins: Origins,
    pub(crate) accounts: Accounts,
}

impl Tables<SourceRows> for SIndex {
    ghost Now = { ⟦<SourceTables as Tables<NumberedRows>>⟧.Now };

    ghost Names = { (⟦<SourceTables as Tables<NumberedRows>>⟧.Names × OriginTexts) × List Text };

    ghost now = { λ t. ⟦<SourceTables as Tables<NumberedRows>>⟧.now t.tables };

    ghost count = { λ t. ⟦<SourceTables as Tables<NumberedRows>>⟧.count t.tables };

    ghost others = { λ t. ⟦<SourceTables as Tables<NumberedRows>>⟧.others t.tables };

    ghost spare = { λ t. ⟦<SourceTables as Tables<NumberedRows>>⟧.spare t.tables };

    // the origins of sources and the accounts are told by number
    ghost names = { λ t. ((⟦<SourceTables as Tables<NumberedRows>>⟧.names t.tables, t.origins), t.accounts) };

    // a place is told by its number, so the rows are such that each has a place of its own, and a source by that of its origin, so each has one
    ghost is = { λ m n c. ⟦<SourceTables as Tables<NumberedRows>>⟧.is m.0.0 n ((m.0.1, rows_of c) ∷ []) × AreRows (rows_of c) × AreKnown m.0.1 (rows_of c) };

    ghost at = { λ t c. ⟦<SourceTables as Tables<NumberedRows>>⟧.at t.tables ((t.origins, rows_of c) ∷ []) × AreRows (rows_of c) × AreKnown t.origins (rows_of c) };

    fn depth(&self) -> usize {
        self.tables.depth()
    }

    fn mark(&mut self) -> Result<(), NoMemory> {
        self.tables.mark()?;
        Ok(())
    }

    fn unmark(&mut self) {
        self.tables.unmark();
    }

    fn reserve(&mut self, k: usize) -> Result<(), NoMemory> {
        self.tables.reserve(k)?;
        Ok(())
    }

    fn hold<L: StepBook>(&mut self, steps: &mut Steps<L>) {
        self.tables.hold(steps);
    }

    fn back<L: StepBook>(&mut self, steps: &mut Steps<L>) {
        self.tables.back(steps);
    }

    fn again<L: StepBook>(&mut self, steps: &mut Steps<L>) {
        self.tables.again(steps);
    }

    fn drop_oldest(&mut self) {
        self.tables.drop_oldest();
    }

    fn drop_ahead(&mut self) {
        self.tables.drop_ahead();
    }

    ghost is_at = { λ t c is. is };

    ghost at_is = { λ t c is. is };
}

// The tables in which nothing stands.
fn no_tables(alloc: Global, secret: Secret) -> SourceTables
    ensures at { ⟦<SourceTables as Tables<NumberedRows>>⟧.at result ((no_origins, []) ∷ []) }
    ensures count { ⟦<SourceTables as Tables<NumberedRows>>⟧.count result ≡ 0 }
    ensures kept { (⟦<SourceTables as Tables<NumberedRows>>⟧.others result).kept ≡ [] }
    ensures ahead { (⟦<SourceTables as Tables<NumberedRows>>⟧.others result).ahead ≡ [] }
{
    let names = Found::over(ByHash::new(alloc, secret), NoSummary, alloc);
    let rows = Found::over(ByNumber::new(alloc), NoSummary, alloc);
    let least = Least::new::<Balance>(alloc);
    let balances = Found::over(ByNumber::new(alloc), least, alloc);
    let tables = Three::new(names, rows, balances);
    tables
}

impl SIndex {
    /// The index in which no source is unspent, and no account has a number, hashed by the secret that everybody knows. It takes
    /// no memory.
    pub fn new(alloc: Global) -> SIndex
        ensures at { ⟦<SIndex as Tables<SourceRows>>⟧.at result [] }
        ensures count { ⟦<SIndex as Tables<SourceRows>>⟧.count result ≡ 0 }
        ensures kept { (⟦<SIndex as Tables<SourceRows>>⟧.others result).kept ≡ [] }
        ensures ahead { (⟦<SIndex as Tables<SourceRows>>⟧.others result).ahead ≡ [] }
        ensures accounts { accounts result ≡ [] }
    {
        SIndex::with_secret(alloc, Secret::known())
    }

    /// The same index, whose accounts, origins and sources are hashed by this secret.
    pub fn with_secret(alloc: Global, secret: Secret) -> SIndex
        ensures at { ⟦<SIndex as Tables<SourceRows>>⟧.at result [] }
        ensures count { ⟦<SIndex as Tables<SourceRows>>⟧.count result ≡ 0 }
        ensures kept { (⟦<SIndex as Tables<SourceRows>>⟧.others result).kept ≡ [] }
        ensures ahead { (⟦<SIndex as Tables<SourceRows>>⟧.others result).ahead ≡ [] }
        ensures accounts { accounts result ≡ [] }
    {
        SIndex {
            tables: no_tables(alloc, secret),
            origins: Origins::new(alloc, secret),
            accounts: Accounts::new(alloc, secret),
        }
    }

    /// How many accounts have a number: their numbers are those below it.
    pub fn account_count(&self) -> usize
        ensures count { result ≡ length (accounts self.now) }
        ensures apart { AreApart (accounts self.now) }
    {
        self.accounts.count()
    }

    /// The number of the account with this text of a condition, or `None` where it has none. It takes no memory.
    pub fn find(&self, cond: &[u8]) -> Option<usize>
        ensures { result ≡ number_of (accounts self.now) cond.now }
    {
        self.accounts.find(cond)
    }

    /// The text of the condition of the account, which has a number. It takes no memory.
    pub fn cond_text(&self, account: usize) -> &[u8]
        requires { account < length (accounts self.now) }
        ensures { slice_get (accounts self.now) account ≡ Some result.now }
    {
        self.accounts.text(account)
    }

    /// The number of the account with this condition, which gets the next number where it has none. Its text has at most
    /// 1,000 characters. No table changes.
    ///
    /// `NoMemory` where there is no memory for a new text; then all is as it was.
    pub fn account(&mut self, cond: &Cond) -> Result<usize, NoMemory>
        requires { length (cond_text cond.now) ≤ 1000 }
        ensures number { IfOk result (λ n. number_of (accounts self.new) (cond_text cond.now) ≡ Some n) }
        ensures accounts { OnOk result (accounts self.new ≡ with_text (accounts self.old) (cond_text cond.now)) }
        ensures refused { OnErr result (accounts self.new ≡ accounts self.old) }
        ensures now { ⟦<SIndex as Tables<SourceRows>>⟧.now self.new ≡ ⟦<SIndex as Tables<SourceRows>>⟧.now self.old }
        ensures count { ⟦<SIndex as Tables<SourceRows>>⟧.count self.new ≡ ⟦<SIndex as Tables<SourceRows>>⟧.count self.old }
        ensures others { ⟦<SIndex as Tables<SourceRows>>⟧.others self.new ≡ ⟦<SIndex as Tables<SourceRows>>⟧.others self.old }
        ensures at { (s : States) → ⟦<SIndex as Tables<SourceRows>>⟧.at self.old s → ⟦<SIndex as Tables<SourceRows>>⟧.at self.new s }
        ensures stays { (n : ⟦<SIndex as Tables<SourceRows>>⟧.Now) (s : States) → ⟦<SIndex as Tables<SourceRows>>⟧.is (⟦<SIndex as Tables<SourceRows>>⟧.names self.old) n s → ⟦<SIndex as Tables<SourceRows>>⟧.is (⟦<SIndex as Tables<SourceRows>>⟧.names self.new) n s }
    {
        let mut line: Line = ArrayVec::new();
        put_cond(cond, &mut line);
        self.accounts.add(line.as_slice())
    }

    /// The same for a condition in its spelling, which is not written anew.
    pub fn spelled_account(&mut self, cond: &SpelledCond) -> Result<usize, NoMemory>
        ensures number { IfOk result (λ n. number_of (accounts self.new) (cond_text cond.now) ≡ Some n) }
        ensures accounts { OnOk result (accounts self.new ≡ with_text (accounts self.old) (cond_text cond.now)) }
        ensures refused { OnErr result (accounts self.new ≡ accounts self.old) }
        ensures now { ⟦<SIndex as Tables<SourceRows>>⟧.now self.new ≡ ⟦<SIndex as Tables<SourceRows>>⟧.now self.old }
        ensures count { ⟦<SIndex as Tables<SourceRows>>⟧.count self.new ≡ ⟦<SIndex as Tables<SourceRows>>⟧.count self.old }
        ensures others { ⟦<SIndex as Tables<SourceRows>>⟧.others self.new ≡ ⟦<SIndex as Tables<SourceRows>>⟧.others self.old }
        ensures at { (s : States) → ⟦<SIndex as Tables<SourceRows>>⟧.at self.old s → ⟦<SIndex as Tables<SourceRows>>⟧.at self.new s }
        ensures stays { (n : ⟦<SIndex as Tables<SourceRows>>⟧.Now) (s : States) → ⟦<SIndex as Tables<SourceRows>>⟧.is (⟦<SIndex as Tables<SourceRows>>⟧.names self.old) n s → ⟦<SIndex as Tables<SourceRows>>⟧.is (⟦<SIndex as Tables<SourceRows>>⟧.names self.new) n s }
    {
        self.accounts.add(cond.as_text())
    }

    /// The number of the account whose condition this key signs, which gets the next number where it has none. No table changes, and no text is
    /// written where it was asked for before.
    ///
    /// `NoMemory` where there is no memory for a new text; then all is as it was.
    pub fn signed_account(&mut self, key: &Key) -> Result<usize, NoMemory>
        ensures number { IfOk result (λ n. number_of (accounts self.new) (signed_text key.now) ≡ Some n) }
        ensures accounts { OnOk result (accounts self.new ≡ with_text (accounts self.old) (signed_text key.now)) }
        ensures refused { OnErr result (accounts self.new ≡ accounts self.old) }
        ensures now { ⟦<SIndex as Tables<SourceRows>>⟧.now self.new ≡ ⟦<SIndex as Tables<SourceRows>>⟧.now self.old }
        ensures count { ⟦<SIndex as Tables<SourceRows>>⟧.count self.new ≡ ⟦<SIndex as Tables<SourceRows>>⟧.count self.old }
        ensures others { ⟦<SIndex as Tables<SourceRows>>⟧.others self.new ≡ ⟦<SIndex as Tables<SourceRows>>⟧.others self.old }
        ensures at { (s : States) → ⟦<SIndex as Tables<SourceRows>>⟧.at self.old s → ⟦<SIndex as Tables<SourceRows>>⟧.at self.new s }
        ensures stays { (n : ⟦<SIndex as Tables<SourceRows>>⟧.Now) (s : States) → ⟦<SIndex as Tables<SourceRows>>⟧.is (⟦<SIndex as Tables<SourceRows>>⟧.names self.old) n s → ⟦<SIndex as Tables<SourceRows>>⟧.is (⟦<SIndex as Tables<SourceRows>>⟧.names self.new) n s }
    {
        self.accounts.add_signed(key)
    }
}
