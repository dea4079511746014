ghost use Rattle.std.specs.Prelude.{◌≡◌, ◌↔◌, IsTrue, ℕ, ◌≤◌, ◌+◌, List, [], ◌∷◌, IsOk, OnOk, OnErr, option_map};
ghost use Rattle.dubp_undo.specs.MovingTable.{get, IsPlaced};
ghost use Rattle.dubp_validity.specs.OfBlock.{Block as BlockValue};
ghost use Rattle.dubp_validity.specs.OfChain.{Chain};
ghost use Rattle.dubp_validity.specs.OfChain.{made, certification_made, certification_stamp};
ghost use Rattle.dubp_validity.specs.Rules.{IsSound};
ghost use Rattle.dubp_facts.specs.Facts.{one, first_after, first_at, time_at, time_of_stamp, IsNext};
ghost use Rattle.dubp_facts.specs.declared.facts.BlockTime.{BlockTime as BlockTimeValue};
ghost use Rattle.dubp_atoms.specs.Same.{empty_stamp};

use dubp_atoms::{Currency, Hash, NoMemory, Stamp, Steps};
use dubp_finders::ByNumber;
use dubp_undo::{Both, Definition, Found, Leaf, NoSummary, Tables};
use dubp_validity::{Block, CertLine, Head, Params};
use std::alloc::Global;
use std::sync::ledger::Ledger as StepBook;

/// The parameters and the currency of a chain, which its first block sets.
#[derive(Clone, Copy, Debug, PartialEq, Eq)]
pub struct First {
    pub params: Params,
    pub currency: Currency,
}

/// The hash of a block and its median time, in seconds.
#[derive(Clone, Copy, Debug, PartialEq, Eq)]
pub struct BlockTime {
    pub hash: Hash,
    pub time: u64,
}

/// The parameters and the currency of each chain.
pub struct FirstOf;

impl Definition<Block, (), First> for FirstOf {
    ghost at = { first_at };
}

/// The hashes and times of the blocks of each chain, by number.
pub struct TimesOf;

impl Definition<Block, usize, BlockTime> for TimesOf {
    ghost at = { time_at };
}

type FirstTable = Leaf<Block, (), First, FirstOf>;

type TimeTable = Found<Block, usize, BlockTime, TimesOf, ByNumber, NoSummary>;

type FirstAndTimes = Both<Block, FirstTable, TimeTable>;

/// The parameters and the currency of a chain, and the hashes and median times of its blocks by number.
#[derive(Drop)]
pub struct Facts {
    tables: FirstAndTimes,
}

impl Tables<Block> for Facts {
    ghost Now = { ⟦<FirstAndTimes as Tables<Block>>⟧.Now };

    ghost Names = { ⟦<FirstAndTimes as Tables<Block>>⟧.Names };

    ghost now = { λ t. ⟦<FirstAndTimes as Tables<Block>>⟧.now t.tables };

    ghost count = { λ t. ⟦<FirstAndTimes as Tables<Block>>⟧.count t.tables };

    ghost others = { λ t. ⟦<FirstAndTimes as Tables<Block>>⟧.others t.tables };

    ghost spare = { λ t. ⟦<FirstAndTimes as Tables<Block>>⟧.spare t.tables };

    ghost names = { λ t. ⟦<FirstAndTimes as Tables<Block>>⟧.names t.tables };

    ghost is = { ⟦<FirstAndTimes as Tables<Block>>⟧.is };

    ghost at = { λ t c. ⟦<FirstAndTimes as Tables<Block>>⟧.at t.tables c };

    fn depth(&self) -> usize {
        self.tables.depth()
    }

    fn mark(&mut self) -> Result<(), NoMemory> {
        self.tables.mark()?;
        Ok(())
    }

    fn unmark(&mut self) {
        self.tables.unmark();
    }

    fn reserve(&mut self, k: usize) -> Result<(), NoMemory> {
        self.tables.reserve(k)?;
        Ok(())
    }

    fn hold<L: StepBook>(&mut self, steps: &mut Steps<L>) {
        self.tables.hold(steps);
    }

    fn back<L: StepBook>(&mut self, steps: &mut Steps<L>) {
        self.tables.back(steps);
    }

    fn again<L: StepBook>(&mut self, steps: &mut Steps<L>) {
        self.tables.again(steps);
    }

    fn drop_oldest(&mut self) {
        self.tables.drop_oldest();
    }

    fn drop_ahead(&mut self) {
        self.tables.drop_ahead();
    }

    ghost is_at = { λ t c is. is };

    ghost at_is = { λ t c is. is };
}

impl Facts {
    /// Those of the empty chain. It takes no memory.
    pub fn new(alloc: Global) -> Facts
        ensures at { ⟦<Facts as Tables<Block>>⟧.at result [] }
        ensures count { ⟦<Facts as Tables<Block>>⟧.count result ≡ 0 }
        ensures kept { (⟦<Facts as Tables<Block>>⟧.others result).kept ≡ [] }
        ensures ahead { (⟦<Facts as Tables<Block>>⟧.others result).ahead ≡ [] }
    {
        Facts {
            tables: Both::new(
                Leaf::new(alloc),
                Found::over(ByNumber::new(alloc), NoSummary, alloc),
            ),
        }
    }

    /// The parameters and the currency, or None where the chain is empty.
    pub fn first(&self) -> Option<First>
        ensures { (c : Chain) → ⟦<Facts as Tables<Block>>⟧.at self.now c → result ≡ first_at c tt }
    {
        self.tables.first.get(())
    }

    /// The hash and the median time of the block of this number, or None where the chain has none.
    pub fn time_of(&self, number: u64) -> Option<BlockTime>
        ensures { (c : Chain) → ⟦<Facts as Tables<Block>>⟧.at self.now c → result ≡ time_at c number }
    {
        self.tables.second.get(number as usize)
    }

    /// When what the stamp dates was made, in seconds: the median time of the block that it names. On the empty chain that is the
    /// MedianTime of the block that stands to be written, for the stamp of the empty text. None where there is no such block.
    pub fn made(&self, block: &Block, stamp: &Stamp) -> Option<u64>
        ensures { (c : Chain) → ⟦<Facts as Tables<Block>>⟧.at self.now c → IsSound c → result ≡ made c block.now stamp.now }
    {
        match self.first() {
            None => made_first(block, stamp),
            Some(_) => time_of_hash(self.time_of(stamp.number), stamp),
        }
    }

    /// When the certification was made, in seconds: the median time of the block of its number; on the empty chain the MedianTime of
    /// the block that it stands in. None where the chain has no such block.
    pub fn certification_made(&self, block: &Block, line: &CertLine) -> Option<u64>
        ensures { (c : Chain) → ⟦<Facts as Tables<Block>>⟧.at self.now c → result ≡ certification_made c block.now line.now }
    {
        match self.first() {
            None => Some(block.median_time),
            Some(_) => time_in(self.time_of(line.number)),
        }
    }

    /// Writes the block behind the chain, whose head this is: at most two writes. What is kept stays so.
    ///
    /// `NoMemory` where there is no room for them; all is as before then.
    pub fn write<L: StepBook>(
        &mut self,
        block: &Block,
        head: &Head,
        steps: &mut Steps<L>,
    ) -> Result<(), NoMemory>
        ensures at { OnOk result ((c : Chain) → ⟦<Facts as Tables<Block>>⟧.at self.old c → IsNext c block.now head.now → ⟦<Facts as Tables<Block>>⟧.at self.new (block.now ∷ c)) }
        ensures others { ⟦<Facts as Tables<Block>>⟧.others self.new ≡ ⟦<Facts as Tables<Block>>⟧.others self.old }
        ensures count { ⟦<Facts as Tables<Block>>⟧.count self.new + steps.old ≤ ⟦<Facts as Tables<Block>>⟧.count self.old + steps.new }
        ensures steps { OnOk result (steps.new ≤ steps.old + 2) }
        ensures refused { OnErr result (⟦<Facts as Tables<Block>>⟧.now self.new ≡ ⟦<Facts as Tables<Block>>⟧.now self.old) }
        ensures no_step { OnErr result (steps.new ≡ steps.old) }
    {
        self.tables.first.ready((), 1)?;
        self.tables.second.ready(head.number as usize, 1)?;
        write_first(&mut self.tables.first, block, steps)?;
        let time = BlockTime {
            hash: head.hash,
            time: head.median_time,
        };
        self.tables
            .second
            .set(head.number as usize, Some(time), steps)?;
        Ok(())
    }
}

/// A block that has parameters sets them and the currency.
fn write_first<L: StepBook>(
    first: &mut FirstTable,
    block: &Block,
    steps: &mut Steps<L>,
) -> Result<(), NoMemory>
    ensures now { OnOk result ((k : Unit {0}) → get one (⟦<FirstTable as Tables<Block>>⟧.now first.new) k ≡ first_after block.now (get one (⟦<FirstTable as Tables<Block>>⟧.now first.old) k)) }
    ensures others { ⟦<FirstTable as Tables<Block>>⟧.others first.new ≡ ⟦<FirstTable as Tables<Block>>⟧.others first.old }
    ensures count { ⟦<FirstTable as Tables<Block>>⟧.count first.new + steps.old ≤ ⟦<FirstTable as Tables<Block>>⟧.count first.old + steps.new }
    ensures steps { OnOk result (steps.new ≤ steps.old + 1) }
    ensures refused { OnErr result (⟦<FirstTable as Tables<Block>>⟧.now first.new ≡ ⟦<FirstTable as Tables<Block>>⟧.now first.old) }
    ensures no_step { OnErr result (steps.new ≡ steps.old) }
    ensures succeeds { IsPlaced one tt first.old.table.placed → 1 ≤ first.old.table.room → IsOk result }
{
    match &block.params {
        Some(params) => {
            let set = First {
                params: *params.get(),
                currency: block.currency,
            };
            first.set((), Some(set), steps)?;
            Ok(())
        }
        None => Ok(()),
    }
}

/// When what a block on the empty chain names by this stamp was made.
fn made_first(block: &Block, stamp: &Stamp) -> Option<u64>
    ensures { result ≡ made [] block.now stamp.now }
{
    if is_empty_stamp(stamp) {
        Some(block.median_time)
    } else {
        None
    }
}

/// The SHA-256 of the empty text.
const EMPTY_HASH: &[u8; 64] = b"E3B0C44298FC1C149AFBF4C8996FB92427AE41E4649B934CA495991B7852B855";

fn is_empty_stamp(stamp: &Stamp) -> bool
    ensures { IsTrue result ↔ (stamp.now ≡ empty_stamp) }
{
    stamp.number == 0 && stamp.hash.as_bytes() == EMPTY_HASH.as_slice()
}

/// The time of the block, where its hash is that of the stamp.
fn time_of_hash(at: Option<BlockTime>, stamp: &Stamp) -> Option<u64>
    ensures { result ≡ time_of_stamp stamp.now at }
{
    match at {
        Some(at) if at.hash == stamp.hash => Some(at.time),
        _ => None,
    }
}

/// The time of the block.
fn time_in(at: Option<BlockTime>) -> Option<u64>
    ensures { result ≡ option_map (λ (t : BlockTimeValue). t.time) at }
{
    match at {
        Some(at) => Some(at.time),
        None => None,
    }
}
