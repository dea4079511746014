ghost use Rattle.std.specs.Prelude.{◌≡◌, ◌↔◌, ◌+◌, ◌≤◌, ◌<◌, ◌∷◌, [], IsTrue, IfOk, IfErr, IsOk, OnOk, OnErr, MatchOption, None, Some, drop, length, min, option_map, position, reverse, slice_get, take};
ghost use Rattle.std.specs.List.{AllByRecursion};
ghost use Rattle.dubp_atoms.specs.Same.{same_stamp};
ghost use Rattle.dubp_atoms.specs.Hashing.{hash_of};
ghost use Rattle.dubp_block.specs.Text.{IsBlock, block_text, inner_text, stamp_of};
ghost use Rattle.dubp_chain.specs.Chains.{block_of_number};
ghost use Rattle.dubp_chain.specs.HeadStamp.{head_stamp};
ghost use Rattle.dubp_chain.specs.Heads.{head_of};
ghost use Rattle.dubp_rules.specs.First.{IsFirst};
ghost use Rattle.dubp_rules.specs.declared.rule.Rule.TheVariants.{X01, P01};
ghost use Rattle.dubp_people_and_money.specs.OfValidity.{FirstBad, FirstBroken, Holds, IsSound, longest_block, records_at};
ghost use Rattle.dubp_people_and_money.specs.OfKept.{all_hashes, local_rules};
ghost use Rattle.dubp_people_and_money.specs.OfKept.{AreStates, IsAsBefore, IsAsHeld, IsHeldBy, IsKnown, MayJoin, last_steps, most_kept, most_steps, steps_of_last, steps_of_out, without_last};
ghost use Rattle.dubp_validity.specs.LocalRules.{InnerHashIsRight};
ghost use Rattle.dubp_ledger.specs.States.{Accepted, HandedBack, IsDifficulty, IsTooDeep};
ghost use Rattle.dubp_ledger.specs.Traces.{IsShort};
ghost use Rattle.dubp_ledger.specs.Written.{IsWrittenAt};

use crate::refusal::{SubmitRefusal, TooDeep};
use crate::traces::Traces;
use crate::written::WrittenBlock;
use dubp_atoms::{Hash, Key, NoMemory, Secret, Stamp, Steps};
use dubp_block::{Block, inner_hash_of};
use dubp_chain::Head;
use dubp_docs::TxHashes;
use dubp_head::{Heads, difficulty};
use dubp_params::Params;
use dubp_people_and_money::{
    Held, Judgement, Kept, LendsPeopleAndMoney, PeopleAndMoney, check_local_read, judge, trial,
};
use dubp_rules::Rule;
use dubp_validity::Record;
use dubp_verdict::Verdicts;
use std::alloc::Global;
use std::marker::Model;
use std::sync::ledger::Ledger as StepBook;

/// The chain of accepted blocks, with its heads, the tables of its people and its money, and what each block left behind.
///
/// Contracts see a record with the chain, newest block first, and how many of its blocks can be reversed.
#[derive(Drop)]
pub struct Ledger<T: PeopleAndMoney> {
    alloc: Global,
    kept: Kept<T>,
    traces: Traces,
}

impl<T: PeopleAndMoney> Model for Ledger<T> {
    ghost use Rattle.dubp_people_and_money.specs.OfKept.{KeptChain};
    ghost use Rattle.dubp_ledger.specs.Traces.{AreTraces};

    ghost Value = { KeptChain };

    ghost use Rattle.std.specs.Coded.{codes};
    ghost use Rattle.dubp_block.specs.contracts.block.Block as block;

    ghost coded = { Prim.hlevel (codes, block.the_row.coded) };

    ghost view = { λ l. l.kept };

    ghost invariant = { λ l. AreTraces l.traces l.kept };
}

impl<T: PeopleAndMoney> Ledger<T> {
    /// The ledger of the empty chain. It takes no memory.
    pub fn new(alloc: Global) -> Ledger<T>
        ensures chain { result.chain ≡ [] }
        ensures kept { result.kept ≡ 0 }
        ensures out { result.out ≡ None }
    {
        Ledger::with_secret(alloc, Secret::known())
    }

    /// The ledger of the empty chain. What strangers choose is hashed by the secret. It takes no memory.
    pub fn with_secret(alloc: Global, secret: Secret) -> Ledger<T>
        ensures chain { result.chain ≡ [] }
        ensures kept { result.kept ≡ 0 }
        ensures out { result.out ≡ None }
    {
        Ledger {
            alloc,
            kept: Kept::new(alloc, T::empty(alloc, secret)),
            traces: Traces::new(alloc),
        }
    }

    /// Where its memory is from.
    pub(crate) fn alloc(&self) -> Global {
        self.alloc
    }

    /// The heads of the chain.
    pub(crate) fn heads(&self) -> &Heads
        ensures { IsKnown self.now.chain result.now }
    {
        self.kept.heads()
    }

    /// How many blocks can be reversed: at most 100. It takes no memory.
    pub fn kept(&self) -> usize
        ensures { result ≡ self.now.kept }
    {
        self.kept.kept()
    }

    /// The head of the chain. None exactly where the chain is empty. It takes no memory.
    pub fn head(&self) -> Option<Head>
        ensures { result ≡ head_of self.now.chain }
    {
        self.kept.heads().last().copied()
    }

    /// How many blocks the chain has. It takes no memory.
    pub fn len(&self) -> usize
        ensures { result ≡ length self.now.chain }
    {
        self.kept.heads();
        self.kept.blocks().len()
    }

    /// The stamp of the block behind which so many stand. None exactly where the chain has not so many. It takes no memory.
    pub fn stamp_before(&self, count: u64) -> Option<Stamp>
        ensures { result ≡ option_map stamp_of (slice_get self.now.chain count) }
    {
        stamp_in(self.kept.heads(), count)
    }

    /// How many blocks of the chain stand behind that of this stamp. None exactly where no block has it. It takes no memory.
    pub fn place_of(&self, stamp: &Stamp) -> Option<usize>
        ensures { result ≡ position (λ b. same_stamp stamp.now (stamp_of b)) self.now.chain }
    {
        self.laws();
        let len = self.len() as u64;
        if stamp.number >= len {
            return None;
        }
        let count = len - 1 - stamp.number;
        if is_stamp(self.stamp_before(count), stamp) {
            Some(count as usize)
        } else {
            None
        }
    }

    /// The block of this number. None exactly where the chain has none. It takes no memory.
    pub fn block_at(&self, number: u64) -> Option<&Block>
        ensures { MatchOption result (block_of_number self.now.chain number ≡ None) (λ b. IsBlock b.now × (block_of_number self.now.chain number ≡ Some b.now)) }
    {
        self.kept.heads();
        self.kept.blocks().get(number as usize)
    }

    /// The difficulty of the key for the next block. None exactly where the key is no member of the chain. It takes no memory.
    pub fn difficulty(&self, key: Key) -> Result<Option<u128>, NoMemory>
        ensures value { IfOk result (IsDifficulty self.now.chain key) }
        ensures always { IsOk result }
    {
        self.laws();
        let Some(first) = self.tables().first() else {
            return Ok(None);
        };
        if !self.tables().is_member(key) {
            return Ok(None);
        }
        let found = difficulty(self.kept.heads(), &first.params, key)?;
        Ok(Some(found))
    }

    /// The tables of the chain, which queries are asked of. It takes no memory.
    pub fn tables(&self) -> &T
        ensures { T.at result.now self.now.chain }
    {
        self.kept.tables()
    }

    /// The block of this number, with its head and what it left behind. None exactly where the chain has none. It takes no memory.
    pub fn written_at(&self, number: u64) -> Option<WrittenBlock<'_>>
        ensures { MatchOption result (length self.now.chain ≤ number) (λ w. IsWrittenAt self.now.chain number w.block.now w.head.now w.left.now) }
    {
        let len = self.len() as u64;
        if number >= len {
            return None;
        }
        self.written_before(number, len - 1 - number)
    }

    // The same, where so many blocks stand behind that block.
    fn written_before(&self, number: u64, count: u64) -> Option<WrittenBlock<'_>>
        requires { number + (count + 1) ≡ length self.now.chain }
        ensures { MatchOption result ⊥ (λ w. IsWrittenAt self.now.chain number w.block.now w.head.now w.left.now) }
    {
        let Some(block) = self.block_at(number) else {
            return None;
        };
        let Some(head) = self.kept.heads().before(count) else {
            return None;
        };
        let Some(left) = self.traces.before(count as usize) else {
            return None;
        };
        Some(WrittenBlock { block, head, left })
    }

    /// The records of the block of this number, in the order of the protocol. None exactly where the chain has no such block.
    ///
    /// `NoMemory` where there is no room for them.
    pub fn rows_at(&self, number: u64) -> Result<Option<Vec<Record>>, NoMemory>
        ensures { IfOk result (λ rows. option_map (λ r. r.items) rows ≡ records_at self.now.chain number) }
    {
        self.laws();
        let Some(written) = self.written_at(number) else {
            return Ok(None);
        };
        let mut rows = Vec::new(self.alloc);
        self.tables().put_records(
            self.alloc,
            written.block,
            written.head,
            written.left,
            &mut rows,
        )?;
        Ok(Some(rows))
    }

    /// The first of the rules before `G51` that the block, whose inner hash is at hand, breaks: those that look at the block, the parameters
    /// of the chain and the verdicts.
    ///
    /// `NoMemory` where there is no room to look for what stands twice, or for the hashes of the transactions.
    pub fn first_local(
        &self,
        block: &Block,
        inner: &Hash,
        verdicts: &Verdicts,
    ) -> Result<Option<Rule>, NoMemory>
        requires text { IsBlock block.now }
        requires inner { inner.now ≡ hash_of (inner_text block.now) }
        ensures { IfOk result (IsFirst (Holds verdicts.now self.now.chain block.now) (X01 ∷ P01 ∷ local_rules)) }
    {
        self.kept.heads();
        match self.tables().first() {
            Some(first) => {
                let params = Some(&first.params);
                let found = check_local_read(self.alloc, block, inner, verdicts, params)?;
                Ok(found)
            }
            None => {
                let found = check_local_read(self.alloc, block, inner, verdicts, None)?;
                Ok(found)
            }
        }
    }

    /// The first rule other than `L05` and `G62`, the two that a block keeps once it is signed, that the block breaks on the chain; None where
    /// it breaks none. Its text has at most 1,048,576 bytes. Nothing moves.
    ///
    /// `NoMemory` where there is no memory to check the block.
    pub fn trial(&self, block: &Block, verdicts: &Verdicts) -> Result<Option<Rule>, NoMemory>
        requires text { IsBlock block.now }
        requires short { length (block_text block.now) ≤ longest_block }
        ensures { IfOk result (FirstBad verdicts.now self.now.chain block.now) }
    {
        let inner = inner_hash_of(block);
        trial(self.alloc, &self.kept, block, &inner, verdicts)
    }

    /// The same of a block whose InnerHash is right, as that of a filled draft is.
    pub fn trial_hashed(&self, block: &Block, verdicts: &Verdicts) -> Result<Option<Rule>, NoMemory>
        requires text { IsBlock block.now }
        requires inner { InnerHashIsRight block.now }
        requires short { length (block_text block.now) ≤ longest_block }
        ensures { IfOk result (FirstBad verdicts.now self.now.chain block.now) }
    {
        trial(self.alloc, &self.kept, block, &block.inner_hash, verdicts)
    }

    /// Does nothing. Its clauses say that each block of the chain is one in range, whose text is no longer than blocks are read, and breaks no
    /// rule on those before it but such as read verdicts; and how many can be reversed where none is held.
    pub fn laws(&self)
        ensures sound { IsSound self.now.chain }
        ensures blocks { AllByRecursion IsBlock self.now.chain }
        ensures short { AllByRecursion IsShort self.now.chain }
        ensures few { self.now.out ≡ None → self.now.kept ≤ 100 }
    {
        self.kept.laws();
        let _heads = self.kept.heads();
    }

    /// Accepts the block, whose text has at most 1,048,576 bytes, exactly where it breaks no rule on the chain; else names the first rule of
    /// the table that it breaks.
    ///
    /// On each refusal the block is handed back and the ledger is as before. `NoMemory` where there is no memory to check the block
    /// or to keep it. An accepted block adds at most eight steps for each of its records and sixteen.
    pub fn submit<L: StepBook>(
        &mut self,
        block: Block,
        verdicts: &Verdicts,
        steps: &mut Steps<L>,
    ) -> Result<Stamp, SubmitRefusal>
        requires text { IsBlock block }
        requires short { length (block_text block) ≤ longest_block }
        ensures accepted { IfOk result (λ stamp. Accepted verdicts.now self.old block stamp self.new) }
        ensures refused { IfErr result (λ refusal. HandedBack verdicts.now self.old block refusal self.new) }
        ensures steps { OnOk result (steps.new ≤ steps.old + most_steps self.old.chain block) }
    {
        let inner = inner_hash_of(&block);
        self.submit_read(block, &inner, verdicts, steps)
    }

    /// The same of a block whose inner hash is at hand, as it is where the block was just read.
    pub fn submit_read<L: StepBook>(
        &mut self,
        block: Block,
        inner: &Hash,
        verdicts: &Verdicts,
        steps: &mut Steps<L>,
    ) -> Result<Stamp, SubmitRefusal>
        requires text { IsBlock block }
        requires short { length (block_text block) ≤ longest_block }
        requires inner { inner.now ≡ hash_of (inner_text block) }
        ensures accepted { IfOk result (λ stamp. Accepted verdicts.now self.old block stamp self.new) }
        ensures refused { IfErr result (λ refusal. HandedBack verdicts.now self.old block refusal self.new) }
        ensures steps { OnOk result (steps.new ≤ steps.old + most_steps self.old.chain block) }
    {
        match judge(self.alloc, &self.kept, &block, inner, verdicts) {
            Ok(Judgement::Breaks(rule)) => Err(SubmitRefusal::Refused { rule, block }),
            Ok(Judgement::Keeps(head, params, hashes)) => {
                self.join(block, head, &params, hashes.as_slice(), verdicts, steps)
            }
            Err(NoMemory) => Err(SubmitRefusal::NoMemory { block }),
        }
    }

    // The block, which breaks no rule, joins the chain.
    fn join<L: StepBook>(
        &mut self,
        block: Block,
        head: Head,
        params: &Params,
        hashes: &[TxHashes],
        verdicts: &Verdicts,
        steps: &mut Steps<L>,
    ) -> Result<Stamp, SubmitRefusal>
        requires joins { MayJoin self.old.chain block head params.now }
        requires keeps { FirstBroken verdicts.now self.old.chain block None }
        requires hashes { hashes.now ≡ all_hashes block }
        requires short { IsShort block }
        ensures accepted { IfOk result (λ stamp. Accepted verdicts.now self.old block stamp self.new) }
        ensures refused { IfErr result (λ refusal. HandedBack verdicts.now self.old block refusal self.new) }
        ensures steps { OnOk result (steps.new ≤ steps.old + most_steps self.old.chain block) }
    {
        let stamp = head.stamp();
        if let Err(NoMemory) = self.traces.reserve() {
            return Err(SubmitRefusal::NoMemory { block });
        }
        match self.kept.add(block, head, params, hashes, steps) {
            Ok(left) => {
                self.traces.push(left);
                Ok(stamp)
            }
            Err(block) => Err(SubmitRefusal::NoMemory { block }),
        }
    }

    /// Takes the last block off the chain and hands it out. One can be reversed. It takes no memory, and at most the steps that the block
    /// may add.
    pub fn withdraw<L: StepBook>(&mut self, steps: &mut Steps<L>) -> Block
        requires { 0 < self.old.kept }
        ensures chain { self.old.chain ≡ result ∷ self.new.chain }
        ensures kept { self.old.kept ≡ self.new.kept + 1 }
        ensures out { self.new.out ≡ self.old.out }
        ensures steps { steps.new ≤ steps.old + last_steps self.old.chain }
    {
        self.traces.take_off(1);
        self.kept.withdraw(steps)
    }

    /// Takes the last `count` blocks off the chain, with at most the steps that they may add. `TooDeep` exactly where fewer can be reversed;
    /// then the ledger is as before. It takes no memory.
    pub fn revert<L: StepBook>(&mut self, count: u64, steps: &mut Steps<L>) -> Result<(), TooDeep>
        ensures reverted { OnOk result ((count ≤ self.old.kept) × (self.new ≡ without_last count self.old)) }
        ensures refused { IfErr result (λ refusal. IsTooDeep self.old count refusal self.new) }
        ensures steps { OnOk result (steps.new ≤ steps.old + steps_of_last count self.old.chain) }
        ensures no_step { OnErr result (steps.new ≡ steps.old) }
    {
        let kept = self.kept();
        if count > kept as u64 {
            return Err(TooDeep { kept });
        }
        self.traces.take_off(count as usize);
        self.kept.take_off(count, steps);
        Ok(())
    }

    /// Takes the last `count` blocks off and holds them. So many can be reversed, and none is held. What was before can be put back by
    /// `restore`, and is given up by `settle`; until then no accepted block makes one that can be reversed cease to be so.
    /// At most the steps that they may add.
    ///
    /// `NoMemory` where there is no room for them; then all is as before.
    pub fn hold<L: StepBook>(
        &mut self,
        count: usize,
        steps: &mut Steps<L>,
    ) -> Result<Held, NoMemory>
        requires alone { self.old.out ≡ None }
        requires few { count ≤ self.old.kept }
        ensures held { IfOk result (λ held. held ≡ take count self.old.chain) }
        ensures chain { OnOk result (self.new.chain ≡ drop count self.old.chain) }
        ensures kept { OnOk result (self.new.kept + count ≡ self.old.kept) }
        ensures out { OnOk result (self.new.out ≡ Some (record { chain = self.old.chain; kept = self.old.kept; taken = count })) }
        ensures refused { OnErr result (self.new ≡ self.old) }
        ensures steps { OnOk result (steps.new ≤ steps.old + steps_of_last count self.old.chain) }
        ensures no_step { OnErr result (steps.new ≡ steps.old) }
    {
        self.traces.ready(count)?;
        let held = self.kept.hold(count, steps)?;
        self.traces.hold(count);
        Ok(held)
    }

    /// Gives up what was before these blocks were held, and hands them out in ascending number. The chain stays, and of its last hundred
    /// blocks those that could be reversed still can. It takes no memory.
    pub fn settle(&mut self, held: Held) -> Vec<Block>
        requires { IsHeldBy held self.old.out }
        ensures blocks { result.items ≡ reverse held }
        ensures chain { self.new.chain ≡ self.old.chain }
        ensures kept { self.new.kept ≡ min self.old.kept most_kept }
        ensures out { self.new.out ≡ None }
    {
        self.traces.drop_held();
        self.kept.settle(held)
    }

    /// Puts these blocks back, which are held. The chain is as right after they were taken off; then all is as before that. It takes no
    /// memory, and at most the steps that they may add.
    pub fn restore<L: StepBook>(&mut self, held: Held, steps: &mut Steps<L>)
        requires held { IsHeldBy held self.old.out }
        requires chain { IsAsHeld self.old.chain self.old.out }
        ensures restored { IsAsBefore self.new self.old.out }
        ensures steps { steps.new ≤ steps.old + steps_of_out self.old.out }
    {
        self.traces.put_back();
        self.kept.restore(held, steps);
    }
}

impl<T: LendsPeopleAndMoney> Ledger<T> {
    /// The people of the chain, with their states before each block that can be reversed, and those of the blocks that are held. It takes no
    /// memory.
    pub fn people(&self) -> &T::People
        ensures at { T.People.at result.now self.now.chain }
        ensures states { AreStates (T.People.is (T.People.names result.now)) (T.People.now result.now) (T.People.count result.now) (T.People.others result.now) self.now }
    {
        self.kept.tables().people()
    }

    /// The money of the chain, with its states before each block that can be reversed, and those of the blocks that are held. It takes no
    /// memory.
    pub fn money(&self) -> &T::Money
        ensures at { T.Money.at result.now self.now.chain }
        ensures states { AreStates (T.Money.is (T.Money.names result.now)) (T.Money.now result.now) (T.Money.count result.now) (T.Money.others result.now) self.now }
    {
        self.kept.tables().money()
    }
}

// Whether there is one and it is this.
fn is_stamp(found: Option<Stamp>, stamp: &Stamp) -> bool
    ensures { IsTrue result ↔ (found ≡ Some stamp.now) }
{
    match found {
        Some(found) => found == *stamp,
        None => false,
    }
}

// The stamp of the head that stands so many before the last.
fn stamp_in(heads: &Heads, count: u64) -> Option<Stamp>
    ensures { result ≡ option_map head_stamp (slice_get heads.now.list count) }
{
    match heads.before(count) {
        Some(head) => Some(head.stamp()),
        None => None,
    }
}
