ghost use Rattle.std.specs.Prelude.{◌≡◌, ◌↔◌, IsTrue, length, ◌≤◌, ◌<◌, ℕ, List, [], ◌∷◌, None, Some, OnOk, OnErr, slice_get};
ghost use Rattle.std.specs.List.{list_any};
ghost use Rattle.dubp_atoms.specs.Spelling.{IsNumber};
ghost use Rattle.dubp_turns.specs.BranchActs.{BranchesActs};
ghost use Rattle.dubp_turns.specs.Told.{told_text};
ghost use Rattle.dubp_turns.specs.TakenOver.{HasNoBlock};
ghost use Rattle.dubp_atoms.specs.Hashing.{hash_of};
ghost use Rattle.dubp_block.specs.Text.{IsBlock, block_text, inner_text, stamp_of as block_stamp};
ghost use Rattle.dubp_block.specs.declared.block.Block.{Block as BlockValue};
ghost use Rattle.dubp_validity.specs.LocalRules.{InnerHashIsRight};
ghost use Rattle.dubp_validity.specs.Rules.{IsSound, IsValid, longest_block};
ghost use Rattle.dubp_verdict.specs.Verdicts.{verdict_of, with_verdict};
ghost use Rattle.dubp_turns.specs.Deciding.{ShortBlockActs, Decided, IsDecided, TakesTurn};
ghost use Rattle.dubp_forks.specs.Offers.{Offered};
ghost use Rattle.dubp_forks.specs.Stores.{AreStored};
ghost use Rattle.dubp_forks.specs.Switches.{Switched};
ghost use Rattle.dubp_replay.specs.OneLine.{IsShort, query_of};
ghost use Rattle.dubp_replay.specs.Turns.{is_stamped, no_branches, previous_stamp, without};
ghost use Rattle.dubp_replay.specs.declared.command.Command.TheVariants.{Ask as AskCommand, Block as BlockCommand, Forget as ForgetCommand, Revert as RevertCommand, Statement as StatementCommand, Switch as SwitchCommand, Verdict as VerdictCommand};

use crate::stating::{
    put_accepted, put_forgotten, put_no_memory, put_noted, put_refusal, put_refused, put_reverted,
    put_switch, put_too_deep, put_unknown, put_unread,
};
use crate::told::{Told, tell};
use dubp_atoms::{Hash, Key, Line, NoMemory, Secret, Sig, Stamp, Steps};
use dubp_block::laws::blocks_have_one_text;
use dubp_block::{Block, HashedBlock, ReadRefusal, read_hashed_block};
use dubp_forks::{
    Ledger, OfferRefusal, PeopleAndMoney, Store, SubmitRefusal, SwitchRefusal, TooDeep,
};
use dubp_query::{Asked, CondText, Query, answer, put_answer, statement_answer};
use dubp_replay::LONGEST_BLOCK;
use dubp_verdict::Verdicts;
use std::alloc::Global;
use std::marker::Model;
use std::sync::ledger::Ledger as StepBook;

/// What blocks are judged by and stand in: the verdicts, the ledger, and the stored blocks of branches.
///
/// Contracts see the verdicts, the chain of accepted blocks, how many of them can be reversed, and the stored blocks of branches, none of
/// which is in the chain. Each block of the chain breaks no rule on those before it, with these verdicts.
#[derive(Drop)]
pub struct Branches<T: PeopleAndMoney> {
    alloc: Global,
    verdicts: Verdicts,
    ledger: Ledger<T>,
    store: Store,
}

impl<T: PeopleAndMoney> Model for Branches<T> {
    ghost use Rattle.dubp_replay.specs.Turns.{Branches as BranchesValue};

    ghost Value = { BranchesValue };

    ghost use Rattle.std.specs.Coded.{codes};
    ghost use Rattle.dubp_block.specs.contracts.block.Block as block;

    ghost coded = { Prim.hlevel (codes, block.the_row.coded) };

    ghost use Rattle.dubp_forks.specs.Stores.{AreOutside, state_of};

    ghost view = { λ n. state_of n.verdicts n.ledger n.store };

    ghost use Rattle.std.specs.Prelude.{◌≡◌, None};
    ghost use Rattle.dubp_validity.specs.Rules.{IsValid};

    ghost invariant = { λ n. (n.ledger.out ≡ None) × AreOutside n.store n.ledger.chain × IsValid n.verdicts n.ledger.chain };
}

impl<T: PeopleAndMoney> Branches<T> {
    /// The empty chain and no stored block, for what strangers choose: who does not know the secret makes none that are slower to
    /// keep than others. It takes no memory.
    pub fn with_secret(alloc: Global, secret: Secret) -> Branches<T>
        ensures { result ≡ no_branches }
    {
        Branches {
            alloc,
            verdicts: Verdicts::with_secret(alloc, secret),
            ledger: Ledger::with_secret(alloc, secret),
            store: Store::new(alloc, secret),
        }
    }

    /// The ledger. It takes no memory.
    pub fn ledger(&self) -> &Ledger<T>
        ensures chain { result.now.chain ≡ self.now.chain }
        ensures kept { result.now.kept ≡ self.now.kept }
        ensures out { result.now.out ≡ None }
    {
        &self.ledger
    }

    /// The verdicts that were given. It takes no memory.
    pub fn verdicts(&self) -> &Verdicts
        ensures { result.now ≡ self.now.verdicts }
    {
        &self.verdicts
    }

    /// Does nothing. Its clauses say what holds of the chain and of the stored blocks at any time.
    pub fn laws(&self)
        ensures valid { IsValid self.now.verdicts self.now.chain }
        ensures sound { IsSound self.now.chain }
        ensures kept { self.now.kept ≤ 100 }
        ensures stored { AreStored self.now.store }
    {
        self.ledger.laws();
        self.store.laws();
    }

    /// What is hashed by whatever strangers choose.
    pub fn secret(&self) -> Secret {
        self.store.secret()
    }

    /// Whether there is no block: none is in the chain, none can be reversed, and none is stored. It takes no memory.
    pub fn is_empty(&self) -> bool
        ensures { IsTrue result ↔ HasNoBlock self.now }
    {
        self.ledger.len() == 0 && self.ledger.kept() == 0 && self.store.held() == 0
    }

    /// How many blocks are stored: at most 1,024. It takes no memory.
    pub fn held(&self) -> usize
        ensures { result ≡ length self.now.store }
    {
        self.store.held()
    }

    /// Whether a stored block has this stamp. It takes no memory.
    pub fn has(&self, stamp: &Stamp) -> bool
        ensures { result ≡ list_any (is_stamped stamp.now) self.now.store }
    {
        self.store.has(stamp)
    }

    /// The stamp of the stored block at this place, counted from 0 in the order in which the blocks came, and that of the block before it,
    /// which block 0 has not. It takes no memory.
    pub fn entry(&self, place: usize) -> (Stamp, Option<Stamp>)
        requires { place < length self.now.store }
        ensures { (b : BlockValue) → slice_get self.now.store place ≡ Some b → (result.0 ≡ block_stamp b) × (result.1 ≡ previous_stamp b) }
    {
        self.store.entry(place)
    }

    /// Tells the answer to a query; nothing changes.
    pub fn ask(&self, query: &Query, line: &mut Line) -> Told
        requires { line.old.items ≡ [] }
        ensures { (frame : List ℕ) → BranchesActs self.now (AskCommand query.now) frame (told_text line.new.items result) self.now }
    {
        match answer(self.alloc, &self.ledger, query) {
            Ok(answer) => tell(answer, line),
            Err(_) => {
                put_no_memory(line);
                Told::InLine
            }
        }
    }

    /// Puts the answer to a query that is answered in one line into an empty line; nothing changes.
    pub fn tell(&self, asked: &Asked<'_>, line: &mut Line)
        requires short { IsShort asked.now }
        requires empty { line.old.items ≡ [] }
        ensures { (frame : List ℕ) → BranchesActs self.now (AskCommand (query_of asked.now)) frame line.new.items self.now }
    {
        match put_answer(self.alloc, &self.ledger, asked, line) {
            Ok(()) => {}
            Err(_) => put_no_memory(line),
        }
    }

    /// Tells the answer to STATEMENT: the moves of the condition of this text; nothing changes.
    pub fn statement(&self, cond: &CondText, line: &mut Line) -> Told
        requires { line.old.items ≡ [] }
        ensures { (frame : List ℕ) → BranchesActs self.now (StatementCommand cond.now) frame (told_text line.new.items result) self.now }
    {
        match statement_answer(self.alloc, &self.ledger, cond) {
            Ok(answer) => tell(answer, line),
            Err(_) => {
                put_no_memory(line);
                Told::InLine
            }
        }
    }

    /// The turn of VERDICT: the verdict joins those that were given; a repeat changes nothing.
    pub fn note(&mut self, key: Key, hash: Hash, sig: Sig, line: &mut Line)
        requires { line.old.items ≡ [] }
        ensures acts { (frame : List ℕ) → BranchesActs self.old (VerdictCommand key hash sig) frame line.new.items self.new }
        ensures store { self.new.store ≡ self.old.store }
    {
        match self.verdicts.add(key, hash, sig) {
            Ok(()) => put_noted(line),
            Err(_) => put_no_memory(line),
        }
    }

    /// The turn of REVERT: the last blocks leave the chain, where so many can be reversed. It takes no memory.
    pub fn revert<L: StepBook>(&mut self, count: u64, line: &mut Line, steps: &mut Steps<L>)
        requires { line.old.items ≡ [] }
        ensures acts { (frame : List ℕ) → BranchesActs self.old (RevertCommand count) frame line.new.items self.new }
        ensures store { self.new.store ≡ self.old.store }
    {
        match self.ledger.revert(count, steps) {
            Ok(()) => put_reverted(count, line),
            Err(TooDeep { kept }) => put_too_deep(kept, line),
        }
    }

    /// The turn of BLOCK, of which `frame` has the raw bytes where they are at most 1,048,576.
    pub fn act_block<L: StepBook>(
        &mut self,
        len: u64,
        frame: &[u8],
        line: &mut Line,
        steps: &mut Steps<L>,
    )
        requires { line.old.items ≡ [] }
        ensures { BranchesActs self.old (BlockCommand len) frame.now line.new.items self.new }
    {
        if len > LONGEST_BLOCK as u64 {
            return put_refused(b"X01", line);
        }
        self.act_short_block(frame, line, steps);
    }

    fn act_short_block<L: StepBook>(&mut self, frame: &[u8], line: &mut Line, steps: &mut Steps<L>)
        requires { line.old.items ≡ [] }
        ensures { length frame.now ≤ longest_block → ShortBlockActs self.old frame.now line.new.items self.new }
    {
        if frame.len() > LONGEST_BLOCK {
            return put_refused(b"X01", line);
        }
        match read_hashed_block(self.alloc, frame) {
            Ok(read) => self.submit(read, line, steps),
            Err(ReadRefusal::NotABlock { line: number }) => put_unread(number, line),
            Err(ReadRefusal::NoMemory) => put_no_memory(line),
        }
    }

    // The block joins the chain and leaves the store, or the first rule that it breaks is named.
    fn submit<L: StepBook>(&mut self, read: HashedBlock, line: &mut Line, steps: &mut Steps<L>)
        requires empty { line.old.items ≡ [] }
        requires text { IsBlock read.block }
        requires short { length (block_text read.block) ≤ longest_block }
        requires inner { read.inner ≡ hash_of (inner_text read.block) }
        ensures { Decided self.old read.block line.new.items self.new }
    {
        let HashedBlock { block, inner } = read;
        match self.decide(block, &inner, steps) {
            Ok(stamp) => put_accepted(&stamp, line),
            Err(refusal) => put_refusal(refusal, line),
        }
    }

    // The same, by what the ledger says.
    fn decide<L: StepBook>(
        &mut self,
        block: Block,
        inner: &Hash,
        steps: &mut Steps<L>,
    ) -> Result<Stamp, SubmitRefusal>
        requires text { IsBlock block }
        requires short { length (block_text block) ≤ longest_block }
        requires inner { inner.now ≡ hash_of (inner_text block) }
        ensures { IsDecided self.old block result self.new }
    {
        blocks_have_one_text();
        match self.ledger.submit_read(block, inner, &self.verdicts, steps) {
            Ok(stamp) => {
                let of_block = Stamp {
                    number: stamp.number,
                    hash: stamp.hash,
                };
                self.store.forget(stamp);
                Ok(of_block)
            }
            Err(refusal) => Err(refusal),
        }
    }

    /// Takes the turn of a block of a chain that was generated, whose InnerHash is right. `NoMemory` leaves all as before.
    pub fn give_block<L: StepBook>(
        &mut self,
        block: Block,
        steps: &mut Steps<L>,
    ) -> Result<(), NoMemory>
        requires text { IsBlock block }
        requires short { length (block_text block) ≤ longest_block }
        requires inner { InnerHashIsRight block }
        ensures given { OnOk result (TakesTurn self.old (block_text block) self.new) }
        ensures refused { OnErr result (self.new ≡ self.old) }
    {
        blocks_have_one_text();
        let inner = block.inner_hash;
        match self.decide(block, &inner, steps) {
            Ok(_) => Ok(()),
            Err(SubmitRefusal::Refused { .. }) => Ok(()),
            Err(SubmitRefusal::NoMemory { .. }) => Err(NoMemory),
        }
    }

    /// The verdict joins those that were given. `NoMemory` leaves all as before.
    pub fn give_verdict(&mut self, given: (Key, Hash, Sig)) -> Result<(), NoMemory>
        ensures given { OnOk result (self.new ≡ record self.old { verdicts = with_verdict (verdict_of given.0 given.1 given.2) self.old.verdicts }) }
        ensures refused { OnErr result (self.new ≡ self.old) }
    {
        let (key, hash, sig) = given;
        self.verdicts.add(key, hash, sig)?;
        Ok(())
    }

    /// Where there is no block, this ledger takes the place of that of the empty chain. It takes no memory.
    pub fn take_over(&mut self, ledger: Ledger<T>)
        requires empty { HasNoBlock self.old }
        requires whole { ledger.out ≡ None }
        requires valid { IsValid self.old.verdicts ledger.chain }
        ensures { self.new ≡ record self.old { chain = ledger.chain; kept = ledger.kept } }
    {
        self.ledger = ledger;
    }

    /// Stores the block of these bytes, which are at most 1,048,576, and tells its stamp; or the first reason against it is named, and all is
    /// as before.
    pub fn store_block(&mut self, frame: &[u8]) -> Result<Stamp, OfferRefusal>
        requires { length frame.now ≤ longest_block }
        ensures offered { Offered self.old frame.now result self.new.store }
        ensures same { self.new ≡ record self.old { store = self.new.store } }
    {
        self.store.offer(frame, &self.ledger, &self.verdicts)
    }

    /// The stored block of this stamp leaves the store. It takes no memory.
    pub fn take_out(&mut self, stamp: Stamp)
        ensures { self.new ≡ record self.old { store = without stamp self.old.store } }
    {
        self.store.forget(stamp);
    }

    /// Puts the branch that ends at the stored block of this stamp in the place of the chain's last blocks, or names the first reason against
    /// it; then all is as before.
    pub fn switch_to<L: StepBook>(
        &mut self,
        stamp: Stamp,
        steps: &mut Steps<L>,
    ) -> Result<(), SwitchRefusal>
        ensures { Switched self.old stamp result self.new }
    {
        let outcome = self
            .store
            .switch(stamp, &mut self.ledger, &self.verdicts, steps);
        blocks_have_one_text();
        self.ledger.laws();
        outcome
    }

    /// The turn of SWITCH.
    pub fn switch<L: StepBook>(&mut self, stamp: Stamp, line: &mut Line, steps: &mut Steps<L>)
        requires { line.old.items ≡ [] }
        ensures { (frame : List ℕ) → BranchesActs self.old (SwitchCommand stamp) frame line.new.items self.new }
    {
        let outcome = self.switch_to(stamp, steps);
        put_switch(&stamp, outcome, line);
    }

    /// The turn of FORGET: the stored block of this stamp leaves the store. It takes no memory.
    pub fn forget(&mut self, stamp: Stamp, line: &mut Line)
        requires { line.old.items ≡ [] }
        ensures { (frame : List ℕ) → BranchesActs self.old (ForgetCommand stamp) frame line.new.items self.new }
    {
        if self.store.forget(stamp) {
            return put_forgotten(line);
        }
        put_unknown(line);
    }
}
