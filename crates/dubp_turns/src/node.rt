ghost use Rattle.std.specs.Prelude.{◌≡◌, ◌↔◌, IsTrue, length, ◌≤◌, ℕ, List, [], ◌∷◌, None, OnOk, OnErr, true};
ghost use Rattle.dubp_atoms.specs.Spelling.{IsNumber};
ghost use Rattle.dubp_turns.specs.Acting.{Acts, OfferActs, PendActs};
ghost use Rattle.dubp_replay.specs.AnswerBytes.{answer_bytes};
ghost use Rattle.dubp_turns.specs.Told.{told_text};
ghost use Rattle.dubp_turns.specs.TakenOver.{HasNoBlock};
ghost use Rattle.dubp_block.specs.Text.{IsBlock, block_text};
ghost use Rattle.dubp_validity.specs.LocalRules.{InnerHashIsRight};
ghost use Rattle.dubp_validity.specs.Rules.{IsValid, longest_block};
ghost use Rattle.dubp_turns.specs.Given.{IsGivenAll, block_given, verdict_given};
ghost use Rattle.dubp_replay.specs.OneLine.{IsShort, query_of};
ghost use Rattle.dubp_replay.specs.Turns.{IsTimely, branches_of, left_over, start};
ghost use Rattle.dubp_replay.specs.declared.command.Command.TheVariants.{Ask as AskCommand, Auto as AutoCommand, Block as BlockCommand, Failures as FailuresCommand, Forge as ForgeCommand, Forget as ForgetCommand, Offer as OfferCommand, Pend as PendCommand, Revert as RevertCommand, Statement as StatementCommand, Switch as SwitchCommand, Unpend as UnpendCommand, Verdict as VerdictCommand};

use crate::branches::Branches;
use crate::choosing::{choose_behind, let_go, resolve};
use crate::forging::forge_on;
use crate::stating::{put_forgotten, put_no_memory, put_offer, put_one, put_refused, put_unknown};
use crate::texts::{failures_text, put_pend};
use crate::told::Told;
use arrayvec::ArrayVec;
use dubp_atoms::{Hash, Key, Line, NoMemory, Secret, Sig, Stamp, Steps};
use dubp_block::Block;
use dubp_forks::{Ledger, PeopleAndMoney};
use dubp_pool::Pool;
use dubp_query::{Answer, Asked, CondText, Query};
use dubp_replay::{Command, Failure, LONGEST_BLOCK};
use std::alloc::Global;
use std::marker::Model;
use std::sync::ledger::Ledger as StepBook;

/// The node: it answers commands, one after another.
///
/// Contracts see the state that its answers depend on: the verdicts, the chain of accepted blocks, how many of them can be reversed, the
/// stored blocks of branches, none of which is in the chain, whether it chooses among these by itself, the branches that it chose and that
/// failed, and the documents that wait for a block. A failure is kept as long as the block at which it came is stored.
#[derive(Drop)]
pub struct Node<T: PeopleAndMoney> {
    alloc: Global,
    branches: Branches<T>,
    auto: bool,
    failures: Vec<Failure>,
    pool: Pool,
}

impl<T: PeopleAndMoney> Model for Node<T> {
    ghost use Rattle.dubp_replay.specs.Turns.{State, left_over};

    ghost Value = { State };

    ghost use Rattle.std.specs.Coded.{codes};
    ghost use Rattle.dubp_block.specs.contracts.block.Block as block;
    ghost use Rattle.dubp_pool.specs.contracts.pool.Pool as documents;

    ghost coded = { Prim.hlevel (codes, block.the_row.coded, documents.the_row.coded) };

    ghost use Rattle.dubp_choosing.specs.States.{state_with};

    ghost view = { λ n. state_with n.pool n.branches n.auto n.failures.items };

    ghost use Rattle.std.specs.Prelude.{◌≡◌};

    ghost invariant = { λ n. left_over n.branches.store n.failures.items ≡ n.failures.items };
}

impl<T: PeopleAndMoney> Node<T> {
    /// The node of the empty chain, for who chooses its verdicts and its documents. It takes no memory.
    pub fn new(alloc: Global) -> Node<T>
        ensures { result ≡ start }
    {
        Node::with_secret(alloc, Secret::known())
    }

    /// The node of the empty chain, for verdicts and documents that strangers choose: who does not know the secret makes none that are slower to
    /// keep than others. It takes no memory.
    pub fn with_secret(alloc: Global, secret: Secret) -> Node<T>
        ensures { result ≡ start }
    {
        Node {
            alloc,
            branches: Branches::with_secret(alloc, secret),
            auto: false,
            failures: Vec::new(alloc),
            pool: Pool::with_secret(alloc, secret),
        }
    }

    /// One turn: the answer to a command, and what it changes.
    ///
    /// `frame` has the raw bytes that follow a BLOCK, an OFFER or a PEND whose LEN is at most 1,048,576, and is empty otherwise. One of these of a
    /// greater LEN is answered `REFUSED X01`. The time of a FORGE is below 2^53. `NOMEM` leaves the node as before; only a command that takes
    /// memory is answered so.
    pub fn act<L: StepBook>(
        &mut self,
        command: &Command,
        frame: &[u8],
        steps: &mut Steps<L>,
    ) -> Answer
        requires { IsTimely command.now }
        ensures { Acts self.old command.now frame.now (answer_bytes result) self.new }
    {
        let mut line: Line = ArrayVec::new();
        match self.take_turn(command, frame, &mut line, steps) {
            Told::InLine => Answer::One(line),
            Told::Here(lines) => Answer::Many(lines),
        }
    }

    /// The same, where an answer of one line is put into an empty line at hand.
    pub fn take_turn<L: StepBook>(
        &mut self,
        command: &Command,
        frame: &[u8],
        line: &mut Line,
        steps: &mut Steps<L>,
    ) -> Told
        requires timely { IsTimely command.now }
        requires empty { line.old.items ≡ [] }
        ensures { Acts self.old command.now frame.now (told_text line.new.items result) self.new }
    {
        match command {
            Command::Offer { len } => self.act_offer(*len, frame, line, steps),
            Command::Statement { cond } => self.statement(cond, line),
            Command::Auto { on } => self.set_auto(*on, line, steps),
            Command::Failures => self.failed(line),
            Command::Forge { key, time } => self.forge(*key, *time, line),
            Command::Ask(query) => self.ask(query, line),
            Command::Verdict { key, hash, sig } => {
                self.note(*key, *hash, *sig, line);
                Told::InLine
            }
            Command::Block { len } => {
                self.act_block(*len, frame, line, steps);
                Told::InLine
            }
            Command::Revert { count } => {
                self.revert(*count, line, steps);
                Told::InLine
            }
            Command::Switch { stamp } => {
                self.switch(*stamp, line, steps);
                Told::InLine
            }
            Command::Forget { stamp } => {
                self.forget(*stamp, line);
                Told::InLine
            }
            Command::Pend { len } => {
                self.act_pend(*len, frame, line);
                Told::InLine
            }
            Command::Unpend { hash } => {
                self.unpend(*hash, line);
                Told::InLine
            }
        }
    }

    /// The ledger. It takes no memory.
    pub fn ledger(&self) -> &Ledger<T>
        ensures chain { result.now.chain ≡ self.now.chain }
        ensures kept { result.now.kept ≡ self.now.kept }
        ensures out { result.now.out ≡ None }
    {
        self.branches.ledger()
    }

    /// Whether the node has no block: none is in its chain, none can be reversed, and none is stored. It takes no memory.
    pub fn is_empty(&self) -> bool
        ensures { IsTrue result ↔ HasNoBlock (branches_of self.now) }
    {
        self.branches.is_empty()
    }

    /// What the node hashes by whatever strangers choose.
    pub fn secret(&self) -> Secret {
        self.branches.secret()
    }

    /// Does nothing. Its clauses say what holds at any time: each block of the chain breaks no rule on those before it, with the verdicts of
    /// the node; and the block at which each failure came is stored.
    pub fn laws(&self)
        ensures valid { IsValid self.now.verdicts self.now.chain }
        ensures failures { left_over self.now.store self.now.failures ≡ self.now.failures }
    {
        self.branches.laws();
        let _ = &self.failures;
    }

    /// Puts the answer to a query that is answered in one line into an empty line, as `act` answers it: nothing changes. HEAD, MONEY, IDENTITY,
    /// UID, BALANCE and DIFF take no memory and are never answered `NOMEM`.
    pub fn tell(&self, asked: &Asked<'_>, line: &mut Line)
        requires short { IsShort asked.now }
        requires empty { line.old.items ≡ [] }
        ensures { (frame : List ℕ) → Acts self.now (AskCommand (query_of asked.now)) frame line.new.items self.now }
    {
        self.branches.tell(asked, line);
    }

    // The query is answered, and nothing changes.
    fn ask(&self, query: &Query, line: &mut Line) -> Told
        requires { line.old.items ≡ [] }
        ensures { (frame : List ℕ) → Acts self.now (AskCommand query.now) frame (told_text line.new.items result) self.now }
    {
        self.branches.ask(query, line)
    }

    // The moves of the condition are told, and nothing changes.
    fn statement(&self, cond: &CondText, line: &mut Line) -> Told
        requires { line.old.items ≡ [] }
        ensures { (frame : List ℕ) → Acts self.now (StatementCommand cond.now) frame (told_text line.new.items result) self.now }
    {
        self.branches.statement(cond, line)
    }

    // The verdict joins those that were given.
    fn note(&mut self, key: Key, hash: Hash, sig: Sig, line: &mut Line)
        requires { line.old.items ≡ [] }
        ensures { (frame : List ℕ) → Acts self.old (VerdictCommand key hash sig) frame line.new.items self.new }
    {
        self.branches.note(key, hash, sig, line);
    }

    // The last blocks leave the chain, where so many can be reversed.
    fn revert<L: StepBook>(&mut self, count: u64, line: &mut Line, steps: &mut Steps<L>)
        requires { line.old.items ≡ [] }
        ensures { (frame : List ℕ) → Acts self.old (RevertCommand count) frame line.new.items self.new }
    {
        self.branches.revert(count, line, steps);
    }

    fn act_block<L: StepBook>(
        &mut self,
        len: u64,
        frame: &[u8],
        line: &mut Line,
        steps: &mut Steps<L>,
    )
        requires { line.old.items ≡ [] }
        ensures { Acts self.old (BlockCommand len) frame.now line.new.items self.new }
    {
        self.branches.act_block(len, frame, line, steps);
        let_go(&self.branches, &mut self.failures);
    }

    // The branch that ends at this stored block takes the place of the chain's last blocks, or the first reason against it is named.
    fn switch<L: StepBook>(&mut self, stamp: Stamp, line: &mut Line, steps: &mut Steps<L>)
        requires { line.old.items ≡ [] }
        ensures { (frame : List ℕ) → Acts self.old (SwitchCommand stamp) frame line.new.items self.new }
    {
        self.branches.switch(stamp, line, steps);
        let_go(&self.branches, &mut self.failures);
    }

    // The stored block of this stamp leaves the store.
    fn forget(&mut self, stamp: Stamp, line: &mut Line)
        requires { line.old.items ≡ [] }
        ensures { (frame : List ℕ) → Acts self.old (ForgetCommand stamp) frame line.new.items self.new }
    {
        self.branches.forget(stamp, line);
        let_go(&self.branches, &mut self.failures);
    }

    /// Takes the turn of a block of a chain that was generated, whose InnerHash is right. `NoMemory` leaves the node as before.
    pub fn give_block<L: StepBook>(
        &mut self,
        block: Block,
        steps: &mut Steps<L>,
    ) -> Result<(), NoMemory>
        requires text { IsBlock block }
        requires short { length (block_text block) ≤ longest_block }
        requires inner { InnerHashIsRight block }
        ensures given { OnOk result (IsGivenAll (block_given block ∷ []) self.old self.new) }
        ensures refused { OnErr result (self.new ≡ self.old) }
    {
        self.branches.give_block(block, steps)?;
        let_go(&self.branches, &mut self.failures);
        Ok(())
    }

    /// Takes the turn of a verdict of a chain that was generated. `NoMemory` leaves the node as before.
    pub fn give_verdict(&mut self, given: (Key, Hash, Sig)) -> Result<(), NoMemory>
        ensures given { OnOk result (IsGivenAll (verdict_given given ∷ []) self.old self.new) }
        ensures refused { OnErr result (self.new ≡ self.old) }
    {
        self.branches.give_verdict(given)?;
        Ok(())
    }

    /// Where the node has no block, it takes this ledger in the place of its own, whose blocks break no rule with the verdicts of the node. It
    /// takes no memory.
    pub fn take_over(&mut self, ledger: Ledger<T>)
        requires empty { HasNoBlock (branches_of self.old) }
        requires whole { ledger.out ≡ None }
        requires valid { IsValid self.old.verdicts ledger.chain }
        ensures { self.new ≡ record self.old { chain = ledger.chain; kept = ledger.kept } }
    {
        self.branches.take_over(ledger);
    }

    // The node chooses from now on, and at once; or no longer.
    fn set_auto<L: StepBook>(&mut self, on: bool, line: &mut Line, steps: &mut Steps<L>) -> Told
        requires { line.old.items ≡ [] }
        ensures { (frame : List ℕ) → Acts self.old (AutoCommand on) frame (told_text line.new.items result) self.new }
    {
        if on {
            self.start_choosing(line, steps)
        } else {
            self.auto = false;
            put_one(b"AUTO OFF", line);
            Told::InLine
        }
    }

    fn start_choosing<L: StepBook>(&mut self, line: &mut Line, steps: &mut Steps<L>) -> Told
        requires { line.old.items ≡ [] }
        ensures { (frame : List ℕ) → Acts self.old (AutoCommand true) frame (told_text line.new.items result) self.new }
    {
        put_one(b"AUTO ON", line);
        match resolve(
            self.alloc,
            line.as_slice(),
            &mut self.branches,
            &mut self.failures,
            steps,
        ) {
            Ok(lines) => {
                self.auto = true;
                Told::Here(lines)
            }
            Err(NoMemory) => {
                line.clear();
                put_no_memory(line);
                Told::InLine
            }
        }
    }

    // The branches that failed, as long as they are kept.
    fn failed(&self, line: &mut Line) -> Told
        requires { line.old.items ≡ [] }
        ensures { (frame : List ℕ) → Acts self.now FailuresCommand frame (told_text line.new.items result) self.now }
    {
        match failures_text(self.alloc, self.failures.as_slice()) {
            Ok(text) => Told::Here(text),
            Err(NoMemory) => {
                put_no_memory(line);
                Told::InLine
            }
        }
    }

    // The document of these bytes waits from now on, or the first reason against it is named.
    fn act_pend(&mut self, len: u64, frame: &[u8], line: &mut Line)
        requires { line.old.items ≡ [] }
        ensures { Acts self.old (PendCommand len) frame.now line.new.items self.new }
    {
        if len > LONGEST_BLOCK as u64 {
            return put_refused(b"X01", line);
        }
        self.pend(frame, line);
    }

    // The same, where the bytes are not too many.
    fn pend(&mut self, frame: &[u8], line: &mut Line)
        requires { line.old.items ≡ [] }
        ensures { length frame.now ≤ longest_block → PendActs self.old frame.now line.new.items self.new }
    {
        put_pend(self.pool.add(frame), line);
    }

    // The document whose text has this hash waits no longer.
    fn unpend(&mut self, hash: Hash, line: &mut Line)
        requires { line.old.items ≡ [] }
        ensures { (frame : List ℕ) → Acts self.old (UnpendCommand hash) frame line.new.items self.new }
    {
        if self.pool.remove(hash) {
            return put_forgotten(line);
        }
        put_unknown(line);
    }

    // A block is forged of the documents that wait, and nothing changes.
    fn forge(&self, key: Key, time: u64, line: &mut Line) -> Told
        requires time { IsNumber time }
        requires empty { line.old.items ≡ [] }
        ensures { (frame : List ℕ) → Acts self.now (ForgeCommand key time) frame (told_text line.new.items result) self.now }
    {
        forge_on(self.alloc, &self.branches, &self.pool, key, time, line)
    }

    fn act_offer<L: StepBook>(
        &mut self,
        len: u64,
        frame: &[u8],
        line: &mut Line,
        steps: &mut Steps<L>,
    ) -> Told
        requires { line.old.items ≡ [] }
        ensures { Acts self.old (OfferCommand len) frame.now (told_text line.new.items result) self.new }
    {
        if len > LONGEST_BLOCK as u64 {
            self.laws();
            put_refused(b"X01", line);
            return Told::InLine;
        }
        self.offer(frame, line, steps)
    }

    // The block goes to the end of the store, and the node chooses, if it does so by itself; or the first reason against the block is named.
    fn offer<L: StepBook>(&mut self, frame: &[u8], line: &mut Line, steps: &mut Steps<L>) -> Told
        requires { line.old.items ≡ [] }
        ensures { length frame.now ≤ longest_block → OfferActs self.old frame.now (told_text line.new.items result) self.new }
    {
        if frame.len() > LONGEST_BLOCK {
            put_refused(b"X01", line);
            return Told::InLine;
        }
        match self.branches.store_block(frame) {
            Ok(stamp) => {
                if !self.auto {
                    put_offer(Ok(stamp), line);
                    return Told::InLine;
                }
                choose_behind(
                    self.alloc,
                    stamp,
                    &mut self.branches,
                    &mut self.failures,
                    line,
                    steps,
                )
            }
            Err(refusal) => {
                put_offer(Err(refusal), line);
                Told::InLine
            }
        }
    }
}
