ghost use Rattle.std.specs.Prelude.{◌≡◌, ◌+◌, ◌≤◌, ◌<◌, ◌∷◌, [], None, Some, drop, min, reverse, take, OnOk, OnErr, IfOk, IfErr};
ghost use Rattle.dubp_local.specs.Local.{all_hashes};
ghost use Rattle.dubp_kept.specs.LeftBehind.{left_behind};
ghost use Rattle.dubp_kept.specs.KeptChain.{IsKnown, MayJoin, most_kept, most_steps, last_steps, steps_of_last, steps_of_out, with_block, without_last, HandsBack, IsHeldBy, IsAsHeld, IsAsBefore, AreStates};

use crate::held::{Before, Held};
use crate::left_behind::LeftBehind;
use crate::moves::{enter, trim, trim_unless};
use crate::switch::{make_ready, move_off, put_back};
use crate::written::Written;
use dubp_atoms::{NoMemory, Steps};
use dubp_block::Block;
use dubp_chain::Head;
use dubp_docs::TxHashes;
use dubp_head::Heads;
use dubp_moving::Tables;
use dubp_params::Params;
use std::alloc::Global;
use std::marker::Model;
use std::snapshot::Snapshot;
use std::sync::ledger::Ledger as StepBook;

/// How many blocks can be taken off at most, where none is held.
const MOST_KEPT: usize = 100;

/// The blocks of a chain with their heads and their tables.
#[derive(Drop)]
pub struct Kept<T: Written> {
    alloc: Global,
    // Oldest first.
    blocks: Vec<Block>,
    heads: Heads,
    tables: T,
    // The heads of the blocks that are held, newest first.
    behind: Vec<Head>,
    // What was before blocks were held, where some are.
    out: Option<Before>,
}

impl<T: Written> Model for Kept<T> {
    ghost use Rattle.std.specs.Prelude.{length, reverse, vec_capacity};
    ghost use Rattle.dubp_kept.specs.KeptChain.{KeptChain, AreKept, StandsWithin, WaitsWithin};

    ghost Value = { KeptChain };

    ghost use Rattle.std.specs.Coded.{codes};
    ghost use Rattle.dubp_block.specs.contracts.block.Block as block;

    ghost coded = { Prim.hlevel (codes, block.the_row.coded) };

    ghost view = { λ k. record { chain = reverse k.blocks.items; kept = length (T.others k.tables).kept; out = k.out } };

    ghost invariant = { λ k. AreKept (StandsWithin (T.is (T.names k.tables)) (T.now k.tables) (T.count k.tables) (T.others k.tables).kept) (WaitsWithin (T.is (T.names k.tables)) (T.others k.tables)) (length (T.others k.tables).kept) (length (T.others k.tables).ahead) k.heads k.behind.items (reverse k.blocks.items) (vec_capacity k.blocks) k.out };
}

impl<T: Written> Kept<T> {
    /// No blocks, beside tables in which nothing stands. It takes no memory.
    pub fn new(alloc: Global, tables: T) -> Kept<T>
        requires at { T.at tables [] }
        requires count { T.count tables ≡ 0 }
        requires depth { (T.others tables).kept ≡ [] }
        requires ahead { (T.others tables).ahead ≡ [] }
        ensures chain { result.chain ≡ [] }
        ensures kept { result.kept ≡ 0 }
        ensures out { result.out ≡ None }
    {
        Kept {
            alloc,
            blocks: Vec::new(alloc),
            heads: Heads::new(alloc),
            tables,
            behind: Vec::new(alloc),
            out: None,
        }
    }

    /// How many blocks can be taken off: at most 100 where none is held. It takes no memory.
    pub fn kept(&self) -> usize
        ensures { result ≡ self.now.kept }
    {
        self.tables.depth()
    }

    /// Does nothing. Its clause says how many blocks can be taken off where none is held.
    pub fn laws(&self)
        ensures { self.now.out ≡ None → self.now.kept ≤ 100 }
    {
        let _ = &self.alloc;
    }

    /// The tables of the chain: their state is that of the chain, those that they keep are those before its last blocks, as many as can be
    /// taken off, and those ahead are of the blocks that are held.
    pub fn tables(&self) -> &T
        ensures at { T.at result.now self.now.chain }
        ensures states { AreStates (T.is (T.names result.now)) (T.now result.now) (T.count result.now) (T.others result.now) self.now }
    {
        &self.tables
    }

    /// The heads of the chain.
    pub fn heads(&self) -> &Heads
        ensures { IsKnown self.now.chain result.now }
    {
        &self.heads
    }

    /// The blocks of the chain, oldest first.
    pub fn blocks(&self) -> &[Block]
        ensures { reverse result.now ≡ self.now.chain }
    {
        &self.blocks
    }

    /// Adds the block, whose head this is and which breaks no rule on the chain but such as read verdicts, and hands out what it leaves
    /// behind. The parameters are those of the chain with it, and `hashes` those of its transactions, in order. Of the last hundred
    /// blocks each can be taken off; while blocks are held, no block that can be ceases to be so.
    ///
    /// Where there is no memory, the block is handed back, and all is as before.
    pub fn add<L: StepBook>(
        &mut self,
        block: Block,
        head: Head,
        params: &Params,
        hashes: &[TxHashes],
        steps: &mut Steps<L>,
    ) -> Result<LeftBehind, Block>
        requires joins { MayJoin self.old.chain block head params.now }
        requires hashes { hashes.now ≡ all_hashes block }
        ensures added { OnOk result (self.new ≡ with_block block self.old) }
        ensures left { IfOk result (λ left. left ≡ left_behind self.old.chain block) }
        ensures steps { OnOk result (steps.new ≤ steps.old + most_steps self.old.chain block) }
        ensures refused { IfErr result (λ back. HandsBack block back self.old self.new) }
    {
        if let Err(_) = self.blocks.reserve(1) {
            return Err(block);
        }
        if let Err(_) = self.heads.push(head, params) {
            return Err(block);
        }
        let Ok(left) = enter(&mut self.tables, self.alloc, &block, &head, hashes, steps) else {
            self.heads.pop();
            return Err(block);
        };
        self.blocks.push_reserved(block);
        trim_unless(&mut self.tables, self.out.is_some(), MOST_KEPT);
        Ok(left)
    }

    /// Takes the last block off and hands it out. One can be taken off. It takes no memory, and at most the steps that the block may add.
    pub fn withdraw<L: StepBook>(&mut self, steps: &mut Steps<L>) -> Block
        requires { 0 < self.old.kept }
        ensures chain { self.old.chain ≡ result ∷ self.new.chain }
        ensures kept { self.old.kept ≡ self.new.kept + 1 }
        ensures out { self.new.out ≡ self.old.out }
        ensures steps { steps.new ≤ steps.old + last_steps self.old.chain }
    {
        self.heads.pop();
        self.tables.back(steps);
        self.blocks.pop().unwrap()
    }

    /// Takes the last so many blocks off, as many as can be. It takes no memory, and at most the steps that they may add.
    pub fn take_off<L: StepBook>(&mut self, count: u64, steps: &mut Steps<L>)
        requires { count ≤ self.old.kept }
        ensures taken { self.new ≡ without_last count self.old }
        ensures steps { steps.new ≤ steps.old + steps_of_last count self.old.chain }
    {
        for _ in 0..count {
            self.withdraw(steps);
        }
    }

    /// Takes the last `count` blocks off and holds them. So many can be taken off, and none is held. What was before can be put back
    /// by `restore` and is given up by `settle`. At most the steps that they may add.
    ///
    /// `NoMemory` where there is no room for them; then all is as before.
    pub fn hold<L: StepBook>(
        &mut self,
        count: usize,
        steps: &mut Steps<L>,
    ) -> Result<Held, NoMemory>
        requires alone { self.old.out ≡ None }
        requires few { count ≤ self.old.kept }
        ensures held { IfOk result (λ held. held ≡ take count self.old.chain) }
        ensures chain { OnOk result (self.new.chain ≡ drop count self.old.chain) }
        ensures kept { OnOk result (self.new.kept + count ≡ self.old.kept) }
        ensures out { OnOk result (self.new.out ≡ Some (record { chain = self.old.chain; kept = self.old.kept; taken = count })) }
        ensures steps { OnOk result (steps.new ≤ steps.old + steps_of_last count self.old.chain) }
        ensures refused { OnErr result (self.new ≡ self.old) }
        ensures no_step { OnErr result (steps.new ≡ steps.old) }
    {
        let mut held = Vec::new(self.alloc);
        held.reserve(count).map_err(|_| NoMemory)?;
        let mut behind = Vec::new(self.alloc);
        behind.reserve(count).map_err(|_| NoMemory)?;
        make_ready(&mut self.tables, count)?;
        let before = Before {
            blocks: Snapshot::of(&self.blocks),
            kept: self.tables.depth(),
            taken: count,
        };
        move_off(
            &mut self.blocks,
            &mut self.heads,
            &mut self.tables,
            &mut held,
            &mut behind,
            count,
            steps,
        );
        self.behind = behind;
        self.out = Some(before);
        Ok(Held { blocks: held })
    }

    /// Gives up what was before these blocks were held, and hands them out in ascending number. The chain stays, and of its last hundred
    /// blocks those that could be taken off still can. It takes no memory.
    pub fn settle(&mut self, held: Held) -> Vec<Block>
        requires { IsHeldBy held self.old.out }
        ensures blocks { result.items ≡ reverse held }
        ensures chain { self.new.chain ≡ self.old.chain }
        ensures kept { self.new.kept ≡ min self.old.kept most_kept }
        ensures out { self.new.out ≡ None }
    {
        self.tables.drop_ahead();
        trim(&mut self.tables, MOST_KEPT);
        self.behind.clear();
        self.out = None;
        let Held { mut blocks } = held;
        blocks.reverse();
        blocks
    }

    /// Puts these blocks back, which are held. The chain is as right after they were taken off; then all is as before that. It takes no
    /// memory, and at most the steps that they may add.
    pub fn restore<L: StepBook>(&mut self, held: Held, steps: &mut Steps<L>)
        requires held { IsHeldBy held self.old.out }
        requires chain { IsAsHeld self.old.chain self.old.out }
        ensures restored { IsAsBefore self.new self.old.out }
        ensures steps { steps.new ≤ steps.old + steps_of_out self.old.out }
    {
        let Held { mut blocks } = held;
        put_back(
            &mut self.blocks,
            &mut self.heads,
            &mut self.tables,
            &mut blocks,
            &mut self.behind,
            steps,
        );
        self.out = None;
    }
}
