ghost use Rattle.std.specs.Prelude.{◌≡◌, List, [], ℕ};
ghost use Rattle.dubp_left.specs.OfChain.{Chain};
ghost use Rattle.dubp_left.specs.Left.{queue_left, kicked_at};

use dubp_atoms::{Key, NoMemory, Steps};
use dubp_expiry::{Entries, Queue};
use dubp_left::{Block, Facts};
use dubp_undo::{Along, Definition, Leaf, StateOf, Tables, Three};
use std::alloc::Global;
use std::sync::ledger::Ledger as StepBook;

/// What a chain leaves in the queue.
pub struct QueueLeft;

impl StateOf<Block, Entries> for QueueLeft {
    ghost after = { queue_left };
}

/// The keys that have to be excluded of each chain.
pub struct KickedOf;

impl Definition<Block, Key, ()> for KickedOf {
    ghost at = { kicked_at };
}

type OtherTables = Three<
    Block,
    Along<Block, Entries, Queue, QueueLeft>,
    Leaf<Block, Key, (), KickedOf>,
    Facts,
>;

/// The queue of what falls due, the keys that have to be excluded, and the facts of the chain.
#[derive(Drop)]
pub struct Others {
    pub tables: OtherTables,
}

impl Tables<Block> for Others {
    ghost Now = { ⟦<OtherTables as Tables<Block>>⟧.Now };

    ghost Names = { ⟦<OtherTables as Tables<Block>>⟧.Names };

    ghost now = { λ t. ⟦<OtherTables as Tables<Block>>⟧.now t.tables };

    ghost count = { λ t. ⟦<OtherTables as Tables<Block>>⟧.count t.tables };

    ghost others = { λ t. ⟦<OtherTables as Tables<Block>>⟧.others t.tables };

    ghost spare = { λ t. ⟦<OtherTables as Tables<Block>>⟧.spare t.tables };

    ghost names = { λ t. ⟦<OtherTables as Tables<Block>>⟧.names t.tables };

    ghost is = { ⟦<OtherTables as Tables<Block>>⟧.is };

    ghost at = { λ t c. ⟦<OtherTables as Tables<Block>>⟧.at t.tables c };

    fn depth(&self) -> usize {
        self.tables.depth()
    }

    fn mark(&mut self) -> Result<(), NoMemory> {
        self.tables.mark()?;
        Ok(())
    }

    fn unmark(&mut self) {
        self.tables.unmark();
    }

    fn reserve(&mut self, k: usize) -> Result<(), NoMemory> {
        self.tables.reserve(k)?;
        Ok(())
    }

    fn hold<L: StepBook>(&mut self, steps: &mut Steps<L>) {
        self.tables.hold(steps);
    }

    fn back<L: StepBook>(&mut self, steps: &mut Steps<L>) {
        self.tables.back(steps);
    }

    fn again<L: StepBook>(&mut self, steps: &mut Steps<L>) {
        self.tables.again(steps);
    }

    fn drop_oldest(&mut self) {
        self.tables.drop_oldest();
    }

    fn drop_ahead(&mut self) {
        self.tables.drop_ahead();
    }

    ghost is_at = { λ t c is. is };

    ghost at_is = { λ t c is. is };
}

impl Others {
    /// Those of the empty chain. It takes no memory.
    pub fn new(alloc: Global) -> Others
        ensures at { ⟦<Others as Tables<Block>>⟧.at result [] }
        ensures count { ⟦<Others as Tables<Block>>⟧.count result ≡ 0 }
        ensures kept { (⟦<Others as Tables<Block>>⟧.others result).kept ≡ [] }
        ensures ahead { (⟦<Others as Tables<Block>>⟧.others result).ahead ≡ [] }
    {
        Others {
            tables: Three::new(
                Along::new(Queue::new(alloc)),
                Leaf::new(alloc),
                Facts::new(alloc),
            ),
        }
    }
}
