ghost use Rattle.std.specs.Prelude.{◌≡◌, []};
ghost use Rattle.dubp_undo.specs.States.{states};
ghost use Rattle.dubp_money_steps.specs.Left.{sources_left};
ghost use Rattle.dubp_money.specs.Index.{StandsFor};
ghost use Rattle.dubp_money.specs.Texts.{Fits};

use dubp_atoms::{NoMemory, Secret, Steps};
use dubp_block::Block;
use dubp_sindex::{SIndex, SourceRows};
use dubp_undo::Tables;
use std::alloc::Global;
use std::sync::ledger::Ledger as StepBook;

/// The unspent sources of a chain.
///
/// Its index stands for the rows that each block leaves, with the accounts as it numbers them: each condition that the chain
/// ever made has a number.
#[derive(Drop)]
pub struct Sources {
    pub index: SIndex,
}

impl Tables<Block> for Sources {
    ghost Now = { ⟦<SIndex as Tables<SourceRows>>⟧.Now };

    ghost Names = { ⟦<SIndex as Tables<SourceRows>>⟧.Names };

    ghost now = { λ t. ⟦<SIndex as Tables<SourceRows>>⟧.now t.index };

    ghost count = { λ t. ⟦<SIndex as Tables<SourceRows>>⟧.count t.index };

    ghost others = { λ t. ⟦<SIndex as Tables<SourceRows>>⟧.others t.index };

    ghost spare = { λ t. ⟦<SIndex as Tables<SourceRows>>⟧.spare t.index };

    ghost names = { λ t. ⟦<SIndex as Tables<SourceRows>>⟧.names t.index };

    ghost is = { λ m n c. Fits m.1 c × ⟦<SIndex as Tables<SourceRows>>⟧.is m n (states (sources_left m.1) c) };

    ghost at = { λ t c. StandsFor t.index c };

    fn depth(&self) -> usize {
        self.index.depth()
    }

    fn mark(&mut self) -> Result<(), NoMemory> {
        self.index.mark()?;
        Ok(())
    }

    fn unmark(&mut self) {
        self.index.unmark();
    }

    fn reserve(&mut self, k: usize) -> Result<(), NoMemory> {
        self.index.reserve(k)?;
        Ok(())
    }

    fn hold<L: StepBook>(&mut self, steps: &mut Steps<L>) {
        self.index.hold(steps);
    }

    fn back<L: StepBook>(&mut self, steps: &mut Steps<L>) {
        self.index.back(steps);
    }

    fn again<L: StepBook>(&mut self, steps: &mut Steps<L>) {
        self.index.again(steps);
    }

    fn drop_oldest(&mut self) {
        self.index.drop_oldest();
    }

    fn drop_ahead(&mut self) {
        self.index.drop_ahead();
    }

    ghost is_at = { λ t c is. is };

    ghost at_is = { λ t c is. is };
}

impl Sources {
    /// Those of the empty chain. The secret is what they are hashed by. It takes no memory.
    pub fn new(alloc: Global, secret: Secret) -> Sources
        ensures at { ⟦<Sources as Tables<Block>>⟧.at result [] }
        ensures count { ⟦<Sources as Tables<Block>>⟧.count result ≡ 0 }
        ensures kept { (⟦<Sources as Tables<Block>>⟧.others result).kept ≡ [] }
        ensures ahead { (⟦<Sources as Tables<Block>>⟧.others result).ahead ≡ [] }
    {
        Sources {
            index: SIndex::with_secret(alloc, secret),
        }
    }
}
