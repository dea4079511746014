ghost use Rattle.std.specs.Prelude.{◌≡◌, ◌+◌, length, min};
ghost use Rattle.dubp_moving.specs.Others.{Others, zip_others};

use crate::moving::Tables;
use dubp_costs::{NoMemory, Steps};
use std::marker::PhantomData;
use std::sync::ledger::Ledger as StepBook;

/// Two that move together, over the same blocks `B`: tables, or pairs of them.
#[derive(Drop)]
pub struct Both<B, X: Tables<B>, Y: Tables<B>> {
    pub first: X,
    pub second: Y,
    of: PhantomData<B>,
    ghost even: { length (X.others first).kept ≡ length (Y.others second).kept },
    ghost even_ahead: { length (X.others first).ahead ≡ length (Y.others second).ahead },
}

impl<B, X: Tables<B>, Y: Tables<B>> Both<B, X, Y> {
    /// The two, which keep as many states, and have as many ahead.
    pub fn new(first: X, second: Y) -> Both<B, X, Y>
        requires even { length (X.others first).kept ≡ length (Y.others second).kept }
        requires even_ahead { length (X.others first).ahead ≡ length (Y.others second).ahead }
        ensures first { result.first ≡ first }
        ensures second { result.second ≡ second }
    {
        Both {
            first,
            second,
            of: PhantomData,
        }
    }
}

impl<B, X: Tables<B>, Y: Tables<B>> Tables<B> for Both<B, X, Y> {
    ghost Now = { X.Now × Y.Now };

    ghost Names = { X.Names × Y.Names };

    ghost now = { λ t. (X.now t.first, Y.now t.second) };

    ghost count = { λ t. X.count t.first + Y.count t.second };

    ghost others = { λ t. zip_others (X.others t.first) (Y.others t.second) };

    ghost spare = { λ t. min (X.spare t.first) (Y.spare t.second) };

    ghost names = { λ t. (X.names t.first, Y.names t.second) };

    ghost is = { λ m n c. X.is m.0 n.0 c × Y.is m.1 n.1 c };

    ghost at = { λ t c. X.at t.first c × Y.at t.second c };

    #[tactic(auto, using(crate::specs::Others::length_zip))]
    fn depth(&self) -> usize {
        self.first.depth()
    }

    #[tactic(auto, using(crate::specs::Others::same_others))]
    fn mark(&mut self) -> Result<(), NoMemory> {
        self.first.mark()?;
        match self.second.mark() {
            Ok(()) => Ok(()),
            Err(error) => {
                self.first.unmark();
                Err(error)
            }
        }
    }

    #[tactic(auto, using(crate::specs::Others::length_zip))]
    fn unmark(&mut self) {
        self.first.unmark();
        self.second.unmark();
    }

    #[tactic(auto, using(crate::specs::Others::length_zip))]
    fn reserve(&mut self, k: usize) -> Result<(), NoMemory> {
        self.first.reserve(k)?;
        self.second.reserve(k)?;
        Ok(())
    }

    #[tactic(auto, using(crate::specs::Others::length_zip))]
    fn back<L: StepBook>(&mut self, steps: &mut Steps<L>) {
        self.first.back(steps);
        self.second.back(steps);
    }

    #[tactic(auto, using(crate::specs::Others::length_zip))]
    fn hold<L: StepBook>(&mut self, steps: &mut Steps<L>) {
        self.first.hold(steps);
        self.second.hold(steps);
    }

    #[tactic(auto, using(crate::specs::Others::length_zip))]
    fn again<L: StepBook>(&mut self, steps: &mut Steps<L>) {
        self.first.again(steps);
        self.second.again(steps);
    }

    #[tactic(auto, using(crate::specs::Others::length_zip, crate::specs::Others::but_last_zip, crate::specs::Others::length_but_last))]
    fn drop_oldest(&mut self) {
        self.first.drop_oldest();
        self.second.drop_oldest();
    }

    fn drop_ahead(&mut self) {
        self.first.drop_ahead();
        self.second.drop_ahead();
    }

    ghost is_at = { λ t c is. (X.is_at t.first c is.0, Y.is_at t.second c is.1) };

    ghost at_is = { λ t c is. (X.at_is t.first c is.0, Y.at_is t.second c is.1) };
}
