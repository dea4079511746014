ghost use Rattle.std.specs.Prelude.{◌≡◌, ◌+◌, length, min};
ghost use Rattle.dubp_moving.specs.Others.{Others, zip_others};

use crate::moving::Tables;
use dubp_costs::{NoMemory, Steps};
use std::marker::PhantomData;
use std::sync::ledger::Ledger as StepBook;

/// Three that move together, over the same blocks `B`: tables, or pairs of them.
///
/// A `Both` cannot stand in a `Both`, and a `Three` not in a `Three`; one stands in the other, or in a struct with a name of its own.
#[derive(Drop)]
pub struct Three<B, X: Tables<B>, Y: Tables<B>, Z: Tables<B>> {
    pub first: X,
    pub second: Y,
    pub third: Z,
    of: PhantomData<B>,
    ghost even: { length (X.others first).kept ≡ length (Y.others second).kept },
    ghost even_last: { length (Y.others second).kept ≡ length (Z.others third).kept },
    ghost even_ahead: { length (X.others first).ahead ≡ length (Y.others second).ahead },
    ghost even_ahead_last: { length (Y.others second).ahead ≡ length (Z.others third).ahead },
}

impl<B, X: Tables<B>, Y: Tables<B>, Z: Tables<B>> Three<B, X, Y, Z> {
    /// The three, which keep as many states, and have as many ahead.
    pub fn new(first: X, second: Y, third: Z) -> Three<B, X, Y, Z>
        requires even { length (X.others first).kept ≡ length (Y.others second).kept }
        requires even_last { length (Y.others second).kept ≡ length (Z.others third).kept }
        requires even_ahead { length (X.others first).ahead ≡ length (Y.others second).ahead }
        requires even_ahead_last { length (Y.others second).ahead ≡ length (Z.others third).ahead }
        ensures first { result.first ≡ first }
        ensures second { result.second ≡ second }
        ensures third { result.third ≡ third }
    {
        Three {
            first,
            second,
            third,
            of: PhantomData,
        }
    }
}

impl<B, X: Tables<B>, Y: Tables<B>, Z: Tables<B>> Tables<B> for Three<B, X, Y, Z> {
    ghost Now = { X.Now × (Y.Now × Z.Now) };

    ghost Names = { X.Names × (Y.Names × Z.Names) };

    ghost now = { λ t. (X.now t.first, (Y.now t.second, Z.now t.third)) };

    ghost count = { λ t. X.count t.first + (Y.count t.second + Z.count t.third) };

    ghost others = { λ t. zip_others (X.others t.first) (zip_others (Y.others t.second) (Z.others t.third)) };

    ghost spare = { λ t. min (X.spare t.first) (min (Y.spare t.second) (Z.spare t.third)) };

    ghost names = { λ t. (X.names t.first, (Y.names t.second, Z.names t.third)) };

    ghost is = { λ m n c. X.is m.0 n.0 c × Y.is m.1.0 n.1.0 c × Z.is m.1.1 n.1.1 c };

    ghost at = { λ t c. X.at t.first c × Y.at t.second c × Z.at t.third c };

    #[tactic(auto, using(crate::specs::Others::length_zip))]
    fn depth(&self) -> usize {
        self.first.depth()
    }

    #[tactic(auto, using(crate::specs::Others::same_others))]
    fn mark(&mut self) -> Result<(), NoMemory> {
        self.first.mark()?;
        match self.second.mark() {
            Ok(()) => match self.third.mark() {
                Ok(()) => Ok(()),
                Err(error) => {
                    self.first.unmark();
                    self.second.unmark();
                    Err(error)
                }
            },
            Err(error) => {
                self.first.unmark();
                Err(error)
            }
        }
    }

    #[tactic(auto, using(crate::specs::Others::length_zip))]
    fn unmark(&mut self) {
        self.first.unmark();
        self.second.unmark();
        self.third.unmark();
    }

    #[tactic(auto, using(crate::specs::Others::length_zip))]
    fn reserve(&mut self, k: usize) -> Result<(), NoMemory> {
        self.first.reserve(k)?;
        self.second.reserve(k)?;
        self.third.reserve(k)?;
        Ok(())
    }

    #[tactic(auto, using(crate::specs::Others::length_zip))]
    fn back<L: StepBook>(&mut self, steps: &mut Steps<L>) {
        self.first.back(steps);
        self.second.back(steps);
        self.third.back(steps);
    }

    #[tactic(auto, using(crate::specs::Others::length_zip))]
    fn hold<L: StepBook>(&mut self, steps: &mut Steps<L>) {
        self.first.hold(steps);
        self.second.hold(steps);
        self.third.hold(steps);
    }

    #[tactic(auto, using(crate::specs::Others::length_zip))]
    fn again<L: StepBook>(&mut self, steps: &mut Steps<L>) {
        self.first.again(steps);
        self.second.again(steps);
        self.third.again(steps);
    }

    #[tactic(auto, using(crate::specs::Others::length_zip, crate::specs::Others::but_last_zip, crate::specs::Others::length_but_last))]
    fn drop_oldest(&mut self) {
        self.first.drop_oldest();
        self.second.drop_oldest();
        self.third.drop_oldest();
    }

    fn drop_ahead(&mut self) {
        self.first.drop_ahead();
        self.second.drop_ahead();
        self.third.drop_ahead();
    }

    ghost is_at = { λ t c is. (X.is_at t.first c is.0, Y.is_at t.second c is.1, Z.is_at t.third c is.2) };

    ghost at_is = { λ t c is. (X.at_is t.first c is.0, Y.at_is t.second c is.1, Z.at_is t.third c is.2) };
}
