ghost use Rattle.std.specs.Prelude.{◌≡◌, ◌∷◌, List};
ghost use Rattle.dubp_moving.specs.States.{states};

use crate::moving::Tables;
use dubp_costs::{NoMemory, Steps};
use std::marker::PhantomData;
use std::sync::ledger::Ledger as StepBook;

/// Which state `S` a chain of blocks `B` leaves.
pub trait StateOf<B, S> {
    ghost after: { List B → S };
}

/// Tables of a chain of states `S`, as tables of a chain of blocks `B` that leave these states.
#[derive(Drop)]
pub struct Along<B, S, T: Tables<S>, D: StateOf<B, S>> {
    pub tables: T,
    of: PhantomData<(B, S, D)>,
}

impl<B, S, T: Tables<S>, D: StateOf<B, S>> Along<B, S, T, D> {
    /// The same tables.
    pub fn new(tables: T) -> Along<B, S, T, D>
        ensures tables { result.tables ≡ tables }
    {
        Along {
            tables,
            of: PhantomData,
        }
    }
}

impl<B, S, T: Tables<S>, D: StateOf<B, S>> Tables<B> for Along<B, S, T, D> {
    ghost Now = { T.Now };

    ghost Names = { T.Names };

    ghost now = { λ t. T.now t.tables };

    ghost count = { λ t. T.count t.tables };

    ghost others = { λ t. T.others t.tables };

    ghost spare = { λ t. T.spare t.tables };

    ghost names = { λ t. T.names t.tables };

    ghost is = { λ m n c. T.is m n (states D.after c) };

    ghost at = { λ t c. T.at t.tables (states D.after c) };

    fn depth(&self) -> usize {
        self.tables.depth()
    }

    fn mark(&mut self) -> Result<(), NoMemory> {
        self.tables.mark()
    }

    fn unmark(&mut self) {
        self.tables.unmark();
    }

    fn reserve(&mut self, k: usize) -> Result<(), NoMemory> {
        self.tables.reserve(k)
    }

    fn back<L: StepBook>(&mut self, steps: &mut Steps<L>) {
        self.tables.back(steps);
    }

    fn hold<L: StepBook>(&mut self, steps: &mut Steps<L>) {
        self.tables.hold(steps);
    }

    fn again<L: StepBook>(&mut self, steps: &mut Steps<L>) {
        self.tables.again(steps);
    }

    fn drop_oldest(&mut self) {
        self.tables.drop_oldest();
    }

    fn drop_ahead(&mut self) {
        self.tables.drop_ahead();
    }

    ghost is_at = { λ t c is. T.is_at t.tables (states D.after c) is };

    ghost at_is = { λ t c is. T.at_is t.tables (states D.after c) is };
}
