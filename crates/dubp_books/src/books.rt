ghost use Rattle.std.specs.Prelude.{◌≡◌, List, []};

use dubp_atoms::{NoMemory, Secret, Steps};
use dubp_block::Block;
use dubp_money_rules::Money;
use dubp_moving::{Both, Tables};
use dubp_people::People;
use std::alloc::Global;
use std::marker::PhantomData;
use std::sync::ledger::Ledger as StepBook;

pub(crate) type PeopleAndMoney = Both<Block, People, Money>;

/// The people and the money of a chain, where `R` are the rules on people that a block is judged by.
#[derive(Drop)]
pub struct Books<R> {
    pub(crate) tables: PeopleAndMoney,
    rules: PhantomData<R>,
}

impl<R> Tables<Block> for Books<R> {
    ghost Now = { ⟦<PeopleAndMoney as Tables<Block>>⟧.Now };

    ghost Names = { ⟦<PeopleAndMoney as Tables<Block>>⟧.Names };

    ghost now = { λ t. ⟦<PeopleAndMoney as Tables<Block>>⟧.now t.tables };

    ghost count = { λ t. ⟦<PeopleAndMoney as Tables<Block>>⟧.count t.tables };

    ghost others = { λ t. ⟦<PeopleAndMoney as Tables<Block>>⟧.others t.tables };

    ghost spare = { λ t. ⟦<PeopleAndMoney as Tables<Block>>⟧.spare t.tables };

    ghost names = { λ t. ⟦<PeopleAndMoney as Tables<Block>>⟧.names t.tables };

    ghost is = { ⟦<PeopleAndMoney as Tables<Block>>⟧.is };

    ghost at = { λ t c. ⟦<PeopleAndMoney as Tables<Block>>⟧.at t.tables c };

    fn depth(&self) -> usize {
        self.tables.depth()
    }

    fn mark(&mut self) -> Result<(), NoMemory> {
        match self.tables.mark() {
            Ok(()) => Ok(()),
            Err(error) => Err(error),
        }
    }

    fn unmark(&mut self) {
        self.tables.unmark();
    }

    fn reserve(&mut self, k: usize) -> Result<(), NoMemory> {
        self.tables.reserve(k)?;
        Ok(())
    }

    fn hold<L: StepBook>(&mut self, steps: &mut Steps<L>) {
        self.tables.hold(steps);
    }

    fn back<L: StepBook>(&mut self, steps: &mut Steps<L>) {
        self.tables.back(steps);
    }

    fn again<L: StepBook>(&mut self, steps: &mut Steps<L>) {
        self.tables.again(steps);
    }

    fn drop_oldest(&mut self) {
        self.tables.drop_oldest();
    }

    fn drop_ahead(&mut self) {
        self.tables.drop_ahead();
    }

    ghost is_at = { λ t c is. is };

    ghost at_is = { λ t c is. is };
}

impl<R> Books<R> {
    /// Those of the empty chain. It takes no memory.
    pub fn new(alloc: Global) -> Books<R>
        ensures at { ⟦<Books<R> as Tables<Block>>⟧.at result [] }
        ensures count { ⟦<Books<R> as Tables<Block>>⟧.count result ≡ 0 }
        ensures kept { (⟦<Books<R> as Tables<Block>>⟧.others result).kept ≡ [] }
        ensures ahead { (⟦<Books<R> as Tables<Block>>⟧.others result).ahead ≡ [] }
    {
        Books::with_secret(alloc, Secret::known())
    }

    /// Those of the empty chain. What strangers choose is hashed by the secret. It takes no memory.
    pub fn with_secret(alloc: Global, secret: Secret) -> Books<R>
        ensures at { ⟦<Books<R> as Tables<Block>>⟧.at result [] }
        ensures count { ⟦<Books<R> as Tables<Block>>⟧.count result ≡ 0 }
        ensures kept { (⟦<Books<R> as Tables<Block>>⟧.others result).kept ≡ [] }
        ensures ahead { (⟦<Books<R> as Tables<Block>>⟧.others result).ahead ≡ [] }
    {
        Books {
            tables: Both::new(
                People::with_secret(alloc, secret),
                Money::with_secret(alloc, secret),
            ),
            rules: PhantomData,
        }
    }
}
