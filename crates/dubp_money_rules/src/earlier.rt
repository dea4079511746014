//! The transactions of the chain whose money is at hand.
ghost use Rattle.std.specs.Prelude.{◌≡◌};
ghost use Rattle.dubp_chain.specs.Chains.{Chain};
ghost use Rattle.dubp_chain.specs.Tables.{has_transaction};

use crate::{Money, Transactions};
use dubp_atoms::Hash;
use dubp_block::Block;
use dubp_moving::Tables;

/// The transactions of the chain of this money.
#[derive(Clone, Copy)]
pub(crate) struct Earlier<'a> {
    pub(crate) money: &'a Money,
}

impl<'a> Transactions for Earlier<'a> {
    ghost of = { λ earlier c. ⟦<Money as Tables<Block>>⟧.at earlier.money.now c };

    fn has_transaction(&self, hash: Hash) -> bool {
        self.money.has_transaction(hash)
    }
}
