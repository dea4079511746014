ghost use Rattle.std.specs.Prelude.{◌≡◌, IfOk};
ghost use Rattle.dubp_chain.specs.Chains.{Chain};
ghost use Rattle.dubp_validity.specs.Rules.{IsSound};
ghost use Rattle.dubp_books.specs.Paid.{paid_keys};

use crate::books::Books;
use crate::leaving::{left_of, names_of};
use dubp_atoms::{Key, NoMemory, Steps};
use dubp_block::Block;
use dubp_chain::Head;
use dubp_docs::TxHashes;
use dubp_kept::{LeftBehind, Written};
use dubp_moving::Tables;
use dubp_people::{People, write_block};
use dubp_people_views::member_keys;
use std::alloc::Global;
use std::sync::ledger::Ledger as StepBook;

impl<R> Written for Books<R> {
    fn write<L: StepBook>(
        &mut self,
        alloc: Global,
        block: &Block,
        head: &Head,
        hashes: &[TxHashes],
        steps: &mut Steps<L>,
    ) -> Result<LeftBehind, NoMemory> {
        let names = names_of(alloc, hashes)?;
        let tables = &mut self.tables;
        let ended = write_block(alloc, &mut tables.first, block, head, steps)?;
        let members = paid_members(alloc, &tables.first, head)?;
        let cleared = tables
            .second
            .write(alloc, block, head, members.as_slice(), hashes, steps)?;
        Ok(left_of(ended, members, cleared, names))
    }
}

/// The members, where the head has a dividend, which is paid to them; else none, and none are looked up.
fn paid_members(alloc: Global, people: &People, head: &Head) -> Result<Vec<Key>, NoMemory>
    ensures { IfOk result (λ keys. (c : Chain) → ⟦<People as Tables<Block>>⟧.at people.now c → IsSound c → keys.items ≡ paid_keys c head.now) }
{
    match head.ud {
        Some(_) => member_keys(alloc, people),
        None => Ok(Vec::new(alloc)),
    }
}
