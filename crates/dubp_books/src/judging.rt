use crate::books::Books;
use dubp_atoms::{Key, NoMemory};
use dubp_block::Block;
use dubp_chain::Head;
use dubp_docs::TxHashes;
use dubp_kept::Judges;
use dubp_money_rules::first_broken_of_money;
use dubp_moving::Tables;
use dubp_params::Params;
use dubp_people::Next;
use dubp_people_after::RulesOnPeople;
use dubp_people_views::members_with;
use dubp_rules::Rule;
use dubp_verdict::Verdicts;
use std::alloc::Global;

impl<R: RulesOnPeople> Judges for Books<R> {
    fn is_member(&self, key: Key) -> bool {
        self.tables.first.is_member(key)
    }

    fn members_with(&self, alloc: Global, block: &Block) -> Result<u64, NoMemory> {
        let count = members_with(alloc, &self.tables.first, block)?;
        Ok(count)
    }

    fn first_broken(
        &self,
        alloc: Global,
        block: &Block,
        head: &Head,
        params: &Params,
        hashes: &[TxHashes],
        verdicts: &Verdicts,
    ) -> Result<Option<Rule>, NoMemory> {
        let people = &self.tables.first;
        if let Some(rule) = R::people_rules(alloc, people, head, block, verdicts)? {
            return Ok(Some(rule));
        }
        let next = Next {
            params: *params,
            time: head.median_time,
        };
        let found = first_broken_of_money(alloc, &self.tables.second, head, &next, block, hashes)?;
        Ok(found)
    }
}
