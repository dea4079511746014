use crate::books::Books;
use dubp_atoms::{Key, Line, NoMemory, Secret, Uid};
use dubp_block::Block;
use dubp_chain::Head;
use dubp_cond::CondText;
use dubp_kept::LeftBehind;
use dubp_people_after::RulesOnPeople;
use dubp_people_and_money::{First, PeopleAndMoney, SourceView};
use dubp_people_views::kicked;
use dubp_rows::put_records;
use dubp_table_answers::{
    certs_text, first_source, put_balance_line, put_distance_line, put_identity_line,
    put_money_line, put_uid_line, sources_text,
};
use dubp_validity::Record;
use std::alloc::Global;

impl<R: RulesOnPeople> PeopleAndMoney for Books<R> {
    fn empty(alloc: Global, secret: Secret) -> Books<R> {
        Books::with_secret(alloc, secret)
    }

    fn secret(&self) -> Secret {
        self.tables.first.secret()
    }

    fn first(&self) -> Option<First> {
        self.tables.first.first()
    }

    fn kicked(&self, alloc: Global) -> Result<Vec<Key>, NoMemory> {
        let keys = kicked(alloc, &self.tables.first)?;
        Ok(keys)
    }

    fn put_records(
        &self,
        alloc: Global,
        block: &Block,
        head: &Head,
        left: &LeftBehind,
        out: &mut Vec<Record>,
    ) -> Result<(), NoMemory> {
        let facts = self.tables.first.facts();
        put_records(alloc, block, head, facts, left, out)?;
        Ok(())
    }

    fn put_money(&self, line: &mut Line) {
        put_money_line(&self.tables.second, line);
    }

    fn put_balance(&self, cond: &CondText, line: &mut Line) {
        put_balance_line(&self.tables.second, cond, line);
    }

    fn put_identity(&self, key: Key, line: &mut Line) {
        put_identity_line(&self.tables.first, key, line);
    }

    fn put_uid(&self, uid: Uid, line: &mut Line) {
        put_uid_line(&self.tables.first, uid, line);
    }

    fn put_distance(&self, alloc: Global, key: Key, line: &mut Line) -> Result<(), NoMemory> {
        put_distance_line(alloc, &self.tables.first, key, line)
    }

    fn certs(&self, alloc: Global, key: Key) -> Result<Vec<u8>, NoMemory> {
        certs_text(alloc, &self.tables.first, key)
    }

    fn sources(&self, alloc: Global, cond: &CondText) -> Result<Vec<u8>, NoMemory> {
        sources_text(alloc, &self.tables.second, cond)
    }

    fn first_source(&self, cond: &CondText) -> Option<SourceView> {
        first_source(&self.tables.second, cond)
    }
}
