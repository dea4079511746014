ghost use Rattle.dubp_iindex.specs.Rows.{row_at, key_at, member_at, counts_at};

use crate::row::{Counts, IdentityRow, IdentityRows};
use dubp_atoms::{Key, Secret, Uid};
use dubp_finders::ByHash;
use dubp_undo::{Both, Definition, Found, Leaf, NoSummary, Three};

/// The row of each key.
pub struct RowsOf;

impl Definition<IdentityRows, Key, IdentityRow> for RowsOf {
    ghost at = { row_at };
}

/// The key of each uid.
pub struct UidsOf;

impl Definition<IdentityRows, Uid, Key> for UidsOf {
    ghost at = { key_at };
}

/// The keys of the members.
pub struct MembersOf;

impl Definition<IdentityRows, Key, ()> for MembersOf {
    ghost at = { member_at };
}

/// How many identities and members there are, under one key; nothing where there are none.
pub struct CountsOf;

impl Definition<IdentityRows, (), Counts> for CountsOf {
    ghost at = { counts_at };
}

type RowTable = Leaf<IdentityRows, Key, IdentityRow, RowsOf>;

type UidTable = Found<IdentityRows, Uid, Key, UidsOf, ByHash<Uid, Secret>, NoSummary>;

type MemberTable = Leaf<IdentityRows, Key, (), MembersOf>;

type CountTable = Leaf<IdentityRows, (), Counts, CountsOf>;

/// The rows, and what is derived from them: the keys of the uids, the members, and the numbers of both.
pub type AllTables = Both<
    IdentityRows,
    RowTable,
    Three<IdentityRows, UidTable, MemberTable, CountTable>,
>;
