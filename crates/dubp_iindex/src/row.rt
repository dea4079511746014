use dubp_atoms::{Sig, Stamp, Uid};
use std::marker::Model;

/// What the index has for a key with an identity.
#[derive(Clone, Copy, Debug, PartialEq, Eq)]
pub struct IdentityRow {
    pub uid: Uid,
    /// Of the block that the identity was made on.
    pub stamp: Stamp,
    pub sig: Sig,
    /// The number of the block with its line.
    pub written: u64,
    pub member: bool,
}

/// How many identities there are, and how many of them are members.
#[derive(Clone, Copy, Debug, PartialEq, Eq)]
pub struct Counts {
    pub identities: u64,
    pub members: u64,
}

/// The rows that stand after a block. A chain of these tells what each kept state of the index is; no value of it is made.
#[derive(Drop)]
pub struct IdentityRows {
    nothing: (),
}

impl Model for IdentityRows {
    ghost use Rattle.std.specs.FinMap as map;
    ghost use Rattle.std.specs.Coded.{codes, coded_list, coded_ℕ};
    ghost use Rattle.std.specs.Ordering.{nat_cmp};
    ghost use Rattle.std.specs.Cmp.Lexicographic.{slice_cmp};
    ghost use Rattle.dubp_iindex.specs.declared.row.IdentityRow.{IdentityRow};
    ghost use Rattle.dubp_iindex.specs.contracts.row.IdentityRow as row;

    ghost Value = { map.FinMap (slice_cmp nat_cmp) IdentityRow };

    ghost coded = { map.code (coded_list coded_ℕ) row.the_row.coded };

    ghost view = { λ s. map.empty };
}
