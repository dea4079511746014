use std::marker::Model;

/// A certification that is written.
#[derive(Clone, Copy, Debug, PartialEq, Eq)]
pub struct CertRow {
    /// The time that its stamp tells, in seconds.
    pub made: u64,
    /// The number of the block that it is written in.
    pub written: u64,
    /// Whether it has not ended.
    pub live: bool,
}

/// What a key has issued.
#[derive(Clone, Copy, Debug, PartialEq, Eq)]
pub struct IssuerRow {
    /// How many of its certifications live.
    pub stock: u64,
    /// The number of the block in which it last wrote one.
    pub written: u64,
}

/// The rows after a block, under pairs of the issuer and the receiver. No value of it is made.
#[derive(Drop)]
pub struct CertRows {
    nothing: (),
}

impl Model for CertRows {
    ghost use Rattle.std.specs.FinMap as map;
    ghost use Rattle.dubp_cindex.specs.declared.row.CertRow.{CertRow};
    ghost use Rattle.dubp_cindex.specs.Coding.{rows_code};
    ghost use Rattle.dubp_cindex.specs.Orders.{pair_cmp};

    ghost Value = { map.FinMap pair_cmp CertRow };

    ghost coded = { rows_code };

    ghost view = { λ s. map.empty };
}
