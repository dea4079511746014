ghost use Rattle.dubp_cindex.specs.Rows.{rows_along, received_by_along, received_along, issuers_along};

use crate::row::{CertRow, CertRows, IssuerRow};
use crate::sides::ReceivedTables;
use crate::walking::Place;
use dubp_atoms::{Key, Secret};
use dubp_finders::ByHash;
use dubp_undo::{Definition, Found, Leaf, NoSummary, Three};

/// The rows, under the issuer and the receiver.
pub struct Written;

impl Definition<CertRows, Place, CertRow> for Written {
    ghost at = { rows_along };
}

/// The live pairs, the receiver first.
pub struct ReceivedBy;

impl Definition<CertRows, Place, ()> for ReceivedBy {
    ghost at = { received_by_along };
}

/// How many live certifications each key has received.
pub struct Received;

impl Definition<CertRows, Key, u64> for Received {
    ghost at = { received_along };
}

/// What each key has issued.
pub struct Issuers;

impl Definition<CertRows, Key, IssuerRow> for Issuers {
    ghost at = { issuers_along };
}

/// What is counted for each key.
pub type Counted<V, E> = Found<CertRows, Key, V, E, ByHash<Key, Secret>, NoSummary>;

/// All tables of the index.
pub type CertTables = Three<
    CertRows,
    Leaf<CertRows, Place, CertRow, Written>,
    ReceivedTables,
    Counted<IssuerRow, Issuers>,
>;
