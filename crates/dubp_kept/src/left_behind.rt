use dubp_atoms::{Hash, Items, Key};
use dubp_head::Record;

/// What a block leaves behind that its lines do not tell, or tell only to who hashes them. With its fields and its head, its records are
/// put together from it. Protocol: records.
#[derive(Debug, Drop)]
pub struct LeftBehind {
    /// What ended with it, as records: memberships that expired, keys revoked by time, certifications that came to their end.
    pub ended: Items<Record>,
    /// Who was paid a dividend, by key.
    pub paid: Items<Key>,
    /// The sources that were cleared, as records, in the order of making.
    pub cleared: Items<Record>,
    /// The hashes by which its transactions are named, in order.
    pub transactions: Items<Hash>,
}
