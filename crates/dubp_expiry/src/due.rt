use dubp_atoms::Key;

/// What falls due by itself at some time.
///
/// Two are ordered by variant, as they stand here, and then by their keys (`specs/DueOrder.antt`).
#[derive(Clone, Copy, Debug, PartialEq, Eq, PartialOrd, Ord)]
pub enum Due {
    /// The membership of the key ends.
    Membership(Key),
    /// The membership of the key is revoked, because it has ended for long.
    Revocation(Key),
    /// The certification from the first key to the second ends.
    Certification(Key, Key),
}

/// Where in the queue a search begins.
#[derive(Clone, Copy, Debug, PartialEq, Eq)]
pub enum Behind {
    /// Behind each entry of this time and of earlier ones, in seconds.
    Time(u64),
    /// Behind this entry, whether it is in the queue or not.
    Entry(u64, Due),
}
