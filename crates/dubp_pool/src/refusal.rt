use dubp_atoms::Hash;

/// Why a document does not join those that wait.
#[derive(Clone, Copy, Debug, PartialEq, Eq)]
pub enum PendRefusal {
    /// The bytes are the text of no document.
    Unread,
    /// A document of this text waits already.
    Known(Hash),
    /// So many documents wait, as many as may.
    Full { held: usize },
    /// There is no room for it.
    NoMemory,
}
