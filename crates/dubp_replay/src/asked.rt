ghost use Rattle.std.specs.Prelude.{◌≡◌};
ghost use Rattle.dubp_replay.specs.OneLine.{IsShort, query_of};

use crate::query::{Query, filled};
use dubp_atoms::{Key, Uid};

/// A query that is answered in one line, small: the text of a condition is left where it lies. Protocol: commands and answers.
///
/// Contracts see the query that it stands for. The text of a condition has at most 1,000 bytes.
#[derive(Clone, Copy, Debug)]
pub enum Asked<'a> {
    /// The values of the chain at its last block.
    Head,
    /// How much money was issued, is unspent, and was cleared.
    Money,
    /// What the chain says of a key with an identity.
    Identity { key: Key },
    /// The same of the key that has this name.
    Uid { uid: Uid },
    /// The units that the condition of this text has.
    Balance { cond: &'a [u8] },
    /// From how many sentries a key is in reach.
    Distance { key: Key },
    /// The difficulty that a member would have for the next block.
    Diff { key: Key },
}

impl<'a> Asked<'a> {
    /// The query that it stands for. It takes no memory.
    pub fn query(&self) -> Query
        requires { IsShort self.now }
        ensures { result ≡ query_of self.now }
    {
        match self {
            Asked::Head => Query::Head,
            Asked::Money => Query::Money,
            Asked::Identity { key } => Query::Identity { key: *key },
            Asked::Uid { uid } => Query::Uid { uid: *uid },
            Asked::Balance { cond } => Query::Balance { cond: filled(cond) },
            Asked::Distance { key } => Query::Distance { key: *key },
            Asked::Diff { key } => Query::Diff { key: *key },
        }
    }
}
