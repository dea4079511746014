ghost use Rattle.std.specs.Prelude.{◌≡◌, ◌≤◌, length};

use arrayvec::ArrayVec;
use dubp_atoms::{Key, Uid};
use dubp_cond::CondText;

/// What a query asks of the node. Protocol: commands and answers.
#[derive(Debug, Drop)]
pub enum Query {
    /// The values of the chain at its last block.
    Head,
    /// How much money was issued, is unspent, and was cleared.
    Money,
    /// What the chain says of a key with an identity.
    Identity { key: Key },
    /// The same of the key that has this name.
    Uid { uid: Uid },
    /// The live certifications received and issued.
    Certs { key: Key },
    /// The units that a condition has.
    Balance { cond: CondText },
    /// The unspent sources of a condition.
    Sources { cond: CondText },
    /// From how many sentries a key is in reach.
    Distance { key: Key },
    /// The difficulty that a member would have for the next block.
    Diff { key: Key },
    /// The records of a block.
    Records { number: u64 },
    /// The text of a block.
    Show { number: u64 },
}

/// The text of a condition, of at most 1,000 bytes, as a query keeps it. It takes no memory.
pub fn filled(text: &[u8]) -> CondText
    requires { length text.now ≤ 1000 }
    ensures { result.items ≡ text.now }
{
    let mut cond: CondText = ArrayVec::new();
    let _ = cond.try_extend_from_slice(text);
    cond
}
