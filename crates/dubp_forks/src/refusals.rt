use dubp_atoms::Stamp;
use dubp_rules::Rule;

/// Why a block was not stored.
#[derive(Clone, Copy, Debug, PartialEq, Eq)]
pub enum OfferRefusal {
    /// The bytes are no block; the line that is refused, from 1.
    Unread { line: u64 },
    /// The first of the rules before `G51` that the block breaks.
    Local(Rule),
    /// A block of this stamp, which is that of the block, is stored or in the chain.
    Known(Stamp),
    /// So many blocks are stored, and no more can be.
    Full { held: usize },
    /// There was no room to read, to check or to keep the block.
    NoMemory,
}

/// Why a branch did not take the place of the chain's last blocks. The ledger and the store are as before.
#[derive(Clone, Copy, Debug, PartialEq, Eq)]
pub enum SwitchRefusal {
    /// No stored block has the stamp.
    Unknown,
    /// The branch ends at this stamp, which is neither stored nor in the chain.
    Detached { at: Stamp },
    /// More blocks would be reversed than so many, which can be.
    TooDeep { kept: usize },
    /// So many blocks would be stored behind the switch, more than can be.
    Full { held: usize },
    /// The lowest block of the branch that breaks a rule, by its stamp, and the first rule that it breaks.
    Refused { at: Stamp, rule: Rule },
    /// There was no room.
    NoMemory,
}
