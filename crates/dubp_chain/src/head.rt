use dubp_time::{Hash, Key, Stamp};

/// The values of a chain at its last block.
///
/// Times are in seconds. The dividend and the mass are in units of 10^`unit_base`.
#[derive(Clone, Copy, Debug, PartialEq, Eq)]
pub struct Head {
    pub version: u64,
    pub number: u64,
    pub hash: Hash,
    pub issuer: Key,
    pub time: u64,
    pub median_time: u64,
    /// Over how many blocks the issuers are counted.
    pub frame: u64,
    /// By how much the frame is about to change.
    pub frame_var: i64,
    /// How many issuers the frame has.
    pub issuers: u64,
    /// The least difficulty.
    pub pow_min: u64,
    /// The number of the block at which the least difficulty is evaluated next.
    pub diff_number: u64,
    pub members: u64,
    pub dividend: u64,
    pub unit_base: u8,
    /// All money that was issued.
    pub mass: u128,
    /// The mass at the last re-evaluation of the dividend.
    pub mass_reeval: u128,
    /// The time of the next dividend.
    pub ud_time: u64,
    /// The time of the next re-evaluation.
    pub ud_reeval_time: u64,
    /// The new dividend, where the block has one.
    pub ud: Option<u64>,
    /// How many lines the block's sections have, those of Excluded aside.
    pub size: u64,
}

impl Head {
    ghost use Rattle.std.specs.Prelude.{◌≡◌};
    ghost use Rattle.dubp_chain.specs.HeadStamp.{head_stamp};

    /// The stamp of the block.
    pub fn stamp(&self) -> Stamp
        ensures { result ≡ head_stamp self.now }
    {
        Stamp {
            number: self.number,
            hash: self.hash,
        }
    }
}
