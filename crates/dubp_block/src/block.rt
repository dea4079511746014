ghost use Rattle.std.specs.Prelude.{◌≡◌, option_copied};

use dubp_atoms::{Currency, Hash, Items, Key, Sig, Stamp, Uid};
use dubp_cond::Tx;
use dubp_params::{BoxedParams, Params};

/// A block of the chain, with the fields of its text in their order.
///
/// Numbers are below 2^53, times are in seconds. Contracts see the record of the fields, and each section as a list.
#[derive(Debug, Drop)]
pub struct Block {
    /// 10 or 11.
    pub version: u64,
    pub currency: Currency,
    pub number: u64,
    /// The least difficulty that the block states.
    pub pow_min: u64,
    pub time: u64,
    pub median_time: u64,
    /// The new dividend, where the block has one.
    pub dividend: Option<u64>,
    /// The power of ten of the unit in which the dividend counts: at most 15.
    pub unit_base: u64,
    pub issuer: Key,
    pub frame: u64,
    pub frame_var: i64,
    /// How many issuers the frame has.
    pub issuers: u64,
    /// The hash and the issuer of the block before: exactly where the number is not 0.
    pub previous: Option<(Hash, Key)>,
    /// The parameters of the currency: exactly where the number is 0.
    pub params: Option<BoxedParams>,
    pub members: u64,
    pub identities: Items<IdentityLine>,
    pub joiners: Items<MemberLine>,
    pub actives: Items<MemberLine>,
    pub leavers: Items<MemberLine>,
    pub revoked: Items<RevokedLine>,
    pub excluded: Items<Key>,
    pub certifications: Items<CertLine>,
    pub transactions: Items<Tx>,
    pub inner_hash: Hash,
    pub nonce: u64,
    pub sig: Sig,
}

impl Block {
    /// The parameters that the block states, where it states some.
    pub fn stated_params(&self) -> Option<&Params>
        ensures { option_copied result ≡ self.now.params }
    {
        match &self.params {
            Some(params) => Some(params.get()),
            None => None,
        }
    }
}

/// A line of Identities: a key takes this name.
#[derive(Clone, Copy, Debug, PartialEq, Eq)]
pub struct IdentityLine {
    pub key: Key,
    pub sig: Sig,
    pub stamp: Stamp,
    pub uid: Uid,
}

/// A line of Joiners, Actives or Leavers.
#[derive(Clone, Copy, Debug, PartialEq, Eq)]
pub struct MemberLine {
    pub key: Key,
    pub sig: Sig,
    /// The block that the membership document was made on.
    pub stamp: Stamp,
    /// The stamp of the key's identity.
    pub identity_stamp: Stamp,
    pub uid: Uid,
}

/// A line of Revoked: an identity ends.
#[derive(Clone, Copy, Debug, PartialEq, Eq)]
pub struct RevokedLine {
    pub key: Key,
    pub sig: Sig,
}

/// A line of Certifications: one key certifies another.
#[derive(Clone, Copy, Debug, PartialEq, Eq)]
pub struct CertLine {
    pub from: Key,
    pub to: Key,
    /// The number of the block that the certification was made on.
    pub number: u64,
    pub sig: Sig,
}
