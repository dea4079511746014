use dubp_atoms::{Currency, Key, Sig, Stamp, Uid};
use dubp_cond::Tx;

/// A document of a currency.
#[derive(Debug, Drop)]
pub enum Doc {
    Identity(IdentityDoc),
    Revocation(RevocationDoc),
    Certification(CertificationDoc),
    Membership(MembershipDoc),
    Transaction(TxDoc),
}

/// A key takes a name.
#[derive(Clone, Copy, Debug, PartialEq, Eq)]
pub struct IdentityDoc {
    pub currency: Currency,
    pub issuer: Key,
    pub unique_id: Uid,
    /// The block that the document was made on.
    pub timestamp: Stamp,
    pub sig: Sig,
}

/// A key ends its identity.
#[derive(Clone, Copy, Debug, PartialEq, Eq)]
pub struct RevocationDoc {
    pub currency: Currency,
    pub issuer: Key,
    pub idty_unique_id: Uid,
    pub idty_timestamp: Stamp,
    pub idty_signature: Sig,
    pub sig: Sig,
}

/// A key certifies an identity.
#[derive(Clone, Copy, Debug, PartialEq, Eq)]
pub struct CertificationDoc {
    pub currency: Currency,
    pub issuer: Key,
    /// Whose identity is certified.
    pub idty_issuer: Key,
    pub idty_unique_id: Uid,
    pub idty_timestamp: Stamp,
    pub idty_signature: Sig,
    /// The block that the certification was made on.
    pub cert_timestamp: Stamp,
    pub sig: Sig,
}

/// A key asks to be a member, or to be none any more.
#[derive(Clone, Copy, Debug, PartialEq, Eq)]
pub struct MembershipDoc {
    pub currency: Currency,
    pub issuer: Key,
    /// The block that the document was made on.
    pub block: Stamp,
    /// True for `IN`, false for `OUT`.
    pub membership: bool,
    pub user_id: Uid,
    /// The stamp of the key's identity.
    pub cert_ts: Stamp,
    pub sig: Sig,
}

/// A transaction with the currency that it moves.
#[derive(Debug, Drop)]
pub struct TxDoc {
    pub currency: Currency,
    pub tx: Tx,
}
