ghost use Rattle.std.specs.Prelude.{◌≡◌, All, IfOk, List, map, ℕ};
ghost use Rattle.dubp_atoms.specs.Hashing.{hash_of};
ghost use Rattle.dubp_cond.specs.Transactions.{IsTx};
ghost use Rattle.dubp_docs.specs.Fields.{identity_of, revocation_of, certification_of, membership_of};
ghost use Rattle.dubp_docs.specs.Hashes.{hashes_of};
ghost use Rattle.dubp_docs.specs.Spelling.{signed_text, signed_tx, tx_hash as hash_of_tx};
ghost use Rattle.dubp_docs.specs.declared.doc.Doc.TheVariants.{Identity, Revocation, Certification, Membership};

use crate::signing::{
    add_certification, add_identity, add_membership, add_revocation, add_signatures,
    add_transaction,
};
use dubp_atoms::{Currency, Hash, Hashing, Key, NoMemory, Sig, Stamp, Uid};
use dubp_cond::Tx;
use std::alloc::Global;

/// The SHA-256 of the signed text of an identity. It takes no memory.
pub fn identity_hash(currency: &Currency, issuer: &Key, uid: &Uid, timestamp: &Stamp) -> Hash
    ensures { (sig : List ℕ) → result ≡ hash_of (signed_text (Identity (identity_of currency.now issuer.now uid.now timestamp.now sig))) }
{
    let mut hashing = Hashing::new();
    let Ok(()) = add_identity(&mut hashing, currency, issuer, uid, timestamp);
    hashing.hash()
}

/// The SHA-256 of the signed text of a membership, which asks to be a member, or to be none any more. It takes no memory.
pub fn membership_hash(
    currency: &Currency,
    issuer: &Key,
    block: &Stamp,
    membership: bool,
    user_id: &Uid,
    cert_ts: &Stamp,
) -> Hash
    ensures { (sig : List ℕ) → result ≡ hash_of (signed_text (Membership (membership_of currency.now issuer.now block.now membership user_id.now cert_ts.now sig))) }
{
    let mut hashing = Hashing::new();
    let Ok(()) = add_membership(
        &mut hashing,
        currency,
        issuer,
        block,
        membership,
        user_id,
        cert_ts,
    );
    hashing.hash()
}

/// The SHA-256 of the signed text of a revocation. It takes no memory.
pub fn revocation_hash(
    currency: &Currency,
    issuer: &Key,
    uid: &Uid,
    timestamp: &Stamp,
    idty_signature: &Sig,
) -> Hash
    ensures { (sig : List ℕ) → result ≡ hash_of (signed_text (Revocation (revocation_of currency.now issuer.now uid.now timestamp.now idty_signature.now sig))) }
{
    let mut hashing = Hashing::new();
    let Ok(()) = add_revocation(
        &mut hashing,
        currency,
        issuer,
        uid,
        timestamp,
        idty_signature,
    );
    hashing.hash()
}

/// The SHA-256 of the signed text of a certification. It takes no memory.
pub fn certification_hash(
    currency: &Currency,
    issuer: &Key,
    idty_issuer: &Key,
    uid: &Uid,
    idty_timestamp: &Stamp,
    idty_signature: &Sig,
    cert_timestamp: &Stamp,
) -> Hash
    ensures { (sig : List ℕ) → result ≡ hash_of (signed_text (Certification (certification_of currency.now issuer.now idty_issuer.now uid.now idty_timestamp.now idty_signature.now cert_timestamp.now sig))) }
{
    let mut hashing = Hashing::new();
    let Ok(()) = add_certification(
        &mut hashing,
        currency,
        issuer,
        idty_issuer,
        uid,
        idty_timestamp,
        idty_signature,
        cert_timestamp,
    );
    hashing.hash()
}

/// The two hashes of a transaction.
#[derive(Clone, Copy, Debug, PartialEq, Eq)]
pub struct TxHashes {
    /// The SHA-256 of the signed text, which ends before the first signature.
    pub signed: Hash,
    /// The SHA-256 of the whole text, by which the transaction is named.
    pub whole: Hash,
}

/// Both hashes of a transaction of this currency, in one pass. The transaction is in range. It takes no memory.
pub fn tx_hashes(currency: &Currency, tx: &Tx) -> TxHashes
    requires { IsTx tx.now }
    ensures signed { result.signed ≡ hash_of (signed_tx currency.now tx.now) }
    ensures whole { result.whole ≡ hash_of_tx currency.now tx.now }
{
    let mut hashing = Hashing::new();
    let Ok(()) = add_transaction(&mut hashing, currency, tx);
    let signed = hashing.copy().hash();
    let Ok(()) = add_signatures(&mut hashing, &tx.sigs);
    TxHashes {
        signed,
        whole: hashing.hash(),
    }
}

/// The hash of a transaction of this currency: the SHA-256 of its whole text. The transaction is in range. It takes no memory,
/// and never fails.
pub fn tx_hash(_alloc: Global, currency: &Currency, tx: &Tx) -> Result<Hash, NoMemory>
    requires { IsTx tx.now }
    ensures { result ≡ Ok (hash_of_tx currency.now tx.now) }
{
    Ok(tx_hashes(currency, tx).whole)
}

/// Both hashes of each of these transactions of this currency, in order. The transactions are in range.
///
/// `NoMemory` where there is no room for the list.
pub fn all_tx_hashes(
    alloc: Global,
    currency: &Currency,
    txs: &[Tx],
) -> Result<Vec<TxHashes>, NoMemory>
    requires { All IsTx txs.now }
    ensures { IfOk result (λ hashes. hashes.items ≡ map (hashes_of currency.now) txs.now) }
{
    let mut hashes = Vec::new(alloc);
    for tx in txs {
        let both = tx_hashes(currency, tx);
        hashes.push(both).map_err(|_| NoMemory)?;
    }
    Ok(hashes)
}
