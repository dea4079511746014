ghost use Rattle.dubp_cond.specs.Transactions.{IsTx};
ghost use Rattle.dubp_docs.specs.Spelling.{IsDoc};

use dubp_atoms::{Hash, NoMemory};
use dubp_cond::{Tx, copy_tx, holds};
use dubp_docs::{
    Doc, TxDoc, certification_hash, identity_hash, membership_hash, put_doc, read_doc,
    revocation_hash, signed_text, signed_tx, tx_hash, tx_hashes,
};
use std::alloc::Global;
use std::mem::forget;
use std::test::Fail;

const IDENTITY: &[u8] = b"\
    Version: 10\n\
    Type: Identity\n\
    Currency: beta_brousouf\n\
    Issuer: 1111111111111111111111111111111111111111111\n\
    UniqueID: toto\n\
    Timestamp: 0-E3B0C44298FC1C149AFBF4C8996FB92427AE41E4649B934CA495991B7852B855\n\
    AAAAAAAAAAAAAAAAAAAAAAAAAAAAAAAAAAAAAAAAAAAAAAAAAAAAAAAAAAAAAAAAAAAAAAAAAAAAAAAAAAAAAA==\n\
";

const REVOCATION: &[u8] = b"\
    Version: 10\n\
    Type: Revocation\n\
    Currency: beta_brousouf\n\
    Issuer: 1111111111111111111111111111111111111111111\n\
    IdtyUniqueID: toto\n\
    IdtyTimestamp: 0-E3B0C44298FC1C149AFBF4C8996FB92427AE41E4649B934CA495991B7852B855\n\
    IdtySignature: BBBBBBBBBBBBBBBBBBBBBBBBBBBBBBBBBBBBBBBBBBBBBBBBBBBBBBBBBBBBBBBBBBBBBBBBBBBBBBBBBBBBBB==\n\
    AAAAAAAAAAAAAAAAAAAAAAAAAAAAAAAAAAAAAAAAAAAAAAAAAAAAAAAAAAAAAAAAAAAAAAAAAAAAAAAAAAAAAA==\n\
";

const CERTIFICATION: &[u8] = b"\
    Version: 10\n\
    Type: Certification\n\
    Currency: beta_brousouf\n\
    Issuer: 1111111111111111111111111111111111111111112\n\
    IdtyIssuer: 1111111111111111111111111111111111111111111\n\
    IdtyUniqueID: toto\n\
    IdtyTimestamp: 0-E3B0C44298FC1C149AFBF4C8996FB92427AE41E4649B934CA495991B7852B855\n\
    IdtySignature: AAAAAAAAAAAAAAAAAAAAAAAAAAAAAAAAAAAAAAAAAAAAAAAAAAAAAAAAAAAAAAAAAAAAAAAAAAAAAAAAAAAAAA==\n\
    CertTimestamp: 36-E3B0C44298FC1C149AFBF4C8996FB92427AE41E4649B934CA495991B7852B855\n\
    BBBBBBBBBBBBBBBBBBBBBBBBBBBBBBBBBBBBBBBBBBBBBBBBBBBBBBBBBBBBBBBBBBBBBBBBBBBBBBBBBBBBBB==\n\
";

const MEMBERSHIP: &[u8] = b"\
    Version: 10\n\
    Type: Membership\n\
    Currency: beta_brousouf\n\
    Issuer: 1111111111111111111111111111111111111111111\n\
    Block: 0-E3B0C44298FC1C149AFBF4C8996FB92427AE41E4649B934CA495991B7852B855\n\
    Membership: OUT\n\
    UserID: toto\n\
    CertTS: 7-E3B0C44298FC1C149AFBF4C8996FB92427AE41E4649B934CA495991B7852B855\n\
    AAAAAAAAAAAAAAAAAAAAAAAAAAAAAAAAAAAAAAAAAAAAAAAAAAAAAAAAAAAAAAAAAAAAAAAAAAAAAAAAAAAAAA==\n\
";

const TRANSACTION: &[u8] = b"\
    Version: 10\n\
    Type: Transaction\n\
    Currency: beta_brousouf\n\
    Blockstamp: 5-E3B0C44298FC1C149AFBF4C8996FB92427AE41E4649B934CA495991B7852B855\n\
    Locktime: 3600\n\
    Issuers:\n\
    1111111111111111111111111111111111111111111\n\
    1111111111111111111111111111111111111111112\n\
    Inputs:\n\
    100:0:D:1111111111111111111111111111111111111111111:5\n\
    Unlocks:\n\
    0:SIG(0) XHX(abc)\n\
    Outputs:\n\
    60:0:SIG(1111111111111111111111111111111111111111112)\n\
    40:0:(SIG(1111111111111111111111111111111111111111111) && CSV(3600)) || CLTV(1000)\n\
    Comment: \n\
    AAAAAAAAAAAAAAAAAAAAAAAAAAAAAAAAAAAAAAAAAAAAAAAAAAAAAAAAAAAAAAAAAAAAAAAAAAAAAAAAAAAAAA==\n\
    BBBBBBBBBBBBBBBBBBBBBBBBBBBBBBBBBBBBBBBBBBBBBBBBBBBBBBBBBBBBBBBBBBBBBBBBBBBBBBBBBBBBBB==\n\
";

// The hash of the signed text, from the fields of the document.
fn signed_hash(doc: &Doc) -> Hash
    requires { IsDoc doc.now }
{
    match doc {
        Doc::Identity(d) => identity_hash(&d.currency, &d.issuer, &d.unique_id, &d.timestamp),
        Doc::Revocation(d) => {
            revocation_hash(
                &d.currency,
                &d.issuer,
                &d.idty_unique_id,
                &d.idty_timestamp,
                &d.idty_signature,
            )
        }
        Doc::Certification(d) => {
            certification_hash(
                &d.currency,
                &d.issuer,
                &d.idty_issuer,
                &d.idty_unique_id,
                &d.idty_timestamp,
                &d.idty_signature,
                &d.cert_timestamp,
            )
        }
        Doc::Membership(d) => {
            membership_hash(
                &d.currency,
                &d.issuer,
                &d.block,
                d.membership,
                &d.user_id,
                &d.cert_ts,
            )
        }
        Doc::Transaction(d) => tx_hashes(&d.currency, &d.tx).signed,
    }
}

// Whether the document is written as this text, and its signed text has this hash.
fn is_written_and_hashed(
    alloc: Global,
    doc: &Doc,
    text: &[u8],
    hash: &[u8],
) -> Result<bool, NoMemory>
    requires { IsDoc doc.now }
{
    let written = put_doc(alloc, doc)?.as_slice() == text;
    let signed = Hash::of(&signed_text(alloc, doc)?);
    Ok(written && signed.as_bytes() == hash && signed_hash(doc).as_bytes() == hash)
}

// Documents, and the hashes of their signed texts.
const DOCUMENTS: [(&[u8], &[u8]); 5] = [
    (
        IDENTITY,
        b"A120515CE66D04A02429DA159E9130B4DFB0627ABB9E3B40485DC9DC70DF32E9",
    ),
    (
        REVOCATION,
        b"36252970A18FE27062756F05AB3685914FFD8035A031EE3F1F468A746986D382",
    ),
    (
        CERTIFICATION,
        b"49A2EB1875325B82C80A7ECBB743B9F15C5B95C4BD4B52F120D8050D1A757DD6",
    ),
    (
        MEMBERSHIP,
        b"FC96F47FC3EF7D38800077031B55ADDADDB51F399D058D7DEA0625EB1E08E159",
    ),
    (
        TRANSACTION,
        b"43D5E0F9EE4B50B893C2A7B779DB2D0B274445FFEEA8D8C53B0AAC78F6E5708F",
    ),
];

fn is_kept_and_hashed(alloc: Global, text: &[u8], hash: &[u8]) -> Result<bool, NoMemory> {
    match read_doc(alloc, text)? {
        Some(doc) => {
            let good = is_written_and_hashed(alloc, &doc, text, hash);
            forget(doc);
            good
        }
        None => Ok(false),
    }
}

#[test]
fn documents_are_read_written_and_hashed(rt: HostRuntime) {
    for (text, hash) in &DOCUMENTS {
        assert!(rt; is_kept_and_hashed(rt.alloc(), text, hash) == Ok(true));
    }
}

const WHOLE_HASH: &[u8] = b"E6DB10DCB63E92B9F77B1C05D3864DA9FF54F21275E057C384AEE989ED34E98D";

// Whether the whole text of the transaction has its hash, and its signed text the hash that it is signed by.
fn is_named(alloc: Global, doc: &TxDoc) -> Result<bool, NoMemory>
    requires { IsTx doc.now.tx }
{
    let signed = Hash::of(&signed_tx(alloc, &doc.currency, &doc.tx)?);
    let same = signed == tx_hashes(&doc.currency, &doc.tx).signed;
    Ok(same && tx_hash(alloc, &doc.currency, &doc.tx)?.as_bytes() == WHOLE_HASH)
}

// Whether a copy of a transaction has its inputs, and the condition of its second output holds from the time of its text on.
fn is_copied(alloc: Global, tx: &Tx) -> Result<bool, NoMemory> {
    let copied = copy_tx(alloc, tx)?;
    let same = copied.inputs.as_slice() == tx.inputs.as_slice();
    let timed = match copied.outputs.as_slice() {
        [_, output] => {
            let cond = output.cond.tree(alloc)?;
            !holds(&cond, &[], &[], 999, 0) && holds(&cond, &[], &[], 1000, 0)
        }
        _ => false,
    };
    forget(copied);
    Ok(same && timed)
}

#[test]
fn a_transaction_is_named_by_its_whole_text_and_copied(rt: HostRuntime) -> Result<(), Fail> {
    let Ok(Some(Doc::Transaction(doc))) = read_doc(rt.alloc(), TRANSACTION) else {
        return Err(Fail::from("no transaction"));
    };
    let named = is_named(rt.alloc(), &doc);
    let copied = is_copied(rt.alloc(), &doc.tx);
    forget(doc);
    assert!(rt; named == Ok(true) && copied == Ok(true));
    Ok(())
}
