ghost use Rattle.std.specs.Prelude.{◌≡◌, IfOk, OnOk};
ghost use Rattle.dubp_cond.specs.Transactions.{IsTx};
ghost use Rattle.dubp_docs.specs.AddsLines.{AddsLines};
ghost use Rattle.dubp_docs.specs.Spelling.{signed_lines, signature_lines, signed_text as signed_text_of, doc_text, signed_tx as signed_text_of_tx, IsDoc};

use crate::doc::Doc;
use crate::signing::{
    add_certification, add_identity, add_membership, add_revocation, add_signature, add_signatures,
    add_transaction,
};
use dubp_atoms::{Currency, NoMemory, TextSink};
use dubp_cond::Tx;
use std::alloc::Global;

fn add_signed<S: TextSink>(out: &mut S, doc: &Doc) -> Result<(), S::Refusal>
    requires { IsDoc doc.now }
    ensures { OnOk result (AddsLines S.has out.old out.new (signed_lines doc.now)) }
{
    match doc {
        Doc::Identity(d) => {
            add_identity(out, &d.currency, &d.issuer, &d.unique_id, &d.timestamp)
        }
        Doc::Revocation(d) => {
            add_revocation(
                out,
                &d.currency,
                &d.issuer,
                &d.idty_unique_id,
                &d.idty_timestamp,
                &d.idty_signature,
            )
        }
        Doc::Certification(d) => {
            add_certification(
                out,
                &d.currency,
                &d.issuer,
                &d.idty_issuer,
                &d.idty_unique_id,
                &d.idty_timestamp,
                &d.idty_signature,
                &d.cert_timestamp,
            )
        }
        Doc::Membership(d) => {
            add_membership(
                out,
                &d.currency,
                &d.issuer,
                &d.block,
                d.membership,
                &d.user_id,
                &d.cert_ts,
            )
        }
        Doc::Transaction(d) => add_transaction(out, &d.currency, &d.tx),
    }
}

fn add_behind<S: TextSink>(out: &mut S, doc: &Doc) -> Result<(), S::Refusal>
    ensures { OnOk result (AddsLines S.has out.old out.new (signature_lines doc.now)) }
{
    match doc {
        Doc::Identity(d) => add_signature(out, &d.sig),
        Doc::Revocation(d) => add_signature(out, &d.sig),
        Doc::Certification(d) => add_signature(out, &d.sig),
        Doc::Membership(d) => add_signature(out, &d.sig),
        Doc::Transaction(d) => add_signatures(out, &d.tx.sigs),
    }
}

/// The text of a document. The document is in range. `NoMemory` where there is no room for its text.
pub fn put_doc(alloc: Global, doc: &Doc) -> Result<Vec<u8>, NoMemory>
    requires { IsDoc doc.now }
    ensures { IfOk result (λ text. text.items ≡ doc_text doc.now) }
{
    let mut text = Vec::new(alloc);
    add_signed(&mut text, doc)?;
    add_behind(&mut text, doc)?;
    Ok(text)
}

/// The text of a document without its signature lines, which is what is signed. The document is in range. `NoMemory` where
/// there is no room for that text.
pub fn signed_text(alloc: Global, doc: &Doc) -> Result<Vec<u8>, NoMemory>
    requires { IsDoc doc.now }
    ensures { IfOk result (λ text. text.items ≡ signed_text_of doc.now) }
{
    let mut text = Vec::new(alloc);
    add_signed(&mut text, doc)?;
    Ok(text)
}

/// The signed text of the document of a transaction of this currency. The transaction is in range. `NoMemory` where there is
/// no room for that text.
pub fn signed_tx(alloc: Global, currency: &Currency, tx: &Tx) -> Result<Vec<u8>, NoMemory>
    requires { IsTx tx.now }
    ensures { IfOk result (λ text. text.items ≡ signed_text_of_tx currency.now tx.now) }
{
    let mut text = Vec::new(alloc);
    add_transaction(&mut text, currency, tx)?;
    Ok(text)
}
