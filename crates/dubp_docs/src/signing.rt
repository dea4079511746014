ghost use Rattle.std.specs.Prelude.{◌≡◌, true, ◌+◌, ◌≤◌, ◌++◌, ◌∷◌, [], length, map, codes, decimal, OnOk, All};
ghost use Rattle.dubp_cond.specs.Transactions.{is_comment, IsTx};
ghost use Rattle.dubp_docs.specs.AddsLines.{AddsLines};
ghost use Rattle.dubp_docs.specs.Fields.{identity_of, revocation_of, certification_of, membership_of};
ghost use Rattle.dubp_docs.specs.Spelling.{opening_lines, identity_lines, revocation_lines, certification_lines, membership_lines, direction_text, transaction_lines};

use crate::put_text::PutText;
use arrayvec::ArrayVec;
use dubp_atoms::{Currency, Items, Key, Line, Sig, Stamp, TextSink, Uid, put_bytes};
use dubp_cond::Tx;
use dubp_lines::{AsText, put_field_line, put_line, put_number_line, put_text_line};

/// Adds this line.
#[tactic(auto, using(crate::proofs::Added::one_line))]
fn add_line<S: TextSink>(out: &mut S, line: &[u8]) -> Result<(), S::Refusal>
    requires { length line.now ≤ 1000 }
    ensures { OnOk result (AddsLines S.has out.old out.new (line.now ∷ [])) }
{
    put_line(out, line)
}

/// Adds a line of this name and of a value that has its text at hand.
#[tactic(auto, using(crate::proofs::Added::one_line))]
fn add_field<T: AsText, S: TextSink>(out: &mut S, name: &[u8], value: &T) -> Result<(), S::Refusal>
    requires { length name.now ≤ 100 }
    ensures { OnOk result (AddsLines S.has out.old out.new ((name.now ++ T.text_of value.now) ∷ [])) }
{
    put_field_line(out, name, value)
}

/// Adds a line of this name and value. The line is put together in `line`, whatever that holds.
#[tactic(auto, using(crate::proofs::Added::one_line))]
fn add_value<T: PutText, S: TextSink>(
    out: &mut S,
    line: &mut Line,
    name: &[u8],
    value: &T,
) -> Result<(), S::Refusal>
    requires valid { T.in_range value.now }
    requires name { length name.now ≤ 100 }
    ensures { OnOk result (AddsLines S.has out.old out.new ((name.now ++ T.spelling value.now) ∷ [])) }
{
    line.clear();
    put_bytes(line, name);
    value.put_text(line);
    put_bytes(line, b"\n");
    out.put(line.as_slice())
}

/// Adds the first three lines of a document of this type, whose line is given.
fn add_opening<S: TextSink>(out: &mut S, kind: &[u8], currency: &Currency) -> Result<(), S::Refusal>
    requires { length kind.now ≤ 50 }
    ensures { OnOk result (AddsLines S.has out.old out.new (opening_lines kind.now currency.now)) }
{
    add_line(out, b"Version: 10")?;
    add_kind(out, kind)?;
    add_field(out, b"Currency: ", currency)?;
    Ok(())
}

#[tactic(auto, using(crate::proofs::Added::one_line))]
fn add_kind<S: TextSink>(out: &mut S, kind: &[u8]) -> Result<(), S::Refusal>
    requires { length kind.now ≤ 50 }
    ensures { OnOk result (AddsLines S.has out.old out.new ((codes "Type: " ++ kind.now) ∷ [])) }
{
    put_text_line(out, b"Type: ", kind)
}

/// Adds a line for each value, which is put together in `line`.
fn add_values<T: PutText, S: TextSink>(
    out: &mut S,
    line: &mut Line,
    values: &[T],
) -> Result<(), S::Refusal>
    requires { All T.in_range values.now }
    ensures { OnOk result (AddsLines S.has out.old out.new (map T.spelling values.now)) }
{
    for value in values {
        add_value(out, line, b"", value)?;
    }
    Ok(())
}

/// Adds a line for each value, which has its text at hand.
fn add_texts<T: AsText, S: TextSink>(out: &mut S, values: &[T]) -> Result<(), S::Refusal>
    ensures { OnOk result (AddsLines S.has out.old out.new (map T.text_of values.now)) }
{
    for value in values {
        add_field(out, b"", value)?;
    }
    Ok(())
}

/// Adds a heading and a line for each value, which is put together in `line`.
fn add_list<T: PutText, S: TextSink>(
    out: &mut S,
    line: &mut Line,
    heading: &[u8],
    values: &Items<T>,
) -> Result<(), S::Refusal>
    requires valid { All T.in_range values.now }
    requires heading { length heading.now ≤ 50 }
    ensures { OnOk result (AddsLines S.has out.old out.new (heading.now ∷ map T.spelling values.now)) }
{
    add_line(out, heading)?;
    add_values(out, line, values.as_slice())?;
    Ok(())
}

/// Adds the signed lines of an identity.
pub fn add_identity<S: TextSink>(
    out: &mut S,
    currency: &Currency,
    issuer: &Key,
    unique_id: &Uid,
    timestamp: &Stamp,
) -> Result<(), S::Refusal>
    ensures { OnOk result (AddsLines S.has out.old out.new (identity_lines (identity_of currency.now issuer.now unique_id.now timestamp.now []))) }
{
    let mut line: Line = ArrayVec::new();
    add_opening(out, b"Identity", currency)?;
    add_field(out, b"Issuer: ", issuer)?;
    add_field(out, b"UniqueID: ", unique_id)?;
    add_value(out, &mut line, b"Timestamp: ", timestamp)?;
    Ok(())
}

/// Adds the signed lines of a revocation.
pub fn add_revocation<S: TextSink>(
    out: &mut S,
    currency: &Currency,
    issuer: &Key,
    unique_id: &Uid,
    timestamp: &Stamp,
    idty_signature: &Sig,
) -> Result<(), S::Refusal>
    ensures { OnOk result (AddsLines S.has out.old out.new (revocation_lines (revocation_of currency.now issuer.now unique_id.now timestamp.now idty_signature.now []))) }
{
    let mut line: Line = ArrayVec::new();
    add_opening(out, b"Revocation", currency)?;
    add_field(out, b"Issuer: ", issuer)?;
    add_field(out, b"IdtyUniqueID: ", unique_id)?;
    add_value(out, &mut line, b"IdtyTimestamp: ", timestamp)?;
    add_field(out, b"IdtySignature: ", idty_signature)?;
    Ok(())
}

/// Adds the signed lines of a certification.
pub fn add_certification<S: TextSink>(
    out: &mut S,
    currency: &Currency,
    issuer: &Key,
    idty_issuer: &Key,
    unique_id: &Uid,
    idty_timestamp: &Stamp,
    idty_signature: &Sig,
    cert_timestamp: &Stamp,
) -> Result<(), S::Refusal>
    ensures { OnOk result (AddsLines S.has out.old out.new (certification_lines (certification_of currency.now issuer.now idty_issuer.now unique_id.now idty_timestamp.now idty_signature.now cert_timestamp.now []))) }
{
    let mut line: Line = ArrayVec::new();
    add_opening(out, b"Certification", currency)?;
    add_field(out, b"Issuer: ", issuer)?;
    add_field(out, b"IdtyIssuer: ", idty_issuer)?;
    add_field(out, b"IdtyUniqueID: ", unique_id)?;
    add_value(out, &mut line, b"IdtyTimestamp: ", idty_timestamp)?;
    add_field(out, b"IdtySignature: ", idty_signature)?;
    add_value(out, &mut line, b"CertTimestamp: ", cert_timestamp)?;
    Ok(())
}

fn add_direction<S: TextSink>(out: &mut S, membership: bool) -> Result<(), S::Refusal>
    ensures { OnOk result (AddsLines S.has out.old out.new ((codes "Membership: " ++ direction_text membership) ∷ [])) }
{
    if membership {
        add_line(out, b"Membership: IN")
    } else {
        add_line(out, b"Membership: OUT")
    }
}

/// Adds the signed lines of a membership.
pub fn add_membership<S: TextSink>(
    out: &mut S,
    currency: &Currency,
    issuer: &Key,
    block: &Stamp,
    membership: bool,
    user_id: &Uid,
    cert_ts: &Stamp,
) -> Result<(), S::Refusal>
    ensures { OnOk result (AddsLines S.has out.old out.new (membership_lines (membership_of currency.now issuer.now block.now membership user_id.now cert_ts.now []))) }
{
    let mut line: Line = ArrayVec::new();
    add_opening(out, b"Membership", currency)?;
    add_field(out, b"Issuer: ", issuer)?;
    add_value(out, &mut line, b"Block: ", block)?;
    add_direction(out, membership)?;
    add_field(out, b"UserID: ", user_id)?;
    add_value(out, &mut line, b"CertTS: ", cert_ts)?;
    Ok(())
}

#[tactic(auto, using(crate::proofs::Added::one_line))]
fn add_number<S: TextSink>(out: &mut S, name: &[u8], n: u64) -> Result<(), S::Refusal>
    requires { length name.now ≤ 100 }
    ensures { OnOk result (AddsLines S.has out.old out.new ((name.now ++ decimal n) ∷ [])) }
{
    put_number_line(out, name, n)
}

#[tactic(auto, using(crate::proofs::Added::one_line))]
fn add_comment<S: TextSink>(out: &mut S, comment: &Items<u8>) -> Result<(), S::Refusal>
    requires { is_comment comment.now ≡ true }
    ensures { OnOk result (AddsLines S.has out.old out.new ((codes "Comment: " ++ comment.now) ∷ [])) }
{
    put_text_line(out, b"Comment: ", comment.as_slice())
}

/// Adds the signed lines of a transaction.
pub fn add_transaction<S: TextSink>(
    out: &mut S,
    currency: &Currency,
    tx: &Tx,
) -> Result<(), S::Refusal>
    requires { IsTx tx.now }
    ensures { OnOk result (AddsLines S.has out.old out.new (transaction_lines currency.now tx.now)) }
{
    let mut line: Line = ArrayVec::new();
    add_opening(out, b"Transaction", currency)?;
    add_value(out, &mut line, b"Blockstamp: ", &tx.stamp)?;
    add_number(out, b"Locktime: ", tx.locktime)?;
    add_list(out, &mut line, b"Issuers:", &tx.issuers)?;
    add_list(out, &mut line, b"Inputs:", &tx.inputs)?;
    add_list(out, &mut line, b"Unlocks:", &tx.unlocks)?;
    add_list(out, &mut line, b"Outputs:", &tx.outputs)?;
    add_comment(out, &tx.comment)?;
    Ok(())
}

/// Adds a line for each signature.
pub fn add_signatures<S: TextSink>(out: &mut S, sigs: &Items<Sig>) -> Result<(), S::Refusal>
    ensures { OnOk result (AddsLines S.has out.old out.new sigs.now) }
{
    add_texts(out, sigs.as_slice())
}

/// Adds a line that is a signature.
pub fn add_signature<S: TextSink>(out: &mut S, sig: &Sig) -> Result<(), S::Refusal>
    ensures { OnOk result (AddsLines S.has out.old out.new (sig.now ∷ [])) }
{
    add_field(out, b"", sig)
}
