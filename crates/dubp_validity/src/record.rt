ghost use Rattle.std.specs.Prelude.{◌≡◌, ◌+◌, ◌≤◌, ◌<◌, ◌^◌, ◌++◌, ◌∷◌, [], codes, decimal, length};
ghost use Rattle.arrayvec.specs.ArrayVec.{array_vec_len};
ghost use Rattle.dubp_verdict.specs.OfAtoms.{SPACE};
ghost use Rattle.dubp_verdict.specs.OfAtoms.{stamp_text};
ghost use Rattle.dubp_chain.specs.OfCond.{input_text, IsInput};
ghost use Rattle.dubp_validity.specs.Records.{record_text, IsRecord};

use dubp_chain::{Input, put_input};
use dubp_verdict::{Items, Key, Line, Stamp, Uid, put_bytes, put_number};

/// What a block writes to the indexes, one record for each change.
///
/// Identities are of the index IIDX, memberships of MIDX, certifications of CIDX and sources of SIDX. Times are in seconds.
/// Protocol: records.
#[derive(Debug, Drop)]
pub enum Record {
    /// A key takes a name.
    Create { key: Key, uid: Uid, stamp: Stamp },
    /// A key becomes a member.
    Enter { key: Key },
    /// A key is a member no more.
    Exit { key: Key },
    /// A membership begins.
    Join { key: Key, made: u64 },
    /// A membership is renewed.
    Active { key: Key, made: u64 },
    /// A member asks to leave.
    Leave { key: Key, made: u64 },
    /// A key ends its identity.
    Revoke { key: Key },
    /// A membership reaches its expiry.
    Expire { key: Key },
    /// A membership has been expired for as long as it is valid.
    ExpireRev { key: Key },
    /// A key certifies another.
    Cert { from: Key, to: Key, made: u64 },
    /// A certification reaches its end.
    CertExpire { from: Key, to: Key },
    /// A transaction spends a source.
    Spend { input: Input },
    /// A transaction makes a source, whose condition has this text, kept in its own length.
    Make { input: Input, cond: Items<u8> },
    /// A member gets the dividend.
    Dividend { input: Input },
    /// A source is cleared, since its account has too little.
    Clear { input: Input },
}

/// Appends the text of a record, at most 1,200 bytes, without LF. It takes no memory.
///
/// The record's values are in the ranges of their spellings, and the line has 1,500 free places.
pub fn put_record(item: &Record, out: &mut Line)
    requires valid { IsRecord item.now }
    requires room { array_vec_len out.old + 1500 ≤ 2048 }
    ensures text { out.new.items ≡ out.old.items ++ record_text item.now }
    ensures room { array_vec_len out.new ≤ array_vec_len out.old + 1200 }
{
    match item {
        Record::Create { key, uid, stamp } => put_create(key, uid, stamp, out),
        Record::Enter { key } => put_keyed(b"IIDX IN ", key, out),
        Record::Exit { key } => put_keyed(b"IIDX OUT ", key, out),
        Record::Join { key, made } => put_timed(b"MIDX JOIN ", key, *made, out),
        Record::Active { key, made } => put_timed(b"MIDX ACTIVE ", key, *made, out),
        Record::Leave { key, made } => put_timed(b"MIDX LEAVE ", key, *made, out),
        Record::Revoke { key } => put_keyed(b"MIDX REVOKE ", key, out),
        Record::Expire { key } => put_keyed(b"MIDX EXPIRE ", key, out),
        Record::ExpireRev { key } => put_keyed(b"MIDX EXPIREREV ", key, out),
        Record::Cert { from, to, made } => put_cert(from, to, *made, out),
        Record::CertExpire { from, to } => put_pair(b"CIDX EXPIRE ", from, to, out),
        Record::Spend { input } => put_moved(b"SIDX SPEND ", input, out),
        Record::Make { input, cond } => put_make(input, cond, out),
        Record::Dividend { input } => put_moved(b"SIDX DIVIDEND ", input, out),
        Record::Clear { input } => put_moved(b"SIDX CLEAR ", input, out),
    }
}

// A name and a key.
fn put_keyed(name: &[u8], key: &Key, out: &mut Line)
    requires short { length name.now ≤ 16 }
    requires room { array_vec_len out.old + 300 ≤ 2048 }
    ensures text { out.new.items ≡ out.old.items ++ (name.now ++ key.now) }
    ensures room { array_vec_len out.new ≤ array_vec_len out.old + 60 }
{
    put_bytes(out, name);
    key.put(out);
}

// A name, a key and a time.
fn put_timed(name: &[u8], key: &Key, made: u64, out: &mut Line)
    requires short { length name.now ≤ 16 }
    requires room { array_vec_len out.old + 300 ≤ 2048 }
    ensures text { out.new.items ≡ out.old.items ++ (name.now ++ (key.now ++ SPACE ∷ decimal made)) }
    ensures room { array_vec_len out.new ≤ array_vec_len out.old + 110 }
{
    put_keyed(name, key, out);
    put_bytes(out, b" ");
    put_number(made as u128, out);
}

// A name and a pair of keys.
fn put_pair(name: &[u8], from: &Key, to: &Key, out: &mut Line)
    requires short { length name.now ≤ 16 }
    requires room { array_vec_len out.old + 500 ≤ 2048 }
    ensures text { out.new.items ≡ out.old.items ++ (name.now ++ (from.now ++ SPACE ∷ to.now)) }
    ensures room { array_vec_len out.new ≤ array_vec_len out.old + 120 }
{
    put_keyed(name, from, out);
    put_bytes(out, b" ");
    to.put(out);
}

fn put_cert(from: &Key, to: &Key, made: u64, out: &mut Line)
    requires { array_vec_len out.old + 500 ≤ 2048 }
    ensures text { out.new.items ≡ out.old.items ++ (codes "CIDX CERT " ++ (from.now ++ SPACE ∷ (to.now ++ SPACE ∷ decimal made))) }
    ensures room { array_vec_len out.new ≤ array_vec_len out.old + 170 }
{
    put_pair(b"CIDX CERT ", from, to, out);
    put_bytes(out, b" ");
    put_number(made as u128, out);
}

fn put_create(key: &Key, uid: &Uid, stamp: &Stamp, out: &mut Line)
    requires { array_vec_len out.old + 700 ≤ 2048 }
    ensures text { out.new.items ≡ out.old.items ++ (codes "IIDX CREATE " ++ (key.now ++ SPACE ∷ (uid.now ++ SPACE ∷ stamp_text stamp.now))) }
    ensures room { array_vec_len out.new ≤ array_vec_len out.old + 280 }
{
    put_keyed(b"IIDX CREATE ", key, out);
    put_bytes(out, b" ");
    uid.put(out);
    put_bytes(out, b" ");
    stamp.put(out);
}

// A name and a source with its amount.
fn put_moved(name: &[u8], input: &Input, out: &mut Line)
    requires valid { IsInput input.now }
    requires short { length name.now ≤ 16 }
    requires room { array_vec_len out.old + 1200 ≤ 2048 }
    ensures text { out.new.items ≡ out.old.items ++ (name.now ++ input_text input.now) }
    ensures room { array_vec_len out.new ≤ array_vec_len out.old + 133 }
{
    put_bytes(out, name);
    put_input(input, out);
}

fn put_make(input: &Input, cond: &Items<u8>, out: &mut Line)
    requires valid { IsInput input.now }
    requires short { length cond.now ≤ 1000 }
    requires room { array_vec_len out.old + 1500 ≤ 2048 }
    ensures text { out.new.items ≡ out.old.items ++ (codes "SIDX MAKE " ++ (input_text input.now ++ SPACE ∷ cond.now)) }
    ensures room { array_vec_len out.new ≤ array_vec_len out.old + 1200 }
{
    put_moved(b"SIDX MAKE ", input, out);
    put_bytes(out, b" ");
    put_bytes(out, cond.as_slice());
}
