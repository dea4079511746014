ghost use Rattle.std.specs.Prelude.{◌≡◌, ◌++◌, ◌∷◌, [], ℕ, List, Option, IfOk, OnOk, OnErr};
ghost use Rattle.dubp_atoms.specs.Letters.{is_key, is_sig};
ghost use Rattle.dubp_atoms.specs.Reading.{text_if, stamp_of};
ghost use Rattle.dubp_cond.specs.ReadingLines.{input_of, unlock_line_of, output_of};
ghost use Rattle.dubp_lines.specs.Taking.{GivesInRoom, line_at};
ghost use Rattle.dubp_lines.specs.Readers.{rows};
ghost use Rattle.dubp_block.specs.ReadingLines.{identity_of, member_of, revoked_of, certification_of};

use crate::block::{CertLine, IdentityLine, MemberLine, RevokedLine};
use dubp_atoms::{Items, Key, NoMemory, Sig, Stamp, Uid, cut, read_number};
use dubp_cond::{Input, Output, UnlockLine, read_input, read_output, read_unlock};
use dubp_lines::{LineRefusal, Lines};
use std::alloc::Global;

/// A kind of line of which a block has lists, and how it is read.
pub trait ReadRow {
    type Value: Drop;

    ghost reads: { List ℕ → Option Self.Value };

    /// The value that this line is. None exactly where it is the text of none. `NoMemory` where there is no room for it.
    fn read_row(alloc: Global, line: &[u8]) -> Result<Option<Self::Value>, NoMemory>
        ensures { IfOk result (λ found. found ≡ reads line.now) };
}

impl ReadRow for Key {
    type Value = Key;

    ghost reads = { text_if is_key };

    fn read_row(_alloc: Global, line: &[u8]) -> Result<Option<Key>, NoMemory> {
        Ok(Key::read(line))
    }
}

impl ReadRow for Sig {
    type Value = Sig;

    ghost reads = { text_if is_sig };

    fn read_row(_alloc: Global, line: &[u8]) -> Result<Option<Sig>, NoMemory> {
        Ok(Sig::read(line))
    }
}

impl ReadRow for Input {
    type Value = Input;

    ghost reads = { input_of };

    fn read_row(_alloc: Global, line: &[u8]) -> Result<Option<Input>, NoMemory> {
        Ok(read_input(line))
    }
}

impl ReadRow for UnlockLine {
    type Value = UnlockLine;

    ghost reads = { unlock_line_of };

    fn read_row(alloc: Global, line: &[u8]) -> Result<Option<UnlockLine>, NoMemory> {
        read_unlock(alloc, line)
    }
}

impl ReadRow for Output {
    type Value = Output;

    ghost reads = { output_of };

    fn read_row(alloc: Global, line: &[u8]) -> Result<Option<Output>, NoMemory> {
        read_output(alloc, line)
    }
}

impl ReadRow for IdentityLine {
    type Value = IdentityLine;

    ghost reads = { identity_of };

    fn read_row(_alloc: Global, line: &[u8]) -> Result<Option<IdentityLine>, NoMemory> {
        Ok(read_identity(line))
    }
}

impl ReadRow for MemberLine {
    type Value = MemberLine;

    ghost reads = { member_of };

    fn read_row(_alloc: Global, line: &[u8]) -> Result<Option<MemberLine>, NoMemory> {
        Ok(read_member(line))
    }
}

impl ReadRow for RevokedLine {
    type Value = RevokedLine;

    ghost reads = { revoked_of };

    fn read_row(_alloc: Global, line: &[u8]) -> Result<Option<RevokedLine>, NoMemory> {
        Ok(read_revoked(line))
    }
}

impl ReadRow for CertLine {
    type Value = CertLine;

    ghost reads = { certification_of };

    fn read_row(_alloc: Global, line: &[u8]) -> Result<Option<CertLine>, NoMemory> {
        Ok(read_certification(line))
    }
}

#[tactic(auto, unfolding(crate::specs::ReadingLines::identity_of))]
fn read_identity(text: &[u8]) -> Option<IdentityLine>
    ensures { result ≡ identity_of text.now }
{
    let (key, rest) = cut(text, b':')?;
    let key = Key::read(key)?;
    let (sig, rest) = cut(rest, b':')?;
    let sig = Sig::read(sig)?;
    let (stamp, uid) = cut(rest, b':')?;
    let stamp = Stamp::read(stamp)?;
    let uid = Uid::read(uid)?;
    Some(IdentityLine {
        key,
        sig,
        stamp,
        uid,
    })
}

#[tactic(auto, unfolding(crate::specs::ReadingLines::member_of))]
fn read_member(text: &[u8]) -> Option<MemberLine>
    ensures { result ≡ member_of text.now }
{
    let (key, rest) = cut(text, b':')?;
    let key = Key::read(key)?;
    let (sig, rest) = cut(rest, b':')?;
    let sig = Sig::read(sig)?;
    let (stamp, rest) = cut(rest, b':')?;
    let stamp = Stamp::read(stamp)?;
    let (identity_stamp, uid) = cut(rest, b':')?;
    let identity_stamp = Stamp::read(identity_stamp)?;
    let uid = Uid::read(uid)?;
    Some(MemberLine {
        key,
        sig,
        stamp,
        identity_stamp,
        uid,
    })
}

#[tactic(auto, unfolding(crate::specs::ReadingLines::revoked_of))]
fn read_revoked(text: &[u8]) -> Option<RevokedLine>
    ensures { result ≡ revoked_of text.now }
{
    let (key, sig) = cut(text, b':')?;
    let key = Key::read(key)?;
    let sig = Sig::read(sig)?;
    Some(RevokedLine { key, sig })
}

#[tactic(auto, unfolding(crate::specs::ReadingLines::certification_of))]
fn read_certification(text: &[u8]) -> Option<CertLine>
    ensures { result ≡ certification_of text.now }
{
    let (from, rest) = cut(text, b':')?;
    let from = Key::read(from)?;
    let (to, rest) = cut(rest, b':')?;
    let to = Key::read(to)?;
    let (number, sig) = cut(rest, b':')?;
    let number = read_number(number)?;
    let sig = Sig::read(sig)?;
    Some(CertLine {
        from,
        to,
        number,
        sig,
    })
}

/// Takes a line of this kind.
pub fn take_row<R: ReadRow>(alloc: Global, lines: &mut Lines<'_>) -> Result<R::Value, LineRefusal>
    ensures { GivesInRoom (λ x. (x, lines.new)) result (line_at R.reads lines.old) }
{
    let line = lines.first()?;
    let Some(row) = R::read_row(alloc, line)? else {
        return Err(LineRefusal::from(lines.refused()));
    };
    lines.skip();
    Ok(row)
}

/// Takes so many lines of this kind. Room for a line is taken when it comes.
pub fn take_rows<R: ReadRow>(
    alloc: Global,
    lines: &mut Lines<'_>,
    count: u64,
) -> Result<Items<R::Value>, LineRefusal>
    ensures { GivesInRoom (λ v. (v, lines.new)) result (rows count R.reads lines.old) }
{
    let mut taken = Vec::new(alloc);
    for _ in 0..count {
        let row = take_row::<R>(alloc, lines)?;
        push(&mut taken, row)?;
    }
    Ok(Items::from_vec(taken))
}

/// Appends a value to a list. `NoMemory` where there is no room for it.
pub fn push<T: Drop>(list: &mut Vec<T>, value: T) -> Result<(), NoMemory>
    ensures appended { OnOk result (list.new.items ≡ list.old.items ++ value ∷ []) }
    ensures refused { OnErr result (list.new.items ≡ list.old.items) }
{
    list.push(value).map_err(|_| NoMemory)
}
