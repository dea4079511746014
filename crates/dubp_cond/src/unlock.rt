ghost use Rattle.std.specs.Prelude.{◌≡◌, ◌+◌, ◌≤◌, ◌++◌, ◌↔◌, map, codes, option_map, is_some, Some, true, length, IfOk, IfSome, IsSome, IsTrue, OnErr};
ghost use Rattle.std.specs.List.{list_all};
ghost use Rattle.arrayvec.specs.ArrayVec.{array_vec_len};
ghost use Rattle.dubp_cond.specs.Joined.{joined};
ghost use Rattle.dubp_cond.specs.TextOf.{IsTextOf};
ghost use Rattle.dubp_cond.specs.Unlocks.{is_password_letter, is_password, unlock_text, unlock_line_text, IsUnlockLine};
ghost use Rattle.dubp_cond.specs.Gives.{Gives, Passes, spelled_unlock};
ghost use Rattle.dubp_cond.specs.ReadingLines.{unlock_at, unlocks_at, unlocks_of, unlock_line_of};
ghost use Rattle.dubp_cond.specs.declared.unlock.UnlockLine.{UnlockLine as UnlockLineValue};

use crate::cursor::Cursor;
use crate::memory::{copied, push};
use crate::writing::{put_function, put_number_function};
use dubp_atoms::{Items, Line, NoMemory, cut, put_bytes, put_number, read_number};
use std::alloc::Global;

/// The most characters of an UNLOCK line.
const MAX_CHARACTERS: usize = 1000;

/// The most functions of an UNLOCK line.
const MAX_FUNCTIONS: usize = 8;

/// The most characters of a password.
const MAX_PASSWORD: usize = 255;

/// A function of an UNLOCK line: the signature of the issuer of this number, from 0, or a password.
///
/// A number is below 2^53, and a password has 1 to 255 characters from `!` to `~` other than `(` and `)`.
#[derive(Debug, Drop)]
pub enum Unlock {
    Sig(u64),
    Xhx(Items<u8>),
}

/// An UNLOCK line: what unlocks the input of this number, from 0. It has 1 to 8 functions.
#[derive(Debug, Drop)]
pub struct UnlockLine {
    pub input: u64,
    pub list: Items<Unlock>,
}

fn all_password_letters(text: &[u8]) -> bool
    ensures { result ≡ list_all is_password_letter text.now }
{
    text.iter()
        .all(|c| matches!(*c, b'!'..=b'\'' | b'*'..=b'~'))
}

#[tactic(auto, unfolding(crate::specs::Unlocks::is_password))]
fn is_password_text(text: &[u8]) -> bool
    ensures { result ≡ is_password text.now }
{
    !text.is_empty() && text.len() <= MAX_PASSWORD && all_password_letters(text)
}

/// A function as it stands in a line.
#[derive(Clone, Copy)]
enum Spelled<'a> {
    Sig(u64),
    Xhx(&'a [u8]),
}

/// Takes a function, without memory.
fn take_spelled<'a>(cursor: &mut Cursor<'a>) -> Option<Spelled<'a>>
    ensures { option_map (λ spelled. (spelled_unlock spelled, cursor.new)) result ≡ unlock_at cursor.old }
{
    if cursor.take_word(b"SIG(") {
        let issuer = read_number(cursor.take_field()?)?;
        return Some(Spelled::Sig(issuer));
    }
    if !cursor.take_word(b"XHX(") {
        return None;
    }
    let password = cursor.take_field()?;
    if !is_password_text(password) {
        return None;
    }
    Some(Spelled::Xhx(password))
}

/// Passes over 1 to 8 functions with one space between, without memory.
fn pass_unlocks(cursor: &mut Cursor<'_>) -> bool
    ensures { Passes result cursor.new (unlocks_at 8 cursor.old) }
{
    'functions: for _ in 0..MAX_FUNCTIONS {
        let Some(_) = take_spelled(cursor) else {
            return false;
        };
        if !cursor.take_word(b" ") {
            return true;
        }
    }
    false
}

/// Whether the text is 1 to 8 functions and nothing behind them.
fn are_unlocks(text: &[u8]) -> bool
    ensures { result ≡ is_some (unlocks_of text.now) }
{
    let mut cursor = Cursor::new(text);
    pass_unlocks(&mut cursor) && cursor.is_done()
}

/// Takes a function.
fn take_unlock(alloc: Global, cursor: &mut Cursor<'_>) -> Result<Option<Unlock>, NoMemory>
    ensures { IfOk result (λ found. Gives (λ u. u) found cursor.new (unlock_at cursor.old)) }
{
    Ok(match take_spelled(cursor) {
        None => None,
        Some(Spelled::Sig(issuer)) => Some(Unlock::Sig(issuer)),
        Some(Spelled::Xhx(password)) => {
            Some(Unlock::Xhx(Items::from_vec(copied(alloc, password)?)))
        }
    })
}

/// Takes 1 to 8 functions with one space between.
fn take_unlocks(alloc: Global, cursor: &mut Cursor<'_>) -> Result<Option<Vec<Unlock>>, NoMemory>
    ensures { IfOk result (λ found. Gives (λ list. list.items) found cursor.new (unlocks_at 8 cursor.old)) }
{
    let mut list: Vec<Unlock> = Vec::new(alloc);
    'functions: while list.len() < MAX_FUNCTIONS {
        let Some(unlock) = take_unlock(alloc, cursor)? else {
            return Ok(None);
        };
        push(&mut list, unlock)?;
        if !cursor.take_word(b" ") {
            return Ok(Some(list));
        }
    }
    Ok(None)
}

/// Passes over the text first, so that memory is asked for only where it is of functions.
fn read_unlocks(alloc: Global, text: &[u8]) -> Result<Option<Items<Unlock>>, NoMemory>
    ensures exact { IfOk result (λ found. found ≡ unlocks_of text.now) }
    ensures lacked { OnErr result (IsSome (unlocks_of text.now)) }
{
    if !are_unlocks(text) {
        return Ok(None);
    }
    let mut cursor = Cursor::new(text);
    let Some(list) = take_unlocks(alloc, &mut cursor)? else {
        return Ok(None);
    };
    if !cursor.is_done() {
        return Ok(None);
    }
    Ok(Some(Items::from_vec(list)))
}

#[tactic(auto, unfolding(crate::specs::ReadingLines::unlock_line_of))]
fn pass_line(line: &[u8]) -> bool
    ensures { result ≡ is_some (unlock_line_of line.now) }
{
    if line.len() > MAX_CHARACTERS {
        return false;
    }
    let Some((input, list)) = cut(line, b':') else {
        return false;
    };
    read_number(input).is_some() && are_unlocks(list)
}

/// Whether the line is that of unlocks: of at most 1,000 characters, with 1 to 8 functions. It takes no memory.
pub fn is_unlock(line: &[u8]) -> bool
    ensures text { IsTrue result ↔ IsTextOf IsUnlockLine unlock_line_text line.now }
    ensures exact { result ≡ is_some (unlock_line_of line.now) }
{
    pass_line(line)
}

#[tactic(auto, unfolding(crate::specs::ReadingLines::unlock_line_of))]
fn read_line(alloc: Global, line: &[u8]) -> Result<Option<UnlockLine>, NoMemory>
    ensures exact { IfOk result (λ found. found ≡ unlock_line_of line.now) }
    ensures lacked { OnErr result (IsSome (unlock_line_of line.now)) }
{
    if line.len() > MAX_CHARACTERS {
        return Ok(None);
    }
    let Some((input, list)) = cut(line, b':') else {
        return Ok(None);
    };
    let Some(input) = read_number(input) else {
        return Ok(None);
    };
    let Some(list) = read_unlocks(alloc, list)? else {
        return Ok(None);
    };
    Ok(Some(UnlockLine { input, list }))
}

/// The unlock line that this line is. None exactly where it is the text of none. `NoMemory` only where it is an unlock line's
/// text and there is no room for the value.
pub fn read_unlock(alloc: Global, line: &[u8]) -> Result<Option<UnlockLine>, NoMemory>
    ensures found { IfOk result (λ found. IfSome found (λ l. IsUnlockLine l × (line.now ≡ unlock_line_text l))) }
    ensures only { (l : UnlockLineValue) → IsUnlockLine l → line.now ≡ unlock_line_text l → IfOk result (λ found. found ≡ Some l) }
    ensures lacked { OnErr result (IsTextOf IsUnlockLine unlock_line_text line.now) }
    ensures exact { IfOk result (λ found. found ≡ unlock_line_of line.now) }
{
    read_line(alloc, line)
}

fn put_one(unlock: &Unlock, out: &mut Line)
    requires { array_vec_len out.old + length (unlock_text unlock.now) ≤ 2048 }
    ensures text { out.new.items ≡ out.old.items ++ unlock_text unlock.now }
    ensures room { array_vec_len out.new ≡ array_vec_len out.old + length (unlock_text unlock.now) }
{
    match unlock {
        Unlock::Sig(issuer) => put_number_function(b"SIG(", *issuer, out),
        Unlock::Xhx(password) => put_function(b"XHX(", password.as_slice(), out),
    }
}

#[tactic(auto, using(crate::proofs::Tails::joined_tail))]
fn put_list(list: &[Unlock], out: &mut Line)
    requires { array_vec_len out.old + length (joined (codes " ") (map unlock_text list.now)) ≤ 2048 }
    ensures text { out.new.items ≡ out.old.items ++ joined (codes " ") (map unlock_text list.now) }
    ensures room { array_vec_len out.new ≡ array_vec_len out.old + length (joined (codes " ") (map unlock_text list.now)) }
{
    let mut before: &[u8] = b"";
    for unlock in list {
        put_bytes(out, before);
        put_one(unlock, out);
        before = b" ";
    }
}

/// Appends the line's text. The line is in range, and `out` has 1,100 free places. It takes no memory.
pub fn put_unlock(unlock: &UnlockLine, out: &mut Line)
    requires valid { IsUnlockLine unlock.now }
    requires room { array_vec_len out.old + 1100 ≤ 2048 }
    ensures text { out.new.items ≡ out.old.items ++ unlock_line_text unlock.now }
    ensures room { array_vec_len out.new ≤ array_vec_len out.old + 1000 }
{
    put_number(unlock.input as u128, out);
    put_bytes(out, b":");
    put_list(unlock.list.as_slice(), out);
}
