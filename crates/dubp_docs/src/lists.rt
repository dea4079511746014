ghost use Rattle.std.specs.Prelude.{◌≡◌, ℕ, List, [], ◌∷◌, ◌++◌, Option, length, is_some, IfOk, OnOk};
ghost use Rattle.dubp_atoms.specs.Letters.{is_key, is_sig};
ghost use Rattle.dubp_atoms.specs.Reading.{text_if};
ghost use Rattle.dubp_lines.specs.Taking.{Gives, GivesInRoom};
ghost use Rattle.dubp_cond.specs.ReadingLines.{input_of, unlock_line_of, output_of};
ghost use Rattle.dubp_docs.specs.Reading.{values_at, list_at, sigs_at};
ghost use Rattle.dubp_docs.specs.Passing.{counted};

use crate::steps::take_just;
use dubp_atoms::{Items, Key, NoMemory, Sig};
use dubp_cond::{
    Input, Output, UnlockLine, is_output, is_unlock, read_input, read_output, read_unlock,
};
use dubp_lines::{LineRefusal, Lines, Refused};
use std::alloc::Global;

/// The most lines of a list.
const MAX_LINES: usize = 100;

/// A value that stands alone in a line of a list.
pub trait ListLine: Drop {
    ghost reads: { List ℕ → Option Self };

    /// Whether the line is the text of one. It takes no memory.
    fn is_line(line: &[u8]) -> bool
        ensures { result ≡ is_some (reads line.now) };

    /// The value that the line is. `NoMemory` where there is no room for it.
    fn read_line(alloc: Global, line: &[u8]) -> Result<Option<Self>, NoMemory>
        ensures { IfOk result (λ found. found ≡ reads line.now) };
}

impl ListLine for Key {
    ghost reads = { text_if is_key };

    fn is_line(line: &[u8]) -> bool {
        Key::read(line).is_some()
    }

    fn read_line(_alloc: Global, line: &[u8]) -> Result<Option<Key>, NoMemory> {
        Ok(Key::read(line))
    }
}

impl ListLine for Sig {
    ghost reads = { text_if is_sig };

    fn is_line(line: &[u8]) -> bool {
        Sig::read(line).is_some()
    }

    fn read_line(_alloc: Global, line: &[u8]) -> Result<Option<Sig>, NoMemory> {
        Ok(Sig::read(line))
    }
}

impl ListLine for Input {
    ghost reads = { input_of };

    fn is_line(line: &[u8]) -> bool {
        read_input(line).is_some()
    }

    fn read_line(_alloc: Global, line: &[u8]) -> Result<Option<Input>, NoMemory> {
        Ok(read_input(line))
    }
}

impl ListLine for UnlockLine {
    ghost reads = { unlock_line_of };

    fn is_line(line: &[u8]) -> bool {
        is_unlock(line)
    }

    fn read_line(alloc: Global, line: &[u8]) -> Result<Option<UnlockLine>, NoMemory> {
        read_unlock(alloc, line)
    }
}

impl ListLine for Output {
    ghost reads = { output_of };

    fn is_line(line: &[u8]) -> bool {
        is_output(line)
    }

    fn read_line(alloc: Global, line: &[u8]) -> Result<Option<Output>, NoMemory> {
        read_output(alloc, line)
    }
}

fn push<T: Drop>(values: &mut Vec<T>, value: T) -> Result<(), NoMemory>
    ensures { OnOk result (values.new.items ≡ values.old.items ++ value ∷ []) }
{
    values.push(value).map_err(|_| NoMemory)
}

/// Passes over the next lines as long as they are values, at most so many, and counts them.
fn pass_values<T: ListLine>(lines: &mut Lines<'_>, most: usize) -> usize
    ensures count { result ≡ length (values_at T.reads most lines.old.0).0 }
    ensures lines { lines.new.0 ≡ (values_at T.reads most lines.old.0).1 }
    ensures tail { lines.new.1 ≡ lines.old.1 }
{
    let mut count = 0;
    'values: while count < most {
        let Ok(line) = lines.first() else {
            return count;
        };
        if !T::is_line(line) {
            return count;
        }
        lines.skip();
        count += 1;
    }
    count
}

/// Takes the next lines as long as they are values, at most so many.
fn take_values<T: ListLine>(
    alloc: Global,
    lines: &mut Lines<'_>,
    most: usize,
) -> Result<Vec<T>, NoMemory>
    ensures values { IfOk result (λ values. values.items ≡ (values_at T.reads most lines.old.0).0) }
    ensures lines { IfOk result (λ _. lines.new.0 ≡ (values_at T.reads most lines.old.0).1) }
    ensures tail { IfOk result (λ _. lines.new.1 ≡ lines.old.1) }
{
    let mut values: Vec<T> = Vec::new(alloc);
    'values: while values.len() < most {
        let Ok(line) = lines.first() else {
            return Ok(values);
        };
        let Some(value) = T::read_line(alloc, line)? else {
            return Ok(values);
        };
        push(&mut values, value)?;
        lines.skip();
    }
    Ok(values)
}

/// Passes over a heading and the lines of its list, and counts these.
pub fn pass_list<T: ListLine>(lines: &mut Lines<'_>, heading: &[u8]) -> Result<usize, Refused>
    ensures { Gives (λ n. (n, lines.new)) result (counted (list_at T.reads heading.now lines.old)) }
{
    take_just(lines, heading)?;
    let count = pass_values::<T>(lines, MAX_LINES);
    if count == 0 {
        return Err(lines.refused());
    }
    Ok(count)
}

/// Takes a heading and the lines of its list.
pub fn take_list<T: ListLine>(
    alloc: Global,
    lines: &mut Lines<'_>,
    heading: &[u8],
) -> Result<Items<T>, LineRefusal>
    ensures { GivesInRoom (λ values. (values, lines.new)) result (list_at T.reads heading.now lines.old) }
{
    take_just(lines, heading)?;
    let values = take_values::<T>(alloc, lines, MAX_LINES)?;
    if values.is_empty() {
        return Err(LineRefusal::from(lines.refused()));
    }
    Ok(Items::from_vec(values))
}

/// Passes over just so many signatures, and counts them.
pub fn pass_sigs(lines: &mut Lines<'_>, most: usize) -> Result<usize, Refused>
    ensures { Gives (λ n. (n, lines.new)) result (counted (sigs_at most lines.old)) }
{
    let count = pass_values::<Sig>(lines, most);
    if count != most {
        return Err(lines.refused());
    }
    Ok(count)
}

/// Takes just so many signatures.
pub fn take_sigs(
    alloc: Global,
    lines: &mut Lines<'_>,
    most: usize,
) -> Result<Items<Sig>, LineRefusal>
    ensures { GivesInRoom (λ values. (values, lines.new)) result (sigs_at most lines.old) }
{
    let sigs = take_values::<Sig>(alloc, lines, most)?;
    if sigs.len() != most {
        return Err(LineRefusal::from(lines.refused()));
    }
    Ok(Items::from_vec(sigs))
}
