ghost use Rattle.std.specs.Prelude.{◌≡◌, ◌+◌, ◌≤◌, ◌++◌, IfSome, Some, option_map};
ghost use Rattle.arrayvec.specs.ArrayVec.{array_vec_len};
ghost use Rattle.dubp_cond.specs.Sources.{source_text, IsSource, input_text, IsInput};
ghost use Rattle.dubp_cond.specs.ReadingLines.{base_of, dividend_of, made_output_of, source_of, input_of};
ghost use Rattle.dubp_cond.specs.declared.source.Input.{Input as InputValue};

use crate::cursor::after;
use dubp_atoms::{Hash, Key, Line, cut, put_bytes, put_number, read_number};

/// Which source: the dividend of a member in a block, or the output of this number, from 0, of a transaction.
///
/// Dividends come before outputs, and each are ordered by their fields. The numbers are below 2^53.
#[derive(Clone, Copy, Debug, PartialEq, Eq, PartialOrd, Ord, Hash)]
pub enum SourceId {
    D { key: Key, block: u64 },
    T { tx: Hash, index: u64 },
}

/// An INPUT: a source that a transaction spends, with its amount in units of 10^`base`.
///
/// The amount is below 2^53 and the base at most 15.
#[derive(Clone, Copy, Debug, PartialEq, Eq)]
pub struct Input {
    pub amount: u64,
    pub base: u8,
    pub source: SourceId,
}

/// The greatest base.
const MAX_BASE: u64 = 15;

/// The base that this text is. None exactly where it is no number from 0 to 15.
pub fn read_base(text: &[u8]) -> Option<u8>
    ensures { result ≡ base_of text.now }
{
    let base = read_number(text)?;
    if base <= MAX_BASE {
        Some(base as u8)
    } else {
        None
    }
}

fn read_dividend(text: &[u8]) -> Option<SourceId>
    ensures { result ≡ dividend_of text.now }
{
    let (key, block) = cut(text, b':')?;
    let key = Key::read(key)?;
    let block = read_number(block)?;
    Some(SourceId::D { key, block })
}

fn read_made_output(text: &[u8]) -> Option<SourceId>
    ensures { result ≡ made_output_of text.now }
{
    let (tx, index) = cut(text, b':')?;
    let tx = Hash::read(tx)?;
    let index = read_number(index)?;
    Some(SourceId::T { tx, index })
}

#[tactic(auto, unfolding(crate::specs::ReadingLines::source_of))]
fn read_source(text: &[u8]) -> Option<SourceId>
    ensures { result ≡ source_of text.now }
{
    if let Some(rest) = after(b"D:", text) {
        return read_dividend(rest);
    }
    read_made_output(after(b"T:", text)?)
}

#[tactic(auto, unfolding(crate::specs::ReadingLines::input_of))]
fn read_parts(line: &[u8]) -> Option<Input>
    ensures { result ≡ input_of line.now }
{
    let (amount, rest) = cut(line, b':')?;
    let amount = read_number(amount)?;
    let (base, source) = cut(rest, b':')?;
    let base = read_base(base)?;
    let source = read_source(source)?;
    Some(Input {
        amount,
        base,
        source,
    })
}

/// The input that this line is. None exactly where it is the text of none. It takes no memory.
pub fn read_input(line: &[u8]) -> Option<Input>
    ensures found { IfSome result (λ i. IsInput i × (line.now ≡ input_text i)) }
    ensures only { (i : InputValue) → IsInput i → line.now ≡ input_text i → result ≡ Some i }
    ensures exact { result ≡ input_of line.now }
{
    read_parts(line)
}

fn put_source(source: &SourceId, out: &mut Line)
    requires valid { IsSource source.now }
    requires room { array_vec_len out.old + 300 ≤ 2048 }
    ensures text { out.new.items ≡ out.old.items ++ source_text source.now }
    ensures room { array_vec_len out.new ≤ array_vec_len out.old + 83 }
{
    match source {
        SourceId::D { key, block } => {
            put_bytes(out, b"D:");
            key.put(out);
            put_bytes(out, b":");
            put_number(*block as u128, out);
        }
        SourceId::T { tx, index } => {
            put_bytes(out, b"T:");
            tx.put(out);
            put_bytes(out, b":");
            put_number(*index as u128, out);
        }
    }
}

/// Appends the input's text. The input is in range, and `out` has 1,100 free places. It takes no memory.
pub fn put_input(input: &Input, out: &mut Line)
    requires valid { IsInput input.now }
    requires room { array_vec_len out.old + 1100 ≤ 2048 }
    ensures text { out.new.items ≡ out.old.items ++ input_text input.now }
    ensures room { array_vec_len out.new ≤ array_vec_len out.old + 117 }
{
    put_number(input.amount as u128, out);
    put_bytes(out, b":");
    put_number(input.base as u128, out);
    put_bytes(out, b":");
    put_source(&input.source, out);
}
