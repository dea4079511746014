ghost use Rattle.std.specs.Prelude.{◌≡◌, ◌+◌, ◌≤◌, ◌++◌, ◌↔◌, is_some, Some, IfOk, IfSome, IsSome, IsTrue, OnErr};
ghost use Rattle.arrayvec.specs.ArrayVec.{array_vec_len};
ghost use Rattle.dubp_cond.specs.Outputs.{output_text, IsOutput};
ghost use Rattle.dubp_cond.specs.TextOf.{IsTextOf};
ghost use Rattle.dubp_cond.specs.ReadingLines.{output_of};
ghost use Rattle.dubp_cond.specs.declared.output.Output.{Output as OutputValue};

use crate::passing::pass_whole;
use crate::source::read_base;
use crate::spelled::{SpelledCond, read_spelled};
use dubp_atoms::{Line, NoMemory, cut, put_bytes, put_number, read_number};
use std::alloc::Global;

/// An OUTPUT: a new source of this amount in units of 10^`base`, and who may spend it.
///
/// The amount is below 2^53 and the base at most 15.
#[derive(Debug, Drop)]
pub struct Output {
    pub amount: u64,
    pub base: u8,
    pub cond: SpelledCond,
}

#[tactic(auto, unfolding(crate::specs::ReadingLines::output_of))]
fn read_parts(alloc: Global, line: &[u8]) -> Result<Option<Output>, NoMemory>
    ensures exact { IfOk result (λ found. found ≡ output_of line.now) }
    ensures lacked { OnErr result (IsSome (output_of line.now)) }
{
    let Some((amount, rest)) = cut(line, b':') else {
        return Ok(None);
    };
    let Some(amount) = read_number(amount) else {
        return Ok(None);
    };
    let Some((base, cond)) = cut(rest, b':') else {
        return Ok(None);
    };
    let Some(base) = read_base(base) else {
        return Ok(None);
    };
    let Some(cond) = read_spelled(alloc, cond)? else {
        return Ok(None);
    };
    Ok(Some(Output { amount, base, cond }))
}

#[tactic(auto, unfolding(crate::specs::ReadingLines::output_of))]
fn pass_parts(line: &[u8]) -> bool
    ensures { result ≡ is_some (output_of line.now) }
{
    let Some((amount, rest)) = cut(line, b':') else {
        return false;
    };
    let Some((base, cond)) = cut(rest, b':') else {
        return false;
    };
    read_number(amount).is_some() && read_base(base).is_some() && pass_whole(cond)
}

/// Whether the line is that of an output. It takes no memory.
pub fn is_output(line: &[u8]) -> bool
    ensures text { IsTrue result ↔ IsTextOf IsOutput output_text line.now }
    ensures exact { result ≡ is_some (output_of line.now) }
{
    pass_parts(line)
}

/// The output that this line is. None exactly where it is the text of none. `NoMemory` only where it is an output's text and
/// there is no room for the output.
pub fn read_output(alloc: Global, line: &[u8]) -> Result<Option<Output>, NoMemory>
    ensures found { IfOk result (λ found. IfSome found (λ o. IsOutput o × (line.now ≡ output_text o))) }
    ensures only { (o : OutputValue) → IsOutput o → line.now ≡ output_text o → IfOk result (λ found. found ≡ Some o) }
    ensures lacked { OnErr result (IsTextOf IsOutput output_text line.now) }
    ensures exact { IfOk result (λ found. found ≡ output_of line.now) }
{
    read_parts(alloc, line)
}

/// Appends the output's text. The output is in range, and `out` has 1,100 free places. It takes no memory.
pub fn put_output(output: &Output, out: &mut Line)
    requires valid { IsOutput output.now }
    requires room { array_vec_len out.old + 1100 ≤ 2048 }
    ensures text { out.new.items ≡ out.old.items ++ output_text output.now }
    ensures room { array_vec_len out.new ≤ array_vec_len out.old + 1034 }
{
    put_number(output.amount as u128, out);
    put_bytes(out, b":");
    put_number(output.base as u128, out);
    put_bytes(out, b":");
    put_bytes(out, output.cond.as_text());
}
