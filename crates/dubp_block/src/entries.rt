ghost use Rattle.std.specs.Prelude.{◌≤◌, ◌++◌, ◌∷◌, [], length, map, OnOk, All};
ghost use Rattle.dubp_block.specs.AddsLines.{AddsLines};
ghost use Rattle.dubp_block.specs.Sections.{section};

use crate::put_text::PutText;
use dubp_atoms::{Items, Line, TextSink, put_bytes};
use dubp_lines::{AsText, put_field_line, put_line};

/// Adds this line.
#[tactic(auto, using(crate::proofs::Added::one_line))]
pub fn add_line<S: TextSink>(out: &mut S, line: &[u8]) -> Result<(), S::Refusal>
    requires { length line.now ≤ 2000 }
    ensures { OnOk result (AddsLines S.has out.old out.new (line.now ∷ [])) }
{
    put_line(out, line)
}

/// Adds a line of this name and of a value that has its text at hand.
#[tactic(auto, using(crate::proofs::Added::one_line))]
pub fn add_field<T: AsText, S: TextSink>(
    out: &mut S,
    name: &[u8],
    value: &T,
) -> Result<(), S::Refusal>
    requires { length name.now ≤ 100 }
    ensures { OnOk result (AddsLines S.has out.old out.new ((name.now ++ T.text_of value.now) ∷ [])) }
{
    put_field_line(out, name, value)
}

/// Adds a line of this name and value. The line is put together in `line`, whatever that holds.
#[tactic(auto, using(crate::proofs::Added::one_line))]
pub fn add_value<T: PutText, S: TextSink>(
    out: &mut S,
    line: &mut Line,
    name: &[u8],
    value: &T,
) -> Result<(), S::Refusal>
    requires valid { T.in_range value.now }
    requires name { length name.now ≤ 100 }
    ensures { OnOk result (AddsLines S.has out.old out.new ((name.now ++ T.spelling value.now) ∷ [])) }
{
    line.clear();
    put_bytes(line, name);
    value.put_text(line);
    put_bytes(line, b"\n");
    out.put(line.as_slice())
}

/// Adds a line for each value, which is put together in `line`.
pub fn add_values<T: PutText, S: TextSink>(
    out: &mut S,
    line: &mut Line,
    values: &Items<T>,
) -> Result<(), S::Refusal>
    requires { All T.in_range values.now }
    ensures { OnOk result (AddsLines S.has out.old out.new (map T.spelling values.now)) }
{
    for value in values.as_slice() {
        add_value(out, line, b"", value)?;
    }
    Ok(())
}

/// Adds a heading and a line for each value, which is put together in `line`.
pub fn add_section<T: PutText, S: TextSink>(
    out: &mut S,
    line: &mut Line,
    heading: &[u8],
    values: &Items<T>,
) -> Result<(), S::Refusal>
    requires valid { All T.in_range values.now }
    requires heading { length heading.now ≤ 50 }
    ensures { OnOk result (AddsLines S.has out.old out.new (section heading.now (map T.spelling values.now))) }
{
    add_line(out, heading)?;
    add_values(out, line, values)?;
    Ok(())
}
