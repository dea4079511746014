ghost use Rattle.std.specs.Prelude.{◌≡◌, ◌+◌, ◌++◌, ◌∷◌, [], ◌<◌, ◌≤◌, length, decimal, OnOk, OnErr};
ghost use Rattle.std.specs.Fmt.{signed_decimal};
ghost use Rattle.arrayvec.specs.ArrayVec.{array_vec_len};
ghost use Rattle.dubp_atoms.specs.Adding.{Adds, Stays};
ghost use Rattle.dubp_atoms.specs.Letters.{LF};

use crate::as_text::AsText;
use arrayvec::ArrayVec;
use dubp_atoms::{Line, TextSink, put_bytes};
use itoa::Buffer;

/// Adds a line of at most 2,000 bytes and LF. Refused, the sink has what it had. It takes no memory but the sink's.
pub fn put_line<S: TextSink>(out: &mut S, line: &[u8]) -> Result<(), S::Refusal>
    requires { length line.now ≤ 2000 }
    ensures added { OnOk result (Adds S.has out.old out.new (line.now ++ LF ∷ [])) }
    ensures refused { OnErr result (Stays S.has out.old out.new) }
{
    put_two(out, b"", line)
}

/// Adds a line of a name and a text of at most 1,000 bytes each, and LF. Refused, the sink has what it had. It takes no memory
/// but the sink's.
pub fn put_text_line<S: TextSink>(out: &mut S, name: &[u8], text: &[u8]) -> Result<(), S::Refusal>
    requires name { length name.now ≤ 1000 }
    requires text { length text.now ≤ 1000 }
    ensures added { OnOk result (Adds S.has out.old out.new ((name.now ++ text.now) ++ LF ∷ [])) }
    ensures refused { OnErr result (Stays S.has out.old out.new) }
{
    put_two(out, name, text)
}

/// Adds a line of a name of at most 1,000 bytes and the text of a value, and LF. Refused, the sink has what it had. It takes no memory
/// but the sink's.
pub fn put_field_line<T: AsText, S: TextSink>(
    out: &mut S,
    name: &[u8],
    value: &T,
) -> Result<(), S::Refusal>
    requires { length name.now ≤ 1000 }
    ensures added { OnOk result (Adds S.has out.old out.new ((name.now ++ T.text_of value.now) ++ LF ∷ [])) }
    ensures refused { OnErr result (Stays S.has out.old out.new) }
{
    put_text_line(out, name, value.as_text())
}

/// Adds a line of a name of at most 1,000 bytes and a number, and LF. Refused, the sink has what it had. It takes no memory but
/// the sink's.
pub fn put_number_line<S: TextSink>(out: &mut S, name: &[u8], n: u64) -> Result<(), S::Refusal>
    requires { length name.now ≤ 1000 }
    ensures added { OnOk result (Adds S.has out.old out.new ((name.now ++ decimal n) ++ LF ∷ [])) }
    ensures refused { OnErr result (Stays S.has out.old out.new) }
{
    let mut digits = Buffer::new();
    put_two(out, name, digits.format(n).as_bytes())
}

/// Adds a line of a name of at most 1,000 bytes and a signed number, and LF. Refused, the sink has what it had. It takes no
/// memory but the sink's.
pub fn put_signed_line<S: TextSink>(out: &mut S, name: &[u8], n: i64) -> Result<(), S::Refusal>
    requires { length name.now ≤ 1000 }
    ensures added { OnOk result (Adds S.has out.old out.new ((name.now ++ signed_decimal n) ++ LF ∷ [])) }
    ensures refused { OnErr result (Stays S.has out.old out.new) }
{
    let mut digits = Buffer::new();
    put_two(out, name, digits.format(n).as_bytes())
}

// Adds a line of two texts, which have at most 2,000 bytes together.
//
// Nearly every line is short, and 256 bytes are cleared in a fraction of the time of a whole `Line`. Each has a function of its own,
// since a function clears all that it has when it begins.
fn put_two<S: TextSink>(out: &mut S, name: &[u8], text: &[u8]) -> Result<(), S::Refusal>
    requires { length name.now + length text.now ≤ 2000 }
    ensures added { OnOk result (Adds S.has out.old out.new ((name.now ++ text.now) ++ LF ∷ [])) }
    ensures refused { OnErr result (Stays S.has out.old out.new) }
{
    if name.len() + text.len() < 256 {
        put_short(out, name, text)
    } else {
        put_long(out, name, text)
    }
}

// A line of at most 256 bytes, LF included.
type ShortLine = ArrayVec<u8, 256>;

fn put_short<S: TextSink>(out: &mut S, name: &[u8], text: &[u8]) -> Result<(), S::Refusal>
    requires { length name.now + length text.now < 256 }
    ensures added { OnOk result (Adds S.has out.old out.new ((name.now ++ text.now) ++ LF ∷ [])) }
    ensures refused { OnErr result (Stays S.has out.old out.new) }
{
    let mut line: ShortLine = ArrayVec::new();
    append(&mut line, name);
    append(&mut line, text);
    append(&mut line, b"\n");
    out.put(line.as_slice())
}

fn put_long<S: TextSink>(out: &mut S, name: &[u8], text: &[u8]) -> Result<(), S::Refusal>
    requires { length name.now + length text.now ≤ 2000 }
    ensures added { OnOk result (Adds S.has out.old out.new ((name.now ++ text.now) ++ LF ∷ [])) }
    ensures refused { OnErr result (Stays S.has out.old out.new) }
{
    let mut line: Line = ArrayVec::new();
    put_bytes(&mut line, name);
    put_bytes(&mut line, text);
    put_bytes(&mut line, b"\n");
    out.put(line.as_slice())
}

// Appends bytes for which there is room.
fn append(line: &mut ShortLine, bytes: &[u8])
    requires { array_vec_len line.old + length bytes.now ≤ 256 }
    ensures text { line.new.items ≡ line.old.items ++ bytes.now }
    ensures room { array_vec_len line.new ≡ array_vec_len line.old + length bytes.now }
{
    let _ = line.try_extend_from_slice(bytes);
}
