//! The parts of a line.
ghost use Rattle.std.specs.Prelude.{◌≡◌, ◌+◌, ◌≤◌, ◌++◌, [], decimal, OnOk, OnErr};
ghost use Rattle.arrayvec.specs.ArrayVec.{array_vec_len};
ghost use Rattle.dubp_replay.specs.Answers.{none_answer, spaced};

use dubp_atoms::{Line, NoMemory, put_bytes, put_number};

/// A number behind a space. `line` has 41 free places.
pub fn put_spaced(n: u128, line: &mut Line)
    requires { array_vec_len line.old + 41 ≤ 2048 }
    ensures text { line.new.items ≡ line.old.items ++ spaced (decimal n) }
    ensures room { array_vec_len line.new ≤ array_vec_len line.old + 41 }
{
    put_bytes(line, b" ");
    put_number(n, line);
}

/// The line that says that there is nothing.
pub fn put_none(line: &mut Line)
    requires { line.old.items ≡ [] }
    ensures { line.new.items ≡ none_answer }
{
    put_bytes(line, b"NONE\n");
}

/// Adds bytes to a text.
pub fn add(text: &mut Vec<u8>, bytes: &[u8]) -> Result<(), NoMemory>
    ensures added { OnOk result (text.new.items ≡ text.old.items ++ bytes.now) }
    ensures refused { OnErr result (text.new.items ≡ text.old.items) }
{
    text.extend_from_slice(bytes).map_err(|_| NoMemory)
}
