//! The difficulty of a key for the next block.
ghost use Rattle.std.specs.Prelude.{◌≡◌, []};
ghost use Rattle.dubp_replay.specs.Answers.{diff_answer_of};

use crate::values::{put_none, put_spaced};
use arrayvec::ArrayVec;
use dubp_atoms::{Line, put_bytes};

/// The answer to DIFF: the difficulty that a member would have for the next block, or `NONE` where the key is no member or the chain is
/// empty. It takes no memory.
pub fn diff_line(difficulty: Option<u128>) -> Line
    ensures { result.items ≡ diff_answer_of difficulty }
{
    let mut line: Line = ArrayVec::new();
    put_diff_line(difficulty, &mut line);
    line
}

/// The same answer, put into an empty line.
pub fn put_diff_line(difficulty: Option<u128>, line: &mut Line)
    requires { line.old.items ≡ [] }
    ensures { line.new.items ≡ diff_answer_of difficulty }
{
    let Some(difficulty) = difficulty else {
        return put_none(line);
    };
    put_bytes(line, b"DIFF");
    put_spaced(difficulty, line);
    put_bytes(line, b"\n");
}
