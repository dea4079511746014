ghost use Rattle.std.specs.Prelude.{◌≡◌, ◌++◌, ◌∷◌, [], codes, decimal};
ghost use Rattle.dubp_atoms.specs.Letters.{SPACE};
ghost use Rattle.dubp_replay.specs.Answers.{answer_line, bad_answer};
ghost use Rattle.dubp_rules.specs.Table.{code_text};

use arrayvec::ArrayVec;
use dubp_atoms::{Line, put_bytes, put_number};
use dubp_rules::{Rule, code};
use dubp_turns::{put_numbered, put_one};

/// `BAD`: the answer to a line that is no command, and to a frame that does not end with LF. It is put into an empty line.
pub fn put_bad(line: &mut Line)
    requires { line.old.items ≡ [] }
    ensures { line.new.items ≡ bad_answer }
{
    put_one(b"BAD", line);
}

/// What `gen` was asked for.
pub fn asked_for(n: u64, start: u64) -> Line
    ensures { result.items ≡ answer_line (codes "GEN " ++ (decimal n ++ (SPACE ∷ decimal start))) }
{
    let mut line: Line = ArrayVec::new();
    put_bytes(&mut line, b"GEN ");
    put_number(n as u128, &mut line);
    put_bytes(&mut line, b" ");
    put_number(start as u128, &mut line);
    put_bytes(&mut line, b"\n");
    line
}

/// `NO NONCE` and the number of the block for which there is none.
pub fn no_nonce(block: u64) -> Line
    ensures { result.items ≡ answer_line (codes "NO NONCE " ++ decimal block) }
{
    let mut line: Line = ArrayVec::new();
    put_numbered(b"NO NONCE ", block, &mut line);
    line
}

/// `NO BLOCK`, the number of the block that is refused, and the code of the rule that it breaks.
pub fn no_block(block: u64, rule: Rule) -> Line
    ensures { result.items ≡ answer_line (codes "NO BLOCK " ++ (decimal block ++ (SPACE ∷ code_text rule))) }
{
    let mut line: Line = ArrayVec::new();
    put_bytes(&mut line, b"NO BLOCK ");
    put_number(block as u128, &mut line);
    put_bytes(&mut line, b" ");
    put_bytes(&mut line, code(rule).as_slice());
    put_bytes(&mut line, b"\n");
    line
}
