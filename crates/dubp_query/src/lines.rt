ghost use Rattle.std.specs.Prelude.{◌≡◌, ◌+◌, ◌≤◌, ◌++◌, ◌∷◌, [], codes, decimal, length};
ghost use Rattle.std.specs.Fmt.{signed_decimal};
ghost use Rattle.arrayvec.specs.ArrayVec.{array_vec_len};
ghost use Rattle.dubp_atoms.specs.Spelling.{stamp_text};
ghost use Rattle.dubp_replay.specs.Answers.{head_answer, head_text, spaced};
ghost use Rattle.dubp_chain.specs.Heads.{head_of};
ghost use Rattle.dubp_chain.specs.HeadStamp.{head_stamp};

use arrayvec::ArrayVec;
use dubp_atoms::{Line, Stamp, put_bytes, put_number, put_signed};
use dubp_replay::Head;
use dubp_statement::{Ledger, PeopleAndMoney};

/// The answer to HEAD: the values of the chain's head, or `NONE` where the chain is empty. It takes no memory.
pub fn head_line<T: PeopleAndMoney>(ledger: &Ledger<T>) -> Line
    ensures { result.items ≡ head_answer (head_of ledger.now.chain) }
{
    let mut line: Line = ArrayVec::new();
    put_head_line(ledger, &mut line);
    line
}

/// The same answer, put into an empty line.
pub fn put_head_line<T: PeopleAndMoney>(ledger: &Ledger<T>, line: &mut Line)
    requires { line.old.items ≡ [] }
    ensures { line.new.items ≡ head_answer (head_of ledger.now.chain) }
{
    match ledger.head() {
        None => put_bytes(line, b"NONE"),
        Some(head) => put_head(&head, line),
    }
    put_bytes(line, b"\n");
}

// `HEAD` and the values.
fn put_head(head: &Head, line: &mut Line)
    requires { line.old.items ≡ [] }
    ensures text { line.new.items ≡ head_text head.now }
    ensures room { array_vec_len line.new ≤ 600 }
{
    put_bytes(line, b"HEAD");
    put_spaced_stamp(&head.stamp(), line);
    put_spaced(head.median_time as u128, line);
    put_spaced(head.members as u128, line);
    put_spaced(head.pow_min as u128, line);
    put_spaced(head.dividend as u128, line);
    put_spaced(head.unit_base as u128, line);
    put_spaced(head.mass, line);
    put_spaced(head.frame as u128, line);
    put_spaced_signed(&head.frame_var, line);
    put_spaced(head.issuers as u128, line);
}

// A number behind a space.
fn put_spaced(n: u128, line: &mut Line)
    requires { array_vec_len line.old + 41 ≤ 2048 }
    ensures text { line.new.items ≡ line.old.items ++ spaced (decimal n) }
    ensures room { array_vec_len line.new ≤ array_vec_len line.old + 41 }
{
    put_bytes(line, b" ");
    put_number(n, line);
}

// A signed number behind a space.
fn put_spaced_signed(n: &i64, line: &mut Line)
    requires { array_vec_len line.old + 41 ≤ 2048 }
    ensures text { line.new.items ≡ line.old.items ++ spaced (signed_decimal n.now) }
    ensures room { array_vec_len line.new ≤ array_vec_len line.old + 41 }
{
    put_bytes(line, b" ");
    put_signed(*n, line);
}

// A stamp behind a space.
fn put_spaced_stamp(stamp: &Stamp, line: &mut Line)
    requires { array_vec_len line.old + 201 ≤ 2048 }
    ensures text { line.new.items ≡ line.old.items ++ spaced (stamp_text stamp.now) }
    ensures room { array_vec_len line.new ≤ array_vec_len line.old + 111 }
{
    put_bytes(line, b" ");
    stamp.put(line);
}
