//! The moves of a condition, a line each.
ghost use Rattle.std.specs.Prelude.{◌≡◌, ◌+◌, ◌≤◌, ◌++◌, [], decimal, map, IfOk, OnOk};
ghost use Rattle.arrayvec.specs.ArrayVec.{array_vec_len};
ghost use Rattle.dubp_cond.specs.Sources.{input_text};
ghost use Rattle.dubp_replay.specs.Answers.{ended, kind_text, move_line, moved_input, spaced};
ghost use Rattle.dubp_answers.specs.MoveLines.{move_lines};

use crate::source_lines::put_source;
use crate::values::{add, put_spaced};
use arrayvec::ArrayVec;
use dubp_atoms::{Line, NoMemory, put_bytes, put_number};
use dubp_replay::{Kind, Move};
use std::alloc::Global;

/// The answer to STATEMENT: a line for each of the moves, in their order, and END.
///
/// `NoMemory` where there is no room for the text.
pub fn statement_text(alloc: Global, moves: &[Move]) -> Result<Vec<u8>, NoMemory>
    ensures { IfOk result (λ text. text.items ≡ ended (map move_line moves.now)) }
{
    let mut text = Vec::new(alloc);
    add_moves(&mut text, moves)?;
    add(&mut text, b"END\n")?;
    Ok(text)
}

fn add_moves(text: &mut Vec<u8>, moves: &[Move]) -> Result<(), NoMemory>
    ensures { OnOk result (text.new.items ≡ text.old.items ++ move_lines moves.now) }
{
    let mut line: Line = ArrayVec::new();
    for item in moves {
        put_line(item, &mut line);
        add(text, line.as_slice())?;
        line.clear();
    }
    Ok(())
}

fn put_line(item: &Move, line: &mut Line)
    requires { line.old.items ≡ [] }
    ensures { line.new.items ≡ move_line item.now }
{
    put_bytes(line, b"MOVE");
    put_happening(item, line);
    put_moved(item, line);
    put_spaced(item.balance, line);
    put_bytes(line, b"\n");
}

/// The number of the block, and what happened. `line` has 100 free places.
fn put_happening(item: &Move, line: &mut Line)
    requires { array_vec_len line.old + 100 ≤ 2048 }
    ensures text { line.new.items ≡ line.old.items ++ (spaced (decimal item.now.number) ++ spaced (kind_text item.now.kind)) }
    ensures room { array_vec_len line.new ≤ array_vec_len line.old + 51 }
{
    put_spaced(item.number as u128, line);
    put_kind(item.kind, line);
}

/// The source. `line` has 500 free places.
fn put_moved(item: &Move, line: &mut Line)
    requires { array_vec_len line.old + 500 ≤ 2048 }
    ensures text { line.new.items ≡ line.old.items ++ spaced (input_text (moved_input item.now)) }
    ensures room { array_vec_len line.new ≤ array_vec_len line.old + 201 }
{
    put_bytes(line, b" ");
    put_number(item.amount as u128, line);
    put_bytes(line, b":");
    put_number(item.base as u128, line);
    put_bytes(line, b":");
    put_source(&item.source, line);
}

fn put_kind(kind: Kind, line: &mut Line)
    requires { array_vec_len line.old + 10 ≤ 2048 }
    ensures text { line.new.items ≡ line.old.items ++ spaced (kind_text kind) }
    ensures room { array_vec_len line.new ≤ array_vec_len line.old + 10 }
{
    match kind {
        Kind::Made => put_bytes(line, b" MADE"),
        Kind::Spent => put_bytes(line, b" SPENT"),
        Kind::Cleared => put_bytes(line, b" CLEARED"),
    }
}
