//! Unspent sources, a line each.
ghost use Rattle.std.specs.Prelude.{◌≡◌, ◌+◌, ◌≤◌, ◌++◌, [], map, IfOk, OnOk};
ghost use Rattle.arrayvec.specs.ArrayVec.{array_vec_len};
ghost use Rattle.dubp_cond.specs.Sources.{source_text, input_text};
ghost use Rattle.dubp_replay.specs.Answers.{ended};
ghost use Rattle.dubp_answers.specs.SourceLines.{view_input, view_line, view_lines};

use crate::values::add;
use arrayvec::ArrayVec;
use dubp_atoms::{Line, NoMemory, put_bytes, put_number};
use dubp_cond::SourceId;
use std::alloc::Global;

/// An unspent source: its amount, in units of 10^`base`, and its name.
#[derive(Clone, Copy, Debug, PartialEq, Eq)]
pub struct SourceView {
    pub amount: u64,
    pub base: u8,
    pub source: SourceId,
}

/// A line for each of these unspent sources, in their order, and END.
///
/// `NoMemory` where there is no room for the text.
pub fn sources_lines(alloc: Global, views: &[SourceView]) -> Result<Vec<u8>, NoMemory>
    ensures { IfOk result (λ text. text.items ≡ ended (map view_line views.now)) }
{
    let mut text = Vec::new(alloc);
    add_views(&mut text, views)?;
    add(&mut text, b"END\n")?;
    Ok(text)
}

fn add_views(text: &mut Vec<u8>, views: &[SourceView]) -> Result<(), NoMemory>
    ensures { OnOk result (text.new.items ≡ text.old.items ++ view_lines views.now) }
{
    let mut line: Line = ArrayVec::new();
    for view in views {
        put_line(view, &mut line);
        add(text, line.as_slice())?;
        line.clear();
    }
    Ok(())
}

fn put_line(view: &SourceView, line: &mut Line)
    requires { line.old.items ≡ [] }
    ensures { line.new.items ≡ view_line view.now }
{
    put_bytes(line, b"SOURCE ");
    put_view(view, line);
    put_bytes(line, b"\n");
}

/// The source as an input. `line` has 400 free places.
fn put_view(view: &SourceView, line: &mut Line)
    requires { array_vec_len line.old + 400 ≤ 2048 }
    ensures text { line.new.items ≡ line.old.items ++ input_text (view_input view.now) }
    ensures room { array_vec_len line.new ≤ array_vec_len line.old + 200 }
{
    put_number(view.amount as u128, line);
    put_bytes(line, b":");
    put_number(view.base as u128, line);
    put_bytes(line, b":");
    put_source(&view.source, line);
}

/// The name of the source. `line` has 300 free places.
pub(crate) fn put_source(id: &SourceId, line: &mut Line)
    requires { array_vec_len line.old + 300 ≤ 2048 }
    ensures text { line.new.items ≡ line.old.items ++ source_text id.now }
    ensures room { array_vec_len line.new ≤ array_vec_len line.old + 107 }
{
    match id {
        SourceId::D { key, block } => {
            put_bytes(line, b"D:");
            key.put(line);
            put_bytes(line, b":");
            put_number(*block as u128, line);
        }
        SourceId::T { tx, index } => {
            put_bytes(line, b"T:");
            tx.put(line);
            put_bytes(line, b":");
            put_number(*index as u128, line);
        }
    }
}
