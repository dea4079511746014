//! The live certifications of a key, a line each.
ghost use Rattle.std.specs.Prelude.{◌≡◌, ◌+◌, ◌≤◌, ◌++◌, [], decimal, map, IfOk, OnOk};
ghost use Rattle.arrayvec.specs.ArrayVec.{array_vec_len};
ghost use Rattle.dubp_chain.specs.Chains.{Chain};
ghost use Rattle.dubp_validity.specs.Rules.{IsSound};
ghost use Rattle.dubp_replay.specs.Answers.{certs_answer, ended, spaced};
ghost use Rattle.dubp_table_answers.specs.CertificationLines.{view_line, view_lines};

use arrayvec::ArrayVec;
use dubp_answers::{add, none_text, put_spaced};
use dubp_atoms::{Key, Line, NoMemory, put_bytes};
use dubp_block::Block;
use dubp_moving::Tables;
use dubp_people_views::{CertificationView, Registry, certs};
use std::alloc::Global;

/// The answer to CERTS: a line for each live certification that the key received, by issuer, then one for each that it issued, by
/// receiver, and END; or `NONE` where the key has no identity.
///
/// `NoMemory` where there is no room for these certifications or for the text.
pub fn certs_text(alloc: Global, registry: &Registry, key: Key) -> Result<Vec<u8>, NoMemory>
    ensures { IfOk result (λ text. (c : Chain) → ⟦<Registry as Tables<Block>>⟧.at registry.now c → IsSound c → text.items ≡ certs_answer c key) }
{
    match certs(alloc, registry, key)? {
        Some(views) => views_text(alloc, views.as_slice()),
        None => none_text(alloc),
    }
}

fn views_text(alloc: Global, views: &[CertificationView]) -> Result<Vec<u8>, NoMemory>
    ensures { IfOk result (λ text. text.items ≡ ended (map view_line views.now)) }
{
    let mut text = Vec::new(alloc);
    add_views(&mut text, views)?;
    add(&mut text, b"END\n")?;
    Ok(text)
}

fn add_views(text: &mut Vec<u8>, views: &[CertificationView]) -> Result<(), NoMemory>
    ensures { OnOk result (text.new.items ≡ text.old.items ++ view_lines views.now) }
{
    let mut line: Line = ArrayVec::new();
    for view in views {
        put_line(view, &mut line);
        add(text, line.as_slice())?;
        line.clear();
    }
    Ok(())
}

fn put_line(view: &CertificationView, line: &mut Line)
    requires { line.old.items ≡ [] }
    ensures { line.new.items ≡ view_line view.now }
{
    put_bytes(line, b"CERT");
    put_keys(&view.from, &view.to, line);
    put_times(view, line);
    put_bytes(line, b"\n");
}

/// The issuer and the receiver. `line` has 300 free places.
fn put_keys(from: &Key, to: &Key, line: &mut Line)
    requires { array_vec_len line.old + 300 ≤ 2048 }
    ensures text { line.new.items ≡ line.old.items ++ (spaced from.now ++ spaced to.now) }
    ensures room { array_vec_len line.new ≤ array_vec_len line.old + 90 }
{
    put_bytes(line, b" ");
    from.put(line);
    put_bytes(line, b" ");
    to.put(line);
}

/// When the certification was made and when it ends, and the number of its block. `line` has 123 free places.
fn put_times(view: &CertificationView, line: &mut Line)
    requires { array_vec_len line.old + 123 ≤ 2048 }
    ensures text { line.new.items ≡ line.old.items ++ (spaced (decimal view.now.made) ++ (spaced (decimal view.now.expires) ++ spaced (decimal view.now.written))) }
    ensures room { array_vec_len line.new ≤ array_vec_len line.old + 123 }
{
    put_spaced(view.made as u128, line);
    put_spaced(view.expires as u128, line);
    put_spaced(view.written as u128, line);
}
