//! How near a key is to the sentries, in one line.
ghost use Rattle.std.specs.Prelude.{◌≡◌, ◌+◌, ◌≤◌, ◌++◌, [], codes, IfOk, MatchOption, OnErr, OnOk};
ghost use Rattle.arrayvec.specs.ArrayVec.{array_vec_len};
ghost use Rattle.dubp_chain.specs.Chains.{Chain};
ghost use Rattle.dubp_chain.specs.People.{identity};
ghost use Rattle.dubp_validity.specs.Rules.{IsSound};
ghost use Rattle.dubp_people_views.specs.Nearness.{distance_texts, verdict_text};
ghost use Rattle.dubp_replay.specs.Answers.{none_answer, spaced, values_line, IsDistance};

use arrayvec::ArrayVec;
use dubp_answers::{put_none, put_spaced};
use dubp_atoms::{Key, Line, NoMemory, put_bytes};
use dubp_block::Block;
use dubp_moving::Tables;
use dubp_people_views::{DistanceView, Registry, distance};
use std::alloc::Global;

/// The answer to DISTANCE: how many of the sentries reach the key, how many there are beside it, and whether that is near enough, or
/// `NONE` where the key has no identity.
///
/// `NoMemory` where there is no room for the list of the sentries or for the search.
pub fn distance_line(alloc: Global, registry: &Registry, key: Key) -> Result<Line, NoMemory>
    ensures { IfOk result (λ line. (c : Chain) → ⟦<Registry as Tables<Block>>⟧.at registry.now c → IsSound c → MatchOption (identity c key) (line.items ≡ none_answer) (λ _. IsDistance c key line.items)) }
{
    let mut line: Line = ArrayVec::new();
    put_distance_line(alloc, registry, key, &mut line)?;
    Ok(line)
}

/// The same answer, put into an empty line.
///
/// `NoMemory` as there, and leaves the line empty.
pub fn put_distance_line(
    alloc: Global,
    registry: &Registry,
    key: Key,
    line: &mut Line,
) -> Result<(), NoMemory>
    requires { line.old.items ≡ [] }
    ensures told { OnOk result ((c : Chain) → ⟦<Registry as Tables<Block>>⟧.at registry.now c → IsSound c → MatchOption (identity c key) (line.new.items ≡ none_answer) (λ _. IsDistance c key line.new.items)) }
    ensures refused { OnErr result (line.new.items ≡ []) }
{
    match distance(alloc, registry, key)? {
        Some(view) => {
            put_view(&view, line);
            Ok(())
        }
        None => {
            put_none(line);
            Ok(())
        }
    }
}

fn put_view(view: &DistanceView, line: &mut Line)
    requires { line.old.items ≡ [] }
    ensures { line.new.items ≡ values_line (codes "DISTANCE") (distance_texts view.now) }
{
    put_bytes(line, b"DISTANCE");
    put_spaced(view.reached as u128, line);
    put_spaced(view.sentries as u128, line);
    put_verdict(view, line);
    put_bytes(line, b"\n");
}

/// Whether the key is near enough, behind a space. `line` has 5 free places.
fn put_verdict(view: &DistanceView, line: &mut Line)
    requires { array_vec_len line.old + 5 ≤ 2048 }
    ensures text { line.new.items ≡ line.old.items ++ spaced (verdict_text view.now.passes) }
    ensures room { array_vec_len line.new ≤ array_vec_len line.old + 5 }
{
    if view.passes {
        put_bytes(line, b" PASS");
    } else {
        put_bytes(line, b" FAIL");
    }
}
