//! What is said of an identity in one line.
ghost use Rattle.std.specs.Prelude.{◌≡◌, ◌+◌, ◌≤◌, ◌++◌, [], codes, decimal};
ghost use Rattle.arrayvec.specs.ArrayVec.{array_vec_len};
ghost use Rattle.dubp_chain.specs.Chains.{Chain};
ghost use Rattle.dubp_validity.specs.Rules.{IsSound};
ghost use Rattle.dubp_people_views.specs.Views.{identity_texts, state_text};
ghost use Rattle.dubp_replay.specs.Answers.{identity_answer, spaced, uid_answer, values_line};

use arrayvec::ArrayVec;
use dubp_answers::{put_none, put_spaced};
use dubp_atoms::{Key, Line, Uid, put_bytes};
use dubp_block::Block;
use dubp_moving::Tables;
use dubp_people_views::{IdentityState, IdentityView, Registry, identity, key_of};

/// The answer to IDENTITY: what is told of the identity of the key, or `NONE` where it has none. It takes no memory.
pub fn identity_line(registry: &Registry, key: Key) -> Line
    ensures { (c : Chain) → ⟦<Registry as Tables<Block>>⟧.at registry.now c → IsSound c → result.items ≡ identity_answer c key }
{
    let mut line: Line = ArrayVec::new();
    put_identity_line(registry, key, &mut line);
    line
}

/// The same answer, put into an empty line.
pub fn put_identity_line(registry: &Registry, key: Key, line: &mut Line)
    requires { line.old.items ≡ [] }
    ensures { (c : Chain) → ⟦<Registry as Tables<Block>>⟧.at registry.now c → IsSound c → line.new.items ≡ identity_answer c key }
{
    match identity(registry, key) {
        Some(view) => put_view(&view, line),
        None => put_none(line),
    }
}

/// The answer to UID: the same of the key whose line of Identities has the UID, or `NONE` where no line has it. It takes no memory.
pub fn uid_line(registry: &Registry, uid: Uid) -> Line
    ensures { (c : Chain) → ⟦<Registry as Tables<Block>>⟧.at registry.now c → IsSound c → result.items ≡ uid_answer c uid }
{
    let mut line: Line = ArrayVec::new();
    put_uid_line(registry, uid, &mut line);
    line
}

/// The same answer, put into an empty line.
pub fn put_uid_line(registry: &Registry, uid: Uid, line: &mut Line)
    requires { line.old.items ≡ [] }
    ensures { (c : Chain) → ⟦<Registry as Tables<Block>>⟧.at registry.now c → IsSound c → line.new.items ≡ uid_answer c uid }
{
    match key_of(registry, uid) {
        Some(key) => put_identity_line(registry, key, line),
        None => put_none(line),
    }
}

fn put_view(view: &IdentityView, line: &mut Line)
    requires { line.old.items ≡ [] }
    ensures { line.new.items ≡ values_line (codes "IDENTITY") (identity_texts view.now) }
{
    put_bytes(line, b"IDENTITY");
    put_names(view, line);
    put_membership(view, line);
    put_counts(view, line);
    put_bytes(line, b"\n");
}

/// The key and the UID. `line` has 300 free places.
fn put_names(view: &IdentityView, line: &mut Line)
    requires { array_vec_len line.old + 300 ≤ 2048 }
    ensures text { line.new.items ≡ line.old.items ++ (spaced view.now.key ++ spaced view.now.uid) }
    ensures room { array_vec_len line.new ≤ array_vec_len line.old + 146 }
{
    put_bytes(line, b" ");
    view.key.put(line);
    put_bytes(line, b" ");
    view.uid.put(line);
}

/// When the identity was written, how it stands, and when its membership ends. `line` has 100 free places.
fn put_membership(view: &IdentityView, line: &mut Line)
    requires { array_vec_len line.old + 100 ≤ 2048 }
    ensures text { line.new.items ≡ line.old.items ++ (spaced (decimal view.now.written) ++ (spaced (state_text view.now.state) ++ spaced (decimal view.now.expires))) }
    ensures room { array_vec_len line.new ≤ array_vec_len line.old + 92 }
{
    put_spaced(view.written as u128, line);
    put_state(view.state, line);
    put_spaced(view.expires as u128, line);
}

/// How many live certifications it has received and issued. `line` has 82 free places.
fn put_counts(view: &IdentityView, line: &mut Line)
    requires { array_vec_len line.old + 82 ≤ 2048 }
    ensures text { line.new.items ≡ line.old.items ++ (spaced (decimal view.now.received) ++ spaced (decimal view.now.issued)) }
    ensures room { array_vec_len line.new ≤ array_vec_len line.old + 82 }
{
    put_spaced(view.received as u128, line);
    put_spaced(view.issued as u128, line);
}

/// How an identity stands, behind a space. `line` has 10 free places.
fn put_state(state: IdentityState, line: &mut Line)
    requires { array_vec_len line.old + 10 ≤ 2048 }
    ensures text { line.new.items ≡ line.old.items ++ spaced (state_text state) }
    ensures room { array_vec_len line.new ≤ array_vec_len line.old + 10 }
{
    match state {
        IdentityState::Revoked => put_bytes(line, b" REVOKED"),
        IdentityState::Leaving => put_bytes(line, b" LEAVING"),
        IdentityState::Member => put_bytes(line, b" MEMBER"),
        IdentityState::Out => put_bytes(line, b" OUT"),
    }
}
