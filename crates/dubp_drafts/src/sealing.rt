ghost use Rattle.std.specs.Prelude.{◌≡◌, ◌≤◌, ◌<◌, ℕ, IfOk, IfSome, IfNone};
ghost use Rattle.dubp_atoms.specs.Hashing.{hash_of};
ghost use Rattle.dubp_block.specs.Text.{IsBlock, inner_text, signed_text};
ghost use Rattle.dubp_drafts.specs.Sealing.{IsSealing, MeetsWith, signed};

use crate::begun::Begun;
use crate::sealed::{SealRefusal, Sealed};
use crate::signing::sign;
use arrayvec::ArrayVec;
use dubp_atoms::{Hash, Line, put_bytes, put_number};
use dubp_block::{Block, inner_hash_of};
use dubp_pow::meets;

/// The nonces that are tried are below this.
const NONCES: u64 = 1_000_000;

/// Seals a draft: sets its inner hash, its nonce and its signature.
///
/// The nonce is the least one from 0 to 999,999 with which the block's hash meets the difficulty; `NoNonce` comes exactly where
/// there is none. The draft is in range, and its inner hash, nonce and signature are not read. It takes no memory.
pub fn seal(draft: Block, difficulty: u128) -> Result<Sealed, SealRefusal>
    requires { IsBlock draft }
    ensures sealed { IsSealing draft difficulty result }
    ensures block { IfOk result (λ s. IsBlock s.block) }
{
    let mut block = draft;
    block.inner_hash = inner_hash_of(&block);
    seal_hashed(block, difficulty)
}

/// Seals a draft that has its inner hash: sets its nonce and its signature.
///
/// The nonce is that of `seal`, and `NoNonce` comes where it comes there. The draft is in range, and its nonce and signature are not
/// read. It takes no memory.
pub fn seal_hashed(draft: Block, difficulty: u128) -> Result<Sealed, SealRefusal>
    requires text { IsBlock draft }
    requires inner { draft.inner_hash ≡ hash_of (inner_text draft) }
    ensures sealed { IsSealing draft difficulty result }
    ensures block { IfOk result (λ s. IsBlock s.block) }
{
    match least_nonce(&draft, difficulty) {
        None => Err(SealRefusal::NoNonce),
        Some(nonce) => {
            let mut block = draft;
            block.nonce = nonce;
            Ok(signed(block))
        }
    }
}

// The block with the signature by its issuer.
fn signed(block: Block) -> Sealed
    ensures block { result.block ≡ signed block }
    ensures key { result.key ≡ block.issuer }
    ensures message { result.message ≡ hash_of (signed_text block) }
    ensures sig { result.sig ≡ result.block.sig }
{
    let mut block = block;
    let text = signed_text(&block);
    let key = block.issuer;
    let sig = sign(&key, text.as_slice());
    block.sig = sig;
    Sealed {
        block,
        key,
        message: Hash::of(text.as_slice()),
        sig,
    }
}

// What the issuer of a block signs.
fn signed_text(block: &Block) -> Line
    ensures { result.items ≡ signed_text block.now }
{
    let mut text: Line = ArrayVec::new();
    put_bytes(&mut text, b"InnerHash: ");
    block.inner_hash.put(&mut text);
    put_bytes(&mut text, b"\nNonce: ");
    put_number(block.nonce as u128, &mut text);
    put_bytes(&mut text, b"\n");
    text
}

// The least nonce with which the block's hash meets the difficulty.
fn least_nonce(block: &Block, difficulty: u128) -> Option<u64>
    ensures within { IfSome result (λ nonce. nonce ≤ 999999) }
    ensures meets { IfSome result (λ nonce. MeetsWith block.now nonce difficulty) }
    ensures least { IfSome result (λ nonce. (n : ℕ) → n < nonce → MeetsWith block.now n difficulty → ⊥) }
    ensures none { IfNone result ((n : ℕ) → n ≤ 999999 → MeetsWith block.now n difficulty → ⊥) }
{
    let begun = Begun::of(block);
    // one text for all nonces, since a new one is cleared whole
    let mut text: Line = ArrayVec::new();
    for nonce in 0..NONCES {
        if meets(&begun.hash_with(nonce, &mut text), difficulty) {
            return Some(nonce);
        }
    }
    None
}
