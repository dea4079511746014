ghost use Rattle.std.specs.Prelude.{◌≡◌, ◌++◌, ℕ, List};
ghost use Rattle.dubp_atoms.specs.Hashing.{hash_of};
ghost use Rattle.dubp_block.specs.declared.block.Block.{Block as BlockValue};
ghost use Rattle.dubp_drafts.specs.Begun.{before_nonce, HasBegun};
ghost use Rattle.dubp_drafts.specs.Sealing.{hash_with};

use crate::signing::put_as_signature;
use dubp_atoms::{Hash, Hashing, Line, TextSink, put_bytes, put_number};
use dubp_block::Block;

// The two texts that are hashed for each nonce of a block, read up to the nonce.
#[derive(Drop)]
pub(crate) struct Begun {
    // The issuer's key and the signed text behind it.
    signing: Hashing,
    // The signed text, with which the hashed lines of the block begin.
    hashing: Hashing,
}

impl Begun {
    // Those of a block that has its issuer and its inner hash.
    pub(crate) fn of(block: &Block) -> Begun
        ensures { HasBegun ⟦<Hashing as TextSink>⟧.has result block.now }
    {
        Begun {
            signing: hashing_of(block.issuer.as_bytes(), &block.inner_hash),
            hashing: hashing_of(b"", &block.inner_hash),
        }
    }

    // The hash of the block with this nonce and the signature by its issuer. What the text held is lost.
    pub(crate) fn hash_with(&self, nonce: u64, text: &mut Line) -> Hash
        ensures { (b : BlockValue) → HasBegun ⟦<Hashing as TextSink>⟧.has self.now b → result ≡ hash_with b nonce }
    {
        text.clear();
        put_number(nonce as u128, text);
        put_bytes(text, b"\n");
        let signature_hash = hash_behind(&self.signing, text.as_slice());
        put_as_signature(&signature_hash, text);
        put_bytes(text, b"\n");
        hash_behind(&self.hashing, text.as_slice())
    }
}

// A hash of these bytes and of the signed text up to the nonce.
fn hashing_of(front: &[u8], inner_hash: &Hash) -> Hashing
    ensures { ⟦<Hashing as TextSink>⟧.has result (front.now ++ before_nonce inner_hash.now) }
{
    let mut hashing = Hashing::new();
    let Ok(()) = hashing.put(front);
    let Ok(()) = hashing.put(b"InnerHash: ");
    let Ok(()) = hashing.put(inner_hash.as_bytes());
    let Ok(()) = hashing.put(b"\nNonce: ");
    hashing
}

// The hash of a text that is read so far, with these bytes behind it.
fn hash_behind(front: &Hashing, rest: &[u8]) -> Hash
    ensures { (text : List ℕ) → ⟦<Hashing as TextSink>⟧.has front.now text → result ≡ hash_of (text ++ rest.now) }
{
    let mut hashing = front.copy();
    let Ok(()) = hashing.put(rest);
    hashing.hash()
}
