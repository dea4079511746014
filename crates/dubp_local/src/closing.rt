//! The lines that close a block, as they are hashed: those that its issuer signs, and then the signature.
ghost use Rattle.std.specs.Prelude.{◌≡◌};
ghost use Rattle.dubp_block.specs.Text.{block_hash_of, signed_text};

use dubp_atoms::{Hash, Hashing, TextSink};
use dubp_block::Block;
use dubp_lines::{put_number_line, put_text_line};

/// What the issuer of the block signs, its InnerHash and Nonce lines, begun to be hashed. It takes no memory.
pub(crate) fn begin_closing(block: &Block) -> Hashing
    ensures { ⟦<Hashing as TextSink>⟧.has result (signed_text block.now) }
{
    let mut closing = Hashing::new();
    let Ok(()) = put_text_line(&mut closing, b"InnerHash: ", block.inner_hash.as_bytes());
    let Ok(()) = put_number_line(&mut closing, b"Nonce: ", block.nonce);
    closing
}

/// The hash of the block, of whose closing lines all but the signature were put. It takes no memory.
pub(crate) fn end_closing(closing: Hashing, block: &Block) -> Hash
    requires { ⟦<Hashing as TextSink>⟧.has closing (signed_text block.now) }
    ensures { result ≡ block_hash_of block.now }
{
    let mut closing = closing;
    let Ok(()) = closing.put(block.sig.as_bytes());
    let Ok(()) = closing.put(b"\n");
    closing.hash()
}
