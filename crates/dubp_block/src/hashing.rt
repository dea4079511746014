ghost use Rattle.std.specs.Prelude.{◌≡◌, Ok, length};
ghost use Rattle.dubp_atoms.specs.Hashing.{hash_of};
ghost use Rattle.dubp_lines.specs.Lines.{unlines};
ghost use Rattle.dubp_block.specs.Parts.{closing_of};
ghost use Rattle.dubp_block.specs.Text.{IsBlock, block_text, inner_text, block_hash_of, stamp_of as block_stamp};

use crate::block::Block;
use crate::writing::add_inner;
use arrayvec::ArrayVec;
use dubp_atoms::{Hash, Hashing, Line, NoMemory, Stamp, put_bytes, put_number};
use itoa::Buffer;
use std::alloc::Global;

/// The SHA-256 of the text before the InnerHash line: what a right InnerHash is. The block is in range. It takes no memory.
pub fn inner_hash_of(block: &Block) -> Hash
    requires { IsBlock block.now }
    ensures { result ≡ hash_of (inner_text block.now) }
{
    let mut hashing = Hashing::new();
    let Ok(()) = add_inner(&mut hashing, block);
    hashing.hash()
}

/// The SHA-256 of the text before the InnerHash line: what a right InnerHash is. The block is in range. It takes no memory, and
/// never fails.
pub fn inner_hash(_alloc: Global, block: &Block) -> Result<Hash, NoMemory>
    requires { IsBlock block.now }
    ensures { result ≡ Ok (hash_of (inner_text block.now)) }
{
    Ok(inner_hash_of(block))
}

/// The SHA-256 of the text before the InnerHash line, taken from the text that the block was read from: nothing is written again. It
/// takes no memory.
pub fn inner_hash_in(text: &[u8], block: &Block) -> Hash
    requires { text.now ≡ block_text block.now }
    ensures { result ≡ hash_of (inner_text block.now) }
{
    Hash::of(&text[..text.len() - closing_len(block)])
}

// How many bytes the InnerHash, Nonce and signature lines of a block have.
fn closing_len(block: &Block) -> usize
    ensures { result ≡ length (unlines (closing_of block.now)) }
{
    let mut digits = Buffer::new();
    let nonce = digits.format(block.nonce).as_bytes();
    21 + block.inner_hash.as_bytes().len() + nonce.len() + block.sig.as_bytes().len()
}

/// The hash of a block: the SHA-256 of its InnerHash, Nonce and signature lines. It takes no memory.
pub fn block_hash(block: &Block) -> Hash
    ensures { result ≡ block_hash_of block.now }
{
    let mut closing: Line = ArrayVec::new();
    spell_closing(block, &mut closing);
    Hash::of(closing.as_slice())
}

// Writes the InnerHash, Nonce and signature lines of a block, in place of what the line has.
fn spell_closing(block: &Block, line: &mut Line)
    ensures { line.new.items ≡ unlines (closing_of block.now) }
{
    line.clear();
    put_bytes(line, b"InnerHash: ");
    block.inner_hash.put(line);
    put_bytes(line, b"\nNonce: ");
    put_number(block.nonce as u128, line);
    put_bytes(line, b"\n");
    block.sig.put(line);
    put_bytes(line, b"\n");
}

/// The stamp of a block: its number and its hash. It takes no memory.
pub fn stamp_of(block: &Block) -> Stamp
    ensures { result ≡ block_stamp block.now }
{
    Stamp {
        number: block.number,
        hash: block_hash(block),
    }
}
