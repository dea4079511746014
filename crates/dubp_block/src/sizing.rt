ghost use Rattle.std.specs.Prelude.{◌≡◌, ◌<◌, ◌^◌, length};
ghost use Rattle.dubp_block.specs.Sections.{compact_lines};
ghost use Rattle.dubp_block.specs.Text.{size_of};

use crate::block::Block;
use dubp_cond::Tx;

/// How many lines the seven sections other than Excluded have, without their headings. A transaction has the lines of its
/// compact form. The size is below 2^53. It takes no memory.
pub fn size(block: &Block) -> u64
    requires { size_of block.now < 2 ^ 53 }
    ensures { result ≡ size_of block.now }
{
    let mut size = block.identities.len() as u64;
    size += block.joiners.len() as u64;
    size += block.actives.len() as u64;
    size += block.leavers.len() as u64;
    size += block.revoked.len() as u64;
    size += block.certifications.len() as u64;
    for tx in block.transactions.as_slice() {
        size += tx_size(tx);
    }
    size
}

// How many lines the compact form of a transaction has.
fn tx_size(tx: &Tx) -> u64
    requires { length (compact_lines tx.now) < 2 ^ 53 }
    ensures { result ≡ length (compact_lines tx.now) }
{
    let comment_lines = if tx.comment.is_empty() { 0 } else { 1 };
    // before the issuers stand the first line and the stamp
    2 + tx.issuers.len() as u64
        + tx.inputs.len() as u64
        + tx.unlocks.len() as u64
        + tx.outputs.len() as u64
        + comment_lines
        + tx.sigs.len() as u64
}
