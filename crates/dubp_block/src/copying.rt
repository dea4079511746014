ghost use Rattle.std.specs.Prelude.{◌≡◌, IfOk};

use crate::block::Block;
use dubp_atoms::{Items, NoMemory};
use dubp_cond::{Tx, copy_tx};
use dubp_params::boxed_params;
use std::alloc::Global;

/// An equal block. `NoMemory` where there is no room for it.
pub fn copy_block(alloc: Global, block: &Block) -> Result<Block, NoMemory>
    ensures { IfOk result (λ copied. copied ≡ block.now) }
{
    Ok(Block {
        version: block.version,
        currency: block.currency,
        number: block.number,
        pow_min: block.pow_min,
        time: block.time,
        median_time: block.median_time,
        dividend: block.dividend,
        unit_base: block.unit_base,
        issuer: block.issuer,
        frame: block.frame,
        frame_var: block.frame_var,
        issuers: block.issuers,
        previous: block.previous,
        params: boxed_params(alloc, block.stated_params().copied())?,
        members: block.members,
        identities: block.identities.copy(alloc)?,
        joiners: block.joiners.copy(alloc)?,
        actives: block.actives.copy(alloc)?,
        leavers: block.leavers.copy(alloc)?,
        revoked: block.revoked.copy(alloc)?,
        excluded: block.excluded.copy(alloc)?,
        certifications: block.certifications.copy(alloc)?,
        transactions: Items::from_vec(copy_transactions(alloc, block.transactions.as_slice())?),
        inner_hash: block.inner_hash,
        nonce: block.nonce,
        sig: block.sig,
    })
}

fn copy_transactions(alloc: Global, transactions: &[Tx]) -> Result<Vec<Tx>, NoMemory>
    ensures { IfOk result (λ copied. copied.items ≡ transactions.now) }
{
    let mut copied = Vec::new(alloc);
    for tx in transactions {
        let tx = copy_tx(alloc, tx)?;
        copied.push(tx).map_err(|_| NoMemory)?;
    }
    Ok(copied)
}
