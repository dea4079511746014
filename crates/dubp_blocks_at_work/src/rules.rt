ghost use Rattle.dubp_block.specs.Text.{IsBlock};

use dubp_atoms::{Hash, NoMemory};
use dubp_block::Block;
use dubp_local::{check_local, check_unsigned};
use dubp_rules::Rule;
use dubp_verdict::Verdicts;
use std::alloc::Global;
use std::mem::forget;

const SIGNED_LINES: &[u8] =
    b"InnerHash: 9880AB695793A40B4291DC5A5FB6FB082B901AFAD5E758E3B1B90168CFFB80B0\nNonce: 0\n";

// Whether the block breaks one rule without its verdict, and none unsigned or with its verdict.
fn breaks_one_rule(alloc: Global, block: &Block, verdicts: &mut Verdicts) -> Result<bool, NoMemory>
    requires { IsBlock block.now }
{
    let lacking = check_local(alloc, block, verdicts, None)? == Some(Rule::L05);
    let unsigned = check_unsigned(alloc, block, verdicts, None)?.is_none();
    verdicts.add(block.issuer, Hash::of(SIGNED_LINES), block.sig)?;
    let signed = check_local(alloc, block, verdicts, None)?.is_none();
    Ok(lacking && unsigned && signed)
}

/// Whether the block lacks its verdict alone.
pub(crate) fn lacks_its_verdict(alloc: Global, block: &Block) -> bool
    requires { IsBlock block.now }
{
    let mut verdicts = Verdicts::new(alloc);
    let good = breaks_one_rule(alloc, block, &mut verdicts);
    forget(verdicts);
    good == Ok(true)
}
