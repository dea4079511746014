ghost use Rattle.std.specs.Prelude.{◌≡◌, ◌^◌, ◌<◌, [], IsTrue, ℕ};
ghost use Rattle.dubp_block.specs.Text.{IsBlock, size_of};
ghost use Rattle.dubp_head.specs.Following.{MayFollow};

use dubp_block::Block;
use dubp_head::{Heads, augment, head_rules};
use dubp_params::in_range;
use dubp_rules::Rule;
use std::alloc::Global;
use std::mem::forget;

// Whether no section but Excluded has a line.
fn has_no_lines(block: &Block) -> bool
    ensures { IsTrue result → size_of block.now < 2 ^ 53 }
{
    block.identities.is_empty()
        && block.joiners.is_empty()
        && block.actives.is_empty()
        && block.leavers.is_empty()
        && block.revoked.is_empty()
        && block.certifications.is_empty()
        && block.transactions.is_empty()
}

// Whether the block may stand behind no head: as a first block whose numbers are small.
fn may_be_first(block: &Block) -> bool
    requires { IsBlock block.now }
    ensures { IsTrue result → (members : ℕ) → members < 2 ^ 21 → MayFollow members [] block.now }
{
    let small = block.time < 1 << 40 && block.median_time < 1 << 40;
    block.number == 0 && block.pow_min == 0 && small && has_no_lines(block)
}

// The rule on the header that the first block breaks where the chain has so many members with it. None where no answer comes.
fn broken_with(heads: &Heads, block: &Block, members: u64) -> Option<Option<Rule>>
    requires block { IsBlock block.now }
    requires heads { heads.now.list ≡ [] }
    requires few { members < 2 ^ 21 }
{
    let params = block.stated_params()?;
    if in_range(params) && may_be_first(block) {
        let head = augment(heads, params, block, members).ok()?;
        if head.members == members {
            return head_rules(heads, params, &head, block).ok();
        }
    }
    None
}

/// Whether the block states the head of a chain without members, and of no other.
pub(crate) fn states_its_head(alloc: Global, block: &Block) -> bool
    requires { IsBlock block.now }
{
    let heads = Heads::new(alloc);
    let stated = broken_with(&heads, block, 0);
    let not_stated = broken_with(&heads, block, 1);
    forget(heads);
    stated == Some(None) && not_stated == Some(Some(Rule::G60))
}
