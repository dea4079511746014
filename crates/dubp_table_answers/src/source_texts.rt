//! The unspent sources of a condition, a line each.
ghost use Rattle.std.specs.Prelude.{◌≡◌, IfOk};
ghost use Rattle.dubp_chain.specs.Chains.{Chain};
ghost use Rattle.dubp_validity.specs.Rules.{IsSound};
ghost use Rattle.dubp_replay.specs.Answers.{sources_answer};

use crate::Money;
use crate::money_views::sources;
use dubp_answers::sources_lines;
use dubp_atoms::NoMemory;
use dubp_block::Block;
use dubp_cond::CondText;
use dubp_moving::Tables;
use std::alloc::Global;

/// The answer to SOURCES: a line for each unspent source of the condition of this text, in the order of making, and END.
///
/// `NoMemory` where there is no room for these sources or for the text.
pub fn sources_text(alloc: Global, money: &Money, cond: &CondText) -> Result<Vec<u8>, NoMemory>
    ensures { IfOk result (λ text. (c : Chain) → ⟦<Money as Tables<Block>>⟧.at money.now c → IsSound c → text.items ≡ sources_answer c cond.now.items) }
{
    let found = sources(alloc, money, cond)?;
    let text = sources_lines(alloc, found.as_slice())?;
    Ok(text)
}
