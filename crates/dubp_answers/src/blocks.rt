//! The text of a block.
ghost use Rattle.std.specs.Prelude.{◌≡◌, IfOk, IfSome, Some, option_copied};
ghost use Rattle.dubp_block.specs.Text.{IsBlock};
ghost use Rattle.dubp_replay.specs.Answers.{none_answer, show_answer_of};

use crate::values::add;
use dubp_atoms::NoMemory;
use dubp_block::{Block, put_block};
use std::alloc::Global;

/// The answer to SHOW: the text of the block and END, or `NONE` where there is no block. The block is in range.
///
/// `NoMemory` where there is no room for the text.
pub fn show_text(alloc: Global, block: Option<&Block>) -> Result<Vec<u8>, NoMemory>
    requires { IfSome (option_copied block) IsBlock }
    ensures { IfOk result (λ text. text.items ≡ show_answer_of (option_copied block.entry)) }
{
    match block {
        Some(found) => shown(alloc, found),
        None => none_text(alloc),
    }
}

fn shown(alloc: Global, block: &Block) -> Result<Vec<u8>, NoMemory>
    requires { IsBlock block.now }
    ensures { IfOk result (λ text. text.items ≡ show_answer_of (Some block.now)) }
{
    let mut text = put_block(alloc, block)?;
    add(&mut text, b"END\n")?;
    Ok(text)
}

/// The text that says that there is nothing.
pub fn none_text(alloc: Global) -> Result<Vec<u8>, NoMemory>
    ensures { IfOk result (λ text. text.items ≡ none_answer) }
{
    let mut text = Vec::new(alloc);
    add(&mut text, b"NONE\n")?;
    Ok(text)
}
