//! Laws of the text: the functions do nothing, and their contracts are the laws.
ghost use Rattle.std.specs.Prelude.{◌≡◌};
ghost use Rattle.dubp_lines.specs.Lines.{unlines};
ghost use Rattle.dubp_block.specs.Examples.{example_block, example_block_lines};
ghost use Rattle.dubp_block.specs.Text.{IsBlock, block_text, size_of};
ghost use Rattle.dubp_block.specs.declared.block.Block.{Block as BlockValue};

/// Two blocks of one text are one.
pub fn blocks_have_one_text()
    ensures { (b c : BlockValue) → IsBlock b → IsBlock c → block_text b ≡ block_text c → b ≡ c }
{}

/// An example of a block with a line in each section has the text that was written by hand, and 17 lines count for its size.
pub fn example_has_this_text()
    ensures text { block_text example_block ≡ unlines example_block_lines }
    ensures size { size_of example_block ≡ 17 }
{}
