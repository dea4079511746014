ghost use Rattle.std.specs.Prelude.{◌≡◌};
ghost use Rattle.dubp_lines.specs.declared.refusal.LineRefusal.TheVariants.{NoMemory as Memory, Left};

use dubp_atoms::NoMemory;

/// A line was not taken, since it is not spelt as its place asks.
#[derive(Clone, Copy, Debug, PartialEq, Eq)]
pub struct Refused {
    /// How many lines are left, from this line on. 0 where there is none.
    pub left: usize,
}

/// Why lines were not read by a reader that takes memory.
#[derive(Clone, Copy, Debug, PartialEq, Eq)]
pub enum LineRefusal {
    /// There was no room for what they say.
    NoMemory,
    /// A line is not spelt as its place asks. The number is that of the lines left, from this line on.
    Left(usize),
}

impl From<NoMemory> for LineRefusal {
    ghost from_gives = { λ _ refusal. refusal ≡ Memory };

    fn from(_no_memory: NoMemory) -> LineRefusal {
        LineRefusal::NoMemory
    }
}

impl From<Refused> for LineRefusal {
    ghost from_gives = { λ refused refusal. refusal ≡ Left refused.left };

    fn from(refused: Refused) -> LineRefusal {
        LineRefusal::Left(refused.left)
    }
}
