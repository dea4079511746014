ghost use Rattle.std.specs.Prelude.{◌≡◌, MatchOption};
ghost use Rattle.dubp_entries.specs.Reading.{IsNoLine};
ghost use Rattle.dubp_entries.specs.declared.item.Item.TheVariants as item;

use dubp_script::Framed;

/// An entry of the input as it stands in the bytes at hand, or what is left of one that was read past.
#[derive(Drop)]
pub enum Item<'a> {
    /// A line that is longer than lines are read, and was read past.
    LongLine,
    /// A line behind which no frame stands, without its LF.
    Line(&'a [u8]),
    /// The command that heads a frame, its raw bytes, and the byte behind them.
    Frame(Framed, &'a [u8], u8),
    /// The byte behind a frame that is longer than frames are read.
    LongFrame(u8),
}

impl<'a> Item<'a> {
    /// The line, where one is at hand. None exactly where a line was read past, or there is a frame.
    pub fn line(&self) -> Option<&'a [u8]>
        ensures { MatchOption result (IsNoLine self.now) (λ line. self.now ≡ item.Line line) }
    {
        match self {
            Item::Line(line) => Some(*line),
            _ => None,
        }
    }
}
