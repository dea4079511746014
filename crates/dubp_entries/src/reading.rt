ghost use Rattle.std.specs.Prelude.{◌≡◌, ◌+◌, ◌<◌, ◌≤◌, ℕ, List, length, take, drop, MatchOption, ◌∷◌, ◌++◌};
ghost use Rattle.dubp_atoms.specs.Letters.{LF};
ghost use Rattle.dubp_validity.specs.Rules.{longest_block};
ghost use Rattle.dubp_entries.specs.Entries.{HeadsFrame, IsText};
ghost use Rattle.dubp_script.specs.Framed.{framed_command, framed_len};
ghost use Rattle.dubp_script.specs.Spelling.{Says};
ghost use Rattle.dubp_entries.specs.Reading.{Takes};

use crate::item::Item;
use dubp_replay::LONGEST_BLOCK;
use dubp_script::{Framed, read_framed};
use memchr::memchr;

/// The longest line that is read, without its LF.
pub const LONGEST_LINE: usize = 4096;

/// What the next byte belongs to.
#[derive(Clone, Copy)]
pub enum Phase {
    /// An entry that is at hand from its start.
    Start,
    /// A line that is longer than lines are read.
    LongLine,
    /// A frame that is longer than frames are read, with this many bytes to come.
    LongFrame(u64),
}

/// What the bytes at hand begin with.
#[derive(Drop)]
pub enum Found<'a> {
    /// An entry, and how many bytes at hand it takes.
    Got(usize, Item<'a>),
    /// So many bytes that need not be kept, and what the next byte belongs to.
    Pass(usize, Phase),
    /// No whole entry, and nothing to pass.
    Wait,
}

/// Where the first LF stands.
pub fn line_end(hand: &[u8]) -> Option<usize>
    ensures { MatchOption result (IsText hand.now) (λ i. (i < length hand.now) × IsText (take i hand.now) × (hand.now ≡ take i hand.now ++ LF ∷ drop (i + 1) hand.now)) }
{
    memchr(b'\n', hand)
}

/// The command that this line is, where it heads a frame.
pub fn frame_head(line: &[u8]) -> Option<Framed>
    ensures { MatchOption result ((len : ℕ) → HeadsFrame line.now len → ⊥) (λ f. Says line.now (framed_command f)) }
{
    read_framed(line)
}

/// What the bytes at hand begin with.
pub fn take_one<'a>(phase: Phase, hand: &'a [u8]) -> Found<'a>
    ensures { Takes phase hand.now result }
{
    match phase {
        Phase::Start => take_first(hand),
        Phase::LongLine => end_long_line(hand),
        Phase::LongFrame(left) => end_long_frame(left, hand),
    }
}

fn take_first<'a>(hand: &'a [u8]) -> Found<'a>
    ensures { Takes Phase.Start hand.now result }
{
    let Some(end) = line_end(hand) else {
        if hand.len() > LONGEST_LINE {
            return Found::Pass(hand.len(), Phase::LongLine);
        }
        return Found::Wait;
    };
    let line = &hand[..end];
    match frame_head(line) {
        None => Found::Got(end + 1, Item::Line(line)),
        Some(framed) => take_frame(hand, end, framed),
    }
}

fn take_frame<'a>(hand: &'a [u8], end: usize, framed: Framed) -> Found<'a>
    requires line { IsText (take end hand.now) × (hand.now ≡ take end hand.now ++ LF ∷ drop (end + 1) hand.now) }
    requires within { end < length hand.now }
    requires head { Says (take end hand.now) (framed_command framed) }
    ensures { Takes Phase.Start hand.now result }
{
    let len = framed.len();
    if len > LONGEST_BLOCK as u64 {
        return Found::Pass(end + 1, Phase::LongFrame(len + 1));
    }
    take_short_frame(hand, end, framed, len as usize)
}

fn take_short_frame<'a>(hand: &'a [u8], end: usize, framed: Framed, len: usize) -> Found<'a>
    requires line { IsText (take end hand.now) × (hand.now ≡ take end hand.now ++ LF ∷ drop (end + 1) hand.now) }
    requires within { end < length hand.now }
    requires head { Says (take end hand.now) (framed_command framed) }
    requires len { framed_len framed ≡ len }
    requires fits { len ≤ longest_block }
    ensures { Takes Phase.Start hand.now result }
{
    let behind = &hand[end + 1..];
    if behind.len() <= len {
        return Found::Wait;
    }
    Found::Got(
        end + len + 2,
        Item::Frame(framed, &behind[..len], behind[len]),
    )
}

fn end_long_line<'a>(hand: &'a [u8]) -> Found<'a>
    ensures { Takes Phase.LongLine hand.now result }
{
    match line_end(hand) {
        Some(end) => Found::Got(end + 1, Item::LongLine),
        None if hand.is_empty() => Found::Wait,
        None => Found::Pass(hand.len(), Phase::LongLine),
    }
}

fn end_long_frame<'a>(left: u64, hand: &'a [u8]) -> Found<'a>
    ensures { Takes (Phase.LongFrame left) hand.now result }
{
    let len = hand.len() as u64;
    if len == 0 {
        return Found::Wait;
    }
    if left == 0 {
        return Found::Pass(hand.len(), Phase::LongFrame(0));
    }
    if len < left {
        return Found::Pass(hand.len(), Phase::LongFrame(left - len));
    }
    Found::Got(left as usize, Item::LongFrame(hand[left as usize - 1]))
}
