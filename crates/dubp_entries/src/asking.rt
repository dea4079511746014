ghost use Rattle.std.specs.Prelude.{◌≡◌, IsTrue};
ghost use Rattle.dubp_entries.specs.Asking.{ShowsQuestion, begins_change as is_change};

use crate::item::Item;

/// Whether the entry is sure to change nothing, whatever the state. A line is judged by its first word alone: one that begins as a command that
/// may change the state is not sure to change nothing, even where it is no command.
pub fn is_question(item: &Item<'_>) -> bool
    ensures { IsTrue result → ShowsQuestion item.now }
{
    match item {
        Item::LongLine => true,
        Item::Line(line) => !begins_change(line),
        Item::Frame(_, _, _) => false,
        Item::LongFrame(_) => false,
    }
}

// Whether the line begins as a command that may change the state, and that no frame follows.
fn begins_change(line: &[u8]) -> bool
    ensures { result ≡ is_change line.now }
{
    line.starts_with(b"VERDICT ")
        || line.starts_with(b"REVERT ")
        || line.starts_with(b"SWITCH ")
        || line.starts_with(b"FORGET ")
        || line.starts_with(b"AUTO ")
        || line.starts_with(b"UNPEND ")
}
