ghost use Rattle.std.specs.Prelude.{◌≡◌, ◌<◌, ◌≤◌, ◌↔◌, true, length, is_some, IsTrue};
ghost use Rattle.dubp_cond.specs.Conditions.{cond_text, IsCond};
ghost use Rattle.dubp_cond.specs.TextOf.{IsTextOf};
ghost use Rattle.dubp_cond.specs.Gives.{Passes};
ghost use Rattle.dubp_cond.specs.Reading.{item_at, all_at, cond_at, cond_of_text};

use crate::cursor::Cursor;
use crate::front::{Front, take_front};

/// The most groups that are open at once.
pub const MAX_GROUPS: usize = 64;

/// The most characters of a condition.
pub const MAX_CHARACTERS: usize = 1000;

/// Passes over an item, in which at most `groups` groups are open at once.
#[cycle(pass)]
fn pass_item(cursor: &mut Cursor<'_>, groups: usize) -> bool
    ensures passed { Passes result cursor.new (item_at groups cursor.old) }
    ensures shorter { result ≡ true → length cursor.new < length cursor.old }
{
    match take_front(cursor) {
        None => false,
        Some(Front::Leaf(_)) => true,
        Some(Front::Group) => {
            if groups == 0 {
                return false;
            }
            if !pass_cond(cursor, groups - 1) {
                return false;
            }
            cursor.take_word(b")")
        }
    }
}

/// Passes over items with ` && ` between.
#[cycle(pass)]
fn pass_all(cursor: &mut Cursor<'_>, groups: usize) -> bool
    ensures passed { Passes result cursor.new (all_at groups cursor.old) }
    ensures shorter { result ≡ true → length cursor.new < length cursor.old }
{
    'items: loop {
        if !pass_item(cursor, groups) {
            return false;
        }
        if !cursor.take_word(b" && ") {
            return true;
        }
    }
}

/// Passes over ALLs with ` || ` between.
#[cycle(pass)]
fn pass_cond(cursor: &mut Cursor<'_>, groups: usize) -> bool
    ensures passed { Passes result cursor.new (cond_at groups cursor.old) }
    ensures shorter { result ≡ true → length cursor.new < length cursor.old }
{
    'alls: loop {
        if !pass_all(cursor, groups) {
            return false;
        }
        if !cursor.take_word(b" || ") {
            return true;
        }
    }
}

/// Whether the whole text is a condition of at most 1,000 characters.
#[tactic(auto, unfolding(crate::specs::Reading::cond_of_text))]
pub fn pass_whole(text: &[u8]) -> bool
    ensures passed { result ≡ is_some (cond_of_text text.now) }
    ensures short { result ≡ true → length text.now ≤ 1000 }
{
    if text.len() > MAX_CHARACTERS {
        return false;
    }
    let mut cursor = Cursor::new(text);
    pass_cond(&mut cursor, MAX_GROUPS) && cursor.is_done()
}

/// Whether the text is that of a condition, of at most 1,000 characters and with at most 64 groups open at once. It takes no
/// memory, and a longer text is refused by its length alone.
pub fn is_cond(text: &[u8]) -> bool
    ensures { IsTrue result ↔ IsTextOf IsCond cond_text text.now }
{
    pass_whole(text)
}
