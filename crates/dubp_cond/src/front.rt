ghost use Rattle.std.specs.Prelude.{◌≡◌, ◌<◌, length, option_map, OnSome};
ghost use Rattle.dubp_cond.specs.Gives.{front_view};
ghost use Rattle.dubp_cond.specs.Reading.{front_at, leaf_at};
ghost use Rattle.dubp_cond.specs.View.{item_tree};

use crate::cursor::Cursor;
use crate::tree::Item;
use dubp_atoms::{Hash, Key, read_number};

/// What stands where an item begins: an item that is no group, or the `(` of a group.
#[derive(Drop)]
pub enum Front {
    Leaf(Item),
    Group,
}

/// Takes an item that is no group, or the `(` of a group.
pub fn take_front(cursor: &mut Cursor<'_>) -> Option<Front>
    ensures taken { option_map (λ front. (front_view front, cursor.new)) result ≡ front_at cursor.old }
    ensures shorter { OnSome result (length cursor.new < length cursor.old) }
{
    if cursor.take_word(b"(") {
        return Some(Front::Group);
    }
    Some(Front::Leaf(take_leaf(cursor)?))
}

/// Takes an item that is no group.
#[inline(never)]
fn take_leaf(cursor: &mut Cursor<'_>) -> Option<Item>
    ensures taken { option_map (λ item. (item_tree item, cursor.new)) result ≡ leaf_at cursor.old }
    ensures shorter { OnSome result (length cursor.new < length cursor.old) }
{
    if cursor.take_word(b"SIG(") {
        let key = Key::read(cursor.take_field()?)?;
        return Some(Item::Sig(key));
    }
    if cursor.take_word(b"XHX(") {
        let hash = Hash::read(cursor.take_field()?)?;
        return Some(Item::Xhx(hash));
    }
    if cursor.take_word(b"CSV(") {
        let seconds = read_number(cursor.take_field()?)?;
        return Some(Item::Csv(seconds));
    }
    if cursor.take_word(b"CLTV(") {
        let time = read_number(cursor.take_field()?)?;
        return Some(Item::Cltv(time));
    }
    None
}
