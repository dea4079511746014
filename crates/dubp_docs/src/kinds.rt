ghost use Rattle.std.specs.Prelude.{◌≡◌};
ghost use Rattle.dubp_atoms.specs.Letters.{is_uid};
ghost use Rattle.dubp_atoms.specs.Reading.{text_if, stamp_of};
ghost use Rattle.dubp_docs.specs.Reading.{direction_of};

use dubp_atoms::{Stamp, Uid};
use dubp_lines::ReadText;

/// A name of a person.
pub enum UidText {}

impl ReadText for UidText {
    type Value = Uid;

    ghost reads = { text_if is_uid };

    fn read_text(text: &[u8]) -> Option<Uid> {
        Uid::read(text)
    }
}

/// A block's stamp.
pub enum StampText {}

impl ReadText for StampText {
    type Value = Stamp;

    ghost reads = { stamp_of };

    fn read_text(text: &[u8]) -> Option<Stamp> {
        Stamp::read(text)
    }
}

/// `IN`, which is true, or `OUT`.
pub enum DirectionText {}

impl ReadText for DirectionText {
    type Value = bool;

    ghost reads = { direction_of };

    fn read_text(text: &[u8]) -> Option<bool> {
        if text == b"IN".as_slice() {
            return Some(true);
        }
        if text == b"OUT".as_slice() {
            Some(false)
        } else {
            None
        }
    }
}
