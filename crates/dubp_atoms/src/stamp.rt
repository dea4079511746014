ghost use Rattle.std.specs.Prelude.{◌≡◌, ◌+◌, ◌≤◌, ◌++◌, IfSome, Some};
ghost use Rattle.arrayvec.specs.ArrayVec.{array_vec_len};
ghost use Rattle.dubp_atoms.specs.Reading.{stamp_of};
ghost use Rattle.dubp_atoms.specs.Spelling.{IsNumber, IsStamp, stamp_text};
ghost use Rattle.dubp_atoms.specs.declared.stamp.Stamp.{Stamp as StampValue};

use crate::cutting::cut;
use crate::hash::Hash;
use crate::line::{Line, put_bytes};
use crate::number::{put_number, read_number};

/// A block's number and hash. Two are ordered by number, then by hash.
#[derive(Clone, Copy, Debug, PartialEq, Eq, PartialOrd, Ord, Hash)]
pub struct Stamp {
    pub number: u64,
    pub hash: Hash,
}

impl Stamp {
    /// The stamp that this text is. None exactly where it is the text of none.
    pub fn read(text: &[u8]) -> Option<Stamp>
        ensures found { IfSome result (λ s. IsStamp s × (text.now ≡ stamp_text s)) }
        ensures only { (s : StampValue) → IsStamp s → text.now ≡ stamp_text s → result ≡ Some s }
        ensures exact { result ≡ stamp_of text.now }
    {
        read_stamp(text)
    }

    /// Appends its text. `out` has 200 free places. It takes no memory.
    pub fn put(&self, out: &mut Line)
        requires { array_vec_len out.old + 200 ≤ 2048 }
        ensures text { out.new.items ≡ out.old.items ++ stamp_text self.now }
        ensures room { array_vec_len out.new ≤ array_vec_len out.old + 110 }
    {
        put_number(self.number as u128, out);
        put_bytes(out, b"-");
        put_bytes(out, self.hash.as_bytes());
    }
}

#[tactic(auto, unfolding(crate::specs::Reading::stamp_of))]
fn read_stamp(text: &[u8]) -> Option<Stamp>
    ensures { result ≡ stamp_of text.now }
{
    let (number, hash) = cut(text, b'-')?;
    let number = read_number(number)?;
    let hash = Hash::read(hash)?;
    Some(Stamp { number, hash })
}
