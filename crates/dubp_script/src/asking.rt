ghost use Rattle.std.specs.Prelude.{◌≡◌, IfSome, Some, option_map};
ghost use Rattle.dubp_replay.specs.OneLine.{IsOneLine, IsShort, query_of};
ghost use Rattle.dubp_replay.specs.declared.query.Query.{Query as QueryValue};
ghost use Rattle.dubp_script.specs.Reading.{one_line_of};
ghost use Rattle.dubp_script.specs.Spelling.{IsQuery, query_text};

use crate::words::{cond_behind, key_behind, uid_behind};
use dubp_replay::Asked;

/// The query that this line is, without its LF, where it is one that is answered in one line. None exactly where it is none. It takes no memory,
/// and leaves the text of a condition where it lies.
pub fn read_asked<'a>(line: &'a [u8]) -> Option<Asked<'a>>
    ensures found { IfSome result (λ a. IsQuery (query_of a) × (line.now ≡ query_text (query_of a))) }
    ensures short { IfSome result IsShort }
    ensures only { (q : QueryValue) → IsOneLine q → IsQuery q → line.now ≡ query_text q → option_map query_of result ≡ Some q }
{
    one_line(line)
}

/// The same, as it is read: one word after another is tried at the front of the line.
#[tactic(auto, unfolding(crate::specs::Reading::one_line_of))]
pub(crate) fn one_line<'a>(line: &'a [u8]) -> Option<Asked<'a>>
    ensures is { option_map query_of result ≡ one_line_of line.now }
    ensures short { IfSome result IsShort }
{
    if line == b"HEAD".as_slice() {
        return Some(Asked::Head);
    }
    if line == b"MONEY".as_slice() {
        return Some(Asked::Money);
    }
    if let Some(key) = key_behind(b"IDENTITY ", line) {
        return Some(Asked::Identity { key });
    }
    if let Some(uid) = uid_behind(b"UID ", line) {
        return Some(Asked::Uid { uid });
    }
    if let Some(cond) = cond_behind(b"BALANCE ", line) {
        return Some(Asked::Balance { cond });
    }
    if let Some(key) = key_behind(b"DISTANCE ", line) {
        return Some(Asked::Distance { key });
    }
    let key = key_behind(b"DIFF ", line)?;
    Some(Asked::Diff { key })
}
