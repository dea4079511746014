ghost use Rattle.std.specs.Prelude.{◌≡◌, []};
ghost use Rattle.dubp_replay.specs.AnswerBytes.{answer_bytes};
ghost use Rattle.dubp_turns.specs.Told.{told_text};

use dubp_atoms::Line;
use dubp_query::Answer;

/// Where the text of an answer stands.
///
/// Each turn is handed an empty line for it, since a line is cleared whole where it is made, and copied whole where it is handed on.
#[derive(Drop)]
pub enum Told {
    /// In the line at hand.
    InLine,
    /// Here: as many lines as there are.
    Here(Vec<u8>),
}

impl Told {
    /// The bytes of the answer, which stand in this line or here.
    pub fn bytes<'a>(&'a self, line: &'a Line) -> &'a [u8]
        ensures { result.now ≡ told_text line.now.items self.now }
    {
        match self {
            Told::InLine => line.as_slice(),
            Told::Here(lines) => lines.as_slice(),
        }
    }
}

/// An answer that was put together before: one of one line is put into the line at hand.
pub(crate) fn tell(answer: Answer, line: &mut Line) -> Told
    ensures { told_text line.new.items result ≡ answer_bytes answer }
{
    match answer {
        Answer::One(text) => {
            *line = text;
            Told::InLine
        }
        Answer::Many(lines) => Told::Here(lines),
    }
}
