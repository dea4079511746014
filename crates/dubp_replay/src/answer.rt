ghost use Rattle.std.specs.Prelude.{◌≡◌};
ghost use Rattle.dubp_replay.specs.AnswerBytes.{answer_bytes};

use dubp_atoms::Line;

/// The text of an answer: one line, or many that were put together before.
#[derive(Drop)]
pub enum Answer {
    One(Line),
    Many(Vec<u8>),
}

impl Answer {
    /// The bytes of the text, each line with its LF.
    pub fn as_bytes(&self) -> &[u8]
        ensures { result.now ≡ answer_bytes self.now }
    {
        match self {
            Answer::One(line) => line.as_slice(),
            Answer::Many(lines) => lines.as_slice(),
        }
    }
}
