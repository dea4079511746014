ghost use Rattle.dubp_lines.specs.Taking.{Gives};
ghost use Rattle.dubp_docs.specs.Reading.{just_line, named_line, sig_line};

use dubp_atoms::Sig;
use dubp_lines::{Lines, ReadText, Refused};

/// Takes just this line.
#[tactic(auto, unfolding(crate::specs::Reading::just_line))]
pub fn take_just(lines: &mut Lines<'_>, line: &[u8]) -> Result<(), Refused>
    ensures { Gives (λ _. (line.now, lines.new)) result (just_line line.now lines.old) }
{
    lines.take(line)
}

/// Takes a line of this name and a value of this kind.
#[tactic(auto, unfolding(crate::specs::Reading::named_line))]
pub fn take_named<V: ReadText>(lines: &mut Lines<'_>, name: &[u8]) -> Result<V::Value, Refused>
    ensures { Gives (λ x. (x, lines.new)) result (named_line V.reads name.now lines.old) }
{
    lines.take_value::<V>(name)
}

/// Takes a line that is a signature.
#[tactic(auto, unfolding(crate::specs::Reading::sig_line))]
pub fn take_sig(lines: &mut Lines<'_>) -> Result<Sig, Refused>
    ensures { Gives (λ x. (x, lines.new)) result (sig_line lines.old) }
{
    lines.take_line::<Sig>()
}
