ghost use Rattle.std.specs.Prelude.{◌≡◌, IfOk};
ghost use Rattle.dubp_replay.specs.Answers.{statement_answer as answer_of};
ghost use Rattle.dubp_replay.specs.AnswerBytes.{answer_bytes};

use dubp_answers::statement_text;
use dubp_atoms::NoMemory;
use dubp_replay::Answer;
use dubp_statement::{CondText, Ledger, PeopleAndMoney, statement};
use std::alloc::Global;

/// The answer to STATEMENT: the moves of the condition of this text.
///
/// `NoMemory` where there is no room for the moves, for the names of the condition's sources, or for the text.
pub fn statement_answer<T: PeopleAndMoney>(
    alloc: Global,
    ledger: &Ledger<T>,
    cond: &CondText,
) -> Result<Answer, NoMemory>
    ensures { IfOk result (λ answer. answer_bytes answer ≡ answer_of ledger.now.chain cond.now.items) }
{
    let moves = statement(alloc, ledger, cond)?;
    let text = statement_text(alloc, moves.as_slice())?;
    Ok(Answer::Many(text))
}
