ghost use Rattle.dubp_turn_laws.specs.Laws.{FailedIsNotTried, FailingKeepsAll, FailuresStayApart, ResolvesOneWay, RunsHaveOneResult, SwitchesOneWay, TurnsHaveOneAnswer, TurnsHaveOtherAnswers, WithoutRefused};

/// A switch to a branch has one result: it leads to one state, or it fails at one block, by one rule, and not both.
pub fn switches_one_way()
    ensures { SwitchesOneWay }
{}

/// What is tried from a state on, one choice after another, has one list of lines and leads to one state.
pub fn resolves_one_way()
    ensures { ResolvesOneWay }
{}

/// Where each choice that was tried failed, the verdicts, the chain, what of it can be reversed and the stored blocks are as before.
pub fn failing_keeps_all()
    ensures { FailingKeepsAll }
{}

/// A branch that has a block at which one failed before is not chosen.
pub fn failed_is_not_tried()
    ensures { FailedIsNotTried }
{}

/// Where no two failures have one block, none come to have one.
pub fn failures_stay_apart()
    ensures { FailuresStayApart }
{}

/// A turn has one result, whatever the command: from one state, with one frame, it has one answer and leads to one state.
pub fn turns_have_one_answer()
    ensures { TurnsHaveOneAnswer }
{}

/// `NOMEM` is the answer to no turn, and a command that was answered so leaves no trace: the others of a run, asked alone where memory does not
/// run out, have the same answers in the same order, and lead to the same state.
pub fn without_refused()
    ensures other { TurnsHaveOtherAnswers }
    ensures rest { WithoutRefused }
{}

/// Where memory does not run out, what was asked determines the answers and the state: two runs of it from one state have the same answers, in
/// order, and lead to one state.
pub fn runs_have_one_result()
    ensures { RunsHaveOneResult }
{}
