//! Worked cases of the premise on which no index leaves twice, as contracts.
#![tactic(auto)]

ghost use Rattle.lms_worked_turns.specs.Worked.{WorkedLink, WorkedOlder, WorkedResume, WorkedRuns, WorkedTurns};

/// Runs one after another can carry along what is stored, with a failed write between them: so the
/// premise on which no index leaves twice is not one that nothing meets.
pub fn runs_carry_their_state_along()
    ensures { WorkedRuns }
{}

/// Two turns of one run are linked, and nothing is asked of what the second finds.
pub fn later_turns_are_linked()
    ensures { WorkedLink }
{}

/// Such runs take their turns at the state: by what they read and store, the first and the third
/// may sign.
pub fn runs_take_their_turns()
    ensures { WorkedTurns }
{}

/// A key whose state was put back goes on by its witness, and the premise is met all along.
pub fn runs_resume_by_their_witness()
    ensures { WorkedResume }
{}

/// It is not met where the older state is used with another witness than was written, or with none.
pub fn an_older_state_is_not_carried_along()
    ensures { WorkedOlder }
{}
