//! Laws of what commands do and leave in a world in memory, by their calls, where they are done and
//! where they fail, each as the contract of a function. No call of a product needs these functions.
ghost use Rattle.lms_signature_commands.specs.SignInMemory.{FailsToSignInMemory, NodesStayRight, SignsInMemory};
ghost use Rattle.lms_signature_commands.specs.VerifyInMemory.{FailsToJudgeInMemory, JudgesInMemory};

/// In a world in memory, by the calls of `sign_file`: where it is done, the next index of the
/// state's key is counted as used, and its signature of the message is in its file; where it fails,
/// why, and what is left.
pub fn signs_in_memory()
    ensures done { SignsInMemory }
    ensures fails { FailsToSignInMemory }
{}

/// In a world in memory, by the calls of `verify_files`: where it is done, its verdict is right for
/// what the three files hold; where it fails, why. In either case nothing is changed.
pub fn judges_in_memory()
    ensures done { JudgesInMemory }
    ensures fails { FailsToJudgeInMemory }
{}

/// After a message was signed, what is kept of its key's trees is right, where it was right before.
pub fn nodes_stay_right()
    ensures { NodesStayRight }
{}
