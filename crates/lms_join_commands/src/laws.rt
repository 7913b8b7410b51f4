//! Laws of what the commands leave in a world in memory, by their calls, where they are done and
//! where they fail, each as the contract of a function. No call of a product needs these functions.
ghost use Rattle.lms_join_commands.specs.JoinInMemory.{FailsToJoinInMemory, FailsToJoinKeysInMemory, JoinsInMemory, JoinsKeysInMemory};

/// In a world in memory, by the calls of `join_signature`: where it is done, the joined signature
/// is in its file, and nothing else is changed; where it fails, why, and nothing is changed.
pub fn joins_in_memory()
    ensures done { JoinsInMemory }
    ensures fails { FailsToJoinInMemory }
{}

/// In a world in memory, by the calls of `join_public_keys`: where it is done, the joined public
/// key is in its file, and nothing else is changed; where it fails, why, and nothing is changed.
pub fn joins_keys_in_memory()
    ensures done { JoinsKeysInMemory }
    ensures fails { FailsToJoinKeysInMemory }
{}
