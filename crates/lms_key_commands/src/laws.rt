//! Laws of what commands leave in a world in memory, by their calls, where they are done and where
//! they fail, each as the contract of a function. No call of a product needs these functions.
ghost use Rattle.lms_key_commands.specs.InfoInMemory.{DescribesInMemory, FailsToDescribeInMemory};
ghost use Rattle.lms_key_commands.specs.KeygenInMemory.{FailsToMakeKeyInMemory, MakesKeyInMemory, NewNodesAreRight};
ghost use Rattle.lms_key_commands.specs.PublicInMemory.{FailsToPublishKeyInMemory, PublishesKeyInMemory};
ghost use Rattle.lms_key_commands.specs.ResumeInMemory.{FailsToResumeInMemory, ResumesInMemory};
ghost use Rattle.lms_key_commands.specs.ResumeStops.{ResumeLeavesNoOtherText};
ghost use Rattle.lms_key_commands.specs.WitnessInMemory.{FailsToMakeWitnessInMemory, MakesWitnessInMemory};

/// In a world in memory, by the calls of `make_key`: where it is done, there is the new key's
/// state, with no index used, and its public key is in its file; where it fails, why, and what is
/// left.
pub fn makes_key_in_memory()
    ensures done { MakesKeyInMemory }
    ensures fails { FailsToMakeKeyInMemory }
{}

/// In a world in memory, by the calls of `publish_key`: where it is done, the public key of the
/// state's key is in its file, nothing else is changed, and the key's capacity is printed; where it
/// fails, why, and what is left.
pub fn publishes_key_in_memory()
    ensures done { PublishesKeyInMemory }
    ensures fails { FailsToPublishKeyInMemory }
{}

/// In a world in memory, by the calls of `describe`: where it is done, what the state says is
/// printed; where it fails, why. In either case all stays as it was.
pub fn describes_in_memory()
    ensures done { DescribesInMemory }
    ensures fails { FailsToDescribeInMemory }
{}

/// In a world in memory, by the calls of `watch_state`: where it is done, the state has a witness,
/// which says what it counts, and nothing else is changed; where it fails, why, and what is left.
pub fn makes_witness_in_memory()
    ensures done { MakesWitnessInMemory }
    ensures fails { FailsToMakeWitnessInMemory }
{}

/// In a world in memory, by the calls of `resume_state`: where it is done, the state counts what
/// its witness says, and nothing else is changed; where it fails, why, and what is left.
pub fn resumes_in_memory()
    ensures done { ResumesInMemory }
    ensures fails { FailsToResumeInMemory }
{}

/// A crash at any moment while `resume_state` burns indices leaves what it could leave before, or
/// an image that counts some of them as used.
pub fn resume_leaves_no_other_text()
    ensures { ResumeLeavesNoOtherText }
{}

/// After a key was made, what is kept of its trees is right, where it was right before.
pub fn new_nodes_are_right()
    ensures { NewNodesAreRight }
{}
