//! Laws of what `endorse` does and leaves in a world in memory, by its calls, each as the contract of a
//! function. No call of a product needs these functions.
ghost use Rattle.lms_endorse.specs.EndorseInMemory.{EndorsementsAreTaken, EndorsesInMemory, FailsToEndorseInMemory, NodesStayRight};

/// In a world in memory, by the calls of `endorse_key`: where it is done, the next index of the state's
/// key is counted as used, and its signature of the signer's key is in its file; where it fails, why,
/// and what is left.
pub fn endorses_in_memory()
    ensures done { EndorsesInMemory }
    ensures fails { FailsToEndorseInMemory }
{}

/// What `endorse_key` leaves in its file is an endorsement of the signer's key, where what is kept of
/// the top key's trees was right before: it is accepted under the top key's public key, and the two
/// keys can be joined. So `Endorsement::new` of `lms_join` takes it.
pub fn endorsements_are_taken()
    ensures { EndorsementsAreTaken }
{}

/// After a key was endorsed, what is kept of the top key's trees is right, where it was right before.
pub fn nodes_stay_right()
    ensures { NodesStayRight }
{}
