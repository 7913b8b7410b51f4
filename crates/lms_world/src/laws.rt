//! A law of worlds in memory, as a contract. No call of a product needs this function.
ghost use Rattle.lms_world.specs.Outcomes.{HoldsWhatIsLogged};

/// A world in memory that did what its log says, and nothing else, holds what that says: the files
/// that were written, over those that there were; the state that was put back last, or none while
/// its store is taken out; and the nodes and the witness that were written last.
pub fn holds_what_is_logged()
    ensures { HoldsWhatIsLogged }
{}
