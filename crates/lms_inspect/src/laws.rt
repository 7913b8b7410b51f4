//! Laws over what bytes are, and of what `inspect` does in a world in memory, by its calls, each as
//! the contract of a function. No call of a product needs these functions.
ghost use Rattle.lms_inspect.specs.InspectInMemory.{FailsToInspectInMemory, InspectsInMemory};
ghost use Rattle.lms_inspect.specs.Laws.{AcceptedSays, IndexIsSaid, SeedIsUnsaid};

/// Where a signature is accepted for some message under some public key, the one says what a public
/// key says, the other what a signature says, and both the same levels.
pub fn accepted_says()
    ensures { AcceptedSays }
{}

/// A key's signature by an index says the key's levels, and the index is the one that its leaves make.
pub fn index_is_said()
    ensures { IndexIsSaid }
{}

/// What is said of a state is the same whatever its seed.
pub fn seed_is_unsaid()
    ensures { SeedIsUnsaid }
{}

/// In a world in memory, by the calls of `inspect_file`: where it is done, what the file holds is
/// printed; where it fails, why. In either case nothing is changed.
pub fn inspects_in_memory()
    ensures done { InspectsInMemory }
    ensures fails { FailsToInspectInMemory }
{}
