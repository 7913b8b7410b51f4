//! Laws over runs of the program, as contracts. No call of a product needs these functions.
ghost use Rattle.lms_cli.specs.RunsInMemory.{ChangesAskedInMemory, FilesStay};
ghost use Rattle.lms_cli.specs.RunTurns.{NoIndexLeavesTwice};

/// Of runs of the program at one state and its witness, one after another and each perhaps cut off,
/// with the calls that the contract of `run` describes: each takes a turn at both, and `serve` one
/// after another; where a run is cut off, the turns before are whole, and those after are not begun. A
/// turn has two parts. In the first both are found and written, and nothing leaves; in the second
/// something may leave, and neither is written. What `sign` and `endorse` write to files and what
/// `batch` and `serve` print are signatures, each by an index of its own whose use was stored for
/// certain in the first part of its turn, and said for certain by the witness, where there is one.
///
/// Where these turns carry along what state and witness should be, no two signatures that left are
/// by one index of a key: each is by a later index than those of its key before. A signature left
/// once it began to be written to a file, or the output to be printed to. To carry along is what
/// storage owes (`IsCarried`). Where a run uses indices for the first time, state or witness is
/// what it should be; the other may be anything, as an older one that was put back. Where `witness`
/// makes a witness, the state is what it should be; where `resume` changes the state, the witness
/// is. Where `keygen` makes a key, there should be no state, or what should be stays as it was.
///
/// Afterwards the state should be what it should have been, what the run read as a state that may
/// sign (so not what `resume` read), or the image that it stored (of `resume` the last of its images
/// alone), and that image alone where it was stored for certain; the witness what it should have been or what the run wrote, and that alone
/// where it was replaced for certain and another call was begun after that. Where a run found no
/// witness, and stored for certain that it uses indices, whatever is there as a witness then is not
/// what it should be. A turn that came to neither state nor witness changes nothing of this.
pub fn no_index_leaves_twice()
    ensures { NoIndexLeavesTwice }
{}

/// Of a run over files in memory that ends with a status of 2 to 5, by its calls: no file is
/// changed. State, nodes and witness are no files here.
pub fn files_stay()
    ensures { FilesStay }
{}

/// Of a run over files in memory, by its calls: only what a command that the arguments ask for may
/// change is changed. `verify` changes nothing, and neither does a run that prints help or a
/// mistake.
pub fn changes_what_is_asked()
    ensures { ChangesAskedInMemory }
{}
