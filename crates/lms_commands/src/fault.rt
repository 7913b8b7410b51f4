//! Why the program ends with a fault, and its printed line.
ghost use Rattle.std.specs.Prelude.{◌≡◌, OnErr, OnOk, Some};
ghost use Rattle.std.specs.Io.KnownBytes.{Appends};
ghost use Rattle.lms_blocks.specs.Writing.{AppendsFront};
ghost use Rattle.lms_commands.specs.Faults.{command_fault_text, fault_line, of_batch, of_book, of_jobs, of_key, of_lines, of_opening, of_seed, of_text, status_of};
ghost use Rattle.lms_commands.specs.Logs.{IsReadRefused, read_cause};
ghost use Rattle.lms_commands.specs.declared.fault.Fault.TheVariants.{OutOfMemory as FaultOfMemory, WriteOutput};

use crate::status::Status;
use lms_batch::BatchFault;
use lms_blocks::{WriteFault, print_line};
use lms_book::{BookFault, OpenFault, StoreFault};
use lms_hss::KeyFault;
use lms_image::ImageFault;
use lms_lines::{JobsFault, LinesFault};
use lms_params::OutOfMemory;
use lms_texts::{LevelsTextFault, SeedFault};
use lms_world::WorldFault;
use std::io::Write;
use std::{error, fmt};

/// Why the program ends with a fault.
#[derive(Clone, Copy, Debug, PartialEq, Eq)]
pub enum Fault {
    /// The text for the levels is not a list such as `10/8,5/4`; or that for how many levels joined keys
    /// have is no number from 2 to 8.
    BadLevels,
    /// There are more than 8 levels.
    TooManyLevels,
    /// The levels' heights sum to over 60.
    TooTall,
    /// The seed, or the input that it is read from, is not 64 hexadecimal digits.
    BadSeed,
    /// The identifier is not 32 hexadecimal digits.
    BadId,
    /// The randomizer is not 64 hexadecimal digits.
    BadRandom,
    /// The text for the workers is no decimal number from 1 to 64.
    BadWorkers,
    /// The text for the counter is no number below 2^64 in decimal.
    BadCounter,
    /// A file is no HSS public key of known typecodes, or two keys have more than 8 levels together;
    /// or a key may not endorse another, since both have another number of levels together than was
    /// asked for, or one identifier.
    BadPublicKey,
    /// The endorsement is not accepted for the signer's key under the top key.
    BadEndorsement,
    /// The signature is no signature by the signer's key, as far as that shows without its message.
    BadSignature,
    /// This line of the input, counted from 1, is the first that is no job line.
    BadJob { line: u64 },
    /// The input has over 1024 lines, of which the first 1024 are job lines; or `serve` has
    /// answered 2^53 groups.
    TooManyJobs,
    /// A new key's state is there already.
    StateExists,
    /// The state has a witness already, which can be read.
    WitnessExists,
    /// The state's lock is not available: another program has it, or it can't be acquired, as where
    /// its file can't be made.
    StateInUse,
    /// The state is not there, or can't be read; or `serve` finds another than it left.
    ReadState,
    /// The state is no image.
    BadState(ImageFault),
    /// A new key's state was not stored for certain.
    WriteState,
    /// The state was not stored for certain: `len` indices from `start` on sign nothing, and may
    /// count as used.
    WriteStateBurnt { start: u64, len: u64 },
    /// The witness can't be read or, for `resume`, is not there.
    ReadWitness,
    /// The witness is no line of a witness, or another key's.
    BadWitness,
    /// The witness says that more indices are used than the state does.
    StateOlder,
    /// The witness says no more than the state counts, so that there is nothing to resume.
    StateNotOlder,
    /// The counter of the state, or of its witness, is this one and not the one that was expected.
    OtherCounter { counter: u64 },
    /// No draft of the witness can be made, and the witness stays as it is; or `witness` did not
    /// make one for certain, so that it may be there or not.
    WriteWitness,
    /// The witness was not written for certain: the indices from `first` to `last` are used, and
    /// sign nothing.
    WriteWitnessBurnt { first: u64, last: u64 },
    /// The key has fewer indices left than are asked for.
    Exhausted { left: u64 },
    /// Memory ran out.
    OutOfMemory,
    /// Memory ran out after a reservation: `count` indices are used, and signed nothing.
    OutOfMemoryBurnt { count: u64 },
    /// Memory ran out while a batch was signed: of its `asked` jobs `signed` have signatures, whose
    /// lines are printed, and all its indices are used.
    Partial { signed: usize, asked: usize },
    /// Standard input, a file other than the state and its witness, or the program's arguments
    /// can't be read, or `/dev/null` can't be opened.
    ReadInput,
    /// A file other than the state and its witness, or standard output, can't be written.
    WriteOutput,
}

impl Fault {
    /// How the program ends at this fault.
    pub fn status(self) -> Status
        ensures { result ≡ status_of self }
    {
        match self {
            Fault::BadLevels
            | Fault::TooManyLevels
            | Fault::TooTall
            | Fault::BadSeed
            | Fault::BadId
            | Fault::BadRandom
            | Fault::BadWorkers
            | Fault::BadCounter
            | Fault::BadPublicKey
            | Fault::BadEndorsement
            | Fault::BadSignature
            | Fault::BadJob { .. }
            | Fault::TooManyJobs => Status::Usage,
            Fault::StateExists
            | Fault::WitnessExists
            | Fault::StateInUse
            | Fault::ReadState
            | Fault::BadState(_)
            | Fault::WriteState
            | Fault::WriteStateBurnt { .. }
            | Fault::ReadWitness
            | Fault::BadWitness
            | Fault::StateOlder
            | Fault::StateNotOlder
            | Fault::OtherCounter { .. }
            | Fault::WriteWitness
            | Fault::WriteWitnessBurnt { .. } => Status::State,
            Fault::Exhausted { .. } => Status::Exhausted,
            Fault::OutOfMemory | Fault::OutOfMemoryBurnt { .. } => Status::Memory,
            Fault::Partial { .. } => Status::Negative,
            Fault::ReadInput | Fault::WriteOutput => Status::Stream,
        }
    }
}

impl fmt::Display for Fault {
    ghost output = { λ fault. Some (command_fault_text fault) };

    fn fmt<W: fmt::Write>(&self, f: &mut fmt::Formatter<W>) -> fmt::Result {
        match *self {
            Fault::BadLevels => write!(f, "{}", LevelsTextFault::Bad),
            Fault::TooManyLevels => write!(f, "{}", KeyFault::TooManyLevels),
            Fault::TooTall => write!(f, "{}", KeyFault::TooTall),
            Fault::BadSeed => write!(f, "{}", SeedFault::Bad),
            Fault::BadId => f.write_str("bad id"),
            Fault::BadRandom => f.write_str("bad random"),
            Fault::BadWorkers => f.write_str("bad workers"),
            Fault::BadCounter => f.write_str("bad counter"),
            Fault::BadPublicKey => f.write_str("bad public key"),
            Fault::BadEndorsement => f.write_str("bad endorsement"),
            Fault::BadSignature => f.write_str("bad signature"),
            Fault::BadJob { line } => write!(f, "{}", JobsFault::BadJob { line }),
            Fault::TooManyJobs => write!(f, "{}", JobsFault::TooManyJobs),
            Fault::StateExists => f.write_str("state exists"),
            Fault::WitnessExists => f.write_str("witness exists"),
            Fault::StateInUse => f.write_str("state in use"),
            Fault::ReadState => write!(f, "{}", OpenFault::Store),
            Fault::BadState(fault) => write!(f, "{}", OpenFault::Image(fault)),
            Fault::WriteState => write!(f, "{StoreFault}"),
            Fault::WriteStateBurnt { start, len } => {
                write!(f, "{}", BookFault::Store { start, len })
            }
            Fault::ReadWitness => f.write_str("cannot read witness"),
            Fault::BadWitness => f.write_str("bad witness"),
            Fault::StateOlder => f.write_str("state is older than its witness"),
            Fault::StateNotOlder => f.write_str("state is not older than its witness"),
            Fault::OtherCounter { counter } => write!(f, "counter is {counter}"),
            Fault::WriteWitness => f.write_str("cannot write witness"),
            Fault::WriteWitnessBurnt { first, last } => {
                write!(f, "cannot write witness: {first} to {last} burnt")
            }
            Fault::Exhausted { left } => write!(f, "{}", BookFault::Exhausted { left }),
            Fault::OutOfMemory => write!(f, "{OutOfMemory}"),
            Fault::OutOfMemoryBurnt { count } => {
                write!(f, "{}", BatchFault::OutOfMemory { burnt: count })
            }
            Fault::Partial { signed, asked } => { write!(f, "partial: {signed} of {asked} signed") }
            Fault::ReadInput => write!(f, "{}", JobsFault::Read),
            Fault::WriteOutput => write!(f, "{WriteFault}"),
        }
    }
}

impl error::Error for Fault {}

impl From<KeyFault> for Fault {
    ghost from_gives = { λ key_fault fault. fault ≡ of_key key_fault };

    fn from(fault: KeyFault) -> Self {
        match fault {
            KeyFault::NoLevels => Fault::BadLevels,
            KeyFault::TooManyLevels => Fault::TooManyLevels,
            KeyFault::TooTall => Fault::TooTall,
        }
    }
}

impl From<LevelsTextFault> for Fault {
    ghost from_gives = { λ text_fault fault. fault ≡ of_text text_fault };

    fn from(fault: LevelsTextFault) -> Self {
        match fault {
            LevelsTextFault::Bad => Fault::BadLevels,
            LevelsTextFault::OutOfMemory => Fault::OutOfMemory,
        }
    }
}

impl From<SeedFault> for Fault {
    ghost from_gives = { λ seed_fault fault. fault ≡ of_seed seed_fault };

    fn from(fault: SeedFault) -> Self {
        match fault {
            SeedFault::Bad => Fault::BadSeed,
            SeedFault::Read => Fault::ReadInput,
        }
    }
}

impl From<OutOfMemory> for Fault {
    ghost from_gives = { λ _ fault. fault ≡ FaultOfMemory };

    fn from(_: OutOfMemory) -> Self {
        Fault::OutOfMemory
    }
}

impl From<WorldFault> for Fault {
    ghost from_gives = { λ world_fault fault. IsReadRefused fault × (read_cause fault ≡ world_fault) };

    fn from(fault: WorldFault) -> Self {
        match fault {
            WorldFault::Device => Fault::ReadInput,
            WorldFault::OutOfMemory => Fault::OutOfMemory,
        }
    }
}

impl From<WriteFault> for Fault {
    ghost from_gives = { λ _ fault. fault ≡ WriteOutput };

    fn from(_: WriteFault) -> Self {
        Fault::WriteOutput
    }
}

impl From<OpenFault> for Fault {
    ghost from_gives = { λ open_fault fault. fault ≡ of_opening open_fault };

    fn from(fault: OpenFault) -> Self {
        match fault {
            OpenFault::Store => Fault::ReadState,
            OpenFault::Image(fault) => Fault::BadState(fault),
            OpenFault::OutOfMemory => Fault::OutOfMemory,
        }
    }
}

impl From<JobsFault> for Fault {
    ghost from_gives = { λ jobs_fault fault. fault ≡ of_jobs jobs_fault };

    fn from(fault: JobsFault) -> Self {
        match fault {
            JobsFault::Read => Fault::ReadInput,
            JobsFault::BadJob { line } => Fault::BadJob { line },
            JobsFault::TooManyJobs => Fault::TooManyJobs,
            JobsFault::OutOfMemory => Fault::OutOfMemory,
        }
    }
}

impl From<BatchFault> for Fault {
    ghost from_gives = { λ batch_fault fault. fault ≡ of_batch batch_fault };

    fn from(fault: BatchFault) -> Self {
        match fault {
            BatchFault::TooMany => Fault::TooManyJobs,
            BatchFault::Book(fault) => Fault::from(fault),
            BatchFault::OutOfMemory { burnt } => Fault::OutOfMemoryBurnt { count: burnt },
        }
    }
}

impl From<LinesFault> for Fault {
    ghost from_gives = { λ lines_fault fault. fault ≡ of_lines lines_fault };

    fn from(fault: LinesFault) -> Self {
        match fault {
            LinesFault::Jobs(fault) => Fault::from(fault),
            LinesFault::Batch(fault) => Fault::from(fault),
            LinesFault::Write => Fault::WriteOutput,
        }
    }
}

impl From<BookFault> for Fault {
    ghost from_gives = { λ book_fault fault. fault ≡ of_book book_fault };

    fn from(fault: BookFault) -> Self {
        match fault {
            BookFault::Exhausted { left } => Fault::Exhausted { left },
            BookFault::OutOfMemory => Fault::OutOfMemory,
            BookFault::Store { start, len } => Fault::WriteStateBurnt { start, len },
        }
    }
}

/// Prints the fault's line, `error: ` and its text. `WriteFault` where the writer fails, maybe
/// after a beginning of it.
pub fn print_fault<W: Write>(errors: &mut W, fault: Fault) -> Result<(), WriteFault>
    ensures printed { OnOk result
        (Appends (W.contents errors.old) (W.contents errors.new) (fault_line fault)) }
    ensures broken { OnErr result
        (AppendsFront (W.contents errors.old) (W.contents errors.new) (fault_line fault)) }
{
    print_line(errors, format_args!("error: {fault}"))
}
