//! What the arguments may ask for.

/// What the program is asked to do.
#[derive(Drop)]
pub enum Command {
    /// Make a key of these levels from a seed and an identifier, both in hexadecimal, and write its
    /// state and its public key to two files. The seed `-` is on standard input.
    Keygen {
        levels: String,
        seed: String,
        id: String,
        state: String,
        public: String,
    },
    /// Describe the key whose state is in this file.
    Info {
        state: String,
    },
    /// Say what this file is.
    Inspect {
        file: String,
    },
    /// Write the public key of the key whose state is in a file to another file.
    Public {
        state: String,
        public: String,
    },
    /// Sign the message in a file by the key whose state is in a file, with the randomizer `random`
    /// in hexadecimal, and write the signature to the file `out`. All but `random` name files.
    Sign {
        state: String,
        random: String,
        message: String,
        out: String,
    },
    /// Endorse the signer's public key in the file `signer` by the key whose state is in a file, with the
    /// randomizer `random` in hexadecimal, and write the endorsement to the file `out`. Both keys have
    /// to have `joined` levels together, a number in decimal.
    Endorse {
        state: String,
        random: String,
        signer: String,
        joined: String,
        out: String,
    },
    /// Sign the job lines of standard input by the key whose state is in a file, by so many
    /// workers, a number in decimal.
    Batch {
        state: String,
        workers: String,
    },
    /// Sign the job lines of standard input as they come, by the key whose state is in a file, by so
    /// many workers, a number in decimal.
    Serve {
        state: String,
        workers: String,
    },
    /// Make a witness of the key whose state is in a file, in the new file `on`. The state has to
    /// count `counter` indices as used, a number in decimal.
    Witness {
        state: String,
        on: String,
        counter: String,
    },
    /// Burn the indices that the state in a file counts as unused, and its witness as used. That
    /// has to say that `counter` are, a number in decimal.
    Resume {
        state: String,
        counter: String,
    },
    /// Verify a signature. Each text names a file.
    Verify {
        public: String,
        message: String,
        signature: String,
    },
    /// Join a signature by a signer's key with a top key's endorsement of that key, and write it to
    /// the file `out`. The others name the files of the top public key, the endorsement, the
    /// signer's public key and its signature.
    Join {
        public: String,
        endorsement: String,
        signer: String,
        signature: String,
        out: String,
    },
    /// Write the public key of joined signatures, of a top public key and a signer's, to the file
    /// `out`.
    JoinPublic {
        public: String,
        signer: String,
        out: String,
    },
}
