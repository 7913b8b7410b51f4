//! The program's subcommands as data, which both the program and its specification read.

/// A required option `--NAME VALUE`: its name, its value's name, and its help.
pub(super) type OptionRow = (&'static str, &'static str, &'static str);

/// A subcommand: its name, what help says of it in a line and below its options, and its options.
pub(super) type Row = (
    &'static str,
    &'static str,
    &'static str,
    &'static [OptionRow],
);

pub(super) const SUBCOMMANDS: [Row; 13] = [
    KEYGEN,
    INFO,
    INSPECT,
    PUBLIC,
    SIGN,
    ENDORSE,
    BATCH,
    SERVE,
    WITNESS,
    RESUME,
    VERIFY,
    JOIN,
    JOIN_PUBLIC,
];

pub(super) const KEYGEN: Row = (
    "keygen",
    "Makes a key from a seed",
    "Example:
  openssl rand -hex 32 | lms_tool keygen --levels 10/8,10/8 --seed - \\
      --id \"$(openssl rand -hex 16)\" --state key.state --public key.pub

Levels are 1 to 8; heights 5, 10, 15, 20 or 25, together at most 60; widths 1,
2, 4 or 8.

With `-` the seed is read from standard input, 64 digits and perhaps the end
of their line. On the command line every user of the machine can read it for
as long as this runs.

Never use a seed and identifier twice, whatever the levels: the same one-time
keys would sign again, from index 0.",
    &[
        (
            "levels",
            "LEVELS",
            "Height/width of each level, top first, as 10/8,10/8",
        ),
        (
            "seed",
            "HEX",
            "64 hexadecimal digits, random and secret, or -",
        ),
        ("id", "HEX", "32 hexadecimal digits, random"),
        ("state", "FILE", "The key's state, a new file"),
        (
            "public",
            "FILE",
            "The public key, 60 bytes, in place of an older one",
        ),
    ],
);

pub(super) const INFO: Row = (
    "info",
    "Describes a key",
    "Example:
  lms_tool info --state key.state

Prints the levels, how many indices are used (counter), how many there are
(capacity) and how many are left (left), how many openings of the state stored
something (openings), and how many indices were burnt before its last write
(burnt).",
    &[("state", "FILE", "The key's state")],
);

pub(super) const INSPECT: Row = (
    "inspect",
    "Says what a file is",
    "Example:
  lms_tool inspect --file key.state
  lms_tool inspect --file firmware.sig

Of a state it prints what `info` prints, its key's identifier, and below which
index its witness says that all are used, or none. It takes no lock, so it
also serves while the key is in use; who can read a state has the seed.

Of a public key it prints how many levels it has, the height and width of the
top one, the identifier, and the SHA-256 of its bytes. Of a signature it
prints how many levels it has, its length, height, width and leaf of each
level, above each level but the first the identifier of its key, and the index
that the leaves make. That is the signer's index only where all levels are one
key's: a joined signature looks like any other.

Nothing is verified. A file is read to its end. Ends with status 0 for these,
1 for other files, and another where the file can't be read, or a state's
witness: then nothing is printed.",
    &[(
        "file",
        "FILE",
        "A state, a public key, a signature, or any file",
    )],
);

pub(super) const PUBLIC: Row = (
    "public",
    "Writes a key's public key",
    "Example:
  lms_tool public --state key.state --public key.pub

Makes the file that `keygen` wrote once more, in the same time, and prints how
many indices there are (capacity). The state stays as it is, and can be used
meanwhile.",
    &[
        ("state", "FILE", "The key's state"),
        (
            "public",
            "FILE",
            "The public key, 60 bytes, in place of an older one",
        ),
    ],
);

pub(super) const SIGN: Row = (
    "sign",
    "Signs a message",
    "Example:
  lms_tool sign --state key.state --random \"$(openssl rand -hex 32)\" \\
      --message firmware.bin --out firmware.sig

Prints the index, which counts as used before the signature is made. Never
sign with an older copy of a state.",
    &[
        ("state", "FILE", "The key's state"),
        (
            "random",
            "HEX",
            "64 hexadecimal digits, random, fresh for each signature",
        ),
        ("message", "FILE", "The message, any bytes"),
        (
            "out",
            "FILE",
            "The signature, raw bytes, in place of an older one",
        ),
    ],
);

pub(super) const ENDORSE: Row = (
    "endorse",
    "Endorses a signer's key by a top key",
    "Example:
  lms_tool endorse --state top.state --random \"$(openssl rand -hex 32)\" \\
      --signer signer.pub --joined 2 --out signer.endorsement

Signs the last 56 bytes of the signer's public key, for `join`, and nothing
else. Prints the index, which counts as used before the endorsement is made,
and the SHA-256 of the signer's 60 bytes: compare it with what the signer's
owner says, since whoever makes a key chooses its identifier.

N is how many levels the joined keys have that `join-public` makes of both:
those of the top key and the signer's together. A key of another number of
levels is refused, and so are the top key itself and what is no public key.
For three tiers the middle key endorses the signer's, by their levels, and the
top key the key that `join-public` makes of these two.

A top key signs nothing but such keys: any 56 bytes that it signs by `sign` and
that form a key are endorsed, whatever they were meant to be.",
    &[
        ("state", "FILE", "The top key's state"),
        (
            "random",
            "HEX",
            "64 hexadecimal digits, random, fresh for each signature",
        ),
        ("signer", "FILE", "The signer's public key, 60 bytes"),
        ("joined", "N", "How many levels joined keys have, 2 to 8"),
        ("out", "FILE", "The endorsement, in place of an older one"),
    ],
);

pub(super) const BATCH: Row = (
    "batch",
    "Signs the job lines of standard input",
    "Example, for a file `jobs` with one line for each message:
  lms_tool batch --state key.state --workers 4 < jobs > answers

A job line is a randomizer of 64 hexadecimal digits, random and fresh for each
job, one space, and the message, 0 to 131072 hexadecimal digits; 1024 lines at
most. So for the message `abc`:
  5f0d1f7ac2be30a4d1c96bb5e86f27930c4ad0b2f4e1907c6e5a3d8f1b7290c4 616263

An answer line is the index, one space, and the signature in hexadecimal. The
indices count as used before the first signature is made. Never sign with an
older copy of a state.",
    &[
        ("state", "FILE", "The key's state"),
        ("workers", "N", "How many workers sign at once, 1 to 64"),
    ],
);

pub(super) const SERVE: Row = (
    "serve",
    "Signs job lines of standard input as they come",
    "Example, for a program that opens `jobs` to write, then `answers` to read:
  mkfifo jobs answers
  lms_tool serve --state key.state --workers 4 < jobs > answers

Stays until its input ends, and answers job lines as they come. Job lines and
answer lines are those of `batch`, in any number. Lines that were read whole
are a group: their indices count as used, by one write of the state, before
the first of them is signed, and their answers are printed before more is
read. Read answers while you write lines, or both sides may stand still. The
state is locked all the time, and where another is put in its place nothing
more is signed. Trees are kept in memory.

A line that is no job line ends it, after the answers of all lines before it.
Never sign with an older copy of a state.",
    &[
        ("state", "FILE", "The key's state"),
        ("workers", "N", "How many workers sign at once, 1 to 64"),
    ],
);

pub(super) const WITNESS: Row = (
    "witness",
    "Makes a state's witness, by which an older state is refused",
    "Example:
  lms_tool witness --state key.state --on /media/other/key.witness --counter 0

Writes to a new file a line that says below which index all are used, and
makes a link `key.state.witness` to it beside the state. From then on `sign`,
`endorse`, `batch` and `serve` go by that name: they refuse a state that counts
fewer indices, as an older one does, and have the witness say which are used
before a signature leaves. It has no secret.

Keep it on another medium, outside of backups: where both come back, nothing
sees it. Never remove it to get on.",
    &[
        ("state", "FILE", "The key's state"),
        (
            "on",
            "FILE",
            "The witness, a new file, on another medium than the state",
        ),
        (
            "counter",
            "N",
            "Used indices, by the key's record; 0 for a new key",
        ),
    ],
);

pub(super) const RESUME: Row = (
    "resume",
    "Burns the indices by which a state is older than its witness",
    "Example:
  lms_tool resume --state key.state --counter 7

For a state that is refused since it is older than its witness, as one from a
backup: burns the indices up to the witness's number, which has to be the
counter, and signing goes on after them. Right only if the witness is the
newest: if an older one came back, too, indices sign twice.",
    &[
        ("state", "FILE", "The key's state"),
        (
            "counter",
            "N",
            "How many indices are used, by the key's record",
        ),
    ],
);

pub(super) const VERIFY: Row = (
    "verify",
    "Prints whether a signature is valid",
    "Example:
  lms_tool verify --public key.pub --message firmware.bin \\
      --signature firmware.sig

Ends with status 0 for `valid`, 1 for `invalid`, and another where a file
can't be read.",
    &[
        ("public", "FILE", "The public key, 60 bytes"),
        ("message", "FILE", "The message, any bytes"),
        ("signature", "FILE", "The signature, raw bytes"),
    ],
);

pub(super) const JOIN: Row = (
    "join",
    "Joins a signature with a top key's endorsement of its key",
    "Example:
  lms_tool join --public top.pub --endorsement signer.endorsement \\
      --signer signer.pub --signature firmware.sig --out joined.sig

The endorsement is what `endorse` wrote for the signer's key. Under the key
that `join-public` makes, the joined signature is valid for the messages for
which the signer's is. Both keys have together at most 8 levels.

Parts that do not belong together are refused, and nothing is written; but
where the signer's key has one level, a signature by another such key is
joined, and no device takes it.

Signers sign no messages of 56 bytes, unless levels are as the help of
`join-public` says.",
    &[
        ("public", "FILE", "The top public key, 60 bytes"),
        (
            "endorsement",
            "FILE",
            "The top key's endorsement of the signer's key",
        ),
        ("signer", "FILE", "The signer's public key, 60 bytes"),
        ("signature", "FILE", "A signature by the signer's key"),
        (
            "out",
            "FILE",
            "The joined signature, in place of an older one",
        ),
    ],
);

pub(super) const JOIN_PUBLIC: Row = (
    "join-public",
    "Writes the public key of joined signatures",
    "Example:
  lms_tool join-public --public top.pub --signer signer.pub --out joined.pub

The key is the same for all signers' keys with as many levels.

Every joined key that a device holds has as many levels as all keys from the top
key down to each one that signs messages, or ever did, have together. A key that
endorses signs no messages, no key is endorsed at two depths, and no key below
the top key endorses it. Else whoever gets 56 bytes signed, a key of theirs,
signs any message by it. Sufficient alone, whatever the levels: no key signs a
message of 56 bytes but to endorse, and whatever hands over messages refuses it.",
    &[
        ("public", "FILE", "The top public key, 60 bytes"),
        ("signer", "FILE", "A signer's public key, 60 bytes"),
        (
            "out",
            "FILE",
            "The public key, 60 bytes, in place of an older one",
        ),
    ],
);
