//! The arguments of commands, and levels of keys.
use lms_params::{LmsType, OtsType};

pub const SEED: &str = "1111111111111111111111111111111111111111111111111111111111111111";

const ID: &str = "22222222222222222222222222222222";

pub const ONE: [(LmsType, OtsType); 1] = [(LmsType::H5, OtsType::W8)];

/// The levels 5/2, whose tree takes a twentieth of the work.
pub const CHEAP: [(LmsType, OtsType); 1] = [(LmsType::H5, OtsType::W2)];

pub const CHEAP_TWICE: [(LmsType, OtsType); 2] = [
    (LmsType::H5, OtsType::W2),
    (LmsType::H5, OtsType::W2),
];

pub const INFO: [&str; 4] = ["lms_tool", "info", "--state", "key.state"];

pub const PUBLIC: [&str; 6] = [
    "lms_tool",
    "public",
    "--state",
    "key.state",
    "--public",
    "key.pub",
];

pub const SIGN: [&str; 10] = [
    "lms_tool",
    "sign",
    "--state",
    "key.state",
    "--random",
    "3333333333333333333333333333333333333333333333333333333333333333",
    "--message",
    "text",
    "--out",
    "text.sig",
];

pub const VERIFY: [&str; 8] = [
    "lms_tool",
    "verify",
    "--public",
    "key.pub",
    "--message",
    "text",
    "--signature",
    "text.sig",
];

/// The arguments that make a key of these levels.
pub fn keygen(levels: &str) -> [&str; 12] {
    keygen_by(levels, SEED)
}

/// The same, by this option for the seed.
pub fn keygen_by<'a>(levels: &'a str, seed: &'a str) -> [&'a str; 12] {
    [
        "lms_tool",
        "keygen",
        "--levels",
        levels,
        "--seed",
        seed,
        "--id",
        ID,
        "--state",
        "key.state",
        "--public",
        "key.pub",
    ]
}
