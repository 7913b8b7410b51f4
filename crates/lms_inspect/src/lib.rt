//! What a file is, by its bytes: a state image, a public key or a signature; and what `inspect` does.
//! It takes no lock and writes nothing, and what it prints has no secret.
#![tactic(auto)]

mod found;
mod inspect;
mod keeper;
pub mod laws;
mod level;
mod public_key;
mod signature;
mod text;

pub use crate::found::Found;
pub use crate::inspect::inspect_file;
pub use crate::level::Level;
pub use crate::public_key::{KeyParts, PublicParts};
pub use crate::signature::{KeyedLevel, SignatureParts};
