//! Many signing machines under one public key (NIST SP 800-208, section 7). A top key, kept
//! offline, endorses each machine's signer's key, which has its own seed and its own state: it
//! signs the signer's LMS public key. A signature by the signer's key, joined with the endorsement,
//! is one HSS signature under the top key with the levels of both keys counted.
#![tactic(auto)]

mod endorsement;
mod fault;
mod keys;
pub mod laws;

pub use crate::endorsement::Endorsement;
pub use crate::fault::EndorsementFault;
pub use crate::keys::{Key, join_public};
