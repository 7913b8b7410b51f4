//! Why an endorsement is refused.

use thiserror::Error;

/// Why an endorsement was refused.
#[derive(Clone, Copy, Debug, PartialEq, Eq, Error)]
pub enum EndorsementFault {
    /// The two keys can't be joined (`join_public`).
    #[error("the keys can't be joined")]
    NotJoinable,
    /// They can be, and the top key's signature of the signer's key is not accepted.
    #[error("the endorsement is not accepted")]
    NotAccepted,
}
