//! Laws over what is joined, as contracts. No call of the product needs these functions.
ghost use Rattle.lms_join.specs.Laws.{JoinedAccepted, JoinedExactly};

/// Where an endorsement is accepted, and the signer's signature for a message, and both keys
/// together have at most eight levels, the joined signature is accepted for the message under the
/// joined public key.
pub fn joined_is_accepted()
    ensures { JoinedAccepted }
{}

/// Of parts that are cut where they should be, the joined signature is accepted exactly where the
/// endorsement and the signer's signature are.
pub fn joined_is_exact()
    ensures { JoinedExactly }
{}
