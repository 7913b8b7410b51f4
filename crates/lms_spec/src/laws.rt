//! Laws over the definitions in `specs/`: each function is one law, which its contract states and a
//! proof shows.

ghost use Rattle.lms_spec.specs.Laws.{NumbersReadBack, ColumnsFollow, ChecksumFits, DigitsFit, DigitBits, ChecksumGuards};
ghost use Rattle.lms_spec.specs.Laws.{ChainsCompose, OtsSignatureLength, CandidateIsPublicHash, OneCandidate};
ghost use Rattle.lms_spec.specs.Laws.{LeafNodes, InnerNodes, ClimbReachesRoot, LmsPublicKeyLength, LmsSignatureLength};
ghost use Rattle.lms_spec.specs.Laws.{LmsSignatureAccepted, AcceptedLengths, AcceptedByParts};
ghost use Rattle.lms_spec.specs.Laws.{HssPublicKeyLength, HssSignatureLength, HssSignatureAccepted};
ghost use Rattle.lms_spec.specs.Laws.{ThroughParts, SameSignedKey, DifferentPlaces};
ghost use Rattle.lms_spec.specs.Worked.{WorkedExtremes, WorkedOrder, WorkedTexts, WorkedChildren, WorkedPlaces, WorkedLengths};

/// The two bytes of a number below 2^16, and the four of one below 2^32, read as one number, are
/// that number.
pub fn numbers_read_back()
    ensures { NumbersReadBack }
{}

/// The columns of LM-OTS's table belong together: p and ls follow from the width.
pub fn columns_follow()
    ensures { ColumnsFollow }
{}

/// A checksum fits its two bytes.
pub fn checksum_fits()
    ensures { ChecksumFits }
{}

/// The digits are p in number, each of w bits.
pub fn digits_fit()
    ensures { DigitsFit }
{}

/// A digit is w bits of one byte: 8 / w digits to a byte, the highest first.
pub fn digit_bits()
    ensures { DigitBits }
{}

/// What the checksum is for: where each digit of one hash, and of its checksum, is at most
/// another's, the two hashes have the same digits.
pub fn checksum_guards()
    ensures { ChecksumGuards }
{}

/// A chain goes on where another ended.
pub fn chains_compose()
    ensures { ChainsCompose }
{}

/// A one-time signature under a randomizer of 32 bytes is as long as its set says.
pub fn ots_signature_length()
    ensures { OtsSignatureLength }
{}

/// A one-time signature leads to the public hash of its key.
pub fn candidate_is_public_hash()
    ensures { CandidateIsPublicHash }
{}

/// A one-time signature and a message lead to one candidate at most.
pub fn one_candidate()
    ensures { OneCandidate }
{}

/// A node from 2^h on is a leaf's hash.
pub fn leaf_nodes()
    ensures { LeafNodes }
{}

/// A node below 2^h is its two children's hash.
pub fn inner_nodes()
    ensures { InnerNodes }
{}

/// A leaf's path leads from it to the root.
pub fn climb_reaches_root()
    ensures { ClimbReachesRoot }
{}

/// A tree's public key has 56 bytes, where its identifier has 16.
pub fn lms_public_key_length()
    ensures { LmsPublicKeyLength }
{}

/// A leaf's signature under a randomizer of 32 bytes is as long as its tree's two sets say.
pub fn lms_signature_length()
    ensures { LmsSignatureLength }
{}

/// A leaf's signature is accepted under its tree's public key.
pub fn lms_signature_accepted()
    ensures { LmsSignatureAccepted }
{}

/// Where a signature is accepted, its public key has 56 bytes, and it is as long as the key's two
/// sets say.
pub fn accepted_lengths()
    ensures { AcceptedLengths }
{}

/// One parse of a key and a signature decides: if the signature is accepted at all, then this parse
/// climbs to the root.
pub fn accepted_by_parts()
    ensures { AcceptedByParts }
{}

/// A hierarchy's public key has 60 bytes, where its identifier has 16.
pub fn hss_public_key_length()
    ensures { HssPublicKeyLength }
{}

/// A signature under a randomizer of 32 bytes, by a hierarchy of at least one level whose
/// identifier has 16 bytes, is as long as its levels say.
pub fn hss_signature_length()
    ensures { HssSignatureLength }
{}

/// A signature by any index is accepted under the key's public key.
pub fn hss_signature_accepted()
    ensures { HssSignatureAccepted }
{}

/// Where signatures are accepted through signed keys, the first signature and the key that it signs
/// are where the sets of the key above put them, and what follows is accepted under that signed
/// key.
pub fn through_parts()
    ensures { ThroughParts }
{}

/// The public key that a level signs, and its signature, depend only on the leaves that the index
/// goes through down to that level.
pub fn same_signed_key()
    ensures { SameSignedKey }
{}

/// No two indices below a key's capacity go through the same leaves on all levels.
pub fn different_places()
    ensures { DifferentPlaces }
{}

/// The digits of a hash of zeros and of a hash of ones, under each width.
pub fn worked_extremes()
    ensures { WorkedExtremes }
{}

/// The digits of hashes whose digits all differ from their neighbours, under each width.
pub fn worked_order()
    ensures { WorkedOrder }
{}

/// What the standard hashes and a public key, byte by byte, and the last digit of each width.
pub fn worked_texts()
    ensures { WorkedTexts }
{}

/// What is derived at a leaf for the tree below it and for the signature of its key, byte by byte.
pub fn worked_children()
    ensures { WorkedChildren }
{}

/// The leaves of some indices, and the capacities of some keys.
pub fn worked_places()
    ensures { WorkedPlaces }
{}

/// The lengths of signatures of some sets and levels.
pub fn worked_lengths()
    ensures { WorkedLengths }
{}
