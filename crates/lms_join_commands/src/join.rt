//! `join`: a top key's endorsement of a signer's key, joined with a signature by that key.
ghost use Rattle.std.specs.Prelude.{◌≡◌, IfErr, IfOk, OnOk};
ghost use Rattle.lms_join.specs.Endorsements.{IsEndorsed};
ghost use Rattle.lms_world.specs.Held.{Follows};
ghost use Rattle.lms_join_commands.specs.JoinLogs.{AreUnendorsed, AreUnjoined, FailsToReadParts, JoinsParts, LogsJoin, LogsJoinFailed, ReadsParts};
ghost use Rattle.lms_join_commands.specs.Requests.{names_of, parts_of};

use crate::files::read_two;
use crate::why::explain_keys;
use lms_commands::{Fault, write_file};
use lms_hss::ByEights;
use lms_join::{Endorsement, EndorsementFault};
use lms_world::World;
use std::alloc::Global;

/// What `join` is asked for: the names of the files of a top public key, its endorsement of a
/// signer's key, that key's public key and a signature by it, and of the joined signature.
#[derive(Clone, Copy)]
pub struct JoinRequest<'a> {
    pub public: &'a str,
    pub endorsement: &'a str,
    pub signer: &'a str,
    pub signature: &'a str,
    pub out: &'a str,
}

/// Reads a top public key, its endorsement of a signer's key, the signer's public key and a
/// signature by it, in this order, joins them, and writes the joined signature to a file. It is
/// accepted for just the messages for which the signer's is.
///
/// Faults, in this order: `ReadInput` where a file can't be read; `BadPublicKey` where the two keys
/// can't be joined, `BadEndorsement` where the top key did not sign the signer's, `BadSignature`
/// where the signer's key and the signature have no message head; `WriteOutput` where the file can't
/// be written. `OutOfMemory` where memory for what is read, joined or written
/// is refused.
pub fn join_signature<W: World>(
    alloc: Global,
    world: &mut W,
    request: &JoinRequest,
) -> Result<(), Fault>
    ensures logged { OnOk result
        (LogsJoin (names_of request.now) (W.events world.old) (W.events world.new)) }
    ensures log_failed { IfErr result (λ fault.
        LogsJoinFailed (names_of request.now) fault (W.events world.old) (W.events world.new)) }
    ensures follows { Follows (W.memory world.old) (W.events world.old)
        (W.memory world.new) (W.events world.new) }
{
    let parts = read_parts(alloc, world, request)?;
    explain_keys(world, &parts.public, &parts.signer);
    let joined = join_parts(alloc, &parts)?;
    let out = world.plan_output(alloc, request.out)?;
    write_file(world, out, &joined)
}

/// What is joined.
#[derive(Drop)]
struct Parts {
    public: Vec<u8>,
    endorsement: Vec<u8>,
    signer: Vec<u8>,
    signature: Vec<u8>,
}

/// Reads all parts, in the order of their fields. Faults as `read_two`.
fn read_parts<W: World>(alloc: Global, world: &mut W, request: &JoinRequest) -> Result<Parts, Fault>
    ensures logged { IfOk result (λ parts. ReadsParts (names_of request.now) (parts_of parts)
        (W.events world.old) (W.events world.new)) }
    ensures unread { IfErr result (λ fault.
        FailsToReadParts (names_of request.now) fault (W.events world.old) (W.events world.new)) }
    ensures follows { Follows (W.memory world.old) (W.events world.old)
        (W.memory world.new) (W.events world.new) }
{
    let (public, endorsement) = read_two(alloc, world, request.public, request.endorsement)?;
    let (signer, signature) = read_two(alloc, world, request.signer, request.signature)?;
    Ok(Parts {
        public,
        endorsement,
        signer,
        signature,
    })
}

/// The joined signature. Faults, in this order: those of `endorsement_in`; `BadSignature` exactly
/// where the signer's key and the signature have no message head, since the signature is malformed or
/// one of its signed keys is not accepted; `OutOfMemory` where memory for the joined signature is
/// refused.
fn join_parts(alloc: Global, parts: &Parts) -> Result<Vec<u8>, Fault>
    ensures joins { IfOk result (λ joined. JoinsParts (parts_of parts.now) joined.items) }
    ensures unjoined { IfErr result (λ fault. AreUnjoined (parts_of parts.now) fault) }
{
    let endorsement = endorsement_in(&parts.public, &parts.endorsement, &parts.signer)?;
    let joined = endorsement.join(alloc, &parts.signature, ByEights)?;
    match joined {
        Some(text) => Ok(text),
        None => Err(Fault::BadSignature),
    }
}

/// The endorsement of a signer's key by a top key. `BadPublicKey` exactly where the two can't be
/// joined, `BadEndorsement` exactly where they can be and it is not accepted.
fn endorsement_in<'a>(
    public: &'a [u8],
    endorsement: &'a [u8],
    signer: &'a [u8],
) -> Result<Endorsement<'a>, Fault>
    ensures some { IfOk result (λ it. it ≡ record {
      top_public = public.now;
      endorsement = endorsement.now;
      signer_public = signer.now;
    }) }
    ensures endorsed { IfOk result (λ _. IsEndorsed public.now endorsement.now signer.now) }
    ensures unendorsed { IfErr result (λ fault.
        AreUnendorsed public.now endorsement.now signer.now fault) }
{
    match Endorsement::new(public, endorsement, signer, ByEights) {
        Ok(it) => Ok(it),
        Err(EndorsementFault::NotJoinable) => Err(Fault::BadPublicKey),
        Err(EndorsementFault::NotAccepted) => Err(Fault::BadEndorsement),
    }
}
