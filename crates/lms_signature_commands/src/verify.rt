//! `verify`: a signature judged.
ghost use Rattle.std.specs.Prelude.{ℕ, List, [], IfErr, IfOk};
ghost use Rattle.lms_hss.specs.Verifying.{HasTaken as HasTakenByVerifier};
ghost use Rattle.lms_signature_commands.specs.Judging.{HasTaken};
ghost use Rattle.lms_signature_commands.specs.Verdicts.{IsRightFor};
ghost use Rattle.lms_signature_commands.specs.VerifyLogs.{LogsVerify, LogsVerifyFailed};
ghost use Rattle.lms_world.specs.Held.{Follows};

use crate::verdict::{Verdict, print_verdict};
use crate::why::explain_verdict;
use lms_commands::{Fault, hand_over, open_file, read_file};
use lms_hss::{ByEights, Verifier};
use lms_world::{Printer, Taker, World};
use std::alloc::Global;
use std::io::Write;

/// Reads a public key, opens a message and reads a signature, in this order, then reads the message
/// piece by piece, as the world hands it over; prints the verdict on them and answers it.
///
/// `ReadInput` where a file can't be read, `OutOfMemory` where memory for it was refused,
/// `WriteOutput` where the verdict can't be printed, maybe after a beginning of it.
pub fn verify_files<W: World, O: Write>(
    alloc: Global,
    world: &mut W,
    public: &str,
    message: &str,
    signature: &str,
    output: &mut Printer<O>,
) -> Result<Verdict, Fault>
    ensures logged { IfOk result (λ verdict. LogsVerify public.now message.now
        signature.now verdict output.old output.new (W.events world.old) (W.events world.new)) }
    ensures log_failed { IfErr result (λ fault. LogsVerifyFailed public.now message.now
        signature.now output.old output.new fault (W.events world.old) (W.events world.new)) }
    ensures follows { Follows (W.memory world.old) (W.events world.old)
        (W.memory world.new) (W.events world.new) }
{
    let public = read_file(alloc, world, public)?;
    let message = open_file(alloc, world, message)?;
    let signature = read_file(alloc, world, signature)?;
    let mut judge = Judge::begin(&public, &signature);
    hand_over(message, &mut judge)?;
    let verdict = judge.finish();
    world.begin_printing(output);
    print_verdict(output, verdict)?;
    explain_verdict(world, verdict, &public, &signature);
    Ok(verdict)
}

/// Judges a signature of a message that comes in pieces.
#[derive(Drop)]
struct Judge<'a> {
    // None where no message is accepted.
    verifier: Option<Verifier<'a>>,
}

impl<'a> Judge<'a> {
    /// A judge of this signature under this public key, which has taken no piece of the message
    /// yet.
    fn begin(public: &'a [u8], signature: &'a [u8]) -> Self
        ensures { HasTaken result public.now signature.now [] }
    {
        Judge {
            verifier: Verifier::begin(public, signature, ByEights),
        }
    }

    /// The verdict on the message that all pieces make: `Valid` exactly where its signature is
    /// accepted.
    fn finish(self) -> Verdict
        ensures { (public signature message : List ℕ) → HasTaken self.entry public signature message
            → IsRightFor result public message signature }
    {
        match self.verifier {
            Some(verifier) => verdict_of(verifier),
            None => Verdict::Invalid,
        }
    }
}

/// The verdict of a verifier that has taken the whole message.
fn verdict_of(verifier: Verifier) -> Verdict
    ensures { (public signature message : List ℕ) → HasTakenByVerifier
        verifier.entry public signature message → IsRightFor result public message signature }
{
    if verifier.finish(ByEights) {
        Verdict::Valid
    } else {
        Verdict::Invalid
    }
}

impl Taker for Judge<'_> {
    ghost use Rattle.lms_signature_commands.specs.Judging.{Goes, goes-nowhere, goes-on};

    ghost after = { Goes };

    fn take(&mut self, piece: &[u8]) {
        if let Some(verifier) = &mut self.verifier {
            verifier.update(piece);
        }
    }

    ghost none = { goes-nowhere };

    ghost more = { goes-on };
}
