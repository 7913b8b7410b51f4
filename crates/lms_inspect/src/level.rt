//! An LMS signature that is cut by its own typecodes (RFC 8554, 5.4).
ghost use Rattle.std.specs.Prelude.{List, ℕ, ◌≡◌, ◌*◌, ◌+◌, IfNone, IfSome};
ghost use Rattle.lms_params.specs.LmsType.{lms_set_of};
ghost use Rattle.lms_params.specs.OtsType.{ots_set_of};
ghost use Rattle.lms_params.specs.declared.lms_type.LmsType.{LmsType as LmsKind};
ghost use Rattle.lms_params.specs.declared.ots_type.OtsType.{OtsType as OtsKind};
ghost use Rattle.lms_inspect.specs.Levels.{BeginsCoded, BeginsSigned};
ghost use Rattle.lms_inspect.specs.declared.level.Level.{Level as SaidLevel};

use lms_params::{HASH_LEN, LmsType, OtsType, split_u32};
use lms_verification::leaf_count;

/// The bytes of a typecode.
const CODE_LEN: usize = 4;

/// What an LMS signature says of the level that signed: the sets of its key, and its leaf.
#[derive(Clone, Copy, Debug, PartialEq, Eq)]
pub struct Level {
    pub lms: LmsType,
    pub ots: OtsType,
    pub leaf: u32,
}

/// Cuts off the LMS signature with which the bytes begin, by its own typecodes: what it says, and
/// the bytes after it. `None` exactly where they begin with none of known typecodes whose leaf is
/// in its tree.
pub(crate) fn level_in(text: &[u8]) -> Option<(Level, &[u8])>
    ensures some { IfSome result (λ cut. BeginsSigned cut.0 text.now cut.1.now) }
    ensures none { IfNone result
        ((level : SaidLevel) (rest : List ℕ) → ¬ BeginsSigned level text.now rest) }
{
    let (leaf, rest) = split_u32(text)?;
    let (ots, rest) = one_time_in(rest)?;
    let (lms, rest) = path_in(rest)?;
    if leaf >= leaf_count(lms) {
        return None;
    }
    Some((Level { lms, ots, leaf }, rest))
}

/// Cuts off the LM-OTS signature with which the bytes begin (4.5): its set, and the bytes after it.
/// `None` exactly where they begin with none of a known typecode.
fn one_time_in(text: &[u8]) -> Option<(OtsType, &[u8])>
    ensures some { IfSome result (λ cut.
        BeginsCoded (ots_set_of cut.0).code (32 * ((ots_set_of cut.0).p + 1)) text.now cut.1.now) }
    ensures none { IfNone result ((ots : OtsKind) (rest : List ℕ)
        → ¬ BeginsCoded (ots_set_of ots).code (32 * ((ots_set_of ots).p + 1)) text.now rest) }
{
    let (code, rest) = split_u32(text)?;
    let ots = OtsType::from_code(code)?;
    let (_hashes, rest) = rest.split_at_checked(ots.sig_len() - CODE_LEN)?;
    Some((ots, rest))
}

/// Cuts off the LMS typecode with which the bytes begin, and the path of such a tree (5.4): its set,
/// and the bytes after both. `None` exactly where they begin with none of a known typecode.
fn path_in(text: &[u8]) -> Option<(LmsType, &[u8])>
    ensures some { IfSome result (λ cut.
        BeginsCoded (lms_set_of cut.0).code (32 * (lms_set_of cut.0).h) text.now cut.1.now) }
    ensures none { IfNone result ((lms : LmsKind) (rest : List ℕ)
        → ¬ BeginsCoded (lms_set_of lms).code (32 * (lms_set_of lms).h) text.now rest) }
{
    let (code, rest) = split_u32(text)?;
    let lms = LmsType::from_code(code)?;
    let (_path, rest) = rest.split_at_checked(HASH_LEN * lms.height() as usize)?;
    Some((lms, rest))
}
