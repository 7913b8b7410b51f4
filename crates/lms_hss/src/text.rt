//! How levels are printed.
ghost use Rattle.std.specs.Prelude.{Some};
ghost use Rattle.lms_hss.specs.Texts.{levels_text, pair_text};

use lms_params::{LmsType, OtsType};
use std::fmt;

/// The text of a level, as `5/8`.
#[derive(Clone, Copy)]
struct PairText(LmsType, OtsType);

impl fmt::Display for PairText {
    ghost output = { λ x. Some (pair_text (x.0, x.1)) };

    fn fmt<W: fmt::Write>(&self, f: &mut fmt::Formatter<W>) -> fmt::Result {
        let height = self.0.height();
        let width = self.1.w();
        write!(f, "{height}/{width}")
    }
}

/// The text of levels, from the top, as `5/8,10/4`: the height of each, and the width of its
/// digits. It is made for any levels, also those that `Levels::new` refuses.
#[derive(Clone, Copy)]
pub struct LevelsText<'a>(pub &'a [(LmsType, OtsType)]);

impl fmt::Display for LevelsText<'_> {
    ghost output = { λ x. Some (levels_text x.0.now) };

    fn fmt<W: fmt::Write>(&self, f: &mut fmt::Formatter<W>) -> fmt::Result {
        let Some(((lms, ots), others)) = self.0.split_first() else {
            return Ok(());
        };
        write!(f, "{}", PairText(*lms, *ots))?;
        for (lms, ots) in others {
            write!(f, ",{}", PairText(*lms, *ots))?;
        }
        Ok(())
    }
}
