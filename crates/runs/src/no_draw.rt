// Why a file of steps ends without a draw.
ghost use Rattle.std.specs.Prelude.{◌≡◌, Some};
ghost use Rattle.runs.specs.NoDraws.{no_draw_words};

use std::error::Error;
use std::fmt;
use step_file::CutShort;

#[derive(Clone, Copy, Debug, PartialEq, Eq)]
pub enum NoDraw {
    // the draw is not closed
    Unfinished,
    // the file ends inside a step
    Cut,
}

impl From<CutShort> for NoDraw {
    ghost use Rattle.runs.specs.declared.no_draw.NoDraw.TheVariants.{Cut};

    ghost from_gives = { λ _ why. why ≡ Cut };

    fn from(_: CutShort) -> NoDraw {
        NoDraw::Cut
    }
}

impl fmt::Display for NoDraw {
    ghost output = { λ why. Some (no_draw_words why) };

    fn fmt<W: fmt::Write>(&self, f: &mut fmt::Formatter<W>) -> fmt::Result {
        match self {
            NoDraw::Unfinished => f.write_str("the steps end before the draw is closed"),
            NoDraw::Cut => CutShort.fmt(f),
        }
    }
}

impl Error for NoDraw {}
