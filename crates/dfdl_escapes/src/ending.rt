// How the reading of a content ends.
ghost use Rattle.std.specs.Prelude.{◌≡◌, ℕ};
ghost use Rattle.dfdl_escapes.specs.declared.form.Stand.{Stand as AnyStand};
ghost use Rattle.dfdl_escapes.specs.Readings.{GoesTo, step_shown};
ghost use Rattle.dfdl_escapes.specs.Reads.{PassesTo, passed_shown};

use crate::character::Character;
use crate::scanned::Scanned;
use dfdl_report::ParseCause;

/// How the reading of a content ends.
#[derive(Debug, Clone, Copy, PartialEq, Eq)]
pub enum Ending {
    /// At terminating markup, of the list at the place `which`.
    Ends { which: usize },
    /// At the end of the box or of the data.
    EndOfBox,
    /// The content is broken.
    Broken(ParseCause),
    /// A byte that is needed hasn't come.
    NotYet,
    /// A byte that is needed is too far from the first that is still held.
    Over,
}

/// How the reading of a content ends, and the greatest byte that was seen or missed plus one, or 0.
#[derive(Debug, Clone, Copy, PartialEq, Eq)]
pub struct Read {
    pub ending: Ending,
    pub far: u64,
}

/// What a step passes, or how the reading ends there.
#[derive(Debug, Clone, Copy)]
pub(crate) enum Passed {
    Gives(Character),
    Mark,
    Stops(Ending),
}

/// What a step passes, or how the reading ends there.
pub(crate) fn by_scanned(scanned: Scanned) -> Passed
    ensures shown { (at : AnyStand) → step_shown at scanned ≡ passed_shown at result }
    ensures goes { (old new : AnyStand) (come : ℕ) → GoesTo scanned old new come → PassesTo result old new come }
{
    match scanned {
        Scanned::Content(c) => Passed::Gives(Character {
            c,
            is_escaped: false,
        }),
        Scanned::Escaped(c) => Passed::Gives(Character {
            c,
            is_escaped: true,
        }),
        Scanned::Skipped => Passed::Mark,
        Scanned::Ends { which } => Passed::Stops(Ending::Ends { which }),
        Scanned::EndOfBox => Passed::Stops(Ending::EndOfBox),
        Scanned::Broken(cause) => Passed::Stops(Ending::Broken(cause)),
        Scanned::NotYet => Passed::Stops(Ending::NotYet),
        Scanned::Over => Passed::Stops(Ending::Over),
    }
}
