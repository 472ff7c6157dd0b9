// Which fact of a slot is asked for next, and when its verdict is given.
ghost use Rattle.std.specs.Prelude.{◌≡◌};
ghost use Rattle.dfdl_separators.specs.Courses.{course};

use crate::moves::SlotMove;
use crate::verdict::{Here, Tried, missing};

/// What is known of a slot.
#[derive(Debug, Clone, Copy, PartialEq, Eq)]
pub enum Known {
    /// that it begins
    Begun,
    /// whether the separator that it begins with is there
    Begins(bool),
    /// its occurrence; a separator that it begins with is there
    Occurred(Tried),
    /// its occurrence, and whether a separator stands behind it
    Closed(Tried, bool),
}

// The next fact that is asked for, or the verdict.
pub(crate) fn course(here: Here, known: Known) -> SlotMove
    ensures { result ≡ course here known }
{
    match known {
        Known::Begun => begin(here),
        Known::Begins(found) => {
            if found {
                return SlotMove::Parse;
            }
            missing(here.rule)
        }
        Known::Occurred(tried) => occurred(here, tried),
        Known::Closed(tried, found) => here.by_tried(tried, found),
    }
}

fn begin(here: Here) -> SlotMove
    ensures { result ≡ course here Known.Begun }
{
    if here.is_past() {
        return missing(here.rule);
    }
    if here.begins() {
        return SlotMove::TakeSeparator;
    }
    SlotMove::Parse
}

fn occurred(here: Here, tried: Tried) -> SlotMove
    ensures { result ≡ course here (Known.Occurred tried) }
{
    let with_one = here.by_tried(tried, true);
    if !with_one.is_taken() {
        return with_one;
    }
    if here.by_tried(tried, false).is_taken() {
        return with_one;
    }
    if here.ends() {
        return SlotMove::TakeSeparator;
    }
    SlotMove::LookForSeparator
}
