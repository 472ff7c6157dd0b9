// The forms of text numbers.
ghost use Rattle.std.specs.Prelude.{◌≡◌};

use crate::number_pattern::NumberPattern;
use crate::separators::{are_plain, goes_with, is_base};

/// How a number is rounded to the fraction digits of its pattern.
#[derive(Clone, Copy, Debug, PartialEq, Eq)]
pub enum Rounding {
    /// Towards positive infinity.
    Ceiling,
    /// Towards negative infinity.
    Floor,
    /// Towards zero.
    Down,
    /// Away from zero.
    Up,
    /// To the nearest; halfway to the even neighbour.
    HalfEven,
    /// To the nearest; halfway towards zero.
    HalfDown,
    /// To the nearest; halfway away from zero.
    HalfUp,
    /// A number that would be rounded is refused.
    Unnecessary,
}

/// The form of a text number.
#[derive(Debug, Drop)]
pub struct NumberForm {
    /// 2, 8, 10 or 16.
    pub base: u8,
    /// There is one exactly where the base is 10.
    pub pattern: Option<NumberPattern>,
    /// The decimal separator.
    pub decimal: char,
    /// The grouping separator.
    pub grouping: char,
    pub rounding: Rounding,
}

impl NumberForm {
    ghost use Rattle.std.specs.Prelude.{◌-◌, ◌^◌, ◌↔◌, IfSome, IsSome, IsTrue, min};
    ghost use Rattle.dfdl_forms.specs.NumberForms.{is_form, HasPattern, IsNumberForm};
    ghost use Rattle.dfdl_forms.specs.NumberRooms.{IsFormOf, room_of};

    /// The form with these parts, if they go together: a pattern stands exactly in base 10, and the separators that it
    /// uses are no digits, and differ.
    pub fn new(
        base: u8,
        pattern: Option<NumberPattern>,
        decimal: char,
        grouping: char,
        rounding: Rounding,
    ) -> Option<NumberForm>
        ensures fits { IsSome result ↔ IsTrue (is_form base pattern decimal grouping) }
        ensures form { IfSome result (λ form. IsFormOf form base pattern decimal grouping rounding) }
        ensures sound { HasPattern pattern → IfSome result IsNumberForm }
    {
        if !is_base(base) || !goes_with(base, &pattern) || !are_plain(&pattern, decimal, grouping) {
            return None;
        }
        Some(NumberForm {
            base,
            pattern,
            decimal,
            grouping,
            rounding,
        })
    }

    /// How many characters a number in this form may take.
    pub fn room(&self) -> usize
        ensures { result ≡ min (room_of self.now) (2 ^ 64 - 1) }
    {
        match &self.pattern {
            Some(pattern) => {
                let before = pattern.prefix.len().max(pattern.negative_prefix.len());
                let behind = pattern.suffix.len().max(pattern.negative_suffix.len());
                before.saturating_add(behind).saturating_add(128)
            }
            None => 128,
        }
    }
}
