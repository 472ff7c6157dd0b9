// Which parts of a form of text numbers go together.
ghost use Rattle.std.specs.Prelude.{◌≡◌};
ghost use Rattle.dfdl_forms.specs.NumberForms.{are_plain as are_plain_in, goes_with as goes_with_pattern, is_base as is_base_of, is_plain_decimal as is_plain_decimal_in, is_plain_grouping as is_plain_grouping_in};

use crate::number_pattern::{NumberPattern, Point};

/// Whether a text number may have this base.
pub fn is_base(base: u8) -> bool
    ensures { result ≡ is_base_of base }
{
    base == 2 || base == 8 || base == 10 || base == 16
}

/// Whether a pattern stands exactly where the base is 10.
pub fn goes_with(base: u8, pattern: &Option<NumberPattern>) -> bool
    ensures { result ≡ goes_with_pattern base pattern.now }
{
    match pattern {
        Some(_) => base == 10,
        None => base != 10,
    }
}

fn is_plain_grouping(group_size: u16, grouping: char) -> bool
    ensures { result ≡ is_plain_grouping_in group_size grouping }
{
    group_size == 0 || !grouping.is_ascii_digit()
}

fn is_plain_decimal(point: Point, group_size: u16, decimal: char, grouping: char) -> bool
    ensures { result ≡ is_plain_decimal_in point group_size decimal grouping }
{
    match point {
        Point::Written => { !decimal.is_ascii_digit() && (group_size == 0 || decimal != grouping) }
        _ => true,
    }
}

/// Whether the separators that a pattern uses are no digits, and differ.
pub fn are_plain(pattern: &Option<NumberPattern>, decimal: char, grouping: char) -> bool
    ensures { result ≡ are_plain_in pattern.now decimal grouping }
{
    match pattern {
        Some(pattern) => {
            is_plain_grouping(pattern.group_size, grouping)
                && is_plain_decimal(pattern.point, pattern.group_size, decimal, grouping)
        }
        None => true,
    }
}
