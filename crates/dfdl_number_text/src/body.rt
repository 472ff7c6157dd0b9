// The body of a text number: its parts, and the number that these write.
ghost use Rattle.std.specs.Prelude.{◌≡◌, ℕ, ◌<◌, ◌≤◌, ◌==◌, ◌++◌, [], length, filter, false, IsTrue};
ghost use Rattle.std.specs.Char.{is_ascii_digit};
ghost use Rattle.std.specs.List.{list_all, position};
ghost use Rattle.dfdl_value.specs.Texts.{number_of as number_of_digits};
ghost use Rattle.dfdl_decimal.specs.Decimal.{with_sign};
ghost use Rattle.dfdl_number_text.specs.Body.{are_grouped as are_grouped_in, are_digits as are_digits_in, begins_with_digit as begins_so, body_number as body_number_of, is_separator as is_separator_in, parts_at, separator_of as separator_in};
ghost use Rattle.dfdl_number_text.specs.ReadShown.{IsNumber, Shows, may_stand as may_stand_in};

use crate::body_digits::{held, without_zeros};
use crate::read_number::Number;
use dfdl_forms::{NumberForm, NumberPattern, Point};

/// The parts of a body.
#[derive(Clone, Copy)]
struct Split<'a> {
    whole: &'a [char],
    fraction: &'a [char],
    scale: usize,
}

fn place_of(body: &[char], decimal: char) -> Option<usize>
    ensures { result ≡ position (λ c. c == decimal) body.now }
{
    body.iter().position(|c| *c == decimal)
}

fn split_at_separator(decimal: char, body: &[char]) -> Split
    ensures { record { whole = result.whole.now; fraction = result.fraction.now; scale = result.scale } ≡ parts_at Point.Written decimal 0 body.now }
{
    match place_of(body, decimal) {
        Some(at) => {
            let fraction = &body[at + 1..];
            Split {
                whole: &body[..at],
                fraction,
                scale: fraction.len(),
            }
        }
        None => Split {
            whole: body,
            fraction: &[],
            scale: 0,
        },
    }
}

fn split_body(point: Point, decimal: char, implied: u16, body: &[char]) -> Split
    ensures { record { whole = result.whole.now; fraction = result.fraction.now; scale = result.scale } ≡ parts_at point decimal implied body.now }
{
    match point {
        Point::Absent => Split {
            whole: body,
            fraction: &[],
            scale: 0,
        },
        Point::Written => split_at_separator(decimal, body),
        Point::Implied => {
            let scale = usize::from(implied);
            let at = body.len().saturating_sub(scale);
            Split {
                whole: &body[..at],
                fraction: &body[at..],
                scale,
            }
        }
    }
}

fn separator_of(form: &NumberForm, pattern: &NumberPattern) -> Option<char>
    ensures { result ≡ separator_in form.now pattern.now }
{
    if pattern.group_size == 0 {
        None
    } else {
        Some(form.grouping)
    }
}

fn is_separator(separator: Option<char>, c: char) -> bool
    ensures { result ≡ is_separator_in separator c }
{
    match separator {
        Some(separator) => c == separator,
        None => false,
    }
}

fn begins_with_digit(text: &[char]) -> bool
    ensures { result ≡ begins_so text.now }
{
    match text {
        [first, ..] => first.is_ascii_digit(),
        [] => false,
    }
}

fn may_stand(separator: Option<char>, behind: bool, c: char, rest: &[char]) -> bool
    ensures { result ≡ may_stand_in separator behind c rest.now }
{
    c.is_ascii_digit() || is_separator(separator, c) && behind && begins_with_digit(rest)
}

fn are_grouped(separator: Option<char>, text: &[char]) -> bool
    ensures { result ≡ are_grouped_in separator false text.now }
{
    let mut rest = text;
    let mut behind = false;
    while let [c, others @ ..] = rest {
        if !may_stand(separator, behind, *c, others) {
            return false;
        }
        behind = c.is_ascii_digit();
        rest = others;
    }
    true
}

fn are_fraction_digits(fraction: &[char]) -> bool
    ensures { result ≡ list_all is_ascii_digit fraction.now }
{
    fraction.iter().all(|c| c.is_ascii_digit())
}

fn are_digits(separator: Option<char>, whole: &[char], fraction: &[char]) -> bool
    ensures { (scale : ℕ) → result ≡ are_digits_in separator (record { whole = whole.now; fraction = fraction.now; scale = scale }) }
{
    are_grouped(separator, whole)
        && are_fraction_digits(fraction)
        && !(whole.is_empty() && fraction.is_empty())
}

/// The number that parts write, without the zeros at the end of the fraction.
fn number_of(negative: bool, whole: &[char], fraction: &[char], scale: usize) -> Number
    requires fraction { IsTrue (list_all is_ascii_digit fraction.now) }
    requires scale { length fraction.now ≤ scale }
    requires whole { length fraction.now < scale → whole.now ≡ [] }
    ensures { IsNumber result (record { mantissa = with_sign negative (number_of_digits (filter is_ascii_digit whole.now ++ fraction.now)); scale = scale }) }
{
    let kept = without_zeros(fraction);
    Number {
        negative,
        magnitude: held(whole, kept),
        scale: scale - (fraction.len() - kept.len()),
    }
}

/// The number that a body writes, if it writes one.
pub fn body_number(
    form: &NumberForm,
    pattern: &NumberPattern,
    negative: bool,
    body: &[char],
) -> Option<Number>
    ensures { Shows result (body_number_of form.now pattern.now negative body.now) }
{
    let parts = split_body(pattern.point, form.decimal, pattern.implied, body);
    if are_digits(separator_of(form, pattern), parts.whole, parts.fraction) {
        Some(number_of(negative, parts.whole, parts.fraction, parts.scale))
    } else {
        None
    }
}
