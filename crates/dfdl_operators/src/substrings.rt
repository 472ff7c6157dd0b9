// The function `substring`.
ghost use Rattle.std.specs.Prelude.{ℕ, ◌≡◌, ◌-◌, ◌<◌, ◌≤◌, ◌∷◌, ◌++◌, [], List, take, drop, true, false, IfOk, IfErr, IfSome, IfNone, Ok, Err};
ghost use Rattle.std.specs.Str.{IsUtf8, chars};
ghost use Rattle.dfdl_operators.specs.NumberShown.{shown};
ghost use Rattle.dfdl_operators.specs.Numbers.{number_of, on_numbers};
ghost use Rattle.dfdl_operators.specs.Operators.{sum_answer};
ghost use Rattle.dfdl_operators.specs.Places.{between_places, from_place, is_below, up_to_sum};

use super::fault::OperatorFault;
use super::number::{Number, operand_in, operands_in};
use super::operators::add;
use super::zeros::cut;
use dfdl_value::Value;

/// How many places, which count from 1, are below a number.
fn places_below(number: Number) -> u128
    ensures below { (place : ℕ) → 0 < place → place ≤ result
        → is_below place (shown number) ≡ true }
    ensures not_below { (place : ℕ) → result < place → is_below place (shown number) ≡ false }
{
    if number.negative {
        return 0;
    }
    if number.magnitude == 0 {
        return 0;
    }
    cut(number.magnitude - 1, number.scale)
}

/// The text behind its first character, if it has one.
fn behind_first(text: &str) -> Option<&str>
    ensures first { IfSome result (λ r. (c : ℕ) × (chars text.now ≡ c ∷ chars r.now)) }
    ensures suffix { IfSome result (λ r. (front : List ℕ) × (text.now ≡ front ++ r.now)) }
    ensures none { IfNone result (chars text.now ≡ []) }
    ensures utf8 { IfSome result (λ r. IsUtf8 r.now) }
{
    let mut rest = text.chars();
    match rest.next() {
        Some(_) => Some(rest.as_str()),
        None => None,
    }
}

/// The text behind so many characters.
fn behind(text: &str, count: u128) -> &str
    ensures left { chars result.now ≡ drop count (chars text.now) }
    ensures suffix { (front : List ℕ) × (text.now ≡ front ++ result.now) }
{
    let mut rest = text;
    let mut left = count;
    while left > 0 {
        match behind_first(rest) {
            Some(shorter) => rest = shorter,
            None => return rest,
        }
        left -= 1;
    }
    rest
}

/// So many characters at the front of the text.
fn front(text: &str, count: u128) -> &str
    ensures { chars result.now ≡ take count (chars text.now) }
{
    let rest = behind(text, count);
    let end = text.len() - rest.len();
    &text[..end]
}

/// The characters at the places from the first to below the end.
fn between<'t>(text: &'t str, first: &Value, end: &Value) -> Result<&'t str, OperatorFault>
    ensures ok { IfOk result (λ t.
        between_places (number_of first.now) (number_of end.now) (chars text.now)
        ≡ Ok (chars t.now)) }
    ensures err { IfErr result (λ e.
        between_places (number_of first.now) (number_of end.now) (chars text.now) ≡ Err e) }
{
    match operands_in(first, end) {
        Ok(of) => {
            let skipped = places_below(of.left);
            let last = places_below(of.right);
            Ok(front(behind(text, skipped), last.saturating_sub(skipped)))
        }
        Err(fault) => Err(fault),
    }
}

/// The function `substring` of two arguments: the characters whose place is at least the number.
/// Places count from 1.
pub fn substring_from<'t>(text: &'t str, first: &Value) -> Result<&'t str, OperatorFault>
    ensures ok { IfOk result (λ t. from_place (number_of first.now) (chars text.now)
        ≡ Ok (chars t.now)) }
    ensures err { IfErr result (λ e. from_place (number_of first.now) (chars text.now) ≡ Err e) }
{
    match operand_in(first) {
        Ok(number) => Ok(behind(text, places_below(number))),
        Err(fault) => Err(fault),
    }
}

/// The function `substring` of three arguments: the characters whose place is at least the first
/// number and below the sum of both.
pub fn substring<'t>(text: &'t str, first: &Value, count: &Value) -> Result<&'t str, OperatorFault>
    ensures ok { IfOk result (λ t.
        up_to_sum (number_of first.now)
        (on_numbers sum_answer (number_of first.now) (number_of count.now)) (chars text.now)
        ≡ Ok (chars t.now)) }
    ensures err { IfErr result (λ e.
        up_to_sum (number_of first.now)
        (on_numbers sum_answer (number_of first.now) (number_of count.now)) (chars text.now)
        ≡ Err e) }
{
    match add(first, count) {
        Ok(sum) => between(text, first, &sum),
        Err(fault) => Err(fault),
    }
}
