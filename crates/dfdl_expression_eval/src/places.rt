// The places that the indexes of a path name.
ghost use Rattle.std.specs.Prelude.{◌≡◌, ◌++◌, ◌∷◌, [], ◌<◌, ◌≤◌, ◌^◌, length, vec_capacity, IfOk, IsOk, OnOk, IfErr, List, ℕ, Option, Some, None, pos, if◌then◌else◌};
ghost use Rattle.dfdl_decimal.specs.Decimal.{with_sign};
ghost use Rattle.dfdl_operators.specs.Numbers.{number_of};
ghost use Rattle.dfdl_expression_eval.specs.Places.{place_at, place_in, place_of, places_of};

use super::env::OutOfMemory;
use dfdl_decimal::Fixed;
use dfdl_value::Value;

/// The place of a whole number that isn't negative.
fn whole_place(magnitude: u128) -> u64
    ensures { result ≡ place_at (pos magnitude) }
{
    u64::try_from(magnitude).unwrap_or(0)
}

fn signed_place(number: i128) -> u64
    ensures { result ≡ place_at number }
{
    u64::try_from(number).unwrap_or(0)
}

fn decimal_place(number: Fixed) -> u64
    ensures { result ≡ place_of number }
{
    if number.scale() > 0 {
        return 0;
    }
    signed_place(number.mantissa())
}

/// The place that a value names, if it is a number.
pub(crate) fn place_in(value: &Value) -> Option<u64>
    ensures { result ≡ place_in (number_of value.now) }
{
    match value {
        Value::Int(number) => Some(signed_place(*number)),
        Value::Uns(number) => Some(whole_place(*number)),
        Value::Dec(number) => Some(decimal_place(*number)),
        Value::Text(_) | Value::Truth(_) | Value::Bytes(_) => None,
    }
}

fn put_place(places: &mut Vec<u64>, place: u64) -> Result<(), OutOfMemory>
    ensures items { OnOk result (places.new.items ≡ places.old.items ++ place ∷ []) }
    ensures room { length places.old.items < vec_capacity places.old → IsOk result }
    ensures capacity { vec_capacity places.old ≤ vec_capacity places.new }
{
    places.push(place).map_err(|_| OutOfMemory)
}

/// Puts the places that values name into a list, where each is a number. The answer says whether
/// each is.
pub(crate) fn gather(values: &[Value], places: &mut Vec<u64>) -> Result<bool, OutOfMemory>
    ensures places { IfOk result (λ all. places_of values.now ≡ if all then Some places.new.items else None) }
    ensures room { length values.now ≤ vec_capacity places.old → IsOk result }
    ensures capacity { vec_capacity places.old ≤ vec_capacity places.new }
{
    places.clear();
    for value in values {
        match place_in(value) {
            Some(place) => put_place(places, place)?,
            None => return Ok(false),
        }
    }
    Ok(true)
}
