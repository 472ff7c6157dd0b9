// The number that a text is read as.
ghost use Rattle.std.specs.Prelude.{◌≡◌, Option};
ghost use Rattle.dfdl_decimal.specs.Decimal.{DecimalNumber};
ghost use Rattle.dfdl_forms.specs.Types.{form_of};
ghost use Rattle.dfdl_number_text.specs.NumberReading.{fault_of, number_if};
ghost use Rattle.dfdl_number_text.specs.ReadShown.{Shows};

use crate::fault::NumberFault;
use dfdl_value::{NoValue, Simple, Value, value_of_number};

/// A number without the zeros at the end of its fraction.
#[derive(Clone, Copy)]
pub struct Number {
    pub negative: bool,
    /// Its digits, or none where these take more than 128 bits.
    pub magnitude: Option<u128>,
    /// How many of the digits stand behind the decimal point.
    pub scale: usize,
}

fn fault(fault: NoValue) -> NumberFault
    ensures { result ≡ fault_of fault }
{
    match fault {
        NoValue::NotAValue => NumberFault::NotANumber,
        NoValue::PastType => NumberFault::PastType,
    }
}

/// The value of a type that a number is, if there is one.
pub fn value_of(kind: Simple, number: Option<Number>) -> Result<Value, NumberFault>
    ensures { (d : Option DecimalNumber) → Shows number d → result ≡ number_if (form_of kind) d }
{
    let Some(number) = number else {
        return Err(NumberFault::NotANumber);
    };
    match value_of_number(kind, number.negative, number.magnitude, number.scale) {
        Ok(value) => Ok(value),
        Err(why) => Err(fault(why)),
    }
}
