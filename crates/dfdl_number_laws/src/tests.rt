// What is written is read back, as the law of the crate says of all numbers.
ghost use Rattle.std.specs.Prelude.{IfOk};
ghost use Rattle.dfdl_forms.specs.NumberForms.{HasPattern, IsNumberForm};

use crate::read_back;
use dfdl_decimal::shortest;
use dfdl_forms::{NumberForm, NumberPattern, Rounding, Simple};
use dfdl_number_pattern::read_pattern;
use dfdl_number_text::{read, write};
use dfdl_value::Value;
use std::alloc::Global;
use std::test::Fail;

fn form(base: u8, pattern: Option<NumberPattern>) -> Result<NumberForm, Fail>
    requires { HasPattern pattern }
    ensures { IfOk result IsNumberForm }
{
    Ok(NumberForm::new(base, pattern, '.', ',', Rounding::Unnecessary).ok_or("no form")?)
}

/// The text of the value that a value's text is read as.
fn back(alloc: Global, form: &NumberForm, kind: Simple, value: &Value) -> Result<String, Fail>
    requires { IsNumberForm form.now }
{
    let mut room = vec![in alloc; '~'; 256]?;
    if form.room() > room.len() {
        return Ok(String::new(alloc));
    }
    let count = write(form, value, &mut room)?;
    let again = read(form, kind, &room[..count])?;
    Ok(format!(in alloc; "{}", again.text(alloc)?.as_str())?)
}

// pattern, digits, how many of them are fraction digits
const DECIMALS: [(&str, i128, u32); 10] = [
    ("#,##0.00", 12345, 1),
    ("#,##0.00", -123456789, 2),
    ("000V00", 1234, 2),
    ("0.###;(0.###)", -5, 3),
    ("'#'#0", 7, 0),
    ("#,0", 1234567, 0),
    ("#", 0, 0),
    (".##", 0, 0),
    (".##", 5, 1),
    ("#0.", 5, 0),
];

#[test]
fn decimals(rt: HostRuntime) -> Result<(), Fail> {
    read_back();
    for (pattern, digits, scale) in DECIMALS {
        let form = form(10, Some(read_pattern(rt.alloc(), pattern)?))?;
        let number = shortest(digits < 0, digits.unsigned_abs(), scale).ok_or("no number")?;
        let value = Value::Dec(number);
        let text = back(rt.alloc(), &form, Simple::Decimal, &value)?;
        assert_eq!(rt;
            text.as_str(),
            value.text(rt.alloc())?.as_str(),
            "{pattern}"
        );
    }
    Ok(())
}

#[test]
fn integers_in_bases(rt: HostRuntime) -> Result<(), Fail> {
    for base in [2, 8, 16] {
        let form = form(base, None)?;
        let value = Value::Uns(9_007_199_254_740_993);
        let text = back(rt.alloc(), &form, Simple::UnsignedLong, &value)?;
        assert_eq!(rt; text.as_str(), value.text(rt.alloc())?.as_str(), "{base}");
    }
    Ok(())
}
