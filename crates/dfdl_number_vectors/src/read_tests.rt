// What texts are read as: the values follow from the standard's rules.
ghost use Rattle.dfdl_forms.specs.NumberForms.{IsNumberForm};

use crate::test_forms::{based, patterned};
use dfdl_forms::{NumberForm, Rounding};
use dfdl_number_text::{NumberFault, read};
use dfdl_value::{Simple, TextValue, Value};
use std::alloc::Global;
use std::test::Fail;

/// The text of the value that is read, or the fault's name.
pub(crate) fn named(alloc: Global, read: Result<Value, NumberFault>) -> Result<TextValue, Fail> {
    match read {
        Ok(value) => Ok(value.text(alloc)?),
        Err(fault) => Ok(TextValue::from_string(format!(in alloc; "{fault}")?)),
    }
}

/// The same of a text.
pub(crate) fn said(
    alloc: Global,
    form: &NumberForm,
    kind: Simple,
    text: &str,
) -> Result<TextValue, Fail>
    requires { IsNumberForm form.now }
{
    let chars: Vec<char> = text.chars().collect(alloc)?;
    named(alloc, read(form, kind, &chars))
}

const NONE: &str = "not a number of the pattern";

const PAST: &str = "a number outside of the type";

// pattern, type, text, the value's text
const ROWS: [(&str, Simple, &str, &str); 38] = [
    ("#,##0.00", Simple::Decimal, "1,234.50", "1234.5"),
    ("#,##0.00", Simple::Decimal, "1234", "1234"),
    ("#,##0.00", Simple::Decimal, ".5", "0.5"),
    ("#,##0.00", Simple::Decimal, "-1,234.5", "-1234.5"),
    ("#,##0.00", Simple::Decimal, "1.2.3", NONE),
    ("#,##0.00", Simple::Decimal, ".", NONE),
    ("#,##0.00", Simple::Decimal, "1.2,3", NONE),
    ("#,##0.00", Simple::Integer, "1,234.00", "1234"),
    ("#,##0.00", Simple::Integer, "1.5", NONE),
    ("000V00", Simple::Decimal, "01234", "12.34"),
    ("000V00", Simple::Decimal, "-01230", "-12.3"),
    ("000V00", Simple::Decimal, "5", "0.05"),
    ("000V00", Simple::Decimal, "0", "0"),
    ("000V00", Simple::Decimal, "012.34", NONE),
    ("000V00", Simple::Integer, "01200", "12"),
    ("000V00", Simple::Integer, "01230", NONE),
    ("#0", Simple::Integer, "12", "12"),
    ("#0", Simple::Integer, "12.", NONE),
    ("#0", Simple::Integer, "", NONE),
    ("#0", Simple::Integer, "-", NONE),
    ("#0", Simple::Integer, "1,2", NONE),
    ("#0.", Simple::Integer, "12.", "12"),
    ("#,##0", Simple::Integer, "1,,2", NONE),
    ("#,##0", Simple::Integer, ",1", NONE),
    ("#,##0", Simple::Integer, "1,", NONE),
    ("#,##0", Simple::Integer, "1,2,3", "123"),
    ("0;(0)", Simple::Integer, "(5)", "-5"),
    ("0;(0)", Simple::Integer, "5", "5"),
    ("0;(0)", Simple::Integer, "-5", NONE),
    ("0;(0)", Simple::Integer, "(5", NONE),
    ("0;0", Simple::Integer, "5", "5"),
    ("'#'0", Simple::Integer, "#7", "7"),
    ("'#'0", Simple::Integer, "7", NONE),
    ("0 €", Simple::Integer, "12 €", "12"),
    ("0 €", Simple::Integer, "12 ¥", NONE),
    ("0", Simple::UnsignedByte, "255", "255"),
    ("0", Simple::UnsignedByte, "256", PAST),
    ("0", Simple::UnsignedByte, "-5", PAST),
];

#[test]
fn reads_by_patterns(rt: HostRuntime) -> Result<(), Fail> {
    for (pattern, kind, text, answer) in &ROWS {
        let form = patterned(rt.alloc(), pattern, Rounding::HalfEven)?;
        assert_eq!(rt; said(rt.alloc(), &form, *kind, text)?.as_str(), *answer);
    }
    Ok(())
}

// type, text, the value's text: numbers at the bounds of their types
const BOUNDS: [(Simple, &str, &str); 7] = [
    (
        Simple::Decimal,
        "99999999999999999999999999999999999999",
        "99999999999999999999999999999999999999",
    ),
    (
        Simple::Integer,
        "99999999999999999999999999999999999999",
        "99999999999999999999999999999999999999",
    ),
    (
        Simple::Decimal,
        "999999999999999999999999999999999999999",
        PAST,
    ),
    (
        Simple::Integer,
        "170141183460469231731687303715884105727",
        "170141183460469231731687303715884105727",
    ),
    (
        Simple::Integer,
        "170141183460469231731687303715884105728",
        PAST,
    ),
    (
        Simple::Integer,
        "1000000000000000000000000000000000000000000000",
        PAST,
    ),
    (
        Simple::Integer,
        "0000000000000000000000000000000000000000000012",
        "12",
    ),
];

#[test]
fn reads_the_greatest_numbers(rt: HostRuntime) -> Result<(), Fail> {
    let form = patterned(rt.alloc(), "#0.0#", Rounding::HalfEven)?;
    for (kind, text, answer) in &BOUNDS {
        assert_eq!(rt; said(rt.alloc(), &form, *kind, text)?.as_str(), *answer);
    }
    Ok(())
}

/// A decimal point, zeros and an end.
fn fraction(alloc: Global, zeros: usize, end: &str) -> Result<String, Fail> {
    Ok(format!(in alloc; ".{end:0>zeros$}")?)
}

#[test]
fn reads_long_fractions(rt: HostRuntime) -> Result<(), Fail> {
    let form = patterned(rt.alloc(), "0.0", Rounding::HalfEven)?;
    let longest = fraction(rt.alloc(), 255, "1")?;
    assert_ne!(rt;
        said(rt.alloc(), &form, Simple::Decimal, &longest)?.as_str(),
        PAST
    );
    let longer = fraction(rt.alloc(), 256, "1")?;
    assert_eq!(rt;
        said(rt.alloc(), &form, Simple::Decimal, &longer)?.as_str(),
        PAST
    );
    let zeros = fraction(rt.alloc(), 300, "0")?;
    assert_eq!(rt;
        said(rt.alloc(), &form, Simple::Decimal, &zeros)?.as_str(),
        "0"
    );
    Ok(())
}

#[test]
fn reads_trailing_zeros(rt: HostRuntime) -> Result<(), Fail> {
    let form = patterned(rt.alloc(), "0.0", Rounding::HalfEven)?;
    let half = format!(in rt.alloc(); "{:0<300}", ".5")?;
    assert_eq!(rt;
        said(rt.alloc(), &form, Simple::Decimal, &half)?.as_str(),
        "0.5"
    );
    Ok(())
}

// type, text, the value's text
const DIGITS: [(Simple, &str, &str); 10] = [
    (Simple::Integer, "ff", "255"),
    (Simple::Integer, "FF", "255"),
    (Simple::Integer, "fG", NONE),
    (Simple::Integer, "", NONE),
    (Simple::Integer, "-1", NONE),
    (Simple::UnsignedByte, "ff", "255"),
    (Simple::UnsignedByte, "100", PAST),
    (
        Simple::NonNegativeInteger,
        "ffffffffffffffffffffffffffffffff",
        "340282366920938463463374607431768211455",
    ),
    (
        Simple::NonNegativeInteger,
        "100000000000000000000000000000000",
        PAST,
    ),
    (Simple::Decimal, "1", NONE),
];

#[test]
fn reads_base_16(rt: HostRuntime) -> Result<(), Fail> {
    let form = based(16)?;
    for (kind, text, answer) in &DIGITS {
        assert_eq!(rt; said(rt.alloc(), &form, *kind, text)?.as_str(), *answer);
    }
    Ok(())
}

#[test]
fn reads_base_2(rt: HostRuntime) -> Result<(), Fail> {
    let form = based(2)?;
    assert_eq!(rt; said(rt.alloc(), &form, Simple::Byte, "101")?.as_str(), "5");
    assert_eq!(rt;
        said(rt.alloc(), &form, Simple::Byte, "102")?.as_str(),
        NONE
    );
    assert_eq!(rt;
        said(rt.alloc(), &form, Simple::Byte, "10000000")?.as_str(),
        PAST
    );
    Ok(())
}
