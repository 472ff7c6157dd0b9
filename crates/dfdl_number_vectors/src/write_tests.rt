// Texts of the standard's number patterns, and the roundings that Java's documents list.
ghost use Rattle.dfdl_forms.specs.NumberForms.{IsNumberForm};

use crate::test_forms::{based, patterned};
use dfdl_decimal::shortest;
use dfdl_forms::{NumberForm, Rounding};
use dfdl_number_text::write;
use dfdl_value::Value;
use std::alloc::{AllocError, Global};
use std::test::Fail;

// pattern, digits, how many of them are fraction digits, text
const DECIMALS: [(&str, i128, u32, &str); 33] = [
    ("#,##0.00", 12345, 1, "1,234.50"),
    ("#,##0.00", 12345678905, 3, "12,345,678.90"),
    ("#,##0", 1234567, 0, "1,234,567"),
    ("#,##0", 999, 0, "999"),
    ("#0.00", 15, 3, "0.02"),
    ("#0.00", 25, 3, "0.02"),
    ("#0.00", -5, 3, "0.00"),
    ("#0.00", -15, 3, "-0.02"),
    ("#0.00", 1, 255, "0.00"),
    ("#0.00", 995, 3, "1.00"),
    ("#0.0##", 3, 0, "3.0"),
    ("#0.0##", 1025, 2, "10.25"),
    ("#0.##", 7, 0, "7"),
    ("#.##", 25, 2, "0.25"),
    ("#.##", 5, 1, "0.5"),
    ("#.##", 0, 0, "0"),
    (".##", 5, 1, ".5"),
    (".##", 5, 0, "5"),
    (".##", 0, 0, "0"),
    (".00", 0, 0, ".00"),
    ("#0.", 5, 0, "5."),
    ("#.", 0, 0, "0."),
    ("#V00", 5, 2, "005"),
    ("V00", 5, 2, "05"),
    ("V00", 0, 0, "00"),
    ("#,###", 0, 0, "0"),
    ("000", 7, 0, "007"),
    ("#", 0, 0, "0"),
    ("0;(0)", -5, 0, "(5)"),
    ("0;(0)", 5, 0, "5"),
    ("000V00", 1234, 2, "01234"),
    ("000V00", -5, 0, "-00500"),
    (
        "#0",
        99999999999999999999999999999999999999,
        0,
        "99999999999999999999999999999999999999",
    ),
];

// mode, and what 2.5, -2.5, 2.4, 2.6, -2.4, -2.6, 3.5, 5.5, 1.6, 1.1, 1.0, -1.0, -1.1, -1.6 and -5.5 are rounded to
const ROUNDINGS: [(Rounding, &str); 7] = [
    (Rounding::Ceiling, "3 -2 3 3 -2 -2 4 6 2 2 1 -1 -1 -1 -5"),
    (Rounding::Floor, "2 -3 2 2 -3 -3 3 5 1 1 1 -1 -2 -2 -6"),
    (Rounding::Down, "2 -2 2 2 -2 -2 3 5 1 1 1 -1 -1 -1 -5"),
    (Rounding::Up, "3 -3 3 3 -3 -3 4 6 2 2 1 -1 -2 -2 -6"),
    (Rounding::HalfEven, "2 -2 2 3 -2 -3 4 6 2 1 1 -1 -1 -2 -6"),
    (Rounding::HalfDown, "2 -2 2 3 -2 -3 3 5 2 1 1 -1 -1 -2 -5"),
    (Rounding::HalfUp, "3 -3 2 3 -2 -3 4 6 2 1 1 -1 -1 -2 -6"),
];

const TENTHS: [i128; 15] = [
    25, -25, 24, 26, -24, -26, 35, 55, 16, 11, 10, -10, -11, -16, -55,
];

// base, number, text
const BASES: [(u8, u128, &str); 8] = [
    (16, 255, "FF"),
    (16, 2748, "ABC"),
    (16, 0, "0"),
    (16, u128::MAX, "FFFFFFFFFFFFFFFFFFFFFFFFFFFFFFFF"),
    (8, 8, "10"),
    (8, 511, "777"),
    (2, 5, "101"),
    (2, 0, "0"),
];

pub(crate) fn decimal(digits: i128, scale: u32) -> Value {
    match shortest(digits < 0, digits.unsigned_abs(), scale) {
        Some(number) => Value::Dec(number),
        None => Value::Truth(false),
    }
}

/// Puts the text of a value behind a text, or `NoFit`.
fn put(alloc: Global, text: &mut String, form: &NumberForm, value: &Value) -> Result<(), AllocError>
    requires { IsNumberForm form.now }
{
    let mut room = vec![in alloc; '~'; 256]?;
    if form.room() > room.len() {
        return text.push_str("no room");
    }
    match write(form, value, &mut room) {
        Ok(count) => {
            for c in &room[..count] {
                text.push(*c)?;
            }
            Ok(())
        }
        Err(_) => text.push_str("NoFit"),
    }
}

pub(crate) fn text_of(alloc: Global, form: &NumberForm, value: &Value) -> Result<String, AllocError>
    requires { IsNumberForm form.now }
{
    let mut text = String::new(alloc);
    put(alloc, &mut text, form, value)?;
    Ok(text)
}

#[test]
fn writes_decimals(rt: HostRuntime) -> Result<(), Fail> {
    for (pattern, digits, scale, text) in DECIMALS {
        let form = patterned(rt.alloc(), pattern, Rounding::HalfEven)?;
        let written = text_of(rt.alloc(), &form, &decimal(digits, scale))?;
        assert_eq!(rt; written.as_str(), text, "{pattern}");
    }
    Ok(())
}

#[test]
fn rounds(rt: HostRuntime) -> Result<(), Fail> {
    for (mode, texts) in ROUNDINGS {
        let form = patterned(rt.alloc(), "0", mode)?;
        let mut written = String::new(rt.alloc());
        for tenths in TENTHS {
            if !written.is_empty() {
                written.push(' ')?;
            }
            put(rt.alloc(), &mut written, &form, &decimal(tenths, 1))?;
        }
        assert_eq!(rt; written.as_str(), texts, "{mode:?}");
    }
    Ok(())
}

#[test]
fn refuses(rt: HostRuntime) -> Result<(), Fail> {
    let exact = patterned(rt.alloc(), "0", Rounding::Unnecessary)?;
    assert_eq!(rt;
        text_of(rt.alloc(), &exact, &decimal(1, 1))?.as_str(),
        "NoFit"
    );
    assert_eq!(rt; text_of(rt.alloc(), &exact, &decimal(5, 0))?.as_str(), "5");
    let implied = patterned(rt.alloc(), "000V00", Rounding::HalfEven)?;
    assert_eq!(rt;
        text_of(rt.alloc(), &implied, &decimal(12345, 3))?.as_str(),
        "NoFit"
    );
    assert_eq!(rt;
        text_of(rt.alloc(), &implied, &Value::Truth(true))?.as_str(),
        "NoFit"
    );
    assert_eq!(rt;
        text_of(rt.alloc(), &based(16)?, &Value::Int(-1))?.as_str(),
        "NoFit"
    );
    assert_eq!(rt;
        text_of(rt.alloc(), &based(2)?, &decimal(5, 0))?.as_str(),
        "NoFit"
    );
    Ok(())
}

#[test]
fn writes_integers(rt: HostRuntime) -> Result<(), Fail> {
    for (base, number, text) in BASES {
        assert_eq!(rt;
            text_of(rt.alloc(), &based(base)?, &Value::Uns(number))?.as_str(),
            text,
            "{base}"
        );
    }
    assert_eq!(rt;
        text_of(rt.alloc(), &based(2)?, &Value::Int(5))?.as_str(),
        "101"
    );
    let every = patterned(rt.alloc(), "#,0", Rounding::HalfEven)?;
    assert_eq!(rt;
        text_of(rt.alloc(), &every, &Value::Int(-1234))?.as_str(),
        "-1,2,3,4"
    );
    assert_eq!(rt;
        text_of(rt.alloc(), &every, &Value::Uns(u128::MAX))?.as_str(),
        "3,4,0,2,8,2,3,6,6,9,2,0,9,3,8,4,6,3,4,6,3,3,7,4,6,0,7,4,3,1,7,6,8,2,1,1,4,5,5"
    );
    Ok(())
}

#[test]
fn writes_the_widest_number(rt: HostRuntime) -> Result<(), Fail> {
    let written = text_of(rt.alloc(), &based(2)?, &Value::Uns(u128::MAX))?;
    assert_eq!(rt; written.len(), 128);
    assert!(rt; written.as_bytes().iter().all(|byte| *byte == b'1'));
    Ok(())
}
