// What the operators and functions answer, by the rules of the expression language.
use crate::*;
use dfdl_decimal::Fixed;
use dfdl_value::{ByteValue, Simple, TextValue, Value};
use std::test::Fail;

// `7 idiv 2`, `-7 idiv 2`, `-7 mod 2`, `7 mod -2`, `1 div 4`, and quotients that aren't there.
#[test]
fn quotients_and_remainders(rt: HostRuntime) {
    let two = Value::Int(2);
    assert!(rt; integer_divide(&Value::Int(7), &two) == Ok(Value::Int(3)));
    assert!(rt; integer_divide(&Value::Int(-7), &two) == Ok(Value::Int(-3)));
    assert!(rt; modulo(&Value::Int(-7), &two) == Ok(Value::Int(-1)));
    assert!(rt; modulo(&Value::Int(7), &Value::Int(-2)) == Ok(Value::Int(1)));
    let quarter = divide(&Value::Int(1), &Value::Int(4));
    assert!(rt; quarter == Ok(Value::Dec(Fixed::new(25, 2))));
    assert!(rt; divide(&Value::Int(1), &Value::Int(3)) == Err(OperatorFault::NoQuotient));
    assert!(rt; divide(&two, &Value::Int(0)) == Err(OperatorFault::NoQuotient));
    assert!(rt; add(&two, &Value::Truth(true)) == Err(OperatorFault::WrongType));
}

// `concat('ab', '', 'c')`, and one with a number.
#[test]
fn texts_are_joined(rt: HostRuntime) -> Result<(), Fail> {
    let parts = [
        Value::Text(TextValue::from_str(rt.alloc(), "ab")?),
        Value::Text(TextValue::from_str(rt.alloc(), "")?),
        Value::Text(TextValue::from_str(rt.alloc(), "c")?),
    ];
    let joined = Value::Text(TextValue::from_str(rt.alloc(), "abc")?);
    assert!(rt; concat(rt.alloc(), &parts) == Ok(joined));
    let mixed = [Value::Int(1)];
    let fault = FunctionFault::Fault(OperatorFault::WrongType);
    assert!(rt; concat(rt.alloc(), &mixed) == Err(fault));
    Ok(())
}

// Constructors from texts, numbers and truth.
#[test]
fn values_are_constructed(rt: HostRuntime) -> Result<(), Fail> {
    let alloc = rt.alloc();
    let digits = Value::Text(TextValue::from_str(alloc, "+12")?);
    assert!(rt; construct(alloc, Simple::Int, &digits) == Ok(Value::Int(12)));
    let text = Value::Text(TextValue::from_str(alloc, "12")?);
    assert!(rt; construct(alloc, Simple::String, &Value::Uns(12)) == Ok(text));
    assert!(rt; construct(alloc, Simple::UnsignedByte, &Value::Truth(true)) == Ok(Value::Uns(1)));
    assert!(rt; construct(alloc, Simple::Boolean, &Value::Int(-3)) == Ok(Value::Truth(true)));
    let past = FunctionFault::Fault(OperatorFault::PastRange);
    assert!(rt; construct(alloc, Simple::Byte, &Value::Int(128)) == Err(past));
    let bytes = Value::Bytes(ByteValue::from_slice(alloc, &[1])?);
    let wrong = FunctionFault::Fault(OperatorFault::WrongType);
    assert!(rt; construct(alloc, Simple::Int, &bytes) == Err(wrong));
    Ok(())
}

// `substring('hé€', 2)`, `substring('hé€', 1, 2)`, places before the text and behind it.
#[test]
fn parts_of_texts(rt: HostRuntime) {
    assert!(rt; substring_from("hé€", &Value::Int(2)) == Ok("é€"));
    assert!(rt; substring("hé€", &Value::Int(1), &Value::Int(2)) == Ok("hé"));
    assert!(rt; substring("hé€", &Value::Int(0), &Value::Int(2)) == Ok("h"));
    assert!(rt; substring_from("hé€", &Value::Int(4)) == Ok(""));
    assert_eq!(rt; string_length("hé€"), 3);
    assert!(rt; contains("hé€", "é") && starts_with("hé€", "h") && ends_with("hé€", "€"));
}
