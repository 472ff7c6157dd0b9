use super::laws::text_is_read_back;
use super::{
    ByteValue, CellId, Fixed, NoValue, ReadFault, Simple, TextValue, Value, value_of_number,
};
use std::alloc::Global;
use std::test::Fail;

fn read_and_written(alloc: Global, kind: Simple, text: &str) -> Result<TextValue, ReadFault> {
    match Value::read(alloc, kind, text)?.text(alloc) {
        Ok(text) => Ok(text),
        Err(_) => Err(ReadFault::OutOfMemory),
    }
}

#[test]
fn texts_of_each_type(rt: HostRuntime) -> Result<(), Fail> {
    let values = [
        (Simple::Byte, " +7\t", "7"),
        (Simple::Byte, "-128", "-128"),
        (Simple::UnsignedByte, "255", "255"),
        (Simple::UnsignedLong, "-0", "0"),
        (
            Simple::Long,
            "000000000000000000000000000000000000000000000000000000007",
            "7",
        ),
        (
            Simple::Integer,
            "-170141183460469231731687303715884105728",
            "-170141183460469231731687303715884105728",
        ),
        (
            Simple::NonNegativeInteger,
            "340282366920938463463374607431768211455",
            "340282366920938463463374607431768211455",
        ),
        (Simple::Decimal, "-00.500", "-0.5"),
        (Simple::Decimal, ".05", "0.05"),
        (Simple::Decimal, "5.", "5"),
        (Simple::Decimal, "-0.0", "0"),
        (Simple::Decimal, "1200", "1200"),
        (Simple::Boolean, "\r\n1 ", "true"),
        (Simple::Boolean, "false", "false"),
        (Simple::HexBinary, "0aFf", "0AFF"),
        (Simple::String, " a b ", " a b "),
    ];
    for (kind, text, wanted) in values {
        let written = read_and_written(rt.alloc(), kind, text)?;
        assert_eq!(rt; written.as_str(), wanted, "{text}");
    }
    Ok(())
}

#[test]
fn texts_that_are_refused(rt: HostRuntime) {
    let texts = [
        (Simple::Byte, "128", ReadFault::PastType),
        (Simple::UnsignedByte, "256", ReadFault::PastType),
        (Simple::UnsignedInt, "-1", ReadFault::PastType),
        (
            Simple::Integer,
            "9999999999999999999999999999999999999999",
            ReadFault::PastType,
        ),
        (Simple::Int, "", ReadFault::NotAValue),
        (Simple::Int, "+", ReadFault::NotAValue),
        (Simple::Int, "- 5", ReadFault::NotAValue),
        (Simple::Int, "1.0", ReadFault::NotAValue),
        (Simple::Decimal, ".", ReadFault::NotAValue),
        (Simple::Decimal, "1.2.3", ReadFault::NotAValue),
        (Simple::Decimal, "1e5", ReadFault::NotAValue),
        (
            Simple::Decimal,
            "999999999999999999999999999999999999999",
            ReadFault::PastType,
        ),
        (Simple::Boolean, "True", ReadFault::NotAValue),
        (Simple::HexBinary, "0af", ReadFault::NotAValue),
        (Simple::HexBinary, "0g", ReadFault::NotAValue),
    ];
    for (kind, text, wanted) in texts {
        match Value::read(rt.alloc(), kind, text) {
            Ok(_) => assert!(rt; false, "{text}"),
            Err(fault) => assert!(rt; fault == wanted, "{text}"),
        }
    }
}

#[test]
fn copies_and_large_values(rt: HostRuntime) -> Result<(), Fail> {
    let bytes = ByteValue::from_slice(rt.alloc(), [0xab; 5000].as_slice())?;
    let text = Value::Bytes(bytes).text(rt.alloc())?;
    assert_eq!(rt; text.as_str().len(), 10000);
    let read = Value::read(rt.alloc(), Simple::HexBinary, text.as_str())?;
    assert!(rt; read.copy(rt.alloc())? == read);
    text_is_read_back(Simple::HexBinary, &read);
    let held = Value::Text(text);
    assert!(rt; held.copy(rt.alloc())? == held);
    assert_eq!(rt; CellId::new(7).number(), 7);
    Ok(())
}

#[test]
fn values_of_numbers(rt: HostRuntime) {
    let number = value_of_number(Simple::Decimal, true, Some(12345), 2);
    assert_eq!(rt; number, Ok(Value::Dec(Fixed::new(-12345, 2))));
    let zero = value_of_number(Simple::Byte, true, Some(0), 1000);
    assert_eq!(rt; zero, Ok(Value::Int(0)));
    let longer = value_of_number(Simple::Short, true, Some(32000), 2);
    assert_eq!(rt; longer, Ok(Value::Int(-320)));
    let whole = value_of_number(Simple::UnsignedByte, false, Some(255), 0);
    assert_eq!(rt; whole, Ok(Value::Uns(255)));
    let fraction = value_of_number(Simple::Integer, false, None, 1);
    assert_eq!(rt; fraction, Err(NoValue::NotAValue));
    let wide = value_of_number(Simple::Integer, false, None, 0);
    assert_eq!(rt; wide, Err(NoValue::PastType));
}
