// Fields written by an independent program, read and written again.
ghost use Rattle.std.specs.Prelude.{◌≡◌};

use crate::*;
use dfdl_bits::{BitOrder, ByteOrder};
use dfdl_value::{Fixed, Simple, Value};

fn form(bits: u32, bytes_by: ByteOrder, point: u8, kind: Simple) -> IntForm
    ensures bits { result.bits ≡ bits }
    ensures kind { result.kind ≡ kind }
    ensures point { result.point ≡ point }
{
    IntForm {
        bits,
        bytes_by,
        bits_by: BitOrder::MostFirst,
        point,
        kind,
    }
}

#[test]
fn integers_of_other_programs_are_read_and_written(rt: HostRuntime) {
    let short = form(12, ByteOrder::Big, 0, Simple::UnsignedShort);
    assert_eq!(rt; read(&[0xAB, 0xCD, 0xEF], 12, &short), Ok(Value::Uns(3567)));
    let int = form(32, ByteOrder::Little, 0, Simple::Int);
    assert_eq!(rt;
        read(&[0xC7, 0xCF, 0xFF, 0xFF], 0, &int),
        Ok(Value::Int(-12345))
    );
    let widest = form(128, ByteOrder::Big, 0, Simple::NonNegativeInteger);
    assert_eq!(rt;
        read(&[0xFF; 16], 0, &widest),
        Ok(Value::Uns(340_282_366_920_938_463_463_374_607_431_768_211_455))
    );
    let long = form(24, ByteOrder::Big, 0, Simple::Long);
    assert_eq!(rt;
        read(&[0x00, 0xFE, 0x7E, 0x33], 8, &long),
        Ok(Value::Int(-98765))
    );

    let mut bytes = [0xFF, 0xFF, 0xFF];
    assert_eq!(rt; write(&Value::Uns(2748), &short, &mut bytes, 4), Ok(()));
    assert!(rt; bytes == [0xFA, 0xBC, 0xFF]);
    assert_eq!(rt; write(&Value::Uns(4096), &short, &mut bytes, 4), Err(NoFit));
    assert!(rt; bytes == [0xFA, 0xBC, 0xFF]);
    let byte = form(8, ByteOrder::Big, 0, Simple::Byte);
    assert_eq!(rt; write(&Value::Int(-128), &byte, &mut bytes, 8), Ok(()));
    assert!(rt; bytes == [0xFA, 0x80, 0xFF]);
    assert_eq!(rt; write(&Value::Int(128), &byte, &mut bytes, 8), Err(NoFit));
}

#[test]
fn decimals_have_a_virtual_point(rt: HostRuntime) {
    let cents = form(16, ByteOrder::Big, 2, Simple::Decimal);
    assert_eq!(rt;
        read(&[0xFB, 0x2E], 0, &cents),
        Ok(Value::Dec(Fixed::new(-1234, 2)))
    );
    assert_eq!(rt;
        read(&[0x04, 0xB0], 0, &cents),
        Ok(Value::Dec(Fixed::new(12, 0)))
    );
    let mut bytes = [0, 0];
    assert_eq!(rt;
        write(&Value::Dec(Fixed::new(15, 1)), &cents, &mut bytes, 0),
        Ok(())
    );
    assert!(rt; bytes == [0x00, 0x96]);
    assert_eq!(rt;
        write(&Value::Dec(Fixed::new(1, 3)), &cents, &mut bytes, 0),
        Err(NoFit)
    );
    assert_eq!(rt;
        write(&Value::Dec(Fixed::new(328, 0)), &cents, &mut bytes, 0),
        Err(NoFit)
    );
    let wide = form(128, ByteOrder::Big, 0, Simple::Decimal);
    assert_eq!(rt; read(&[0x7F; 16], 0, &wide), Err(NotInType));
}

#[test]
fn truths_have_numbers(rt: HostRuntime) {
    laws::read_back();
    let mut form = BitTruthForm {
        bits: 8,
        bytes_by: ByteOrder::Big,
        bits_by: BitOrder::MostFirst,
        truth: Some(89),
        falsity: 78,
    };
    assert_eq!(rt; read_truth(b"YNX", 0, &form), Ok(true));
    assert_eq!(rt; read_truth(b"YNX", 8, &form), Ok(false));
    assert_eq!(rt; read_truth(b"YNX", 16, &form), Err(NoTruth));
    form.truth = None;
    assert_eq!(rt; read_truth(b"YNX", 16, &form), Ok(true));
    let mut bytes = [0, 0];
    assert_eq!(rt; write_truth(true, &form, &mut bytes, 8), Ok(()));
    assert!(rt; bytes == [0, 0xB1]);
    form.falsity = 256;
    assert_eq!(rt; write_truth(true, &form, &mut bytes, 8), Err(NoFit));
    assert_eq!(rt; write_truth(false, &form, &mut bytes, 8), Err(NoFit));
}

#[test]
fn sizes_of_fields_are_those_of_their_types(rt: HostRuntime) {
    let short = form(12, ByteOrder::Big, 0, Simple::UnsignedShort);
    assert!(rt; short.with_bits(16).is_some());
    assert!(rt; short.with_bits(17).is_none());
    assert!(rt; short.with_bits(0).is_none());
    let truth = BitTruthForm {
        bits: 1,
        bytes_by: ByteOrder::Big,
        bits_by: BitOrder::MostFirst,
        truth: None,
        falsity: 0,
    };
    assert!(rt; truth.with_bits(32).is_some());
    assert!(rt; truth.with_bits(33).is_none());
}
