// Fields written by a COBOL compiler, and fields that say what is refused.
ghost use Rattle.std.specs.Prelude.{◌≡◌, ◌≤◌};
ghost use Rattle.dfdl_forms.specs.BinaryNumbers.{IsPackedForm};
ghost use Rattle.dfdl_forms.specs.Packed.{IsZonedForm, most_nibbles};

use crate::size::{long_size_of, size_of};
use crate::*;
use PackedRep::{Bcd, Ibm4690, Packed};
use ZonedStyle::{AsciiStandard, TranslatedEbcdic};
use dfdl_bits::{BitOrder, ByteOrder};
use dfdl_value::{Fixed, Simple, Value};

// nibbles, field, value: signed COMP-3
const PACKED: [(u8, u128, i128); 18] = [
    (2, 0x0C, 0),
    (2, 0x5C, 5),
    (2, 0x7D, -7),
    (4, 0x123C, 123),
    (4, 0x123D, -123),
    (4, 0x000C, 0),
    (4, 0x001D, -1),
    (4, 0x999C, 999),
    (6, 0x12345C, 12345),
    (6, 0x98765D, -98765),
    (6, 0x00010D, -10),
    (8, 0x1234567C, 1234567),
    (8, 0x7654321D, -7654321),
    (16, 0x123456789012345C, 123456789012345),
    (16, 0x999999999999999D, -999999999999999),
    (
        32,
        0x1234567890123456789012345678901D,
        -1234567890123456789012345678901,
    ),
    (6, 0x01234D, -1234),
    (6, 0x09876C, 9876),
];

// style, sign in the first digit, three characters, value: signed DISPLAY with the sign LEADING or TRAILING
const ZONED: [(ZonedStyle, bool, char, char, char, i128); 32] = [
    (AsciiStandard, false, '1', '2', '3', 123),
    (AsciiStandard, false, '1', '2', 's', -123),
    (AsciiStandard, false, '1', '2', '0', 120),
    (AsciiStandard, false, '1', '2', 'p', -120),
    (AsciiStandard, false, '0', '0', '7', 7),
    (AsciiStandard, false, '0', '0', 'w', -7),
    (AsciiStandard, false, '0', '0', '0', 0),
    (AsciiStandard, false, '9', '8', 'p', -980),
    (AsciiStandard, true, '1', '2', '3', 123),
    (AsciiStandard, true, 'q', '2', '3', -123),
    (AsciiStandard, true, '1', '2', '0', 120),
    (AsciiStandard, true, 'q', '2', '0', -120),
    (AsciiStandard, true, '0', '0', '7', 7),
    (AsciiStandard, true, 'p', '0', '7', -7),
    (AsciiStandard, true, '0', '0', '0', 0),
    (AsciiStandard, true, 'y', '8', '0', -980),
    (TranslatedEbcdic, false, '1', '2', 'C', 123),
    (TranslatedEbcdic, false, '1', '2', 'L', -123),
    (TranslatedEbcdic, false, '1', '2', '{', 120),
    (TranslatedEbcdic, false, '1', '2', '}', -120),
    (TranslatedEbcdic, false, '0', '0', 'G', 7),
    (TranslatedEbcdic, false, '0', '0', 'P', -7),
    (TranslatedEbcdic, false, '0', '0', '{', 0),
    (TranslatedEbcdic, false, '9', '8', '}', -980),
    (TranslatedEbcdic, true, 'A', '2', '3', 123),
    (TranslatedEbcdic, true, 'J', '2', '3', -123),
    (TranslatedEbcdic, true, 'A', '2', '0', 120),
    (TranslatedEbcdic, true, 'J', '2', '0', -120),
    (TranslatedEbcdic, true, '{', '0', '7', 7),
    (TranslatedEbcdic, true, '}', '0', '7', -7),
    (TranslatedEbcdic, true, '{', '0', '0', 0),
    (TranslatedEbcdic, true, 'R', '8', '0', -980),
];

// digits, and the number that they write without its trailing zeros, by another program
const SIZES: [([u8; 18], u128, u64); 10] = [
    ([0, 0, 0, 0, 0, 0, 0, 0, 0, 0, 0, 0, 0, 0, 0, 0, 0, 0], 0, 0),
    (
        [0, 0, 0, 0, 0, 0, 0, 0, 0, 8, 7, 7, 5, 9, 7, 7, 7, 4],
        877597774,
        0,
    ),
    (
        [0, 0, 0, 0, 0, 0, 0, 0, 0, 6, 3, 2, 0, 1, 9, 0, 9, 9],
        632019099,
        0,
    ),
    (
        [0, 0, 0, 0, 0, 0, 0, 0, 1, 6, 9, 0, 4, 0, 0, 0, 0, 0],
        16904,
        5,
    ),
    (
        [0, 0, 0, 0, 0, 0, 0, 0, 0, 9, 9, 2, 6, 3, 6, 5, 9, 6],
        992636596,
        0,
    ),
    (
        [0, 0, 0, 0, 0, 0, 0, 0, 0, 0, 0, 0, 0, 0, 0, 8, 1, 5],
        815,
        0,
    ),
    (
        [0, 0, 0, 0, 0, 0, 0, 0, 0, 0, 0, 0, 4, 8, 0, 0, 0, 0],
        48,
        4,
    ),
    ([0, 0, 0, 0, 0, 0, 0, 0, 0, 0, 0, 0, 0, 0, 0, 0, 2, 0], 2, 1),
    (
        [0, 0, 0, 0, 0, 0, 0, 0, 0, 0, 0, 0, 6, 8, 4, 8, 7, 7],
        684877,
        0,
    ),
    (
        [0, 0, 0, 5, 0, 3, 5, 3, 2, 7, 2, 3, 7, 4, 0, 0, 0, 0],
        50353272374,
        4,
    ),
];

fn packed(nibbles: u32, rep: PackedRep, strict: bool, kind: Simple) -> PackedForm
    requires some { 1 ≤ nibbles }
    requires few { nibbles ≤ most_nibbles rep }
    requires short { nibbles ≤ 39 }
    ensures form { IsPackedForm result }
    ensures nibbles { result.nibbles ≡ nibbles }
    ensures kind { result.kind ≡ kind }
{
    PackedForm {
        nibbles,
        rep,
        codes: [12, 13, 15, 12],
        strict,
        point: 0,
        kind,
        bytes_by: ByteOrder::Big,
        bits_by: BitOrder::MostFirst,
    }
}

fn zoned(style: ZonedStyle, first: bool, kind: Simple) -> ZonedForm
    ensures form { IsZonedForm result }
    ensures width { result.width ≡ 3 }
{
    ZonedForm {
        style,
        first,
        width: 3,
        point: 0,
        kind,
    }
}

#[test]
fn packed_fields_of_a_compiler(rt: HostRuntime) {
    laws::read_back();
    for (nibbles, field, value) in PACKED {
        assert!(rt; nibbles >= 1);
        assert!(rt; nibbles <= 32);
        let form = packed(u32::from(nibbles), Packed, true, Simple::Integer);
        let bit = 128 - 4 * u64::from(nibbles);
        let bytes = field.to_be_bytes();
        assert_eq!(rt;
            read(&bytes, bit, &form),
            Ok(Value::Int(value)),
            "{field:X}"
        );
        let mut written = [0; 16];
        assert_eq!(rt; write(&Value::Int(value), &form, &mut written, bit), Ok(()));
        assert!(rt; written == bytes, "{field:X}");
    }
}

#[test]
fn zoned_fields_of_a_compiler(rt: HostRuntime) {
    for (style, first, a, b, c, value) in ZONED {
        let field = [a, b, c];
        let form = zoned(style, first, Simple::Integer);
        assert_eq!(rt;
            read_zoned(&field, &form),
            Ok(Value::Int(value)),
            "{field:?}"
        );
        let mut written = ['-'; 80];
        assert_eq!(rt; write_zoned(&Value::Int(value), &form, &mut written), Ok(3));
        assert!(rt; written[..3] == field[..], "{field:?}");
    }
}

#[test]
fn signs_outside_of_the_list_are_refused(rt: HostRuntime) {
    let strict = packed(4, Packed, true, Simple::Short);
    let lax = packed(4, Packed, false, Simple::Short);
    let bad = Err(PackedFault::BadNibble);
    assert_eq!(rt; read(&[0x12, 0x3C], 0, &strict), Ok(Value::Int(123)));
    assert_eq!(rt; read(&[0x12, 0x3D], 0, &strict), Ok(Value::Int(-123)));
    assert_eq!(rt; read(&[0x12, 0x3E], 0, &strict), bad);
    assert_eq!(rt; read(&[0x12, 0x3F], 0, &strict), Ok(Value::Int(123)));
    assert_eq!(rt; read(&[0x12, 0x3C], 0, &lax), Ok(Value::Int(123)));
    assert_eq!(rt; read(&[0x12, 0x3D], 0, &lax), Ok(Value::Int(-123)));
    assert_eq!(rt; read(&[0x12, 0x3E], 0, &lax), Ok(Value::Int(123)));
    assert_eq!(rt; read(&[0x12, 0x3B], 0, &lax), Ok(Value::Int(-123)));
    assert_eq!(rt; read(&[0x12, 0x30], 0, &lax), bad);
    assert_eq!(rt; read(&[0x00, 0x00], 0, &lax), Ok(Value::Int(0)));
    assert_eq!(rt; read(&[0x1A, 0x3C], 0, &lax), bad);
    let byte = packed(4, Packed, false, Simple::Byte);
    assert_eq!(rt; read(&[0x12, 0x8C], 0, &byte), Err(PackedFault::PastType));

    // The compiler's unsigned COMP-3.
    let unsigned = packed(4, Packed, true, Simple::UnsignedShort);
    let mut bytes = [0, 0];
    assert_eq!(rt; write(&Value::Uns(123), &unsigned, &mut bytes, 0), Ok(()));
    assert!(rt; bytes == [0x12, 0x3F]);
    assert_eq!(rt; write(&Value::Uns(0), &unsigned, &mut bytes, 0), Ok(()));
    assert!(rt; bytes == [0x00, 0x0F]);
    assert_eq!(rt;
        write(&Value::Uns(1000), &unsigned, &mut bytes, 0),
        Err(NoFit)
    );

    let mut cents = packed(4, Packed, true, Simple::Decimal);
    cents.point = 2;
    let value = Value::Dec(Fixed::new(-123, 2));
    assert_eq!(rt;
        read(&[0x12, 0x3D], 0, &cents),
        Ok(Value::Dec(Fixed::new(-123, 2)))
    );
    assert_eq!(rt; write(&value, &cents, &mut bytes, 0), Ok(()));
    assert!(rt; bytes == [0x12, 0x3D]);
}

#[test]
fn digits_without_a_sign_nibble(rt: HostRuntime) {
    let bad = Err(PackedFault::BadNibble);
    let bcd = packed(3, Bcd, true, Simple::Short);
    assert_eq!(rt; read(&[0x12, 0x30], 0, &bcd), Ok(Value::Int(123)));
    assert_eq!(rt; read(&[0x1C, 0x30], 0, &bcd), bad);
    let mut bytes = [0xFF, 0xFF];
    assert_eq!(rt; write(&Value::Int(-1), &bcd, &mut bytes, 4), Err(NoFit));
    assert_eq!(rt; write(&Value::Int(47), &bcd, &mut bytes, 4), Ok(()));
    assert!(rt; bytes == [0xF0, 0x47]);

    let ibm = packed(4, Ibm4690, true, Simple::Short);
    assert_eq!(rt; read(&[0xFD, 0x12], 0, &ibm), Ok(Value::Int(-12)));
    assert_eq!(rt; read(&[0xF0, 0x12], 0, &ibm), Ok(Value::Int(12)));
    assert_eq!(rt; read(&[0xFF, 0xFD], 0, &ibm), bad);
    assert_eq!(rt; write(&Value::Int(-12), &ibm, &mut bytes, 0), Ok(()));
    assert!(rt; bytes == [0xFD, 0x12]);
    assert_eq!(rt; write(&Value::Int(7), &ibm, &mut bytes, 0), Ok(()));
    assert!(rt; bytes == [0xFF, 0xF7]);
    assert_eq!(rt; write(&Value::Int(-1234), &ibm, &mut bytes, 0), Err(NoFit));
}

#[test]
fn signs_stand_in_one_digit(rt: HostRuntime) {
    let bad = Err(PackedFault::BadNibble);
    let last = zoned(TranslatedEbcdic, false, Simple::Short);
    assert_eq!(rt; read_zoned(&['J', '2', '3'], &last), bad);
    assert_eq!(rt; read_zoned(&['0', '}'], &last), Ok(Value::Int(0)));
    assert_eq!(rt; read_zoned(&[], &last), bad);
    let first = zoned(AsciiStandard, true, Simple::Byte);
    assert_eq!(rt;
        read_zoned(&['q', '2', '9'], &first),
        Err(PackedFault::PastType)
    );
    assert_eq!(rt; read_zoned(&['1', '2', 's'], &first), bad);

    let mut chars = ['-'; 80];
    assert_eq!(rt; write_zoned(&Value::Int(-12345), &last, &mut chars), Ok(5));
    assert!(rt; chars[..6] == ['1', '2', '3', '4', 'N', '-'][..]);
    let plain = zoned(TranslatedEbcdic, false, Simple::UnsignedShort);
    assert_eq!(rt; write_zoned(&Value::Uns(40), &plain, &mut chars), Ok(3));
    assert!(rt; chars[..3] == ['0', '4', '0'][..]);
    let whole = zoned(AsciiStandard, false, Simple::Decimal);
    assert_eq!(rt;
        write_zoned(&Value::Dec(Fixed::new(15, 1)), &whole, &mut chars),
        Err(NoFit)
    );
}

#[test]
fn digits_in_64_bits_are_those_one_by_one(rt: HostRuntime) {
    for (digits, mantissa, zeros) in SIZES {
        let short = size_of(&digits);
        let long = long_size_of(&digits);
        match (short, long) {
            (Some(short), Some(long)) => {
                assert_eq!(rt; short.mantissa, Some(mantissa));
                assert_eq!(rt; long.mantissa, Some(mantissa));
                assert_eq!(rt; short.zeros, zeros);
                assert_eq!(rt; long.zeros, zeros);
            }
            _ => assert!(rt; false, "{digits:?}"),
        }
    }
}

#[test]
fn sizes_of_fields_are_whole_nibbles(rt: HostRuntime) {
    let form = packed(4, Packed, true, Simple::Integer);
    assert!(rt; form.with_bits(156).is_some());
    assert!(rt; form.with_bits(22).is_none());
    assert!(rt; form.with_bits(0).is_none());
    assert!(rt; form.with_bits(160).is_none());
    // `12345C` as an integer
    let field = packed(6, Packed, false, Simple::Integer);
    assert_eq!(rt; read(&[0x12, 0x34, 0x5C], 0, &field), Ok(Value::Int(12345)));
}
