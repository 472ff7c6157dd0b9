// Random zoned numbers: a slow reading and writing, digit by digit, says the same as the calls of dfdl_packed.
// Numbers, nibbles and characters were made by Python: `random.Random(20261127)`, and
// `str(abs(value)).rjust(..)` with the sign added.
ghost use Rattle.std.specs.Prelude.{◌≡◌};
ghost use Rattle.dfdl_forms.specs.Packed.{IsZonedForm};

use crate::slow_digits::{digit, digit_of, followed};
use ZonedStyle::{AsciiStandard, TranslatedEbcdic};
use dfdl_forms::{Simple, ZonedForm, ZonedStyle};
use dfdl_packed::{read_zoned, write_zoned};
use dfdl_value::Value;
use std::test::Fail;

// style, sign in the first digit, least width, characters, value
const TEXTS: [(ZonedStyle, bool, u32, &str, i128); 18] = [
    (TranslatedEbcdic, true, 1, "B", 2),
    (AsciiStandard, false, 5, "0008r", -82),
    (AsciiStandard, false, 7, "0004916", 4916),
    (AsciiStandard, false, 0, "237455r", -2374552),
    (TranslatedEbcdic, false, 14, "0014010000000{", 140100000000),
    (
        AsciiStandard,
        true,
        16,
        "2545739072558960",
        2545739072558960,
    ),
    (
        AsciiStandard,
        true,
        17,
        "x1102556669743354",
        -81102556669743354,
    ),
    (
        AsciiStandard,
        false,
        18,
        "223985753552349309",
        223985753552349309,
    ),
    (
        AsciiStandard,
        false,
        21,
        "000169465082764200000",
        169465082764200000,
    ),
    (
        AsciiStandard,
        false,
        19,
        "3653863440929225231",
        3653863440929225231,
    ),
    (
        AsciiStandard,
        true,
        22,
        "p002757305634900624372",
        -2757305634900624372,
    ),
    (
        TranslatedEbcdic,
        false,
        20,
        "4931195449100627027B",
        49311954491006270272,
    ),
    (
        TranslatedEbcdic,
        false,
        25,
        "000257415496069050000000}",
        -2574154960690500000000,
    ),
    (
        TranslatedEbcdic,
        true,
        29,
        "N7902809153052731250488070889",
        -57902809153052731250488070889,
    ),
    (
        AsciiStandard,
        true,
        38,
        "00044683380612894555815692549794121325",
        44683380612894555815692549794121325,
    ),
    (
        AsciiStandard,
        false,
        37,
        "669033840411960342986337184074964440u",
        -6690338404119603429863371840749644405,
    ),
    (
        AsciiStandard,
        true,
        38,
        "t0348252915082084921221768059120000000",
        -40348252915082084921221768059120000000,
    ),
    (
        TranslatedEbcdic,
        true,
        38,
        "P3970824533322039679433676203173150315",
        -73970824533322039679433676203173150315,
    ),
];

// The sign and digit of the character that carries the sign.
fn ascii_sign(c: u8) -> Option<(bool, u8)> {
    match c {
        b'p'..=b'y' => Some((true, c - b'p')),
        _ => Some((false, digit_of(c)?)),
    }
}

fn ebcdic_sign(c: u8) -> Option<(bool, u8)> {
    match c {
        b'{' => Some((false, 0)),
        b'}' => Some((true, 0)),
        b'A'..=b'I' => Some((false, c - b'A' + 1)),
        b'J'..=b'R' => Some((true, c - b'J' + 1)),
        _ => Some((false, digit_of(c)?)),
    }
}

fn sign_of(style: ZonedStyle, c: u8) -> Option<(bool, u8)> {
    match style {
        AsciiStandard => ascii_sign(c),
        TranslatedEbcdic => ebcdic_sign(c),
    }
}

fn slow_zoned(style: ZonedStyle, signed: usize, text: &[u8]) -> Option<(bool, u128)> {
    let mut negative = false;
    let mut number = 0;
    for (at, c) in text.iter().enumerate() {
        if at == signed {
            let sign = sign_of(style, *c)?;
            negative = sign.0;
            number = followed(number, sign.1)?;
        } else {
            number = followed(number, digit_of(*c)?)?;
        }
    }
    Some((negative, number))
}

fn slow_zoned_char(style: ZonedStyle, negative: bool, digit: u8) -> u8 {
    match (style, negative) {
        (AsciiStandard, false) => digit.saturating_add(b'0'),
        (AsciiStandard, true) => digit.saturating_add(b'p'),
        (TranslatedEbcdic, false) if digit == 0 => b'{',
        (TranslatedEbcdic, true) if digit == 0 => b'}',
        (TranslatedEbcdic, false) => digit.saturating_add(64),
        (TranslatedEbcdic, true) => digit.saturating_add(73),
    }
}

fn zoned_of(style: ZonedStyle, first: bool, width: u32) -> ZonedForm
    ensures width { result.width ≡ width }
    ensures form { IsZonedForm result }
{
    ZonedForm {
        style,
        first,
        width,
        point: 0,
        kind: Simple::Integer,
    }
}

fn signed_place(first: bool, text: &str) -> usize {
    if first {
        0
    } else {
        text.len().saturating_sub(1)
    }
}

#[test]
fn slow_texts_are_those_of_the_vectors(rt: HostRuntime) {
    for (style, first, _, text, value) in TEXTS {
        let (negative, size) = (value < 0, value.unsigned_abs());
        let chars = text.as_bytes();
        let signed = signed_place(first, text);
        assert!(rt;
            slow_zoned(style, signed, chars) == Some((negative, size)),
            "{text}"
        );
        for (at, c) in chars.iter().enumerate() {
            let digit = digit(size, chars.len().saturating_sub(at).saturating_sub(1));
            let written = if at == signed {
                slow_zoned_char(style, negative, digit)
            } else {
                digit.saturating_add(48)
            };
            assert_eq!(rt; written, *c, "{text}");
        }
    }
}

#[test]
fn texts_are_the_slow_ones(rt: HostRuntime) -> Result<(), Fail> {
    for (style, first, width, text, value) in TEXTS {
        assert!(rt; width <= 80);
        let form = zoned_of(style, first, width);
        let chars: Vec<char> = text.chars().collect(rt.alloc())?;
        assert_eq!(rt; read_zoned(&chars, &form), Ok(Value::Int(value)), "{text}");
        let mut written = ['-'; 80];
        let count = write_zoned(&Value::Int(value), &form, &mut written);
        assert_eq!(rt; count, Ok(text.len()), "{text}");
        assert!(rt; written.get(..chars.len()) == Some(&chars[..]), "{text}");
    }
    Ok(())
}
