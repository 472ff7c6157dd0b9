// Random text numbers: a slow writing and reading, digit by digit, says the same as the calls of dfdl_number_text.
// The numbers are of Python's `random.Random(20261127)`, the texts and what they are of its decimal module: `quantize` by
// the mode, and `format` with the separators added.
ghost use Rattle.dfdl_forms.specs.NumberForms.{IsNumberForm};

use crate::read_tests::{named, said};
use crate::slow_digits::{digit, digit_char};
use crate::test_forms::patterned;
use crate::write_tests::{decimal, text_of};
use Rounding::{Ceiling, Down, Floor, HalfDown, HalfEven, HalfUp, Up};
use dfdl_decimal::shortest;
use dfdl_forms::{NumberForm, Rounding, Simple};
use dfdl_number_text::{MOST_BYTES, read_bytes};
use dfdl_value::{TextValue, Value};
use std::alloc::{AllocError, AllocGlobal, Global};
use std::process::Abort;
use std::test::Fail;

// A pattern, the least number of its integer digits, the least and the greatest of its fraction digits, and the size of
// its groups.
type Shape = (&'static str, u32, u32, u32, u32);

const MONEY: Shape = ("#,##0.00", 1, 2, 2, 3);

const LONG: Shape = ("#,##0.#####", 1, 0, 5, 3);

const PLAIN: Shape = ("#0.0##", 1, 1, 3, 0);

const WHOLE: Shape = ("0000", 4, 0, 0, 0);

const PAIRS: Shape = ("#,#0.0", 1, 1, 1, 2);

// A shape, a mode, digits, and how many of them are fraction digits.
type Number = (Shape, Rounding, i128, u32);

const NUMBERS: [Number; 59] = [
    (MONEY, Ceiling, 706, 4),
    (LONG, HalfEven, 957, 2),
    (PLAIN, Down, 503, 4),
    (WHOLE, Ceiling, 915, 7),
    (PAIRS, Ceiling, -31464, 3),
    (MONEY, Ceiling, -86586, 7),
    (LONG, Floor, 13663, 7),
    (PLAIN, HalfUp, -77729, 8),
    (WHOLE, HalfDown, 46800240, 0),
    (PAIRS, HalfEven, 14204626, 3),
    (MONEY, HalfUp, 78622099, 6),
    (LONG, Down, 30774924, 6),
    (PLAIN, HalfEven, -70720484800, 3),
    (WHOLE, Down, 80906659412, 4),
    (PAIRS, Ceiling, 30887182385, 1),
    (MONEY, Up, 88032202283, 1),
    (LONG, Ceiling, -94391122159521, 0),
    (PLAIN, HalfUp, 40821959811859, 5),
    (WHOLE, Up, 45668077877557, 0),
    (PAIRS, Ceiling, 54000256474524, 7),
    (MONEY, HalfUp, -86619462542310354, 7),
    (LONG, HalfUp, 52722373395754998, 6),
    (PLAIN, Floor, 24383614649280190, 5),
    (WHOLE, Ceiling, 98327551685314598, 0),
    (PAIRS, HalfEven, -307660234571557724, 0),
    (MONEY, HalfDown, 759494883546157830, 4),
    (LONG, Up, 165915655401496350, 4),
    (PLAIN, HalfUp, 268883661425700570, 6),
    (WHOLE, Down, 5971517085981012572, 7),
    (PAIRS, HalfEven, 1292803153304685458, 1),
    (MONEY, Floor, -2535825043063144176, 5),
    (LONG, Floor, 5305716227996910224, 7),
    (PLAIN, Up, 12464743585163026469, 2),
    (WHOLE, HalfEven, 61783854026628519220, 3),
    (PAIRS, HalfEven, 11702395729549142500, 8),
    (MONEY, Ceiling, -43346131590019250451, 4),
    (LONG, HalfUp, -44510501904350266835760, 5),
    (PLAIN, Up, 94366942080536231921918, 5),
    (WHOLE, HalfEven, 75094149482288847191136, 2),
    (PAIRS, HalfUp, 89330272678034479901400, 3),
    (MONEY, HalfDown, 381682512480780262523918549, 0),
    (LONG, Floor, -197309400064295195982331784, 1),
    (PLAIN, Up, 305981929019133444819411110, 4),
    (WHOLE, HalfDown, 298473125619917505254888446, 2),
    (MONEY, HalfEven, 2345, 3),
    (MONEY, HalfDown, -2345, 3),
    (WHOLE, HalfEven, 25, 1),
    (WHOLE, HalfUp, -25, 1),
    (PLAIN, HalfUp, 99995, 4),
    (LONG, HalfEven, 9999999995, 6),
    (LONG, HalfEven, -597468875451500763527680059407, 4),
    (LONG, HalfEven, -797444089278519041611262718760799, 1),
    (LONG, HalfEven, 736736016309365753098492886533399842, 4),
    (LONG, HalfEven, 9223372036854775807, 0),
    (LONG, HalfEven, -18446744073709551616, 0),
    (LONG, HalfEven, 10000000000000000000, 1),
    (LONG, HalfEven, 5, 0),
    (LONG, HalfEven, -188, 2),
    (LONG, HalfEven, 74240, 5),
];

// the text of each number
const TEXTS: [&str; 59] = [
    "0.08",
    "9.57",
    "0.05",
    "0001",
    "-31.4",
    "0.00",
    "0.00136",
    "-0.001",
    "46800240",
    "1,42,04.6",
    "78.62",
    "30.77492",
    "-70720484.8",
    "8090665",
    "30,88,71,82,38.5",
    "8,803,220,228.30",
    "-94,391,122,159,521",
    "408219598.119",
    "45668077877557",
    "5,40,00,25.7",
    "-8,661,946,254.23",
    "52,722,373,395.755",
    "243836146492.801",
    "98327551685314598",
    "-30,76,60,23,45,71,55,77,24.0",
    "75,949,488,354,615.78",
    "16,591,565,540,149.635",
    "268883661425.701",
    "597151708598",
    "12,92,80,31,53,30,46,85,45.8",
    "-25,358,250,430,631.45",
    "530,571,622,799.69102",
    "124647435851630264.69",
    "61783854026628519",
    "11,70,23,95,72,95.5",
    "-4,334,613,159,001,925.04",
    "-445,105,019,043,502,668.3576",
    "943669420805362319.22",
    "750941494822888471911",
    "89,33,02,72,67,80,34,47,99,01.4",
    "381,682,512,480,780,262,523,918,549.00",
    "-19,730,940,006,429,519,598,233,178.4",
    "30598192901913344481941.111",
    "2984731256199175052548884",
    "2.34",
    "-2.34",
    "0002",
    "-0003",
    "10.0",
    "10,000",
    "-59,746,887,545,150,076,352,768,005.9407",
    "-79,744,408,927,851,904,161,126,271,876,079.9",
    "73,673,601,630,936,575,309,849,288,653,339.9842",
    "9,223,372,036,854,775,807",
    "-18,446,744,073,709,551,616",
    "1,000,000,000,000,000,000",
    "5",
    "-1.88",
    "0.7424",
];

// How many digits a number has, and at least so many.
fn count_of(size: u128, least: u32) -> u32 {
    let mut count = least;
    for behind in 0..39u32 {
        if digit(size, behind as usize) != 0 {
            count = count.max(behind.saturating_add(1));
        }
    }
    count
}

// Whether a number whose first digit that was cut off is `cut` goes away from zero; `more` is whether another digit that
// was cut off isn't zero.
fn goes_up(mode: Rounding, negative: bool, odd: bool, cut: u8, more: bool) -> bool {
    let above = cut > 5 || (cut == 5 && more);
    let half = cut == 5 && !more;
    match mode {
        Ceiling => !negative && (cut > 0 || more),
        Floor => negative && (cut > 0 || more),
        Up => cut > 0 || more,
        HalfEven => above || (half && odd),
        HalfDown => above,
        HalfUp => above || half,
        _ => false,
    }
}

// The size of a number with so many fraction digits in place of `scale`.
fn slow_size(mode: Rounding, negative: bool, size: u128, scale: u32, places: u32) -> u128 {
    let mut kept = size;
    let mut cut = 0;
    let mut more = false;
    for _ in 0..scale.saturating_sub(places) {
        more = more || cut > 0;
        cut = digit(kept, 0);
        kept /= 10;
    }
    for _ in 0..places.saturating_sub(scale) {
        kept = kept.saturating_mul(10);
    }
    if goes_up(mode, negative, kept % 2 == 1, cut, more) {
        kept.saturating_add(1)
    } else {
        kept
    }
}

fn push_digit(text: &mut String, size: u128, behind: u32) -> Result<(), AllocError> {
    text.push(char::from(digit_char(size, behind as usize)))
}

// How many fraction digits are written.
fn fraction_of(shape: Shape, size: u128) -> u32 {
    let (_, _, least, greatest, _) = shape;
    let mut count = least;
    for place in least..greatest {
        let behind = greatest.saturating_sub(place).saturating_sub(1);
        if digit(size, behind as usize) != 0 {
            count = place.saturating_add(1);
        }
    }
    count
}

fn slow_integer(text: &mut String, shape: Shape, size: u128) -> Result<(), AllocError> {
    let (_, integer, _, places, group) = shape;
    let count = count_of(size, places.saturating_add(integer));
    for behind in (places..count).rev() {
        push_digit(text, size, behind)?;
        let left = behind.saturating_sub(places);
        if left > 0 && left.checked_rem(group) == Some(0) {
            text.push(',')?;
        }
    }
    Ok(())
}

// The text of a number of this size.
fn slow_text(
    alloc: Global,
    shape: Shape,
    negative: bool,
    size: u128,
) -> Result<String, AllocError> {
    let mut text = String::new(alloc);
    if negative && size > 0 {
        text.push('-')?;
    }
    slow_integer(&mut text, shape, size)?;
    let places = shape.3;
    let fraction = fraction_of(shape, size);
    if fraction > 0 {
        text.push('.')?;
    }
    for place in 0..fraction {
        push_digit(
            &mut text,
            size,
            places.saturating_sub(place).saturating_sub(1),
        )?;
    }
    Ok(text)
}

// Whether a text begins with a sign, its digits as a number, and how many of them are fraction digits.
fn slow_number(text: &[u8]) -> (bool, u128, u32) {
    let mut negative = false;
    let mut size = 0u128;
    let mut point = false;
    let mut places = 0u32;
    for c in text {
        match *c {
            b'-' => negative = true,
            b'.' => point = true,
            b'0'..=b'9' => {
                size = size
                    .saturating_mul(10)
                    .saturating_add(u128::from(c.saturating_sub(48)));
                places = places.saturating_add(u32::from(point));
            }
            _ => (),
        }
    }
    (negative, size, places)
}

fn slow_is<R: Abort + AllocGlobal>(rt: &R, number: Number, text: &str) -> Result<(), Fail> {
    let (shape, mode, digits, scale) = number;
    let negative = digits < 0;
    let size = slow_size(mode, negative, digits.unsigned_abs(), scale, shape.3);
    let written = slow_text(rt.alloc(), shape, negative, size)?;
    assert_eq!(rt; written.as_str(), text);
    let (below, same, places) = slow_number(text.as_bytes());
    let again = slow_size(mode, below, same, places, shape.3);
    assert_eq!(rt; again, size, "{text}");
    assert!(rt; below == (negative && size > 0), "{text}");
    Ok(())
}

#[test]
fn slow_texts_are_those_of_the_vectors(rt: HostRuntime) -> Result<(), Fail> {
    for (at, number) in NUMBERS.iter().enumerate() {
        let text = TEXTS.get(at).ok_or("no text")?;
        slow_is(&rt, *number, text)?;
    }
    Ok(())
}

// ---- the calls

fn of_bytes(alloc: Global, form: &NumberForm, text: &str) -> Result<TextValue, Fail>
    requires { IsNumberForm form.now }
{
    let bytes = text.as_bytes();
    if bytes.len() > MOST_BYTES {
        return Ok(TextValue::from_string(String::new(alloc)));
    }
    named(alloc, read_bytes(form, Simple::Decimal, bytes))
}

fn calls_are<R: Abort + AllocGlobal>(rt: &R, number: Number, text: &str) -> Result<(), Fail> {
    let (shape, mode, digits, scale) = number;
    let form = patterned(rt.alloc(), shape.0, mode)?;
    let negative = digits < 0;
    let size = slow_size(mode, negative, digits.unsigned_abs(), scale, shape.3);
    let slow = slow_text(rt.alloc(), shape, negative, size)?;
    let written = text_of(rt.alloc(), &form, &decimal(digits, scale))?;
    assert_eq!(rt; written.as_str(), slow.as_str());
    let (below, same, places) = slow_number(text.as_bytes());
    let value = Value::Dec(shortest(below, same, places).ok_or("no number")?);
    let plain = value.text(rt.alloc())?;
    let read = said(rt.alloc(), &form, Simple::Decimal, text)?;
    assert_eq!(rt; read.as_str(), plain.as_str());
    assert_eq!(rt; of_bytes(rt.alloc(), &form, text)?.as_str(), plain.as_str());
    Ok(())
}

#[test]
fn calls_are_the_slow_ones(rt: HostRuntime) -> Result<(), Fail> {
    for (at, number) in NUMBERS.iter().enumerate() {
        let text = TEXTS.get(at).ok_or("no text")?;
        calls_are(&rt, *number, text)?;
    }
    Ok(())
}
