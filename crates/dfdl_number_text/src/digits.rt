// The digits of numbers in a base.
ghost use Rattle.std.specs.Prelude.{◌≡◌, ℕ, max, ◌+◌, ◌-◌, ◌*◌, ◌/◌, ◌%◌, ◌^◌, ◌==◌, ◌&&◌, ◌<◌, ◌≤◌, not, nat_lt, [], ◌∷◌, map, length, if◌then◌else◌};
ghost use Rattle.dfdl_number_text.specs.Digits.{digits_at, digit_count, digit_character};
ghost use Rattle.dfdl_number_text.specs.Writing.{fraction_digits, grouped};
ghost use Rattle.dfdl_number_text.specs.Written.{HasDigits, IsPut, digit_text, IsInGroup, separator_if, separators_between};

use crate::division::last_digit;

/// The last digits of a number in a base.
#[derive(Clone, Copy)]
pub struct Digits {
    pub base: u8,
    pub count: u16,
    pub number: u128,
}

/// Digits stand in groups of so many, with a separator between them; 0 is for digits without groups.
#[derive(Clone, Copy)]
pub struct Groups {
    pub separator: char,
    pub size: u16,
}

/// The digits of a number in a base, at least so many.
pub fn digits_of(base: u8, least: u16, number: u128) -> Digits
    requires { 1 < base }
    ensures base { result.base ≡ base }
    ensures number { result.number ≡ number }
    ensures count { (most : ℕ) → number < base ^ most → result.count ≡ max least (digit_count base most number) }
{
    let count = least.max(digit_count(base, number));
    Digits {
        base,
        count,
        number,
    }
}

// How many digits a number has in a base; 0 has none.
fn digit_count(base: u8, number: u128) -> u16
    requires { 1 < base }
    ensures digits { HasDigits base number result }
    ensures few { result ≤ 128 }
{
    if base == 10 && number < 1_000_000_000_000_000_000 {
        return decimal_count(number as u64);
    }
    let mut rest = number;
    let mut count = 0;
    while rest > 0 {
        rest = last_digit(rest, base).front;
        count += 1;
    }
    count
}

// The same in base 10, by the powers of ten that a number reaches.
fn decimal_count(number: u64) -> u16
    requires { number < 10 ^ 18 }
    ensures digits { HasDigits 10 number result }
    ensures few { result ≤ 128 }
{
    let mut power: u64 = 1;
    let mut count = 0;
    while power <= number {
        power *= 10;
        count += 1;
    }
    count
}

/// Leaves the zeros at the end of fraction digits away down to the least number of digits.
pub fn without_zeros(least: u16, places: u16, fraction: u128) -> Digits
    requires { least ≤ places }
    ensures base { result.base ≡ 10 }
    ensures few { result.count ≤ places }
    ensures digits { fraction_digits least places fraction ≡ map digit_character (digits_at 10 result.count result.number) }
{
    let mut count = places;
    let mut number = fraction;
    while count > least {
        let last = last_digit(number, 10);
        if last.digit != 0 {
            break;
        }
        number = last.front;
        count -= 1;
    }
    Digits {
        base: 10,
        count,
        number,
    }
}

/// Puts digits into the text from a place on, and answers the place behind them.
pub fn put_digits(into: &mut [char], at: usize, digits: Digits, groups: Groups) -> usize
    requires base { 1 < digits.base }
    requires most { digits.base ≤ 36 }
    requires room { at + length (digit_text groups digits.base digits.count digits.number) ≤ length into.old }
    ensures place { result ≡ at + length (digit_text groups digits.base digits.count digits.number) }
    ensures put { IsPut into.old at (digit_text groups digits.base digits.count digits.number) into.new }
{
    let end = at + usize::from(digits.count) + separator_count(digits.count, groups.size);
    put_in_front(into, end, digits, groups);
    end
}

/// Puts digits without groups.
pub fn put_plain(into: &mut [char], at: usize, digits: Digits) -> usize
    requires base { 1 < digits.base }
    requires most { digits.base ≤ 36 }
    requires room { at + digits.count ≤ length into.old }
    ensures place { result ≡ at + digits.count }
    ensures put { IsPut into.old at (map digit_character (digits_at digits.base digits.count digits.number)) into.new }
{
    let groups = Groups {
        separator: ',',
        size: 0,
    };
    put_digits(into, at, digits, groups)
}

// How many separators stand between so many digits in groups.
fn separator_count(count: u16, size: u16) -> usize
    ensures { result ≡ separators_between count size }
{
    if size == 0 {
        0
    } else {
        usize::from(count.saturating_sub(1) / size)
    }
}

// Puts digits in front of a place, the last one first.
fn put_in_front(into: &mut [char], end: usize, digits: Digits, groups: Groups)
    requires base { 1 < digits.base }
    requires most { digits.base ≤ 36 }
    requires room { length (digit_text groups digits.base digits.count digits.number) ≤ end }
    requires inside { end ≤ length into.old }
    ensures { IsPut into.old (end - length (digit_text groups digits.base digits.count digits.number))
        (digit_text groups digits.base digits.count digits.number) into.new }
{
    let mut place = end;
    let mut rest = digits.number;
    let mut in_group = 0;
    for behind in 0..digits.count {
        let last = last_digit(rest, digits.base);
        let ends = ends_group(groups.size, in_group);
        place = put_digit(into, place, last.digit, ends, groups.separator);
        rest = last.front;
        in_group = more_in_group(in_group, ends);
    }
}

// Puts a digit in front of a place, and before that a separator where a group ends.
fn put_digit(into: &mut [char], end: usize, digit: u8, ends: bool, separator: char) -> usize
    requires digit { digit < 36 }
    requires room { length (digit_character digit ∷ separator_if ends separator) ≤ end }
    requires inside { end ≤ length into.old }
    ensures place { result + length (digit_character digit ∷ separator_if ends separator) ≡ end }
    ensures put { IsPut into.old result (digit_character digit ∷ separator_if ends separator) into.new }
{
    if ends {
        into[end - 1] = separator;
        into[end - 2] = digit_character(digit);
        end - 2
    } else {
        into[end - 1] = digit_character(digit);
        end - 1
    }
}

// Whether a group ends in front of so many digits that stand behind the last separator.
#[tactic(auto, using(crate::proofs::Grouping::ends_is))]
fn ends_group(size: u16, in_group: u16) -> bool
    ensures value { result ≡ (not (in_group == 0) && (in_group == size)) }
    ensures group { (behind : ℕ) → IsInGroup size behind in_group
        → result ≡ (not (size == 0) && (nat_lt 0 behind && (behind % size == 0))) }
{
    in_group != 0 && in_group == size
}

// How many digits stand behind the last separator with one more digit, which it may stand before.
fn more_in_group(in_group: u16, ends: bool) -> u16
    requires { in_group < 65535 }
    ensures { result ≡ (if ends then 1 else in_group + 1) }
{
    if ends { 1 } else { in_group + 1 }
}

fn digit_character(digit: u8) -> char
    requires { digit < 36 }
    ensures { result ≡ digit_character digit }
{
    char::from(if digit < 10 { 48 + digit } else { 55 + digit })
}
