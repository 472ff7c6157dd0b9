// The tests of the well-formed sequences of UTF-8, byte by byte.
#![tactic(auto, unfolding(crate::specs::Sequences::is_sequence, crate::specs::Sequences::is_begun, crate::specs::Sequences::code_of))]

ghost use Rattle.std.specs.Prelude.{◌≡◌, ◌↔◌, ◌<◌, ◌≤◌, [], ◌∷◌, IsTrue};
ghost use Rattle.std.specs.Bool.{OnTrue};
ghost use Rattle.dfdl_chars.specs.Sequences.{is_sequence, is_begun, is_within, tail, code_of, IsFront, BeginsPair, IsTail};

fn is_tail(byte: u8) -> bool
    ensures value { result ≡ is_within tail byte }
    ensures fact { IsTrue result ↔ IsTail byte }
{
    byte >= 0x80 && byte <= 0xBF
}

pub(crate) fn is_single(first: u8) -> bool
    ensures { result ≡ is_sequence (first ∷ []) }
{
    first < 0x80
}

pub(crate) fn is_first_of_more(first: u8) -> bool
    ensures { result ≡ is_begun (first ∷ []) }
{
    first >= 0xC2 && first <= 0xF4
}

pub(crate) fn is_pair(first: u8, second: u8) -> bool
    ensures sequence { result ≡ is_sequence (first ∷ second ∷ []) }
    ensures first { OnTrue result (BeginsPair first) }
    ensures second { OnTrue result (IsTail second) }
{
    first >= 0xC2 && first <= 0xDF && is_tail(second)
}

pub(crate) fn is_two_of_more(first: u8, second: u8) -> bool
    ensures begun { result ≡ is_begun (first ∷ second ∷ []) }
    ensures front { OnTrue result (IsFront first second) }
{
    match first {
        0xE0 => second >= 0xA0 && second <= 0xBF,
        0xED => second >= 0x80 && second <= 0x9F,
        0xF0 => second >= 0x90 && second <= 0xBF,
        0xF4 => second >= 0x80 && second <= 0x8F,
        0xE1..=0xEC | 0xEE | 0xEF | 0xF1..=0xF3 => is_tail(second),
        _ => false,
    }
}

pub(crate) fn is_triple(first: u8, second: u8, third: u8) -> bool
    requires { IsFront first second }
    ensures sequence { result ≡ is_sequence (first ∷ second ∷ third ∷ []) }
    ensures first { OnTrue result (first < 0xF0) }
    ensures third { OnTrue result (IsTail third) }
{
    first < 0xF0 && is_tail(third)
}

pub(crate) fn is_three_of_more(first: u8, second: u8, third: u8) -> bool
    requires { IsFront first second }
    ensures begun { result ≡ is_begun (first ∷ second ∷ third ∷ []) }
    ensures first { OnTrue result (0xF0 ≤ first) }
    ensures third { OnTrue result (IsTail third) }
{
    first >= 0xF0 && is_tail(third)
}

pub(crate) fn is_quadruple(first: u8, second: u8, third: u8, fourth: u8) -> bool
    requires front { IsFront first second }
    requires first { 0xF0 ≤ first }
    requires third { IsTail third }
    ensures sequence { result ≡ is_sequence (first ∷ second ∷ third ∷ fourth ∷ []) }
    ensures tail { IsTrue result ↔ IsTail fourth }
{
    is_tail(fourth)
}

pub(crate) fn code_of_one(first: u8) -> char
    ensures { result ≡ code_of (first ∷ []) }
{
    char::from(first)
}

pub(crate) fn code_of_two(first: u8, second: u8) -> char
    requires first { BeginsPair first }
    requires second { IsTail second }
    ensures { result ≡ code_of (first ∷ second ∷ []) }
{
    let code = (u32::from(first) - 0xC0) * 64 + (u32::from(second) - 0x80);
    char::from_u32(code).unwrap()
}

pub(crate) fn code_of_three(first: u8, second: u8, third: u8) -> char
    requires front { IsFront first second }
    requires first { first < 0xF0 }
    requires third { IsTail third }
    ensures { result ≡ code_of (first ∷ second ∷ third ∷ []) }
{
    let front = (u32::from(first) - 0xE0) * 64 + (u32::from(second) - 0x80);
    char::from_u32(front * 64 + (u32::from(third) - 0x80)).unwrap()
}

pub(crate) fn code_of_four(first: u8, second: u8, third: u8, fourth: u8) -> char
    requires front { IsFront first second }
    requires first { 0xF0 ≤ first }
    requires third { IsTail third }
    requires fourth { IsTail fourth }
    ensures { result ≡ code_of (first ∷ second ∷ third ∷ fourth ∷ []) }
{
    let front = (u32::from(first) - 0xF0) * 64 + (u32::from(second) - 0x80);
    let whole = (front * 64 + (u32::from(third) - 0x80)) * 64 + (u32::from(fourth) - 0x80);
    char::from_u32(whole).unwrap()
}
