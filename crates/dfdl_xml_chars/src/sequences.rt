// What one, two, three and four bytes are in UTF-8.
#![tactic(auto, unfolding(crate::specs::Utf8::see))]

ghost use Rattle.std.specs.Prelude.{◌≡◌, ◌↔◌, ◌++◌, ◌≤◌, ◌<◌, [], ◌∷◌, IsTrue};
ghost use Rattle.dfdl_xml_chars.specs.Utf8.{see, is_tail, is_pair, code_of_two, code_of_three};
ghost use Rattle.dfdl_xml_chars.specs.Utf8.{code_of_four};
ghost use Rattle.dfdl_xml_chars.specs.Shown.{bytes_of, seen_of, IfPart};

use crate::{Begun, Taken};

fn goes_on(byte: u8) -> bool
    ensures { result ≡ is_tail byte }
{
    byte >= 0x80 && byte <= 0xBF
}

fn begins_pair(first: u8, second: u8) -> bool
    ensures { result ≡ is_pair first second }
{
    match first {
        0xE0 => second >= 0xA0 && second <= 0xBF,
        0xED => second >= 0x80 && second <= 0x9F,
        0xF0 => second >= 0x90 && second <= 0xBF,
        0xF4 => second >= 0x80 && second <= 0x8F,
        0xC2..=0xDF | 0xE1..=0xEC | 0xEE | 0xEF | 0xF1..=0xF3 => goes_on(second),
        _ => false,
    }
}

pub(crate) fn first(byte: u8) -> Taken
    ensures seen { seen_of result ≡ see (byte ∷ []) }
    ensures part { IfPart result (λ more. bytes_of more ≡ byte ∷ []) }
{
    if byte < 0x80 {
        Taken::Whole(char::from(byte))
    } else if byte >= 0xC2 && byte <= 0xF4 {
        Taken::Part(Begun::One(byte))
    } else {
        Taken::Bad
    }
}

pub(crate) fn second(first: u8, second: u8) -> Taken
    ensures seen { seen_of result ≡ see (first ∷ second ∷ []) }
    ensures part { IfPart result (λ more. bytes_of more ≡ first ∷ second ∷ []) }
{
    if !begins_pair(first, second) {
        Taken::Bad
    } else if first < 0xE0 {
        Taken::Whole(char_of_two(first, second))
    } else {
        Taken::Part(Begun::Two(first, second))
    }
}

pub(crate) fn third(first: u8, second: u8, third: u8) -> Taken
    ensures seen { seen_of result ≡ see (first ∷ second ∷ third ∷ []) }
    ensures part { IfPart result (λ more. bytes_of more ≡ first ∷ second ∷ third ∷ []) }
{
    if !(first >= 0xE0 && begins_pair(first, second) && goes_on(third)) {
        Taken::Bad
    } else if first < 0xF0 {
        Taken::Whole(char_of_three(first, second, third))
    } else {
        Taken::Part(Begun::Three(first, second, third))
    }
}

pub(crate) fn fourth(first: u8, second: u8, third: u8, fourth: u8) -> Taken
    ensures seen { seen_of result ≡ see (first ∷ second ∷ third ∷ fourth ∷ []) }
    ensures part { IfPart result (λ more. bytes_of more ≡ first ∷ second ∷ third ∷ fourth ∷ []) }
{
    if first >= 0xF0 && begins_pair(first, second) && goes_on(third) && goes_on(fourth) {
        Taken::Whole(char_of_four(first, second, third, fourth))
    } else {
        Taken::Bad
    }
}

fn char_of_two(first: u8, second: u8) -> char
    requires pair { IsTrue (is_pair first second) }
    requires size { first < 0xE0 }
    ensures { result ≡ code_of_two first second }
{
    let code = (u32::from(first) - 0xC0) * 64 + (u32::from(second) - 0x80);
    char::from_u32(code).unwrap()
}

fn char_of_three(first: u8, second: u8, third: u8) -> char
    requires pair { IsTrue (is_pair first second) }
    requires least { 0xE0 ≤ first }
    requires size { first < 0xF0 }
    requires tail { IsTrue (is_tail third) }
    ensures { result ≡ code_of_three first second third }
{
    let front = (u32::from(first) - 0xE0) * 64 + (u32::from(second) - 0x80);
    char::from_u32(front * 64 + (u32::from(third) - 0x80)).unwrap()
}

fn char_of_four(first: u8, second: u8, third: u8, fourth: u8) -> char
    requires pair { IsTrue (is_pair first second) }
    requires least { 0xF0 ≤ first }
    requires third { IsTrue (is_tail third) }
    requires fourth { IsTrue (is_tail fourth) }
    ensures { result ≡ code_of_four first second third fourth }
{
    let front = (u32::from(first) - 0xF0) * 64 + (u32::from(second) - 0x80);
    let code = (front * 64 + (u32::from(third) - 0x80)) * 64 + (u32::from(fourth) - 0x80);
    char::from_u32(code).unwrap()
}
