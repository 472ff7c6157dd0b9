// Tests of characters and of short words.
ghost use Rattle.std.specs.Prelude.{◌≡◌, ◌<◌, ◌≤◌, IsTrue, IsSome, OnSome, false, true, IfSome, IsNone, chars};
ghost use Rattle.dfdl_markup.specs.Grammar as grammar;
ghost use Rattle.dfdl_markup.specs.Values as values;
ghost use Rattle.dfdl_markup.specs.Rules as rules;
ghost use Rattle.dfdl_markup.specs.Machine as machine;
ghost use Rattle.dfdl_xml_chars.specs.Characters as characters;

use dfdl_xml_chars::is_allowed;

#[tactic(auto, unfolding(dfdl_markup::specs::Grammar::is_white))]
pub fn is_white(c: char) -> bool
    ensures { result ≡ grammar.is_white c }
{
    c == ' ' || c == '\t' || c == '\n' || c == '\r'
}

#[tactic(auto, unfolding(dfdl_markup::specs::Grammar::is_quote))]
pub fn is_quote(c: char) -> bool
    ensures { result ≡ grammar.is_quote c }
{
    c == '"' || c == '\''
}

#[tactic(auto, unfolding(dfdl_markup::specs::Values::is_digit))]
pub fn is_digit(hexadecimal: bool, c: char) -> bool
    ensures { result ≡ values.is_digit hexadecimal c }
{
    if hexadecimal {
        ('0' <= c && c <= '9') || (('A' <= c && c <= 'F') || ('a' <= c && c <= 'f'))
    } else {
        '0' <= c && c <= '9'
    }
}

/// What a digit is worth.
#[tactic(auto, unfolding(dfdl_markup::specs::Values::is_digit, dfdl_markup::specs::Values::digit_value))]
pub fn digit_value(hexadecimal: bool, c: char) -> u32
    requires { IsTrue (values.is_digit hexadecimal c) }
    ensures value { result ≡ values.digit_value c }
    ensures small { result < 16 }
{
    let code = u32::from(c);
    if code <= 57 {
        code - 48
    } else if code <= 70 {
        code - 55
    } else {
        code - 87
    }
}

/// The letter, a capital as its small letter.
#[tactic(auto, unfolding(dfdl_markup::specs::Rules::small))]
pub fn small(c: char) -> char
    ensures { result ≡ rules.small c }
{
    c.to_ascii_lowercase()
}

#[tactic(auto, unfolding(dfdl_markup::specs::Rules::is_encoding_character))]
pub fn is_encoding_character(c: char) -> bool
    ensures { result ≡ rules.is_encoding_character c }
{
    ('a' <= c && c <= 'z')
        || (('A' <= c && c <= 'Z')
            || (('0' <= c && c <= '9') || (c == '.' || (c == '_' || c == '-'))))
}

/// `xml` in letters of either case.
#[tactic(auto, unfolding(dfdl_markup::specs::Rules::is_xml))]
pub fn is_xml(target: &[char]) -> bool
    ensures { result ≡ rules.is_xml target.now }
{
    let [x, m, l] = target else {
        return false;
    };
    (*x == 'x' || *x == 'X') && ((*m == 'm' || *m == 'M') && (*l == 'l' || *l == 'L'))
}

/// The text begins the word.
pub fn begins(text: &[char], word: &[char]) -> bool
    ensures { result ≡ machine.begins text.now word.now }
{
    word.starts_with(text)
}

/// The text begins the word.
pub fn begins_text(text: &str, word: &str) -> bool
    ensures { result ≡ machine.begins (chars text.now) (chars word.now) }
{
    word.starts_with(text)
}

/// Some entity's name begins so.
#[tactic(auto, unfolding(dfdl_markup::specs::Values::entities))]
pub fn begins_entity(name: &[char]) -> bool
    ensures { result ≡ machine.begins_entity name.now }
{
    begins(name, &['a', 'm', 'p'])
        || (begins(name, &['l', 't'])
            || (begins(name, &['g', 't'])
                || (begins(name, &['q', 'u', 'o', 't']) || begins(name, &['a', 'p', 'o', 's']))))
}

/// The character of the entity of this name, if there is one.
#[tactic(auto, unfolding(dfdl_markup::specs::Values::entities))]
pub fn entity(name: &[char]) -> Option<char>
    ensures { result ≡ values.entity name.now }
{
    if name == ['a', 'm', 'p'].as_slice() {
        Some('&')
    } else if name == ['l', 't'].as_slice() {
        Some('<')
    } else if name == ['g', 't'].as_slice() {
        Some('>')
    } else if name == ['q', 'u', 'o', 't'].as_slice() {
        Some('"')
    } else if name == ['a', 'p', 'o', 's'].as_slice() {
        Some('\'')
    } else {
        None
    }
}

/// The character of this number, if XML allows it.
#[tactic(auto, unfolding(dfdl_xml_chars::specs::Characters::is_allowed, dfdl_xml_chars::specs::Characters::char_rows))]
pub fn allowed(number: u32) -> Option<char>
    ensures value { IfSome result (λ c. c ≡ number) }
    ensures is { IsSome result → characters.is_allowed number ≡ true }
    ensures none { IsNone result → characters.is_allowed number ≡ false }
{
    let c = char::from_u32(number)?;
    if is_allowed(c) { Some(c) } else { None }
}
