// Characters that do nothing but lengthen what is being read.
#![tactic(auto, unfolding(crate::specs::Plain::is_plain, crate::specs::Plain::is_of))]

ghost use Rattle.std.specs.Prelude.{◌≡◌, ◌≤◌, ◌++◌, IfOk, chars, length, take, true};
ghost use Rattle.std.specs.List.{list_all};
ghost use Rattle.std.specs.Str.{IsAscii};
ghost use Rattle.dfdl_xml_chars.specs.Characters.{is_in, low_name_rows};
ghost use Rattle.dfdl_doc_tree.specs.Plain.{is_of, is_plain};
ghost use Rattle.dfdl_doc_tree.specs.declared.plain.Class.TheVariants as Class;

use dfdl_xml_chars::is_name_char;
use dfdl_xml_tree::Text;
use std::alloc::AllocError;
use std::str;

/// A kind of piece, by the plain characters that do nothing but lengthen it.
#[derive(Clone, Copy, Debug, PartialEq, Eq, Drop)]
pub enum Class {
    Text,
    /// A CDATA section.
    Section,
    Comment,
    Instruction,
    White,
    /// A value in these quotes.
    Value(char),
    Name,
}

/// How many characters were read at once.
#[derive(Clone, Copy, Debug, PartialEq, Eq, Drop)]
pub enum Passed {
    /// They do nothing to the tree.
    Quiet(usize),
    /// They are text.
    Text(usize),
}

/// An ASCII character that XML allows, and no CR.
fn is_plain(byte: u8) -> bool
    ensures { result ≡ is_plain byte }
{
    byte < 0x80 && (byte >= 0x20 || (byte == b'\t' || byte == b'\n'))
}

/// A character of names that is ASCII.
#[tactic(auto, unfolding(dfdl_xml_chars::specs::Characters::low_name_rows, dfdl_xml_chars::specs::Characters::low_start_rows))]
fn is_low(byte: u8) -> bool
    ensures { result ≡ is_in low_name_rows byte }
{
    matches!(byte, b'-' | b'.' | b'0'..=b'9' | b'A'..=b'Z' | b'_' | b'a'..=b'z')
}

/// A plain character of names.
#[tactic(auto, unfolding(crate::specs::Plain::is_of), using(crate::proofs::NameBytes::name_byte))]
fn is_in_name(byte: u8) -> bool
    ensures { result ≡ is_of Class.Name byte }
{
    is_plain(byte) && is_low(byte)
}

/// A plain character of a value in these quotes.
fn is_in_value(quote: char, byte: u8) -> bool
    ensures { result ≡ is_of (Class.Value quote) byte }
{
    is_plain(byte)
        && (byte >= 0x20 && !(char::from(byte) == quote || (byte == b'<' || byte == b'&')))
}

/// How many bytes at the head are plain characters of names.
fn count_in_name(bytes: &[u8]) -> usize
    ensures within { result ≤ length bytes.now }
    ensures class { list_all (is_of Class.Name) (take result bytes.now) ≡ true }
{
    for (at, byte) in bytes.iter().enumerate() {
        if !is_in_name(*byte) {
            return at;
        }
    }
    bytes.len()
}

/// How many bytes at the head are plain characters of a value in these quotes.
fn count_in_value(quote: char, bytes: &[u8]) -> usize
    ensures within { result ≤ length bytes.now }
    ensures class { list_all (is_of (Class.Value quote)) (take result bytes.now) ≡ true }
{
    for (at, byte) in bytes.iter().enumerate() {
        if !is_in_value(quote, *byte) {
            return at;
        }
    }
    bytes.len()
}

impl Class {
    /// The character is plain and lengthens such a piece.
    fn has(self, byte: u8) -> bool
        ensures { result ≡ is_of self byte }
    {
        is_plain(byte)
            && match self {
                Class::Text => !(byte == b'<' || (byte == b'&' || byte == b']')),
                Class::Section => byte != b']',
                Class::Comment => byte != b'-',
                Class::Instruction => byte != b'?',
                Class::White => byte == b' ' || (byte == b'\t' || byte == b'\n'),
                Class::Value(quote) => {
                    byte >= 0x20 && !(char::from(byte) == quote || (byte == b'<' || byte == b'&'))
                }
                Class::Name => is_name_char(char::from(byte)),
            }
    }

    /// How many bytes at the head are such characters.
    pub fn count(self, bytes: &[u8]) -> usize
        ensures within { result ≤ length bytes.now }
        ensures class { list_all (is_of self) (take result bytes.now) ≡ true }
    {
        match self {
            Class::Name => count_in_name(bytes),
            Class::Value(quote) => count_in_value(quote, bytes),
            _ => self.count_each(bytes),
        }
    }

    /// The same, by a test of the class at each byte.
    fn count_each(self, bytes: &[u8]) -> usize
        ensures within { result ≤ length bytes.now }
        ensures class { list_all (is_of self) (take result bytes.now) ≡ true }
    {
        for (at, byte) in bytes.iter().enumerate() {
            if !self.has(*byte) {
                return at;
            }
        }
        bytes.len()
    }

    /// Appends to a text as many bytes at the head as are such characters, and answers how many.
    #[tactic(auto, using(crate::proofs::AsciiRuns::class_ascii))]
    pub fn lengthen(self, text: &mut Text, bytes: &[u8]) -> Result<usize, AllocError>
        ensures within { IfOk result (λ count. count ≤ length bytes.now) }
        ensures class { IfOk result (λ count. list_all (is_of self) (take count bytes.now) ≡ true) }
        ensures text { IfOk result (λ count. text.new ≡ text.old ++ take count bytes.now) }
    {
        let count = self.count(bytes);
        text.push_str(as_text(&bytes[..count]))?;
        Ok(count)
    }
}

/// ASCII as text.
fn ascii(bytes: &[u8]) -> &str
    requires { IsAscii bytes.now }
    ensures { result.now ≡ bytes.now }
{
    str::from_utf8(bytes).unwrap()
}

/// ASCII as characters.
pub fn as_text(bytes: &[u8]) -> &str
    requires { IsAscii bytes.now }
    ensures { chars result.now ≡ bytes.now }
{
    ascii(bytes)
}
