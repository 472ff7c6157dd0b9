// What is left of a character's bytes.
#![tactic(auto)]

ghost use Rattle.std.specs.Prelude.{◌≡◌, [], ◌∷◌, Some};
ghost use Rattle.dfdl_chars.specs.Encodings.{encoded_of, encoded_text};
ghost use Rattle.dfdl_delims.specs.Candidates.{left_behind, left_of, left_then};

use dfdl_chars::encode;
use dfdl_forms::Encoding;

/// What is left of a character's bytes, or of those of a line break.
#[derive(Debug, Clone, Copy, Drop)]
pub(crate) enum Left {
    Done,
    One(u8),
    Two(u8, u8),
    Three(u8, u8, u8),
}

// These bytes as what is left.
fn left_of(bytes: &[u8]) -> Option<Left>
    ensures { result ≡ left_of bytes.now }
{
    match bytes {
        [] => Some(Left::Done),
        [a] => Some(Left::One(*a)),
        [a, b] => Some(Left::Two(*a, *b)),
        [a, b, c] => Some(Left::Three(*a, *b, *c)),
        [_, _, _, _, ..] => None,
    }
}

// What is left of a text behind its first byte, if it begins with this one.
fn left_behind(text: &[u8], byte: u8) -> Option<Left>
    ensures { result ≡ left_behind (Some text.now) byte }
{
    let [first, rest @ ..] = text else {
        return None;
    };
    if *first != byte {
        return None;
    }
    left_of(rest)
}

/// What is left of a character behind its first byte, if it begins with this one.
pub(crate) fn behind(encoding: Encoding, c: char, byte: u8) -> Option<Left>
    ensures { result ≡ left_behind (encoded_of encoding c) byte }
{
    let mut room = [0; 4];
    let Ok(count) = encode(encoding, c, &mut room) else {
        return None;
    };
    left_behind(&room[..count], byte)
}

/// What is left of a carriage return and a line feed behind their first byte, if they begin with this one.
pub(crate) fn behind_pair(encoding: Encoding, byte: u8) -> Option<Left>
    ensures { result ≡ left_behind (encoded_text encoding (0xD ∷ 0xA ∷ [])) byte }
{
    match encoding {
        Encoding::Utf8 | Encoding::UsAscii | Encoding::Iso88591 => left_behind(&[0xD, 0xA], byte),
        Encoding::Utf16Be => left_behind(&[0, 0xD, 0, 0xA], byte),
        Encoding::Utf16Le => left_behind(&[0xD, 0, 0xA, 0], byte),
    }
}

/// What is left behind one byte more.
pub(crate) fn left_then(left: Left, byte: u8) -> Option<Left>
    ensures { result ≡ left_then left byte }
{
    match left {
        Left::One(a) if a == byte => Some(Left::Done),
        Left::Two(a, b) if a == byte => Some(Left::One(b)),
        Left::Three(a, b, c) if a == byte => Some(Left::Two(b, c)),
        _ => None,
    }
}
