// Texts at the front of bytes.
#![tactic(auto)]

ghost use Rattle.std.specs.Prelude.{◌≡◌, ℕ, [], ◌∷◌, ◌≤◌, length, Bool, IfSome, Some, None};
ghost use Rattle.dfdl_chars.specs.Encodings.{encoded_of, encoded_text};
ghost use Rattle.dfdl_literal_texts.specs.Texts.{cases_of, other_case};
ghost use Rattle.dfdl_literal_texts.specs.Places.{at_front, front_of, some_front};

use dfdl_chars::encode;
use dfdl_forms::Encoding;

// The length of a character's bytes, where the bytes begin with them.
pub fn front_length(encoding: Encoding, c: char, bytes: &[u8]) -> Option<usize>
    ensures front { result ≡ front_of (encoded_of encoding c) bytes.now }
    ensures bounds { IfSome result (λ n. (1 ≤ n) × (n ≤ length bytes.now)) }
{
    let mut room = [0; 4];
    let Ok(count) = encode(encoding, c, &mut room) else {
        return None;
    };
    if bytes.starts_with(&room[..count]) {
        Some(count)
    } else {
        None
    }
}

// The length of the bytes of two characters, where the bytes begin with them.
pub fn pair_length(encoding: Encoding, first: char, second: char, bytes: &[u8]) -> Option<usize>
    ensures front { result ≡ front_of (encoded_text encoding (first ∷ second ∷ [])) bytes.now }
    ensures bounds { IfSome result (λ n. n ≤ length bytes.now) }
{
    match front_length(encoding, first, bytes) {
        None => None,
        Some(count) => match front_length(encoding, second, &bytes[count..]) {
            None => None,
            Some(more) => Some(count + more),
        },
    }
}

pub fn byte_length(byte: u8, bytes: &[u8]) -> Option<usize>
    ensures front { result ≡ front_of (Some (byte ∷ [])) bytes.now }
    ensures bounds { IfSome result (λ n. n ≤ length bytes.now) }
{
    if bytes.starts_with(&[byte]) {
        Some(1)
    } else {
        None
    }
}

// An ASCII letter in its other case, and any other character.
pub fn in_other_case(c: char) -> char
    ensures { result ≡ other_case c }
{
    match c {
        'A'..='Z' => c.to_ascii_lowercase(),
        'a'..='z' => c.to_ascii_uppercase(),
        _ => c,
    }
}

// The length of the bytes of a character in one of its cases, where the bytes begin with them.
pub fn case_length(encoding: Encoding, fold: bool, c: char, bytes: &[u8]) -> Option<usize>
    ensures front { (passes : ℕ → Bool) → at_front result passes ≡ some_front encoding (cases_of fold c) bytes.now passes }
    ensures bounds { IfSome result (λ n. (1 ≤ n) × (n ≤ length bytes.now)) }
{
    match front_length(encoding, c, bytes) {
        Some(count) => Some(count),
        None => {
            if !fold {
                return None;
            }
            front_length(encoding, in_other_case(c), bytes)
        }
    }
}
