// Bytes that are one character over and over.
ghost use Rattle.std.specs.Prelude.{◌≡◌, ◌≤◌, length, drop};
ghost use Rattle.dfdl_literal_texts.specs.Texts.{after_any, cases_of, is_none, is_repeated};

use crate::fronts::case_length;
use dfdl_forms::Encoding;

/// Whether the bytes are one or more of a character; with `fold` an ASCII letter is its other case too.
pub fn is_repeated(encoding: Encoding, fold: bool, c: char, bytes: &[u8]) -> bool
    ensures { result ≡ is_repeated encoding fold c bytes.now }
{
    match case_length(encoding, fold, c, bytes) {
        Some(count) => goes_on(encoding, fold, c, bytes, count),
        None => false,
    }
}

// Whether the bytes from a place on are any number of the character.
fn goes_on(encoding: Encoding, fold: bool, c: char, bytes: &[u8], from: usize) -> bool
    requires { from ≤ length bytes.now }
    ensures { result ≡ after_any encoding (cases_of fold c) is_none (drop from bytes.now) }
{
    let mut at = from;
    while at < bytes.len() {
        match case_length(encoding, fold, c, &bytes[at..]) {
            Some(count) => at += count,
            None => return false,
        }
    }
    true
}
