// The words that a program is given.
ghost use Rattle.std.specs.Prelude.{◌≡◌, [], string_bytes, IsUtf8, OnOk, OnErr};

use std::alloc::{AllocError, Global};
use std::env::{Env, FillError};

// How many bytes of a word are made room for at first.
const FIRST_ROOM: usize = 256;

/// The words behind the program's name. A word that isn't UTF-8 stands as an empty word, so no
/// command goes on there.
pub fn words_of<R: Env>(alloc: Global, runtime: &R) -> Result<Vec<String>, AllocError> {
    let mut words = Vec::new(alloc);
    for place in 1..usize::MAX {
        match word_at(alloc, runtime, place)? {
            Some(word) => words.push(word)?,
            None => break,
        }
    }
    Ok(words)
}

// The word at this place, where 0 is the program's name. Room is doubled as long as the word
// doesn't fit.
fn word_at<R: Env>(alloc: Global, runtime: &R, place: usize) -> Result<Option<String>, AllocError> {
    let mut room = FIRST_ROOM;
    for _ in 0..usize::BITS {
        let mut bytes = Vec::new(alloc);
        bytes.resize(room, 0u8)?;
        match runtime.arg(place, &mut bytes) {
            Ok(count) => {
                bytes.truncate(count);
                return Ok(Some(word_of(alloc, bytes)));
            }
            Err(FillError::NotPresent) => return Ok(None),
            Err(FillError::TooLong) => room = room.saturating_mul(2),
        }
    }
    Err(AllocError)
}

// The word of these bytes; bytes that aren't UTF-8 are an empty word.
fn word_of(alloc: Global, bytes: Vec<u8>) -> String
    ensures text { IsUtf8 bytes.items → string_bytes result ≡ bytes.items }
    ensures none { (IsUtf8 bytes.items → ⊥) → string_bytes result ≡ [] }
{
    match String::from_utf8(bytes) {
        Ok(word) => word,
        Err(_) => String::new(alloc),
    }
}
