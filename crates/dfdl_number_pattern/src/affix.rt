// The characters of a prefix or a suffix.
ghost use Rattle.std.specs.Prelude.{◌≡◌, IfOk, IsUtf8, chars};

use dfdl_forms::CharList;
use std::alloc::{AllocError, Global};

fn collected(alloc: Global, text: &str) -> Result<Vec<char>, AllocError>
    ensures { IfOk result (λ characters. characters.items ≡ chars text.now) }
{
    let mut characters = Vec::new(alloc);
    for c in text.chars() {
        characters.push(c)?;
    }
    Ok(characters)
}

/// The characters of a text in UTF-8.
pub(crate) fn characters(alloc: Global, text: &[u8]) -> Result<CharList, AllocError>
    requires { IsUtf8 text.now }
    ensures { IfOk result (λ characters. characters ≡ chars text.now) }
{
    let text = match str::from_utf8(text) {
        Ok(text) => text,
        Err(_) => "",
    };
    Ok(CharList::new(collected(alloc, text)?))
}
