//! Which bytes the literals of a schema stand for in an encoding.
//!
//! `specs/Texts.antt` says which bytes a literal stands for, and the contracts cite it. It serves 'DFDL Syntax Basics', on
//! string literals, entities and character classes.
#![tactic(auto)]

ghost use Rattle.std.specs.Prelude.{◌≡◌, ◌+◌, length, IfOk};
ghost use Rattle.dfdl_literal_texts.specs.Texts.{is_text_of_some};

mod fronts;
pub mod laws;
mod places;
mod repeated;
#[cfg(test)]
mod tests;

pub use dfdl_forms::{Encoding, Literals, Piece};
use places::is_text_of;
pub use repeated::is_repeated;
use std::alloc::AllocError;

/// Whether the bytes are a text of one of the literals; with `fold` an ASCII letter is its other case too. `places` is memory
/// that is used again: what stands in it before and behind is open.
pub fn is_text_of_any(
    encoding: Encoding,
    fold: bool,
    literals: &Literals,
    bytes: &[u8],
    places: &mut Vec<bool>,
) -> Result<bool, AllocError>
    ensures { IfOk result (λ is. is ≡ is_text_of_some encoding fold literals.now bytes.now) }
{
    places.resize(bytes.len() + 1, false)?;
    Ok(is_text_of_each(encoding, fold, literals, bytes, places))
}

fn is_text_of_each(
    encoding: Encoding,
    fold: bool,
    literals: &Literals,
    bytes: &[u8],
    places: &mut [bool],
) -> bool
    requires { length places.old ≡ length bytes.now + 1 }
    ensures { result ≡ is_text_of_some encoding fold literals.now bytes.now }
{
    for at in 0..literals.len() {
        if is_text_of(encoding, fold, literals.pieces(at), bytes, places) {
            return true;
        }
    }
    false
}
