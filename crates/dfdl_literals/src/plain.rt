// Lists of literals that hold characters alone.
ghost use Rattle.std.specs.Prelude.{◌≡◌, ◌<◌, [], length, map, false, IfSome, IsNone, ◌⊎◌, IfOk, IsErrOf};
ghost use Rattle.std.specs.List.{list_all};
ghost use Rattle.dfdl_forms.specs.declared.literals.Piece.TheVariants.{Char};
ghost use Rattle.dfdl_literals.specs.Lists.{is_character};

use dfdl_forms::{Literals, Piece, PlainTexts};
use std::alloc::{AllocError, Global};
use thiserror::Error;

/// Why literals are no texts that stand for themselves.
#[derive(Debug, Clone, Copy, PartialEq, Eq, Error)]
pub enum PlainFault {
    /// A literal has a class or a raw byte, or there is no literal.
    #[error("literals that aren't characters alone")]
    NotPlain,
    #[error("out of memory")]
    OutOfMemory,
}

// The characters of the pieces, if they are characters alone.
fn characters(alloc: Global, pieces: &[Piece]) -> Result<Option<Vec<char>>, AllocError>
    ensures some { IfOk result (λ text. IfSome text (λ t. map Char t.items ≡ pieces.now)) }
    ensures none { IfOk result (λ text. IsNone text → list_all is_character pieces.now ≡ false) }
{
    let mut text = Vec::new(alloc);
    for piece in pieces {
        let Piece::Char(c) = piece else {
            return Ok(None);
        };
        text.push(*c)?;
    }
    Ok(Some(text))
}

/// The texts of a list of literals that hold characters and character entities alone.
pub fn plain_texts(alloc: Global, literals: &Literals) -> Result<PlainTexts, PlainFault>
    ensures texts { IfOk result (λ texts. map (map Char) texts ≡ literals.now) }
    ensures some { IfOk result (λ texts. 0 < length texts) }
    ensures not_plain { IsErrOf result PlainFault.NotPlain
        → (literals.now ≡ []) ⊎ (list_all (list_all is_character) literals.now ≡ false) }
{
    let mut texts = Vec::new(alloc);
    for at in 0..literals.len() {
        match characters(alloc, literals.pieces(at)) {
            Ok(Some(text)) => {
                if texts.push(text).is_err() {
                    return Err(PlainFault::OutOfMemory);
                }
            }
            Ok(None) => return Err(PlainFault::NotPlain),
            Err(_) => return Err(PlainFault::OutOfMemory),
        }
    }
    PlainTexts::new(texts).ok_or(PlainFault::NotPlain)
}
