// What a literal of a schema is written as.
ghost use Rattle.std.specs.Prelude.{◌≡◌, ◌+◌, ◌<◌, ◌≤◌, IfOk, length};
ghost use Rattle.dfdl_writings.specs.Literals.{first_literal, literal_bytes, literal_count, piece_bytes, piece_characters};

use crate::encoding::encoded;
use dfdl_forms::{Encoding, Literals, Piece};
use dfdl_value::ByteValue;
use std::alloc::{AllocError, Global};

// The bytes of a piece, if the encoding has its characters.
fn piece_bytes(
    alloc: Global,
    encoding: Encoding,
    new_line: &[char],
    piece: Piece,
) -> Result<Option<ByteValue>, AllocError>
    ensures { IfOk result (λ bytes. bytes ≡ piece_bytes encoding new_line.now piece) }
{
    match piece {
        Piece::Char(c) => encoded(alloc, encoding, &[c]),
        Piece::Byte(byte) => Ok(Some(ByteValue::from_slice(alloc, &[byte])?)),
        Piece::NewLine => encoded(alloc, encoding, new_line),
        Piece::Space | Piece::Spaces => encoded(alloc, encoding, &[' ']),
        Piece::MaybeSpaces | Piece::Nothing => Ok(Some(ByteValue::from_vec(Vec::new(alloc)))),
    }
}

// How many characters a piece has.
fn piece_count(new_line: &[char], piece: Piece) -> usize
    ensures { result ≡ length (piece_characters new_line.now piece) }
{
    match piece {
        Piece::Char(_) | Piece::Byte(_) | Piece::Space | Piece::Spaces => 1,
        Piece::NewLine => new_line.len(),
        Piece::MaybeSpaces | Piece::Nothing => 0,
    }
}

/// The bytes of a literal, if the encoding has its characters.
pub(crate) fn literal_bytes(
    alloc: Global,
    encoding: Encoding,
    new_line: &[char],
    pieces: &[Piece],
) -> Result<Option<ByteValue>, AllocError>
    ensures { IfOk result (λ bytes. bytes ≡ literal_bytes encoding new_line.now pieces.now) }
{
    let mut all = Vec::new(alloc);
    for piece in pieces {
        let Some(bytes) = piece_bytes(alloc, encoding, new_line, *piece)? else {
            return Ok(None);
        };
        all.extend_from_slice(bytes.as_slice())?;
    }
    Ok(Some(ByteValue::from_vec(all)))
}

/// How many characters a literal has.
pub(crate) fn literal_count(new_line: &[char], pieces: &[Piece]) -> Result<usize, AllocError>
    ensures { IfOk result (λ count. count ≡ literal_count new_line.now pieces.now) }
{
    let mut count = 0usize;
    for piece in pieces {
        count = match count.checked_add(piece_count(new_line, *piece)) {
            Some(more) => more,
            None => return Err(AllocError),
        };
    }
    Ok(count)
}

/// The first literal of a list; where there is none, one without pieces.
pub(crate) fn first_literal(literals: &Literals) -> &[Piece]
    ensures { result.now ≡ first_literal literals.now }
{
    if literals.len() == 0 {
        return &[];
    }
    literals.pieces(0)
}
