// The byte that the text of a fill byte stands for.
#![tactic(auto)]

ghost use Rattle.std.specs.Prelude.{◌≡◌};
ghost use Rattle.std.specs.Str.{chars};
ghost use Rattle.dfdl_forms.specs.declared.literals.Piece.TheVariants.{Char};
ghost use Rattle.dfdl_literals.specs.Fills.{fill_piece, fill_reading};
ghost use Rattle.dfdl_literals.specs.FillSteps.{fill_found};

use crate::Piece;
use crate::single::{Found, found_in_text, has_space};

/// What the text of a fill byte stands for ('DFDL String Literals').
#[derive(Debug, Clone, Copy, PartialEq, Eq)]
pub enum FillByte {
    /// One raw byte, or one character of ASCII: as it is, `%%`, or a character entity by name or
    /// by number.
    Byte(u8),
    /// The text is no string literal and no list of them, or `%ES;` stands in it.
    Malformed,
    /// Literals that are no single byte: none, more than one, more than one character, a character
    /// past ASCII or a class; or a text with white space in it, which divides literals. So a space
    /// as it is stands for none; `%SP;` does.
    Other,
}

fn fill_of_piece(piece: Piece) -> FillByte
    ensures { result ≡ fill_piece piece }
{
    match piece {
        Piece::Byte(byte) => FillByte::Byte(byte),
        Piece::Char(c) => fill_of_character(c),
        _ => FillByte::Other,
    }
}

fn fill_of_character(c: char) -> FillByte
    ensures { result ≡ fill_piece (Char c) }
{
    if c.is_ascii() {
        FillByte::Byte(c as u8)
    } else {
        FillByte::Other
    }
}

fn standing_for(spaced: bool, found: Option<Found>) -> FillByte
    ensures { result ≡ fill_found spaced found }
{
    match found {
        None => FillByte::Malformed,
        Some(Found::One(piece)) if !spaced => fill_of_piece(piece),
        Some(_) => FillByte::Other,
    }
}

/// The byte that the text of a fill byte stands for.
pub fn fill_byte(text: &str) -> FillByte
    ensures { result ≡ fill_reading (chars text.now) }
{
    standing_for(has_space(text), found_in_text(text, false))
}
