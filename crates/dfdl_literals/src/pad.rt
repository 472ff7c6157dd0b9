// The character that the text of a pad character stands for.
#![tactic(auto)]

ghost use Rattle.std.specs.Prelude.{◌≡◌, ℕ, List};
ghost use Rattle.std.specs.List.{list_any};
ghost use Rattle.std.specs.Str.{chars};
ghost use Rattle.dfdl_literals.specs.declared.pad.PadCharacter.{PadCharacter as AnyPad};
ghost use Rattle.dfdl_literals.specs.Pads.{StandsFor};
ghost use Rattle.dfdl_literals.specs.PadSteps.{pad_found, pad_piece, pad_reading};

use crate::Piece;
use crate::single::{Found, found_in_text, has_space};

/// What the text of a pad character stands for ('DFDL String Literals').
#[derive(Debug, Clone, Copy, PartialEq, Eq)]
pub enum PadCharacter {
    /// One character: as it is, `%%`, or a character entity by name or by number.
    Character(char),
    /// The text is no string literal and no list of them.
    Malformed,
    /// Literals that are no single character: none, more than one character, a raw byte, a class
    /// or `%ES;`; or a text with white space in it, which divides literals. So a space as it is
    /// stands for none; `%SP;` does.
    Other,
}

fn pad_of_piece(piece: Piece) -> PadCharacter
    ensures { result ≡ pad_piece piece }
{
    match piece {
        Piece::Char(c) => PadCharacter::Character(c),
        _ => PadCharacter::Other,
    }
}

fn standing_for(spaced: bool, found: Option<Found>) -> PadCharacter
    ensures { result ≡ pad_found spaced found }
{
    match found {
        None => PadCharacter::Malformed,
        Some(Found::One(piece)) if !spaced => pad_of_piece(piece),
        Some(_) => PadCharacter::Other,
    }
}

/// The character that the text of a pad character stands for.
pub fn pad_character(text: &str) -> PadCharacter
    ensures stands_for { StandsFor (chars text.now) result }
    ensures reading { result ≡ pad_reading (chars text.now) }
{
    standing_for(has_space(text), found_in_text(text, true))
}

/// Each text stands for one thing, which `pad_reading` tells.
pub fn pad_texts_stand_for_one()
    ensures stands_for { (text : List ℕ) → StandsFor text (pad_reading text) }
    ensures one { (text : List ℕ) (is : AnyPad) → StandsFor text is → is ≡ pad_reading text }
{}
