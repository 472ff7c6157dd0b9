//! Lists of literals, as delimiters, nil values and truth values are written in a schema.
//!
//! `specs/Lists.antt` says how a list is written and which pieces its literals are made of,
//! `specs/Names.antt` which names there are, and `specs/Faults.antt` where a list is refused:
//! `read_literals` answers by them, and by `specs/Readings.antt`, which has the list that a text is
//! read as. `specs/Pads.antt` says what the text of a pad character stands for, which
//! `pad_character` answers, `specs/Fills.antt` what that of a fill byte does, which `fill_byte`
//! answers, and `specs/TextLists.antt` which texts a list stands for, which `text_list` answers. It
//! serves 'DFDL Syntax Basics', on string literals, entities and character classes.
#![tactic(auto)]

ghost use Rattle.std.specs.Prelude.{◌≡◌, ◌↔◌, ℕ, List, Bool, Some, None, length, false, ◌<◌, IfErr, IfOk};
ghost use Rattle.std.specs.List.{list_all, list_any};
ghost use Rattle.std.specs.Str.{chars};
ghost use Rattle.dfdl_literals.specs.Faults.{IsFaultOf, IsRefusalOf};
ghost use Rattle.dfdl_literals.specs.Lists.{IsList, Reads, closed, is_optional, matches_nothing};
ghost use Rattle.dfdl_literals.specs.Readings.{IsUnreadAt, literals_reading};
ghost use Rattle.dfdl_forms.specs.declared.literals.Piece.{Piece as AnyPiece};
ghost use Rattle.dfdl_literals.specs.Steps.{accepts, start, step};
ghost use Rattle.dfdl_machines.specs.Machines.{run};

mod fill;
mod letters;
mod names;
mod pad;
mod plain;
mod scan;
mod single;
#[cfg(test)]
mod tests;
mod text_lists;

pub use dfdl_forms::{
    CharList, EscapeKind, EscapeScheme, Justify, Literals, PadForm, Piece, PlainTexts, TruthForm,
};
pub use fill::{FillByte, fill_byte};
pub use pad::{PadCharacter, pad_character, pad_texts_stand_for_one};
pub use plain::{PlainFault, plain_texts};
use scan::Scan;
use std::alloc::Global;
pub use text_lists::{TextList, text_list, text_lists_stand_for_one};
use thiserror::Error;

/// What has to be known of what was read last for what follows it.
#[derive(Clone, Copy)]
pub enum Ending {
    Ordinary,
    /// Behind `%%`, where no `;` may stand.
    Doubled,
    /// Behind `%ES;`, whose literal ends here.
    Alone,
}

/// Why a list of literals is refused.
#[derive(Debug, Clone, Copy, PartialEq, Eq, Error)]
pub enum LiteralFault {
    /// No list can go on at the byte `at`, counted from 0.
    #[error("no list of literals can go on at byte {at}")]
    Malformed { at: usize },
    /// A literal can match nothing, where none may.
    #[error("a literal that can match nothing")]
    MatchesNothing,
    #[error("out of memory")]
    OutOfMemory,
}

/// Whether some literal of the list can match nothing.
pub fn can_match_nothing(literals: &Literals) -> bool
    ensures { result ≡ matches_nothing literals.now }
{
    for at in 0..literals.len() {
        if all_optional(literals.pieces(at)) {
            return true;
        }
    }
    false
}

fn all_optional(pieces: &[Piece]) -> bool
    ensures { result ≡ list_all is_optional pieces.now }
{
    pieces.iter().all(|piece| can_be_nothing(*piece))
}

fn can_be_nothing(piece: Piece) -> bool
    ensures { result ≡ is_optional piece }
{
    matches!(piece, Piece::MaybeSpaces | Piece::Nothing)
}

/// Reads a list of literals, which white space divides; `empty_allowed` lets a literal match
/// nothing, and `%ES;` stand.
pub fn read_literals(
    alloc: Global,
    text: &str,
    empty_allowed: bool,
) -> Result<Literals, LiteralFault>
    ensures found { IfOk result (λ l. Reads empty_allowed l (chars text.now)) }
    ensures some { IfOk result (λ l. empty_allowed ≡ false → matches_nothing l ≡ false) }
    ensures refused { IfErr result (λ e. IsFaultOf empty_allowed (chars text.now) e) }
    ensures reading { IfOk result (λ l. literals_reading empty_allowed (chars text.now) ≡ Some l) }
    ensures unread { IfErr result (λ e. IsUnreadAt empty_allowed (chars text.now) e) }
{
    let literals = read_any(alloc, text, empty_allowed)?;
    if !empty_allowed && can_match_nothing(&literals) {
        return Err(LiteralFault::MatchesNothing);
    }
    Ok(literals)
}

/// A text is read as the one list that it writes.
pub fn literals_read_as_one()
    ensures reads { (empty_allowed : Bool) (text : List ℕ) (list : List (List AnyPiece))
        → (literals_reading empty_allowed text ≡ Some list) ↔ Reads empty_allowed list text }
    ensures none { (empty_allowed : Bool) (text : List ℕ)
        → (literals_reading empty_allowed text ≡ None) ↔ (IsList empty_allowed text → ⊥) }
{}

#[tactic(auto, using(crate::proofs::ReadingLaws::unread_at))]
fn read_any(alloc: Global, text: &str, empty_allowed: bool) -> Result<Literals, LiteralFault>
    ensures found { IfOk result (λ l. Reads empty_allowed l (chars text.now)) }
    ensures refused { IfErr result (λ e. IsRefusalOf empty_allowed (chars text.now) e) }
    ensures reading { IfOk result (λ l. literals_reading empty_allowed (chars text.now) ≡ Some l) }
    ensures unread { IfErr result (λ e. IsUnreadAt empty_allowed (chars text.now) e) }
{
    let scan = scanned(alloc, text, empty_allowed)?;
    match scan.finish() {
        Ok(literals) => Ok(literals),
        Err(_) => Err(LiteralFault::OutOfMemory),
    }
}

fn scanned(alloc: Global, text: &str, empty_allowed: bool) -> Result<Scan, LiteralFault>
    ensures found { IfOk result (λ s. Reads empty_allowed
        (closed s.ended s.open_pieces) (chars text.now)) }
    ensures refused { IfErr result (λ e. IsRefusalOf empty_allowed (chars text.now) e) }
{
    let mut scan = Scan::new(alloc);
    let mut at = 0;
    for c in text.chars() {
        match scan.step(alloc, c, empty_allowed) {
            Ok(true) => {}
            Ok(false) => return Err(LiteralFault::Malformed { at }),
            Err(_) => return Err(LiteralFault::OutOfMemory),
        }
        at += c.len_utf8();
    }
    if scan.is_whole() {
        Ok(scan)
    } else {
        Err(LiteralFault::Malformed { at })
    }
}
