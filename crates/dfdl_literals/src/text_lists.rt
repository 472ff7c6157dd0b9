// The texts that a list of literals stands for.
#![tactic(auto)]

ghost use Rattle.std.specs.Prelude.{◌≡◌, ℕ, List, IfOk};
ghost use Rattle.std.specs.Str.{chars};
ghost use Rattle.dfdl_literals.specs.declared.text_lists.TextList.{TextList as AnyList};
ghost use Rattle.dfdl_literals.specs.TextLists.{StandsForTexts};
ghost use Rattle.dfdl_literals.specs.TextSteps.{texts_of, texts_reading};

use crate::plain::{PlainFault, plain_texts};
use crate::{LiteralFault, read_any};
use dfdl_forms::{Literals, PlainTexts};
use std::alloc::{AllocError, Global};

/// What a text stands for as a list of texts ('DFDL String Literals').
#[derive(Debug, Drop)]
pub enum TextList {
    /// Literals of characters alone: as they are, `%%`, or character entities by name or by number.
    Texts(PlainTexts),
    /// The text is no list of string literals, or `%ES;` stands in it.
    Malformed,
    /// No literal, or one with a class or a raw byte.
    Other,
}

fn in_texts(alloc: Global, literals: &Literals) -> Result<TextList, AllocError>
    ensures { IfOk result (λ list. list ≡ texts_of literals.now) }
{
    match plain_texts(alloc, literals) {
        Ok(texts) => Ok(TextList::Texts(texts)),
        Err(PlainFault::NotPlain) => Ok(TextList::Other),
        Err(PlainFault::OutOfMemory) => Err(AllocError),
    }
}

/// The texts that a list of literals stands for.
pub fn text_list(alloc: Global, text: &str) -> Result<TextList, AllocError>
    ensures stands_for { IfOk result (λ list. StandsForTexts (chars text.now) list) }
    ensures reading { IfOk result (λ list. list ≡ texts_reading (chars text.now)) }
{
    match read_any(alloc, text, false) {
        Ok(literals) => in_texts(alloc, &literals),
        Err(LiteralFault::Malformed { .. }) => Ok(TextList::Malformed),
        Err(_) => Err(AllocError),
    }
}

/// Each text stands for one thing, which `texts_reading` tells.
pub fn text_lists_stand_for_one()
    ensures stands_for { (text : List ℕ) → StandsForTexts text (texts_reading text) }
    ensures one { (text : List ℕ) (is : AnyList) → StandsForTexts text is → is ≡ texts_reading text }
{}
