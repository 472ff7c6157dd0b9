// How text booleans are read.
ghost use Rattle.std.specs.Prelude.{◌≡◌, ◌∷◌, ◌||◌, [], IfOk, codes, Some};
ghost use Rattle.std.specs.List.{list_any};
ghost use Rattle.std.specs.Str.{chars};
ghost use Rattle.dfdl_checks.specs.BooleanTexts as booleans;
ghost use Rattle.dfdl_checks.specs.JudgedShown.{judged_of};
ghost use Rattle.dfdl_checks.specs.Pads.{lacks_character};
ghost use Rattle.dfdl_literals.specs.TextSteps.{texts_reading};
ghost use Rattle.dfdl_scope.specs.Told.{told_by};

use crate::encodings::encoding_told;
use crate::pads::lacks_character;
use crate::representations::is_word;
use crate::subject::Subject;
use dfdl_forms::{Encoding, PlainTexts, TruthForm};
use dfdl_literals::{TextList, text_list};
use dfdl_scope::{Asked, literal, property};
use std::alloc::{AllocError, Global};

/// What the texts that are told stand for; this text where none are told.
fn texts_told(alloc: Global, otherwise: &str, told: Asked<'_>) -> Result<TextList, AllocError>
    requires { texts_reading (chars otherwise.now) ≡ TextList.Texts (otherwise.now ∷ []) }
    ensures { IfOk result (λ list. list ≡ booleans.texts_told otherwise.now (told_by told.entry)) }
{
    match told {
        Asked::Given(written) => text_list(alloc, literal(written)),
        Asked::Absent => text_list(alloc, otherwise),
        Asked::Twice { .. } => Ok(TextList::Other),
    }
}

/// The texts of true at a component.
pub(crate) fn true_texts(
    alloc: Global,
    subject: &Subject<'_, '_, '_>,
) -> Result<TextList, AllocError>
    ensures { IfOk result (λ list. list ≡ booleans.true_texts (judged_of subject.now)) }
{
    texts_told(alloc, "true", property(subject.chain, "textBooleanTrueRep"))
}

/// The texts of false at a component.
pub(crate) fn false_texts(
    alloc: Global,
    subject: &Subject<'_, '_, '_>,
) -> Result<TextList, AllocError>
    ensures { IfOk result (λ list. list ≡ booleans.false_texts (judged_of subject.now)) }
{
    texts_told(
        alloc,
        "false",
        property(subject.chain, "textBooleanFalseRep"),
    )
}

/// Whether the text is no list of string literals.
pub(crate) fn is_list_malformed(list: &TextList) -> bool
    ensures { result ≡ booleans.is_list_malformed list.now }
{
    matches!(list, TextList::Malformed)
}

/// Whether the text is a list of string literals that are no texts, or of none.
pub(crate) fn is_list_other(list: &TextList) -> bool
    ensures { result ≡ booleans.is_list_other list.now }
{
    matches!(list, TextList::Other)
}

/// Whether an encoding lacks a character of a text.
fn lacks_text(encoding: Option<Encoding>, text: &[char]) -> bool
    ensures { result ≡ list_any (λ c. lacks_character encoding (Some c)) text.now }
{
    for c in text {
        if lacks_character(encoding, Some(*c)) {
            return true;
        }
    }
    false
}

/// Whether an encoding lacks a character of some texts.
fn lacks_some(encoding: Option<Encoding>, texts: &PlainTexts) -> bool
    ensures { result ≡ list_any (λ text. list_any (λ c. lacks_character encoding (Some c)) text) texts.now }
{
    for at in 0..texts.len() {
        if lacks_text(encoding, texts.text(at)) {
            return true;
        }
    }
    false
}

/// Whether an encoding lacks a character of the texts of a list.
fn lacks_texts(encoding: Option<Encoding>, list: &TextList) -> bool
    ensures { result ≡ booleans.lacks_texts encoding list.now }
{
    match list {
        TextList::Texts(texts) => lacks_some(encoding, texts),
        TextList::Malformed | TextList::Other => false,
    }
}

/// Whether a text of true or of false has a character that a component's encoding lacks.
pub(crate) fn are_truth_texts_outside(
    alloc: Global,
    subject: &Subject<'_, '_, '_>,
) -> Result<bool, AllocError>
    ensures { IfOk result (λ outside. outside ≡ booleans.are_truth_texts_outside (judged_of subject.now)) }
{
    let encoding = encoding_told(property(subject.chain, "encoding"));
    let truths = true_texts(alloc, subject)?;
    let falses = false_texts(alloc, subject)?;
    Ok(lacks_either(encoding, &truths, &falses))
}

/// Whether an encoding lacks a character of the texts of two lists.
fn lacks_either(encoding: Option<Encoding>, first: &TextList, second: &TextList) -> bool
    ensures { result ≡ (booleans.lacks_texts encoding first.now || booleans.lacks_texts encoding second.now) }
{
    lacks_texts(encoding, first) || lacks_texts(encoding, second)
}

/// A boolean with these texts, if both are told.
fn truth_texts(truths: TextList, falses: TextList, fold: bool) -> Option<TruthForm>
    ensures { result ≡ booleans.truth_texts truths falses fold }
{
    match (truths, falses) {
        (TextList::Texts(truths), TextList::Texts(falses)) => Some(TruthForm {
            truths,
            falses,
            fold,
        }),
        _ => None,
    }
}

/// The form of a component's booleans.
pub(crate) fn truth_form_of(
    alloc: Global,
    subject: &Subject<'_, '_, '_>,
) -> Result<Option<TruthForm>, AllocError>
    ensures { IfOk result (λ form. form ≡ booleans.truth_form_of (judged_of subject.now)) }
{
    let truths = true_texts(alloc, subject)?;
    let falses = false_texts(alloc, subject)?;
    Ok(truth_texts(truths, falses, is_word(subject.chain, "ignoreCase", "yes")))
}
