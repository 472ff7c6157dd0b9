// The keys by which a branch of a choice is taken.
ghost use Rattle.std.specs.Prelude.{◌≡◌, ◌++◌, ◌∷◌, [], map, IfOk, OnOk, codes, encode_utf8_all, option_copied};
ghost use Rattle.dfdl_checks.specs.JudgedShown.{judged_of};
ghost use Rattle.dfdl_checks.specs.Keys as spec;
ghost use Rattle.dfdl_scope.specs.Scoping.{told};
ghost use Rattle.dfdl_scope.specs.Shown.{chain_of};
ghost use Rattle.dfdl_scope.specs.Told.{told_by};

use crate::boolean_texts::is_list_malformed;
use crate::calculations::{is_given, written_told};
use crate::expression_tests::message_of;
use crate::key_list::KeyList;
use crate::kinds::is_choice;
use crate::purpose::Purpose;
use crate::subject::{Kind, Subject};
use dfdl_forms::PlainTexts;
use dfdl_literals::{TextList, text_list};
use dfdl_scope::{Asked, Component, literal, property};
use dfdl_value::TextValue;
use std::alloc::{AllocError, Global};

/// Whether a component of a kind is a choice whose branch is told by a key.
pub fn is_keyed_by(kind: Kind, chain: &Component<'_, '_>) -> bool
    ensures { result ≡ spec.is_keyed_by kind (chain_of chain.now) }
{
    is_choice(kind) && is_given(property(chain, "choiceDispatchKey"))
}

/// What is told as the keys of a branch.
fn keys_told(alloc: Global, told: Asked<'_>) -> Result<TextList, AllocError>
    ensures { IfOk result (λ list. list ≡ spec.keys_told (told_by told.entry)) }
{
    match told {
        Asked::Given(written) => text_list(alloc, literal(written)),
        Asked::Absent => Ok(TextList::Other),
        Asked::Twice { .. } => Ok(TextList::Other),
    }
}

/// A text in UTF-8.
fn text_of(alloc: Global, characters: &[char]) -> Result<TextValue, AllocError>
    ensures { IfOk result (λ text. text ≡ encode_utf8_all characters.now) }
{
    let mut text = String::new(alloc);
    for c in characters {
        text.push(*c)?;
    }
    Ok(TextValue::from_string(text))
}

/// Texts in UTF-8.
fn texts_of(alloc: Global, texts: &PlainTexts) -> Result<KeyList, AllocError>
    ensures { IfOk result (λ keys. keys ≡ map encode_utf8_all texts.now) }
{
    let mut keys = Vec::new(alloc);
    for at in 0..texts.len() {
        keys.push(text_of(alloc, texts.text(at))?)?;
    }
    Ok(KeyList::from_vec(keys))
}

/// The texts of a list, if it is one of texts.
fn texts_in(alloc: Global, list: &TextList) -> Result<KeyList, AllocError>
    ensures { IfOk result (λ keys. keys ≡ spec.texts_in list.now) }
{
    match list {
        TextList::Texts(texts) => texts_of(alloc, texts),
        TextList::Malformed | TextList::Other => Ok(KeyList::from_vec(Vec::new(alloc))),
    }
}

/// The keys of a branch with this chain.
pub fn keys_of_chain(alloc: Global, chain: &Component<'_, '_>) -> Result<KeyList, AllocError>
    ensures { IfOk result (λ keys. keys ≡ spec.keys_of_chain (chain_of chain.now)) }
{
    let list = keys_told(alloc, property(chain, "choiceBranchKey"))?;
    texts_in(alloc, &list)
}

/// The keys of a component, where it is a branch of a choice by a key.
pub fn branch_keys(alloc: Global, subject: &Subject<'_, '_, '_>) -> Result<KeyList, AllocError>
    ensures { IfOk result (λ keys. keys ≡ spec.keys_of (judged_of subject.now)) }
{
    if subject.standing.needs_key {
        keys_of_chain(alloc, subject.chain)
    } else {
        Ok(KeyList::from_vec(Vec::new(alloc)))
    }
}

/// Whether it is a branch of a choice by a key, the text of whose keys is no list of string literals.
pub(crate) fn is_key_malformed(
    alloc: Global,
    subject: &Subject<'_, '_, '_>,
) -> Result<bool, AllocError>
    ensures { IfOk result (λ malformed. malformed ≡ spec.is_key_malformed (judged_of subject.now)) }
{
    if !subject.standing.needs_key {
        return Ok(false);
    }
    let list = keys_told(alloc, property(subject.chain, "choiceBranchKey"))?;
    Ok(is_list_malformed(&list))
}

/// Whether there is none.
fn is_no_key(keys: &KeyList) -> bool
    ensures { result ≡ spec.is_no_key keys.now }
{
    keys.as_slice().is_empty()
}

/// Whether it is a branch of a choice by a key that has none, or one that it or a branch before it has already.
pub(crate) fn is_key_unfit(alloc: Global, subject: &Subject<'_, '_, '_>) -> Result<bool, AllocError>
    ensures { IfOk result (λ unfit. unfit ≡ spec.is_key_unfit (judged_of subject.now)) }
{
    if !subject.standing.needs_key {
        return Ok(false);
    }
    let keys = keys_of_chain(alloc, subject.chain)?;
    Ok(is_no_key(&keys) || subject.standing.repeats_key)
}

/// The expression that tells the key by which the branch of a choice is taken, as it is written; for unparsing there is none.
pub fn key(alloc: Global, subject: &Subject<'_, '_, '_>) -> Result<Option<TextValue>, AllocError>
    ensures { IfOk result (λ key. key ≡ spec.key_expression (judged_of subject.now)) }
{
    message_of(alloc, key_expression(subject))
}

// The same without memory.
fn key_expression<'c>(subject: &Subject<'_, '_, 'c>) -> Option<&'c str>
    ensures { option_copied result ≡ spec.key_expression (judged_of subject.now) }
{
    match subject.purpose {
        Purpose::Parsing => parsed_key(subject),
        Purpose::Unparsing => None,
    }
}

// The same for parsing.
fn parsed_key<'c>(subject: &Subject<'_, '_, 'c>) -> Option<&'c str>
    ensures { option_copied result ≡ spec.key_expression_for Purpose.Parsing (judged_of subject.now) }
{
    if !is_choice(subject.kind) {
        return None;
    }
    written_told(property(subject.chain, "choiceDispatchKey"))
}
