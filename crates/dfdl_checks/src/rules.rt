// The rules that a component has to keep.
ghost use Rattle.std.specs.Prelude.{◌≡◌, IfOk, Ok, Some, drop};
ghost use Rattle.dfdl_checks.specs.BuiltTypes as types;
ghost use Rattle.dfdl_checks.specs.JudgedShown.{judged_of};
ghost use Rattle.dfdl_checks.specs.Rules as spec;

use crate::booleans::{falsity_told, truth_told};
use crate::calculations::is_calculation_not_allowed;
use crate::defaults::is_default_not_allowed;
use crate::delimiters::is_delimiter_empty;
use crate::fill_bytes::is_fill_other;
use crate::flaw::Flaw;
use crate::flaws::has_flaw;
use crate::keys::is_key_unfit;
use crate::kinds::{is_bare, is_choice, is_element, is_simple};
use crate::length_rules::{
    is_length_in_characters, is_length_kind_not_allowed, is_length_out_of_range,
    is_max_length_missing, is_prefix_not_whole, is_prefix_type_missing, is_prefix_type_not_allowed,
};
use crate::new_lines::{is_new_line_expression, is_new_line_other};
use crate::nil_values::is_nil_not_allowed;
use crate::occurring::{are_bounds_unfit, is_once};
use crate::orders::{bit_order, is_least_first, is_same_order};
use crate::packed::codes_told;
use crate::prefixes::prefix_subject;
use crate::purpose::Purpose;
use crate::representations::{is_binary_boolean, is_binary_number, is_packed, is_text, is_word};
use crate::standings::{is_initiator_missing, is_unbounded_not_allowed};
use crate::subject::{Breach, Kind, Subject};
use crate::tests::{
    are_tests_other, are_tests_together, has_later_statements, is_test_text_missing,
};
use crate::text_rules::{
    are_separators_unfit, are_truth_texts_other, is_base_unfit, is_character_not_encoded,
    is_literal_malformed, is_pad_no_character, is_pattern_malformed, is_separator_other,
};
use dfdl_forms::Simple;
use dfdl_report::SchemaCause;
use dfdl_scope::{first_repeated, property};
use std::alloc::{AllocError, Global};

/// The first rule that a component breaks, by the numbers of their causes, if it breaks one; else the first that the
/// type of its length prefix breaks.
pub fn breach(alloc: Global, subject: &Subject<'_, '_, '_>) -> Result<Option<Breach>, AllocError>
    ensures { IfOk result (λ breach. breach ≡ spec.breach_of_component (judged_of subject.now)) }
{
    if let Some(breach) = own_breach(alloc, subject)? {
        return Ok(Some(breach));
    }
    prefix_breach(alloc, subject)
}

/// The first rule that the type of a component's prefix breaks.
fn prefix_breach(alloc: Global, subject: &Subject<'_, '_, '_>) -> Result<Option<Breach>, AllocError>
    ensures { IfOk result (λ breach. breach ≡ spec.prefix_breach (judged_of subject.now)) }
{
    match prefix_subject(subject) {
        Some(prefix) => own_breach(alloc, &prefix),
        None => Ok(None),
    }
}

/// The first rule that a component itself breaks.
#[tactic(auto, unfolding(crate::specs::Rules::rules))]
fn own_breach(alloc: Global, subject: &Subject<'_, '_, '_>) -> Result<Option<Breach>, AllocError>
    ensures { IfOk result (λ breach. breach ≡ spec.first_breach spec.rules (judged_of subject.now)) }
{
    if is_unbuilt(subject) {
        return told_here(SchemaCause::OutsideSubset, subject);
    }
    if let Some(place) = first_repeated(subject.chain) {
        return Ok(Some(Breach {
            cause: SchemaCause::PropertyTwice,
            place,
        }));
    }
    if has_flaw(Flaw::Missing, subject) || is_test_text_missing(subject) {
        return told_here(SchemaCause::PropertyMissing, subject);
    }
    if is_value_not_carried(alloc, subject)? {
        return told_here(SchemaCause::PropertyNotCarried, subject);
    }
    if is_expression_not_allowed(alloc, subject)? {
        return told_here(SchemaCause::ExpressionNotAllowed, subject);
    }
    if is_literal_malformed(alloc, subject)? {
        return told_here(SchemaCause::LiteralMalformed, subject);
    }
    if is_delimiter_empty(alloc, subject)? {
        return told_here(SchemaCause::EmptyDelimiter, subject);
    }
    if is_type_not_carried(subject.kind) {
        return told_here(SchemaCause::TypeNotCarried, subject);
    }
    length_breach(alloc, subject)
}

/// The first rule on lengths, or of a greater number, that a component breaks.
#[tactic(auto, unfolding(crate::specs::Rules::rules))]
fn length_breach(alloc: Global, subject: &Subject<'_, '_, '_>) -> Result<Option<Breach>, AllocError>
    ensures { IfOk result (λ breach. breach ≡ spec.first_breach (drop 8 spec.rules) (judged_of subject.now)) }
{
    if is_max_length_missing(subject) {
        return told_here(SchemaCause::MaxLengthMissing, subject);
    }
    if is_length_kind_not_allowed(subject) {
        return told_here(SchemaCause::LengthKind, subject);
    }
    if is_length_in_characters(subject) {
        return told_here(SchemaCause::LengthUnits, subject);
    }
    if is_length_out_of_range(subject) {
        return told_here(SchemaCause::ConstantLength, subject);
    }
    if is_prefix_type_not_allowed(subject) {
        return told_here(SchemaCause::PrefixType, subject);
    }
    if is_prefix_not_whole(alloc, subject)? {
        return told_here(SchemaCause::PrefixLength, subject);
    }
    if subject.pattern_is_refused {
        return told_here(SchemaCause::PatternRefused, subject);
    }
    content_breach(alloc, subject)
}

/// The first rule behind those on lengths that a component breaks.
#[tactic(auto, unfolding(crate::specs::Rules::rules))]
fn content_breach(
    alloc: Global,
    subject: &Subject<'_, '_, '_>,
) -> Result<Option<Breach>, AllocError>
    ensures { IfOk result (λ breach. breach ≡ spec.first_breach (drop 15 spec.rules) (judged_of subject.now)) }
{
    if are_orders_apart(subject) {
        return told_here(SchemaCause::OrdersApart, subject);
    }
    if is_second_bit_order(subject) {
        return told_here(SchemaCause::SecondBitOrder, subject);
    }
    if is_character_not_encoded(alloc, subject)? {
        return told_here(SchemaCause::EncodingNotAllowed, subject);
    }
    if is_alignment_not_allowed(subject) {
        return told_here(SchemaCause::Alignment, subject);
    }
    if is_pattern_malformed(alloc, subject)? {
        return told_here(SchemaCause::NumberPattern, subject);
    }
    if are_codes_malformed(subject) {
        return told_here(SchemaCause::SignCodes, subject);
    }
    if are_truths_malformed(alloc, subject)? {
        return told_here(SchemaCause::BooleanRepresentations, subject);
    }
    if is_pad_no_character(subject) {
        return told_here(SchemaCause::PadCharacter, subject);
    }
    representation_breach(alloc, subject)
}

/// The first rule on nil, on defaults and on bounds of occurrences, or of a greater number, that a component breaks.
#[tactic(auto, unfolding(crate::specs::Rules::rules))]
fn representation_breach(
    alloc: Global,
    subject: &Subject<'_, '_, '_>,
) -> Result<Option<Breach>, AllocError>
    ensures { IfOk result (λ breach. breach ≡ spec.first_breach (drop 23 spec.rules) (judged_of subject.now)) }
{
    if is_nil_not_allowed(alloc, subject)? {
        return told_here(SchemaCause::NilNotAllowed, subject);
    }
    if is_default_not_allowed(alloc, subject)? {
        return told_here(SchemaCause::DefaultNotAValue, subject);
    }
    if is_unbounded_not_allowed(subject) {
        return told_here(SchemaCause::UnboundedElement, subject);
    }
    if are_bounds_unfit(subject) {
        return told_here(SchemaCause::OccurrenceBounds, subject);
    }
    statement_breach(alloc, subject)
}

/// The first rule on tests, on keys of branches, on initiated contents, on calculated values and on escape schemes that a component breaks.
#[tactic(auto, unfolding(crate::specs::Rules::rules))]
fn statement_breach(
    alloc: Global,
    subject: &Subject<'_, '_, '_>,
) -> Result<Option<Breach>, AllocError>
    ensures { IfOk result (λ breach. breach ≡ spec.first_breach (drop 27 spec.rules) (judged_of subject.now)) }
{
    if are_tests_together(subject) {
        return told_here(SchemaCause::TestsTogether, subject);
    }
    if is_key_unfit(alloc, subject)? {
        return told_here(SchemaCause::BranchKey, subject);
    }
    if is_initiator_missing(subject) {
        return told_here(SchemaCause::NoInitiator, subject);
    }
    if is_calculation_not_allowed(subject) {
        return told_here(SchemaCause::CalculationNotAllowed, subject);
    }
    if is_scheme_malformed(subject) {
        return told_here(SchemaCause::EscapeScheme, subject);
    }
    Ok(None)
}

/// A breach that is told at the component itself.
fn told_here(
    cause: SchemaCause,
    subject: &Subject<'_, '_, '_>,
) -> Result<Option<Breach>, AllocError>
    ensures { result ≡ Ok (Some (spec.breach_of cause subject.now.place)) }
{
    Ok(Some(Breach {
        cause,
        place: subject.place,
    }))
}

/// Whether the component, or a value of a property that applies to it, is built later.
fn is_unbuilt(subject: &Subject<'_, '_, '_>) -> bool
    ensures { result ≡ spec.is_unbuilt (judged_of subject.now) }
{
    is_later_component(subject) || has_flaw(Flaw::Unbuilt, subject)
}

/// Whether the component is of a kind that is built later.
fn is_later_component(subject: &Subject<'_, '_, '_>) -> bool
    ensures { result ≡ spec.is_later_component (judged_of subject.now) }
{
    let kind = subject.kind;
    is_later_group(subject.purpose, kind)
        || has_later_type(subject.purpose, kind)
        || has_later_statements(subject)
        || (is_element(kind) && is_later_element(subject))
}

/// For unparsing, whether it is a choice.
fn is_later_group(purpose: Purpose, kind: Kind) -> bool
    ensures { result ≡ spec.is_later_group purpose kind }
{
    match purpose {
        Purpose::Parsing => false,
        Purpose::Unparsing => is_choice(kind),
    }
}

/// Whether it is an element of a simple type, or the type of a prefix, that is built later.
fn has_later_type(purpose: Purpose, kind: Kind) -> bool
    ensures { result ≡ spec.has_later_type purpose kind }
{
    match kind {
        Kind::SimpleElement(simple) | Kind::PrefixNumber(simple) => {
            !is_built_type(purpose, simple)
        }
        _ => false,
    }
}

/// Whether elements of a type are built.
pub(crate) fn is_built_type(purpose: Purpose, simple: Simple) -> bool
    ensures { result ≡ types.is_built_type purpose simple }
{
    match purpose {
        Purpose::Parsing => true,
        Purpose::Unparsing => is_whole_type(simple),
    }
}

/// Whether a type is one of unsigned integers whose values have whole bytes.
fn is_whole_type(simple: Simple) -> bool
    ensures { result ≡ types.is_whole_type simple }
{
    match simple {
        Simple::UnsignedByte | Simple::UnsignedShort | Simple::UnsignedInt | Simple::UnsignedLong =>
            true,
        _ => false,
    }
}

/// Whether an element is built later: for unparsing, one that does not occur exactly once, may be nil or has a default.
fn is_later_element(subject: &Subject<'_, '_, '_>) -> bool
    ensures { result ≡ spec.is_later_element subject.now.purpose (judged_of subject.now) }
{
    let facts = subject.facts;
    match subject.purpose {
        Purpose::Parsing => false,
        Purpose::Unparsing => {
            !is_once(facts.bounds) || facts.is_nillable || facts.default.is_some()
        }
    }
}

/// Whether it is an element of a simple type that is not carried.
fn is_type_not_carried(kind: Kind) -> bool
    ensures { result ≡ spec.is_type_not_carried kind }
{
    match kind {
        Kind::UncarriedElement => true,
        _ => false,
    }
}

/// Whether it is a binary number whose least significant bits come first, and its bytes in another order
/// than little endian.
fn are_orders_apart(subject: &Subject<'_, '_, '_>) -> bool
    ensures { result ≡ spec.are_orders_apart (judged_of subject.now) }
{
    is_binary_number(subject)
        && is_least_first(subject)
        && !is_word(subject.chain, "byteOrder", "littleEndian")
}

/// Whether the order of bits isn't that of the schema's root.
fn is_second_bit_order(subject: &Subject<'_, '_, '_>) -> bool
    ensures { result ≡ spec.is_second_bit_order (judged_of subject.now) }
{
    !is_bare(subject.kind) && !is_same_order(bit_order(subject.chain), subject.root_bits_by)
}

/// Whether the alignment of what is no simple element is implicit.
fn is_alignment_not_allowed(subject: &Subject<'_, '_, '_>) -> bool
    ensures { result ≡ spec.is_alignment_not_allowed (judged_of subject.now) }
{
    let kind = subject.kind;
    !(is_simple(kind) || is_bare(kind)) && is_word(subject.chain, "alignment", "implicit")
}

/// Whether it is a packed number whose sign codes aren't four that are allowed.
fn are_codes_malformed(subject: &Subject<'_, '_, '_>) -> bool
    ensures { result ≡ spec.are_codes_malformed (judged_of subject.now) }
{
    is_packed(subject) && codes_told(property(subject.chain, "binaryPackedSignCodes")).is_none()
}

/// Whether each number of a boolean is one of 32 bits.
fn are_truths_told(subject: &Subject<'_, '_, '_>) -> bool
    ensures { result ≡ spec.are_truths_told (judged_of subject.now) }
{
    has_truth(subject) && has_falsity(subject)
}

/// Whether the number of true is one of 32 bits, or there is none.
fn has_truth(subject: &Subject<'_, '_, '_>) -> bool
    ensures { result ≡ spec.has_truth (judged_of subject.now) }
{
    truth_told(property(subject.chain, "binaryBooleanTrueRep")).is_some()
}

/// Whether the number of false is one of 32 bits.
fn has_falsity(subject: &Subject<'_, '_, '_>) -> bool
    ensures { result ≡ spec.has_falsity (judged_of subject.now) }
{
    falsity_told(property(subject.chain, "binaryBooleanFalseRep")).is_some()
}

/// Whether it is a binary boolean with a number that is none of 32 bits.
fn are_truth_numbers_malformed(subject: &Subject<'_, '_, '_>) -> bool
    ensures { result ≡ spec.are_truth_numbers_malformed (judged_of subject.now) }
{
    is_binary_boolean(subject) && !are_truths_told(subject)
}

/// Whether it is a boolean whose numbers or texts can't stand for true and false.
fn are_truths_malformed(alloc: Global, subject: &Subject<'_, '_, '_>) -> Result<bool, AllocError>
    ensures { IfOk result (λ malformed. malformed ≡ spec.are_truths_malformed (judged_of subject.now)) }
{
    if are_truth_numbers_malformed(subject) {
        return Ok(true);
    }
    are_truth_texts_other(alloc, subject)
}

/// Whether a property has a value that is none of the profile, or that doesn't go with the others.
fn is_value_not_carried(alloc: Global, subject: &Subject<'_, '_, '_>) -> Result<bool, AllocError>
    ensures { IfOk result (λ refused. refused ≡ spec.is_value_not_carried (judged_of subject.now)) }
{
    if has_flaw(Flaw::NotCarried, subject) || is_separator_other(subject) {
        return Ok(true);
    }
    if are_separators_unfit(alloc, subject)? {
        return Ok(true);
    }
    if is_base_unfit(subject) || is_prefix_type_missing(subject) || is_fill_other(subject) {
        return Ok(true);
    }
    if is_new_line_other(alloc, subject)? {
        return Ok(true);
    }
    Ok(is_scheme_unknown(subject) || are_tests_other(subject) || subject.group_is_unknown)
}

/// Whether it is a text whose escape scheme is named by nothing's name.
fn is_scheme_unknown(subject: &Subject<'_, '_, '_>) -> bool
    ensures { result ≡ spec.is_scheme_unknown (judged_of subject.now) }
{
    is_text(subject) && subject.scheme.is_unknown()
}

/// Whether it is a text whose escape scheme is malformed.
fn is_scheme_malformed(subject: &Subject<'_, '_, '_>) -> bool
    ensures { result ≡ spec.is_scheme_malformed (judged_of subject.now) }
{
    is_text(subject) && subject.scheme.is_malformed()
}

/// Whether a property has an expression where none may stand.
fn is_expression_not_allowed(
    alloc: Global,
    subject: &Subject<'_, '_, '_>,
) -> Result<bool, AllocError>
    ensures { IfOk result (λ refused. refused ≡ spec.is_expression_not_allowed (judged_of subject.now)) }
{
    if has_flaw(Flaw::Expression, subject) {
        return Ok(true);
    }
    is_new_line_expression(alloc, subject)
}
