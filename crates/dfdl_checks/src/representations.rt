// How the values of a component are written: as text, in binary or as bytes; and how its length is told.
ghost use Rattle.std.specs.Prelude.{◌≡◌};
ghost use Rattle.dfdl_checks.specs.JudgedShown.{judged_of};
ghost use Rattle.dfdl_checks.specs.Subjects as subjects;
ghost use Rattle.dfdl_scope.specs.Scoping.{told};
ghost use Rattle.dfdl_scope.specs.Shown.{chain_of};
ghost use Rattle.dfdl_scope.specs.Told.{told_by};

use crate::kinds::{
    is_boolean, is_complex, is_element, is_hex_binary, is_simple, is_string, is_without_length,
    number_bits, value_bits,
};
use crate::subject::Subject;
use dfdl_scope::{Asked, Component, is_expression, literal, property};

/// Whether what is told of a property stands for this word.
pub fn is_word(chain: &Component<'_, '_>, name: &str, word: &str) -> bool
    ensures { result ≡ subjects.is_word word.now (told (chain_of chain.now) name.now) }
{
    match property(chain, name) {
        Asked::Given(written) => literal(written) == word,
        Asked::Absent => false,
        Asked::Twice { .. } => false,
    }
}

/// Whether it is an element of an integer or decimal type whose representation is binary.
pub(crate) fn is_binary_number(subject: &Subject<'_, '_, '_>) -> bool
    ensures { result ≡ subjects.is_binary_number (judged_of subject.now) }
{
    number_bits(subject.kind) > 0 && is_word(subject.chain, "representation", "binary")
}

/// Whether it is an element of type boolean whose representation is binary.
pub(crate) fn is_binary_boolean(subject: &Subject<'_, '_, '_>) -> bool
    ensures { result ≡ subjects.is_binary_boolean (judged_of subject.now) }
{
    is_boolean(subject.kind) && is_word(subject.chain, "representation", "binary")
}

/// Whether it is a binary number or boolean.
pub(crate) fn is_binary(subject: &Subject<'_, '_, '_>) -> bool
    ensures { result ≡ subjects.is_binary (judged_of subject.now) }
{
    value_bits(subject.kind) > 0 && is_word(subject.chain, "representation", "binary")
}

/// Whether it is a binary number or boolean with a length of its own.
pub(crate) fn is_explicit_binary(subject: &Subject<'_, '_, '_>) -> bool
    ensures { result ≡ subjects.is_explicit_binary (judged_of subject.now) }
{
    is_binary(subject) && is_word(subject.chain, "lengthKind", "explicit")
}

/// Whether it is a binary number with a sign behind its digits.
pub(crate) fn is_packed(subject: &Subject<'_, '_, '_>) -> bool
    ensures { result ≡ subjects.is_packed (judged_of subject.now) }
{
    is_binary_number(subject) && is_word(subject.chain, "binaryNumberRep", "packed")
}

/// Whether the length is the component's own.
pub(crate) fn is_explicit(subject: &Subject<'_, '_, '_>) -> bool
    ensures { result ≡ subjects.is_explicit (judged_of subject.now) }
{
    is_word(subject.chain, "lengthKind", "explicit")
}

/// Whether an expression is told.
pub(crate) fn is_expression_told(told: Asked<'_>) -> bool
    ensures { result ≡ subjects.is_expression_told (told_by told.entry) }
{
    match told {
        Asked::Given(written) => is_expression(written),
        Asked::Absent => false,
        Asked::Twice { .. } => false,
    }
}

/// Whether the length is the component's own, by an expression.
pub(crate) fn is_by_expression(subject: &Subject<'_, '_, '_>) -> bool
    ensures { result ≡ subjects.is_by_expression (judged_of subject.now) }
{
    is_explicit(subject) && is_expression_told(property(subject.chain, "length"))
}

/// Whether it is an integer or decimal whose representation is text.
pub(crate) fn is_text_number(subject: &Subject<'_, '_, '_>) -> bool
    ensures { result ≡ subjects.is_text_number (judged_of subject.now) }
{
    number_bits(subject.kind) > 0 && is_word(subject.chain, "representation", "text")
}

/// Whether it is a boolean whose representation is text.
pub(crate) fn is_text_boolean(subject: &Subject<'_, '_, '_>) -> bool
    ensures { result ≡ subjects.is_text_boolean (judged_of subject.now) }
{
    is_boolean(subject.kind) && is_word(subject.chain, "representation", "text")
}

/// Whether it is a string, a text number or a text boolean.
pub(crate) fn is_text(subject: &Subject<'_, '_, '_>) -> bool
    ensures { result ≡ subjects.is_text (judged_of subject.now) }
{
    is_string(subject.kind) || is_text_number(subject) || is_text_boolean(subject)
}

/// Whether it is a zoned number.
pub(crate) fn is_zoned(subject: &Subject<'_, '_, '_>) -> bool
    ensures { result ≡ subjects.is_zoned (judged_of subject.now) }
{
    is_text_number(subject) && is_word(subject.chain, "textNumberRep", "zoned")
}

/// Whether it is a text number by a pattern or by the digits of a base.
pub(crate) fn is_standard(subject: &Subject<'_, '_, '_>) -> bool
    ensures { result ≡ subjects.is_standard (judged_of subject.now) }
{
    is_text_number(subject) && !is_word(subject.chain, "textNumberRep", "zoned")
}

/// Whether it is a simple element that may be nil.
pub(crate) fn is_nillable(subject: &Subject<'_, '_, '_>) -> bool
    ensures { result ≡ subjects.is_nillable (judged_of subject.now) }
{
    is_element(subject.kind) && is_simple(subject.kind) && subject.facts.is_nillable
}

/// Whether its content stands in a box.
pub(crate) fn is_boxed(subject: &Subject<'_, '_, '_>) -> bool
    ensures { result ≡ subjects.is_boxed (judged_of subject.now) }
{
    is_text(subject) || is_hex_binary(subject.kind) || is_complex(subject.kind)
}

/// Whether what is no group has a length by a pattern.
pub(crate) fn is_by_pattern(subject: &Subject<'_, '_, '_>) -> bool
    ensures { result ≡ subjects.is_by_pattern (judged_of subject.now) }
{
    !is_without_length(subject.kind) && is_word(subject.chain, "lengthKind", "pattern")
}

/// Whether it has a length prefix.
pub(crate) fn is_prefixed(subject: &Subject<'_, '_, '_>) -> bool
    ensures { result ≡ subjects.is_prefixed (judged_of subject.now) }
{
    !is_without_length(subject.kind) && is_word(subject.chain, "lengthKind", "prefixed")
}

/// Whether what is no group has a delimited length.
pub(crate) fn has_delimited_length(subject: &Subject<'_, '_, '_>) -> bool
    ensures { result ≡ subjects.has_delimited_length (judged_of subject.now) }
{
    !is_without_length(subject.kind) && is_word(subject.chain, "lengthKind", "delimited")
}

/// Whether the data tell the length, by a prefix, by what a pattern matches in them, by what delimits it, or by an expression over
/// them.
pub(crate) fn is_sized_by_data(subject: &Subject<'_, '_, '_>) -> bool
    ensures { result ≡ subjects.is_sized_by_data (judged_of subject.now) }
{
    is_prefixed(subject)
        || is_by_pattern(subject)
        || has_delimited_length(subject)
        || is_by_expression(subject)
}

/// Whether it is an element of type hexBinary of delimited length.
pub(crate) fn is_delimited_bytes(subject: &Subject<'_, '_, '_>) -> bool
    ensures { result ≡ subjects.is_delimited_bytes (judged_of subject.now) }
{
    is_hex_binary(subject.kind) && is_word(subject.chain, "lengthKind", "delimited")
}
