// Which components a property applies to.
ghost use Rattle.std.specs.Prelude.{◌≡◌};
ghost use Rattle.dfdl_checks.specs.JudgedShown.{judged_of};
ghost use Rattle.dfdl_checks.specs.Applying as applying;

use crate::applicability::Bearers;
use crate::boxes::{is_explicit_box, is_implicit_string};
use crate::delimiters::{is_delimited, is_separated};
use crate::kinds::{
    is_any_element, is_bare, is_choice, is_decimal, is_element, is_hidden, is_plain_group,
    is_represented, is_sequence, is_simple, is_string, is_unframed, value_bits,
};
use crate::nils::is_nil_by_value;
use crate::number_texts::base_of;
use crate::occurring::{is_counted, is_counted_by_expression};
use crate::orders::is_least_first;
use crate::pads::is_padded_text;
use crate::representations::{
    is_binary, is_binary_boolean, is_binary_number, is_boxed, is_delimited_bytes, is_explicit,
    is_explicit_binary, is_nillable, is_packed, is_prefixed, is_standard, is_text, is_text_boolean,
    is_text_number, is_word, is_zoned,
};
use crate::subject::Subject;
use crate::tests::is_tested;

/// Whether a component is one of these.
pub(crate) fn is_bearer(bearers: Bearers, subject: &Subject<'_, '_, '_>) -> bool
    ensures { result ≡ applying.is_bearer bearers (judged_of subject.now) }
{
    let kind = subject.kind;
    match bearers {
        Bearers::EveryComponent => !is_bare(kind),
        Bearers::FramedComponents => !is_unframed(kind),
        Bearers::Elements => is_any_element(kind),
        Bearers::OtherElements => is_element(kind) && !is_boxed(subject) && !is_binary(subject),
        Bearers::SimpleElements => is_element(kind) && is_simple(kind),
        Bearers::NillableElements => is_nillable(subject),
        Bearers::TextNillables => is_nillable(subject) && !is_nil_by_value(subject),
        Bearers::RepresentedElements => is_represented(kind),
        Bearers::BoxedElements => is_boxed(subject),
        Bearers::Strings => is_string(kind),
        Bearers::PaddedStrings => is_padded_text(subject) && is_string(kind),
        Bearers::PaddedBooleans => is_padded_text(subject) && is_text_boolean(subject),
        Bearers::PaddedNumbers => is_padded_text(subject) && is_text_number(subject),
        Bearers::Texts => is_text(subject),
        Bearers::TextNumbers => is_text_number(subject),
        Bearers::TextBooleans => is_text_boolean(subject),
        Bearers::StandardNumbers => is_standard(subject),
        Bearers::ZonedNumbers => is_zoned(subject),
        Bearers::PatternNumbers => is_pattern_number(subject),
        Bearers::LooseTexts => is_loose_text(subject),
        Bearers::BinaryNumbers => is_binary_number(subject),
        Bearers::BinaryBooleans => is_binary_boolean(subject),
        Bearers::OrderedBinaries => is_ordered_binary(subject),
        Bearers::ExplicitBinaries => is_explicit_binary(subject),
        Bearers::ExplicitBoxes => is_explicit_box(subject),
        Bearers::ImplicitStrings => is_implicit_string(subject),
        Bearers::PrefixedElements => is_prefixed(subject),
        Bearers::PackedNumbers => is_packed(subject),
        Bearers::BinaryDecimals => is_decimal(kind) && is_binary_number(subject),
        Bearers::PatternElements => {
            is_element(kind) && is_word(subject.chain, "lengthKind", "pattern")
        }
        Bearers::DelimitedBytes => is_delimited_bytes(subject),
        Bearers::DelimitedComponents => is_delimited(subject),
        Bearers::Groups => is_plain_group(kind),
        Bearers::Sequences => is_sequence(kind),
        Bearers::SeparatedSequences => is_separated(subject),
        Bearers::EmptySequences => {
            is_hidden(kind) || (is_sequence(kind) && subject.facts.is_empty)
        },
        Bearers::Choices => is_choice(kind),
        Bearers::CountedElements => is_counted(subject),
        Bearers::CountedByExpression => is_counted_by_expression(subject),
        Bearers::TestedComponents => is_tested(subject),
        Bearers::KeyedBranches => subject.standing.needs_key,
    }
}

/// Whether it is a text number with a pattern: a zoned one, or one in base ten.
fn is_pattern_number(subject: &Subject<'_, '_, '_>) -> bool
    ensures { result ≡ applying.is_bearer Bearers.PatternNumbers (judged_of subject.now) }
{
    is_zoned(subject) || (is_standard(subject) && base_of(subject) == 10)
}

/// Whether it is a text number or boolean without a length of its own.
fn is_loose_text(subject: &Subject<'_, '_, '_>) -> bool
    ensures { result ≡ applying.is_bearer Bearers.LooseTexts (judged_of subject.now) }
{
    (is_text_number(subject) || is_text_boolean(subject)) && !is_explicit(subject)
}

/// Whether it is a binary number or boolean whose bytes have an order.
fn is_ordered_binary(subject: &Subject<'_, '_, '_>) -> bool
    ensures { result ≡ applying.is_ordered_binary (judged_of subject.now) }
{
    is_binary(subject) && (value_bits(subject.kind) > 8 || is_least_first(subject))
}
