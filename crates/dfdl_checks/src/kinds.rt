// What follows from the kind of a component alone.
ghost use Rattle.std.specs.Prelude.{◌≡◌};
ghost use Rattle.dfdl_forms.specs.Binary.{most_bits};
ghost use Rattle.dfdl_forms.specs.Types.{form_of};
ghost use Rattle.dfdl_checks.specs.Subjects as subjects;

use crate::subject::Kind;
use dfdl_forms::{Form, Simple};

/// Whether it is an element that has a representation.
pub(crate) fn is_element(kind: Kind) -> bool
    ensures { result ≡ subjects.is_element kind }
{
    match kind {
        Kind::ComplexElement | Kind::SimpleElement(_) | Kind::UncarriedElement => true,
        Kind::CalculatedElement(_)
        | Kind::Sequence
        | Kind::HiddenSequence
        | Kind::Choice
        | Kind::PrefixNumber(_) => false,
    }
}

/// Whether it is an element whose value is calculated.
pub(crate) fn is_calculated(kind: Kind) -> bool
    ensures { result ≡ subjects.is_calculated kind }
{
    match kind {
        Kind::CalculatedElement(_) => true,
        _ => false,
    }
}

/// Whether it is an element.
pub(crate) fn is_any_element(kind: Kind) -> bool
    ensures { result ≡ subjects.is_any_element kind }
{
    is_element(kind) || is_calculated(kind)
}

/// Whether it is a sequence that stands for a hidden group, or an element whose value is calculated.
pub(crate) fn is_bare(kind: Kind) -> bool
    ensures { result ≡ subjects.is_bare kind }
{
    match kind {
        Kind::HiddenSequence | Kind::CalculatedElement(_) => true,
        _ => false,
    }
}

/// Whether it is a sequence that stands for a hidden group.
pub(crate) fn is_hidden(kind: Kind) -> bool
    ensures { result ≡ subjects.is_hidden kind }
{
    match kind {
        Kind::HiddenSequence => true,
        _ => false,
    }
}

/// Whether it is the type of a length prefix, a sequence that stands for a hidden group, or an element whose value is calculated.
pub(crate) fn is_unframed(kind: Kind) -> bool
    ensures { result ≡ subjects.is_unframed kind }
{
    match kind {
        Kind::PrefixNumber(_) | Kind::HiddenSequence | Kind::CalculatedElement(_) => true,
        _ => false,
    }
}

/// Whether it is an element of a simple type that has a representation, or the type of a prefix.
pub(crate) fn is_simple(kind: Kind) -> bool
    ensures { result ≡ subjects.is_simple kind }
{
    match kind {
        Kind::SimpleElement(_) | Kind::UncarriedElement | Kind::PrefixNumber(_) => true,
        Kind::ComplexElement
        | Kind::CalculatedElement(_)
        | Kind::Sequence
        | Kind::HiddenSequence
        | Kind::Choice => false,
    }
}

/// Whether it is an element of a complex type.
pub(crate) fn is_complex(kind: Kind) -> bool
    ensures { result ≡ subjects.is_complex kind }
{
    match kind {
        Kind::ComplexElement => true,
        _ => false,
    }
}

/// Whether it is a sequence.
pub(crate) fn is_sequence(kind: Kind) -> bool
    ensures { result ≡ subjects.is_sequence kind }
{
    match kind {
        Kind::Sequence => true,
        _ => false,
    }
}

/// Whether it is a choice.
pub(crate) fn is_choice(kind: Kind) -> bool
    ensures { result ≡ subjects.is_choice kind }
{
    match kind {
        Kind::Choice => true,
        _ => false,
    }
}

/// Whether it is a sequence or a choice of what stands in it.
pub(crate) fn is_plain_group(kind: Kind) -> bool
    ensures { result ≡ subjects.is_plain_group kind }
{
    is_sequence(kind) || is_choice(kind)
}

/// Whether it is a sequence or a choice, or an element whose value is calculated.
pub(crate) fn is_without_length(kind: Kind) -> bool
    ensures { result ≡ subjects.is_without_length kind }
{
    is_plain_group(kind) || is_bare(kind)
}

/// Whether values of a type are texts.
pub(crate) fn is_characters(simple: Simple) -> bool
    ensures { result ≡ subjects.is_characters (form_of simple) }
{
    match simple.form() {
        Form::Characters => true,
        _ => false,
    }
}

/// Whether values of a type are bytes.
pub(crate) fn is_octets(simple: Simple) -> bool
    ensures { result ≡ subjects.is_octets (form_of simple) }
{
    match simple.form() {
        Form::Octets => true,
        _ => false,
    }
}

/// Whether it is a simple element, or the type of a prefix, of type string.
pub(crate) fn is_string(kind: Kind) -> bool
    ensures { result ≡ subjects.is_string kind }
{
    match kind {
        Kind::SimpleElement(simple) | Kind::PrefixNumber(simple) => is_characters(simple),
        _ => false,
    }
}

/// The same of type hexBinary.
pub(crate) fn is_hex_binary(kind: Kind) -> bool
    ensures { result ≡ subjects.is_hex_binary kind }
{
    match kind {
        Kind::SimpleElement(simple) | Kind::PrefixNumber(simple) => is_octets(simple),
        _ => false,
    }
}

/// The same of type string or hexBinary.
pub(crate) fn is_string_or_bytes(kind: Kind) -> bool
    ensures { result ≡ subjects.is_string_or_bytes kind }
{
    is_string(kind) || is_hex_binary(kind)
}

/// Whether it is a simple element, or the type of a prefix, that has a representation.
pub(crate) fn is_represented(kind: Kind) -> bool
    ensures { result ≡ subjects.is_represented kind }
{
    match kind {
        Kind::SimpleElement(simple) | Kind::PrefixNumber(simple) => {
            has_representation(simple.form())
        }
        Kind::UncarriedElement => true,
        _ => false,
    }
}

/// Whether values of a form are written as text or in binary.
fn has_representation(form: Form) -> bool
    ensures { result ≡ subjects.has_representation form }
{
    match form {
        Form::Signed { .. } | Form::Unsigned { .. } | Form::Fixed | Form::Truths => true,
        Form::Characters | Form::Octets => false,
    }
}

/// Whether it is a simple element, or the type of a prefix, of type boolean.
pub(crate) fn is_boolean(kind: Kind) -> bool
    ensures { result ≡ subjects.is_boolean kind }
{
    match kind {
        Kind::SimpleElement(simple) | Kind::PrefixNumber(simple) => is_truths(simple),
        _ => false,
    }
}

/// Whether values of a type are true and false.
pub(crate) fn is_truths(simple: Simple) -> bool
    ensures { result ≡ subjects.is_truths (form_of simple) }
{
    match simple.form() {
        Form::Truths => true,
        _ => false,
    }
}

/// Whether it is a simple element, or the type of a prefix, of type decimal.
pub(crate) fn is_decimal(kind: Kind) -> bool
    ensures { result ≡ subjects.is_decimal kind }
{
    match kind {
        Kind::SimpleElement(simple) | Kind::PrefixNumber(simple) => has_point(simple),
        _ => false,
    }
}

/// Whether values of a type have digits behind a point.
pub(crate) fn has_point(simple: Simple) -> bool
    ensures { result ≡ subjects.has_point (form_of simple) }
{
    match simple.form() {
        Form::Fixed => true,
        _ => false,
    }
}

/// How many bits an element of an integer or decimal type has at most in binary, else 0.
pub(crate) fn number_bits(kind: Kind) -> u32
    ensures { result ≡ subjects.number_bits kind }
{
    match kind {
        Kind::SimpleElement(simple) | Kind::PrefixNumber(simple) => most_bits(simple),
        _ => 0,
    }
}

/// How many bits a number of the type has at most in binary, 0 where it is no number.
pub(crate) fn most_bits(simple: Simple) -> u32
    ensures { result ≡ most_bits (form_of simple) }
{
    match simple.form() {
        Form::Signed { bits } | Form::Unsigned { bits } => bits,
        Form::Fixed => 128,
        Form::Characters | Form::Truths | Form::Octets => 0,
    }
}

/// How many bits a value of an element has at most in binary, 0 where it has no binary form.
pub(crate) fn value_bits(kind: Kind) -> u32
    ensures { result ≡ subjects.value_bits kind }
{
    match kind {
        Kind::SimpleElement(simple) | Kind::PrefixNumber(simple) => binary_bits(simple),
        _ => 0,
    }
}

/// How many bits a value of the type has at most in binary, 0 where it has no binary form.
fn binary_bits(simple: Simple) -> u32
    ensures { result ≡ subjects.binary_bits (form_of simple) }
{
    match simple.form() {
        Form::Signed { bits } | Form::Unsigned { bits } => bits,
        Form::Fixed => 128,
        Form::Truths => 32,
        Form::Characters | Form::Octets => 0,
    }
}
