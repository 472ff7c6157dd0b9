// Empty representations that are left away, since the normal representation reads no bits as they do.
ghost use Rattle.std.specs.Prelude.{◌≡◌};
ghost use Rattle.dfdl_compile.specs.Empties as spec;

use dfdl_breaches::Judgement;
use dfdl_checks::{Delimiting, EmptyRepresentation};
use dfdl_terms::Primitive;
use dfdl_value::Value;

// Whether a value is no text or no bytes.
fn is_nothing(value: &Value) -> bool
    ensures { result ≡ spec.is_nothing value.now }
{
    match value {
        Value::Text(text) => text.as_str().is_empty(),
        Value::Bytes(bytes) => bytes.as_slice().is_empty(),
        Value::Int(_) => false,
        Value::Uns(_) => false,
        Value::Dec(_) => false,
        Value::Truth(_) => false,
    }
}

// Whether no bits stand for no text or no bytes by a primitive.
fn reads_nothing(primitive: &Option<Primitive>) -> bool
    ensures { result ≡ spec.reads_nothing primitive.now }
{
    match primitive {
        Some(Primitive::Default(form)) => is_nothing(&form.value),
        Some(Primitive::Integer(_)) => false,
        Some(Primitive::Packed(_)) => false,
        Some(Primitive::Truth(_)) => false,
        Some(Primitive::Octets(_)) => false,
        Some(Primitive::Text(_)) => false,
        Some(Primitive::NilOctets(_)) => false,
        Some(Primitive::NilValues(_)) => false,
        Some(Primitive::Pattern(_)) => false,
        None => false,
    }
}

/// Whether an empty representation takes no bits for no text or no bytes, as the normal one of a string or a hexBinary does.
pub(crate) fn reads_as_normal(own: &EmptyRepresentation) -> bool
    ensures { result ≡ spec.reads_as_normal own.now }
{
    reads_nothing(&own.empty) && !own.refuses_empty
}

// Whether a delimiter, if there is one, stands in the empty representation as in the normal one.
fn stands_in_empty(delimiter: &Option<Delimiting>) -> bool
    ensures { result ≡ spec.stands_in_empty delimiter.now }
{
    match delimiter {
        Some(delimiter) => delimiter.in_empty,
        None => true,
    }
}

/// Whether the empty representation of an element of which this is told is framed as the normal one.
pub(crate) fn is_framed_alike(judgement: &Judgement) -> bool
    ensures { result ≡ spec.is_framed_alike judgement.now }
{
    stands_in_empty(&judgement.markup.initiator) && stands_in_empty(&judgement.markup.terminator)
}
