// The default values of elements.
ghost use Rattle.std.specs.Prelude.{◌≡◌, IfOk, option_and_then, option_copied};
ghost use Rattle.dfdl_forms.specs.Types.{form_of};
ghost use Rattle.dfdl_checks.specs.Defaults as defaults;
ghost use Rattle.dfdl_checks.specs.JudgedShown.{judged_of};

use crate::subject::{Kind, Subject};
use dfdl_forms::{Form, Simple};
use dfdl_value::{ByteValue, ReadFault, TextValue, Value};
use std::alloc::{AllocError, Global};

/// The value of a type that a text says.
pub(crate) fn value_of(
    alloc: Global,
    simple: Simple,
    text: &str,
) -> Result<Option<Value>, AllocError>
    ensures { IfOk result (λ value. value ≡ defaults.value_of simple text.now) }
{
    match Value::read(alloc, simple, text) {
        Ok(value) => Ok(Some(value)),
        Err(ReadFault::OutOfMemory) => Err(AllocError),
        Err(_) => Ok(None),
    }
}

/// Whether a text says no value of a type.
fn is_no_value(alloc: Global, simple: Simple, text: &str) -> Result<bool, AllocError>
    ensures { IfOk result (λ none. none ≡ defaults.is_no_default (Kind.SimpleElement simple) text.now) }
{
    let value = value_of(alloc, simple, text)?;
    Ok(value.is_none())
}

/// Whether a text can't be the default of an element of the kind.
fn is_no_default(alloc: Global, kind: Kind, text: &str) -> Result<bool, AllocError>
    ensures { IfOk result (λ none. none ≡ defaults.is_no_default kind text.now) }
{
    match kind {
        Kind::ComplexElement => Ok(true),
        Kind::SimpleElement(simple) => is_no_value(alloc, simple, text),
        _ => Ok(false),
    }
}

/// Whether it is an element with a default that is complex, or whose type has no such value.
pub(crate) fn is_default_not_allowed(
    alloc: Global,
    subject: &Subject<'_, '_, '_>,
) -> Result<bool, AllocError>
    ensures { IfOk result (λ refused. refused ≡ defaults.is_default_not_allowed (judged_of subject.now)) }
{
    match subject.facts.default {
        Some(text) => is_no_default(alloc, subject.kind, text),
        None => Ok(false),
    }
}

/// The value of a default, if it is told and one of the type.
pub(crate) fn default_value(
    alloc: Global,
    simple: Simple,
    default: Option<&str>,
) -> Result<Option<Value>, AllocError>
    ensures { IfOk result (λ value. value ≡ option_and_then (defaults.value_of simple) (option_copied default.entry)) }
{
    match default {
        Some(text) => value_of(alloc, simple, text),
        None => Ok(None),
    }
}

/// What stands for no bits at an element of a type where no default does.
fn nothing_of(alloc: Global, simple: Simple) -> Result<Option<Value>, AllocError>
    ensures { IfOk result (λ value. value ≡ defaults.nothing_of (form_of simple)) }
{
    match simple.form() {
        Form::Characters => {
            let text = TextValue::from_str(alloc, "")?;
            Ok(Some(Value::Text(text)))
        }
        Form::Octets => Ok(Some(Value::Bytes(ByteValue::from_vec(Vec::new(alloc))))),
        _ => Ok(None),
    }
}

/// What no bits stand for at an occurrence of a type that takes a default of this text, if one: the default, else no text or no bytes.
pub(crate) fn empty_value(
    alloc: Global,
    simple: Simple,
    default: Option<&str>,
) -> Result<Option<Value>, AllocError>
    ensures { IfOk result (λ value. value ≡ defaults.empty_value (option_copied default.entry) simple) }
{
    match default_value(alloc, simple, default)? {
        Some(value) => Ok(Some(value)),
        None => nothing_of(alloc, simple),
    }
}
