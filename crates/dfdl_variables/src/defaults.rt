// What variables begin with.
ghost use Rattle.std.specs.Prelude.{◌≡◌, IfOk, option_copied};
ghost use Rattle.dfdl_variables.specs.Defaults as defaults;

use crate::malformed::Malformed;
use dfdl_forms::Simple;
use dfdl_scope::{is_expression, literal};
use dfdl_value::{ReadFault, Value};
use std::alloc::{AllocError, Global};

// What a text that is no expression says of a type.
fn start_text(
    alloc: Global,
    simple: Simple,
    text: &str,
) -> Result<Result<Option<Value>, Malformed>, AllocError>
    ensures start { IfOk result (λ start. start ≡ defaults.start_text simple text.now) }
    ensures typed { IfOk result (defaults.IsStartOf simple) }
{
    match Value::read(alloc, simple, text) {
        Ok(value) => Ok(Ok(Some(value))),
        Err(ReadFault::OutOfMemory) => Err(AllocError),
        Err(_) => Ok(Err(Malformed::DefaultNotAValue)),
    }
}

// What a default says of a type.
fn start_said(
    alloc: Global,
    simple: Simple,
    text: &str,
) -> Result<Result<Option<Value>, Malformed>, AllocError>
    ensures start { IfOk result (λ start. start ≡ defaults.start_said simple text.now) }
    ensures typed { IfOk result (defaults.IsStartOf simple) }
{
    if is_expression(text) {
        Ok(Err(Malformed::DefaultByExpression))
    } else {
        start_text(alloc, simple, literal(text))
    }
}

// What a variable of a type begins with.
fn start_of(
    alloc: Global,
    simple: Simple,
    text: Option<&str>,
) -> Result<Result<Option<Value>, Malformed>, AllocError>
    ensures start { IfOk result (λ start. start ≡ defaults.start_of simple (option_copied text.entry)) }
    ensures typed { IfOk result (defaults.IsStartOf simple) }
{
    match text {
        Some(text) => start_said(alloc, simple, text),
        None => Ok(Ok(None)),
    }
}

/// What a variable begins with whose type is carried or isn't, or what is wrong with its definition.
pub(crate) fn start_by(
    alloc: Global,
    simple: Option<Simple>,
    text: Option<&str>,
) -> Result<Result<Option<Value>, Malformed>, AllocError>
    ensures start { IfOk result (λ start. start ≡ defaults.start_by simple (option_copied text.entry)) }
    ensures typed { IfOk result (defaults.IsStartBy simple) }
{
    match simple {
        Some(simple) => start_of(alloc, simple, text),
        None => Ok(Err(Malformed::TypeNotCarried)),
    }
}
