// What numbers and texts in an expression are.
ghost use Rattle.std.specs.Prelude.{◌≡◌, IfOk};
ghost use Rattle.dfdl_expression_compile.specs.Literals as literals;

use crate::memory::OutOfMemory;
use dfdl_expression_tree::unquoted;
use dfdl_expressions::{Node, Unit};
use dfdl_forms::Simple;
use dfdl_value::{ReadFault, TextValue, Value};
use std::alloc::Global;

/// Bytes as a text.
fn as_text(bytes: &[u8]) -> &str
    ensures { result.now ≡ literals.as_text bytes.now }
{
    match str::from_utf8(bytes) {
        Ok(text) => text,
        Err(_) => "",
    }
}

fn has_point(text: &[u8]) -> bool
    ensures { result ≡ literals.has_point text.now }
{
    text.iter().any(|b| *b == b'.')
}

/// The type as whose value a number is read.
fn kind_of_number(text: &[u8]) -> Simple
    ensures { result ≡ literals.kind_of_number text.now }
{
    if has_point(text) {
        Simple::Decimal
    } else {
        Simple::NonNegativeInteger
    }
}

/// The node of a number.
pub(crate) fn number_node(alloc: Global, text: &[u8]) -> Result<Node, OutOfMemory>
    ensures { IfOk result (λ n. n ≡ literals.number_node text.now) }
{
    match Value::read(alloc, kind_of_number(text), as_text(text)) {
        Ok(value) => Ok(Node::Constant(value)),
        Err(ReadFault::NotAValue) | Err(ReadFault::PastType) => Ok(Node::PastRange),
        Err(ReadFault::OutOfMemory) => Err(OutOfMemory),
    }
}

/// The node of a text in quotes.
pub(crate) fn text_node(alloc: Global, text: &[u8]) -> Result<Node, OutOfMemory>
    ensures { IfOk result (λ n. n ≡ literals.text_node text.now) }
{
    let plain = unquoted(alloc, as_text(text))?;
    Ok(Node::Constant(Value::Text(TextValue::from_string(plain))))
}

/// The unit of length that a text in quotes is.
#[tactic(auto, unfolding(crate::specs::Literals::unit_named))]
pub(crate) fn unit_named(text: &[u8]) -> Option<Unit>
    ensures { result ≡ literals.unit_named text.now }
{
    if text == b"'bits'".as_slice() || text == b"\"bits\"".as_slice() {
        Some(Unit::Bits)
    } else if text == b"'bytes'".as_slice() || text == b"\"bytes\"".as_slice() {
        Some(Unit::Bytes)
    } else {
        None
    }
}
