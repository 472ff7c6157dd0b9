// The value of the only item of a path.
ghost use Rattle.std.specs.Prelude.{◌≡◌, ◌<◌, ◌^◌, IfOk, Some, length, option_map, slice_get};
ghost use Rattle.dfdl_paths.specs.Leads.{items};
ghost use Rattle.dfdl_paths.specs.Values.{content_value, found_of, found_value, node_value, octets_value, part_at, text_value};

use super::found::{Found, only_item};
use super::place::Start;
use dfdl_expressions::Path;
use dfdl_region::{Content, Node};
use dfdl_terms::NameNumbers;
use dfdl_value::{ByteValue, TextValue, Value};
use std::alloc::{AllocError, Global};
use std::str;

/// The value of the item that a path leads to, or the number of the fault: it leads to none, or to one that isn't read yet
/// (1), to several (2), or to one that is nil or has elements (3). `text` has the bytes of the elements' texts.
pub fn value_of_item(
    alloc: Global,
    names: &NameNumbers,
    nodes: &[Node],
    text: &[u8],
    start: Start,
    path: &Path,
    indexes: &[u64],
) -> Result<Result<Value, u8>, AllocError>
    requires few { length nodes.now < 2 ^ 32 }
    ensures { IfOk result (λ value. value ≡ found_value nodes.now text.now (found_of (items names.now nodes.now start path.now indexes.now))) }
{
    let found = only_item(names, nodes, start, path, indexes);
    value_of_found(alloc, nodes, text, found)
}

// The value of what is found.
fn value_of_found(
    alloc: Global,
    nodes: &[Node],
    text: &[u8],
    found: Found,
) -> Result<Result<Value, u8>, AllocError>
    ensures { IfOk result (λ value. value ≡ found_value nodes.now text.now found) }
{
    match found {
        Found::None => Ok(Err(1)),
        Found::One(number) => value_of_node(alloc, nodes, text, number),
        Found::Several => Ok(Err(2)),
    }
}

// The value of an element.
fn value_of_node(
    alloc: Global,
    nodes: &[Node],
    text: &[u8],
    number: u32,
) -> Result<Result<Value, u8>, AllocError>
    ensures { IfOk result (λ value. value ≡ node_value text.now (slice_get nodes.now number)) }
{
    match nodes.get(number as usize) {
        None => Ok(Err(1)),
        Some(node) => value_of_content(alloc, node.content, text),
    }
}

// The value of a content.
fn value_of_content(
    alloc: Global,
    content: Content,
    text: &[u8],
) -> Result<Result<Value, u8>, AllocError>
    ensures { IfOk result (λ value. value ≡ content_value text.now content) }
{
    match content {
        Content::Begun => Ok(Err(1)),
        Content::Complex => Ok(Err(3)),
        Content::Nil => Ok(Err(3)),
        Content::Signed(number) => Ok(Ok(Value::Int(number))),
        Content::Unsigned(number) => Ok(Ok(Value::Uns(number))),
        Content::Decimal(number) => Ok(Ok(Value::Dec(number))),
        Content::Truth(truth) => Ok(Ok(Value::Truth(truth))),
        Content::Text { from, len } => text_at(alloc, text, from, len),
        Content::Octets { from, len } => octets_at(alloc, text, from, len),
    }
}

// So many bytes of a text from one on, where they are there.
fn part_of(text: &[u8], from: u32, len: u32) -> Option<&[u8]>
    ensures { option_map (λ part. part.now) result ≡ part_at text.now from len }
{
    let from = from as usize;
    let end = from + len as usize;
    if text.len() < end {
        return None;
    }
    Some(&text[from..end])
}

// The string that so many bytes of a text are.
fn text_at(alloc: Global, text: &[u8], from: u32, len: u32) -> Result<Result<Value, u8>, AllocError>
    ensures { IfOk result (λ value. value ≡ text_value (part_at text.now from len)) }
{
    match part_of(text, from, len) {
        None => Ok(Err(1)),
        Some(part) => text_of(alloc, part),
    }
}

// The hexBinary that so many bytes of a text are.
fn octets_at(
    alloc: Global,
    text: &[u8],
    from: u32,
    len: u32,
) -> Result<Result<Value, u8>, AllocError>
    ensures { IfOk result (λ value. value ≡ octets_value (part_at text.now from len)) }
{
    match part_of(text, from, len) {
        None => Ok(Err(1)),
        Some(part) => octets_of(alloc, part),
    }
}

fn text_of(alloc: Global, bytes: &[u8]) -> Result<Result<Value, u8>, AllocError>
    ensures { IfOk result (λ value. value ≡ text_value (Some bytes.now)) }
{
    match str::from_utf8(bytes) {
        Ok(text) => Ok(Ok(Value::Text(TextValue::from_str(alloc, text)?))),
        Err(_) => Ok(Err(1)),
    }
}

fn octets_of(alloc: Global, bytes: &[u8]) -> Result<Result<Value, u8>, AllocError>
    ensures { IfOk result (λ value. value ≡ octets_value (Some bytes.now)) }
{
    Ok(Ok(Value::Bytes(ByteValue::from_slice(alloc, bytes)?)))
}
