// Values that stand for nil.
ghost use Rattle.std.specs.Prelude.{◌≡◌, ◌-◌, ◌≤◌, ℕ, IfOk, take, drop, length};
ghost use Rattle.std.specs.List.{list_any};
ghost use Rattle.dfdl_region.specs.declared.node.Content.TheVariants.{Signed, Unsigned, Decimal};
ghost use Rattle.dfdl_region.specs.declared.node.Content.TheVariants as content;
ghost use Rattle.dfdl_region.specs.Bytes.{utf8_of};
ghost use Rattle.dfdl_grammar.specs.Leaves.{is_bytes, is_text, is_value};
ghost use Rattle.dfdl_leaves.specs.declared.leaf.Scratch.{Scratch as AnyScratch};
ghost use Rattle.dfdl_leaves.specs.Nils.{nil_value_reached};
ghost use Rattle.dfdl_leaves.specs.Readings.{HasPiece, IsPlain, IsWithin, found_shown, string_shown};

use crate::leaf::{Found, Scratch};
use crate::nils::nil_found;
use crate::patterns::put_text;
use crate::spans::text_span;
use dfdl_decimal::Fixed;
use dfdl_region::Content;
use dfdl_value::Value;
use std::alloc::AllocError;

/// What a leaf is found as that has to be one of these values, which are nil, by what it is found as.
pub(crate) fn nil_value_found(
    values: &[Value],
    found: Found,
    scratch: &mut Scratch,
) -> Result<Found, AllocError>
    requires piece { HasPiece found scratch.old }
    ensures found { IfOk result (λ nil. (after : AnyScratch)
        → found_shown after nil ≡ nil_value_reached values.now (found_shown scratch.old found)) }
    ensures within { IfOk result (λ nil. (last : ℕ) → IsWithin found last → IsWithin nil last) }
    ensures piece { IfOk result (λ nil. (after : AnyScratch) → HasPiece nil after) }
{
    match found {
        Found::Reads { content, span } => Ok(nil_found(is_content(values, content), span)),
        Found::Octets { span } => Ok(nil_found(
            are_octets(values, scratch.octets.as_slice()),
            span,
        )),
        Found::Utf8 { span } => Ok(nil_found(is_text(values, scratch.octets.as_slice()), span)),
        Found::Text {
            from,
            to,
            end,
            value,
        } => {
            let nil = nil_text(values, scratch, from, to, end, value)?;
            Ok(nil)
        }
        Found::Fails(cause) => Ok(Found::Fails(cause)),
        Found::Past => Ok(Found::Past),
        Found::NotYet => Ok(Found::NotYet),
    }
}

// What the string of the characters of the scratch from one on and before another is found as that has to be one of the values.
fn nil_text(
    values: &[Value],
    scratch: &mut Scratch,
    from: usize,
    to: usize,
    end: u64,
    value: Option<u64>,
) -> Result<Found, AllocError>
    requires piece { (from ≤ to) × (to ≤ length scratch.old.characters.items) }
    ensures found { IfOk result (λ nil. (after : AnyScratch) → found_shown after nil
        ≡ nil_value_reached values.now (string_shown (utf8_of (take (to - from) (drop from scratch.old.characters.items))) end value)) }
    ensures plain { IfOk result (λ nil. IsPlain nil end) }
{
    put_text(&scratch.characters[from..to], &mut scratch.text)?;
    let bytes = scratch.text.as_bytes();
    let span = text_span(bytes.len() as u64, end, value);
    Ok(nil_found(is_text(values, bytes), span))
}

// Whether one of the values is this content.
fn is_content(values: &[Value], content: Content) -> bool
    ensures { result ≡ list_any (is_value content) values.now }
{
    for value in values {
        if has_content(value, &content) {
            return true;
        }
    }
    false
}

// Whether one of the values is these bytes.
fn are_octets(values: &[Value], bytes: &[u8]) -> bool
    ensures { result ≡ list_any (is_bytes bytes.now) values.now }
{
    for value in values {
        if has_octets(value, bytes) {
            return true;
        }
    }
    false
}

// Whether one of the values is this text, as UTF-8.
fn is_text(values: &[Value], bytes: &[u8]) -> bool
    ensures { result ≡ list_any (is_text bytes.now) values.now }
{
    for value in values {
        if has_text(value, bytes) {
            return true;
        }
    }
    false
}

// Whether a value is this content.
fn has_content(value: &Value, content: &Content) -> bool
    ensures { result ≡ is_value content.now value.now }
{
    match content {
        Content::Signed(number) => is_signed(value, *number),
        Content::Unsigned(number) => is_unsigned(value, *number),
        Content::Decimal(number) => is_decimal(value, *number),
        Content::Truth(truth) => is_truth(value, *truth),
        Content::Begun => false,
        Content::Complex => false,
        Content::Nil => false,
        Content::Text { .. } => false,
        Content::Octets { .. } => false,
    }
}

fn is_signed(value: &Value, number: i128) -> bool
    ensures { result ≡ is_value (Signed number) value.now }
{
    match value {
        Value::Int(other) => number == *other,
        _ => false,
    }
}

fn is_unsigned(value: &Value, number: u128) -> bool
    ensures { result ≡ is_value (Unsigned number) value.now }
{
    match value {
        Value::Uns(other) => number == *other,
        _ => false,
    }
}

fn is_decimal(value: &Value, number: Fixed) -> bool
    ensures { result ≡ is_value (Decimal number) value.now }
{
    match value {
        Value::Dec(other) => {
            number.mantissa() == other.mantissa() && number.scale() == other.scale()
        }
        _ => false,
    }
}

fn is_truth(value: &Value, truth: bool) -> bool
    ensures { result ≡ is_value (content.Truth truth) value.now }
{
    match value {
        Value::Truth(true) => truth,
        Value::Truth(false) => !truth,
        _ => false,
    }
}

// Whether a value is these bytes.
fn has_octets(value: &Value, bytes: &[u8]) -> bool
    ensures { result ≡ is_bytes bytes.now value.now }
{
    match value {
        Value::Bytes(other) => bytes == other.as_slice(),
        _ => false,
    }
}

// Whether a value is this text, as UTF-8.
fn has_text(value: &Value, bytes: &[u8]) -> bool
    ensures { result ≡ is_text bytes.now value.now }
{
    match value {
        Value::Text(other) => bytes == other.as_str().as_bytes(),
        _ => false,
    }
}
