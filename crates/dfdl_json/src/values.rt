// The texts of simple values, written as JSON strings.
ghost use Rattle.std.specs.Prelude.{◌≡◌, ◌+◌, ◌≤◌, [], ◌∷◌, false, length, OnOk, IsUtf8};
ghost use Rattle.serde_json.specs.Data.{Members};
ghost use Rattle.dfdl_region.specs.Texts.{HasText};
ghost use Rattle.dfdl_json.specs.Lines.{data_of};
ghost use Rattle.dfdl_json.specs.Values as values;
ghost use Rattle.json.specs.Token.{string};
ghost use Rattle.dfdl_value.specs.Writing.{text_of};
ghost use Rattle.dfdl_region.specs.Bytes.{bytes_at as part_of};
ghost use Rattle.dfdl_json.specs.Adding.{Adds, data_tokens};

use dfdl_decimal::Fixed;
use dfdl_region::Content;
use dfdl_value::Value;
use json::Writer;
use std::alloc::{AllocError, Global};

// Whether an element with this content has elements in it.
pub(crate) fn has_elements(content: Content) -> bool
    ensures { result ≡ values.has_elements content }
{
    match content {
        Content::Complex => true,
        Content::Begun => true,
        _ => false,
    }
}

// Writes the value of an element that has no elements in it.
pub(crate) fn write_simple(
    alloc: Global,
    out: &mut Writer,
    text: &[u8],
    content: Content,
) -> Result<(), AllocError>
    requires { HasText text.now content }
    ensures { OnOk result ((entries : Members) → values.has_elements content ≡ false
        → Adds out.old out.new (data_tokens (data_of text.now content entries))) }
{
    match content {
        Content::Signed(number) => out.string(itoa::Buffer::new().format(number)),
        Content::Unsigned(number) => out.string(itoa::Buffer::new().format(number)),
        Content::Decimal(number) => write_decimal(alloc, out, number),
        Content::Truth(truth) => out.string(if truth { "true" } else { "false" }),
        Content::Text { from, len } => write_text(out, bytes_at(text, from, len)),
        Content::Octets { from, len } => write_octets(alloc, out, bytes_at(text, from, len)),
        Content::Nil => out.null(),
        Content::Complex => Ok(()),
        Content::Begun => Ok(()),
    }
}

// Writes the bytes of a string.
fn write_text(out: &mut Writer, bytes: &[u8]) -> Result<(), AllocError>
    requires { IsUtf8 bytes.now }
    ensures { OnOk result (Adds out.old out.new (string bytes.now ∷ [])) }
{
    match str::from_utf8(bytes) {
        Ok(text) => out.string(text),
        Err(_) => unreachable!(),
    }
}

// Writes the bytes of a hexBinary.
fn write_octets(alloc: Global, out: &mut Writer, bytes: &[u8]) -> Result<(), AllocError>
    ensures { OnOk result (Adds out.old out.new (string (text_of (Value.Bytes bytes.now)) ∷ [])) }
{
    let digits = hex::encode_upper(alloc, bytes)?;
    out.string(digits.as_str())
}

// Writes a decimal.
fn write_decimal(alloc: Global, out: &mut Writer, number: Fixed) -> Result<(), AllocError>
    ensures { OnOk result (Adds out.old out.new (string (text_of (Value.Dec number)) ∷ [])) }
{
    let text = Value::Dec(number).text(alloc)?;
    out.string(text.as_str())
}

// So many bytes of a text from one on.
pub(crate) fn bytes_at(text: &[u8], from: u32, len: u32) -> &[u8]
    requires { from + len ≤ length text.now }
    ensures { result.now ≡ part_of text.now from len }
{
    let from = from as usize;
    &text[from..from + len as usize]
}
