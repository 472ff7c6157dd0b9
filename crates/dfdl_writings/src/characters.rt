// The characters that a value is written as.
ghost use Rattle.std.specs.Prelude.{◌≡◌, ◌≤◌, IfOk, length, vec_len};
ghost use Rattle.std.specs.Str.{chars};
ghost use Rattle.dfdl_forms.specs.NumberForms.{IsNumberForm};
ghost use Rattle.dfdl_terms.specs.Rows.{IsTextContent};
ghost use Rattle.dfdl_writings.specs.Characters.{characters, number_characters, octet_characters, plain_characters, truth_characters};
ghost use Rattle.dfdl_text_string.specs.Truths.{written_truth};

use crate::fault::Unwritten;
use crate::form::Room;
use crate::zoned::zoned_characters;
use dfdl_forms::{CharList, Encoding, NumberForm, TruthForm};
use dfdl_terms::TextContent;
use dfdl_text_string::{truth_length, write_truth};
use dfdl_value::Value;
use std::alloc::{AllocError, Global};

// So many characters, which are written over.
pub(crate) fn blank(alloc: Global, count: usize) -> Result<Vec<char>, AllocError>
    ensures { IfOk result (λ v. length v.items ≡ count) }
{
    let mut room = Vec::new(alloc);
    room.resize(count, '0')?;
    Ok(room)
}

fn letters(alloc: Global, text: &str) -> Result<Vec<char>, AllocError>
    ensures { IfOk result (λ letters. letters.items ≡ chars text.now) }
{
    text.chars().collect(alloc)
}

fn characters_in(alloc: Global, text: &str) -> Result<CharList, AllocError>
    ensures { IfOk result (λ list. list ≡ chars text.now) }
{
    Ok(CharList::new(letters(alloc, text)?))
}

// The characters that bytes are in ISO-8859-1.
fn widened(alloc: Global, bytes: &[u8]) -> Result<CharList, AllocError>
    ensures { IfOk result (λ list. list ≡ bytes.now) }
{
    let mut all = Vec::new(alloc);
    for byte in bytes {
        all.push(char::from(*byte))?;
    }
    Ok(CharList::new(all))
}

fn plain_characters(alloc: Global, value: &Value) -> Result<Result<CharList, Unwritten>, AllocError>
    ensures { IfOk result (λ told. told ≡ plain_characters value.now) }
{
    match value {
        Value::Text(text) => Ok(Ok(characters_in(alloc, text.as_str())?)),
        _ => Ok(Err(Unwritten::TextForm)),
    }
}

fn octet_characters(alloc: Global, value: &Value) -> Result<Result<CharList, Unwritten>, AllocError>
    ensures { IfOk result (λ told. told ≡ octet_characters value.now) }
{
    match value {
        Value::Bytes(bytes) => Ok(Ok(widened(alloc, bytes.as_slice())?)),
        _ => Ok(Err(Unwritten::TextForm)),
    }
}

fn number_characters(
    alloc: Global,
    form: &NumberForm,
    value: &Value,
) -> Result<Result<CharList, Unwritten>, AllocError>
    requires { IsNumberForm form.now }
    ensures { IfOk result (λ told. told ≡ number_characters form.now value.now) }
{
    let most = form.room();
    if most == usize::MAX {
        return Err(AllocError);
    }
    let mut room = blank(alloc, most)?;
    match dfdl_number_text::write(form, value, room.as_mut_slice()) {
        Ok(count) => {
            room.truncate(count);
            Ok(Ok(CharList::new(room)))
        }
        Err(_) => Ok(Err(Unwritten::TextForm)),
    }
}

fn truth_text(alloc: Global, form: &TruthForm, truth: bool) -> Result<CharList, AllocError>
    ensures { IfOk result (λ list. list ≡ written_truth form.now truth) }
{
    let mut room = blank(alloc, truth_length(form, truth))?;
    let _count = write_truth(form, truth, room.as_mut_slice());
    Ok(CharList::new(room))
}

fn truth_characters(
    alloc: Global,
    form: &TruthForm,
    value: &Value,
) -> Result<Result<CharList, Unwritten>, AllocError>
    ensures { IfOk result (λ told. told ≡ truth_characters form.now value.now) }
{
    match value {
        Value::Truth(truth) => Ok(Ok(truth_text(alloc, form, *truth)?)),
        _ => Ok(Err(Unwritten::Boolean)),
    }
}

// The characters of a value.
pub(crate) fn characters_of(
    alloc: Global,
    encoding: Encoding,
    room: Room,
    content: &TextContent,
    value: &Value,
) -> Result<Result<CharList, Unwritten>, AllocError>
    requires { IsTextContent content.now }
    ensures { IfOk result (λ told. told ≡ characters encoding room content.now value.now) }
{
    match content {
        TextContent::Plain => plain_characters(alloc, value),
        TextContent::Octets => octet_characters(alloc, value),
        TextContent::Number { form, .. } => number_characters(alloc, form, value),
        TextContent::Zoned(form) => zoned_characters(alloc, encoding, room, form, value),
        TextContent::Truth(form) => truth_characters(alloc, form, value),
        TextContent::Nil(_) => Ok(Err(Unwritten::TextForm)),
    }
}
