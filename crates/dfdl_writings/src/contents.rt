// What the value of a simple element is written as in text.
ghost use Rattle.std.specs.Prelude.{◌≡◌, ◌*◌, List, [], IfOk, IsSome, Ok, Some, None};
ghost use Rattle.std.specs.Option.{ok_or};
ghost use Rattle.dfdl_chars.specs.Encodings.{encoded_text};
ghost use Rattle.dfdl_delims.specs.Lists.{Opened};
ghost use Rattle.dfdl_delims.specs.Opening.{Opens};
ghost use Rattle.dfdl_escapes.specs.Written.{written};
ghost use Rattle.dfdl_terms.specs.Rows.{IsTextForm, IsTextSize};
ghost use Rattle.dfdl_writings.specs.Contents.{bits_of, content, content_of, escaped, fitted, laid, value_bits};
ghost use Rattle.dfdl_writings.specs.Prefixes.{unended_room};
ghost use Rattle.dfdl_writings.specs.Rooms.{IsRoom};
ghost use Rattle.dfdl_writings.specs.declared.fault.Unwritten.TheVariants.{Escape};

use crate::characters::characters_of;
use crate::cuts::kept;
use crate::encoding::encoded;
use crate::fault::Unwritten;
use crate::form::{Room, Written};
use crate::octets::bits_in;
use crate::paddings::padded;
use dfdl_delims::OpenLists;
use dfdl_escapes::escape;
use dfdl_escapes::refusal::Refusal;
use dfdl_forms::{CharList, Encoding, EscapeKind, EscapeScheme};
use dfdl_terms::{TextForm, TextSize, WritingForm};
use dfdl_value::Value;
use std::alloc::{AllocError, Global};

// Characters padded and filled in their room.
fn laid(
    alloc: Global,
    writing: &WritingForm,
    form: &TextForm,
    room: Room,
    characters: &[char],
) -> Result<Result<Written, Unwritten>, AllocError>
    requires { IsRoom room }
    ensures { IfOk result (λ told. told ≡ laid writing.now form.now room (Ok characters.now)) }
{
    let Some(bytes) = encoded(alloc, form.encoding, characters)? else {
        return Ok(Err(Unwritten::NotInEncoding));
    };
    Ok(Ok(padded(
        alloc,
        form.encoding,
        &form.pad,
        room,
        writing.least,
        characters.len(),
        bytes,
    )?))
}

// Characters cut to their room, padded and filled.
fn fitted(
    alloc: Global,
    writing: &WritingForm,
    form: &TextForm,
    room: Room,
    characters: CharList,
) -> Result<Result<Written, Unwritten>, AllocError>
    requires { IsRoom room }
    ensures { IfOk result (λ told. told ≡ fitted writing.now form.now room (Ok characters)) }
{
    match kept(alloc, form, room, characters)? {
        Ok(left) => laid(alloc, writing, form, room, left.as_slice()),
        Err(cause) => Ok(Err(cause)),
    }
}

// Characters that the encoding has, with an escape scheme.
fn escaped_by(
    alloc: Global,
    scheme: &EscapeScheme,
    encoding: Encoding,
    lists: OpenLists<'_>,
    characters: &[char],
) -> Result<Result<CharList, Unwritten>, AllocError>
    requires { IsSome (encoded_text encoding characters.now) }
    ensures { IfOk result (λ told. (opened : List Opened) → Opens lists.entry opened → told ≡ ok_or (written scheme.now encoding opened characters.now) Escape) }
{
    let mut into = Vec::new(alloc);
    match escape(scheme, encoding, lists, characters, alloc, &mut into) {
        Ok(()) => Ok(Ok(CharList::new(into))),
        Err(Refusal::Impossible) => Ok(Err(Unwritten::Escape)),
        Err(Refusal::NoSuchChar) => unreachable!(),
        Err(Refusal::OutOfMemory) => Err(AllocError),
    }
}

// Delimited characters, which are escaped where there is a scheme.
fn escaped_if(
    alloc: Global,
    scheme: &EscapeScheme,
    encoding: Encoding,
    lists: OpenLists<'_>,
    characters: CharList,
) -> Result<Result<CharList, Unwritten>, AllocError>
    requires { IsSome (encoded_text encoding characters) }
    ensures { IfOk result (λ told. (opened : List Opened) → Opens lists.entry opened → told ≡ ok_or (written scheme.now encoding opened characters) Escape) }
{
    match scheme.kind {
        EscapeKind::Absent => Ok(Ok(characters)),
        EscapeKind::Character | EscapeKind::Block => {
            escaped_by(alloc, scheme, encoding, lists, characters.as_slice())
        }
    }
}

// The characters of a text in its room, escaped.
fn escaped(
    alloc: Global,
    scheme: &EscapeScheme,
    encoding: Encoding,
    room: Room,
    lists: OpenLists<'_>,
    characters: CharList,
) -> Result<Result<CharList, Unwritten>, AllocError>
    requires { IsSome (encoded_text encoding characters) }
    ensures { IfOk result (λ told. (opened : List Opened) → Opens lists.entry opened → told ≡ escaped scheme.now encoding room opened characters) }
{
    match room {
        Room::Bits(_) | Room::Characters(_) | Room::Open => Ok(Ok(characters)),
        Room::Delimited => escaped_if(alloc, scheme, encoding, lists, characters),
    }
}

// What characters are written as that the encoding has.
fn held(
    alloc: Global,
    writing: &WritingForm,
    form: &TextForm,
    room: Room,
    lists: OpenLists<'_>,
    characters: CharList,
) -> Result<Result<Written, Unwritten>, AllocError>
    requires room { IsRoom room }
    requires encoded { IsSome (encoded_text form.now.encoding characters) }
    ensures { IfOk result (λ told. (opened : List Opened) → Opens lists.entry opened
        → told ≡ fitted writing.now form.now room (escaped writing.now.scheme form.now.encoding room opened characters)) }
{
    match escaped(
        alloc,
        &writing.scheme,
        form.encoding,
        room,
        lists,
        characters,
    )? {
        Ok(characters) => fitted(alloc, writing, form, room, characters),
        Err(cause) => Ok(Err(cause)),
    }
}

// What characters are written as.
fn content_of(
    alloc: Global,
    writing: &WritingForm,
    form: &TextForm,
    room: Room,
    lists: OpenLists<'_>,
    characters: CharList,
) -> Result<Result<Written, Unwritten>, AllocError>
    requires { IsRoom room }
    ensures { IfOk result (λ told. (opened : List Opened) → Opens lists.entry opened
        → told ≡ content_of writing.now form.now room opened (Ok characters)) }
{
    match encoded(alloc, form.encoding, characters.as_slice())? {
        Some(_) => held(alloc, writing, form, room, lists, characters),
        None => Ok(Err(Unwritten::NotInEncoding)),
    }
}

/// What a value is written as.
pub(crate) fn content(
    alloc: Global,
    writing: &WritingForm,
    form: &TextForm,
    room: Room,
    lists: OpenLists<'_>,
    value: &Value,
) -> Result<Result<Written, Unwritten>, AllocError>
    requires room { IsRoom room }
    requires form { IsTextForm form.now }
    ensures { IfOk result (λ told. (opened : List Opened) → Opens lists.entry opened
        → told ≡ content writing.now form.now room opened value.now) }
{
    match characters_of(alloc, form.encoding, room, &form.content, value)? {
        Ok(characters) => content_of(alloc, writing, form, room, lists, characters),
        Err(cause) => Ok(Err(cause)),
    }
}

// The room of a text of this size that no markup ends.
fn unended_room(size: TextSize) -> Room
    ensures room { result ≡ unended_room size }
    ensures bounded { IsTextSize size → IsRoom result }
{
    match size {
        TextSize::Bits(bits) => Room::Bits(bits),
        TextSize::Characters(count) => Room::Characters(count),
        TextSize::Delimited(_) => Room::Open,
    }
}

// What characters are written as that no markup ends.
fn unescaped(
    alloc: Global,
    writing: &WritingForm,
    form: &TextForm,
    characters: CharList,
) -> Result<Result<Written, Unwritten>, AllocError>
    requires { IsTextForm form.now }
    ensures { IfOk result (λ told. told ≡ content_of writing.now form.now (unended_room form.now.size) [] (Ok characters)) }
{
    match encoded(alloc, form.encoding, characters.as_slice())? {
        Some(_) => fitted(alloc, writing, form, unended_room(form.size), characters),
        None => Ok(Err(Unwritten::NotInEncoding)),
    }
}

/// What a value is written as in the box of its form. No markup ends it, so it isn't escaped.
pub(crate) fn unended(
    alloc: Global,
    writing: &WritingForm,
    form: &TextForm,
    value: &Value,
) -> Result<Result<Written, Unwritten>, AllocError>
    requires { IsTextForm form.now }
    ensures { IfOk result (λ told. told ≡ content writing.now form.now (unended_room form.now.size) [] value.now) }
{
    let room = unended_room(form.size);
    match characters_of(alloc, form.encoding, room, &form.content, value)? {
        Ok(characters) => unescaped(alloc, writing, form, characters),
        Err(cause) => Ok(Err(cause)),
    }
}

// How many bits characters have.
fn bits_of(
    alloc: Global,
    encoding: Encoding,
    characters: &[char],
) -> Result<Result<u64, Unwritten>, AllocError>
    ensures { IfOk result (λ told. told ≡ bits_of (encoded_text encoding characters.now)) }
{
    match encoded(alloc, encoding, characters)? {
        Some(bytes) => Ok(Ok(bits_in(bytes.as_slice())?)),
        None => Ok(Err(Unwritten::NotInEncoding)),
    }
}

/// How many bits the characters of a value have.
pub(crate) fn value_bits(
    alloc: Global,
    form: &TextForm,
    room: Room,
    value: &Value,
) -> Result<Result<u64, Unwritten>, AllocError>
    requires { IsTextForm form.now }
    ensures { IfOk result (λ told. told ≡ value_bits form.now room value.now) }
{
    match characters_of(alloc, form.encoding, room, &form.content, value)? {
        Ok(characters) => bits_of(alloc, form.encoding, characters.as_slice()),
        Err(cause) => Ok(Err(cause)),
    }
}
