// What nil is written as.
ghost use Rattle.std.specs.Prelude.{◌≡◌, ◌*◌, ◌/◌, ◌≤◌, ℕ, [], ◌∷◌, IfOk, Some, length};
ghost use Rattle.dfdl_chars.specs.Encodings.{encoded_of};
ghost use Rattle.dfdl_terms.specs.Rows.{most_length};
ghost use Rattle.dfdl_writings.specs.Nils.{as_many, by_literals, characters_in, is_over, nil_bits, nil_bytes, nil_character, nil_content, nil_literal, nil_octets};
ghost use Rattle.dfdl_writings.specs.Paddings.{repeated};
ghost use Rattle.dfdl_writings.specs.Rooms.{IsRoom};

use crate::fault::Unwritten;
use crate::form::{Room, Written};
use crate::literal::{first_literal, literal_bytes, literal_count};
use crate::octets::bits_in;
use crate::paddings::{character_bytes, filled, padded, put_repeated};
use dfdl_forms::{Encoding, Justify, Literals, PadForm};
use dfdl_terms::{NilForm, NilOctets, NilTexts, WritingForm};
use dfdl_value::ByteValue;
use std::alloc::{AllocError, Global};

// Whether so many characters and bits are longer than their room.
fn is_over(room: Room, count: usize, bits: u64) -> bool
    ensures { (size : ℕ) → bits ≡ 8 * size → result ≡ is_over room count size }
{
    match room {
        Room::Bits(most) => most < bits,
        Room::Characters(most) => most < count as u64,
        Room::Open | Room::Delimited => false,
    }
}

// So many characters of nil with these bytes, padded and filled.
fn fitted(
    alloc: Global,
    nil: &NilForm,
    pad: &PadForm,
    room: Room,
    least: u64,
    count: usize,
    bytes: ByteValue,
) -> Result<Result<Written, Unwritten>, AllocError>
    requires { IsRoom room }
    ensures { IfOk result (λ told. told ≡ nil_literal nil.now pad.now room least count (Some bytes)) }
{
    if is_over(room, count, bits_in(bytes.as_slice())?) {
        return Ok(Err(Unwritten::TooLong));
    }
    Ok(Ok(padded(alloc, nil.encoding, pad, room, least, count, bytes)?))
}

// The first literal of a list, padded and filled.
fn by_literals(
    alloc: Global,
    nil: &NilForm,
    literals: &Literals,
    pad: &PadForm,
    writing: &WritingForm,
    room: Room,
) -> Result<Result<Written, Unwritten>, AllocError>
    requires { IsRoom room }
    ensures { IfOk result (λ told. told ≡ by_literals writing.now nil.now pad.now room literals.now) }
{
    let new_line = writing.new_line.as_slice();
    let pieces = first_literal(literals);
    let count = literal_count(new_line, pieces)?;
    match literal_bytes(alloc, nil.encoding, new_line, pieces)? {
        Some(bytes) => fitted(alloc, nil, pad, room, writing.least, count, bytes),
        None => Ok(Err(Unwritten::NotInEncoding)),
    }
}

// How many characters of so many bytes fill a room, or how many times a byte.
fn as_many(room: Room, width: usize) -> u64
    requires some { 1 ≤ width }
    requires few { width ≤ 4 }
    ensures { result ≡ as_many room width }
{
    match room {
        Room::Bits(most) => most / (8 * width as u64),
        Room::Characters(most) => most,
        Room::Open | Room::Delimited => 1,
    }
}

fn repeated(alloc: Global, times: u64, bytes: &[u8]) -> Result<ByteValue, AllocError>
    ensures { IfOk result (λ all. all ≡ repeated times bytes.now) }
{
    let mut all = Vec::new(alloc);
    put_repeated(&mut all, times, bytes)?;
    Ok(ByteValue::from_vec(all))
}

// The bytes of as many of a character as its room holds, if the encoding has the character.
fn characters_in(
    alloc: Global,
    encoding: Encoding,
    room: Room,
    c: char,
) -> Result<Option<ByteValue>, AllocError>
    ensures { IfOk result (λ all. all ≡ characters_in room (encoded_of encoding c)) }
{
    let Some(bytes) = character_bytes(alloc, encoding, c)? else {
        return Ok(None);
    };
    let one = bytes.as_slice();
    Ok(Some(repeated(alloc, as_many(room, one.len()), one)?))
}

// The bytes of as many of a byte as its room holds.
fn bytes_in(alloc: Global, room: Room, b: u8) -> Result<Option<ByteValue>, AllocError>
    ensures { IfOk result (λ all. all ≡ characters_in room (Some (b ∷ []))) }
{
    Ok(Some(repeated(alloc, as_many(room, 1), &[b])?))
}

// As many of these bytes, which are those of a character or a byte alone, as their room holds.
fn as_often(
    alloc: Global,
    nil: &NilForm,
    one: &[u8],
    room: Room,
) -> Result<Result<Written, Unwritten>, AllocError>
    requires room { IsRoom room }
    requires some { 1 ≤ length one.now }
    requires few { length one.now ≤ 4 }
    ensures { IfOk result (λ told. told ≡ nil_character nil.now room (Some one.now)) }
{
    let count = as_many(room, one.len());
    let all = repeated(alloc, count, one)?;
    Ok(Ok(filled(nil.encoding, room, count, all)?))
}

// As many of a character as its room holds.
fn by_character(
    alloc: Global,
    nil: &NilForm,
    c: char,
    room: Room,
) -> Result<Result<Written, Unwritten>, AllocError>
    requires { IsRoom room }
    ensures { IfOk result (λ told. told ≡ nil_character nil.now room (encoded_of nil.now.encoding c)) }
{
    let Some(bytes) = character_bytes(alloc, nil.encoding, c)? else {
        return Ok(Err(Unwritten::NotInEncoding));
    };
    as_often(alloc, nil, bytes.as_slice(), room)
}

// As many of a byte as its room holds.
fn by_byte(
    alloc: Global,
    nil: &NilForm,
    b: u8,
    room: Room,
) -> Result<Result<Written, Unwritten>, AllocError>
    requires { IsRoom room }
    ensures { IfOk result (λ told. told ≡ nil_character nil.now room (Some (b ∷ []))) }
{
    as_often(alloc, nil, &[b], room)
}

/// What nil is written as.
pub(crate) fn nil_content(
    alloc: Global,
    nil: &NilForm,
    pad: &PadForm,
    writing: &WritingForm,
    room: Room,
) -> Result<Result<Written, Unwritten>, AllocError>
    requires { IsRoom room }
    ensures { IfOk result (λ told. told ≡ nil_content writing.now nil.now pad.now room) }
{
    match &nil.texts {
        NilTexts::Literals(literals) => by_literals(alloc, nil, literals, pad, writing, room),
        NilTexts::Character(c) => by_character(alloc, nil, *c, room),
        NilTexts::Byte(b) => by_byte(alloc, nil, *b, room),
    }
}

/// What nil is written as in a box of bytes.
pub(crate) fn nil_octets(
    alloc: Global,
    form: &NilOctets,
    writing: &WritingForm,
) -> Result<Result<Written, Unwritten>, AllocError>
    requires { form.now.octets.bits ≤ most_length }
    ensures { IfOk result (λ told. told ≡ nil_octets writing.now form.now) }
{
    let pad = PadForm {
        justify: Justify::Left,
        pad: None,
        trim: None,
        truncate: false,
        keeps_zero: false,
    };
    nil_content(
        alloc,
        &form.nil,
        &pad,
        writing,
        Room::Bits(form.octets.bits),
    )
}

fn nil_bytes(
    alloc: Global,
    nil: &NilForm,
    writing: &WritingForm,
    room: Room,
) -> Result<Option<ByteValue>, AllocError>
    ensures { IfOk result (λ bytes. bytes ≡ nil_bytes writing.now nil.now.encoding room nil.now.texts) }
{
    match &nil.texts {
        NilTexts::Literals(literals) => literal_bytes(
            alloc,
            nil.encoding,
            writing.new_line.as_slice(),
            first_literal(literals),
        ),
        NilTexts::Character(c) => characters_in(alloc, nil.encoding, room, *c),
        NilTexts::Byte(b) => bytes_in(alloc, room, *b),
    }
}

/// How many bits nil has without pad characters.
pub(crate) fn nil_bits(
    alloc: Global,
    nil: &NilForm,
    writing: &WritingForm,
    room: Room,
) -> Result<Result<u64, Unwritten>, AllocError>
    ensures { IfOk result (λ told. told ≡ nil_bits writing.now nil.now room) }
{
    match nil_bytes(alloc, nil, writing, room)? {
        Some(bytes) => Ok(Ok(bits_in(bytes.as_slice())?)),
        None => Ok(Err(Unwritten::NotInEncoding)),
    }
}
