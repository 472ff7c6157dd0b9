// The bytes of a text with pad characters around it, and the fill behind them.
ghost use Rattle.std.specs.Prelude.{◌≡◌, ℕ, Some, ◌≤◌, ◌+◌, ◌-◌, ◌*◌, ◌/◌, ◌^◌, ◌++◌, min, IfOk, IfSome, OnOk, length};
ghost use Rattle.dfdl_chars.specs.Encodings.{encoded_of};
ghost use Rattle.dfdl_text_string.specs.Padding.{missing_before};
ghost use Rattle.dfdl_writings.specs.Paddings.{fill_behind, filled, missing, pad_bytes, padded, padded_with, repeated, surrounded};
ghost use Rattle.dfdl_writings.specs.Rooms.{IsRoom};

use crate::form::{Room, Written};
use crate::octets::bits_in;
use crate::zoned::unit_bits;
use dfdl_chars::encode;
use dfdl_forms::{Encoding, Justify, PadForm};
use dfdl_value::ByteValue;
use std::alloc::{AllocError, Global};

// The bytes of a character, if the encoding has it.
pub(crate) fn character_bytes(
    alloc: Global,
    encoding: Encoding,
    c: char,
) -> Result<Option<ByteValue>, AllocError>
    ensures bytes { IfOk result (λ bytes. bytes ≡ encoded_of encoding c) }
    ensures some { IfOk result (λ told. IfSome told (λ bytes. (1 ≤ length bytes) × (length bytes ≤ 4))) }
{
    let mut room = [0; 4];
    let count = match encode(encoding, c, &mut room) {
        Ok(count) => count,
        Err(_) => return Ok(None),
    };
    Ok(Some(ByteValue::from_slice(alloc, &room[..count])?))
}

fn pad_bytes(
    alloc: Global,
    encoding: Encoding,
    pad: Option<char>,
) -> Result<Option<ByteValue>, AllocError>
    ensures bytes { IfOk result (λ bytes. bytes ≡ pad_bytes encoding pad) }
    ensures some { IfOk result (λ told. IfSome told (λ bytes. (1 ≤ length bytes) × (length bytes ≤ 4))) }
{
    match pad {
        None => Ok(None),
        Some(c) => character_bytes(alloc, encoding, c),
    }
}

// Puts the same bytes so many times behind others.
pub(crate) fn put_repeated(into: &mut Vec<u8>, times: u64, bytes: &[u8]) -> Result<(), AllocError>
    ensures { OnOk result (into.new.items ≡ into.old.items ++ repeated times bytes.now) }
{
    for at in 0..times {
        into.extend_from_slice(bytes)?;
    }
    Ok(())
}

// How many pad characters of so many bytes are missing around a text of so many characters and bits.
fn missing(room: Room, least: u64, width: usize, count: usize, bits: u64) -> u64
    requires some { 1 ≤ width }
    requires few { width ≤ 4 }
    ensures { (size : ℕ) → bits ≡ 8 * size → result ≡ missing room least width count size }
{
    match room {
        Room::Bits(most) => most.saturating_sub(bits) / (8 * width as u64),
        Room::Characters(most) => most.saturating_sub(count as u64),
        Room::Open | Room::Delimited => least.saturating_sub(count as u64),
    }
}

fn missing_before(justify: Justify, count: u64) -> u64
    ensures value { result ≡ missing_before justify count }
    ensures within { result ≤ count }
{
    match justify {
        Justify::Left => 0,
        Justify::Right => count,
        Justify::Center => count / 2,
    }
}

// So many pad characters around the bytes of a text.
fn surrounded(
    alloc: Global,
    justify: Justify,
    pad: &[u8],
    count: u64,
    bytes: &[u8],
) -> Result<ByteValue, AllocError>
    ensures { IfOk result (λ all. all ≡ surrounded justify pad.now count bytes.now) }
{
    let before = missing_before(justify, count);
    let mut all = Vec::new(alloc);
    put_repeated(&mut all, before, pad)?;
    all.extend_from_slice(bytes)?;
    put_repeated(&mut all, count - before, pad)?;
    Ok(ByteValue::from_vec(all))
}

// How many bits of fill follow so many characters and bits.
fn fill_behind(encoding: Encoding, room: Room, count: u64, bits: u64) -> u64
    requires { IsRoom room }
    ensures { (size : ℕ) → bits ≡ 8 * size → result ≡ fill_behind encoding room count size }
{
    match room {
        Room::Bits(most) => most.saturating_sub(bits),
        Room::Characters(most) => most.saturating_sub(count) * unit_bits(encoding),
        Room::Open | Room::Delimited => 0,
    }
}

// So many characters with these bytes, and fill behind them.
pub(crate) fn filled(
    encoding: Encoding,
    room: Room,
    count: u64,
    bytes: ByteValue,
) -> Result<Written, AllocError>
    requires { IsRoom room }
    ensures { IfOk result (λ w. w ≡ filled encoding room count bytes) }
{
    let bits = bits_in(bytes.as_slice())?;
    Ok(Written {
        bytes,
        bits,
        fill: fill_behind(encoding, room, count, bits),
    })
}

// How many characters there are with so many more. Of more than the greatest length it matters only that they are more.
fn together(count: usize, more: u64) -> u64
    ensures { result ≡ min (count + more) (2 ^ 64 - 1) }
{
    (count as u64).saturating_add(more)
}

// So many characters with these bytes, with this pad character around them.
fn padded_by(
    alloc: Global,
    encoding: Encoding,
    justify: Justify,
    room: Room,
    least: u64,
    count: usize,
    pad: &[u8],
    bytes: &[u8],
) -> Result<Written, AllocError>
    requires room { IsRoom room }
    requires some { 1 ≤ length pad.now }
    requires few { length pad.now ≤ 4 }
    ensures { IfOk result (λ w. w ≡ padded_with (Some pad.now) encoding justify room least count bytes.now) }
{
    let more = missing(room, least, pad.len(), count, bits_in(bytes)?);
    let all = surrounded(alloc, justify, pad, more, bytes)?;
    filled(encoding, room, together(count, more), all)
}

// So many characters with these bytes, padded and filled in a room.
pub(crate) fn padded(
    alloc: Global,
    encoding: Encoding,
    pad: &PadForm,
    room: Room,
    least: u64,
    count: usize,
    bytes: ByteValue,
) -> Result<Written, AllocError>
    requires { IsRoom room }
    ensures { IfOk result (λ w. w ≡ padded encoding pad.now room least count bytes) }
{
    match pad_bytes(alloc, encoding, pad.pad)? {
        None => filled(encoding, room, count as u64, bytes),
        Some(one) => padded_by(
            alloc,
            encoding,
            pad.justify,
            room,
            least,
            count,
            one.as_slice(),
            bytes.as_slice(),
        ),
    }
}
