// What is kept of characters in a room.
ghost use Rattle.std.specs.Prelude.{◌≡◌, ◌≤◌, ◌<◌, ◌+◌, ◌*◌, ◌-◌, IfOk, length, drop, reverse, true};
ghost use Rattle.dfdl_writings.specs.Cuts.{cause_of_length, cut_to, from_side, front_count, is_cut, kept, place_for};

use crate::fault::Unwritten;
use crate::form::Room;
use dfdl_chars::width_in;
use dfdl_forms::{CharList, Encoding, Justify, PadForm};
use dfdl_terms::{TextContent, TextForm};
use dfdl_text_string::cut;
use std::alloc::{AllocError, Global};

// How many characters fit in so many bits, from the first one on.
fn front_count(encoding: Encoding, bits: u64, characters: &[char]) -> usize
    ensures value { result ≡ front_count encoding bits characters.now }
    ensures few { result ≤ length characters.now }
{
    let mut left = bits;
    for at in 0..characters.len() {
        let width = 8 * width_in(encoding, characters[at]) as u64;
        if width > left {
            return at;
        }
        left -= width;
    }
    characters.len()
}

fn reversed(alloc: Global, characters: &[char]) -> Result<Vec<char>, AllocError>
    ensures { IfOk result (λ v. v.items ≡ reverse characters.now) }
{
    let mut all = Vec::from_slice(alloc, characters)?;
    all.as_mut_slice().reverse();
    Ok(all)
}

// How many characters fit in so many bits, from the side on at which they are kept.
fn count_in_bits(
    alloc: Global,
    encoding: Encoding,
    justify: Justify,
    bits: u64,
    characters: &[char],
) -> Result<usize, AllocError>
    ensures { IfOk result (λ count. count ≡ front_count encoding bits (from_side justify characters.now)) }
{
    match justify {
        Justify::Left | Justify::Center => Ok(front_count(encoding, bits, characters)),
        Justify::Right => {
            let all = reversed(alloc, characters)?;
            Ok(front_count(encoding, bits, all.as_slice()))
        }
    }
}

// How many characters the room has place for.
fn place_for(
    alloc: Global,
    encoding: Encoding,
    justify: Justify,
    room: Room,
    characters: &[char],
) -> Result<u64, AllocError>
    ensures { IfOk result (λ count. count ≡ place_for encoding justify room characters.now) }
{
    match room {
        Room::Bits(bits) => {
            Ok(count_in_bits(alloc, encoding, justify, bits, characters)? as u64)
        }
        Room::Characters(count) => Ok(count),
        Room::Open | Room::Delimited => Ok(characters.len() as u64),
    }
}

fn is_cut(content: &TextContent, truncate: bool) -> bool
    ensures { result ≡ is_cut content.now truncate }
{
    match content {
        TextContent::Plain => truncate,
        TextContent::Octets => false,
        TextContent::Number { .. } => false,
        TextContent::Zoned(_) => false,
        TextContent::Truth(_) => false,
        TextContent::Nil(_) => false,
    }
}

fn cause_of_length(content: &TextContent) -> Unwritten
    ensures { result ≡ cause_of_length content.now }
{
    match content {
        TextContent::Plain => Unwritten::TooLong,
        TextContent::Octets => Unwritten::TooLong,
        TextContent::Number { .. } => Unwritten::TextForm,
        TextContent::Zoned(_) => Unwritten::TextForm,
        TextContent::Truth(_) => Unwritten::Boolean,
        TextContent::Nil(_) => Unwritten::TooLong,
    }
}

// The first or the last characters of a text that is cut, so many.
fn cut_to(
    alloc: Global,
    pad: &PadForm,
    count: usize,
    characters: &[char],
) -> Result<CharList, AllocError>
    requires fewer { count < length characters.now }
    requires cut { pad.now.truncate ≡ true }
    ensures { IfOk result (λ list. list ≡ cut_to pad.now.justify count characters.now) }
{
    let Ok((begin, end)) = cut(pad, characters.len(), count) else {
        unreachable!()
    };
    Ok(CharList::new(Vec::from_slice(alloc, &characters[begin..end])?))
}

// What is kept of characters in a room.
pub(crate) fn kept(
    alloc: Global,
    form: &TextForm,
    room: Room,
    characters: CharList,
) -> Result<Result<CharList, Unwritten>, AllocError>
    ensures { IfOk result (λ told. told ≡ kept form.now room characters) }
{
    let place = place_for(
        alloc,
        form.encoding,
        form.pad.justify,
        room,
        characters.as_slice(),
    )?;
    if characters.len() as u64 <= place {
        return Ok(Ok(characters));
    }
    if !is_cut(&form.content, form.pad.truncate) {
        return Ok(Err(cause_of_length(&form.content)));
    }
    Ok(Ok(cut_to(alloc, &form.pad, place as usize, characters.as_slice())?))
}
