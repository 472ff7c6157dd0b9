// The digits of a zoned number, as many as its box has room for.
ghost use Rattle.std.specs.Prelude.{◌≡◌, ◌/◌, IfOk, MatchOption, ◌<◌, ◌≤◌, ◌^◌};
ghost use Rattle.dfdl_forms.specs.Packed.{IsZonedForm};
ghost use Rattle.dfdl_writings.specs.Characters.{least_digits, zoned_characters};
ghost use Rattle.dfdl_writings.specs.Rooms.{unit_bits};
ghost use Rattle.std.specs.Option.{ok_or};
ghost use Rattle.dfdl_packed.specs.Zoned.{zoned_writing};
ghost use Rattle.dfdl_writings.specs.declared.fault.Unwritten.TheVariants.{TextForm};

use crate::characters::blank;
use crate::fault::Unwritten;
use crate::form::Room;
use dfdl_forms::{CharList, Encoding, ZonedForm};
use dfdl_packed::write_zoned;
use dfdl_value::Value;
use std::alloc::{AllocError, Global};

/// How many bits one unit of an encoding has.
pub(crate) fn unit_bits(encoding: Encoding) -> u64
    ensures value { result ≡ unit_bits encoding }
    ensures some { 8 ≤ result }
    ensures few { result ≤ 16 }
{
    match encoding {
        Encoding::Utf8 | Encoding::UsAscii | Encoding::Iso88591 => 8,
        Encoding::Utf16Be | Encoding::Utf16Le => 16,
    }
}

fn least_digits(encoding: Encoding, room: Room, width: u32) -> u64
    ensures { result ≡ least_digits encoding room width }
{
    match room {
        Room::Bits(bits) => bits / unit_bits(encoding),
        Room::Characters(count) => count,
        Room::Open | Room::Delimited => u64::from(width),
    }
}

// A number written by a form as it is.
fn digits(
    alloc: Global,
    form: &ZonedForm,
    value: &Value,
) -> Result<Result<CharList, Unwritten>, AllocError>
    requires { IsZonedForm form.now }
    ensures { IfOk result (λ told. told ≡ ok_or (zoned_writing form.now value.now) TextForm) }
{
    let mut room = blank(alloc, (form.width as usize).max(80))?;
    match write_zoned(value, form, room.as_mut_slice()) {
        Ok(count) => {
            room.truncate(count);
            Ok(Ok(CharList::new(room)))
        }
        Err(_) => Ok(Err(Unwritten::TextForm)),
    }
}

// A number of at least so many digits.
fn wide(form: &ZonedForm, width: u32) -> ZonedForm
    ensures { result ≡ record form.now { width = width } }
{
    ZonedForm {
        style: form.style,
        first: form.first,
        width,
        point: form.point,
        kind: form.kind,
    }
}

// The digits of a number in a room. One of 2^32 digits or more is told as want of memory.
pub(crate) fn zoned_characters(
    alloc: Global,
    encoding: Encoding,
    room: Room,
    form: &ZonedForm,
    value: &Value,
) -> Result<Result<CharList, Unwritten>, AllocError>
    requires { IsZonedForm form.now }
    ensures { IfOk result (λ told. told ≡ zoned_characters encoding room form.now value.now) }
{
    let width = least_digits(encoding, room, form.width);
    if width > u64::from(u32::MAX) {
        return Err(AllocError);
    }
    digits(alloc, &wide(form, width as u32), value)
}
