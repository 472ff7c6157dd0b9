// The reading of a text number whose characters are bytes.
ghost use Rattle.std.specs.Prelude.{◌≡◌, ◌≤◌, ◌++◌, drop, length};
ghost use Rattle.dfdl_forms.specs.NumberForms.{IsNumberForm};
ghost use Rattle.dfdl_number_text.specs.NumberReading.{reading};

use crate::fault::NumberFault;
use crate::reading::read;
use dfdl_forms::{NumberForm, Simple};
use dfdl_value::Value;

/// At most so many bytes are read at once.
pub const MOST_BYTES: usize = 64;

fn blank() -> [char; 64]
    ensures { length result ≡ 64 }
{
    ['\0'; 64]
}

// Writes each byte as the character with its number.
fn widen(bytes: &[u8], into: &mut [char])
    requires { length bytes.now ≤ length into.old }
    ensures { into.new ≡ bytes.now ++ drop (length bytes.now) into.old }
{
    for (at, byte) in bytes.iter().enumerate() {
        into[at] = char::from(*byte);
    }
}

/// The value of a type that a text number is, of which each byte is a character: in ISO-8859-1, or where each byte is
/// below 128 in US-ASCII and UTF-8. The test of the length is against `MOST_BYTES`; longer texts go to `read`.
pub fn read_bytes(form: &NumberForm, kind: Simple, bytes: &[u8]) -> Result<Value, NumberFault>
    requires form { IsNumberForm form.now }
    requires few { length bytes.now ≤ 64 }
    ensures { result ≡ reading form.now kind bytes.now }
{
    let mut room = blank();
    widen(bytes, &mut room);
    read(form, kind, &room[..bytes.len()])
}
