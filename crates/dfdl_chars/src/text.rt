// The bytes of a text, of all its characters one after the other.
ghost use Rattle.std.specs.Prelude.{◌≡◌, [], ◌++◌, Some, None, IsTrue, OnOk, IsErrOf};
ghost use Rattle.std.specs.Str.{chars};
ghost use Rattle.dfdl_chars.specs.Encodings.{encoded_text, joined};

use crate::encoded::encode;
use dfdl_forms::Encoding;
use std::alloc::AllocError;
use thiserror::Error;

/// Why a text has no bytes.
#[derive(Debug, Drop, PartialEq, Eq, Error)]
pub enum TextFault {
    #[error("the encoding lacks a character of the text")]
    NoSuchChar,
    #[error("no memory is left")]
    OutOfMemory,
}

/// Puts the bytes of a text behind others. Where it fails, what stands behind those is open.
pub fn encode_run(enc: Encoding, text: &str, into: &mut Vec<u8>) -> Result<(), TextFault>
    ensures written { OnOk result (joined (Some into.old.items) (encoded_text enc (chars text.now)) ≡ Some into.new.items) }
    ensures lacks { IsErrOf result TextFault.NoSuchChar → encoded_text enc (chars text.now) ≡ None }
{
    if is_kept(enc, text) {
        return match put(text.as_bytes(), into) {
            Ok(()) => Ok(()),
            Err(_) => Err(TextFault::OutOfMemory),
        };
    }
    encode_each(enc, text, into)
}

// Whether the bytes of the text are those that it has in memory. If it is false, they may be so too.
fn is_kept(enc: Encoding, text: &str) -> bool
    ensures { IsTrue result → encoded_text enc (chars text.now) ≡ Some text.now }
{
    match enc {
        Encoding::Utf8 => true,
        Encoding::UsAscii | Encoding::Iso88591 => text.is_ascii(),
        Encoding::Utf16Be | Encoding::Utf16Le => false,
    }
}

fn put(bytes: &[u8], into: &mut Vec<u8>) -> Result<(), AllocError>
    ensures { OnOk result (into.new.items ≡ into.old.items ++ bytes.now) }
{
    into.extend_from_slice(bytes)
}

// Character by character.
fn encode_each(enc: Encoding, text: &str, into: &mut Vec<u8>) -> Result<(), TextFault>
    ensures written { OnOk result (joined (Some into.old.items) (encoded_text enc (chars text.now)) ≡ Some into.new.items) }
    ensures lacks { IsErrOf result TextFault.NoSuchChar → encoded_text enc (chars text.now) ≡ None }
{
    for c in text.chars() {
        let mut bytes = [0; 4];
        let count = match encode(enc, c, &mut bytes) {
            Ok(count) => count,
            Err(_) => return Err(TextFault::NoSuchChar),
        };
        match put(&bytes[..count], into) {
            Ok(()) => {}
            Err(_) => return Err(TextFault::OutOfMemory),
        }
    }
    Ok(())
}
