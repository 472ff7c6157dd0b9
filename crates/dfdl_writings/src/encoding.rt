// The bytes of characters.
ghost use Rattle.std.specs.Prelude.{◌≡◌, None, Some, IfOk};
ghost use Rattle.dfdl_chars.specs.Encodings.{encoded_text};

use dfdl_chars::encode;
use dfdl_forms::Encoding;
use dfdl_value::ByteValue;
use std::alloc::{AllocError, Global};

// The bytes of characters one after the other; none where the encoding lacks one of them.
pub(crate) fn encoded(
    alloc: Global,
    encoding: Encoding,
    characters: &[char],
) -> Result<Option<ByteValue>, AllocError>
    ensures { IfOk result (λ bytes. bytes ≡ encoded_text encoding characters.now) }
{
    let mut bytes = Vec::new(alloc);
    for c in characters {
        let mut room = [0; 4];
        let count = match encode(encoding, *c, &mut room) {
            Ok(count) => count,
            Err(_) => return Ok(None),
        };
        bytes.extend_from_slice(&room[..count])?;
    }
    Ok(Some(ByteValue::from_vec(bytes)))
}
