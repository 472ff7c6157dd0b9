// What an initiator, terminator or separator is written as.
ghost use Rattle.std.specs.Prelude.{◌≡◌, IfOk};
ghost use Rattle.dfdl_writings.specs.Delimiters.{delimiter};

use crate::fault::Unwritten;
use crate::form::Written;
use crate::literal::{first_literal, literal_bytes};
use crate::octets::bits_in;
use dfdl_terms::Delimiters;
use std::alloc::{AllocError, Global};

/// The first literal of a list, with this line break for `%NL;`.
pub(crate) fn delimiter(
    alloc: Global,
    new_line: &[char],
    delimiters: &Delimiters,
) -> Result<Result<Written, Unwritten>, AllocError>
    ensures { IfOk result (λ told. told ≡ delimiter new_line.now delimiters.now) }
{
    let pieces = first_literal(&delimiters.literals);
    match literal_bytes(alloc, delimiters.encoding, new_line, pieces)? {
        Some(bytes) => {
            let bits = bits_in(bytes.as_slice())?;
            Ok(Ok(Written {
                bytes,
                bits,
                fill: 0,
            }))
        }
        None => Ok(Err(Unwritten::NotInEncoding)),
    }
}
