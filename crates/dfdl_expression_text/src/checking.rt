ghost use Rattle.std.specs.Prelude.{IfOk, IfErr};
ghost use Rattle.dfdl_expression_text.specs.Expressions.{IsExpression, IsFaultOf};

use crate::fault::ExpressionFault;
use crate::reader::Reader;
use std::alloc::Global;

/// Checks that the text is an expression of 'DFDL Expression Language' with 1,000 tokens at most.
///
/// The text is UTF-8. Each terminal of the grammar is a token, a name with its prefix is one, and `$` and its name are two.
/// `Malformed` has the number of the first byte at which no such expression can go on; it is the number of bytes where the
/// text ends too early.
pub fn check(alloc: Global, text: &str) -> Result<(), ExpressionFault>
    ensures expression { IfOk result (λ _. IsExpression text.now) }
    ensures place { IfErr result (λ fault. IsFaultOf text.now fault) }
{
    let bytes = text.as_bytes();
    let mut reader = Reader::new(alloc);
    for (at, byte) in bytes.iter().enumerate() {
        let goes_on = reader.step(*byte)?;
        if !goes_on {
            return Err(ExpressionFault::Malformed { at });
        }
    }
    let ends = reader.ends()?;
    if !ends {
        return Err(ExpressionFault::Malformed { at: bytes.len() });
    }
    Ok(())
}
