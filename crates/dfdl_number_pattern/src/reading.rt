ghost use Rattle.std.specs.Prelude.{◌≡◌, Some, IfOk, IfErr};
ghost use Rattle.dfdl_number_pattern.specs.Pattern.{Spells};
ghost use Rattle.dfdl_forms.specs.NumberForms.{IsNumberPattern};
ghost use Rattle.dfdl_number_pattern.specs.Read.{pattern_read};
ghost use Rattle.dfdl_number_pattern.specs.Fault.{IsFaultOf, IsRefusalOf};

use crate::fault::PatternFault;
use crate::reader::Reader;
use dfdl_forms::NumberPattern;
use std::alloc::Global;

/// The pattern that the text spells.
pub fn read_pattern(alloc: Global, text: &str) -> Result<NumberPattern, PatternFault>
    ensures found { IfOk result (λ pattern. Spells pattern text.now) }
    ensures only { IfOk result (λ pattern. (other : NumberPattern) → Spells other text.now → other ≡ pattern) }
    ensures place { IfErr result (λ fault. IsFaultOf text.now fault) }
    ensures reading { IfOk result (λ pattern. pattern_read text.now ≡ Some pattern) }
    ensures refused { IfErr result (λ fault. IsRefusalOf text.now fault) }
    ensures bounded { IfOk result IsNumberPattern }
{
    let bytes = text.as_bytes();
    let mut reader = Reader::new(alloc);
    for (at, byte) in bytes.iter().enumerate() {
        if !reader.step(*byte)? {
            return Err(PatternFault::Malformed { at });
        }
    }
    if !reader.accepts() {
        return Err(PatternFault::Malformed { at: bytes.len() });
    }
    Ok(reader.finish()?)
}

#[cfg(test)]
mod tests;
