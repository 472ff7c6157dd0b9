// Constant lengths of binary numbers.
ghost use Rattle.std.specs.Prelude.{◌≡◌, ◌≤◌, ◌*◌, Some, is_some, codes};
ghost use Rattle.dfdl_checks.specs.Lengths as lengths;
ghost use Rattle.dfdl_scope.specs.Scoping.{told};
ghost use Rattle.dfdl_scope.specs.Shown.{chain_of};

use crate::representations::is_word;
use crate::values::is_number;
use dfdl_scope::{Asked, Component, literal, property};

/// Whether the length that a chain gives is a number.
pub(crate) fn has_constant_length(chain: &Component<'_, '_>) -> bool
    ensures { result ≡ is_some (lengths.length_in (lengths.unit_bits (told (chain_of chain.now) (codes "lengthUnits")))
        (lengths.number_told (told (chain_of chain.now) (codes "length")))) }
{
    match property(chain, "length") {
        Asked::Given(written) => is_number(literal(written)),
        Asked::Absent => false,
        Asked::Twice { .. } => false,
    }
}

/// The length in bits that a chain gives, where it is a number and a field of at most so many bits can
/// have it.
pub(crate) fn constant_size(most: u32, chain: &Component<'_, '_>) -> Option<u32>
    ensures { result ≡ lengths.size_within most (lengths.length_in (lengths.unit_bits (told (chain_of chain.now) (codes "lengthUnits")))
        (lengths.number_told (told (chain_of chain.now) (codes "length")))) }
{
    match property(chain, "length") {
        Asked::Given(written) => size_of_digits(most, unit_bits(chain), literal(written)),
        Asked::Absent => None,
        Asked::Twice { .. } => None,
    }
}

/// How many bits the units have that a chain gives.
pub(crate) fn unit_bits(chain: &Component<'_, '_>) -> u32
    ensures unit { result ≡ lengths.unit_bits (told (chain_of chain.now) (codes "lengthUnits")) }
    ensures some { 1 ≤ result }
    ensures few { result ≤ 8 }
{
    unit_of(is_word(chain, "lengthUnits", "bits"))
}

/// How many bits a unit has: a bit or a byte.
fn unit_of(is_bit: bool) -> u32
    ensures unit { result ≡ lengths.unit_of is_bit }
    ensures some { 1 ≤ result }
    ensures few { result ≤ 8 }
{
    if is_bit { 1 } else { 8 }
}

/// A number of units, in bits, where a field of at most so many bits can have this length.
fn size_of_digits(most: u32, unit: u32, text: &str) -> Option<u32>
    requires some { 1 ≤ unit }
    requires few { unit ≤ 8 }
    ensures { result ≡ lengths.size_within most (lengths.length_in unit (lengths.number_of_digits text.now)) }
{
    if !is_number(text) {
        return None;
    }
    match text.parse::<u64>() {
        Ok(number) => size_within(most, u128::from(number) * u128::from(unit)),
        Err(_) => None,
    }
}

/// A length in bits, where a field of at most so many bits can have it.
fn size_within(most: u32, bits: u128) -> Option<u32>
    ensures { result ≡ lengths.size_within most (Some bits) }
{
    if bits < 1 || bits > u128::from(most) {
        return None;
    }
    Some(bits as u32)
}
