// The number in the nibbles of a field.
ghost use Rattle.std.specs.Prelude.{◌≡◌, ◌<◌, ◌≤◌, length};
ghost use Rattle.dfdl_packed.specs.Packed.{strict_sign, lax_sign, sign_of, some_digits, packed_number, ibm_number, number_by};
ghost use Rattle.dfdl_packed.specs.Sizes.{ShowsSigned};

use crate::size::{SignedSize, size_of};
use dfdl_forms::{PackedForm, PackedRep};

/// The number that the nibbles of a field write.
pub fn number_of(nibbles: &[u8], form: &PackedForm) -> Option<SignedSize>
    requires { 1 ≤ length nibbles.now }
    ensures { ShowsSigned result (number_by form.now.rep form.now nibbles.now) }
{
    match form.rep {
        PackedRep::Packed => packed(nibbles, form),
        PackedRep::Bcd => some(false, nibbles),
        PackedRep::Ibm4690 => ibm(nibbles),
    }
}

fn packed(nibbles: &[u8], form: &PackedForm) -> Option<SignedSize>
    requires { 1 ≤ length nibbles.now }
    ensures { ShowsSigned result (packed_number form.now nibbles.now) }
{
    let last = nibbles.len() - 1;
    let size = size_of(&nibbles[..last])?;
    let negative = sign(form, size.is_zero(), nibbles[last])?;
    Some(SignedSize { negative, size })
}

fn ibm(nibbles: &[u8]) -> Option<SignedSize>
    ensures { ShowsSigned result (ibm_number nibbles.now) }
{
    let mut rest = nibbles;
    while let [15, behind @ ..] = rest {
        rest = behind;
    }
    match rest {
        [13, digits @ ..] => some(true, digits),
        digits => some(false, digits),
    }
}

// At least one digit.
fn some(negative: bool, digits: &[u8]) -> Option<SignedSize>
    ensures { ShowsSigned result (some_digits negative digits.now) }
{
    if digits.is_empty() {
        return None;
    }
    let size = size_of(digits)?;
    Some(SignedSize { negative, size })
}

fn sign(form: &PackedForm, is_zero: bool, nibble: u8) -> Option<bool>
    ensures { result ≡ sign_of form.now is_zero nibble }
{
    if form.strict {
        strict(&form.codes, is_zero, nibble)
    } else {
        lax(is_zero, nibble)
    }
}

fn strict(codes: &[u8; 4], is_zero: bool, nibble: u8) -> Option<bool>
    ensures { result ≡ strict_sign codes.now is_zero nibble }
{
    if nibble == codes[0] || nibble == codes[2] {
        Some(false)
    } else if nibble == codes[1] {
        Some(true)
    } else if nibble == codes[3] && is_zero {
        Some(false)
    } else {
        None
    }
}

fn lax(is_zero: bool, nibble: u8) -> Option<bool>
    ensures { result ≡ lax_sign is_zero nibble }
{
    match nibble {
        10 | 12 | 14 | 15 => Some(false),
        11 | 13 => Some(true),
        0 if is_zero => Some(false),
        _ => None,
    }
}
