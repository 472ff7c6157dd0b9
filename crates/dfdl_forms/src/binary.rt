// Binary integers, binary decimals and binary booleans.
ghost use Rattle.std.specs.Prelude.{◌≡◌};
ghost use Rattle.dfdl_forms.specs.Binary.{most_bits, IsNumberSize, IsTruthSize};
ghost use Rattle.dfdl_forms.specs.Types.{form_of};

use crate::order::{BitOrder, ByteOrder};
use crate::simple::{Form, Simple};

/// How a binary integer or decimal lies in the data.
#[derive(Debug, Clone, Copy, PartialEq, Eq)]
pub struct IntForm {
    /// how many bits the field has
    pub bits: u32,
    pub bytes_by: ByteOrder,
    pub bits_by: BitOrder,
    /// the binaryDecimalVirtualPoint, 0 for integers
    pub point: u8,
    pub kind: Simple,
}

/// How a binary boolean lies in the data.
#[derive(Debug, Clone, Copy, PartialEq, Eq)]
pub struct BitTruthForm {
    /// how many bits the field has
    pub bits: u32,
    pub bytes_by: ByteOrder,
    pub bits_by: BitOrder,
    /// the number of true, if there is one
    pub truth: Option<u32>,
    /// the number of false
    pub falsity: u32,
}

impl IntForm {
    ghost use Rattle.std.specs.Prelude.{◌↔◌, IfSome, IsSome};
    ghost use Rattle.dfdl_forms.specs.BinaryNumbers.{IsIntForm};

    /// The form with a field of `bits` bits, if a field of its type can have so many.
    pub fn with_bits(self, bits: u64) -> Option<IntForm>
        ensures size { IsSome result ↔ IsNumberSize (form_of self.kind) bits }
        ensures bits { IfSome result (λ form. form.bits ≡ bits) }
        ensures kind { IfSome result (λ form. (form.kind ≡ self.kind) × (form.point ≡ self.point)) }
        ensures order { IfSome result (λ form. (form.bytes_by ≡ self.bytes_by)
            × (form.bits_by ≡ self.bits_by)) }
        ensures form { IsIntForm self → IfSome result IsIntForm }
    {
        if bits < 1 || bits > u64::from(most_bits(self.kind)) {
            return None;
        }
        Some(IntForm {
            bits: bits as u32,
            bytes_by: self.bytes_by,
            bits_by: self.bits_by,
            point: self.point,
            kind: self.kind,
        })
    }
}

impl BitTruthForm {
    ghost use Rattle.std.specs.Prelude.{◌↔◌, IfSome, IsSome};
    ghost use Rattle.dfdl_forms.specs.BinaryNumbers.{IsTruthForm};

    /// The form with a field of `bits` bits, if a boolean's field can have so many.
    pub fn with_bits(self, bits: u64) -> Option<BitTruthForm>
        ensures size { IsSome result ↔ IsTruthSize bits }
        ensures bits { IfSome result (λ form. form.bits ≡ bits) }
        ensures numbers { IfSome result (λ form. (form.truth ≡ self.truth)
            × (form.falsity ≡ self.falsity)) }
        ensures order { IfSome result (λ form. (form.bytes_by ≡ self.bytes_by)
            × (form.bits_by ≡ self.bits_by)) }
        ensures form { IfSome result IsTruthForm }
    {
        if bits < 1 || bits > 32 {
            return None;
        }
        Some(BitTruthForm {
            bits: bits as u32,
            bytes_by: self.bytes_by,
            bits_by: self.bits_by,
            truth: self.truth,
            falsity: self.falsity,
        })
    }
}

// How many bits the field of a number can have.
fn most_bits(kind: Simple) -> u32
    ensures { result ≡ most_bits (form_of kind) }
{
    match kind.form() {
        Form::Signed { bits } | Form::Unsigned { bits } => bits,
        Form::Fixed => 128,
        _ => 0,
    }
}
