// Packed decimal, BCD, IBM 4690 packed and zoned numbers.
ghost use Rattle.std.specs.Prelude.{◌≡◌, ◌≤◌};
ghost use Rattle.dfdl_forms.specs.Packed.{most_nibbles, IsPackedSize};

use crate::order::{BitOrder, ByteOrder};
use crate::simple::Simple;

/// How the digits of a packed number lie in its nibbles.
#[derive(Debug, Clone, Copy, PartialEq, Eq)]
pub enum PackedRep {
    /// digits, and a sign in the last nibble
    Packed,
    /// digits alone
    Bcd,
    /// nibbles F, then a nibble D for a negative number, then digits
    Ibm4690,
}

/// How a packed number lies in the data. The byte order plays no part.
#[derive(Debug, Clone, Copy, PartialEq, Eq)]
pub struct PackedForm {
    /// how many nibbles of four bits the field has
    pub nibbles: u32,
    pub rep: PackedRep,
    /// the sign nibbles of positive, negative, unsigned and zero numbers
    pub codes: [u8; 4],
    /// whether only these codes are read
    pub strict: bool,
    /// the binaryDecimalVirtualPoint, 0 for integers
    pub point: u8,
    pub kind: Simple,
    pub bytes_by: ByteOrder,
    pub bits_by: BitOrder,
}

/// Which characters carry the sign of a zoned number.
#[derive(Debug, Clone, Copy, PartialEq, Eq)]
pub enum ZonedStyle {
    /// `0` to `9` positive, `p` to `y` negative
    AsciiStandard,
    /// `{` and `A` to `I` positive, `}` and `J` to `R` negative
    TranslatedEbcdic,
}

/// How a zoned number is written as text.
#[derive(Debug, Clone, Copy, PartialEq, Eq)]
pub struct ZonedForm {
    pub style: ZonedStyle,
    /// whether the first digit carries the sign, and not the last
    pub first: bool,
    /// the least number of digits that are written
    pub width: u32,
    /// how many digits stand behind the virtual point of the pattern, integers among them
    pub point: u8,
    pub kind: Simple,
}

impl PackedForm {
    ghost use Rattle.std.specs.Prelude.{◌↔◌, ◌*◌, IfSome, IsSome};
    ghost use Rattle.dfdl_forms.specs.BinaryNumbers.{IsPackedForm};

    /// The form with a field of `bits` bits, if a field of its kind can have so many.
    pub fn with_bits(self, bits: u64) -> Option<PackedForm>
        ensures size { IsSome result ↔ IsPackedSize self.rep bits }
        ensures bits { IfSome result (λ form. 4 * form.nibbles ≡ bits) }
        ensures kind { IfSome result (λ form. (form.rep ≡ self.rep) × (form.kind ≡ self.kind)
            × (form.point ≡ self.point)) }
        ensures codes { IfSome result (λ form. (form.codes ≡ self.codes)
            × (form.strict ≡ self.strict)) }
        ensures order { IfSome result (λ form. (form.bytes_by ≡ self.bytes_by)
            × (form.bits_by ≡ self.bits_by)) }
        ensures form { IsPackedForm self → IfSome result IsPackedForm }
    {
        let nibbles = bits / 4;
        if bits % 4 != 0 || nibbles < 1 || nibbles > u64::from(most_nibbles(self.rep)) {
            return None;
        }
        let codes = self.codes;
        Some(PackedForm {
            nibbles: nibbles as u32,
            rep: self.rep,
            codes,
            strict: self.strict,
            point: self.point,
            kind: self.kind,
            bytes_by: self.bytes_by,
            bits_by: self.bits_by,
        })
    }
}

// How many nibbles a field can have.
fn most_nibbles(rep: PackedRep) -> u32
    ensures most { result ≡ most_nibbles rep }
    ensures few { result ≤ 39 }
{
    match rep {
        PackedRep::Bcd => 38,
        PackedRep::Packed | PackedRep::Ibm4690 => 39,
    }
}
