// The nibbles of a field.
ghost use Rattle.std.specs.Prelude.{◌≡◌, ℕ, ◌+◌, ◌*◌, ◌/◌, ◌<◌, ◌≤◌, length, take, slice_index};
ghost use Rattle.dfdl_bits.specs.Bits.{number_of, KeepsOutside};
ghost use Rattle.dfdl_forms.specs.declared.order.ByteOrder.TheVariants.{Big};
ghost use Rattle.dfdl_packed.specs.Packed.{nibbles_of};

use dfdl_bits::{BitOrder, nibble_at, put_nibble, put_pair};

/// The most nibbles that a field has.
pub const MOST: usize = 39;

/// The nibbles that begin at bit `bit`, `count` of them.
pub fn nibbles_at(bytes: &[u8], bit: u64, count: u32, bits_by: BitOrder) -> [u8; MOST]
    requires few { count ≤ 39 }
    requires inside { bit + 4 * count ≤ 8 * length bytes.now }
    ensures nibbles { take count result ≡ nibbles_of bits_by bytes.now bit count }
    ensures length { length result ≡ 39 }
{
    let mut nibbles = [0; MOST];
    for at in 0..count {
        nibbles[at as usize] = nibble_at(bytes, bit, at, bits_by);
    }
    nibbles
}

/// Writes nibbles from bit `bit` on.
pub fn put_nibbles(bytes: &mut [u8], bit: u64, nibbles: &[u8], bits_by: BitOrder)
    requires few { length nibbles.now ≤ 39 }
    requires inside { bit + 4 * length nibbles.now ≤ 8 * length bytes.old }
    requires fit { (k : ℕ) → k < length nibbles.now → slice_index nibbles.now k < 16 }
    ensures nibbles { nibbles_of bits_by bytes.new bit (length nibbles.now) ≡ nibbles.now }
    ensures kept { KeepsOutside bits_by bytes.old bytes.new bit (4 * length nibbles.now) }
{
    put_pairs(bytes, bit, nibbles, bits_by);
    let last = nibbles.len() / 2 * 2;
    if last < nibbles.len() {
        put_nibble(bytes, bit, last as u32, nibbles[last], bits_by);
    }
}

// Writes them two by two, without the last of an odd number.
fn put_pairs(bytes: &mut [u8], bit: u64, nibbles: &[u8], bits_by: BitOrder)
    requires few { length nibbles.now ≤ 39 }
    requires inside { bit + 4 * length nibbles.now ≤ 8 * length bytes.old }
    requires fit { (k : ℕ) → k < length nibbles.now → slice_index nibbles.now k < 16 }
    ensures written { (k : ℕ) → k < length nibbles.now / 2 * 2
        → number_of bytes.new (bit + 4 * k) 4 Big bits_by ≡ slice_index nibbles.now k }
    ensures kept { KeepsOutside bits_by bytes.old bytes.new bit (8 * (length nibbles.now / 2)) }
{
    for at in 0..nibbles.len() / 2 {
        put_pair(
            bytes,
            bit,
            at as u32,
            nibbles[2 * at],
            nibbles[2 * at + 1],
            bits_by,
        );
    }
}
