// The number of a range of bits, read by whole bytes.
ghost use Rattle.std.specs.Prelude.{◌≡◌, ◌+◌, ◌*◌, ◌/◌, ◌%◌, ◌^◌, ◌<◌, ◌≤◌, length};
ghost use Rattle.dfdl_bits.specs.Bits.{number_of};
ghost use Rattle.dfdl_forms.specs.declared.order.BitOrder.TheVariants.{MostFirst, LeastFirst};
ghost use Rattle.dfdl_forms.specs.declared.order.ByteOrder.TheVariants.{Big, Little};

use crate::word::{load_16, load_32, load_64, low_bits, regrouped, whole_order};
use dfdl_forms::{BitOrder, ByteOrder};

/// The number of the `len` bits of the data that begin at bit `bit`.
#[tactic(auto, using(crate::proofs::Numbers::number_below))]
pub fn number_at(bytes: &[u8], bit: u64, len: u32, bytes_by: ByteOrder, bits_by: BitOrder) -> u128
    requires few { len ≤ 128 }
    requires inside { bit + len ≤ 8 * length bytes.now }
    ensures number { result ≡ number_of bytes.now bit len bytes_by bits_by }
    ensures below { result < 2 ^ len }
{
    if len <= 64 {
        return u128::from(number_at_64(bytes, bit, len, bytes_by, bits_by));
    }
    wide_at(bytes, bit, len, bytes_by, bits_by)
}

/// The number of at most 64 bits that begin at bit `bit`, without arithmetic in 128 bits. Whole numbers of 8, 16, 32
/// and 64 bits that begin with a byte are read by one load.
#[tactic(auto, using(crate::proofs::Numbers::number_below))]
pub fn number_at_64(bytes: &[u8], bit: u64, len: u32, bytes_by: ByteOrder, bits_by: BitOrder) -> u64
    requires few { len ≤ 64 }
    requires inside { bit + len ≤ 8 * length bytes.now }
    ensures number { result ≡ number_of bytes.now bit len bytes_by bits_by }
    ensures below { result < 2 ^ len }
{
    let first = (bit / 8) as usize;
    if bit % 8 == 0 {
        let order = whole_order(bytes_by, bits_by);
        match len {
            8 => return u64::from(bytes[first]),
            16 => return u64::from(load_16(bytes, first, order)),
            32 => return u64::from(load_32(bytes, first, order)),
            64 => return load_64(bytes, first, order),
            _ => (),
        }
    }
    if len == 0 {
        return 0;
    }
    let skip = (bit % 8) as u32;
    if skip + len <= 64 && bytes.len() - first >= 8 {
        return in_word(bytes, first, skip, len, bytes_by, bits_by);
    }
    wide_at(bytes, bit, len, bytes_by, bits_by) as u64
}

// A range that lies in eight bytes of the data from its first one on.
fn in_word(
    bytes: &[u8],
    first: usize,
    skip: u32,
    len: u32,
    bytes_by: ByteOrder,
    bits_by: BitOrder,
) -> u64
    requires skip { skip + len ≤ 64 }
    requires some { 0 < len }
    requires room { first + 8 ≤ length bytes.now }
    ensures { result ≡ number_of bytes.now (8 * first + skip) len bytes_by bits_by }
{
    match bits_by {
        BitOrder::LeastFirst => low_bits(load_64(bytes, first, ByteOrder::Little) >> skip, len),
        BitOrder::MostFirst => {
            let word = load_64(bytes, first, ByteOrder::Big);
            let number = low_bits(word >> (64 - skip - len), len);
            match bytes_by {
                ByteOrder::Big => number,
                ByteOrder::Little => regrouped(number, len),
            }
        }
    }
}

// Of any length.
#[tactic(auto, using(crate::proofs::Numbers::number_below))]
fn wide_at(bytes: &[u8], bit: u64, len: u32, bytes_by: ByteOrder, bits_by: BitOrder) -> u128
    requires few { len ≤ 128 }
    requires some { 0 < len }
    requires inside { bit + len ≤ 8 * length bytes.now }
    ensures number { result ≡ number_of bytes.now bit len bytes_by bits_by }
    ensures below { result < 2 ^ len }
{
    let first = (bit / 8) as usize;
    let skip = (bit % 8) as u32;
    match bits_by {
        BitOrder::LeastFirst => rising(bytes, first, skip, len),
        BitOrder::MostFirst => match bytes_by {
            ByteOrder::Big => falling(bytes, first, skip, len),
            ByteOrder::Little if skip == 0 && len % 8 == 0 => whole(bytes, first, len),
            ByteOrder::Little => grouped(bytes, first, skip, len),
        },
    }
}

/// Nibble `at` of those that begin at bit `bit`: the number of its four bits.
#[tactic(auto, using(crate::proofs::Numbers::number_below))]
pub fn nibble_at(bytes: &[u8], bit: u64, at: u32, bits_by: BitOrder) -> u8
    requires { bit + 4 * at + 4 ≤ 8 * length bytes.now }
    ensures number { result ≡ number_of bytes.now (bit + 4 * at) 4 Big bits_by }
    ensures below { result < 16 }
{
    let skip = (bit % 8) as u32 + at % 2 * 4;
    let first = (bit / 8) as usize + (at / 2 + skip / 8) as usize;
    match bits_by {
        BitOrder::LeastFirst => rising(bytes, first, skip % 8, 4) as u8,
        BitOrder::MostFirst => falling(bytes, first, skip % 8, 4) as u8,
    }
}

// Most significant bit first, big endian.
fn falling(bytes: &[u8], first: usize, skip: u32, len: u32) -> u128
    requires some { 0 < len }
    requires few { len ≤ 128 }
    requires skip { skip < 8 }
    requires inside { 8 * first + skip + len ≤ 8 * length bytes.now }
    ensures { result ≡ number_of bytes.now (8 * first + skip) len Big MostFirst }
{
    let spanned = skip + len;
    if spanned <= 8 {
        return u128::from(cut(bytes[first], 8 - spanned, len));
    }
    let last = first + (spanned / 8) as usize;
    let mut number = u128::from(cut(bytes[first], 0, 8 - skip));
    for byte in &bytes[first + 1..last] {
        number = number << 8 | u128::from(*byte);
    }
    let rest = spanned % 8;
    if rest == 0 {
        return number;
    }
    number << rest | u128::from(cut(bytes[last], 8 - rest, rest))
}

// Least significant bit first.
fn rising(bytes: &[u8], first: usize, skip: u32, len: u32) -> u128
    requires some { 0 < len }
    requires few { len ≤ 128 }
    requires skip { skip < 8 }
    requires inside { 8 * first + skip + len ≤ 8 * length bytes.now }
    ensures { result ≡ number_of bytes.now (8 * first + skip) len Little LeastFirst }
{
    let spanned = skip + len;
    if spanned <= 8 {
        return u128::from(cut(bytes[first], skip, len));
    }
    let last = first + (spanned / 8) as usize;
    let mut number = u128::from(cut(bytes[first], skip, 8 - skip));
    let mut read = 8 - skip;
    for byte in &bytes[first + 1..last] {
        number |= u128::from(*byte) << read;
        read += 8;
    }
    let rest = spanned % 8;
    if rest == 0 {
        return number;
    }
    number | u128::from(cut(bytes[last], 0, rest)) << read
}

// Most significant bit first, little endian: group after group of eight bits.
fn grouped(bytes: &[u8], first: usize, skip: u32, len: u32) -> u128
    requires few { len ≤ 128 }
    requires skip { skip < 8 }
    requires inside { 8 * first + skip + len ≤ 8 * length bytes.now }
    ensures { result ≡ number_of bytes.now (8 * first + skip) len Little MostFirst }
{
    let groups = len / 8;
    let mut number = 0;
    for group in 0..groups {
        number |= falling(bytes, first + group as usize, skip, 8) << (8 * group);
    }
    let rest = len % 8;
    if rest == 0 {
        return number;
    }
    number | falling(bytes, first + groups as usize, skip, rest) << (8 * groups)
}

// Whole bytes, little endian.
fn whole(bytes: &[u8], first: usize, len: u32) -> u128
    requires some { 0 < len }
    requires few { len ≤ 128 }
    requires whole { len % 8 ≡ 0 }
    requires inside { 8 * first + len ≤ 8 * length bytes.now }
    ensures { result ≡ number_of bytes.now (8 * first) len Little MostFirst }
{
    rising(bytes, first, 0, len)
}

// The bits of a byte from the place `low` on, `len` of them, counted from the least significant.
fn cut(byte: u8, low: u32, len: u32) -> u8
    requires { low + len ≤ 8 }
    ensures value { result ≡ byte / 2 ^ low % 2 ^ len }
    ensures below { result < 2 ^ len }
{
    (u32::from(byte) >> low & ((1 << len) - 1)) as u8
}
