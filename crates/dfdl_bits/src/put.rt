// The number of a range of bits, written by whole bytes.
ghost use Rattle.std.specs.Prelude.{◌≡◌, ◌⊎◌, ℕ, ◌+◌, ◌*◌, ◌/◌, ◌%◌, ◌^◌, ◌<◌, ◌≤◌, List, length};
ghost use Rattle.dfdl_bits.specs.Bits.{number_of, patched, KeepsOutside, Puts};
ghost use Rattle.dfdl_bits.specs.Words.{IsWord};
ghost use Rattle.dfdl_forms.specs.declared.order.BitOrder.TheVariants.{MostFirst, LeastFirst};
ghost use Rattle.dfdl_forms.specs.declared.order.ByteOrder.{ByteOrder};
ghost use Rattle.dfdl_forms.specs.declared.order.ByteOrder.TheVariants.{Big, Little};

use crate::word::{is_word, store};
use dfdl_forms::{BitOrder, ByteOrder};

/// Makes `value` the number of the `len` bits of the data that begin at bit `bit`.
pub fn put_number(
    bytes: &mut [u8],
    bit: u64,
    len: u32,
    value: u128,
    bytes_by: ByteOrder,
    bits_by: BitOrder,
)
    requires few { len ≤ 128 }
    requires inside { bit + len ≤ 8 * length bytes.old }
    requires fits { value < 2 ^ len }
    ensures number { number_of bytes.new bit len bytes_by bits_by ≡ value }
    ensures kept { KeepsOutside bits_by bytes.old bytes.new bit len }
    // So each range before it or behind it keeps its number.
    ensures apart { (b n : ℕ) (by : ByteOrder) → (b + n ≤ bit) ⊎ (bit + len ≤ b)
        → number_of bytes.new b n by bits_by ≡ number_of bytes.old b n by bits_by }
{
    if len <= 64 {
        put_number_64(bytes, bit, len, value as u64, bytes_by, bits_by);
        return;
    }
    let first = (bit / 8) as usize;
    let skip = (bit % 8) as u32;
    put_at(bytes, first, skip, len, value, bytes_by, bits_by)
}

/// Makes `value` the number of at most 64 bits that begin at bit `bit`. Whole numbers of 8, 16, 32 and 64 bits that begin
/// with a byte are written by one store.
pub fn put_number_64(
    bytes: &mut [u8],
    bit: u64,
    len: u32,
    value: u64,
    bytes_by: ByteOrder,
    bits_by: BitOrder,
)
    requires few { len ≤ 64 }
    requires inside { bit + len ≤ 8 * length bytes.old }
    requires fits { value < 2 ^ len }
    ensures number { number_of bytes.new bit len bytes_by bits_by ≡ value }
    ensures kept { KeepsOutside bits_by bytes.old bytes.new bit len }
    // So each range before it or behind it keeps its number.
    ensures apart { (b n : ℕ) (by : ByteOrder) → (b + n ≤ bit) ⊎ (bit + len ≤ b)
        → number_of bytes.new b n by bits_by ≡ number_of bytes.old b n by bits_by }
{
    let first = (bit / 8) as usize;
    if bit % 8 == 0 && is_word(len) {
        put_word(bytes, first, len, value, bytes_by, bits_by);
        return;
    }
    if len == 0 {
        return;
    }
    let skip = (bit % 8) as u32;
    let value = u128::from(value);
    put_at(bytes, first, skip, len, value, bytes_by, bits_by)
}

/// Makes `nibble` the number of the four bits of nibble `at` of those that begin at bit `bit`.
pub fn put_nibble(bytes: &mut [u8], bit: u64, at: u32, nibble: u8, bits_by: BitOrder)
    requires inside { bit + 4 * at + 4 ≤ 8 * length bytes.old }
    requires fits { nibble < 16 }
    ensures number { number_of bytes.new (bit + 4 * at) 4 Big bits_by ≡ nibble }
    ensures kept { KeepsOutside bits_by bytes.old bytes.new (bit + 4 * at) 4 }
    // So each range before it or behind it keeps its number.
    ensures apart { (b n : ℕ) (by : ByteOrder) → (b + n ≤ bit + 4 * at) ⊎ (bit + 4 * at + 4 ≤ b)
        → number_of bytes.new b n by bits_by ≡ number_of bytes.old b n by bits_by }
{
    let skip = (bit % 8) as u32 + at % 2 * 4;
    let first = (bit / 8) as usize + (at / 2 + skip / 8) as usize;
    let value = u128::from(nibble);
    put_at(bytes, first, skip % 8, 4, value, ByteOrder::Big, bits_by)
}

/// Makes two nibbles the numbers of the first and the last four bits of byte `at` of those that begin at bit `bit`.
pub fn put_pair(bytes: &mut [u8], bit: u64, at: u32, first: u8, last: u8, bits_by: BitOrder)
    requires inside { bit + 8 * at + 8 ≤ 8 * length bytes.old }
    requires first { first < 16 }
    requires last { last < 16 }
    ensures first { number_of bytes.new (bit + 8 * at) 4 Big bits_by ≡ first }
    ensures last { number_of bytes.new (bit + 8 * at + 4) 4 Big bits_by ≡ last }
    ensures kept { KeepsOutside bits_by bytes.old bytes.new (bit + 8 * at) 8 }
    // So each range before it or behind it keeps its number.
    ensures apart { (b n : ℕ) (by : ByteOrder) → (b + n ≤ bit + 8 * at) ⊎ (bit + 8 * at + 8 ≤ b)
        → number_of bytes.new b n by bits_by ≡ number_of bytes.old b n by bits_by }
{
    let place = (bit / 8) as usize + at as usize;
    let byte = joined(first, last, bits_by);
    put_byte(bytes, place, (bit % 8) as u32, byte, bits_by)
}

// The number of eight bits of which the first four and the last four have these numbers.
fn joined(first: u8, last: u8, bits_by: BitOrder) -> u8
    requires first { first < 16 }
    requires last { last < 16 }
    ensures { (bytes : List ℕ) (bit : ℕ) → number_of bytes bit 8 Big bits_by ≡ result
        → (number_of bytes bit 4 Big bits_by ≡ first) × (number_of bytes (bit + 4) 4 Big bits_by ≡ last) }
{
    match bits_by {
        BitOrder::MostFirst => 16 * first + last,
        BitOrder::LeastFirst => first + 16 * last,
    }
}

// Eight bits from bit `skip` of byte `first` on.
fn put_byte(bytes: &mut [u8], first: usize, skip: u32, value: u8, bits_by: BitOrder)
    requires skip { skip < 8 }
    requires inside { 8 * first + skip + 8 ≤ 8 * length bytes.old }
    ensures { Puts Big bits_by bytes.old bytes.new (8 * first + skip) 8 value }
{
    if skip == 0 {
        put_word(bytes, first, 8, u64::from(value), ByteOrder::Big, bits_by);
        return;
    }
    let value = u128::from(value);
    put_at(bytes, first, skip, 8, value, ByteOrder::Big, bits_by)
}

// A whole number of 8, 16, 32 or 64 bits from a byte on. Under the least significant bit first it is little endian.
fn put_word(
    bytes: &mut [u8],
    first: usize,
    len: u32,
    value: u64,
    bytes_by: ByteOrder,
    bits_by: BitOrder,
)
    requires word { IsWord len }
    requires room { 8 * first + len ≤ 8 * length bytes.old }
    requires fits { value < 2 ^ len }
    ensures { Puts bytes_by bits_by bytes.old bytes.new (8 * first) len value }
{
    match bits_by {
        BitOrder::MostFirst => store(bytes, first, len, value, bytes_by),
        BitOrder::LeastFirst => store(bytes, first, len, value, ByteOrder::Little),
    }
}

// From bit `skip` of byte `first` on.
fn put_at(
    bytes: &mut [u8],
    first: usize,
    skip: u32,
    len: u32,
    value: u128,
    bytes_by: ByteOrder,
    bits_by: BitOrder,
)
    requires some { 0 < len }
    requires few { len ≤ 128 }
    requires skip { skip < 8 }
    requires inside { 8 * first + skip + len ≤ 8 * length bytes.old }
    requires fits { value < 2 ^ len }
    ensures { Puts bytes_by bits_by bytes.old bytes.new (8 * first + skip) len value }
{
    match bits_by {
        BitOrder::LeastFirst => put_rising(bytes, first, skip, len, value),
        BitOrder::MostFirst => match bytes_by {
            ByteOrder::Big => put_falling(bytes, first, skip, len, value),
            ByteOrder::Little if skip == 0 && len % 8 == 0 => put_whole(bytes, first, len, value),
            ByteOrder::Little => put_grouped(bytes, first, skip, len, value),
        },
    }
}

// Most significant bit first, big endian.
fn put_falling(bytes: &mut [u8], first: usize, skip: u32, len: u32, value: u128)
    requires some { 0 < len }
    requires few { len ≤ 128 }
    requires skip { skip < 8 }
    requires inside { 8 * first + skip + len ≤ 8 * length bytes.old }
    requires fits { value < 2 ^ len }
    ensures { Puts Big MostFirst bytes.old bytes.new (8 * first + skip) len value }
{
    let spanned = skip + len;
    if spanned <= 8 {
        bytes[first] = with_part(bytes[first], 8 - spanned, len, value as u8);
        return;
    }
    let last = first + (spanned / 8) as usize;
    let mut left = spanned - 8;
    bytes[first] = with_part(bytes[first], 0, 8 - skip, (value >> left) as u8);
    for at in first + 1..last {
        left -= 8;
        bytes[at] = (value >> left & 0xFF) as u8;
    }
    if left > 0 {
        let part = (value & ((1 << left) - 1)) as u8;
        bytes[last] = with_part(bytes[last], 8 - left, left, part);
    }
}

// Least significant bit first.
fn put_rising(bytes: &mut [u8], first: usize, skip: u32, len: u32, value: u128)
    requires some { 0 < len }
    requires few { len ≤ 128 }
    requires skip { skip < 8 }
    requires inside { 8 * first + skip + len ≤ 8 * length bytes.old }
    requires fits { value < 2 ^ len }
    ensures { Puts Little LeastFirst bytes.old bytes.new (8 * first + skip) len value }
{
    let spanned = skip + len;
    if spanned <= 8 {
        bytes[first] = with_part(bytes[first], skip, len, value as u8);
        return;
    }
    let last = first + (spanned / 8) as usize;
    let mut put = 8 - skip;
    let part = (value & ((1 << put) - 1)) as u8;
    bytes[first] = with_part(bytes[first], skip, put, part);
    for at in first + 1..last {
        bytes[at] = (value >> put & 0xFF) as u8;
        put += 8;
    }
    let rest = spanned % 8;
    if rest > 0 {
        bytes[last] = with_part(bytes[last], 0, rest, (value >> put) as u8);
    }
}

// Most significant bit first, little endian: group after group of eight bits.
fn put_grouped(bytes: &mut [u8], first: usize, skip: u32, len: u32, value: u128)
    requires few { len ≤ 128 }
    requires skip { skip < 8 }
    requires inside { 8 * first + skip + len ≤ 8 * length bytes.old }
    requires fits { value < 2 ^ len }
    ensures { Puts Little MostFirst bytes.old bytes.new (8 * first + skip) len value }
{
    let groups = len / 8;
    for group in 0..groups {
        let part = value >> (8 * group) & 0xFF;
        put_falling(bytes, first + group as usize, skip, 8, part);
    }
    let rest = len % 8;
    if rest > 0 {
        let part = value >> (8 * groups);
        put_falling(bytes, first + groups as usize, skip, rest, part);
    }
}

// Whole bytes, little endian.
fn put_whole(bytes: &mut [u8], first: usize, len: u32, value: u128)
    requires some { 0 < len }
    requires few { len ≤ 128 }
    requires whole { len % 8 ≡ 0 }
    requires inside { 8 * first + len ≤ 8 * length bytes.old }
    requires fits { value < 2 ^ len }
    ensures { Puts Little MostFirst bytes.old bytes.new (8 * first) len value }
{
    put_rising(bytes, first, 0, len, value)
}

// The byte with `part` in place of its bits from the place `low` on, `len` of them, counted from the least
// significant.
fn with_part(byte: u8, low: u32, len: u32, part: u8) -> u8
    requires inside { low + len ≤ 8 }
    requires fits { part < 2 ^ len }
    ensures { result ≡ patched byte low len part }
{
    let byte = u32::from(byte);
    let high = byte >> (low + len) << len | u32::from(part);
    (high << low | byte & ((1 << low) - 1)) as u8
}
