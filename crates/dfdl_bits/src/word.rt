// Numbers of two, four and eight whole bytes, and the bits of a word of 64.
ghost use Rattle.std.specs.Prelude.{ℕ, List, ◌⊎◌, ◌++◌, take, drop, ◌≡◌, ◌↔◌, IsTrue, ◌+◌, ◌*◌, ◌/◌, ◌%◌, ◌^◌, ◌<◌, ◌≤◌, length};
ghost use Rattle.dfdl_bits.specs.Bits.{number_of, Puts};
ghost use Rattle.dfdl_bits.specs.Words.{IsWord};
ghost use Rattle.dfdl_forms.specs.declared.order.BitOrder.TheVariants.{MostFirst};
ghost use Rattle.dfdl_forms.specs.declared.order.ByteOrder.TheVariants.{Big, Little};

use dfdl_forms::{BitOrder, ByteOrder};

// The order of whole bytes. Under the least significant bit first they are little endian, whatever the byte order.
pub(crate) fn whole_order(bytes_by: ByteOrder, bits_by: BitOrder) -> ByteOrder
    ensures { (bytes : List ℕ) (first count : ℕ)
        → number_of bytes (8 * first) (8 * count) result MostFirst ≡ number_of bytes (8 * first) (8 * count) bytes_by bits_by }
{
    match bits_by {
        BitOrder::MostFirst => bytes_by,
        BitOrder::LeastFirst => ByteOrder::Little,
    }
}

pub(crate) fn load_16(bytes: &[u8], first: usize, order: ByteOrder) -> u16
    requires { first + 2 ≤ length bytes.now }
    ensures { result ≡ number_of bytes.now (8 * first) 16 order MostFirst }
{
    let word = [bytes[first], bytes[first + 1]];
    match order {
        ByteOrder::Big => u16::from_be_bytes(word),
        ByteOrder::Little => u16::from_le_bytes(word),
    }
}

pub(crate) fn load_32(bytes: &[u8], first: usize, order: ByteOrder) -> u32
    requires { first + 4 ≤ length bytes.now }
    ensures { result ≡ number_of bytes.now (8 * first) 32 order MostFirst }
{
    let word = [
        bytes[first],
        bytes[first + 1],
        bytes[first + 2],
        bytes[first + 3],
    ];
    match order {
        ByteOrder::Big => u32::from_be_bytes(word),
        ByteOrder::Little => u32::from_le_bytes(word),
    }
}

pub(crate) fn load_64(bytes: &[u8], first: usize, order: ByteOrder) -> u64
    requires { first + 8 ≤ length bytes.now }
    ensures { result ≡ number_of bytes.now (8 * first) 64 order MostFirst }
{
    let word = [
        bytes[first],
        bytes[first + 1],
        bytes[first + 2],
        bytes[first + 3],
        bytes[first + 4],
        bytes[first + 5],
        bytes[first + 6],
        bytes[first + 7],
    ];
    match order {
        ByteOrder::Big => u64::from_be_bytes(word),
        ByteOrder::Little => u64::from_le_bytes(word),
    }
}

// The `len` least significant bits.
pub(crate) fn low_bits(value: u64, len: u32) -> u64
    requires { len ≤ 64 }
    ensures { result ≡ value % 2 ^ len }
{
    if len == 64 {
        return value;
    }
    value & ((1 << len) - 1)
}

// The number of the same `len` bits in little endian, of that in big endian.
pub(crate) fn regrouped(number: u64, len: u32) -> u64
    requires some { 0 < len }
    requires few { len ≤ 64 }
    ensures { (bytes : List ℕ) (bit : ℕ) → number ≡ number_of bytes bit len Big MostFirst
        → result ≡ number_of bytes bit len Little MostFirst }
{
    let bytes = (number << (64 - len)).to_be_bytes();
    let groups = len / 8;
    let word = low_bits(u64::from_le_bytes(bytes), 8 * groups);
    let rest = len % 8;
    if rest == 0 {
        return word;
    }
    let last = u64::from(bytes[groups as usize] >> (8 - rest));
    word | last << (8 * groups)
}

/// Whether so many bits are a whole number of 8, 16, 32 or 64 bits.
pub(crate) fn is_word(len: u32) -> bool
    ensures { IsTrue result ↔ IsWord len }
{
    matches!(len, 8 | 16 | 32 | 64)
}

// Writes a whole number of so many bits from a byte on.
pub(crate) fn store(bytes: &mut [u8], first: usize, len: u32, value: u64, order: ByteOrder)
    requires word { IsWord len }
    requires room { 8 * first + len ≤ 8 * length bytes.old }
    requires fits { value < 2 ^ len }
    ensures { Puts order MostFirst bytes.old bytes.new (8 * first) len value }
{
    match len {
        8 => write_at(bytes, first, &[value as u8]),
        16 => store_16(bytes, first, value as u16, order),
        32 => store_32(bytes, first, value as u32, order),
        _ => store_64(bytes, first, value, order),
    }
}

fn store_16(bytes: &mut [u8], first: usize, value: u16, order: ByteOrder)
    requires { first + 2 ≤ length bytes.old }
    ensures { Puts order MostFirst bytes.old bytes.new (8 * first) 16 value }
{
    match order {
        ByteOrder::Big => write_at(bytes, first, &value.to_be_bytes()),
        ByteOrder::Little => write_at(bytes, first, &value.to_le_bytes()),
    }
}

fn store_32(bytes: &mut [u8], first: usize, value: u32, order: ByteOrder)
    requires { first + 4 ≤ length bytes.old }
    ensures { Puts order MostFirst bytes.old bytes.new (8 * first) 32 value }
{
    match order {
        ByteOrder::Big => write_at(bytes, first, &value.to_be_bytes()),
        ByteOrder::Little => write_at(bytes, first, &value.to_le_bytes()),
    }
}

fn store_64(bytes: &mut [u8], first: usize, value: u64, order: ByteOrder)
    requires { first + 8 ≤ length bytes.old }
    ensures { Puts order MostFirst bytes.old bytes.new (8 * first) 64 value }
{
    match order {
        ByteOrder::Big => write_at(bytes, first, &value.to_be_bytes()),
        ByteOrder::Little => write_at(bytes, first, &value.to_le_bytes()),
    }
}

// Writes a piece over the bytes from a place on.
fn write_at(bytes: &mut [u8], first: usize, piece: &[u8])
    requires { first + length piece.now ≤ length bytes.old }
    ensures { bytes.new ≡ take first bytes.old ++ piece.now ++ drop (first + length piece.now) bytes.old }
{
    bytes[first..first + piece.len()].copy_from_slice(piece);
}
