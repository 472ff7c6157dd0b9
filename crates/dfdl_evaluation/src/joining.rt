// The bits of pieces in memory, one behind the other.
ghost use Rattle.std.specs.Prelude.{◌≡◌, ◌+◌, ◌*◌, ◌/◌, ◌^◌, ◌<◌, ◌≤◌, [], ◌∷◌, IfOk, length, replicate};
ghost use Rattle.dfdl_evaluation.specs.Filling.{Fills, resized};
ghost use Rattle.dfdl_evaluation.specs.Written.{bits_shown};
ghost use Rattle.dfdl_splice.specs.Bits.{bits_from};
ghost use Rattle.dfdl_splice.specs.Copying.{Copies};

use crate::piece_bits::PieceBits;
use dfdl_forms::BitOrder;
use dfdl_splice::copy_bits;
use dfdl_value::ByteValue;
use std::alloc::{AllocError, Global};

/// Bits in memory: so many from bit 0 of the bytes on.
#[derive(Debug, Drop)]
pub struct Joined {
    pub bytes: ByteValue,
    pub bits: u64,
}

// More bits are more than there is memory for.
const MOST_BITS: u64 = 1 << 62;

// A byte nine times.
fn pattern(byte: u8) -> [u8; 9]
    ensures { result ≡ replicate 9 byte }
{
    [byte; 9]
}

// So many bytes, with zeros behind those that there are.
fn spread(alloc: Global, bytes: &[u8], size: usize) -> Result<Vec<u8>, AllocError>
    ensures { IfOk result (λ all. all.items ≡ resized size bytes.now) }
{
    let mut all = Vec::from_slice(alloc, bytes)?;
    all.resize(size, 0)?;
    Ok(all)
}

// Copies bits over those of a list of bytes.
fn copy_into(bytes: &mut Vec<u8>, at: u64, from: &[u8], begin: u64, count: u64, order: BitOrder)
    requires room { at + count ≤ 8 * length bytes.old.items }
    requires inside { begin + count ≤ 8 * length from.now }
    requires to_fits { at + count < 2 ^ 64 }
    requires from_fits { begin + count < 2 ^ 64 }
    ensures copies { Copies order bytes.old.items bytes.new.items at from.now begin count }
    ensures len { length bytes.new.items ≡ length bytes.old.items }
{
    copy_bits(bytes.as_mut_slice(), at, from, begin, count, order);
}

// Fills at most 64 bits at a place, which is such a bit of the data.
fn fill_few(bytes: &mut Vec<u8>, at: u64, fill: u8, bit: u64, count: u64, order: BitOrder)
    requires few { count ≤ 64 }
    requires room { at + count ≤ 8 * length bytes.old.items }
    requires fits { at + count < 2 ^ 64 }
    ensures fills { Fills order bytes.old.items bytes.new.items at fill bit count }
    ensures len { length bytes.new.items ≡ length bytes.old.items }
{
    let pattern = pattern(fill);
    copy_into(bytes, at, &pattern, bit % 8, count, order);
}

// Fills so many bits at a place, which is such a bit of the data.
fn put_fill(bytes: &mut Vec<u8>, at: u64, fill: u8, bit: u64, count: u64, order: BitOrder)
    requires room { at + count ≤ 8 * length bytes.old.items }
    requires fits { at + count < 2 ^ 64 }
    ensures fills { Fills order bytes.old.items bytes.new.items at fill bit count }
    ensures len { length bytes.new.items ≡ length bytes.old.items }
{
    let mut done = 0;
    while done < count {
        let some = (count - done).min(64);
        fill_few(bytes, at + done, fill, bit % 8 + done % 8, some, order);
        done += some;
    }
}

/// The bits of a piece with its fill, in memory. A caller that has room for no more than some bits tests `bits` and `fill` of the piece first.
pub fn join(alloc: Global, piece: &PieceBits, order: BitOrder) -> Result<Joined, AllocError>
    ensures bits { IfOk result (λ joined. bits_from order joined.bytes 0 joined.bits ≡ bits_shown order piece.now) }
    ensures count { IfOk result (λ joined. joined.bits ≡ piece.now.bits + piece.now.fill) }
    ensures inside { IfOk result (λ joined. joined.bits ≤ 8 * length joined.bytes) }
{
    if piece.bits > MOST_BITS || piece.fill > MOST_BITS {
        return Err(AllocError);
    }
    let bits = piece.bits + piece.fill;
    let size = (bits + 7) / 8;
    let mut bytes = spread(alloc, piece.bytes.as_slice(), size as usize)?;
    put_fill(
        &mut bytes,
        piece.bits,
        piece.fill_byte,
        piece.fill_at,
        piece.fill,
        order,
    );
    Ok(Joined {
        bytes: ByteValue::from_vec(bytes),
        bits,
    })
}
