// A buffer of bits.
ghost use Rattle.std.specs.Prelude.{◌≡◌, ◌+◌, ◌-◌, ◌*◌, ◌/◌, ◌^◌, ◌<◌, ◌≤◌, [], ◌∷◌, ◌++◌, length, take, drop, All, IfOk, vec_len, vec_capacity};
ghost use Rattle.dfdl_splice.specs.Bits.{bits_from};
ghost use Rattle.dfdl_splice.specs.Copying.{Buffered, Copies};
ghost use Rattle.dfdl_splice.specs.Splicing.{one_if_any};

use crate::copy::copy_bits;
use dfdl_forms::BitOrder;
use std::alloc::{AllocError, Global};
use std::marker::Model;

/// Bits that stand together from the first byte on, in at most so many bytes, whose memory is taken at opening.
#[derive(Drop)]
pub(crate) struct Buffer {
    bytes: Vec<u8>,
    len: u64,
    order: BitOrder,
    room: u64,
}

impl Model for Buffer {
    ghost use Rattle.std.specs.Prelude.{◌+◌, ◌*◌, ◌^◌, ◌<◌, ◌≤◌, length, vec_capacity};
    ghost use Rattle.dfdl_splice.specs.Bits.{bits_from};
    ghost use Rattle.dfdl_splice.specs.Copying.{Buffered};

    ghost Value = { Buffered };

    ghost view = { λ b. record { bits = bits_from b.order b.bytes.items 0 b.len; order = b.order; room = b.room } };

    ghost invariant = { λ b. (b.len ≤ 8 * length b.bytes.items) × (8 * length b.bytes.items < b.len + 8)
        × (b.len ≤ 8 * b.room) × (b.room ≤ vec_capacity b.bytes) × (b.room < 2 ^ 40) };
}

impl Buffer {
    /// No bits, with the memory for `room` bytes. No other call takes memory.
    pub(crate) fn open(alloc: Global, room: u64, order: BitOrder) -> Result<Buffer, AllocError>
        requires { room < 2 ^ 40 }
        ensures { IfOk result (λ buffer. buffer ≡ record { bits = []; order = order; room = room }) }
    {
        Ok(Buffer {
            bytes: Vec::with_capacity(alloc, room as usize)?,
            len: 0,
            order,
            room,
        })
    }

    /// How many bits there are.
    pub(crate) fn len(&self) -> u64
        ensures len { result ≡ length self.now.bits }
        ensures few { result ≤ 8 * self.now.room }
    {
        self.len
    }

    /// 1 where there are bits.
    pub(crate) fn any(&self) -> usize
        ensures { result ≡ one_if_any self.now.bits }
    {
        if self.len() == 0 {
            return 0;
        }
        1
    }

    /// For how many more bits there is room.
    pub(crate) fn left(&self) -> u64
        ensures { length self.now.bits + result ≡ 8 * self.now.room }
    {
        8 * self.room - self.len
    }

    /// Puts `count` bits from bit `begin` of `from` on behind the others.
    pub(crate) fn append(&mut self, from: &[u8], begin: u64, count: u64)
        requires inside { begin + count ≤ 8 * length from.now }
        requires fits { begin + count < 2 ^ 64 }
        requires room { length self.old.bits + count ≤ 8 * self.old.room }
        ensures { self.new ≡ record self.old { bits = self.old.bits ++ bits_from self.old.order from.now begin count } }
    {
        let len = self.len + count;
        grow(&mut self.bytes, ((len + 7) / 8) as usize);
        let order = self.order;
        copy_into(&mut self.bytes, self.len, from, begin, count, order);
        self.len = len;
    }

    /// Puts `count` bits from bit `begin` of another buffer on behind the others.
    pub(crate) fn append_from(&mut self, from: &Buffer, begin: u64, count: u64)
        requires order { from.now.order ≡ self.old.order }
        requires inside { begin + count ≤ length from.now.bits }
        requires room { length self.old.bits + count ≤ 8 * self.old.room }
        ensures { self.new ≡ record self.old { bits = self.old.bits ++ take count (drop begin from.now.bits) } }
    {
        self.append(&from.bytes, begin, count);
    }

    /// The whole bytes.
    pub(crate) fn whole(&self) -> &[u8]
        ensures bits { bits_from self.now.order result.now 0 (8 * (length self.now.bits / 8))
            ≡ take (8 * (length self.now.bits / 8)) self.now.bits }
        ensures len { length result.now ≡ length self.now.bits / 8 }
        ensures bytes { All (λ byte. byte < 256) result.now }
    {
        part(&self.bytes, (self.len / 8) as usize)
    }

    /// Takes the whole bytes away.
    pub(crate) fn drop_whole(&mut self)
        ensures { self.new ≡ record self.old { bits = drop (8 * (length self.old.bits / 8)) self.old.bits } }
    {
        slide(&mut self.bytes, (self.len / 8) as usize);
        self.len %= 8;
    }

    /// Takes all bits away.
    pub(crate) fn clear(&mut self)
        ensures { self.new ≡ record self.old { bits = [] } }
    {
        self.bytes.clear();
        self.len = 0;
    }
}

// The first bytes.
fn part(bytes: &[u8], count: usize) -> &[u8]
    requires { count ≤ length bytes.now }
    ensures value { result.now ≡ take count bytes.now }
    ensures bytes { All (λ byte. byte < 256) result.now }
{
    &bytes[..count]
}

// Gives up the bytes before a place.
fn slide(bytes: &mut Vec<u8>, start: usize)
    requires { start ≤ vec_len bytes.old }
    ensures items { bytes.new.items ≡ drop start bytes.old.items }
    ensures capacity { vec_capacity bytes.new ≡ vec_capacity bytes.old }
{
    let kept = bytes.len() - start;
    bytes.copy_within(start.., 0);
    bytes.truncate(kept);
}

// Copies bits over those of a list of bytes.
fn copy_into(bytes: &mut Vec<u8>, at: u64, from: &[u8], begin: u64, count: u64, order: BitOrder)
    requires room { at + count ≤ 8 * length bytes.old.items }
    requires inside { begin + count ≤ 8 * length from.now }
    requires to_fits { at + count < 2 ^ 64 }
    requires from_fits { begin + count < 2 ^ 64 }
    ensures copies { Copies order bytes.old.items bytes.new.items at from.now begin count }
    ensures len { length bytes.new.items ≡ length bytes.old.items }
    ensures capacity { vec_capacity bytes.new ≡ vec_capacity bytes.old }
{
    copy_bits(bytes.as_mut_slice(), at, from, begin, count, order);
}

// Puts bytes behind the others, until there are so many.
fn grow(bytes: &mut Vec<u8>, len: usize)
    requires more { vec_len bytes.old ≤ len }
    requires room { len ≤ vec_capacity bytes.old }
    ensures len { length bytes.new.items ≡ len }
    ensures kept { take (length bytes.old.items) bytes.new.items ≡ bytes.old.items }
    ensures capacity { vec_capacity bytes.old ≤ vec_capacity bytes.new }
{
    while bytes.len() < len {
        push_byte(bytes);
    }
}

// Puts a byte behind those of a list that has room for it.
fn push_byte(bytes: &mut Vec<u8>)
    requires { vec_len bytes.old < vec_capacity bytes.old }
    ensures items { bytes.new.items ≡ bytes.old.items ++ 0 ∷ [] }
    ensures capacity { vec_capacity bytes.old ≤ vec_capacity bytes.new }
{
    match bytes.push(0) {
        Ok(()) => (),
        Err(_) => unreachable!(),
    }
}
