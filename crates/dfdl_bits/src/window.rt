// A window that slides over the data while its bytes come in pieces.
ghost use Rattle.std.specs.Prelude.{◌≡◌, ◌+◌, ◌-◌, ◌*◌, ◌^◌, ◌<◌, ◌≤◌, ◌↔◌, ℕ, [], ◌++◌, true, false, length, take, drop, min, IfOk, OnErr, slice_index, All, vec_len, vec_capacity};
ghost use Rattle.dfdl_bits.specs.Window.{Held, end_of, room_of, with_more, from_byte, up_to_byte, seen_at, run_at};
ghost use Rattle.dfdl_bits.specs.ByteSets.{has_byte};
ghost use Rattle.dfdl_bits.specs.declared.window.Seen.TheVariants.{Byte};

use crate::byte_set::ByteSet;
use crate::steps::Steps;
use std::alloc::{AllocError, Global};
use std::marker::Model;
use std::sync::ledger::Ledger;

/// What a look sees.
#[derive(Debug, Clone, Copy, PartialEq, Eq, Drop)]
pub enum Seen {
    /// The byte.
    Byte(u8),
    /// The data ends before it.
    End,
    /// It hasn't come, and the end of the data wasn't told.
    NotYet,
    /// It lies as many bytes behind the base as the window's size, or more.
    Over,
}

/// The bytes of the data from a base on that have come. A look sees at most as many of them as the window's size.
///
/// They stand together at the end of a buffer of twice the size, which grows for a piece that is longer than the room. Bytes
/// that were given up stay before them until they are as many; so at most as many bytes are moved as were given up.
#[derive(Drop)]
pub struct Window {
    buffer: Vec<u8>,
    start: usize,
    size: usize,
    base: u64,
    ended: bool,
}

impl Model for Window {
    ghost use Rattle.std.specs.Prelude.{◌+◌, ◌-◌, ◌*◌, ◌^◌, ◌<◌, ◌≤◌, length, drop, vec_capacity};
    ghost use Rattle.dfdl_bits.specs.Window.{Held};

    ghost Value = { Held };

    ghost view = { λ w. record { bytes = drop w.start w.buffer.items; base = w.base; size = w.size; ended = w.ended } };

    ghost invariant = { λ w. (w.start ≤ length w.buffer.items) × (length w.buffer.items ≤ vec_capacity w.buffer)
        × (2 * w.size ≤ vec_capacity w.buffer) × (w.size < 2 ^ 32) × (w.base + (length w.buffer.items - w.start) ≤ 2 ^ 60) };
}

impl Window {
    /// A window over the front of the data, with the memory for all bytes that it can show. No call but `append_all` takes more.
    pub fn open(alloc: Global, size: u32) -> Result<Window, AllocError>
        ensures { IfOk result (λ window. window ≡ record { bytes = []; base = 0; size = size; ended = false }) }
    {
        let size = size as usize;
        Ok(Window {
            buffer: Vec::with_capacity(alloc, 2 * size)?,
            start: 0,
            size,
            base: 0,
            ended: false,
        })
    }

    /// Takes as many of the next bytes of the data as there is room for, and answers how many these are.
    pub fn append(&mut self, piece: &[u8]) -> usize
        requires going_on { self.old.ended ≡ false }
        requires bound { end_of self.old + length piece.now ≤ 2 ^ 60 }
        ensures taken { result ≡ min (length piece.now) (room_of self.old) }
        ensures held { self.new ≡ with_more self.old (take result piece.now) }
    {
        let taken = piece.len().min(self.room());
        self.start = settle(&mut self.buffer, self.start);
        extend(&mut self.buffer, &piece[..taken]);
        taken
    }

    /// Takes the next bytes of the data, all of them, with memory for those for which there is no room.
    pub fn append_all(&mut self, piece: &[u8]) -> Result<(), AllocError>
        requires going_on { self.old.ended ≡ false }
        requires bound { end_of self.old + length piece.now ≤ 2 ^ 60 }
        ensures held { IfOk result (λ _. self.new ≡ with_more self.old piece.now) }
        ensures memory { OnErr result (self.new ≡ self.old) }
    {
        self.start = settle(&mut self.buffer, self.start);
        self.buffer.extend_from_slice(piece)
    }

    /// Says that the data ends behind the bytes that have come.
    pub fn tell_end(&mut self)
        ensures { self.new ≡ record self.old { ended = true } }
    {
        self.ended = true;
    }

    /// Gives up the bytes before byte `k` of the data, which is the base then.
    pub fn drop_before(&mut self, k: u64)
        requires base { self.old.base ≤ k }
        requires end { k ≤ end_of self.old }
        ensures { self.new ≡ from_byte self.old k }
    {
        self.start += (k - self.base) as usize;
        self.base = k;
    }

    /// Gives up byte `k` of the data and those behind it, so that the next piece begins with byte `k`.
    pub fn drop_after(&mut self, k: u64)
        requires going_on { self.old.ended ≡ false }
        requires base { self.old.base ≤ k }
        requires end { k ≤ end_of self.old }
        ensures { self.new ≡ up_to_byte self.old k }
    {
        let kept = self.start + (k - self.base) as usize;
        self.buffer.truncate(kept);
    }

    /// The first byte of the data that is held.
    pub fn base(&self) -> u64
        ensures base { result ≡ self.now.base }
        ensures bound { end_of self.now ≤ 2 ^ 60 }
    {
        self.base
    }

    /// The first byte of the data that hasn't come.
    pub fn end(&self) -> u64
        ensures end { result ≡ end_of self.now }
        ensures bound { end_of self.now ≤ 2 ^ 60 }
    {
        self.base + (self.buffer.len() - self.start) as u64
    }

    /// How many bytes from the base on a look can see.
    pub fn size(&self) -> usize
        ensures size { result ≡ self.now.size }
        ensures small { result < 2 ^ 32 }
    {
        self.size
    }

    /// How many more bytes there is room for.
    pub fn room(&self) -> usize
        ensures { result ≡ room_of self.now }
    {
        self.size.saturating_sub(self.buffer.len() - self.start)
    }

    /// Whether it was told that the data ends behind the bytes that have come.
    pub fn ended(&self) -> bool
        ensures { result ≡ self.now.ended }
    {
        self.ended
    }

    /// Looks at byte `k` of the data, in one step.
    pub fn look<L: Ledger>(&self, k: u64, steps: &mut Steps<L>) -> Seen
        requires { self.now.base ≤ k }
        ensures seen { result ≡ seen_at self.now k }
        ensures over { (result ≡ Seen.Over) ↔ (self.now.size ≤ k - self.now.base) }
        ensures not_yet { (result ≡ Seen.NotYet)
            ↔ ((k - self.now.base < self.now.size) × (end_of self.now ≤ k) × (self.now.ended ≡ false)) }
        ensures cost { steps.new ≡ steps.old + 1 }
    {
        steps.tick();
        let place = k - self.base;
        if place >= self.size as u64 {
            return Seen::Over;
        }
        match self.buffer.get(self.start + place as usize) {
            Some(byte) => Seen::Byte(*byte),
            None if self.ended => Seen::End,
            None => Seen::NotYet,
        }
    }

    /// Looks at the bytes that are held from byte `k` of the data on, at most `most` of them and as far as a look sees, in as
    /// many steps as it answers bytes.
    pub fn run<L: Ledger>(&self, k: u64, most: usize, steps: &mut Steps<L>) -> &[u8]
        requires { self.now.base ≤ k }
        ensures run { result.now ≡ run_at self.now k most }
        ensures seen { (i : ℕ) → i < length result.now → seen_at self.now (k + i) ≡ Byte (slice_index result.now i) }
        ensures bytes { All (λ byte. byte < 256) result.now }
        ensures few { length result.now ≤ most }
        ensures whole { (byte : ℕ) → length result.now < most → seen_at self.now (k + length result.now) ≡ Byte byte → ⊥ }
        ensures cost { steps.new ≡ steps.old + length result.now }
    {
        let run = self.held(k, most);
        steps.add(run.len() as u64);
        run
    }

    /// Looks at the bytes of such a run that stand before the first that is `limit` or more, in as many steps as it
    /// answers bytes.
    pub fn run_below<L: Ledger>(
        &self,
        k: u64,
        most: usize,
        limit: u8,
        steps: &mut Steps<L>,
    ) -> &[u8]
        requires { self.now.base ≤ k }
        ensures seen { (i : ℕ) → i < length result.now → seen_at self.now (k + i) ≡ Byte (slice_index result.now i) }
        ensures below { All (λ byte. byte < limit) result.now }
        ensures few { length result.now ≤ most }
        ensures whole { (byte : ℕ) → length result.now < most → seen_at self.now (k + length result.now) ≡ Byte byte
            → limit ≤ byte }
        ensures cost { steps.new ≡ steps.old + length result.now }
    {
        let held = self.held(k, most);
        let count = count_below(held, limit);
        steps.add(count as u64);
        &held[..count]
    }

    /// Looks at the bytes of such a run that stand before the first that the set has, in as many steps as it answers bytes.
    pub fn run_outside<L: Ledger>(
        &self,
        k: u64,
        most: usize,
        set: &ByteSet,
        steps: &mut Steps<L>,
    ) -> &[u8]
        requires { self.now.base ≤ k }
        ensures seen { (i : ℕ) → i < length result.now → seen_at self.now (k + i) ≡ Byte (slice_index result.now i) }
        ensures bytes { All (λ byte. byte < 256) result.now }
        ensures outside { All (λ byte. has_byte set.now byte ≡ false) result.now }
        ensures few { length result.now ≤ most }
        ensures whole { (byte : ℕ) → length result.now < most → seen_at self.now (k + length result.now) ≡ Byte byte
            → has_byte set.now byte ≡ true }
        ensures cost { steps.new ≡ steps.old + length result.now }
    {
        let held = self.held(k, most);
        let count = count_outside(held, set);
        steps.add(count as u64);
        &held[..count]
    }

    // The bytes that are held from byte `k` of the data on and that a look can see, at most `most` of them.
    fn held(&self, k: u64, most: usize) -> &[u8]
        requires { self.now.base ≤ k }
        ensures run { result.now ≡ run_at self.now k most }
        ensures bytes { All (λ byte. byte < 256) result.now }
    {
        let held = self.buffer.len() - self.start;
        let place = k - self.base;
        if place >= held as u64 {
            return &[];
        }
        let place = place as usize;
        let most = most.min(self.size.saturating_sub(place));
        let count = most.min(held - place);
        part(&self.buffer, self.start + place, count)
    }
}

// So many bytes from a place on.
fn part(bytes: &[u8], from: usize, count: usize) -> &[u8]
    requires { from + count ≤ length bytes.now }
    ensures value { result.now ≡ take count (drop from bytes.now) }
    ensures bytes { All (λ byte. byte < 256) result.now }
{
    &bytes[from..from + count]
}

// How many of the bytes stand before the first that is `limit` or more.
fn count_below(bytes: &[u8], limit: u8) -> usize
    ensures within { result ≤ length bytes.now }
    ensures below { (i : ℕ) → i < result → slice_index bytes.now i < limit }
    ensures whole { result < length bytes.now → limit ≤ slice_index bytes.now result }
{
    for (at, byte) in bytes.iter().enumerate() {
        if *byte >= limit {
            return at;
        }
    }
    bytes.len()
}

// How many of the bytes stand before the first that the set has.
fn count_outside(bytes: &[u8], set: &ByteSet) -> usize
    ensures within { result ≤ length bytes.now }
    ensures outside { (i : ℕ) → i < result → has_byte set.now (slice_index bytes.now i) ≡ false }
    ensures whole { result < length bytes.now → has_byte set.now (slice_index bytes.now result) ≡ true }
{
    for (at, byte) in bytes.iter().enumerate() {
        if set.has(*byte) {
            return at;
        }
    }
    bytes.len()
}

// Moves the bytes from a place on to the front, unless fewer bytes stand before them than they are, and answers where they begin.
fn settle(buffer: &mut Vec<u8>, start: usize) -> usize
    requires { start ≤ vec_len buffer.old }
    ensures items { drop result buffer.new.items ≡ drop start buffer.old.items }
    ensures within { result + (vec_len buffer.old - start) ≡ vec_len buffer.new }
    ensures front { result + result ≤ vec_len buffer.new }
    ensures capacity { vec_capacity buffer.new ≡ vec_capacity buffer.old }
{
    if start < buffer.len() - start {
        return start;
    }
    slide(buffer, start);
    0
}

// Gives up the bytes before a place.
fn slide(buffer: &mut Vec<u8>, start: usize)
    requires { start ≤ vec_len buffer.old }
    ensures items { buffer.new.items ≡ drop start buffer.old.items }
    ensures capacity { vec_capacity buffer.new ≡ vec_capacity buffer.old }
{
    let kept = buffer.len() - start;
    buffer.copy_within(start.., 0);
    buffer.truncate(kept);
}

// Puts a piece behind the bytes of a buffer that has room for it.
fn extend(buffer: &mut Vec<u8>, piece: &[u8])
    requires { vec_len buffer.old + length piece.now ≤ vec_capacity buffer.old }
    ensures items { buffer.new.items ≡ buffer.old.items ++ piece.now }
    ensures capacity { vec_capacity buffer.old ≤ vec_capacity buffer.new }
{
    match buffer.extend_from_slice(piece) {
        Ok(()) => (),
        Err(_) => unreachable!(),
    }
}
