// The pieces from the first awaited one on.
ghost use Rattle.std.specs.Prelude.{◌≡◌, ◌↔◌, ℕ, IsTrue, List, ◌+◌, ◌-◌, ◌*◌, ◌^◌, ◌<◌, ◌≤◌, Option, [], ◌∷◌, ◌++◌, None, length, drop, IfOk, vec_capacity};
ghost use Rattle.dfdl_splice.specs.Bits.{bits_from};
ghost use Rattle.dfdl_splice.specs.Splicing.{filled, IsAwaited, known_bits};
ghost use Rattle.dfdl_splice.specs.Entries.{slots, stretch_of, bits_in, AreWithin, Rising};
ghost use Rattle.dfdl_splice.specs.Tables.{IsSound, Keeps, IsAwaitedAt, stretch_in};

use crate::buffer::Buffer;
use crate::entry::{Entry, begins_known, ends_known, find};
use crate::pack::pack;
use dfdl_forms::BitOrder;
use std::alloc::{AllocError, Global};
use std::mem;

/// The entries of pieces in the order of their numbers, those before the head left out, and the bits of those that are put.
#[derive(Drop)]
pub(crate) struct Table {
    pub(crate) entries: Vec<Entry>,
    pub(crate) head: usize,
    pub(crate) arena: Buffer,
    /// as large as the arena, and of use only while the entries are written anew
    pub(crate) spare: Buffer,
    /// the number of the next piece
    pub(crate) next: u32,
    /// how many pieces count
    pub(crate) runs: usize,
}

impl Table {
    /// No pieces, with the memory for so many entries, and for so many bytes twice. No other call takes memory.
    pub(crate) fn open(
        alloc: Global,
        entries: usize,
        room: u64,
        order: BitOrder,
    ) -> Result<Table, AllocError>
        requires { room < 2 ^ 40 }
        ensures sound { IfOk result (λ table. IsSound table) }
        ensures empty { IfOk result (λ table. stretch_in table ≡ record { known = None; awaited = [] }) }
        ensures next { IfOk result (λ table. table.next ≡ 0) }
        ensures order { IfOk result (λ table. table.arena.order ≡ order) }
        ensures room { IfOk result (λ table. table.arena.room ≡ room) }
        ensures capacity { IfOk result (λ table. entries ≤ vec_capacity table.entries) }
    {
        Ok(Table {
            entries: Vec::with_capacity(alloc, entries)?,
            head: 0,
            arena: Buffer::open(alloc, room, order)?,
            spare: Buffer::open(alloc, room, order)?,
            next: 0,
            runs: 0,
        })
    }

    /// One more piece that is awaited, behind the others.
    pub(crate) fn push(&mut self, bits: Option<u64>)
        requires sound { IsSound self.old }
        requires few { self.old.runs < vec_capacity self.old.entries }
        requires numbers { self.old.next < 2 ^ 32 - 1 }
        ensures sound { IsSound self.new }
        ensures stretch { stretch_in self.new ≡ record (stretch_in self.old) {
          awaited = (stretch_in self.old).awaited ++ record { piece = self.old.next; bits = bits; behind = None } ∷ [];
        } }
        ensures next { self.new.next ≡ self.old.next + 1 }
        ensures order { self.new.arena.order ≡ self.old.arena.order }
        ensures room { self.new.arena.room ≡ self.old.arena.room }
        ensures capacity { vec_capacity self.old.entries ≤ vec_capacity self.new.entries }
    {
        self.make_place();
        let entry = Entry::Awaits {
            piece: self.next,
            bits,
        };
        push_entry(&mut self.entries, entry);
        self.next += 1;
        self.runs += 1;
    }

    /// Whether the piece of this number is awaited, and so many bits fit it.
    pub(crate) fn awaits(&self, piece: u32, count: u64) -> bool
        requires { IsSound self.now }
        ensures { IsTrue result ↔ IsAwaited piece count (stretch_in self.now).awaited }
    {
        awaits_in(&self.entries[self.head..], piece, count)
    }

    /// Puts the bits of a piece, the first `count` ones of some bytes.
    pub(crate) fn put(&mut self, piece: u32, bytes: &[u8], count: u64)
        requires sound { IsSound self.old }
        requires awaited { IsAwaited piece count (stretch_in self.old).awaited }
        requires inside { count ≤ 8 * length bytes.now }
        requires room { bits_in (stretch_in self.old) + count ≤ 8 * self.old.arena.room }
        ensures sound { IsSound self.new }
        ensures stretch { stretch_in self.new ≡ filled piece (bits_from self.old.arena.order bytes.now 0 count)
            (stretch_in self.old).known (stretch_in self.old).awaited }
        ensures bits { bits_in (stretch_in self.new) ≡ bits_in (stretch_in self.old) + count }
        ensures next { self.new.next ≡ self.old.next }
        ensures order { self.new.arena.order ≡ self.old.arena.order }
        ensures room { self.new.arena.room ≡ self.old.arena.room }
        ensures capacity { vec_capacity self.old.entries ≤ vec_capacity self.new.entries }
    {
        self.make_room(count);
        let at = self.head + find(&self.entries[self.head..], piece);
        self.fill(at, bytes, count);
    }

    // Puts the bits of the piece of an entry.
    fn fill(&mut self, at: usize, bytes: &[u8], count: u64)
        requires sound { IsSound self.old }
        requires inside { count ≤ 8 * length bytes.now }
        requires room { bits_in (stretch_in self.old) + count ≤ 8 * self.old.arena.room }
        requires place { length self.old.arena.bits + count ≤ 8 * self.old.arena.room }
        requires within { at < length self.old.entries.items }
        requires awaited { (piece : ℕ) × IsAwaitedAt self.old at piece }
        ensures sound { IsSound self.new }
        ensures stretch { (piece : ℕ) → IsAwaitedAt self.old at piece
            → stretch_in self.new ≡ filled piece (bits_from self.old.arena.order bytes.now 0 count) (stretch_in self.old).known (stretch_in self.old).awaited }
        ensures bits { bits_in (stretch_in self.new) ≡ bits_in (stretch_in self.old) + count }
        ensures next { self.new.next ≡ self.old.next }
        ensures order { self.new.arena.order ≡ self.old.arena.order }
        ensures room { self.new.arena.room ≡ self.old.arena.room }
        ensures capacity { vec_capacity self.old.entries ≤ vec_capacity self.new.entries }
    {
        let joins = ends_known(&self.entries[self.head..at])
            + begins_known(&self.entries[at + 1..]);
        let piece = self.entries[at].piece();
        let begin = self.arena.len();
        self.arena.append(bytes, 0, count);
        self.entries[at] = Entry::Known {
            piece,
            begin,
            count,
        };
        self.runs -= joins;
    }

    /// Puts the bits before the first awaited piece behind those of another buffer.
    pub(crate) fn take_lead(&mut self, front: &mut Buffer)
        requires sound { IsSound self.old }
        requires order { self.old.arena.order ≡ front.old.order }
        requires room { length front.old.bits + length (known_bits (stretch_in self.old).known) ≤ 8 * front.old.room }
        ensures sound { IsSound self.new }
        ensures stretch { stretch_in self.new ≡ record { known = None; awaited = (stretch_in self.old).awaited } }
        ensures front { front.new ≡ record front.old { bits = front.old.bits ++ known_bits (stretch_in self.old).known } }
        ensures next { self.new.next ≡ self.old.next }
        ensures order { self.new.arena.order ≡ self.old.arena.order }
        ensures room { self.new.arena.room ≡ self.old.arena.room }
        ensures capacity { vec_capacity self.old.entries ≤ vec_capacity self.new.entries }
    {
        self.runs -= begins_known(&self.entries[self.head..]);
        self.head = move_lead(&self.entries, self.head, &self.arena, front);
    }

    // Makes a place for one more entry.
    fn make_place(&mut self)
        requires sound { IsSound self.old }
        requires few { self.old.runs < vec_capacity self.old.entries }
        ensures keeps { Keeps self.old self.new }
        ensures place { length self.new.entries.items < vec_capacity self.new.entries }
    {
        if self.entries.len() >= self.entries.capacity() {
            self.pack();
        }
    }

    // Makes room for so many bits.
    fn make_room(&mut self, count: u64)
        requires sound { IsSound self.old }
        requires room { bits_in (stretch_in self.old) + count ≤ 8 * self.old.arena.room }
        ensures keeps { Keeps self.old self.new }
        ensures place { length self.new.arena.bits + count ≤ 8 * self.new.arena.room }
    {
        if count > self.arena.left() {
            self.pack();
        }
    }

    // Writes the entries anew, as few as there can be.
    fn pack(&mut self)
        requires { IsSound self.old }
        ensures keeps { Keeps self.old self.new }
        ensures entries { length self.new.entries.items ≡ self.new.runs }
        ensures bits { length self.new.arena.bits ≡ bits_in (stretch_in self.old) }
    {
        self.spare.clear();
        pack(&mut self.entries, self.head, &self.arena, &mut self.spare);
        self.head = 0;
        mem::swap(&mut self.arena, &mut self.spare);
    }
}

// Whether the piece of this number is awaited at one of the entries, and so many bits fit it.
fn awaits_in(entries: &[Entry], piece: u32, count: u64) -> bool
    requires { (next : ℕ) × Rising 0 entries.now next }
    ensures { (bits : List ℕ) → IsTrue result ↔ IsAwaited piece count (stretch_of (slots bits entries.now)).awaited }
{
    let at = find(entries, piece);
    if at >= entries.len() {
        return false;
    }
    entries[at].awaits(piece, count)
}

// Puts the bits of the entries from the head on that have some behind those of another buffer, and answers the place of the first
// one that has none.
fn move_lead(entries: &[Entry], head: usize, arena: &Buffer, front: &mut Buffer) -> usize
    requires head { head ≤ length entries.now }
    requires within { AreWithin (length arena.now.bits) (drop head entries.now) }
    requires order { arena.now.order ≡ front.old.order }
    requires room { length front.old.bits + length (known_bits (stretch_of (slots arena.now.bits (drop head entries.now))).known) ≤ 8 * front.old.room }
    ensures behind { head ≤ result }
    ensures inside { result ≤ length entries.now }
    ensures stretch { stretch_of (slots arena.now.bits (drop result entries.now))
        ≡ record { known = None; awaited = (stretch_of (slots arena.now.bits (drop head entries.now))).awaited } }
    ensures front { front.new ≡ record front.old {
      bits = front.old.bits ++ known_bits (stretch_of (slots arena.now.bits (drop head entries.now))).known;
    } }
{
    for at in head..entries.len() {
        match entries[at] {
            Entry::Awaits { .. } => return at,
            Entry::Known { begin, count, .. } => front.append_from(arena, begin, count),
        }
    }
    entries.len()
}

// Puts an entry behind those of a list that has room for it.
fn push_entry(entries: &mut Vec<Entry>, entry: Entry)
    requires { length entries.old.items < vec_capacity entries.old }
    ensures items { entries.new.items ≡ entries.old.items ++ entry ∷ [] }
    ensures capacity { vec_capacity entries.old ≤ vec_capacity entries.new }
{
    match entries.push(entry) {
        Ok(()) => (),
        Err(_) => unreachable!(),
    }
}
