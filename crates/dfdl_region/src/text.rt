// The bytes of the texts and hexBinary values of one document.
ghost use Rattle.std.specs.Prelude.{◌≡◌, ◌+◌, ◌<◌, ◌≤◌, ◌↔◌, ◌++◌, [], take, length, vec_capacity, IfOk, OnOk, IsErr, OnErr, IsTrue, encode_utf8};
ghost use Rattle.dfdl_region.specs.Bytes.{bytes_at, utf8_of, with_bytes};

use crate::region::Full;
use std::alloc::{AllocError, Global};
use std::marker::Model;

/// The bytes of a document's texts, each as UTF-8, and hexBinary values, in the order in which they were read.
#[derive(Drop)]
pub struct TextRegion {
    bytes: Vec<u8>,
    most: u32,
}

impl Model for TextRegion {
    ghost use Rattle.std.specs.Prelude.{◌<◌, ◌≤◌, ◌^◌, length, vec_capacity};
    ghost use Rattle.dfdl_region.specs.Bytes.{Bytes};

    ghost Value = { Bytes };

    ghost view = { λ r. record { bytes = r.bytes.items; most = r.most } };

    ghost invariant = { λ r. (length r.bytes.items ≤ r.most) × (r.most ≤ vec_capacity r.bytes) × (r.most < 2 ^ 32) };
}

impl TextRegion {
    /// No bytes, with the memory for `most` of them. No other call takes memory.
    pub fn open(alloc: Global, most: u32) -> Result<TextRegion, AllocError>
        ensures { IfOk result (λ region. region ≡ record { bytes = []; most = most }) }
    {
        Ok(TextRegion {
            bytes: Vec::with_capacity(alloc, most as usize)?,
            most,
        })
    }

    /// Adds bytes behind the others and answers where they begin. It is `Full`, and nothing changes, exactly where there
    /// would be more than there may be.
    pub fn add(&mut self, bytes: &[u8]) -> Result<u32, Full>
        ensures from { IfOk result (λ from. from ≡ length self.old.bytes) }
        ensures added { OnOk result (self.new ≡ with_bytes self.old bytes.now) }
        ensures full { IsErr result ↔ (self.old.most < length self.old.bytes + length bytes.now) }
        ensures same { OnErr result (self.new ≡ self.old) }
    {
        let from = self.count();
        if bytes.len() > (self.most - from) as usize {
            return Err(Full);
        }
        put(&mut self.bytes, bytes);
        Ok(from)
    }

    /// Adds characters behind the others, as UTF-8, and answers where they begin. It is `Full`, and nothing changes, exactly
    /// where there would be more bytes than there may be.
    pub fn add_characters(&mut self, characters: &[char]) -> Result<u32, Full>
        ensures from { IfOk result (λ from. from ≡ length self.old.bytes) }
        ensures added { OnOk result (self.new ≡ with_bytes self.old (utf8_of characters.now)) }
        ensures full { IsErr result ↔ (self.old.most < length self.old.bytes + length (utf8_of characters.now)) }
        ensures same { OnErr result (self.new ≡ self.old) }
    {
        let from = self.count();
        if !fits(characters, (self.most - from) as usize) {
            return Err(Full);
        }
        put_characters(&mut self.bytes, characters);
        Ok(from)
    }

    /// So many bytes from one on.
    pub fn bytes(&self, from: u32, len: u32) -> &[u8]
        requires { from + len ≤ length self.now.bytes }
        ensures { result.now ≡ bytes_at self.now.bytes from len }
    {
        let from = from as usize;
        &self.bytes[from..from + len as usize]
    }

    /// How many bytes there are.
    pub fn count(&self) -> u32
        ensures count { result ≡ length self.now.bytes }
        ensures few { result ≤ self.now.most }
    {
        self.bytes.len() as u32
    }

    /// How many bytes there may be.
    pub fn most(&self) -> u32
        ensures { result ≡ self.now.most }
    {
        self.most
    }

    /// All bytes.
    pub fn all(&self) -> &[u8]
        ensures { result.now ≡ self.now.bytes }
    {
        self.bytes.as_slice()
    }

    /// Keeps the first so many bytes and takes the others away. The memory is kept.
    pub fn undo_to(&mut self, count: u32)
        ensures { self.new ≡ record self.old { bytes = take count self.old.bytes } }
    {
        self.bytes.truncate(count as usize);
    }

    /// Takes all bytes away, and keeps the memory.
    pub fn clear(&mut self)
        ensures { self.new ≡ record self.old { bytes = [] } }
    {
        self.bytes.clear();
    }
}

// Puts bytes behind those of a list that has room for them.
fn put(bytes: &mut Vec<u8>, more: &[u8])
    requires { length bytes.old.items + length more.now ≤ vec_capacity bytes.old }
    ensures items { bytes.new.items ≡ bytes.old.items ++ more.now }
    ensures capacity { vec_capacity bytes.old ≤ vec_capacity bytes.new }
{
    match bytes.extend_from_slice(more) {
        Ok(()) => (),
        Err(_) => unreachable!(),
    }
}

// Whether the characters have at most so many bytes as UTF-8.
#[tactic(auto, using(crate::proofs::Rooms::at_most_four))]
fn fits(characters: &[char], room: usize) -> bool
    ensures { IsTrue result ↔ (length (utf8_of characters.now) ≤ room) }
{
    characters.len() <= room / 4 || fits_counted(characters, room)
}

// The same, by the bytes of each.
fn fits_counted(characters: &[char], room: usize) -> bool
    ensures { IsTrue result ↔ (length (utf8_of characters.now) ≤ room) }
{
    let mut left = room;
    for c in characters {
        let size = c.len_utf8();
        if size > left {
            return false;
        }
        left -= size;
    }
    true
}

// Puts characters, as UTF-8, behind the bytes of a list that has room for them.
fn put_characters(bytes: &mut Vec<u8>, characters: &[char])
    requires { length bytes.old.items + length (utf8_of characters.now) ≤ vec_capacity bytes.old }
    ensures items { bytes.new.items ≡ bytes.old.items ++ utf8_of characters.now }
    ensures capacity { vec_capacity bytes.old ≤ vec_capacity bytes.new }
{
    for c in characters {
        put_character(bytes, *c);
    }
}

// Puts a character, as UTF-8, behind the bytes of a list that has room for it.
fn put_character(bytes: &mut Vec<u8>, c: char)
    requires { length bytes.old.items + length (encode_utf8 c) ≤ vec_capacity bytes.old }
    ensures items { bytes.new.items ≡ bytes.old.items ++ encode_utf8 c }
    ensures capacity { vec_capacity bytes.old ≤ vec_capacity bytes.new }
{
    if c.is_ascii() {
        bytes.push_reserved(c as u8);
        return;
    }
    let mut room = [0; 4];
    put(bytes, c.encode_utf8(&mut room).as_bytes());
}
