// A source and a sink in memory.
ghost use Rattle.std.specs.Prelude.{◌≡◌, ◌↔◌, ◌+◌, ◌-◌, ◌<◌, ◌≤◌, min, [], drop, length, Some, ◌⊎◌};
ghost use Rattle.std.specs.Prelude.{false, true, IsTrue, IsOk, IsErr, IfOk, OnOk, OnErr};
ghost use Rattle.dfdl_edge.specs.Faults.{Rose};
ghost use Rattle.dfdl_edge.specs.Source.{Takes};
ghost use Rattle.dfdl_edge.specs.Sink.{Adds, AddsFront};
ghost use Rattle.dfdl_edge.specs.Memory.{SourceInMemory, SinkInMemory, IsToFail, after_call};
ghost use Rattle.dfdl_edge.specs.Memory.{after_fault, cut_at};

use crate::calls::Calls;
use crate::reading::{Failed, Source};
use crate::writing::Sink;
use std::alloc::Global;
use std::marker::Model;

/// Bytes in memory as a source. Its reads come in pieces of any cut, and those that are listed
/// fail.
#[derive(Drop)]
pub struct MemorySource {
    bytes: Vec<u8>,
    given: usize,
    cuts: Vec<usize>,
    calls: Calls,
}

impl Model for MemorySource {
    ghost Value = { SourceInMemory };

    ghost view = { λ s. record { rest = drop s.given s.bytes.items; cuts = s.cuts.items; calls = s.calls } };

    ghost invariant = { λ s. s.given ≤ length s.bytes.items };
}

impl MemorySource {
    /// A source of these bytes. Read number k, from 1 on, gives at most as many bytes as `cuts`
    /// says in turn, over and over, and at least one; with no cuts it fills the buffer. It fails
    /// where `failing` lists k.
    pub fn new(bytes: Vec<u8>, cuts: Vec<usize>, failing: Vec<u64>) -> Self
        ensures { result ≡ record {
          rest = bytes.items;
          cuts = cuts.items;
          calls = record { failing = failing.items; made = 0; failed = 0 };
        } }
    {
        MemorySource {
            bytes,
            given: 0,
            cuts,
            calls: Calls::new(failing),
        }
    }

    /// The bytes that are left.
    pub fn left(&self) -> &[u8]
        ensures { result.now ≡ self.now.rest }
    {
        &self.bytes[self.given..]
    }

    /// How many reads failed.
    pub fn faults(&self) -> u64
        ensures { result ≡ self.now.calls.failed }
    {
        self.calls.failed()
    }
}

impl Source for MemorySource {
    ghost seen = { λ s. record { left = Some s.rest; faults = s.calls.failed } };

    fn read(&mut self, into: &mut [u8]) -> Result<usize, Failed>
        requires { 0 < length into.old }
        ensures count { IfOk result (λ count. count ≡
            min (min (cut_at self.old.cuts self.new.calls.made) (length into.old)) (length self.old.rest)) }
        ensures within { IfOk result (λ count. count ≤ length into.old) }
        ensures takes { IfOk result (λ count. Takes (Some self.old.rest) count into.new (Some self.new.rest)) }
        ensures err { OnErr result (self.new.rest ≡ self.old.rest) }

        ensures fails { IsErr result ↔ IsToFail self.old.calls }
        ensures after_ok { OnOk result (self.new.calls ≡ after_call self.old.calls) }
        ensures after_err { OnErr result (self.new.calls ≡ after_fault self.old.calls) }
        ensures cuts { self.new.cuts ≡ self.old.cuts }

        ensures later { self.old.calls.failed ≤ self.new.calls.failed }
        ensures cause { IsErr result → Rose self.old.calls.failed self.new.calls.failed }
        ensures still { IsOk result → self.new.calls.failed ≡ self.old.calls.failed }
    {
        if self.calls.begin() {
            self.calls.fail();
            return Err(Failed);
        }
        let most = cut_at(&self.cuts, self.calls.made()).min(into.len());
        let rest = &self.bytes[self.given..];
        let count = most.min(rest.len());
        into[..count].copy_from_slice(&rest[..count]);
        self.given += count;
        Ok(count)
    }
}

// How many bytes a read of this number gives at most.
fn cut_at(cuts: &[usize], call: u64) -> usize
    ensures value { result ≡ cut_at cuts.now call }
    ensures positive { 0 < result }
{
    if cuts.is_empty() {
        return usize::MAX;
    }
    let at = call.saturating_sub(1) % cuts.len() as u64;
    cuts[at as usize].max(1)
}

/// A sink in memory. Its writes number from 1, and those that are listed fail. A write that fails
/// takes nothing.
#[derive(Drop)]
pub struct MemorySink {
    bytes: Vec<u8>,
    short: bool,
    calls: Calls,
}

impl Model for MemorySink {
    ghost Value = { SinkInMemory };

    ghost view = { λ s. record { bytes = s.bytes.items; short = s.short; calls = s.calls } };
}

impl MemorySink {
    /// An empty sink.
    pub fn new(alloc: Global, failing: Vec<u64>) -> Self
        ensures { result ≡ record {
          bytes = [];
          short = false;
          calls = record { failing = failing.items; made = 0; failed = 0 };
        } }
    {
        MemorySink {
            bytes: Vec::new(alloc),
            short: false,
            calls: Calls::new(failing),
        }
    }

    /// The bytes taken so far.
    pub fn taken(&self) -> &[u8]
        ensures { result.now ≡ self.now.bytes }
    {
        &self.bytes
    }

    /// Whether there was no memory for the piece of the last write.
    pub fn is_short(&self) -> bool
        ensures { result ≡ self.now.short }
    {
        self.short
    }

    /// How many writes failed.
    pub fn faults(&self) -> u64
        ensures { result ≡ self.now.calls.failed }
    {
        self.calls.failed()
    }
}

impl Sink for MemorySink {
    ghost seen = { λ s. record { taken = Some s.bytes; faults = s.calls.failed } };

    /// Fails also where there is no memory for the piece.
    fn write(&mut self, piece: &[u8]) -> Result<(), Failed>
        ensures ok { OnOk result (Adds (Some self.old.bytes) piece.now (Some self.new.bytes)) }
        ensures nothing { OnErr result (self.new.bytes ≡ self.old.bytes) }
        ensures err { OnErr result (AddsFront (Some self.old.bytes) piece.now (Some self.new.bytes)) }

        ensures fails { IsErr result ↔ IsToFail self.old.calls ⊎ IsTrue self.new.short }
        ensures after_ok { OnOk result (self.new.calls ≡ after_call self.old.calls) }
        ensures after_err { OnErr result (self.new.calls ≡ after_fault self.old.calls) }

        ensures later { self.old.calls.failed ≤ self.new.calls.failed }
        ensures cause { IsErr result → Rose self.old.calls.failed self.new.calls.failed }
        ensures still { IsOk result → self.new.calls.failed ≡ self.old.calls.failed }
    {
        let listed = self.calls.begin();
        self.short = !listed && self.bytes.extend_from_slice(piece).is_err();
        if listed || self.short {
            self.calls.fail();
            return Err(Failed);
        }
        Ok(())
    }
}
