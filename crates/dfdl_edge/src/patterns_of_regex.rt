// The building of patterns by the crate `regex`, with and without a text that is kept.
ghost use Rattle.std.specs.Prelude.{◌≡◌, ◌≢◌, ◌⊎◌, ℕ, ◌-◌, ◌≤◌, Option, Some, None, option_map};
ghost use Rattle.std.specs.Prelude.{option_copied, string_bytes, IfOk, IsErr, IsErrOf};
ghost use Rattle.dfdl_edge.specs.Faults.{Rose};
ghost use Rattle.dfdl_edge.specs.Told.{IsNowLast};
ghost use Rattle.dfdl_edge.specs.Patterns.{IsPatternOf, IsRefusedText};
ghost use Rattle.dfdl_edge.specs.Memory.{PatternsInMemory, IsToFail, after_call, after_fault};

use crate::building::{PatternRefusal, Patterns};
use crate::calls::Calls;
use regex::{Error, Regex};
use std::alloc::Global;
use std::marker::Model;

/// Builds patterns and keeps the text last refused. Builds number from 1, and those that are listed
/// are refused.
#[derive(Drop)]
pub struct MemoryPatterns {
    last: Option<String>,
    calls: Calls,
}

impl Model for MemoryPatterns {
    ghost Value = { PatternsInMemory };

    ghost view = { λ p. record { last = option_map (λ text. string_bytes text) p.last; calls = p.calls } };
}

impl MemoryPatterns {
    /// A builder that refuses the builds listed.
    pub fn new(failing: Vec<u64>) -> Self
        ensures { result ≡ record {
          last = None;
          calls = record { failing = failing.items; made = 0; failed = 0 };
        } }
    {
        MemoryPatterns {
            last: None,
            calls: Calls::new(failing),
        }
    }

    /// The text last refused, if any was.
    pub fn last_refused(&self) -> Option<&str>
        ensures { option_copied result ≡ self.now.last }
    {
        match &self.last {
            Some(text) => Some(text.as_str()),
            None => None,
        }
    }

    /// How many builds were refused.
    pub fn faults(&self) -> u64
        ensures { result ≡ self.now.calls.failed }
    {
        self.calls.failed()
    }
}

impl Patterns for MemoryPatterns {
    ghost faults = { λ p. p.calls.failed };

    ghost last_refused = { λ p. Some p.last };

    fn build(&mut self, alloc: Global, text: &str) -> Result<Regex, PatternRefusal>
        ensures pattern { IfOk result (IsPatternOf text.now) }

        ensures fails { IsToFail self.old.calls → IsErr result }
        ensures only { IsErrOf result PatternRefusal.Refused
            → IsToFail self.old.calls ⊎ IsRefusedText text.now }
        ensures after_refused { IsErrOf result PatternRefusal.Refused
            → self.new.calls ≡ after_fault self.old.calls }
        ensures after_other { result ≢ Err PatternRefusal.Refused
            → self.new.calls ≡ after_call self.old.calls }

        ensures later { self.old.calls.failed ≤ self.new.calls.failed }
        ensures cause { IsErrOf result PatternRefusal.Refused
            → Rose self.old.calls.failed self.new.calls.failed }
        ensures still { result ≢ Err PatternRefusal.Refused
            → self.new.calls.failed ≡ self.old.calls.failed }

        ensures last { IsErrOf result PatternRefusal.Refused →
            IsNowLast (Some self.old.last) text.now (Some self.new.last) }
        ensures last_kept { result ≢ Err PatternRefusal.Refused → self.new.last ≡ self.old.last }
    {
        if !self.calls.begin() {
            match compiled(alloc, text) {
                Err(PatternRefusal::Refused) => {}
                answer => return answer,
            }
        }
        match String::from_str(alloc, text) {
            Ok(kept) => {
                self.last = Some(kept);
                self.calls.fail();
                Err(PatternRefusal::Refused)
            }
            Err(_) => Err(PatternRefusal::OutOfMemory),
        }
    }
}

/// Builds patterns. It counts what is refused and tells no text.
#[derive(Drop)]
pub struct RegexPatterns {
    refused: u64,
}

impl Model for RegexPatterns {
    ghost Value = { ℕ };

    ghost view = { λ p. p.refused };
}

impl RegexPatterns {
    /// A builder that has refused nothing.
    pub fn new() -> Self
        ensures { result ≡ 0 }
    {
        RegexPatterns { refused: 0 }
    }
}

impl Patterns for RegexPatterns {
    ghost faults = { λ p. p };

    ghost last_refused = { λ _. None };

    fn build(&mut self, alloc: Global, text: &str) -> Result<Regex, PatternRefusal> {
        let answer = compiled(alloc, text);
        if let Err(PatternRefusal::Refused) = answer {
            self.refused = self.refused.saturating_add(1);
        }
        answer
    }
}

// The pattern of a text; want of memory alone is no refusal.
fn compiled(alloc: Global, text: &str) -> Result<Regex, PatternRefusal>
    ensures pattern { IfOk result (IsPatternOf text.now) }
    ensures refused { IsErrOf result PatternRefusal.Refused → IsRefusedText text.now }
{
    match Regex::new(alloc, text) {
        Ok(pattern) => Ok(pattern),
        Err(Error::OutOfMemory) => Err(PatternRefusal::OutOfMemory),
        Err(_) => Err(PatternRefusal::Refused),
    }
}
