ghost use Rattle.std.specs.Prelude.{◌≡◌, ◌≢◌, ℕ, ◌≤◌, List, Option, IfOk, IsErrOf};
ghost use Rattle.dfdl_edge.specs.Faults.{Rose};
ghost use Rattle.dfdl_edge.specs.Told.{IsNowLast};
ghost use Rattle.dfdl_edge.specs.Patterns.{IsPatternOf};

use regex::Regex;
use std::alloc::Global;
use thiserror::Error;

/// Why a pattern was not built.
#[derive(Clone, Copy, Debug, PartialEq, Eq, Error)]
pub enum PatternRefusal {
    /// The text is no pattern, or its pattern would be too big.
    #[error("the pattern is refused")]
    Refused,
    #[error("out of memory")]
    OutOfMemory,
}

/// The building of regular expressions from their texts.
pub trait Patterns {
    // how many builds were refused for another cause than memory; at the last value of a u64 it
    // stands still
    ghost faults: { Self → ℕ };

    // the text last refused, if any was; `None` where this isn't told
    ghost last_refused: { Self → Option (Option (List ℕ)) };

    /// The pattern of a text.
    fn build(&mut self, alloc: Global, text: &str) -> Result<Regex, PatternRefusal>
        ensures pattern { IfOk result (IsPatternOf text.now) }

        ensures later { faults self.old ≤ faults self.new }
        ensures cause { IsErrOf result PatternRefusal.Refused
            → Rose (faults self.old) (faults self.new) }
        ensures still { result ≢ Err PatternRefusal.Refused → faults self.new ≡ faults self.old }

        ensures last { IsErrOf result PatternRefusal.Refused →
            IsNowLast (last_refused self.old) text.now (last_refused self.new) }
        ensures last_kept { result ≢ Err PatternRefusal.Refused
            → last_refused self.new ≡ last_refused self.old };
}
