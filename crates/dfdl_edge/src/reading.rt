ghost use Rattle.std.specs.Prelude.{◌≡◌, ℕ, ◌<◌, ◌≤◌, List, Option, length, IfOk, IsOk, IsErr};
ghost use Rattle.std.specs.Prelude.{OnErr};
ghost use Rattle.dfdl_edge.specs.Faults.{Rose};
ghost use Rattle.dfdl_edge.specs.Source.{SourceSeen, Takes};

use thiserror::Error;

/// A read or a write failed.
#[derive(Clone, Copy, Debug, PartialEq, Eq, Error)]
#[error("a read or a write failed")]
pub struct Failed;

/// Bytes that come in, as the data that is parsed.
pub trait Source {
    // the bytes that are left and the reads that have failed; at the last value of a u64 a count
    // stands still
    ghost seen: { Self → SourceSeen };

    /// Reads at least one byte into the front of `into` and answers how many, or 0 at the end of
    /// the bytes.
    fn read(&mut self, into: &mut [u8]) -> Result<usize, Failed>
        requires { 0 < length into.old }
        ensures count { IfOk result (λ count. count ≤ length into.old) }
        ensures takes { IfOk result (λ count. Takes (seen self.old).left count into.new (seen self.new).left) }
        ensures err { OnErr result ((seen self.new).left ≡ (seen self.old).left) }

        ensures later { (seen self.old).faults ≤ (seen self.new).faults }
        ensures cause { IsErr result → Rose (seen self.old).faults (seen self.new).faults }
        ensures still { IsOk result → (seen self.new).faults ≡ (seen self.old).faults };
}
