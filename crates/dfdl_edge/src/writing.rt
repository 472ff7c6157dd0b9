ghost use Rattle.std.specs.Prelude.{◌≡◌, ℕ, ◌≤◌, List, Option, IsOk, IsErr, OnOk, OnErr};
ghost use Rattle.dfdl_edge.specs.Faults.{Rose};
ghost use Rattle.dfdl_edge.specs.Sink.{Adds, AddsFront, SinkSeen};

use crate::reading::Failed;

/// Bytes that go out, as the answer of a run or its notes.
pub trait Sink {
    // the bytes taken so far and the writes that have failed; at the last value of a u64 a count
    // stands still
    ghost seen: { Self → SinkSeen };

    /// Takes all of the piece, or fails after a front of it.
    fn write(&mut self, piece: &[u8]) -> Result<(), Failed>
        ensures ok { OnOk result (Adds (seen self.old).taken piece.now (seen self.new).taken) }
        ensures err { OnErr result (AddsFront (seen self.old).taken piece.now (seen self.new).taken) }

        ensures later { (seen self.old).faults ≤ (seen self.new).faults }
        ensures cause { IsErr result → Rose (seen self.old).faults (seen self.new).faults }
        ensures still { IsOk result → (seen self.new).faults ≡ (seen self.old).faults };
}
