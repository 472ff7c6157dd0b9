// What can be written is written.
ghost use Rattle.std.specs.Prelude.{◌≡◌, ℕ, List, IsErr, IsOk, OnErr, OnOk};
ghost use Rattle.dfdl_edge.specs.Faults.{Rose};
ghost use Rattle.dfdl_edge.specs.Sink.{Adds, AddsFront};
ghost use Rattle.dfdl_splice.specs.Splicing.{without_front};
ghost use Rattle.dfdl_unparse.specs.Fronts.{ArePacked};

use crate::front::Front;
use dfdl_edge::{Failed, Sink};

// Hands the whole bytes of what can be written to a sink, in one write, or in none where there are none, and drops them.
pub(crate) fn write_known<K: Sink>(front: &mut Front, sink: &mut K) -> Result<(), Failed>
    ensures wrote { (bytes : List ℕ) × ArePacked front.old.order front.old.front bytes
        × OnOk result (Adds (K.seen sink.old).taken bytes (K.seen sink.new).taken)
        × OnErr result (AddsFront (K.seen sink.old).taken bytes (K.seen sink.new).taken) }
    ensures dropped { OnOk result (front.new ≡ without_front front.old) }
    ensures most { front.new.most_bytes ≡ front.old.most_bytes }
    ensures cause { IsErr result → Rose (K.seen sink.old).faults (K.seen sink.new).faults }
    ensures still { IsOk result → (K.seen sink.new).faults ≡ (K.seen sink.old).faults }
{
    let bytes = front.known();
    if bytes.is_empty() {
        return Ok(());
    }
    match sink.write(bytes) {
        Ok(()) => {}
        Err(failed) => return Err(failed),
    }
    front.drop_known();
    Ok(())
}
