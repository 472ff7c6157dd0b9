// What stops an unparser before the end of its events.

use dfdl_report::LimitCause;
use dfdl_suspend::CellId;

/// Why an event isn't laid.
#[derive(Clone, Copy, Debug, PartialEq, Eq, Drop)]
pub enum Refusal {
    /// it passes a limit
    Limit(LimitCause),
    /// there is no memory for it
    OutOfMemory,
}

/// Why an unparser has stopped.
#[derive(Clone, Copy, Debug, PartialEq, Eq, Drop)]
pub enum Stop {
    /// a write to the sink failed
    Sink,
    /// an event passes a limit
    Limit(LimitCause),
    /// there was no memory
    OutOfMemory,
}

/// Why a document isn't written whole.
#[derive(Clone, Copy, Debug, PartialEq, Eq, Drop)]
pub enum End {
    /// the first unknown, in the order of the document, whose equation gives a fault, with the number of its cause
    Fault(CellId, u8),
    /// no equation gives a fault, and this is the first unknown without a value
    Cycle(CellId),
    /// it has stopped before
    Stopped(Stop),
}

impl Stop {
    ghost use Rattle.std.specs.Prelude.{◌≡◌};
    ghost use Rattle.dfdl_unparse.specs.Unparsers.{stop_of};

    /// The stop of a refusal.
    pub fn of(refusal: Refusal) -> Stop
        ensures { result ≡ stop_of refusal }
    {
        match refusal {
            Refusal::Limit(cause) => Stop::Limit(cause),
            Refusal::OutOfMemory => Stop::OutOfMemory,
        }
    }
}
