use dfdl_report::{Place, SchemaCause};
use std::alloc::{AllocError, AllocFailed};
use thiserror::Error;

/// Why a schema is refused, and where.
#[derive(Clone, Copy, Debug, PartialEq, Eq)]
pub struct Refusal {
    pub cause: SchemaCause,
    pub place: Place,
}

/// A refusal of another kind, and the number of the row that it is of: the last row of the component.
#[derive(Clone, Copy, Debug, PartialEq, Eq)]
pub struct GivenRefusal {
    pub row: u64,
    pub refusal: Refusal,
}

/// Why there are no statements.
#[derive(Clone, Copy, Debug, PartialEq, Eq, Error)]
pub enum StatementFault {
    /// One of them is refused, or a refusal was given.
    #[error("a statement that is refused")]
    Refused(Refusal),
    #[error("out of memory")]
    OutOfMemory,
}

/// Why no statement is made of what is written.
#[derive(Clone, Copy)]
pub(crate) enum Fault {
    /// It is refused.
    Cause(SchemaCause),
    OutOfMemory,
}

impl From<AllocError> for Fault {
    ghost use Rattle.std.specs.Prelude.{◌≡◌};
    ghost use Rattle.dfdl_statements.specs.declared.fault.Fault.TheVariants.{OutOfMemory};

    ghost from_gives = { λ _ e. e ≡ OutOfMemory };

    fn from(_error: AllocError) -> Fault {
        Fault::OutOfMemory
    }
}

impl From<AllocError> for StatementFault {
    ghost use Rattle.std.specs.Prelude.{◌≡◌};
    ghost use Rattle.dfdl_statements.specs.declared.fault.StatementFault.TheVariants.{OutOfMemory};

    ghost from_gives = { λ _ e. e ≡ OutOfMemory };

    fn from(_error: AllocError) -> StatementFault {
        StatementFault::OutOfMemory
    }
}
