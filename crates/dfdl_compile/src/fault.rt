ghost use Rattle.std.specs.Prelude.{◌≡◌};
ghost use Rattle.dfdl_compile.specs.declared.fault.CompileFault.TheVariants.{OutOfMemory};

use dfdl_report::{LimitCause, Place, SchemaCause};
use std::alloc::{AllocError, AllocFailed};
use thiserror::Error;

/// Why a schema has no terms.
#[derive(Clone, Copy, Debug, PartialEq, Eq, Error)]
pub enum CompileFault {
    /// A component breaks a rule, the first in schema order of those that are reached from the root, or
    /// there is no root.
    #[error("a component is refused")]
    Refused { cause: SchemaCause, place: Place },
    /// Elements are nested deeper than `quantity`, or there are more rows.
    #[error("limit of {quantity} reached")]
    Limit { cause: LimitCause, quantity: u32 },
    /// There was no memory for the terms.
    #[error("out of memory")]
    OutOfMemory,
}

impl From<AllocError> for CompileFault {
    ghost from_gives = { λ _ e. e ≡ OutOfMemory };

    fn from(_error: AllocError) -> CompileFault {
        CompileFault::OutOfMemory
    }
}

impl<T: Drop> From<AllocFailed<T>> for CompileFault {
    ghost from_gives = { λ _ e. e ≡ OutOfMemory };

    fn from(_error: AllocFailed<T>) -> CompileFault {
        CompileFault::OutOfMemory
    }
}
