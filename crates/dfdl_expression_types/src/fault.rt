use std::alloc::{AllocError, AllocFailed};
use thiserror::Error;

/// What is wrong in an expression that is well formed. Of several faults the first of these is told.
#[derive(Clone, Copy, Debug, PartialEq, Eq, Error)]
pub enum TypeFault {
    /// Types don't fit, or a name is none of a function or has an undeclared prefix.
    #[error("types that don't fit")]
    Types,
    /// A path leads to no declared element.
    #[error("a path that leads to no declaration")]
    NoPath,
    /// A variable isn't declared.
    #[error("a variable that is not declared")]
    NoVariable,
    /// There was no memory to check it.
    #[error("out of memory")]
    OutOfMemory,
}

impl From<AllocError> for TypeFault {
    ghost use Rattle.std.specs.Prelude.{◌≡◌};
    ghost use Rattle.dfdl_expression_types.specs.declared.fault.TypeFault.TheVariants.{OutOfMemory};

    ghost from_gives = { λ _ e. e ≡ OutOfMemory };

    fn from(_error: AllocError) -> TypeFault {
        TypeFault::OutOfMemory
    }
}
