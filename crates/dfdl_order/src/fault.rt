ghost use Rattle.std.specs.Prelude.{◌≡◌};
ghost use Rattle.dfdl_order.specs.declared.fault.OrderFault.TheVariants.{OutOfMemory};

use std::alloc::{AllocError, AllocFailed};
use thiserror::Error;

/// Why components have no order.
#[derive(Clone, Copy, Debug, PartialEq, Eq, Error)]
pub enum OrderFault {
    /// A component reaches itself through its parts, the first one that does.
    #[error("component {component} reaches itself through its parts")]
    Recursive { component: u32 },
    /// There was no memory for the order.
    #[error("out of memory")]
    OutOfMemory,
}

impl From<AllocError> for OrderFault {
    ghost from_gives = { λ _ e. e ≡ OutOfMemory };

    fn from(_error: AllocError) -> OrderFault {
        OrderFault::OutOfMemory
    }
}

impl<T: Drop> From<AllocFailed<T>> for OrderFault {
    ghost from_gives = { λ _ e. e ≡ OutOfMemory };

    fn from(_error: AllocFailed<T>) -> OrderFault {
        OrderFault::OutOfMemory
    }
}
