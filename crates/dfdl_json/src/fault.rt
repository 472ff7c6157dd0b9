ghost use Rattle.dfdl_json.specs.declared.fault.InfosetFault.TheVariants.{OutOfMemory};
ghost use Rattle.std.specs.Prelude.{◌≡◌};

use dfdl_report::InfosetCause;
use dfdl_value::TextValue;
use std::alloc::{AllocError, AllocFailed};
use thiserror::Error;

/// Why a JSON value gave no events.
#[derive(Debug, Drop, Error)]
pub enum InfosetFault {
    /// It is no infoset of the terms. The path names the element: `/` the whole, `/r` the root element, `/r/a` a child.
    #[error("no infoset of the schema")]
    Bad {
        cause: InfosetCause,
        path: TextValue,
    },
    #[error("out of memory")]
    OutOfMemory,
}

impl<T: Drop> From<AllocFailed<T>> for InfosetFault {
    ghost from_gives = { λ _ fault. fault ≡ OutOfMemory };

    fn from(_fault: AllocFailed<T>) -> InfosetFault {
        InfosetFault::OutOfMemory
    }
}

impl From<AllocError> for InfosetFault {
    ghost from_gives = { λ _ fault. fault ≡ OutOfMemory };

    fn from(_fault: AllocError) -> InfosetFault {
        InfosetFault::OutOfMemory
    }
}
