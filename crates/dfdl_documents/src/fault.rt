// Why the documents of a schema were not loaded.
ghost use Rattle.std.specs.Prelude.{◌≡◌};
ghost use Rattle.dfdl_documents.specs.declared.fault.DocumentsFault.TheVariants.{OutOfMemory};

use dfdl_report::{DocCause, LimitCause, Place};
use dfdl_value::TextValue;
use std::alloc::{AllocError, AllocFailed};

/// Why the documents of a schema were not loaded.
#[derive(Debug, Drop)]
pub enum DocumentsFault {
    /// The file of this name was not loaded.
    Files {
        name: TextValue,
    },
    /// The file of this name is no document: at this byte of it none can go on. Its number is that
    /// of the documents loaded before it.
    Document {
        cause: DocCause,
        place: Place,
        name: TextValue,
    },
    /// A file has more bytes than are allowed (`Schema`), or one more document than is allowed was
    /// to be loaded (`Schemas`); `quantity` is what is allowed.
    Limit {
        cause: LimitCause,
        quantity: u64,
    },
    /// There was no memory for the documents.
    OutOfMemory,
}

impl From<AllocError> for DocumentsFault {
    ghost from_gives = { λ _ e. e ≡ OutOfMemory };

    fn from(_error: AllocError) -> DocumentsFault {
        DocumentsFault::OutOfMemory
    }
}

impl<T: Drop> From<AllocFailed<T>> for DocumentsFault {
    ghost from_gives = { λ _ e. e ≡ OutOfMemory };

    fn from(_error: AllocFailed<T>) -> DocumentsFault {
        DocumentsFault::OutOfMemory
    }
}
