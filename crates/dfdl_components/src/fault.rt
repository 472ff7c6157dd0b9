// Why a schema was not loaded.
ghost use Rattle.std.specs.Prelude.{◌≡◌};
ghost use Rattle.dfdl_components.specs.declared.fault.SchemaFault.TheVariants.{OutOfMemory};

use dfdl_report::{DocCause, LimitCause, Place, SchemaCause};
use dfdl_value::TextValue;
use std::alloc::{AllocError, AllocFailed};

/// Why a schema was not loaded.
#[derive(Debug, Drop)]
pub enum SchemaFault {
    /// The file of this name was not loaded.
    Files {
        name: TextValue,
    },
    /// The file of this name is no document: at this byte of it none can go on.
    Doc {
        cause: DocCause,
        place: Place,
        name: TextValue,
    },
    /// The element that begins at this byte of the document of this name breaks a rule, the first
    /// that does.
    Schema {
        cause: SchemaCause,
        place: Place,
        name: TextValue,
    },
    /// A file has more bytes than are allowed (`Schema`), or one more document than is allowed was to
    /// be loaded (`Schemas`); `quantity` is what is allowed.
    Limit {
        cause: LimitCause,
        quantity: u64,
    },
    /// There was no memory for the schema.
    OutOfMemory,
}

impl From<AllocError> for SchemaFault {
    ghost from_gives = { λ _ e. e ≡ OutOfMemory };

    fn from(_error: AllocError) -> SchemaFault {
        SchemaFault::OutOfMemory
    }
}

impl<T: Drop> From<AllocFailed<T>> for SchemaFault {
    ghost from_gives = { λ _ e. e ≡ OutOfMemory };

    fn from(_error: AllocFailed<T>) -> SchemaFault {
        SchemaFault::OutOfMemory
    }
}
