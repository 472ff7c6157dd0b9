use dfdl_report::{Place, SchemaCause};

/// Why a schema is refused, and where.
#[derive(Clone, Copy, Debug, PartialEq, Eq)]
pub struct Refusal {
    pub cause: SchemaCause,
    pub place: Place,
}

/// A refusal, and the number of the row at which it stands: the last one of the component that it is told of, where that is
/// used first.
#[derive(Clone, Copy, Debug, PartialEq, Eq)]
pub struct RefusedRow {
    pub row: u64,
    pub refusal: Refusal,
}
