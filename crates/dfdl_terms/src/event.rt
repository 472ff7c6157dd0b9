use crate::row::RowId;
use dfdl_value::Value;

/// One event of an infoset, in schema order ('The DFDL Information Set').
#[derive(Debug, Drop)]
pub enum Event {
    /// A complex element begins.
    Start { elem: RowId },
    /// A simple element with its value.
    Simple { elem: RowId, value: Value },
    /// A nil element.
    Nil { elem: RowId },
    /// The innermost complex element ends.
    End,
}
