// A row behind others.
ghost use Rattle.std.specs.Prelude.{◌≡◌, ◌<◌, ◌^◌, ◌++◌, ◌∷◌, [], length, IfOk, OnOk};

use dfdl_terms::{Row, RowId};
use std::alloc::AllocError;

/// Adds a row, and gives its number.
pub(crate) fn push_last(rows: &mut Vec<Row>, row: Row) -> Result<RowId, AllocError>
    requires { length rows.old.items < 2 ^ 32 }
    ensures rows { OnOk result (rows.new.items ≡ rows.old.items ++ row ∷ []) }
    ensures number { IfOk result (λ number. number ≡ length rows.old.items) }
{
    let number = RowId::new(rows.len() as u32);
    rows.push(row)?;
    Ok(number)
}
