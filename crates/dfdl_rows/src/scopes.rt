// The row around a content inside of which a text of a list ends a content: of a terminator or of separators.
ghost use Rattle.std.specs.Prelude.{◌≡◌, ◌<◌, ◌≤◌, ◌+◌, ◌^◌, ◌++◌, length, IfOk, OnOk};
ghost use Rattle.dfdl_rows.specs.Scopes as spec;
ghost use Rattle.dfdl_rows.specs.Slots as slots;

use crate::component::Separated;
use dfdl_terms::{Delimiter, Row, RowId};
use std::alloc::AllocError;

/// The number of the list of a delimiter, where there is one.
pub(crate) fn list_of(delimiter: Option<Delimiter>) -> Option<u32>
    ensures { result ≡ spec.list_of delimiter }
{
    match delimiter {
        Some(own) => Some(own.list),
        None => None,
    }
}

/// The same of the terminator of a simple element, inside of whose scope its content stands where markup ends that.
pub(crate) fn scanned_list(is_scanned: bool, terminator: Option<Delimiter>) -> Option<u32>
    ensures { result ≡ spec.scanned_list is_scanned terminator }
{
    if is_scanned {
        list_of(terminator)
    } else {
        None
    }
}

/// The number of the list of a sequence's separators, where it has some.
pub(crate) fn separator_list(separated: Option<Separated>) -> Option<u32>
    ensures { result ≡ slots.separator_list separated }
{
    match separated {
        Some(own) => Some(own.list),
        None => None,
    }
}

/// How many rows the scope of a list is.
pub(crate) fn scope_size(list: Option<u32>) -> u64
    ensures size { result ≡ spec.scope_size list }
    ensures few { result ≤ 1 }
{
    match list {
        Some(_) => 1,
        None => 0,
    }
}

/// Adds the row of the scope of a list around the row of a content, where there is one, and gives the row that stands for the
/// content in it.
pub(crate) fn push_scoped(
    rows: &mut Vec<Row>,
    list: Option<u32>,
    content: RowId,
) -> Result<RowId, AllocError>
    requires { length rows.old.items + spec.scope_size list < 2 ^ 32 }
    ensures rows { OnOk result (rows.new.items ≡ rows.old.items ++ spec.scope_rows list content) }
    ensures whole { IfOk result (λ whole. whole ≡ spec.scoped_row list content (length rows.old.items)) }
{
    match list {
        Some(list) => {
            let whole = RowId::new(rows.len() as u32);
            let body = content;
            rows.push(Row::Scope { list, body })?;
            Ok(whole)
        }
        None => Ok(content),
    }
}
