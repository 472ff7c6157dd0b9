// What stands in a row.
ghost use Rattle.std.specs.Prelude.{◌≡◌, IfOk, Some, map, option_copied, slice_get};
ghost use Rattle.dfdl_statements.specs.Children as children;

use dfdl_terms::{Key, Row, RowId, RowList, Slot};
use dfdl_value::Simple;
use std::alloc::{AllocError, Global};

/// The statement that opens an instance, and the row inside of which it is open.
#[derive(Clone, Copy)]
pub(crate) struct Instance {
    pub(crate) statement: u32,
    pub(crate) body: RowId,
}

// The list of some rows.
fn listed(alloc: Global, rows: &[RowId]) -> Result<RowList, AllocError>
    ensures { IfOk result (λ l. l ≡ rows.now) }
{
    Ok(RowList::new(Vec::from_slice(alloc, rows)?))
}

// The rows of slots.
fn bodies(alloc: Global, slots: &[Slot]) -> Result<RowList, AllocError>
    ensures { IfOk result (λ l. l ≡ map (λ slot. slot.body) slots.now) }
{
    let mut rows = Vec::new(alloc);
    for slot in slots {
        rows.push(slot.body)?;
    }
    Ok(RowList::new(rows))
}

// The rows of keys.
fn keyed(alloc: Global, keys: &[Key]) -> Result<RowList, AllocError>
    ensures { IfOk result (λ l. l ≡ map (λ key. key.body) keys.now) }
{
    let mut rows = Vec::new(alloc);
    for key in keys {
        rows.push(key.body)?;
    }
    Ok(RowList::new(rows))
}

/// The rows right inside of a row, in schema order.
pub(crate) fn children_of(alloc: Global, row: &Row) -> Result<RowList, AllocError>
    ensures { IfOk result (λ l. l ≡ children.children_of row.now) }
{
    match row {
        Row::Elem { body, .. } => listed(alloc, &[*body]),
        Row::Group { children } => listed(alloc, children.as_slice()),
        Row::Scope { body, .. } => listed(alloc, &[*body]),
        Row::Boxed { body, .. } => listed(alloc, &[*body]),
        Row::PrefixedBox { body, .. } => listed(alloc, &[*body]),
        Row::MeasuredBox { body, .. } => listed(alloc, &[*body]),
        Row::Repeat { body, .. } => listed(alloc, &[*body]),
        Row::Counted { body, .. } => listed(alloc, &[*body]),
        Row::Optional { body, .. } => listed(alloc, &[*body]),
        Row::Choice { branches, .. } => listed(alloc, branches.as_slice()),
        Row::Dispatch { keys, .. } => keyed(alloc, keys.as_slice()),
        Row::Concluded { body, .. } => listed(alloc, &[*body]),
        Row::Hidden { body } => listed(alloc, &[*body]),
        Row::Spanned { body } => listed(alloc, &[*body]),
        Row::Instance { body, .. } => listed(alloc, &[*body]),
        Row::Separated { slots, .. } => bodies(alloc, slots.as_slice()),
        Row::Leaf { .. } => listed(alloc, &[]),
        Row::Skip { .. } => listed(alloc, &[]),
        Row::Align { .. } => listed(alloc, &[]),
        Row::Initiator { .. } => listed(alloc, &[]),
        Row::Terminator { .. } => listed(alloc, &[]),
        Row::Separator => listed(alloc, &[]),
        Row::PrefixedLeaf { .. } => listed(alloc, &[]),
        Row::MeasuredLeaf { .. } => listed(alloc, &[]),
        Row::Statement { .. } => listed(alloc, &[]),
    }
}

/// The content of an element.
pub(crate) fn content_of(row: &Row) -> Option<RowId>
    ensures { result ≡ children.content_in (Some row.now) }
{
    match row {
        Row::Elem { body, .. } => Some(*body),
        _ => None,
    }
}

/// The local name of an element.
pub(crate) fn name_of(row: &Row) -> Option<&str>
    ensures { option_copied result ≡ children.name_in (Some row.now) }
{
    match row {
        Row::Elem { name, .. } => Some(name.as_str()),
        _ => None,
    }
}

/// The simple type of an element, if it has one.
pub(crate) fn simple_of(row: &Row) -> Option<Simple>
    ensures { result ≡ children.simple_in (Some row.now) }
{
    match row {
        Row::Elem { simple, .. } => *simple,
        _ => None,
    }
}

/// The statement that the row of a number is, or by which it asks for its length.
pub(crate) fn statement_at(rows: &[Row], row: RowId) -> Option<u32>
    ensures { result ≡ children.statement_in (slice_get rows.now row) }
{
    match rows.get(row.number() as usize) {
        Some(row) => statement_of(row),
        None => None,
    }
}

fn statement_of(row: &Row) -> Option<u32>
    ensures { result ≡ children.statement_in (Some row.now) }
{
    match row {
        Row::Statement { statement } => Some(*statement),
        Row::MeasuredLeaf { measure, .. } => Some(measure.question),
        Row::MeasuredBox { measure, .. } => Some(measure.question),
        _ => None,
    }
}

/// The statement by which the row of a number asks how often what is in it occurs, or which branch is taken.
pub(crate) fn question_at(rows: &[Row], row: RowId) -> Option<u32>
    ensures { result ≡ children.question_in (slice_get rows.now row) }
{
    match rows.get(row.number() as usize) {
        Some(row) => question_of(row),
        None => None,
    }
}

fn question_of(row: &Row) -> Option<u32>
    ensures { result ≡ children.question_in (Some row.now) }
{
    match row {
        Row::Counted { question, .. } => Some(*question),
        Row::Dispatch { question, .. } => Some(*question),
        _ => None,
    }
}

/// The row that another one repeats as often as an expression tells.
pub(crate) fn counted_of(row: &Row) -> Option<RowId>
    ensures { result ≡ children.counted_in (Some row.now) }
{
    match row {
        Row::Counted { body, .. } => Some(*body),
        _ => None,
    }
}

/// The slots of a row, which may ask how often what is in them occurs.
pub(crate) fn slots_of(row: &Row) -> &[Slot]
    ensures { result.now ≡ children.slots_in (Some row.now) }
{
    match row {
        Row::Separated { slots, .. } => slots.as_slice(),
        _ => &[],
    }
}

/// The instance that the row of a number opens.
pub(crate) fn instance_at(rows: &[Row], row: RowId) -> Option<Instance>
    ensures { result ≡ children.instance_in (slice_get rows.now row) }
{
    match rows.get(row.number() as usize) {
        Some(row) => instance_of(row),
        None => None,
    }
}

fn instance_of(row: &Row) -> Option<Instance>
    ensures { result ≡ children.instance_in (Some row.now) }
{
    match row {
        Row::Instance { statement, body } => Some(Instance {
            statement: *statement,
            body: *body,
        }),
        _ => None,
    }
}

/// The rows of the group that the row of a number is.
pub(crate) fn group_at<'r>(rows: &'r [Row], row: RowId) -> Option<&'r [RowId]>
    ensures { option_copied result ≡ children.group_in (slice_get rows.now row) }
{
    match rows.get(row.number() as usize) {
        Some(row) => group_of(row),
        None => None,
    }
}

fn group_of(row: &Row) -> Option<&[RowId]>
    ensures { option_copied result ≡ children.group_in (Some row.now) }
{
    match row {
        Row::Group { children } => Some(children.as_slice()),
        _ => None,
    }
}
