// The elements that a schema declares, by the rows of its terms.
ghost use Rattle.std.specs.Prelude.{◌≡◌, ◌<◌, ◌+◌, ◌++◌, IfOk, IfSome, OnOk, map, option_map, slice_get};
ghost use Rattle.std.specs.List.{flat_map};
ghost use Rattle.dfdl_terms.specs.Rows.{ChildrenBelow, Nests};
ghost use Rattle.dfdl_json.specs.Children as children;
ghost use Rattle.dfdl_json.specs.Steps.{steps_of, total};

use dfdl_terms::{Key, Row, RowId, Slot, Terms};
use std::alloc::{AllocError, Global};
use std::collections::VecDeque;

/// The row of this number, if there is one.
pub fn row_at(terms: &Terms, id: RowId) -> Option<&Row>
    ensures row { option_map (λ row. row.now) result ≡ slice_get terms.now.rows id }
    ensures nests { IfSome result (λ row. ChildrenBelow id row.now) }
{
    if id.number() < terms.rows() {
        Some(terms.row(id))
    } else {
        None
    }
}

/// The row of the root element, which is the last one.
pub fn root_row(terms: &Terms) -> RowId
    ensures row { result ≡ children.root_row terms.now }
    ensures nests { Nests terms.now.rows }
{
    RowId::new(terms.rows() - 1)
}

/// The local name of the element of this row; other rows have the empty one.
pub fn name_of(terms: &Terms, id: RowId) -> &str
    ensures { result.now ≡ children.name_of terms.now id }
{
    match row_at(terms, id) {
        Some(Row::Elem { name, .. }) => name.as_str(),
        _ => "",
    }
}

/// The elements that the content of this row declares, through groups, choices and boxes, in schema order.
pub fn elements_in(alloc: Global, terms: &Terms, id: RowId) -> Result<Vec<RowId>, AllocError>
    ensures { IfOk result (λ rows. rows.items ≡ children.elements_in terms.now id) }
{
    let mut elements = Vec::new(alloc);
    let mut left = VecDeque::new(alloc);
    left.push_front(id)?;
    while let Some(row) = left.pop_front() {
        visit(terms, row, &mut elements, &mut left)?;
    }
    Ok(elements)
}

// An element is put behind the others, and the children of a group, the branches of a choice, the rows of slots, or the body of a scope,
// a box, a hidden row, a content without a box, an open instance, a repetition or a row behind which statements are done before the rows
// that are left.
fn visit(
    terms: &Terms,
    row: RowId,
    elements: &mut Vec<RowId>,
    left: &mut VecDeque<RowId>,
) -> Result<(), AllocError>
    ensures same { OnOk result (elements.new.items ++ flat_map (children.elements_in terms.now) left.new.items
        ≡ elements.old.items ++ (children.elements_in terms.now row ++ flat_map (children.elements_in terms.now) left.old.items)) }
    ensures less { OnOk result (total (map (steps_of terms.now) left.new.items)
        < steps_of terms.now row + total (map (steps_of terms.now) left.old.items)) }
{
    match row_at(terms, row) {
        Some(Row::Elem { .. }) => {
            elements.push(row)?;
            Ok(())
        }
        Some(Row::Group { children }) => push_all(left, children.as_slice()),
        Some(Row::Leaf { .. }) => Ok(()),
        Some(Row::Skip { .. }) => Ok(()),
        Some(Row::Align { .. }) => Ok(()),
        Some(Row::Initiator { .. }) => Ok(()),
        Some(Row::Terminator { .. }) => Ok(()),
        Some(Row::Separator) => Ok(()),
        Some(Row::Scope { body, .. }) => push_all(left, &[*body]),
        Some(Row::Boxed { body, .. }) => push_all(left, &[*body]),
        Some(Row::PrefixedLeaf { .. }) => Ok(()),
        Some(Row::PrefixedBox { body, .. }) => push_all(left, &[*body]),
        Some(Row::MeasuredLeaf { .. }) => Ok(()),
        Some(Row::MeasuredBox { body, .. }) => push_all(left, &[*body]),
        Some(Row::Repeat { body, .. }) => push_all(left, &[*body]),
        Some(Row::Counted { body, .. }) => push_all(left, &[*body]),
        Some(Row::Optional { body, .. }) => push_all(left, &[*body]),
        Some(Row::Choice { branches, .. }) => push_all(left, branches.as_slice()),
        Some(Row::Dispatch { keys, .. }) => push_keys(left, keys.as_slice()),
        Some(Row::Statement { .. }) => Ok(()),
        Some(Row::Concluded { body, .. }) => push_all(left, &[*body]),
        Some(Row::Hidden { body }) => push_all(left, &[*body]),
        Some(Row::Spanned { body }) => push_all(left, &[*body]),
        Some(Row::Instance { body, .. }) => push_all(left, &[*body]),
        Some(Row::Separated { slots, .. }) => push_slots(left, slots.as_slice()),
        None => Ok(()),
    }
}

// Puts the rows of slots before those that are left.
fn push_slots(left: &mut VecDeque<RowId>, slots: &[Slot]) -> Result<(), AllocError>
    ensures { OnOk result (left.new.items ≡ children.bodies_of slots.now ++ left.old.items) }
{
    for at in (0..slots.len()).rev() {
        left.push_front(slots[at].body)?;
    }
    Ok(())
}

// Puts the rows of keys before those that are left.
fn push_keys(left: &mut VecDeque<RowId>, keys: &[Key]) -> Result<(), AllocError>
    ensures { OnOk result (left.new.items ≡ children.keyed keys.now ++ left.old.items) }
{
    for at in (0..keys.len()).rev() {
        left.push_front(keys[at].body)?;
    }
    Ok(())
}

/// Puts rows before those that are left.
pub fn push_all(left: &mut VecDeque<RowId>, rows: &[RowId]) -> Result<(), AllocError>
    ensures { OnOk result (left.new.items ≡ rows.now ++ left.old.items) }
{
    for at in (0..rows.len()).rev() {
        left.push_front(rows[at])?;
    }
    Ok(())
}
