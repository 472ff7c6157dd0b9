// Which elements of a schema are hidden ('Sequence Groups', on hidden groups).
ghost use Rattle.std.specs.Prelude.{◌≡◌, ◌<◌, All, IfOk, vec_len};
ghost use Rattle.dfdl_terms.specs.Arrays.{is_marked};
ghost use Rattle.dfdl_terms.specs.Rows.{ChildrenBelow};
ghost use Rattle.dfdl_json.specs.Children.{bodies_of, keyed};
ghost use Rattle.dfdl_json.specs.Hidden.{MarksHidden};
ghost use Rattle.dfdl_json.specs.Marking as marking;

use dfdl_terms::{Key, Row, RowId, Slot, Terms};
use std::alloc::{AllocError, Global};
use std::marker::Model;

// The rows of a schema whose elements an infoset doesn't have.
#[derive(Drop)]
pub(crate) struct Hidden {
    marks: Vec<bool>,
}

impl Model for Hidden {
    ghost use Rattle.std.specs.Prelude.{List, Bool};

    ghost Value = { List Bool };

    ghost view = { λ h. h.marks.items };
}

impl Hidden {
    // Those of these terms, by one pass over their rows from the last to the first.
    pub(crate) fn of(alloc: Global, terms: &Terms) -> Result<Hidden, AllocError>
        ensures { IfOk result (λ hidden. MarksHidden terms.now hidden) }
    {
        let mut marks = vec![in alloc; false; terms.rows() as usize]?;
        for row in (0..terms.rows()).rev() {
            let id = RowId::new(row);
            pass_on(id, terms.row(id), &mut marks);
        }
        Ok(Hidden { marks })
    }

    // Whether the elements of this row are hidden.
    pub(crate) fn has(&self, row: RowId) -> bool
        ensures { result ≡ is_marked self.now row }
    {
        match self.marks.get(row.number() as usize) {
            Some(mark) => *mark,
            None => false,
        }
    }
}

// The mark of a row goes to those that stand in its place.
fn pass_on(id: RowId, row: &Row, marks: &mut Vec<bool>)
    requires here { id < vec_len marks.old }
    requires below { ChildrenBelow id row.now }
    ensures { marks.new.items ≡ marking.passed_on id row.now marks.old.items }
{
    let at = id.number() as usize;
    if goes_on(row, marks[at]) {
        marks[at] = false;
        mark_parts(id, row, marks);
    }
}

// Whether the mark of a row goes to those that stand in its place.
fn goes_on(row: &Row, marked: bool) -> bool
    ensures { result ≡ marking.goes_on row.now marked }
{
    match row {
        Row::Elem { .. } => false,
        Row::Hidden { .. } => true,
        _ => marked,
    }
}

// Marks the rows that stand in the place of a row.
fn mark_parts(id: RowId, row: &Row, marks: &mut Vec<bool>)
    requires here { id < vec_len marks.old }
    requires below { ChildrenBelow id row.now }
    ensures { marks.new.items ≡ marking.all_marked marks.old.items (marking.parts_in row.now) }
{
    match row {
        Row::Group { children } => mark(marks, children.as_slice()),
        Row::Choice { branches, .. } => mark(marks, branches.as_slice()),
        Row::Dispatch { keys, .. } => mark_keys(marks, keys.as_slice()),
        Row::Separated { slots, .. } => mark_slots(marks, slots.as_slice()),
        Row::Scope { body, .. } => mark(marks, &[*body]),
        Row::Concluded { body, .. } => mark(marks, &[*body]),
        Row::Boxed { body, .. } => mark(marks, &[*body]),
        Row::PrefixedBox { body, .. } => mark(marks, &[*body]),
        Row::MeasuredBox { body, .. } => mark(marks, &[*body]),
        Row::Repeat { body, .. } => mark(marks, &[*body]),
        Row::Counted { body, .. } => mark(marks, &[*body]),
        Row::Optional { body, .. } => mark(marks, &[*body]),
        Row::Hidden { body } => mark(marks, &[*body]),
        Row::Spanned { body } => mark(marks, &[*body]),
        Row::Instance { body, .. } => mark(marks, &[*body]),
        _ => {}
    }
}

// Marks rows.
fn mark(marks: &mut Vec<bool>, rows: &[RowId])
    requires { All (λ row. row < vec_len marks.old) rows.now }
    ensures { marks.new.items ≡ marking.all_marked marks.old.items rows.now }
{
    for at in (0..rows.len()).rev() {
        marks[rows[at].number() as usize] = true;
    }
}

// Marks the rows of slots.
fn mark_slots(marks: &mut Vec<bool>, slots: &[Slot])
    requires { All (λ slot. slot.body < vec_len marks.old) slots.now }
    ensures { marks.new.items ≡ marking.all_marked marks.old.items (bodies_of slots.now) }
{
    for at in (0..slots.len()).rev() {
        marks[slots[at].body.number() as usize] = true;
    }
}

// Marks the rows of keys.
fn mark_keys(marks: &mut Vec<bool>, keys: &[Key])
    requires { All (λ key. key.body < vec_len marks.old) keys.now }
    ensures { marks.new.items ≡ marking.all_marked marks.old.items (keyed keys.now) }
{
    for at in (0..keys.len()).rev() {
        marks[keys[at].body.number() as usize] = true;
    }
}
