// Which elements of a schema are items of arrays ('Arrays and Optional Elements').
ghost use Rattle.dfdl_terms.specs.Arrays.{item_marks, is_item_in, is_item_of, is_marked, MarksItems};
ghost use Rattle.dfdl_terms.specs.Rows.{ChildrenBelow};
ghost use Rattle.std.specs.Prelude.{◌≡◌, ◌<◌, ◌||◌, ℕ, All, IfOk, IsTrue, length, nat_eq, slice_get, vec_len};
ghost use Rattle.std.specs.List.{list_any};

use super::row::{Row, RowId};
use super::slots::Slot;
use super::terms::Terms;
use std::alloc::{AllocError, Global};
use std::marker::Model;

/// The rows of a schema whose elements are items of arrays.
#[derive(Debug, Drop)]
pub struct Items {
    marks: Vec<bool>,
}

impl Model for Items {
    ghost use Rattle.std.specs.Prelude.{List, Bool};

    ghost Value = { List Bool };

    ghost view = { λ i. i.marks.items };
}

impl Items {
    /// The items of these terms, by one pass over their rows.
    pub fn of(alloc: Global, terms: &Terms) -> Result<Items, AllocError>
        ensures items { IfOk result (λ items. items ≡ item_marks terms.now.rows) }
        ensures marks { MarksItems terms.now.rows (item_marks terms.now.rows) }
    {
        let mut marks = vec![in alloc; false; terms.rows() as usize]?;
        for row in 0..terms.rows() {
            mark_repeated(terms, terms.row(RowId::new(row)), &mut marks);
        }
        Ok(Items { marks })
    }

    /// Whether the elements of this row are items of an array.
    pub fn has(&self, row: RowId) -> bool
        ensures { result ≡ is_marked self.now row }
    {
        match self.marks.get(row.number() as usize) {
            Some(mark) => *mark,
            None => false,
        }
    }
}

// Marks what a row repeats.
fn mark_repeated(terms: &Terms, row: &Row, marks: &mut Vec<bool>)
    requires whole { length terms.now.rows ≡ vec_len marks.old }
    requires below { ChildrenBelow (length terms.now.rows) row.now }
    ensures marked { (e : ℕ) → is_marked marks.new.items e ≡ (is_marked marks.old.items e || is_item_of terms.now.rows e row.now) }
    ensures many { vec_len marks.new ≡ vec_len marks.old }
{
    match row {
        Row::Repeat { body, .. } => {
            mark(marks, &[*body]);
            if let Row::Group { children } = terms.row(*body) {
                mark(marks, children.as_slice());
            }
        }
        Row::Counted { body, .. } => mark(marks, &[*body]),
        Row::Optional {
            is_item: true,
            body,
            ..
        } => mark(marks, &[*body]),
        Row::Separated { slots, .. } => mark_slots(marks, slots.as_slice()),
        _ => {}
    }
}

// Marks the rows of the slots whose occurrences are items.
fn mark_slots(marks: &mut Vec<bool>, slots: &[Slot])
    requires { All (λ slot. slot.body < vec_len marks.old) slots.now }
    ensures marked { (e : ℕ) → is_marked marks.new.items e ≡ (is_marked marks.old.items e || list_any (is_item_in e) slots.now) }
    ensures many { vec_len marks.new ≡ vec_len marks.old }
{
    for slot in slots {
        mark_slot(marks, slot);
    }
}

// Marks the row of a slot whose occurrences are items.
fn mark_slot(marks: &mut Vec<bool>, slot: &Slot)
    requires { slot.now.body < vec_len marks.old }
    ensures marked { (e : ℕ) → is_marked marks.new.items e ≡ (is_marked marks.old.items e || is_item_in e slot.now) }
    ensures many { vec_len marks.new ≡ vec_len marks.old }
{
    if slot.is_item {
        mark(marks, &[slot.body]);
    }
}

// Marks rows.
fn mark(marks: &mut Vec<bool>, rows: &[RowId])
    requires { All (λ row. row < vec_len marks.old) rows.now }
    ensures marked { (e : ℕ) → is_marked marks.new.items e ≡ (is_marked marks.old.items e || list_any (nat_eq e) rows.now) }
    ensures many { vec_len marks.new ≡ vec_len marks.old }
{
    for row in rows {
        marks[row.number() as usize] = true;
    }
}
