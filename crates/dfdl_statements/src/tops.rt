// Which elements are around rows, and which are inside of them.
ghost use Rattle.std.specs.Prelude.{◌≡◌, ◌∷◌, [], ℕ, List, None, Some, IfOk, OnOk, slice_index_or, slice_set};
ghost use Rattle.dfdl_terms.specs.declared.row.Row.{Row as RowOf};
ghost use Rattle.dfdl_statements.specs.Elements as spec;
ghost use Rattle.dfdl_statements.specs.Children.{children_in, content_in};

use crate::rows::{children_of, content_of};
use dfdl_terms::{Row, RowId};
use std::alloc::{AllocError, Global};
use std::marker::Model;

/// Numbers of elements. A contract sees their list.
#[derive(Drop)]
pub(crate) struct ElementList {
    numbers: Vec<usize>,
}

impl Model for ElementList {
    ghost use Rattle.std.specs.Prelude.{List, ℕ};

    ghost Value = { List ℕ };

    ghost view = { λ l. l.numbers.items };
}

impl ElementList {
    fn of(alloc: Global, number: usize) -> Result<ElementList, AllocError>
        ensures { IfOk result (λ l. l ≡ number ∷ []) }
    {
        Ok(ElementList {
            numbers: Vec::from_slice(alloc, &[number])?,
        })
    }

    fn from_vec(numbers: Vec<usize>) -> ElementList
        ensures { result ≡ numbers.items }
    {
        ElementList { numbers }
    }

    fn as_slice(&self) -> &[usize]
        ensures { result.now ≡ self.now }
    {
        self.numbers.as_slice()
    }
}

// Puts an element at a row, where there is such a row.
fn put(table: &mut Vec<Option<usize>>, row: RowId, around: Option<usize>)
    ensures { table.new.items ≡ slice_set table.old.items row around }
{
    let number = row.number() as usize;
    if number < table.len() {
        table[number] = around;
    }
}

fn tell(table: &mut Vec<Option<usize>>, rows: &[RowId], around: Option<usize>)
    ensures { table.new.items ≡ spec.told around rows.now table.old.items }
{
    for row in rows {
        put(table, *row, around);
    }
}

// The element of this number where a row has the content of one, and else the one around.
fn around_inside(element: usize, content: Option<RowId>, around: Option<usize>) -> Option<usize>
    ensures { (count number : ℕ) → element ≡ spec.turned count number → result ≡ spec.around_inside count number content around }
{
    match content {
        Some(_) => Some(element),
        None => around,
    }
}

// The entry of a table.
fn entry(table: &[Option<usize>], number: usize) -> Option<usize>
    ensures { result ≡ slice_index_or table.now number None }
{
    match table.get(number) {
        Some(around) => *around,
        None => None,
    }
}

// Tells the rows in a row which element is around them.
fn tell_inside(
    alloc: Global,
    table: &mut Vec<Option<usize>>,
    element: usize,
    number: usize,
    row: &Row,
) -> Result<(), AllocError>
    ensures { (count : ℕ) → element ≡ spec.turned count number → OnOk result (table.new.items ≡ spec.told_by count number (Some row.now) table.old.items) }
{
    let around = around_inside(element, content_of(row), entry(table.as_slice(), number));
    let children = children_of(alloc, row)?;
    tell(table, children.as_slice(), around);
    Ok(())
}

/// The element around each row, if there is one.
pub(crate) fn arounds(alloc: Global, rows: &[Row]) -> Result<Vec<Option<usize>>, AllocError>
    ensures { IfOk result (λ table. table.items ≡ spec.arounds rows.now) }
{
    let count = rows.len();
    let mut table = vec![in alloc; None; count]?;
    for element in 0..count {
        let number = count - 1 - element;
        tell_inside(alloc, &mut table, element, number, &rows[number])?;
    }
    Ok(table)
}

// The outermost elements of a row, by the table of the rows before it.
fn entry_of(table: &[ElementList], row: RowId) -> &[usize]
    ensures { result.now ≡ slice_index_or table.now row [] }
{
    match table.get(row.number() as usize) {
        Some(list) => list.as_slice(),
        None => &[],
    }
}

// Those of some rows.
fn outermost_of(
    alloc: Global,
    table: &[ElementList],
    rows: &[RowId],
) -> Result<ElementList, AllocError>
    ensures { IfOk result (λ l. l ≡ spec.outermost_of table.now rows.now) }
{
    let mut list = Vec::new(alloc);
    for row in rows {
        list.extend_from_slice(entry_of(table, *row))?;
    }
    Ok(ElementList::from_vec(list))
}

// Those of a row, which has the element of this number if it is one's.
fn outermost(
    alloc: Global,
    table: &[ElementList],
    element: usize,
    row: &Row,
) -> Result<ElementList, AllocError>
    ensures { (count number : ℕ) → element ≡ spec.turned count number
        → IfOk result (λ l. l ≡ spec.outermost count number (content_in (Some row.now)) (children_in (Some row.now)) table.now) }
{
    match content_of(row) {
        Some(_) => ElementList::of(alloc, element),
        None => {
            let children = children_of(alloc, row)?;
            outermost_of(alloc, table, children.as_slice())
        }
    }
}

/// The outermost elements of each row, in schema order.
pub(crate) fn tops(alloc: Global, rows: &[Row]) -> Result<Vec<ElementList>, AllocError>
    ensures { IfOk result (λ table. table.items ≡ spec.tops rows.now) }
{
    let count = rows.len();
    let mut table = Vec::new(alloc);
    for number in 0..count {
        let list = outermost(alloc, table.as_slice(), count - 1 - number, &rows[number])?;
        table.push(list)?;
    }
    Ok(table)
}

/// The outermost elements of the content of an element.
pub(crate) fn inside_of(
    alloc: Global,
    table: &[ElementList],
    content: Option<RowId>,
) -> Result<Vec<usize>, AllocError>
    ensures { (rows : List RowOf) → table.now ≡ spec.tops rows → IfOk result (λ l. l.items ≡ spec.inside_of rows content) }
{
    match content {
        Some(body) => Vec::from_slice(alloc, entry_of(table, body)),
        None => Ok(Vec::new(alloc)),
    }
}
