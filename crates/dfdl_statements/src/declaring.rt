// What paths see of rows.
ghost use Rattle.std.specs.Prelude.{◌≡◌, ◌<◌, ◌^◌, ℕ, List, Some, IfOk, length, map, slice_get};
ghost use Rattle.std.specs.BTreeMap.{get_by_text};
ghost use Rattle.dfdl_terms.specs.declared.row.Row.{Row as RowOf};
ghost use Rattle.dfdl_statements.specs.Elements as spec;

use crate::names::{name_numbers, names_of, number_of};
use crate::rows::{content_of, name_of, simple_of};
use crate::standing::around_at;
use crate::tops::{ElementList, arounds, inside_of, tops};
use dfdl_expression_types::Element;
use dfdl_terms::{NameNumbers, Row, RowId};
use std::alloc::{AllocError, Global};
use std::collections::BTreeMap;

/// The elements of rows.
#[derive(Drop)]
pub struct Declared {
    /// All elements, of which the first is the root.
    pub elements: Vec<Element>,
    /// The numbers of their local names.
    pub names: BTreeMap<String, u32>,
    /// The same numbers by rows.
    pub numbers: NameNumbers,
}

fn known(number: Option<u32>) -> u32
    ensures { result ≡ spec.known number }
{
    match number {
        Some(number) => number,
        None => 0,
    }
}

// The element of a row.
fn declared_by(
    alloc: Global,
    names: &BTreeMap<String, u32>,
    arounds: &[Option<usize>],
    tops: &[ElementList],
    number: RowId,
    row: &Row,
) -> Result<Element, AllocError>
    ensures { (rows : List RowOf) → ((q : List ℕ) → get_by_text names.now q ≡ spec.named rows q) → arounds.now ≡ spec.arounds rows
        → tops.now ≡ spec.tops rows
        → IfOk result (λ e. spec.declaration_shown e ≡ spec.declared_by rows number (Some row.now)) }
{
    let children = inside_of(alloc, tops, content_of(row))?;
    Ok(Element {
        parent: around_at(arounds, number),
        name: known(number_of(names, name_of(row))),
        simple: simple_of(row),
        children,
    })
}

// The elements of rows.
fn elements(
    alloc: Global,
    rows: &[Row],
    names: &BTreeMap<String, u32>,
) -> Result<Vec<Element>, AllocError>
    requires few { length rows.now < 2 ^ 32 }
    requires names { (q : List ℕ) → get_by_text names.now q ≡ spec.named rows.now q }
    ensures { IfOk result (λ all. map spec.declaration_shown all.items ≡ spec.declarations rows.now) }
{
    let arounds = arounds(alloc, rows)?;
    let tops = tops(alloc, rows)?;
    let count = rows.len();
    let mut all = Vec::new(alloc);
    for element in 0..count {
        let number = count - 1 - element;
        let id = RowId::new(number as u32);
        all.push(declared_by(
            alloc,
            names,
            arounds.as_slice(),
            tops.as_slice(),
            id,
            &rows[number],
        )?)?;
    }
    Ok(all)
}

/// The elements of rows, each of which has its children below it. The last row is the root element's.
pub fn declare(alloc: Global, rows: &[Row]) -> Result<Declared, AllocError>
    requires { length rows.now < 2 ^ 32 }
    ensures elements { IfOk result (λ d. map spec.declaration_shown d.elements.items ≡ spec.declarations rows.now) }
    ensures names { IfOk result (λ d. (q : List ℕ) → get_by_text d.names q ≡ spec.named rows.now q) }
    ensures numbers { IfOk result (λ d. d.numbers ≡ spec.name_numbers rows.now) }
{
    let names = names_of(alloc, rows)?;
    let elements = elements(alloc, rows, &names)?;
    let numbers = name_numbers(alloc, rows, &names)?;
    Ok(Declared {
        elements,
        names,
        numbers,
    })
}
