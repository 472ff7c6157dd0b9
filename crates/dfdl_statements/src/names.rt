// The numbers of the local names of elements.
ghost use Rattle.std.specs.Prelude.{◌≡◌, ◌<◌, ◌≤◌, ◌^◌, ℕ, List, None, Some, IfOk, OnOk, bytes_eq, length, if◌then◌else◌, option_copied, string_bytes};
ghost use Rattle.std.specs.BTreeMap.{get_by_text};
ghost use Rattle.std.specs.Map.{update};
ghost use Rattle.dfdl_terms.specs.declared.row.Row.{Row as RowOf};
ghost use Rattle.dfdl_statements.specs.Elements as spec;

use crate::rows::name_of;
use dfdl_terms::{NameNumbers, Row};
use std::alloc::{AllocError, Global};
use std::collections::BTreeMap;

// One more name, unless it is one already.
fn put(
    names: &mut BTreeMap<String, u32>,
    alloc: Global,
    name: &str,
    number: u32,
) -> Result<(), AllocError>
    ensures { OnOk result ((q : List ℕ) → get_by_text names.new q
        ≡ spec.or_else (get_by_text names.old q) (if bytes_eq name.now q then Some number else None)) }
{
    if names.contains_key(name) {
        return Ok(());
    }
    add(names, String::from_str(alloc, name)?, number)?;
    Ok(())
}

// One more name, in place of what has it.
fn add(names: &mut BTreeMap<String, u32>, name: String, number: u32) -> Result<(), AllocError>
    ensures { OnOk result ((q : List ℕ) → get_by_text names.new q
        ≡ update bytes_eq (get_by_text names.old) (string_bytes name) (Some number) q) }
{
    names.insert(name, number)?;
    Ok(())
}

// The same, where there is a name.
fn put_if(
    names: &mut BTreeMap<String, u32>,
    alloc: Global,
    name: Option<&str>,
    number: u32,
) -> Result<(), AllocError>
    ensures { OnOk result ((q : List ℕ) → get_by_text names.new q
        ≡ spec.or_else (get_by_text names.old q) (if spec.is_text q (option_copied name.entry) then Some number else None)) }
{
    let Some(name) = name else {
        return Ok(());
    };
    put(names, alloc, name, number)
}

/// The numbers of the names of elements.
pub(crate) fn names_of(alloc: Global, rows: &[Row]) -> Result<BTreeMap<String, u32>, AllocError>
    requires { length rows.now < 2 ^ 32 }
    ensures { IfOk result (λ names. (q : List ℕ) → get_by_text names q ≡ spec.named rows.now q) }
{
    let mut names = BTreeMap::new(alloc);
    for number in 0..rows.len() {
        put_if(&mut names, alloc, name_of(&rows[number]), number as u32)?;
    }
    Ok(names)
}

/// The number of a name, if there is one.
pub(crate) fn number_of(names: &BTreeMap<String, u32>, name: Option<&str>) -> Option<u32>
    ensures { (rows : List RowOf) → ((q : List ℕ) → get_by_text names.now q ≡ spec.named rows q)
        → result ≡ spec.number_of rows (option_copied name.entry) }
{
    match name {
        Some(name) => names.get(name).copied(),
        None => None,
    }
}

// The same as a number of the tables.
fn widened(number: Option<u32>) -> Option<usize>
    ensures { result ≡ number }
{
    match number {
        Some(number) => Some(number as usize),
        None => None,
    }
}

/// The number of the local name of each row's element.
pub(crate) fn name_numbers(
    alloc: Global,
    rows: &[Row],
    names: &BTreeMap<String, u32>,
) -> Result<NameNumbers, AllocError>
    requires { (q : List ℕ) → get_by_text names.now q ≡ spec.named rows.now q }
    ensures { IfOk result (λ numbers. numbers ≡ spec.name_numbers rows.now) }
{
    let mut numbers = Vec::new(alloc);
    for number in 0..rows.len() {
        numbers.push(widened(number_of(names, name_of(&rows[number]))))?;
    }
    Ok(NameNumbers::from_vec(numbers))
}
