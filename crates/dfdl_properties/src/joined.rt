// All formats, each joined with the formats that its reference leads to.
ghost use Rattle.std.specs.Prelude.{◌≡◌, ◌<◌, ◌++◌, ◌∷◌, [], ℕ, List, All, length, map, IfOk, IfErr, OnOk, option_to_list};
ghost use Rattle.dfdl_order.specs.declared.fault.OrderFault.TheVariants.{OutOfMemory};
ghost use Rattle.dfdl_order.specs.Parts.{IsOrder, uses_of};
ghost use Rattle.dfdl_scope.specs.Shown.{format_given, given};
ghost use Rattle.dfdl_properties.specs.Formats.{joined, joined_step, parts_of};
ghost use Rattle.dfdl_properties.specs.Shown.{value_by_format, values_by_formats};

use dfdl_order::{Order, OrderFault, Uses};
use dfdl_scope::{Format, Properties};
use std::alloc::{AllocError, Global};

/// The formats with the one that each of them refers to as its part, so that they can be ordered.
pub fn format_parts(alloc: Global, refers: &[Option<u32>]) -> Result<Uses, OrderFault>
    ensures parts { IfOk result (λ uses. uses ≡ parts_of refers.now) }
    ensures only_memory { IfErr result (λ e. e ≡ OutOfMemory) }
{
    let mut uses = Uses::new(alloc);
    for next in refers {
        push_format(&mut uses, *next)?;
    }
    Ok(uses)
}

// Adds a format that refers to another, or to none.
fn push_format(uses: &mut Uses, next: Option<u32>) -> Result<(), OrderFault>
    ensures added { OnOk result (uses.new ≡ uses.old ++ option_to_list next ∷ []) }
    ensures only_memory { IfErr result (λ e. e ≡ OutOfMemory) }
{
    match next {
        Some(format) => uses.push(&[format]),
        None => uses.push(&[]),
    }
}

/// What each format gives, with what it takes from the formats that its reference leads to. Each is
/// joined once, with the one that it refers to: the cost is the number of formats times that of the
/// properties in the table, however long a chain is.
pub fn formats<'t>(
    alloc: Global,
    own: &[Properties<'t>],
    refers: &[Option<u32>],
    order: &Order,
) -> Result<Vec<Format<'t>>, AllocError>
    requires count { length own.now ≡ length refers.now }
    requires order { IsOrder (parts_of refers.now) order.now }
    ensures count { IfOk result (λ formats. length formats.items ≡ length refers.now) }
    ensures each { IfOk result (λ formats. (format : ℕ) (q : List ℕ) → format < length refers.now
        → value_by_format formats.items format q ≡ joined (map given own.now) refers.now format q) }
{
    let mut formats = empty_formats(alloc, refers.len())?;
    for format in order.list() {
        let made = format_at(alloc, own, refers, formats.as_slice(), *format)?;
        formats[*format as usize] = made;
    }
    Ok(formats)
}

// So many formats that give nothing.
fn empty_formats<'t>(alloc: Global, count: usize) -> Result<Vec<Format<'t>>, AllocError>
    ensures { IfOk result (λ formats. length formats.items ≡ count) }
{
    let mut formats = Vec::new(alloc);
    for _ in 0..count {
        formats.push(Format::new(Properties::new(alloc)))?;
    }
    Ok(formats)
}

// What a format gives, where the format that it refers to stands joined in the table.
fn format_at<'t>(
    alloc: Global,
    own: &[Properties<'t>],
    refers: &[Option<u32>],
    formats: &[Format<'t>],
    format: u32,
) -> Result<Format<'t>, AllocError>
    requires own { format < length own.now }
    requires refers { format < length refers.now }
    requires formats { All (λ p. p < length formats.now) (uses_of (parts_of refers.now) format) }
    ensures { IfOk result (λ made. (q : List ℕ) → format_given made q
        ≡ joined_step (map given own.now) q format
        (values_by_formats formats.now q (uses_of (parts_of refers.now) format))) }
{
    let next = match refers[format as usize] {
        Some(next) => Some(&formats[next as usize]),
        None => None,
    };
    let made = Format::over(alloc, &own[format as usize], next)?;
    Ok(made)
}
