// How far places are.
ghost use Rattle.std.specs.Prelude.{◌≡◌, if◌then◌else◌};
ghost use Rattle.dfdl_cells.specs.Asking as asking;
ghost use Rattle.dfdl_cells.specs.Places as places;

use crate::asking::{Stop, Told, number, value};
use crate::cell::Cell;
use crate::step::{Mark, Step};
use dfdl_suspend::Known;

// Whether a delimiter of a simple element stands in the normal representation, or in the empty one.
fn is_normal(known: &Known, mark: &Mark) -> Result<bool, Stop>
    ensures { result ≡ asking.is_normal known.now mark.now }
{
    if !mark.empties {
        return Ok(true);
    }
    let bits = number(known, mark.length)?;
    Ok(mark.in_empty || bits != 0)
}

/// Whether a delimiter of a simple element stands.
pub fn stands(cells: &[Cell], known: &Known, mark: &Mark) -> Result<bool, Stop>
    ensures { result ≡ asking.stands cells.now known.now mark.now }
{
    match value(cells, known, mark.value)? {
        Told::Nil => Ok(mark.in_nil),
        Told::Is(_) => is_normal(known, mark),
    }
}

/// The next multiple of so many bits.
pub fn aligned(bits: u32, n: u64) -> u64
    ensures { result ≡ places.aligned bits n }
{
    let bits = u64::from(bits);
    if bits <= 1 || n % bits == 0 {
        return n;
    }
    n.saturating_add(bits - n % bits)
}

// Behind a delimiter of a simple element, which stands or doesn't.
fn marked(mark: &Mark, is_there: bool, n: u64) -> u64
    ensures { result ≡ (if is_there then places.further mark.now.bits n else n) }
{
    if is_there {
        n.saturating_add(mark.bits)
    } else {
        n
    }
}

/// Behind a step, from so many bits on.
pub fn passed(cells: &[Cell], known: &Known, step: &Step, n: u64) -> Result<u64, Stop>
    ensures { result ≡ asking.passed cells.now known.now step.now n }
{
    match step {
        Step::Fixed { bits } => Ok(n.saturating_add(*bits)),
        Step::Align { bits } => Ok(aligned(*bits, n)),
        Step::Marked { mark } => {
            let is_there = stands(cells, known, mark)?;
            Ok(marked(mark, is_there, n))
        }
        Step::Length { cell } => {
            let bits = number(known, *cell)?;
            Ok(n.saturating_add(bits))
        }
        Step::Separator { cell } => {
            let told = number(known, *cell)?;
            Ok(n.saturating_add(told / 2))
        }
    }
}

/// Behind steps, one after another.
pub fn passed_all(cells: &[Cell], known: &Known, steps: &[Step], n: u64) -> Result<u64, Stop>
    ensures { result ≡ asking.passed_all cells.now known.now steps.now n }
{
    let mut at = n;
    for step in steps {
        match passed(cells, known, step, at) {
            Ok(after) => at = after,
            Err(stop) => return Err(stop),
        }
    }
    Ok(at)
}
