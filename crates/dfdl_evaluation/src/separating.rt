// What the unknowns of separators tell.
ghost use Rattle.std.specs.Prelude.{◌≡◌, IfOk};
ghost use Rattle.dfdl_cells.specs.Asking.{passed_all};
ghost use Rattle.dfdl_cells.specs.Separators as separators;
ghost use Rattle.dfdl_evaluation.specs.AskingSeparators as asking;

use crate::causes::cause_of;
use dfdl_cells::asking::number;
use dfdl_cells::passing::passed;
use dfdl_cells::placing::steps_between;
use dfdl_cells::{Book, Cell, CellId, Earlier, SlotEnd, Stands, Step, Stop};
use dfdl_separators::SeparatorPosition;
use dfdl_suspend::{Held, Known};
use dfdl_writings::Unwritten;
use std::alloc::AllocError;

// The fill of an alignment counts for no length of a slot: behind the other steps, one after another.
fn passed_unaligned(cells: &[Cell], known: &Known, steps: &[Step], n: u64) -> Result<u64, Stop>
    ensures { result ≡ passed_all cells.now known.now (separators.unaligned steps.now) n }
{
    let mut at = n;
    for step in steps {
        match passed_if(cells, known, step, at) {
            Ok(after) => at = after,
            Err(stop) => return Err(stop),
        }
    }
    Ok(at)
}

// Behind a step that is none of an alignment.
fn passed_if(cells: &[Cell], known: &Known, step: &Step, n: u64) -> Result<u64, Stop>
    ensures { result ≡ asking.passed_if cells.now known.now step.now n }
{
    match step {
        Step::Align { .. } => Ok(n),
        Step::Fixed { .. } => passed(cells, known, step, n),
        Step::Marked { .. } => passed(cells, known, step, n),
        Step::Length { .. } => passed(cells, known, step, n),
        Step::Separator { .. } => passed(cells, known, step, n),
    }
}

// Whether a slot has a bit.
pub(crate) fn is_long(book: &Book, known: &Known, slot: SlotEnd) -> Result<bool, Stop>
    ensures { result ≡ asking.is_long book.now known.now slot }
{
    let steps = steps_between(
        book.complex(slot.around),
        slot.first as usize,
        slot.count as usize,
    );
    let bits = passed_unaligned(book.cells(), known, steps, 0)?;
    Ok(bits != 0)
}

// Whether the slot of a separator is written, or one before it.
fn told_by(known: &Known, cell: CellId) -> Result<bool, Stop>
    ensures { result ≡ asking.told_by known.now cell }
{
    let told = number(known, cell)?;
    Ok(told % 2 == 1)
}

// Whether the slot of a later separator is written, if there is one.
fn is_later(known: &Known, later: Option<CellId>) -> Result<bool, Stop>
    ensures { result ≡ asking.is_later known.now later }
{
    match later {
        Some(cell) => told_by(known, cell),
        None => Ok(false),
    }
}

// Whether a slot has a bit, or that of a later separator is written.
fn is_long_or_later(
    book: &Book,
    known: &Known,
    slot: SlotEnd,
    later: Option<CellId>,
) -> Result<bool, Stop>
    ensures { result ≡ asking.stands book.now known.now (Stands.IfLater slot later) }
{
    let long = is_long(book, known, slot)?;
    if long {
        return Ok(true);
    }
    is_later(known, later)
}

// Whether a slot is written.
pub(crate) fn stands(book: &Book, known: &Known, slot: Stands) -> Result<bool, Stop>
    ensures { result ≡ asking.stands book.now known.now slot }
{
    match slot {
        Stands::Always => Ok(true),
        Stands::IfLong(slot) => is_long(book, known, slot),
        Stands::IfLater(slot, later) => is_long_or_later(book, known, slot, later),
    }
}

// Whether an earlier slot is written.
pub(crate) fn is_earlier(book: &Book, known: &Known, earlier: Earlier) -> Result<bool, Stop>
    ensures { result ≡ asking.is_earlier book.now known.now earlier }
{
    match earlier {
        Earlier::None => Ok(false),
        Earlier::Some => Ok(true),
        Earlier::IfLong(slot) => is_long(book, known, slot),
        Earlier::Told(cell) => told_by(known, cell),
    }
}

// A separator between slots stands where an earlier one is written too, every other one with its slot.
pub(crate) fn is_there(position: SeparatorPosition, written: bool, before: bool) -> bool
    ensures { result ≡ separators.is_there position written before }
{
    match position {
        SeparatorPosition::Prefix => written,
        SeparatorPosition::Infix => written && before,
        SeparatorPosition::Postfix => written,
    }
}

// What a separator tells of slots: that one is written.
fn tells(slot: &Stands, written: bool, before: bool) -> bool
    ensures { result ≡ separators.tells slot.now written before }
{
    match slot {
        Stands::Always => written || before,
        Stands::IfLong(_) => written || before,
        Stands::IfLater(_, _) => written,
    }
}

// One more, where it is so.
fn one_if(so: bool) -> u64
    ensures { result ≡ separators.one_if so }
{
    if so { 1 } else { 0 }
}

// What the unknown of a separator of so many bits tells. More bits than fit into 64 are more than there is memory for.
fn told(is_there: bool, bits: u64, told: bool) -> Result<u64, AllocError>
    ensures { IfOk result (λ number. number ≡ asking.number_of is_there bits told) }
{
    if !is_there {
        return Ok(one_if(told));
    }
    if bits > 1 << 62 {
        return Err(AllocError);
    }
    Ok(2 * bits + one_if(told))
}

// What the unknown of a separator tells by its bits, if it has a writing.
fn tells_by(
    position: SeparatorPosition,
    slot: &Stands,
    written: bool,
    before: bool,
    bits: &Result<u64, Unwritten>,
) -> Result<Result<Held, Stop>, AllocError>
    ensures { IfOk result (λ held. held ≡ asking.tells_by position slot.now written before bits.now) }
{
    let is_there = is_there(position, written, before);
    let tells = tells(slot, written, before);
    match bits {
        Ok(bits) => {
            let number = told(is_there, *bits, tells)?;
            Ok(Ok(Held::Number(number)))
        }
        Err(cause) => Ok(told_or(is_there, tells, *cause)),
    }
}

// The same of one that has no writing, for this cause.
fn told_or(is_there: bool, tells: bool, cause: Unwritten) -> Result<Held, Stop>
    ensures { result ≡ asking.told_or is_there tells cause }
{
    if is_there {
        Err(Stop::Fault(cause_of(cause)))
    } else {
        Ok(Held::Number(one_if(tells)))
    }
}

/// What the unknown of a separator tells by what is known of slots; its bits, if it has a writing, are these.
pub(crate) fn separator(
    book: &Book,
    known: &Known,
    position: SeparatorPosition,
    slot: &Stands,
    earlier: Earlier,
    bits: &Result<u64, Unwritten>,
) -> Result<Result<Held, Stop>, AllocError>
    ensures { IfOk result (λ held. held ≡ asking.separator book.now known.now position slot.now earlier bits.now) }
{
    let before = match is_earlier(book, known, earlier) {
        Ok(before) => before,
        Err(stop) => return Ok(Err(stop)),
    };
    match stands(book, known, *slot) {
        Ok(written) => tells_by(position, slot, written, before, bits),
        Err(stop) => Ok(Err(stop)),
    }
}
