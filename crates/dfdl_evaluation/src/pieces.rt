// Whether the bits of pieces are known.
ghost use Rattle.std.specs.Prelude.{◌≡◌, IfOk};
ghost use Rattle.dfdl_cells.specs.Lengths as lengths;
ghost use Rattle.dfdl_cells.specs.Pieces as pieces;
ghost use Rattle.dfdl_cells.specs.Sound.{IsSound};
ghost use Rattle.dfdl_evaluation.specs.AskingPieces as asking;
ghost use Rattle.dfdl_evaluation.specs.AskingSeparators.{separator};

use crate::causes::cause_of;
use crate::contents::written_at;
use crate::lengths::bits_in;
use crate::plan::Plan;
use crate::prefixes::{Prefixed, prefix_of};
use crate::separating::separator;
use crate::writings::delimiter;
use dfdl_cells::asking::{number, value};
use dfdl_cells::passing::{aligned, stands};
use dfdl_cells::placing::{begin, bits_from_start};
use dfdl_cells::{Book, Bound, CellId, Earlier, Mark, Piece, Place, Stands, Stop};
use dfdl_separators::SeparatorPosition;
use dfdl_suspend::{Held, Known};
use dfdl_writings::{Unwritten, Written};
use std::alloc::{AllocError, Global};

/// The cause of a box that is passed by a skip or an alignment.
const PASSES_BOX: u8 = 11;

/// The cause of a content that its box doesn't hold.
const PASSES_CONTENT: u8 = 6;

// The bits of a writing are known, or it has none.
fn known_or(told: &Result<Written, Unwritten>) -> Result<Held, Stop>
    ensures { result ≡ asking.known_or told.now }
{
    match told {
        Ok(_) => Ok(Held::Given),
        Err(cause) => Err(Stop::Fault(cause_of(*cause))),
    }
}

// Fill that ends at a bit of the data stands in a box of so many bits that begins at another one.
fn in_box(bits: u64, end: u64, first: u64) -> Result<Held, Stop>
    ensures { result ≡ asking.in_box bits end first }
{
    if first.saturating_add(bits) < end {
        Err(Stop::Fault(PASSES_BOX))
    } else {
        Ok(Held::Given)
    }
}

// Fill that ends at a bit of the data stands in its box.
fn within(book: &Book, known: &Known, bound: Option<Bound>, end: u64) -> Result<Held, Stop>
    ensures { result ≡ asking.within book.now known.now bound end }
{
    match bound {
        Some(bound) => within_bound(book, known, bound, end),
        None => Ok(Held::Given),
    }
}

// The same of a box.
fn within_bound(book: &Book, known: &Known, bound: Bound, end: u64) -> Result<Held, Stop>
    ensures { result ≡ asking.within_bound book.now known.now bound end }
{
    let first = begin(book, known, Some(bound.complex))?;
    in_box(bound.bits, end, first)
}

// A skip of so many bits stands in its box.
fn skip(
    book: &Book,
    known: &Known,
    bits: u32,
    place: &Place,
    bound: Option<Bound>,
) -> Result<Held, Stop>
    ensures { result ≡ asking.skip book.now known.now bits place.now bound }
{
    let at = bits_from_start(book, known, place)?;
    within(book, known, bound, at.saturating_add(u64::from(bits)))
}

// The fill of an alignment by so many bits stands in its box.
fn align(
    book: &Book,
    known: &Known,
    bits: u32,
    place: &Place,
    bound: Option<Bound>,
) -> Result<Held, Stop>
    ensures { result ≡ asking.align book.now known.now bits place.now bound }
{
    let at = bits_from_start(book, known, place)?;
    within(book, known, bound, aligned(bits, at))
}

/// What a list's delimiter is written as by the component of a number, if there are such.
pub(crate) fn delimiter_of(
    alloc: Global,
    plan: &Plan<'_>,
    component: u32,
    list: u32,
) -> Result<Result<Written, Unwritten>, AllocError>
    ensures { IfOk result (λ told. told ≡ pieces.delimiter_of plan.now component list) }
{
    let Some(writing) = plan.writing(component) else {
        return Ok(Err(Unwritten::NotInEncoding));
    };
    match plan.list(list) {
        Some(list) => delimiter(alloc, &writing.text.new_line, list),
        None => Ok(Err(Unwritten::NotInEncoding)),
    }
}

// The bits of a delimiter are known, or it has no writing.
fn delimiter_known(
    alloc: Global,
    plan: &Plan<'_>,
    component: u32,
    list: u32,
) -> Result<Result<Held, Stop>, AllocError>
    ensures { IfOk result (λ held. held ≡ asking.known_or (pieces.delimiter_of plan.now component list)) }
{
    let told = delimiter_of(alloc, plan, component, list)?;
    Ok(known_or(&told))
}

// A delimiter that stands or doesn't.
fn delimiter_if(
    alloc: Global,
    plan: &Plan<'_>,
    component: u32,
    list: u32,
    is_there: bool,
) -> Result<Result<Held, Stop>, AllocError>
    ensures { IfOk result (λ held. held ≡ asking.delimiter_if plan.now component list is_there) }
{
    if is_there {
        delimiter_known(alloc, plan, component, list)
    } else {
        Ok(Ok(Held::Given))
    }
}

// A delimiter of a simple element.
fn marked(
    alloc: Global,
    plan: &Plan<'_>,
    book: &Book,
    known: &Known,
    component: u32,
    list: u32,
    mark: &Mark,
) -> Result<Result<Held, Stop>, AllocError>
    ensures { IfOk result (λ held. held ≡ asking.marked plan.now book.now known.now component list mark.now) }
{
    match stands(book.cells(), known, mark) {
        Ok(is_there) => delimiter_if(alloc, plan, component, list, is_there),
        Err(stop) => Ok(Err(stop)),
    }
}

/// How many bits a list's delimiter has by the component of a number, if it has a writing.
pub(crate) fn delimiter_bits(
    alloc: Global,
    plan: &Plan<'_>,
    component: u32,
    list: u32,
) -> Result<Result<u64, Unwritten>, AllocError>
    ensures { IfOk result (λ bits. bits ≡ lengths.bits_in (pieces.delimiter_of plan.now component list)) }
{
    let told = delimiter_of(alloc, plan, component, list)?;
    Ok(bits_in(&told))
}

// What the unknown of a separator tells.
fn separated(
    alloc: Global,
    plan: &Plan<'_>,
    book: &Book,
    known: &Known,
    component: u32,
    list: u32,
    position: SeparatorPosition,
    slot: &Stands,
    earlier: Earlier,
) -> Result<Result<Held, Stop>, AllocError>
    ensures { IfOk result (λ held. held ≡ separator book.now known.now position slot.now earlier (lengths.bits_in (pieces.delimiter_of plan.now component list))) }
{
    let bits = delimiter_bits(alloc, plan, component, list)?;
    separator(book, known, position, slot, earlier, &bits)
}

// The place of fill is known.
fn placed(book: &Book, known: &Known, place: &Place) -> Result<Held, Stop>
    ensures { result ≡ asking.placed book.now known.now place.now }
{
    let _at = bits_from_start(book, known, place)?;
    Ok(Held::Given)
}

// The bits of a length prefix are known.
fn prefixed(
    alloc: Global,
    plan: &Plan<'_>,
    book: &Book,
    known: &Known,
    prefix: &Prefixed,
) -> Result<Result<Held, Stop>, AllocError>
    requires { IsSound plan.now book.now }
    ensures { IfOk result (λ held. held ≡ asking.prefix plan.now book.now known.now prefix.now.component prefix.now.form prefix.now.length prefix.now.value prefix.now.markup) }
{
    match prefix_of(alloc, plan, book, known, prefix)? {
        Ok(written) => Ok(known_or(&written)),
        Err(stop) => Ok(Err(stop)),
    }
}

// The bits of a content are known where it has a writing, which asks for its place where it has fill.
fn content_known(
    book: &Book,
    known: &Known,
    place: &Place,
    written: &Result<Written, Unwritten>,
) -> Result<Held, Stop>
    ensures { result ≡ asking.content_known book.now known.now place.now written.now }
{
    match written {
        Ok(one) => {
            if one.fill > 0 {
                placed(book, known, place)
            } else {
                Ok(Held::Given)
            }
        }
        Err(cause) => Err(Stop::Fault(cause_of(*cause))),
    }
}

// The bits of the content of a simple element.
fn content(
    alloc: Global,
    plan: &Plan<'_>,
    book: &Book,
    known: &Known,
    component: u32,
    first: CellId,
    markup: u32,
    place: &Place,
) -> Result<Result<Held, Stop>, AllocError>
    requires { IsSound plan.now book.now }
    ensures { IfOk result (λ held. held ≡ asking.content plan.now book.now known.now component first markup place.now) }
{
    match value(book.cells(), known, first) {
        Ok(told) => {
            let written = written_at(alloc, plan, book, component, markup, told)?;
            Ok(content_known(book, known, place, &written))
        }
        Err(stop) => Ok(Err(stop)),
    }
}

// The fill behind a content of so many bits in a box.
fn rest_known(
    book: &Book,
    known: &Known,
    bits: u64,
    place: &Place,
    length: u64,
) -> Result<Held, Stop>
    ensures { result ≡ asking.rest_known book.now known.now bits place.now length }
{
    if bits < length {
        Err(Stop::Fault(PASSES_CONTENT))
    } else {
        placed(book, known, place)
    }
}

// The fill of a box behind the content of an element with parts.
fn rest(book: &Book, known: &Known, inside: CellId, bits: u64, place: &Place) -> Result<Held, Stop>
    ensures { result ≡ asking.rest book.now known.now inside bits place.now }
{
    let length = number(known, inside)?;
    rest_known(book, known, bits, place, length)
}

/// Whether the bits of a piece are known, whose unknown this is.
pub(crate) fn of_piece(
    alloc: Global,
    plan: &Plan<'_>,
    book: &Book,
    known: &Known,
    cell: CellId,
    piece: &Piece,
) -> Result<Result<Held, Stop>, AllocError>
    requires { IsSound plan.now book.now }
    ensures { IfOk result (λ held. held ≡ asking.of_piece plan.now book.now known.now cell piece.now) }
{
    match piece {
        Piece::Skip {
            bits,
            place,
            bound,
            ..
        } => Ok(skip(book, known, *bits, place, *bound)),
        Piece::Align {
            bits,
            place,
            bound,
            ..
        } => Ok(align(book, known, *bits, place, *bound)),
        Piece::Delimiter { component, list } => delimiter_known(alloc, plan, *component, *list),
        Piece::Marked {
            component,
            list,
            mark,
        } => marked(alloc, plan, book, known, *component, *list, mark),
        Piece::Separator {
            component,
            list,
            position,
            stands,
            earlier,
        } => separated(
            alloc, plan, book, known, *component, *list, *position, stands, *earlier,
        ),
        Piece::Prefix {
            component,
            prefix,
            length,
            value,
            markup,
        } => {
            let prefix = Prefixed {
                component: *component,
                form: *prefix,
                length: *length,
                value: *value,
                markup: *markup,
            };
            prefixed(alloc, plan, book, known, &prefix)
        }
        Piece::Content {
            component,
            first,
            markup,
            place,
        } => content(alloc, plan, book, known, *component, *first, *markup, place),
        Piece::Rest {
            inside,
            bits,
            place,
            ..
        } => Ok(rest(book, known, *inside, *bits, place)),
        Piece::End { place, .. } => Ok(placed(book, known, place)),
        Piece::Missing => Ok(Err(Stop::Wait(cell))),
    }
}
