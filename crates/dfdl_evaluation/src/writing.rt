// What is written of pieces.
ghost use Rattle.std.specs.Prelude.{◌≡◌, ◌-◌, IfOk, option_copied};
ghost use Rattle.dfdl_cells.specs.Pieces as pieces;
ghost use Rattle.dfdl_cells.specs.Plans.{writing_of};
ghost use Rattle.dfdl_cells.specs.Sound.{IsSound};
ghost use Rattle.dfdl_evaluation.specs.AskingBits as asking;
ghost use Rattle.dfdl_evaluation.specs.Written as written;
ghost use Rattle.dfdl_forms.specs.declared.order.BitOrder.{BitOrder as Order};

use crate::causes::cause_of;
use crate::contents::written_at;
use crate::piece_bits::PieceBits;
use crate::pieces::delimiter_of;
use crate::plan::Plan;
use crate::prefixes::{Prefixed, prefix_of};
use crate::separating::{is_earlier, is_there, stands};
use dfdl_cells::asking::{number, value};
use dfdl_cells::passing::aligned;
use dfdl_cells::placing::bits_from_start;
use dfdl_cells::{Book, CellId, Earlier, Mark, Piece, Place, Stands, Stop};
use dfdl_separators::SeparatorPosition;
use dfdl_suspend::Known;
use dfdl_value::ByteValue;
use dfdl_writings::{Unwritten, Written};
use std::alloc::{AllocError, Global};

// So many bits of fill from a bit of the data on.
fn filled(alloc: Global, fill_byte: u8, fill_at: u64, fill: u64) -> PieceBits
    ensures { result ≡ asking.filled fill_byte fill_at fill }
{
    PieceBits {
        bytes: ByteValue::from_vec(Vec::new(alloc)),
        bits: 0,
        fill_byte,
        fill_at,
        fill,
    }
}

// The bits of a writing without fill.
fn whole(one: Written) -> PieceBits
    ensures { result ≡ asking.whole one }
{
    PieceBits {
        bytes: one.bytes,
        bits: one.bits,
        fill_byte: 0,
        fill_at: 0,
        fill: 0,
    }
}

// The bits of a writing with the fill behind them, where it begins at a bit of the data.
fn with_fill(one: Written, fill_byte: u8, at: u64) -> PieceBits
    ensures { result ≡ asking.with_fill one fill_byte at }
{
    PieceBits {
        bytes: one.bytes,
        bits: one.bits,
        fill_byte,
        fill_at: at.saturating_add(one.bits),
        fill: one.fill,
    }
}

// The bits of a writing, if there is one.
fn of_writing(told: Result<Written, Unwritten>) -> Result<PieceBits, Stop>
    ensures { result ≡ asking.of_writing told }
{
    match told {
        Ok(one) => Ok(whole(one)),
        Err(cause) => Err(Stop::Fault(cause_of(cause))),
    }
}

// The bits of a delimiter.
fn delimiter_bits(
    alloc: Global,
    plan: &Plan<'_>,
    component: u32,
    list: u32,
) -> Result<Result<PieceBits, Stop>, AllocError>
    ensures { IfOk result (λ bits. bits ≡ asking.of_writing (pieces.delimiter_of plan.now component list)) }
{
    let told = delimiter_of(alloc, plan, component, list)?;
    Ok(of_writing(told))
}

// The bits of a delimiter that stands or doesn't.
fn delimiter_if(
    alloc: Global,
    plan: &Plan<'_>,
    component: u32,
    list: u32,
    is_there: bool,
) -> Result<Result<PieceBits, Stop>, AllocError>
    ensures { IfOk result (λ bits. bits ≡ asking.writing_if is_there (pieces.delimiter_of plan.now component list)) }
{
    if is_there {
        delimiter_bits(alloc, plan, component, list)
    } else {
        Ok(Ok(filled(alloc, 0, 0, 0)))
    }
}

fn skip(
    alloc: Global,
    book: &Book,
    known: &Known,
    bits: u32,
    fill: u8,
    place: &Place,
) -> Result<PieceBits, Stop>
    ensures { result ≡ asking.skip book.now known.now bits fill place.now }
{
    let at = bits_from_start(book, known, place)?;
    Ok(filled(alloc, fill, at, u64::from(bits)))
}

fn align(
    alloc: Global,
    book: &Book,
    known: &Known,
    bits: u32,
    fill: u8,
    place: &Place,
) -> Result<PieceBits, Stop>
    ensures { result ≡ asking.align book.now known.now bits fill place.now }
{
    let at = bits_from_start(book, known, place)?;
    let end = aligned(bits, at);
    Ok(filled(alloc, fill, at, end.saturating_sub(at)))
}

fn marked(
    alloc: Global,
    plan: &Plan<'_>,
    book: &Book,
    known: &Known,
    component: u32,
    list: u32,
    mark: &Mark,
) -> Result<Result<PieceBits, Stop>, AllocError>
    ensures { IfOk result (λ bits. bits ≡ asking.marked plan.now book.now known.now component list mark.now) }
{
    match dfdl_cells::passing::stands(book.cells(), known, mark) {
        Ok(is_there) => delimiter_if(alloc, plan, component, list, is_there),
        Err(stop) => Ok(Err(stop)),
    }
}

// Whether a separator stands.
fn stands_there(
    book: &Book,
    known: &Known,
    position: SeparatorPosition,
    slot: Stands,
    earlier: Earlier,
) -> Result<bool, Stop>
    ensures { result ≡ asking.stands_there book.now known.now position slot earlier }
{
    let before = is_earlier(book, known, earlier)?;
    let written = stands(book, known, slot)?;
    Ok(is_there(position, written, before))
}

fn separator(
    alloc: Global,
    plan: &Plan<'_>,
    book: &Book,
    known: &Known,
    component: u32,
    list: u32,
    position: SeparatorPosition,
    slot: Stands,
    earlier: Earlier,
) -> Result<Result<PieceBits, Stop>, AllocError>
    ensures { IfOk result (λ bits. bits ≡ asking.separator plan.now book.now known.now component list position slot earlier) }
{
    match stands_there(book, known, position, slot, earlier) {
        Ok(is_there) => delimiter_if(alloc, plan, component, list, is_there),
        Err(stop) => Ok(Err(stop)),
    }
}

fn prefix(
    alloc: Global,
    plan: &Plan<'_>,
    book: &Book,
    known: &Known,
    prefixed: &Prefixed,
) -> Result<Result<PieceBits, Stop>, AllocError>
    requires { IsSound plan.now book.now }
    ensures { IfOk result (λ bits. bits ≡ asking.prefix plan.now book.now known.now prefixed.now.component prefixed.now.form prefixed.now.length prefixed.now.value prefixed.now.markup) }
{
    match prefix_of(alloc, plan, book, known, prefixed)? {
        Ok(told) => Ok(of_writing(told)),
        Err(stop) => Ok(Err(stop)),
    }
}

// The byte of fill of a component.
fn fill_of(plan: &Plan<'_>, component: u32) -> u8
    ensures { result ≡ written.fill_in (writing_of plan.now component) }
{
    match plan.writing(component) {
        Some(writing) => writing.fill,
        None => 0,
    }
}

// The bits of a writing with fill that begins at a place.
fn behind(
    book: &Book,
    known: &Known,
    place: &Place,
    fill: u8,
    one: Written,
) -> Result<PieceBits, Stop>
    ensures { result ≡ asking.behind book.now known.now place.now fill one }
{
    match bits_from_start(book, known, place) {
        Ok(at) => Ok(with_fill(one, fill, at)),
        Err(stop) => Err(stop),
    }
}

// The bits of a content that begins at a place, by its writing.
fn content_by(
    book: &Book,
    known: &Known,
    place: &Place,
    fill: u8,
    told: Result<Written, Unwritten>,
) -> Result<PieceBits, Stop>
    ensures { result ≡ asking.content_by book.now known.now place.now fill told }
{
    match told {
        Ok(one) => {
            if one.fill > 0 {
                behind(book, known, place, fill, one)
            } else {
                Ok(whole(one))
            }
        }
        Err(cause) => Err(Stop::Fault(cause_of(cause))),
    }
}

fn content(
    alloc: Global,
    plan: &Plan<'_>,
    book: &Book,
    known: &Known,
    component: u32,
    first: CellId,
    markup: u32,
    place: &Place,
) -> Result<Result<PieceBits, Stop>, AllocError>
    requires { IsSound plan.now book.now }
    ensures { IfOk result (λ bits. bits ≡ asking.content plan.now book.now known.now component first markup place.now) }
{
    match value(book.cells(), known, first) {
        Ok(told) => {
            let written = written_at(alloc, plan, book, component, markup, told)?;
            let fill = fill_of(plan, component);
            Ok(content_by(book, known, place, fill, written))
        }
        Err(stop) => Ok(Err(stop)),
    }
}

fn rest(
    alloc: Global,
    book: &Book,
    known: &Known,
    inside: CellId,
    bits: u64,
    fill: u8,
    place: &Place,
) -> Result<PieceBits, Stop>
    ensures { result ≡ asking.rest book.now known.now inside bits fill place.now }
{
    let length = number(known, inside)?;
    let at = bits_from_start(book, known, place)?;
    Ok(filled(alloc, fill, at, bits.saturating_sub(length)))
}

// The bits of a piece.
fn of_piece(
    alloc: Global,
    plan: &Plan<'_>,
    book: &Book,
    known: &Known,
    piece: &Piece,
) -> Result<Result<PieceBits, Stop>, AllocError>
    requires { IsSound plan.now book.now }
    ensures { IfOk result (λ bits. bits ≡ asking.of_piece plan.now book.now known.now piece.now) }
{
    match piece {
        Piece::Skip {
            bits,
            fill,
            place,
            ..
        } => Ok(skip(alloc, book, known, *bits, *fill, place)),
        Piece::Align {
            bits,
            fill,
            place,
            ..
        } => Ok(align(alloc, book, known, *bits, *fill, place)),
        Piece::Delimiter { component, list } => delimiter_bits(alloc, plan, *component, *list),
        Piece::Marked {
            component,
            list,
            mark,
        } => marked(alloc, plan, book, known, *component, *list, mark),
        Piece::Separator {
            component,
            list,
            position,
            stands,
            earlier,
        } => separator(
            alloc, plan, book, known, *component, *list, *position, *stands, *earlier,
        ),
        Piece::Prefix {
            component,
            prefix: form,
            length,
            value,
            markup,
        } => {
            let prefixed = Prefixed {
                component: *component,
                form: *form,
                length: *length,
                value: *value,
                markup: *markup,
            };
            prefix(alloc, plan, book, known, &prefixed)
        }
        Piece::Content {
            component,
            first,
            markup,
            place,
        } => content(alloc, plan, book, known, *component, *first, *markup, place),
        Piece::Rest {
            inside,
            bits,
            fill,
            place,
        } => Ok(rest(alloc, book, known, *inside, *bits, *fill, place)),
        Piece::End { fill, place } => Ok(align(alloc, book, known, 8, *fill, place)),
        Piece::Missing => Ok(Err(Stop::Fault(0))),
    }
}

// What is told of a piece whose bits aren't known.
fn or_none(alloc: Global, told: Result<PieceBits, Stop>) -> PieceBits
    ensures { result ≡ asking.or_none told }
{
    match told {
        Ok(bits) => bits,
        Err(_) => filled(alloc, 0, 0, 0),
    }
}

// The bits of a piece that may not be laid.
fn of_laid(
    alloc: Global,
    plan: &Plan<'_>,
    book: &Book,
    known: &Known,
    piece: Option<&Piece>,
) -> Result<PieceBits, AllocError>
    requires { IsSound plan.now book.now }
    ensures { IfOk result (λ bits. bits ≡ asking.of_laid plan.now book.now known.now (option_copied piece.entry)) }
{
    match piece {
        Some(piece) => {
            let told = of_piece(alloc, plan, book, known, piece)?;
            Ok(or_none(alloc, told))
        }
        None => Ok(filled(alloc, 0, 0, 0)),
    }
}

/// The bits of the piece of a number whose bits are known; none are told of any other one.
pub fn write_piece(
    alloc: Global,
    plan: &Plan<'_>,
    book: &Book,
    piece: u32,
    known: &Known,
) -> Result<PieceBits, AllocError>
    requires { IsSound plan.now book.now }
    ensures { IfOk result (λ bits. (order : Order) → written.bits_shown order bits ≡ written.bits_at plan.now book.now known.now order piece) }
{
    of_laid(alloc, plan, book, known, book.piece(piece))
}
