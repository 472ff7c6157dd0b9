// The equations of unknowns, evaluated.
ghost use Rattle.std.specs.Prelude.{◌≡◌, ◌<◌, ◌≤◌, None, IfOk, OnErr, length, option_copied};
ghost use Rattle.dfdl_cells.specs.Asking.{told_shown};
ghost use Rattle.dfdl_cells.specs.Equations as equations;
ghost use Rattle.dfdl_cells.specs.Lengths as lengths;
ghost use Rattle.dfdl_cells.specs.Plans as plans;
ghost use Rattle.dfdl_cells.specs.Sound.{IsSound};
ghost use Rattle.dfdl_evaluation.specs.AskingCells as asking;
ghost use Rattle.dfdl_evaluation.specs.AskingCells.{Settles};
ghost use Rattle.dfdl_suspend.specs.Answers.{Meets, NamesBelow};
ghost use Rattle.dfdl_suspend.specs.Asks.{at};

use crate::causes::cause_of;
use crate::contents::written_at;
use crate::lengths::{constant_length, told_length};
use crate::pieces::of_piece;
use crate::plan::Plan;
use dfdl_cells::asking::{number, value};
use dfdl_cells::placing::bits_before;
use dfdl_cells::{Book, Cell, CellId, Place, Stop, Told};
use dfdl_suspend::{Answer, Held, Known};
use dfdl_writings::{Unwritten, Written};
use std::alloc::{AllocError, Global};

// A length, or the cause why there is none.
fn length_told(told: &Result<u64, Unwritten>) -> Result<Held, Stop>
    ensures { result ≡ asking.length_told told.now }
{
    match told {
        Ok(bits) => Ok(Held::Number(*bits)),
        Err(cause) => Err(Stop::Fault(cause_of(*cause))),
    }
}

// How many bits the value of a simple element of a component has that is this.
fn value_length_told(
    alloc: Global,
    plan: &Plan<'_>,
    component: u32,
    told: Told<'_>,
) -> Result<Result<Held, Stop>, AllocError>
    ensures { IfOk result (λ held. held ≡ asking.value_length_by (plans.writing_of plan.now component) (plans.form_of plan.now component) (told_shown told.entry)) }
{
    let Some(writing) = plan.writing(component) else {
        return Ok(Err(Stop::Fault(cause_of(Unwritten::BinaryForm))));
    };
    match plan.form(component) {
        Some(form) => {
            let bits = told_length(alloc, &writing.text, &form, told)?;
            Ok(length_told(&bits))
        }
        None => Ok(Err(Stop::Fault(cause_of(Unwritten::BinaryForm)))),
    }
}

// How many bits the value of a simple element has.
fn value_length(
    alloc: Global,
    plan: &Plan<'_>,
    book: &Book,
    known: &Known,
    component: u32,
    first: CellId,
) -> Result<Result<Held, Stop>, AllocError>
    ensures { IfOk result (λ held. held ≡ asking.value_length plan.now book.now known.now component first) }
{
    match value(book.cells(), known, first) {
        Ok(told) => value_length_told(alloc, plan, component, told),
        Err(stop) => Ok(Err(stop)),
    }
}

// How many bits a writing has with its fill. More than 64 bits count are more than there is memory for.
fn size_in(told: &Result<Written, Unwritten>) -> Result<Result<u64, Unwritten>, AllocError>
    ensures { IfOk result (λ bits. bits ≡ lengths.size_in told.now) }
{
    match told {
        Ok(written) => match written.bits.checked_add(written.fill) {
            Some(bits) => Ok(Ok(bits)),
            None => Err(AllocError),
        },
        Err(cause) => Ok(Err(*cause)),
    }
}

// How many bits the content of a simple element has that is this.
fn content_length_told(
    alloc: Global,
    plan: &Plan<'_>,
    book: &Book,
    component: u32,
    markup: u32,
    told: Told<'_>,
) -> Result<Result<Held, Stop>, AllocError>
    requires { IsSound plan.now book.now }
    ensures { IfOk result (λ held. held ≡ asking.content_length_told plan.now book.now component markup (told_shown told.entry)) }
{
    let written = written_at(alloc, plan, book, component, markup, told)?;
    let bits = size_in(&written)?;
    Ok(length_told(&bits))
}

// How many bits a content of the form of a component has whatever it is.
fn constant_of(plan: &Plan<'_>, component: u32) -> Option<u64>
    ensures { result ≡ equations.constant_of (plans.form_of plan.now component) }
{
    match plan.form(component) {
        Some(form) => constant_length(form.length, form.prim),
        None => None,
    }
}

// How many bits the content of a simple element has that depend on what it is.
fn varying_length(
    alloc: Global,
    plan: &Plan<'_>,
    book: &Book,
    known: &Known,
    component: u32,
    first: CellId,
    markup: u32,
) -> Result<Result<Held, Stop>, AllocError>
    requires { IsSound plan.now book.now }
    ensures { IfOk result (λ held. held ≡ asking.content_length_by plan.now book.now known.now component first markup None) }
{
    match value(book.cells(), known, first) {
        Ok(told) => content_length_told(alloc, plan, book, component, markup, told),
        Err(stop) => Ok(Err(stop)),
    }
}

// How many bits the content of a simple element has.
fn content_length(
    alloc: Global,
    plan: &Plan<'_>,
    book: &Book,
    known: &Known,
    component: u32,
    first: CellId,
    markup: u32,
) -> Result<Result<Held, Stop>, AllocError>
    requires { IsSound plan.now book.now }
    ensures { IfOk result (λ held. held ≡ asking.content_length_by plan.now book.now known.now component first markup (equations.constant_of (plans.form_of plan.now component))) }
{
    match constant_of(plan, component) {
        Some(bits) => Ok(Ok(Held::Number(bits))),
        None => varying_length(alloc, plan, book, known, component, first, markup),
    }
}

// A number that was answered.
fn counted(answer: Result<u64, Stop>) -> Result<Held, Stop>
    ensures { result ≡ asking.counted answer }
{
    match answer {
        Ok(n) => Ok(Held::Number(n)),
        Err(stop) => Err(stop),
    }
}

// How many bits a box has: its own, and else those of what it has inside.
fn boxed(known: &Known, size: Option<u64>, inside: CellId) -> Result<Held, Stop>
    ensures { result ≡ asking.boxed known.now size inside }
{
    match size {
        Some(bits) => Ok(Held::Number(bits)),
        None => counted(number(known, inside)),
    }
}

// Where an element begins, or its content ends.
fn reached(book: &Book, known: &Known, place: &Place) -> Result<Held, Stop>
    ensures { result ≡ asking.reached book.now known.now place.now }
{
    counted(bits_before(book, known, place))
}

// The bits of a piece that may not be laid.
fn bits_of(
    alloc: Global,
    plan: &Plan<'_>,
    book: &Book,
    known: &Known,
    cell: CellId,
    piece: u32,
) -> Result<Result<Held, Stop>, AllocError>
    requires { IsSound plan.now book.now }
    ensures { IfOk result (λ held. held ≡ asking.bits_at plan.now book.now known.now cell piece) }
{
    match book.piece(piece) {
        Some(piece) => of_piece(alloc, plan, book, known, cell, piece),
        None => Ok(Err(Stop::Wait(cell))),
    }
}

// What the equation of an unknown without a value gives, by what it is.
fn of_cell(
    alloc: Global,
    plan: &Plan<'_>,
    book: &Book,
    known: &Known,
    cell: CellId,
    one: &Cell,
) -> Result<Result<Held, Stop>, AllocError>
    requires { IsSound plan.now book.now }
    ensures { IfOk result (λ held. held ≡ asking.of_cell plan.now book.now known.now cell one.now) }
{
    match one {
        Cell::Waiting => Ok(Err(Stop::Wait(cell))),
        Cell::Faulty { cause } => Ok(Err(Stop::Fault(*cause))),
        Cell::Given { .. } => Ok(Ok(Held::Given)),
        Cell::Nil => Ok(Ok(Held::Given)),
        Cell::Items { .. } => Ok(Ok(Held::Given)),
        Cell::ValueLength { component, first } => {
            value_length(alloc, plan, book, known, *component, *first)
        }
        Cell::ContentLength {
            component,
            first,
            markup,
        } => content_length(alloc, plan, book, known, *component, *first, *markup),
        Cell::Reached { place } => Ok(reached(book, known, place)),
        Cell::Boxed { size, inside } => Ok(boxed(known, *size, *inside)),
        Cell::Bits { piece } => bits_of(alloc, plan, book, known, cell, *piece),
    }
}

// What the equation of an unknown without a value gives.
fn told(
    alloc: Global,
    plan: &Plan<'_>,
    book: &Book,
    known: &Known,
    cell: CellId,
) -> Result<Result<Held, Stop>, AllocError>
    requires { IsSound plan.now book.now }
    ensures { IfOk result (λ held. held ≡ asking.told plan.now book.now known.now cell) }
{
    match book.cells().get(cell.number() as usize) {
        Some(one) => of_cell(alloc, plan, book, known, cell, one),
        None => Ok(Err(Stop::Wait(cell))),
    }
}

// What is answered where an equation stops.
fn stopped(stop: Stop) -> Answer
    ensures { result ≡ asking.answer_at stop }
{
    match stop {
        Stop::Wait(other) => Answer::Wait(other),
        Stop::Fault(cause) => Answer::Fault(cause),
    }
}

// Puts a value that was given.
fn settled(cell: CellId, known: &mut Known, held: Result<Held, Stop>) -> Answer
    requires within { cell < length known.old }
    requires free { at known.old cell ≡ None }
    ensures { Settles cell known.old known.new held result }
{
    match held {
        Ok(held) => {
            known.put(cell, held);
            Answer::Value
        }
        Err(stop) => stopped(stop),
    }
}

/// Evaluates the equation of an unknown that has no value, over what is known: a value that it gives is put; and else it waits for an unknown
/// that is there, or has no value for the cause of this number.
pub fn answer(
    alloc: Global,
    plan: &Plan<'_>,
    book: &Book,
    cell: CellId,
    known: &mut Known,
) -> Result<Answer, AllocError>
    requires sound { IsSound plan.now book.now }
    requires cell { cell < length book.now.cells }
    requires room { length book.now.cells ≤ length known.old }
    requires unassigned { at known.old cell ≡ None }
    ensures meets { IfOk result (Meets (equations.equation_in plan.now book.now cell) cell known.old known.new) }
    ensures names { IfOk result (NamesBelow (length book.now.cells)) }
    ensures memory { OnErr result (known.new ≡ known.old) }
{
    let held = told(alloc, plan, book, known, cell)?;
    Ok(settled(cell, known, held))
}
