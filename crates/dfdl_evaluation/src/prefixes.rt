// What length prefixes are written as.
ghost use Rattle.std.specs.Prelude.{◌≡◌, IfOk, Some};
ghost use Rattle.dfdl_cells.specs.Asking.{told_shown};
ghost use Rattle.dfdl_cells.specs.Pieces as pieces;
ghost use Rattle.dfdl_cells.specs.Plans.{form_of};
ghost use Rattle.dfdl_cells.specs.Sound.{IsSound};
ghost use Rattle.dfdl_evaluation.specs.AskingPieces as asking;
ghost use Rattle.dfdl_evaluation.specs.Forms.{some_shown};

use crate::contents::written_at;
use crate::counts::count_in;
use crate::form::Form;
use crate::plan::Plan;
use crate::writings::prefix;
use dfdl_cells::asking::{number, value};
use dfdl_cells::{Book, CellId, Stop, Told};
use dfdl_suspend::Known;
use dfdl_terms::Prefix;
use dfdl_writings::{Unwritten, Written, units_of};
use std::alloc::{AllocError, Global};

/// The length prefix of an element of a component ('Lengths').
#[derive(Clone, Copy)]
pub(crate) struct Prefixed {
    pub component: u32,
    pub form: Prefix,
    /// The unknown of the length of the content, in bits.
    pub length: CellId,
    /// The unknown of the value, of a simple element.
    pub value: Option<CellId>,
    pub markup: u32,
}

// What a prefix of a component is written as that tells so many bits and characters.
fn prefix_at(
    alloc: Global,
    plan: &Plan<'_>,
    component: u32,
    form: Prefix,
    bits: u64,
    characters: u64,
) -> Result<Result<Written, Unwritten>, AllocError>
    ensures { IfOk result (λ told. told ≡ pieces.prefix_at plan.now component form bits characters) }
{
    let Some(writing) = plan.writing(component) else {
        return Ok(Err(Unwritten::Prefix));
    };
    match plan.primitive(form.prim) {
        Some(primitive) => {
            let units = units_of(form, bits, characters);
            prefix(alloc, &writing.text, primitive, units)
        }
        None => Ok(Err(Unwritten::Prefix)),
    }
}

// How many characters a writing of a form has.
fn characters_by(form: &Form<'_>, told: &Result<Written, Unwritten>) -> u64
    ensures { result ≡ pieces.characters_in (some_shown (Some form.now)) told.now }
{
    match told {
        Ok(written) => count_in(form.prim, written),
        Err(_) => 0,
    }
}

// How many characters a writing of a component has.
fn characters_in(plan: &Plan<'_>, component: u32, told: &Result<Written, Unwritten>) -> u64
    ensures { result ≡ pieces.characters_in (form_of plan.now component) told.now }
{
    match plan.form(component) {
        Some(form) => characters_by(&form, told),
        None => 0,
    }
}

// What a prefix is written as that tells so many bits, of a simple element that is this.
fn prefix_told(
    alloc: Global,
    plan: &Plan<'_>,
    book: &Book,
    prefixed: &Prefixed,
    bits: u64,
    told: Told<'_>,
) -> Result<Result<Written, Unwritten>, AllocError>
    requires { IsSound plan.now book.now }
    ensures { IfOk result (λ one. one ≡ asking.prefix_told plan.now book.now prefixed.now.component prefixed.now.form prefixed.now.markup bits (told_shown told.entry)) }
{
    let component = prefixed.component;
    let written = written_at(alloc, plan, book, component, prefixed.markup, told)?;
    let characters = characters_in(plan, component, &written);
    prefix_at(alloc, plan, component, prefixed.form, bits, characters)
}

// The same of one that has this first unknown.
fn prefix_of_value(
    alloc: Global,
    plan: &Plan<'_>,
    book: &Book,
    known: &Known,
    prefixed: &Prefixed,
    bits: u64,
    first: CellId,
) -> Result<Result<Result<Written, Unwritten>, Stop>, AllocError>
    requires { IsSound plan.now book.now }
    ensures { IfOk result (λ one. one ≡ asking.prefix_behind plan.now book.now known.now prefixed.now.component prefixed.now.form prefixed.now.markup (Some first) bits) }
{
    match value(book.cells(), known, first) {
        Ok(told) => {
            let written = prefix_told(alloc, plan, book, prefixed, bits, told)?;
            Ok(Ok(written))
        }
        Err(stop) => Ok(Err(stop)),
    }
}

// What a prefix is written as that tells so many bits, or what stops the question.
fn prefix_behind(
    alloc: Global,
    plan: &Plan<'_>,
    book: &Book,
    known: &Known,
    prefixed: &Prefixed,
    bits: u64,
) -> Result<Result<Result<Written, Unwritten>, Stop>, AllocError>
    requires { IsSound plan.now book.now }
    ensures { IfOk result (λ one. one ≡ asking.prefix_behind plan.now book.now known.now prefixed.now.component prefixed.now.form prefixed.now.markup prefixed.now.value bits) }
{
    match prefixed.value {
        Some(first) => prefix_of_value(alloc, plan, book, known, prefixed, bits, first),
        None => {
            let written = prefix_at(alloc, plan, prefixed.component, prefixed.form, bits, 0)?;
            Ok(Ok(written))
        }
    }
}

/// What a prefix is written as, or what stops the question.
pub(crate) fn prefix_of(
    alloc: Global,
    plan: &Plan<'_>,
    book: &Book,
    known: &Known,
    prefixed: &Prefixed,
) -> Result<Result<Result<Written, Unwritten>, Stop>, AllocError>
    requires { IsSound plan.now book.now }
    ensures { IfOk result (λ one. one ≡ asking.prefix_of plan.now book.now known.now prefixed.now.component prefixed.now.form prefixed.now.length prefixed.now.value prefixed.now.markup) }
{
    match number(known, prefixed.length) {
        Ok(bits) => prefix_behind(alloc, plan, book, known, prefixed, bits),
        Err(stop) => Ok(Err(stop)),
    }
}
