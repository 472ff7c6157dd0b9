// What is known of components by their parts.
ghost use Rattle.std.specs.Prelude.{◌≡◌, ◌<◌, ℕ, length, map, All, get_or, IfOk, option_copied, slice_get};
ghost use Rattle.dfdl_rows.specs.Components.{component_at};
ghost use Rattle.dfdl_planning.specs.Planned as spec;
ghost use Rattle.dfdl_planning.specs.Planned.{outline_by, outlines_in, unknown_outline};

use crate::frames::framing_of;
use crate::outline::{Outline, Taking};
use crate::sizes::{is_whole_box, is_whole_framing, is_whole_leaf};
use crate::source::Source;
use dfdl_outline::Needs;
use dfdl_rows::{Component, Counted, has_framing};
use dfdl_terms::{Framing, Occurs, Statement, Statements, Writing};
use std::alloc::{AllocError, Global};

// An occurrence of a component needs an item, where its elements are hidden or aren't.
fn is_needy(outline: &Outline, is_hidden: bool) -> bool
    ensures { result ≡ spec.is_needy is_hidden outline.now }
{
    let needs = if is_hidden {
        outline.needs.hidden
    } else {
        outline.needs.shown
    };
    outline.least > 0 && needs
}

// The outline of a component that isn't known, which nothing asks for.
fn unknown() -> Outline
    ensures { result ≡ unknown_outline }
{
    Outline {
        declared: 0,
        is_element: false,
        least: 0,
        most: 0,
        taking: Taking::Slotless,
        needs: Needs {
            shown: false,
            hidden: false,
        },
        is_whole: true,
    }
}

// What was told of the parts so far.
#[derive(Clone, Copy)]
pub(crate) struct Told {
    declared: u32,
    one_shown: bool,
    one_hidden: bool,
    all_shown: bool,
    all_hidden: bool,
    is_whole: bool,
}

// One part more.
fn told_more(told: Told, part: &Outline) -> Told
    ensures { result ≡ spec.told_more told part.now }
{
    Told {
        declared: told.declared.saturating_add(part.declared),
        one_shown: told.one_shown || is_needy(part, false),
        one_hidden: told.one_hidden || is_needy(part, true),
        all_shown: told.all_shown && is_needy(part, false),
        all_hidden: told.all_hidden && is_needy(part, true),
        is_whole: told.is_whole && part.is_whole,
    }
}

// What is told of these parts.
fn told_of(parts: &[u32], known: &[Outline]) -> Told
    requires { All (λ p. p < length known.now) parts.now }
    ensures { result ≡ spec.told_from spec.nothing_told (map (λ p. get_or known.now p unknown_outline) parts.now) }
{
    let mut told = Told {
        declared: 0,
        one_shown: false,
        one_hidden: false,
        all_shown: true,
        all_hidden: true,
        is_whole: true,
    };
    for part in parts {
        told = told_more(told, &known[*part as usize]);
    }
    told
}

// What a sequence needs whose parts are told so: what one of them does.
fn one_needs(told: Told) -> Needs
    ensures { result ≡ spec.one_needs told }
{
    Needs {
        shown: told.one_shown,
        hidden: told.one_hidden,
    }
}

// How a group with this framing is taken where it stands.
fn taking_group(framing: &Framing, is_empty: bool) -> Taking
    ensures { result ≡ spec.taking_group framing.now is_empty }
{
    if is_empty && !has_framing(*framing) {
        Taking::Slotless
    } else {
        Taking::Required
    }
}

// A group, whose parts are told so, with what it needs.
fn group(taking: Taking, told: Told, needs: Needs, is_whole: bool) -> Outline
    ensures { result ≡ spec.group taking told needs is_whole }
{
    Outline {
        declared: told.declared,
        is_element: false,
        least: 1,
        most: 1,
        taking,
        needs,
        is_whole: told.is_whole && is_whole,
    }
}

// How many occurrences of an element are required.
fn least_of(occurs: Occurs, counted: Counted) -> u32
    ensures { result ≡ spec.least_of occurs counted }
{
    match counted {
        Counted::ByBounds => occurs.least,
        Counted::Parsed => 0,
        Counted::Told(_) => 0,
    }
}

// How many there are at most.
fn most_of(occurs: Occurs, counted: Counted) -> u64
    ensures { result ≡ spec.most_of occurs counted }
{
    match counted {
        Counted::ByBounds => occurs.further.saturating_add(u64::from(occurs.least)),
        Counted::Parsed => u64::MAX,
        Counted::Told(_) => u64::MAX,
    }
}

// How occurrences by bounds are taken.
fn taking_bounded(occurs: Occurs) -> Taking
    ensures { result ≡ spec.taking_bounded occurs }
{
    if occurs.further > 0 {
        Taking::ByPolicy
    } else if occurs.least > 0 {
        Taking::Required
    } else {
        Taking::Slotless
    }
}

// How the occurrences of an element are taken.
fn taking_of(occurs: Occurs, counted: Counted) -> Taking
    ensures { result ≡ spec.taking_of occurs counted }
{
    match counted {
        Counted::ByBounds => taking_bounded(occurs),
        Counted::Parsed => Taking::IfLong,
        Counted::Told(_) => Taking::Required,
    }
}

// An element that occurs so.
fn element(occurs: Occurs, counted: Counted, needs: Needs, is_whole: bool) -> Outline
    ensures { result ≡ spec.element occurs counted needs is_whole }
{
    Outline {
        declared: 1,
        is_element: true,
        least: least_of(occurs, counted),
        most: most_of(occurs, counted),
        taking: taking_of(occurs, counted),
        needs,
        is_whole,
    }
}

// A statement gives the value by which an element is written.
fn is_computing(statement: Option<&Statement>) -> bool
    ensures { result ≡ spec.is_computing (option_copied statement.entry) }
{
    matches!(statement, Some(Statement::Calculation(_)))
}

// The statement of a number does.
fn computes(source: &Source<'_>, number: usize) -> bool
    ensures { result ≡ spec.is_computing (slice_get source.now.table.statements number) }
{
    is_computing(source.statement(number))
}

/// One of these statements gives the value by which an element is written.
pub(crate) fn are_computing(source: &Source<'_>, statements: Statements) -> bool
    ensures { result ≡ spec.are_computing source.now statements }
{
    let mut at = 0u32;
    while at < statements.count {
        let number = statements.first as usize + at as usize;
        if computes(source, number) {
            return true;
        }
        at += 1;
    }
    false
}

// A component has a value of its own where the infoset has none of it.
fn has_default(writing: Option<&Writing>) -> bool
    ensures { result ≡ spec.has_default (option_copied writing.entry) }
{
    match writing {
        Some(writing) => writing.default.is_some(),
        None => false,
    }
}

// Whether the simple element of a number needs an item.
fn simple_needs(source: &Source<'_>, number: u32, framing: &Framing) -> Needs
    ensures { result ≡ spec.simple_needs source.now number framing.now }
{
    let needs = !(has_default(source.writing(number)) || are_computing(source, framing.behind));
    Needs {
        shown: needs,
        hidden: needs,
    }
}

// What is known of the component of a number, where it is known for its parts.
fn outline_of(
    source: &Source<'_>,
    number: u32,
    component: &Component,
    parts: &[u32],
    known: &[Outline],
) -> Outline
    requires { All (λ p. p < length known.now) parts.now }
    ensures { result ≡ outline_by source.now number component.now (map (λ p. get_or known.now p unknown_outline) parts.now) }
{
    let told = told_of(parts, known);
    let framing = framing_of(component);
    let is_whole = is_whole_framing(&framing);
    match component {
        Component::Sequence { .. } => {
            group(
                taking_group(&framing, parts.is_empty()),
                told,
                one_needs(told),
                is_whole,
            )
        }
        Component::Choice { .. } => {
            let needs = Needs {
                shown: told.all_shown,
                hidden: told.all_hidden,
            };
            group(
                taking_group(&framing, parts.is_empty()),
                told,
                needs,
                is_whole,
            )
        }
        Component::ComplexElement {
            content_box,
            occurs,
            counted,
            ..
        } => {
            let needs = Needs {
                shown: true,
                hidden: told.one_hidden,
            };
            let is_whole = is_whole && told.is_whole && is_whole_box(source, *content_box);
            element(*occurs, *counted, needs, is_whole)
        }
        Component::SimpleElement {
            prim,
            length,
            occurs,
            counted,
            ..
        } => {
            let needs = simple_needs(source, number, &framing);
            let is_whole = is_whole && is_whole_leaf(source, *prim, *length);
            element(*occurs, *counted, needs, is_whole)
        }
        Component::CalculatedElement { .. } => Outline {
            declared: 1,
            is_element: true,
            least: 1,
            most: 1,
            taking: Taking::Slotless,
            needs: Needs {
                shown: false,
                hidden: false,
            },
            is_whole: true,
        },
        Component::Hidden => {
            let needs = Needs {
                shown: told.one_hidden,
                hidden: told.one_hidden,
            };
            group(Taking::Required, told, needs, true)
        }
    }
}

/// What is known of each component.
pub(crate) fn outlines(alloc: Global, source: &Source<'_>) -> Result<Vec<Outline>, AllocError>
    ensures outlines { IfOk result (λ made. made.items ≡ outlines_in source.now) }
    ensures counted { IfOk result (λ made. length made.items ≡ length source.now.schema.uses) }
{
    let components = source.components();
    let mut known = vec![in alloc; unknown(); components.count() as usize]?;
    for number in components.order().list() {
        let component = components.component(*number);
        let parts = components.parts(*number);
        let outline = outline_of(source, *number, component, parts, known.as_slice());
        known[*number as usize] = outline;
    }
    Ok(known)
}
