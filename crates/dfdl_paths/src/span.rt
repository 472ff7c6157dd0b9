// Which elements steps can lead to.
ghost use Rattle.std.specs.Prelude.{◌≡◌, ◌<◌, ◌^◌, ℕ, List, Option, [], length};
ghost use Rattle.std.specs.List.{list_any};
ghost use Rattle.dfdl_paths.specs.declared.place.Place.TheVariants as places;
ghost use Rattle.dfdl_paths.specs.Spans.{IsSpan, IsSpanOf, begins_down, is_down, is_up};

use super::place::Place;
use super::reach::Course;
use super::tree::{Span, inside_of};
use dfdl_expressions::Step;
use dfdl_region::Node;

/// A span of elements outside of which steps lead to none.
pub(crate) fn span_of(course: &Course<'_>) -> Span
    requires few { length course.now.nodes.now < 2 ^ 32 }
    ensures { IsSpanOf course.now result.from result.end }
{
    if course.steps.is_empty() {
        return own_span(course.nodes, course.from);
    }
    if !begins_down(course.steps) {
        return whole(course.nodes);
    }
    if has_up(course.steps) {
        return whole(course.nodes);
    }
    inside_of(course.nodes, course.from)
}

// The span of the element of a place.
fn own_span(nodes: &[Node], place: Place) -> Span
    requires few { length nodes.now < 2 ^ 32 }
    ensures { (numbers : List (Option ℕ)) (indexes : List ℕ) → IsSpan numbers nodes.now place [] indexes result.from result.end }
{
    match place {
        Place::Above => Span { from: 0, end: 0 },
        Place::At(number) => element_span(nodes, number),
        Place::Inside(_) => Span { from: 0, end: 0 },
    }
}

fn element_span(nodes: &[Node], number: u32) -> Span
    requires few { length nodes.now < 2 ^ 32 }
    ensures { (numbers : List (Option ℕ)) (indexes : List ℕ) → IsSpan numbers nodes.now (places.At number) [] indexes result.from result.end }
{
    if (number as usize) < nodes.len() {
        Span {
            from: number,
            end: number + 1,
        }
    } else {
        Span { from: 0, end: 0 }
    }
}

// The span of all elements.
fn whole(nodes: &[Node]) -> Span
    requires few { length nodes.now < 2 ^ 32 }
    ensures from { result.from ≡ 0 }
    ensures end { result.end ≡ length nodes.now }
{
    Span {
        from: 0,
        end: nodes.len() as u32,
    }
}

// Whether the first step is a name.
fn begins_down(steps: &[Step]) -> bool
    ensures { result ≡ begins_down steps.now }
{
    match steps {
        [] => false,
        [first, ..] => is_down(*first),
    }
}

fn is_down(step: Step) -> bool
    ensures { result ≡ is_down step }
{
    match step {
        Step::Here => false,
        Step::Up => false,
        Step::Down { .. } => true,
    }
}

// Whether one of the steps is `..`.
fn has_up(steps: &[Step]) -> bool
    ensures { result ≡ list_any is_up steps.now }
{
    steps.iter().any(|step| is_up(*step))
}

fn is_up(step: Step) -> bool
    ensures { result ≡ is_up step }
{
    match step {
        Step::Here => false,
        Step::Up => true,
        Step::Down { .. } => false,
    }
}
