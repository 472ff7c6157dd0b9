// Whether steps lead to a place.
ghost use Rattle.std.specs.Prelude.{◌≡◌, ◌&&◌, ◌<◌, ◌≤◌, ◌^◌, ℕ, List, Some, drop, length, nat_eq, take};
ghost use Rattle.dfdl_expressions.specs.declared.path.Step.TheVariants.{Down};
ghost use Rattle.dfdl_paths.specs.Elements.{is_named, place_among};
ghost use Rattle.dfdl_paths.specs.Leads.{after, next_index, up};
ghost use Rattle.dfdl_paths.specs.Spans.{behind_all, reached_first};

use super::index::place_among;
use super::place::Place;
use super::tree::{around, is_named};
use super::walk::{index_at, step_at, uses};
use dfdl_expressions::Step;
use dfdl_region::Node;
use dfdl_terms::NameNumbers;

/// Steps from one place over the elements of a document, with the places that their indexes name.
#[derive(Clone, Copy)]
pub(crate) struct Course<'a> {
    pub(crate) names: &'a NameNumbers,
    pub(crate) nodes: &'a [Node],
    pub(crate) from: Place,
    pub(crate) steps: &'a [Step],
    pub(crate) indexes: &'a [u64],
}

/// Whether the first so many steps lead to a place. Each `..` that stands behind a name takes a pass over all elements.
#[cycle(reaching)]
pub(crate) fn reaches(course: &Course<'_>, count: usize, place: Place) -> bool
    requires few { length course.now.nodes.now < 2 ^ 32 }
    requires within { count ≤ length course.now.steps.now }
    ensures { result ≡ reached_first course.now count place }
{
    if count == 0 {
        return course.from.is(place);
    }
    let before = count - 1;
    match step_at(course.steps, before) {
        Step::Here => reaches(course, before, place),
        Step::Up => reaches_up(course, before, place),
        Step::Down { name, indexed } => reaches_down(course, before, name, indexed, place),
    }
}

// Whether `..` leads to a place behind the first so many steps.
#[cycle(reaching)]
fn reaches_up(course: &Course<'_>, before: usize, place: Place) -> bool
    requires few { length course.now.nodes.now < 2 ^ 32 }
    requires within { before ≤ length course.now.steps.now }
    ensures { result ≡ up course.now.nodes.now (reached_first course.now before) place }
{
    for number in 0..course.nodes.len() as u32 {
        if around(course.nodes, number).is(place) {
            if reaches(course, before, Place::At(number)) {
                return true;
            }
        }
    }
    match place {
        Place::Above => false,
        Place::At(number) => reaches(course, before, Place::Inside(number)),
        Place::Inside(_) => false,
    }
}

// Whether a name leads to a place behind the first so many steps.
#[cycle(reaching)]
fn reaches_down(course: &Course<'_>, before: usize, name: u32, indexed: bool, place: Place) -> bool
    requires few { length course.now.nodes.now < 2 ^ 32 }
    requires within { before ≤ length course.now.steps.now }
    ensures { result ≡ after course.now.names.now course.now.nodes.now (Down name indexed)
        (next_index (behind_all (take before course.now.steps.now) course.now.indexes.now))
        (reached_first course.now before) place }
{
    let number = match place {
        Place::Above => return false,
        Place::At(number) => number,
        Place::Inside(_) => return false,
    };
    if !is_named(course.names, course.nodes, name, number) {
        return false;
    }
    if !reaches(course, before, around(course.nodes, number)) {
        return false;
    }
    if !indexed {
        return true;
    }
    is_nth(course, before, name, number)
}

// Whether an element has a name, and among those of the name the place that the index of a step names.
fn is_nth(course: &Course<'_>, at: usize, name: u32, number: u32) -> bool
    requires few { length course.now.nodes.now < 2 ^ 32 }
    requires within { at ≤ length course.now.steps.now }
    ensures { result ≡ (is_named course.now.names.now course.now.nodes.now name number
        && nat_eq (place_among course.now.names.now course.now.nodes.now name number)
        (next_index (behind_all (take at course.now.steps.now) course.now.indexes.now))) }
{
    if !is_named(course.names, course.nodes, name, number) {
        return false;
    }
    place_among(course.names, course.nodes, name, number)
        == index_at(course.indexes, used_by(course.steps, at))
}

// How many indexes the first so many steps have.
fn used_by(steps: &[Step], count: usize) -> usize
    requires { count ≤ length steps.now }
    ensures { (indexes : List ℕ) → behind_all (take count steps.now) indexes ≡ drop result indexes }
{
    let mut used = 0;
    for at in 0..count {
        used += uses(step_at(steps, at));
    }
    used
}
