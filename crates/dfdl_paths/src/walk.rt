// Where the first steps of a path lead, as long as they lead to one place.
ghost use Rattle.std.specs.Prelude.{◌≡◌, ◌<◌, ◌≤◌, ◌^◌, ℕ, List, length, drop, take, false, IfSome, IfNone, Some, slice_get};
ghost use Rattle.dfdl_expressions.specs.declared.path.Step.{Step as StepOf};
ghost use Rattle.dfdl_paths.specs.declared.place.Place.{Place as PlaceOf};
ghost use Rattle.dfdl_paths.specs.Leads.{after, follow, left_behind, only_at, next_index};
ghost use Rattle.dfdl_paths.specs.Spans.{IsNext, IsReach, LeadsNowhere, next_in, outer_of};

use super::index::child_at;
use super::place::Place;
use super::tree::around;
use dfdl_expressions::Step;
use dfdl_region::Node;
use dfdl_terms::NameNumbers;

/// Where a step leads.
#[derive(Debug, Clone, Copy, PartialEq, Eq)]
pub(crate) enum Next {
    /// to no place
    Nowhere,
    /// to this place alone
    One(Place),
    /// to as many places as there are children of a name
    Many,
}

/// Where a step leads from one place, with the place that its index names.
pub(crate) fn next_of(
    names: &NameNumbers,
    nodes: &[Node],
    place: Place,
    step: Step,
    index: u64,
) -> Next
    requires few { length nodes.now < 2 ^ 32 }
    ensures { IsNext names.now nodes.now step index place result }
{
    match step {
        Step::Here => Next::One(place),
        Step::Up => next_in(outer_of(nodes, place)),
        Step::Down {
            name,
            indexed: true,
        } => next_in(child_at(names, nodes, place, name, index)),
        Step::Down { .. } => Next::Many,
    }
}

// Where `..` leads from a place.
fn outer_of(nodes: &[Node], place: Place) -> Option<Place>
    ensures { result ≡ outer_of nodes.now place }
{
    match place {
        Place::Above => None,
        Place::At(number) => outer_at(nodes, number),
        Place::Inside(number) => Some(Place::At(number)),
    }
}

fn outer_at(nodes: &[Node], number: u32) -> Option<Place>
    ensures { result ≡ outer_of nodes.now (PlaceOf.At number) }
{
    if (number as usize) < nodes.len() {
        Some(around(nodes, number))
    } else {
        None
    }
}

fn next_in(place: Option<Place>) -> Next
    ensures { result ≡ next_in place }
{
    match place {
        None => Next::Nowhere,
        Some(place) => Next::One(place),
    }
}

/// The step of a number.
pub(crate) fn step_at(steps: &[Step], at: usize) -> Step
    requires { at < length steps.now }
    ensures { slice_get steps.now at ≡ Some result }
{
    steps[at]
}

/// How many indexes a step has.
pub(crate) fn uses(step: Step) -> usize
    ensures behind { (indexes : List ℕ) → left_behind step indexes ≡ drop result indexes }
    ensures few { result ≤ 1 }
{
    match step {
        Step::Here => 0,
        Step::Up => 0,
        Step::Down { indexed: true, .. } => 1,
        Step::Down { .. } => 0,
    }
}

// The place that an index names; 0 where there is none.
pub(crate) fn index_at(indexes: &[u64], at: usize) -> u64
    ensures { result ≡ next_index (drop at indexes.now) }
{
    match indexes.get(at) {
        Some(index) => *index,
        None => 0,
    }
}

/// Where some steps of a path lead, and how many there are of these and of the indexes that they have.
#[derive(Debug, Clone, Copy, PartialEq, Eq)]
pub(crate) struct Reach {
    pub(crate) place: Place,
    pub(crate) steps: usize,
    pub(crate) indexes: usize,
}

/// The place to which a path leads by its first steps, up to the first that may lead to several places. It is none where the path
/// leads nowhere.
pub(crate) fn first_reach(
    names: &NameNumbers,
    nodes: &[Node],
    begin: Place,
    steps: &[Step],
    indexes: &[u64],
) -> Option<Reach>
    requires few { length nodes.now < 2 ^ 32 }
    ensures some { IfSome result (λ reach. IsReach names.now nodes.now begin steps.now indexes.now reach) }
    ensures none { IfNone result (LeadsNowhere names.now nodes.now begin steps.now indexes.now) }
{
    let mut place = begin;
    let mut used = 0;
    for at in 0..steps.len() {
        let step = step_at(steps, at);
        match next_of(names, nodes, place, step, index_at(indexes, used)) {
            Next::Nowhere => return None,
            Next::One(next) => {
                place = next;
                used += uses(step);
            }
            Next::Many => {
                return Some(Reach {
                    place,
                    steps: at,
                    indexes: used,
                });
            }
        }
    }
    Some(Reach {
        place,
        steps: steps.len(),
        indexes: used,
    })
}
