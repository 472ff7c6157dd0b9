// A path as steps from one place, and whether they lead to an element.
ghost use Rattle.std.specs.Prelude.{◌≡◌, ◌<◌, ◌≤◌, ◌^◌, ℕ, IfSome, IfNone, Some, drop, length};
ghost use Rattle.dfdl_paths.specs.declared.place.Place.{Place as PlaceOf};
ghost use Rattle.dfdl_paths.specs.declared.place.Place.TheVariants.{At};
ghost use Rattle.dfdl_paths.specs.Leads.{begins, follow, only_at};
ghost use Rattle.dfdl_paths.specs.Spans.{LeadsNowhere, reached_by};

use super::place::{Place, Start, begins};
use super::reach::{Course, reaches};
use super::walk::first_reach;
use dfdl_expressions::{Path, Step};
use dfdl_region::Node;
use dfdl_terms::NameNumbers;

/// The steps of a path that are left behind those that lead to one place, from that place on. There are none where the path leads
/// nowhere.
pub(crate) fn course_of<'a>(
    names: &'a NameNumbers,
    nodes: &'a [Node],
    start: Start,
    path: &'a Path,
    indexes: &'a [u64],
) -> Option<Course<'a>>
    requires few { length nodes.now < 2 ^ 32 }
    ensures names { IfSome result (λ course. course.names.now ≡ names.now) }
    ensures nodes { IfSome result (λ course. course.nodes.now ≡ nodes.now) }
    ensures same { IfSome result (λ course. (q : PlaceOf)
        → follow names.now nodes.now (only_at (Some (begins start path.now.absolute))) path.now.steps indexes.now q
        ≡ follow names.now nodes.now (only_at (Some course.from)) course.steps.now course.indexes.now q) }
    ensures none { IfNone result (LeadsNowhere names.now nodes.now (begins start path.now.absolute) path.now.steps indexes.now) }
{
    let steps = path.steps.as_slice();
    match first_reach(names, nodes, begins(start, path.absolute), steps, indexes) {
        None => None,
        Some(reach) => Some(Course {
            names,
            nodes,
            from: reach.place,
            steps: steps_behind(steps, reach.steps),
            indexes: indexes_behind(indexes, reach.indexes),
        }),
    }
}

// The steps behind the first so many.
fn steps_behind(steps: &[Step], count: usize) -> &[Step]
    requires { count ≤ length steps.now }
    ensures { result.now ≡ drop count steps.now }
{
    &steps[count..]
}

// The indexes behind the first so many.
fn indexes_behind(indexes: &[u64], count: usize) -> &[u64]
    ensures { result.now ≡ drop count indexes.now }
{
    if count > indexes.len() {
        return &[];
    }
    &indexes[count..]
}

/// Whether the steps lead to an element.
pub(crate) fn has_item(course: &Course<'_>, number: u32) -> bool
    requires few { length course.now.nodes.now < 2 ^ 32 }
    ensures { result ≡ reached_by course.now (At number) }
{
    reaches(course, course.steps.len(), Place::At(number))
}
