// The items of a path: all, how many there are, and the only one.
ghost use Rattle.std.specs.Prelude.{◌≡◌, ◌<◌, ◌^◌, ◌++◌, ℕ, IfOk, OnOk, length, vec_len};
ghost use Rattle.dfdl_paths.specs.Leads.{items};
ghost use Rattle.dfdl_paths.specs.Numbers.{one_if};
ghost use Rattle.dfdl_paths.specs.Spans.{IsSpanOf, items_by, with_item, with_one};
ghost use Rattle.dfdl_paths.specs.Values.{found_of};

use super::course::{course_of, has_item};
use super::place::Start;
use super::reach::Course;
use super::span::span_of;
use super::tree::{Span, one_if};
use dfdl_expressions::Path;
use dfdl_region::Node;
use dfdl_terms::NameNumbers;
use std::alloc::{AllocError, Global};

/// How many items a path leads to, and which one where there is only one.
#[derive(Debug, Clone, Copy, PartialEq, Eq)]
pub enum Found {
    /// none
    None,
    /// the element of this number alone
    One(u32),
    /// more than one
    Several,
}

/// The elements that a path leads to, by their numbers, in the order in which they began. `indexes` are the places that the
/// path's indexes name, counted from 1.
pub fn items(
    alloc: Global,
    names: &NameNumbers,
    nodes: &[Node],
    start: Start,
    path: &Path,
    indexes: &[u64],
) -> Result<Vec<u32>, AllocError>
    requires few { length nodes.now < 2 ^ 32 }
    ensures { IfOk result (λ found. found.items ≡ items names.now nodes.now start path.now indexes.now) }
{
    match course_of(names, nodes, start, path, indexes) {
        None => Ok(Vec::new(alloc)),
        Some(course) => {
            let found = items_in(alloc, &course, span_of(&course))?;
            Ok(found)
        }
    }
}

/// How many elements a path leads to. It takes no memory.
pub fn count_items(
    names: &NameNumbers,
    nodes: &[Node],
    start: Start,
    path: &Path,
    indexes: &[u64],
) -> u64
    requires few { length nodes.now < 2 ^ 32 }
    ensures { result ≡ length (items names.now nodes.now start path.now indexes.now) }
{
    match course_of(names, nodes, start, path, indexes) {
        None => 0,
        Some(course) => count_in(&course, span_of(&course)),
    }
}

/// The element that a path leads to, if it leads to one alone. It takes no memory.
pub fn only_item(
    names: &NameNumbers,
    nodes: &[Node],
    start: Start,
    path: &Path,
    indexes: &[u64],
) -> Found
    requires few { length nodes.now < 2 ^ 32 }
    ensures { result ≡ found_of (items names.now nodes.now start path.now indexes.now) }
{
    match course_of(names, nodes, start, path, indexes) {
        None => Found::None,
        Some(course) => only_in(&course, span_of(&course)),
    }
}

// The elements of a span that steps lead to.
fn items_in(alloc: Global, course: &Course<'_>, span: Span) -> Result<Vec<u32>, AllocError>
    requires few { length course.now.nodes.now < 2 ^ 32 }
    requires span { IsSpanOf course.now span.from span.end }
    ensures { IfOk result (λ found. found.items ≡ items_by course.now) }
{
    let mut found = Vec::new(alloc);
    for number in span.from..span.end {
        push_if(&mut found, has_item(course, number), number)?;
    }
    Ok(found)
}

// Puts a number behind others where a test passes.
fn push_if(found: &mut Vec<u32>, passes: bool, number: u32) -> Result<(), AllocError>
    ensures { OnOk result (found.new.items ≡ found.old.items ++ one_if passes number) }
{
    if passes {
        found.push(number)?;
    }
    Ok(())
}

// How many elements of a span steps lead to.
fn count_in(course: &Course<'_>, span: Span) -> u64
    requires few { length course.now.nodes.now < 2 ^ 32 }
    requires span { IsSpanOf course.now span.from span.end }
    ensures { result ≡ length (items_by course.now) }
{
    let mut count = 0;
    for number in span.from..span.end {
        count += one_if(has_item(course, number));
    }
    count
}

// The only element of a span that steps lead to.
fn only_in(course: &Course<'_>, span: Span) -> Found
    requires few { length course.now.nodes.now < 2 ^ 32 }
    requires span { IsSpanOf course.now span.from span.end }
    ensures { result ≡ found_of (items_by course.now) }
{
    let mut found = Found::None;
    for number in span.from..span.end {
        found = found.with_if(has_item(course, number), number);
    }
    found
}

impl Found {
    // What is found with one element more, where a test passes.
    fn with_if(self, passes: bool, number: u32) -> Found
        ensures { result ≡ with_item self (one_if passes number) }
    {
        if passes {
            return self.with(number);
        }
        self
    }

    fn with(self, number: u32) -> Found
        ensures { result ≡ with_one self number }
    {
        match self {
            Found::None => Found::One(number),
            Found::One(_) => Found::Several,
            Found::Several => Found::Several,
        }
    }
}
