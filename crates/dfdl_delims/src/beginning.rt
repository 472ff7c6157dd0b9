// The begins of the lists that are open.
#![tactic(auto)]

ghost use Rattle.std.specs.Prelude.{◌≡◌, ◌^◌, ◌<◌, ◌++◌, List, slice_get, OnOk};
ghost use Rattle.dfdl_delims.specs.Lists.{Opened};
ghost use Rattle.dfdl_delims.specs.Opening.{Opens};
ghost use Rattle.dfdl_delims.specs.Standing.{IsFirst, StandFor, begins_from, begins_in, begins_of, end_by, placed};

use crate::candidate::Candidate;
use crate::mark::Mark;
use crate::open_lists::OpenLists;
use std::alloc::AllocError;

// The first of the begins from a place on.
#[tactic(auto, using(crate::proofs::Begins::no_begin, crate::proofs::Begins::no_more_begins, crate::proofs::Begins::a_begin))]
fn first_of(starts: &[Candidate], from: usize, end: usize) -> Option<Candidate>
    ensures { IsFirst starts.now from end result }
{
    if from >= end {
        return None;
    }
    match starts.get(from) {
        Some(begin) => Some(*begin),
        None => None,
    }
}

// Puts the begins from one place to another behind others, as those of the list at a place.
fn put_begins(
    starts: &[Candidate],
    from: usize,
    end: usize,
    place: usize,
    live: &mut Vec<Candidate>,
) -> Result<(), AllocError>
    ensures { OnOk result (live.new.items ≡ live.old.items ++ placed place (begins_from starts.now from end)) }
{
    let mut at = from;
    'begins: loop {
        match first_of(starts, at, end) {
            None => return Ok(()),
            Some(begin) => {
                live.push(Candidate {
                    list: place,
                    ..begin
                })?;
                at += 1;
            }
        }
    }
}

// How much stands before a list, if there is one.
fn mark_at(marks: &[Mark], number: usize) -> Option<Mark>
    ensures { result ≡ slice_get marks.now number }
{
    marks.get(number).copied()
}

// Where the begins of a list end behind which the next one is marked.
fn end_by(starts: &[Candidate], next: Option<Mark>) -> usize
    ensures { result ≡ end_by starts.now next }
{
    match next {
        Some(next) => next.starts,
        None => starts.len(),
    }
}

// Puts the begins of a list behind others, as those of the list at a place.
#[tactic(auto, using(crate::proofs::Begins::none_behind), unfolding(crate::specs::Standing::begins_in, crate::specs::Standing::placed))]
fn put_list(
    marks: &[Mark],
    starts: &[Candidate],
    number: usize,
    place: usize,
    live: &mut Vec<Candidate>,
) -> Result<(), AllocError>
    requires number { number < 2 ^ 32 }
    ensures { OnOk result (live.new.items ≡ live.old.items ++ placed place (begins_in marks.now starts.now number)) }
{
    let end = end_by(starts, mark_at(marks, number + 1));
    match mark_at(marks, number) {
        Some(mark) => put_begins(starts, mark.starts, end, place, live),
        None => Ok(()),
    }
}

// Puts the begins of the lists that the numbers name, each as that of the list at its place.
fn put_lists(
    marks: &[Mark],
    starts: &[Candidate],
    numbers: &[u32],
    live: &mut Vec<Candidate>,
) -> Result<(), AllocError>
    ensures { OnOk result (live.new.items ≡ live.old.items ++ begins_of marks.now starts.now 0 numbers.now) }
{
    for place in 0..numbers.len() {
        put_list(marks, starts, numbers[place] as usize, place, live)?;
    }
    Ok(())
}

/// Takes the begins of the open lists alone.
pub(crate) fn begin(lists: OpenLists<'_>, live: &mut Vec<Candidate>) -> Result<(), AllocError>
    ensures { OnOk result ((opened : List Opened) → Opens lists.entry opened → StandFor lists.entry.markup.now.flat.pieces live.new.items opened) }
{
    live.clear();
    put_lists(
        lists.markup.marks(),
        lists.markup.starts(),
        lists.numbers,
        live,
    )?;
    Ok(())
}
