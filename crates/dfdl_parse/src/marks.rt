// The open marks of the machine.
ghost use Rattle.std.specs.Prelude.{◌≡◌, ◌<◌, ℕ, [], ◌∷◌, ◌++◌, IfSome, IfNone, OnOk, IfOk, IsTrue, ◌↔◌, false, length, reverse};
ghost use Rattle.dfdl_grammar.specs.Marks.{are_initiated, is_settled, outer_marks, resolved_among, stays_at};
ghost use Rattle.dfdl_grammar.specs.States.{held_from};
ghost use Rattle.dfdl_parse.specs.Resolving.{is_initiated_at, resolved_at};

use dfdl_grammar::Mark;
use dfdl_region::{Content, Lengths};
use std::alloc::{AllocError, Global};
use std::marker::Model;

/// Marks, the innermost first.
#[derive(Drop)]
pub struct Marks {
    marks: Vec<Mark>,
}

impl Model for Marks {
    ghost use Rattle.std.specs.Prelude.{List, reverse};
    ghost use Rattle.dfdl_grammar.specs.declared.mark.Mark.{Mark};

    ghost Value = { List Mark };

    ghost view = { λ m. reverse m.marks.items };
}

impl Marks {
    /// No marks, with the memory for so many. More are taken as they are needed.
    pub fn open(alloc: Global, room: usize) -> Result<Marks, AllocError>
        ensures { IfOk result (λ marks. marks ≡ []) }
    {
        Ok(Marks {
            marks: Vec::with_capacity(alloc, room)?,
        })
    }

    pub(crate) fn push(&mut self, mark: Mark) -> Result<(), AllocError>
        ensures { OnOk result (self.new ≡ mark ∷ self.old) }
    {
        put(&mut self.marks, mark, mark.content, mark.lengths)
    }

    /// Closes the innermost mark, if there is one.
    pub(crate) fn close(&mut self)
        ensures { self.new ≡ outer_marks self.old }
    {
        self.marks.pop();
    }

    /// The innermost mark.
    pub(crate) fn innermost(&self) -> Option<Mark>
        ensures some { IfSome result (λ mark. self.now ≡ mark ∷ outer_marks self.now) }
        ensures none { IfNone result (self.now ≡ []) }
    {
        self.marks.last().copied()
    }

    /// Whether a bit is none behind the innermost mark.
    pub(crate) fn stays_at(&self, bit: u64) -> bool
        ensures { result ≡ stays_at self.now bit }
    {
        match self.innermost() {
            Some(mark) => bit <= mark.at,
            None => true,
        }
    }

    /// Whether the innermost mark is resolved.
    pub(crate) fn is_settled(&self) -> bool
        ensures { result ≡ is_settled self.now }
    {
        match self.innermost() {
            Some(mark) => mark.is_resolved,
            None => false,
        }
    }

    /// Whether an initiator resolves the innermost point.
    pub(crate) fn are_initiated(&self) -> bool
        ensures { result ≡ are_initiated self.now }
    {
        match innermost_point(self.marks.as_slice()) {
            Some(place) => is_initiated_at(self.marks.as_slice(), place),
            None => false,
        }
    }

    /// Resolves the innermost point, if there is one.
    pub(crate) fn resolve(&mut self)
        ensures { self.new ≡ resolved_among self.old }
    {
        if let Some(place) = innermost_point(self.marks.as_slice()) {
            resolve_at(&mut self.marks, place);
        }
    }

    pub(crate) fn is_empty(&self) -> bool
        ensures { IsTrue result ↔ (self.now ≡ []) }
    {
        self.marks.is_empty()
    }

    /// The bit of the outermost mark that isn't resolved, or this one where there is none.
    pub(crate) fn held_from(&self, bit: u64) -> u64
        ensures { result ≡ held_from self.now bit }
    {
        first_held(self.marks.as_slice(), bit)
    }
}

// Puts a mark behind the others, of an element that has this and is so long.
fn put(
    marks: &mut Vec<Mark>,
    mark: Mark,
    content: Content,
    lengths: Option<Lengths>,
) -> Result<(), AllocError>
    ensures { OnOk result (marks.new.items ≡ marks.old.items ++ record mark { content = content; lengths = lengths } ∷ []) }
{
    marks.push(Mark {
        content,
        lengths,
        ..mark
    })?;
    Ok(())
}

// The place of the innermost point among marks with the outermost first, if there is one.
fn innermost_point(marks: &[Mark]) -> Option<usize>
    ensures within { IfSome result (λ place. place < length marks.now) }
    ensures resolved { IfSome result (λ place. resolved_among (reverse marks.now) ≡ reverse (resolved_at place marks.now)) }
    ensures initiated { IfSome result (λ place. are_initiated (reverse marks.now) ≡ is_initiated_at place marks.now) }
    ensures none { IfNone result (resolved_among (reverse marks.now) ≡ reverse marks.now) }
    ensures never { IfNone result (are_initiated (reverse marks.now) ≡ false) }
{
    let count = marks.len();
    for inside in 0..count {
        let place = count - 1 - inside;
        if marks[place].is_point {
            return Some(place);
        }
    }
    None
}

// Whether an initiator resolves the mark of a place.
fn is_initiated_at(marks: &[Mark], place: usize) -> bool
    requires { place < length marks.now }
    ensures { result ≡ is_initiated_at place marks.now }
{
    marks[place].is_initiated
}

// Resolves the mark of a place.
fn resolve_at(marks: &mut Vec<Mark>, place: usize)
    requires { place < length marks.old.items }
    ensures { marks.new.items ≡ resolved_at place marks.old.items }
{
    let mark = &mut marks[place];
    mark.is_resolved = true;
}

// The bit of the first mark that isn't resolved, or this one where there is none.
fn first_held(marks: &[Mark], bit: u64) -> u64
    ensures { result ≡ held_from (reverse marks.now) bit }
{
    for mark in marks {
        if !mark.is_resolved {
            return mark.at;
        }
    }
    bit
}
