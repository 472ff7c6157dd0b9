// An element, by its representations: nil, empty and normal, in this order from one place.
ghost use Rattle.std.specs.Prelude.{◌≡◌, ◌≤◌, ◌∷◌, Some, false, OnOk, slice_get};
ghost use Rattle.dfdl_bits.specs.Window.{Held};
ghost use Rattle.dfdl_surroundings.specs.Answers.{lengths_of};
ghost use Rattle.dfdl_grammar.specs.Marks.{back, back_to, closed, content_of, mark_at};
ghost use Rattle.dfdl_grammar.specs.Representations.{is_occurrence, representations_in};
ghost use Rattle.dfdl_looks.specs.Tallies.{Tally, nothing};
ghost use Rattle.dfdl_parse.specs.Moves.{pass};
ghost use Rattle.dfdl_parse.specs.Opens.{IsBefore};
ghost use Rattle.dfdl_parse.specs.Trials.{attempt, enter_element, is_refused, parts_here, parts_of, refused, retry, trial_done, try_empty, try_nil, try_normal};
ghost use Rattle.dfdl_parse.specs.Steps.{IsFree, Moved};
ghost use Rattle.dfdl_parse.specs.Shown.{Becomes, HasSameLimits, state_of};

use crate::frame::{Focus, Frame, Next, Parts};
use crate::parser::Parser;
use dfdl_grammar::{End, Instead, Mark};
use dfdl_region::{Content, Lengths, Node};
use dfdl_report::{LimitCause, ParseCause};
use dfdl_terms::{Representations, Row, RowId, Terms};
use std::alloc::AllocError;

impl Parser {
    // An element begins: with a mark, where it has several representations.
    pub(crate) fn begin_element(&mut self, id: RowId, parts: Parts) -> Result<(), AllocError>
        ensures moved { (held : Held) → OnOk result (Moved
            (enter_element self.old.region.most held id parts self.old.stack (state_of self.old)) false self.old.far self.new held 0) }
        ensures most { OnOk result (HasSameLimits self.old self.new) }
        ensures at { OnOk result (self.new.at ≡ self.old.at) }
    {
        if parts.tried.are_several {
            self.open_mark(false, false)?;
            self.try_nil(id, parts, parts.tried.nil)
        } else {
            self.attempt(id, parts, Instead::Nothing)
        }
    }

    // A mark is opened here, which is a point of uncertainty or none, and which an initiator resolves or not.
    pub(crate) fn open_mark(&mut self, is_point: bool, is_initiated: bool) -> Result<(), AllocError>
        ensures { OnOk result (self.new ≡ record self.old {
          marks = record (mark_at (state_of self.old)) { is_point = is_point; is_initiated = is_initiated } ∷ self.old.marks;
        }) }
    {
        let content = self.content();
        let lengths = self.lengths();
        self.marks.push(Mark {
            at: self.at,
            is_point,
            is_resolved: false,
            is_initiated,
            stop: self.stop,
            nodes: self.region.count(),
            text: self.text.count(),
            inside: self.inside,
            content,
            lengths,
            variables: self.variables.mark(),
        })?;
        Ok(())
    }

    // What the innermost open element has; where there is none, as before any read.
    fn content(&self) -> Content
        ensures { result ≡ content_of (slice_get self.now.region.nodes self.now.inside) }
    {
        match self.region.nodes().get(self.inside as usize) {
            Some(node) => node.content,
            None => Content::Begun,
        }
    }

    // How long the innermost open element is, as far as that is known.
    fn lengths(&self) -> Option<Lengths>
        ensures { result ≡ lengths_of (slice_get self.now.region.nodes self.now.inside) }
    {
        match self.region.nodes().get(self.inside as usize) {
            Some(node) => node.lengths,
            None => None,
        }
    }

    // The nil representation begins, where there is one, and else another one.
    fn try_nil(&mut self, id: RowId, parts: Parts, nil: Option<u32>) -> Result<(), AllocError>
        ensures moved { (held : Held) (cost : Tally) → IsFree cost → OnOk result (Moved
            (try_nil cost self.old.region.most held id parts nil self.old.stack (state_of self.old)) false self.old.far self.new held 0) }
        ensures most { OnOk result (HasSameLimits self.old self.new) }
        ensures at { OnOk result (self.new.at ≡ self.old.at) }
    {
        match nil {
            None => self.try_empty(id, parts, parts.tried.empty),
            Some(prim) => self.attempt_before(id, parts, Instead::Nil(prim), Next::Empty),
        }
    }

    // The empty representation begins, where there is one, and else the normal one.
    fn try_empty(&mut self, id: RowId, parts: Parts, empty: Option<u32>) -> Result<(), AllocError>
        ensures moved { (held : Held) (cost : Tally) → IsFree cost → OnOk result (Moved
            (try_empty cost self.old.region.most held id parts empty self.old.stack (state_of self.old)) false self.old.far self.new held 0) }
        ensures most { OnOk result (HasSameLimits self.old self.new) }
        ensures at { OnOk result (self.new.at ≡ self.old.at) }
    {
        match empty {
            None => self.try_normal(id, parts),
            Some(prim) => self.attempt_before(id, parts, Instead::Empty(prim), Next::Normal),
        }
    }

    // The normal representation begins, as the last one.
    fn try_normal(&mut self, id: RowId, parts: Parts) -> Result<(), AllocError>
        ensures moved { (held : Held) (cost : Tally) → IsFree cost → OnOk result (Moved
            (try_normal cost self.old.region.most held id parts self.old.stack (state_of self.old)) false self.old.far self.new held 0) }
        ensures most { OnOk result (HasSameLimits self.old self.new) }
        ensures at { OnOk result (self.new.at ≡ self.old.at) }
    {
        self.attempt_before(id, parts, Instead::Nothing, Next::Nothing)
    }

    // One of several representations begins, behind which this follows where it fails.
    fn attempt_before(
        &mut self,
        id: RowId,
        parts: Parts,
        instead: Instead,
        next: Next,
    ) -> Result<(), AllocError>
        ensures moved { (held : Held) (cost : Tally) → IsFree cost → OnOk result (Moved
            (attempt cost self.old.region.most held id parts instead (Frame.Trial id parts.occurrence next ∷ self.old.stack) (state_of self.old))
            false self.old.far self.new held 0) }
        ensures most { OnOk result (HasSameLimits self.old self.new) }
        ensures at { OnOk result (self.new.at ≡ self.old.at) }
    {
        self.stack.push(Frame::Trial {
            element: id,
            occurrence: parts.occurrence,
            next,
        })?;
        self.attempt(id, parts, instead)
    }

    // One representation of an element begins, and its content is done next.
    fn attempt(&mut self, id: RowId, parts: Parts, instead: Instead) -> Result<(), AllocError>
        ensures moved { (held : Held) (cost : Tally) → IsFree cost → OnOk result (Moved
            (attempt cost self.old.region.most held id parts instead self.old.stack (state_of self.old)) false self.old.far self.new held 0) }
        ensures most { OnOk result (HasSameLimits self.old self.new) }
        ensures at { OnOk result (self.new.at ≡ self.old.at) }
    {
        let outer = self.inside;
        let node = Node {
            element: id,
            parent: outer,
            content: Content::Begun,
            lengths: None,
        };
        match self.region.add(node) {
            Ok(number) => {
                let complex = parts.complex;
                self.stack.push(Frame::Element { outer, complex })?;
                self.inside = number;
                self.instead = instead;
                self.focus = Focus::Enter(parts.body);
            }
            Err(_) => {
                let most = u64::from(self.region.most());
                self.stop_at(LimitCause::Nodes, most);
            }
        }
        Ok(())
    }

    // A representation has failed at this end: the next one begins at the mark, or the mark is closed.
    pub(crate) fn retry(
        &mut self,
        parts: Option<Parts>,
        id: RowId,
        next: Next,
        end: End,
    ) -> Result<(), AllocError>
        ensures moved { (held : Held) → OnOk result (Moved
            (retry self.old.region.most held id parts next end self.old.stack (state_of self.old)) false self.old.far self.new held 0) }
        ensures most { OnOk result (HasSameLimits self.old self.new) }
        ensures at { OnOk result (IsBefore self.old.marks self.old.at → self.new.at ≤ self.old.at) }
    {
        match parts {
            Some(parts) => self.retry_by(parts, id, next, end),
            None => {
                self.end_trial(end);
                Ok(())
            }
        }
    }

    // A representation of an element of which this is known has failed at an end.
    fn retry_by(&mut self, parts: Parts, id: RowId, next: Next, end: End) -> Result<(), AllocError>
        ensures moved { (held : Held) → OnOk result (Moved
            (retry self.old.region.most held id (Some parts) next end self.old.stack (state_of self.old)) false self.old.far self.new held 0) }
        ensures most { OnOk result (HasSameLimits self.old self.new) }
        ensures at { OnOk result (IsBefore self.old.marks self.old.at → self.new.at ≤ self.old.at) }
    {
        match next {
            Next::Empty => {
                self.go_back();
                self.try_empty(id, parts, parts.tried.empty)
            }
            Next::Normal => {
                self.go_back();
                self.try_normal(id, parts)
            }
            Next::Nothing => {
                self.end_trial(end);
                Ok(())
            }
        }
    }

    // A representation is done: the mark is closed, or the element fails, where this is the empty one and is refused.
    pub(crate) fn finish_trial(&mut self, parts: Option<Parts>, next: Next)
        ensures moved { (held : Held) → Moved
            (trial_done held parts next self.old.stack (state_of self.old)) false self.old.far self.new held 0 }
        ensures most { HasSameLimits self.old self.new }
        ensures at { self.new.at ≡ self.old.at }
    {
        let refuses = is_refused(parts, next);
        if refuses {
            self.refuse();
        } else {
            self.end_trial(End::Done);
        }
    }

    // An element that has no value to take fails at the innermost mark, where it began, and is open again.
    fn refuse(&mut self)
        ensures moved { (held : Held) → Moved
            (refused self.old.marks held self.old.stack (state_of self.old)) false self.old.far self.new held 0 }
        ensures most { HasSameLimits self.old self.new }
        ensures at { self.new.at ≡ self.old.at }
    {
        match self.marks.innermost() {
            None => {
                self.focus = Focus::Leave(End::Done);
            }
            Some(mark) => {
                self.inside = mark.nodes;
                self.end_trial(End::Failed {
                    cause: ParseCause::RequiredEmpty,
                    bit: mark.at,
                });
            }
        }
    }

    // The last representation has come to an end, and the mark is closed.
    pub(crate) fn end_trial(&mut self, end: End)
        ensures moved { (held : Held) → Moved
            (pass nothing held (Focus.Leave end) self.old.stack (closed (state_of self.old))) false self.old.far self.new held 0 }
        ensures most { HasSameLimits self.old self.new }
        ensures at { self.new.at ≡ self.old.at }
    {
        self.marks.close();
        self.focus = Focus::Leave(end);
    }

    // The state is again that of the innermost mark, which stays open.
    pub(crate) fn go_back(&mut self)
        ensures back { Becomes self.old (record { focus = self.old.focus; stack = self.old.stack; state = back (state_of self.old) }) self.new }
        ensures at { IsBefore self.old.marks self.old.at → self.new.at ≤ self.old.at }
    {
        if let Some(mark) = self.marks.innermost() {
            self.go_to(mark);
        }
    }

    // The state is again that of a mark, which stays open.
    fn go_to(&mut self, mark: Mark)
        ensures back { Becomes self.old (record { focus = self.old.focus; stack = self.old.stack; state = back_to mark (state_of self.old) }) self.new }
        ensures at { self.new.at ≡ mark.at }
    {
        self.at = mark.at;
        self.stop = mark.stop;
        self.region.undo_to(mark.nodes);
        self.region.set_content(mark.inside, mark.content);
        self.region.set_lengths(mark.inside, mark.lengths);
        self.text.undo_to(mark.text);
        self.inside = mark.inside;
        self.variables.undo_to(mark.variables);
    }
}

// Whether this is the empty representation of an element that has no value to take.
fn is_refused(parts: Option<Parts>, next: Next) -> bool
    ensures { result ≡ is_refused parts next }
{
    match parts {
        None => false,
        Some(parts) => match next {
            Next::Empty => false,
            Next::Normal => parts.tried.refuses_empty,
            Next::Nothing => false,
        },
    }
}

/// What the row of an element says of it that begins where content is read by this.
pub(crate) fn parts_here(
    instead: Instead,
    complex: bool,
    tried: Representations,
    body: RowId,
) -> Parts
    ensures { result ≡ parts_here instead complex tried body }
{
    let occurrence = is_occurrence(instead);
    Parts {
        complex,
        tried: representations_in(occurrence, tried),
        body,
        occurrence,
    }
}

// Whether the element that begins next is an occurrence that is tried.
fn is_occurrence(instead: Instead) -> bool
    ensures { result ≡ is_occurrence instead }
{
    match instead {
        Instead::Nothing => false,
        Instead::Nil(_) => false,
        Instead::Empty(_) => false,
        Instead::Tried => true,
    }
}

// The representations of an element, or of an occurrence of it that is tried, which never takes a default.
fn representations_in(occurrence: bool, tried: Representations) -> Representations
    ensures { result ≡ representations_in occurrence tried }
{
    if !occurrence {
        return tried;
    }
    Representations {
        nil: tried.nil,
        empty: tried.where_tried.empty,
        refuses_empty: tried.where_tried.refuses_empty,
        are_several: tried.where_tried.are_several,
        where_tried: tried.where_tried,
    }
}

/// What the row of an element says of it, or of an occurrence of it that is tried, if a row is one.
pub(crate) fn parts_of(terms: &Terms, id: RowId, occurrence: bool) -> Option<Parts>
    ensures { result ≡ parts_of occurrence (slice_get terms.now.rows id) }
{
    if id.number() >= terms.rows() {
        return None;
    }
    match terms.row(id) {
        Row::Elem {
            simple,
            tried,
            body,
            ..
        } => Some(Parts {
            complex: simple.is_none(),
            tried: representations_in(occurrence, *tried),
            body: *body,
            occurrence,
        }),
        Row::Leaf { .. } => None,
        Row::Group { .. } => None,
        Row::Skip { .. } => None,
        Row::Align { .. } => None,
        Row::Initiator { .. } => None,
        Row::Terminator { .. } => None,
        Row::Separator => None,
        Row::Scope { .. } => None,
        Row::Boxed { .. } => None,
        Row::PrefixedLeaf { .. } => None,
        Row::PrefixedBox { .. } => None,
        Row::MeasuredLeaf { .. } => None,
        Row::MeasuredBox { .. } => None,
        Row::Repeat { .. } => None,
        Row::Counted { .. } => None,
        Row::Optional { .. } => None,
        Row::Choice { .. } => None,
        Row::Dispatch { .. } => None,
        Row::Statement { .. } => None,
        Row::Concluded { .. } => None,
        Row::Hidden { .. } => None,
        Row::Spanned { .. } => None,
        Row::Instance { .. } => None,
        Row::Separated { .. } => None,
    }
}
