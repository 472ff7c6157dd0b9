// The laying of pieces while the events of an infoset come.
ghost use Rattle.std.specs.Prelude.{◌≡◌, ◌+◌, ◌++◌, ◌∷◌, [], All, IfOk, IfNone, None, Some, drop, map, slice_get};
ghost use Rattle.dfdl_json.specs.Paths.{path_of};
ghost use Rattle.dfdl_terms.specs.Rows.{HasPlainRows};
ghost use Rattle.dfdl_terms.specs.declared.representations.Representations.{Representations};
ghost use Rattle.dfdl_terms.specs.declared.row.Row.TheVariants.{Elem};
ghost use Rattle.dfdl_terms.specs.declared.statement.Statements.{Statements};
ghost use Rattle.dfdl_json.specs.Fitting.{Fits};
ghost use Rattle.dfdl_json.specs.Steps.{steps_of};
ghost use Rattle.dfdl_pieces.specs.Laying as lays;
ghost use Rattle.dfdl_pieces.specs.Laying.{Laying, Takes};
ghost use Rattle.dfdl_pieces.specs.declared.unparsing.Task.TheVariants.{Lay};
ghost use Rattle.dfdl_pieces.specs.Unparsing.{IsLess, IsTyped, Moves, left, outcome, steps_left};
ghost use Rattle.dfdl_pieces.specs.Whole.{AreWholeFields};

use crate::bytes::piece;
use crate::events::{begins, next_event, value_for};
use crate::forms::form_at;
use crate::piece::PieceList;
use dfdl_json::{OpenElements, root_row, row_at};
use dfdl_terms::{Event, Row, RowId, Terms};
use dfdl_value::{Simple, TextValue};
use std::alloc::{AllocError, Global};
use std::collections::VecDeque;

/// The pieces of the elements before the first required one without an event, in the order of the data, and that
/// element's path, as `/r/a`.
#[derive(Debug, Drop)]
pub struct Unparsed {
    pub pieces: PieceList,
    pub missing: Option<TextValue>,
}

// What is to be laid next: a row, or the end of the innermost open element.
#[derive(Clone, Copy, Drop)]
pub(crate) enum Task {
    Lay(RowId),
    Close,
}

// What is left to be laid, the elements around it, the place of the next event, and the pieces so far.
#[derive(Drop)]
pub(crate) struct Unparser<'t> {
    tasks: VecDeque<Task>,
    around: OpenElements<'t>,
    at: usize,
    pieces: PieceList,
}

/// The pieces of the values that these events of an infoset have.
pub fn unparse(alloc: Global, terms: &Terms, events: &[Event]) -> Result<Unparsed, AllocError>
    requires whole { AreWholeFields terms.now }
    requires plain { HasPlainRows terms.now.rows }
    requires fits { Fits terms.now events.now }
    ensures { IfOk result (λ unparsed. unparsed ≡ lays.unparsed_of terms.now events.now) }
{
    let mut unparser = Unparser::new(alloc, root_row(terms))?;
    let missing = unparser.run(alloc, terms, events)?;
    let pieces = unparser.pieces();
    Ok(Unparsed { pieces, missing })
}

impl<'t> Unparser<'t> {
    // The laying of the root element, whose row this is.
    fn new(alloc: Global, root: RowId) -> Result<Unparser<'t>, AllocError>
        ensures tasks { IfOk result (λ unparser. unparser.tasks.items ≡ Lay root ∷ []) }
        ensures names { IfOk result (λ unparser. unparser.around ≡ []) }
        ensures at { IfOk result (λ unparser. unparser.at ≡ 0) }
        ensures pieces { IfOk result (λ unparser. unparser.pieces ≡ []) }
    {
        let mut tasks = VecDeque::new(alloc);
        tasks.push_front(Task::Lay(root))?;
        Ok(Unparser {
            tasks,
            around: OpenElements::new(alloc),
            at: 0,
            pieces: PieceList::new(alloc),
        })
    }

    // Lays all that is left, up to an element that is missing, whose path it answers.
    fn run(
        &mut self,
        alloc: Global,
        terms: &'t Terms,
        events: &[Event],
    ) -> Result<Option<TextValue>, AllocError>
        requires whole { AreWholeFields terms.now }
        requires typed { All (IsTyped terms.now) events.now }
        ensures { IfOk result (λ missing. record { pieces = self.new.pieces; missing = missing }
            ≡ outcome self.old events.now (left terms.now self.old.tasks.items self.old.around)) }
    {
        while let Some(task) = self.tasks.pop_front() {
            if let Some(path) = self.perform(alloc, terms, events, task)? {
                return Ok(Some(path));
            }
        }
        Ok(None)
    }

    // The pieces that were laid.
    fn pieces(self) -> PieceList
        ensures { result ≡ self.entry.pieces }
    {
        self.pieces
    }

    // Does a task that stood before the others, or puts others in its place.
    fn perform(
        &mut self,
        alloc: Global,
        terms: &'t Terms,
        events: &[Event],
        task: Task,
    ) -> Result<Option<TextValue>, AllocError>
        requires whole { AreWholeFields terms.now }
        requires typed { All (IsTyped terms.now) events.now }
        ensures moves { IfOk result (Moves events.now self.old (left terms.now (task ∷ self.old.tasks.items) self.old.around)
            self.new (left terms.now self.new.tasks.items self.new.around)) }
        ensures less { IfOk result (IsLess terms.now (steps_left terms.now (task ∷ self.old.tasks.items)) self.new) }
    {
        match task {
            Task::Lay(row) => self.lay(alloc, terms, events, row),
            Task::Close => {
                self.close(events);
                Ok(None)
            }
        }
    }

    // The innermost open element ends by the next event.
    fn close(&mut self, events: &[Event])
        ensures moves { (more : Laying) → outcome self.new events.now more ≡ outcome self.old events.now (Takes (λ end. more)) }
        ensures tasks { self.new.tasks.items ≡ self.old.tasks.items }
        ensures names { self.new.around ≡ drop 1 self.old.around }
    {
        let _end = next_event(events, &mut self.at);
        self.around.pop();
    }

    // Lays a row, or puts those inside it before the other tasks.
    fn lay(
        &mut self,
        alloc: Global,
        terms: &'t Terms,
        events: &[Event],
        row: RowId,
    ) -> Result<Option<TextValue>, AllocError>
        requires whole { AreWholeFields terms.now }
        requires typed { All (IsTyped terms.now) events.now }
        ensures moves { IfOk result (Moves events.now self.old
            (lays.laying terms.now row self.old.around (left terms.now self.old.tasks.items self.old.around))
            self.new (left terms.now self.new.tasks.items self.new.around)) }
        ensures less { IfOk result (IsLess terms.now (steps_of terms.now row + steps_left terms.now self.old.tasks.items) self.new) }
    {
        match row_at(terms, row) {
            Some(
                Row::Elem {
                    name,
                    simple,
                    body,
                    ..
                },
            ) => match simple {
                Some(kind) => {
                    self.lay_simple(alloc, terms, events, row, name.as_str(), *kind, *body)
                }
                None => self.lay_complex(alloc, terms, events, row, name.as_str(), *body),
            },
            Some(Row::Group { children }) => self.lay_group(children.as_slice()),
            Some(Row::Leaf { .. }) => Ok(None),
            Some(Row::Skip { .. }) => Ok(None),
            Some(Row::Align { .. }) => Ok(None),
            Some(Row::Initiator { .. }) => Ok(None),
            Some(Row::Terminator { .. }) => Ok(None),
            Some(Row::Separator) => Ok(None),
            Some(Row::Scope { .. }) => Ok(None),
            Some(Row::Boxed { .. }) => Ok(None),
            Some(Row::PrefixedLeaf { .. }) => Ok(None),
            Some(Row::PrefixedBox { .. }) => Ok(None),
            Some(Row::MeasuredLeaf { .. }) => Ok(None),
            Some(Row::MeasuredBox { .. }) => Ok(None),
            Some(Row::Repeat { body, .. }) => self.lay_group(&[*body]),
            Some(Row::Counted { .. }) => Ok(None),
            Some(Row::Optional { .. }) => Ok(None),
            Some(Row::Choice { .. }) => Ok(None),
            Some(Row::Dispatch { .. }) => Ok(None),
            Some(Row::Statement { .. }) => Ok(None),
            Some(Row::Concluded { .. }) => Ok(None),
            Some(Row::Hidden { .. }) => Ok(None),
            Some(Row::Spanned { body }) => self.lay_group(&[*body]),
            Some(Row::Instance { .. }) => Ok(None),
            Some(Row::Separated { .. }) => Ok(None),
            None => Ok(None),
        }
    }

    // Puts the rows of a group before the other tasks.
    fn lay_group(&mut self, rows: &[RowId]) -> Result<Option<TextValue>, AllocError>
        ensures none { IfOk result (λ missing. missing ≡ None) }
        ensures tasks { IfOk result (λ missing. self.new.tasks.items ≡ map Lay rows.now ++ self.old.tasks.items) }
        ensures names { self.new.around ≡ self.old.around }
        ensures at { self.new.at ≡ self.old.at }
        ensures pieces { self.new.pieces ≡ self.old.pieces }
    {
        for at in (0..rows.len()).rev() {
            self.tasks.push_front(Task::Lay(rows[at]))?;
        }
        Ok(None)
    }

    // Lays a simple element, if the next event has its value.
    fn lay_simple(
        &mut self,
        alloc: Global,
        terms: &Terms,
        events: &[Event],
        row: RowId,
        name: &'t str,
        kind: Simple,
        body: RowId,
    ) -> Result<Option<TextValue>, AllocError>
        requires whole { AreWholeFields terms.now }
        requires typed { All (IsTyped terms.now) events.now }
        requires row { (tried : Representations) × (behind : Statements)
            × (slice_get terms.now.rows row ≡ Some (Elem name.now (Some kind) tried behind body)) }
        ensures moves { IfOk result (λ missing. (more : Laying) → Moves events.now self.old
            (Takes (λ event. lays.value_laying (name.now ∷ self.old.around) (lays.form_at terms.now body) more (lays.value_for row event)))
            self.new more missing) }
        ensures tasks { self.new.tasks.items ≡ self.old.tasks.items }
        ensures names { IfOk result (λ missing. IfNone missing (self.new.around ≡ self.old.around)) }
    {
        let event = next_event(events, &mut self.at);
        let Some(value) = value_for(event, row) else {
            return self.miss(alloc, name);
        };
        let Some(form) = form_at(terms, body) else {
            unreachable!()
        };
        self.pieces.push(piece(value, form))?;
        Ok(None)
    }

    // Begins a complex element, if the next event does.
    fn lay_complex(
        &mut self,
        alloc: Global,
        terms: &Terms,
        events: &[Event],
        row: RowId,
        name: &'t str,
        body: RowId,
    ) -> Result<Option<TextValue>, AllocError>
        ensures moves { IfOk result (Moves events.now self.old
            (Takes (λ event. lays.begun_laying (name.now ∷ self.old.around)
            (lays.laying terms.now body (name.now ∷ self.old.around) (Takes (λ end. left terms.now self.old.tasks.items self.old.around)))
            (lays.begins row event)))
            self.new (left terms.now self.new.tasks.items self.new.around)) }
        ensures less { IfOk result (IsLess terms.now (2 + steps_of terms.now body + steps_left terms.now self.old.tasks.items) self.new) }
    {
        let event = next_event(events, &mut self.at);
        if !begins(event, row) {
            return self.miss(alloc, name);
        }
        self.around.push(name)?;
        self.tasks.push_front(Task::Close)?;
        self.tasks.push_front(Task::Lay(body))?;
        Ok(None)
    }

    // The path of an element of this name in the open ones, which is missing.
    fn miss(&mut self, alloc: Global, name: &'t str) -> Result<Option<TextValue>, AllocError>
        ensures path { IfOk result (λ missing. missing ≡ Some (path_of (name.now ∷ self.old.around))) }
        ensures tasks { self.new.tasks.items ≡ self.old.tasks.items }
        ensures pieces { self.new.pieces ≡ self.old.pieces }
    {
        self.around.push(name)?;
        Ok(Some(self.around.path(alloc)?))
    }
}
