// Where the statements of rows stand.
ghost use Rattle.std.specs.Prelude.{◌≡◌, ◌<◌, ◌++◌, ◌∷◌, [], Some, OnOk, length, option_copied, slice_get};
ghost use Rattle.std.specs.List.{flat_map};
ghost use Rattle.dfdl_statements.specs.Standing as spec;

use crate::rows::{group_at, instance_at, question_at, slots_of, statement_at};
use crate::written::{Asked, Source, Written};
use dfdl_expression_types::Place;
use dfdl_terms::{Row, RowId, Slot, Statements};
use std::alloc::AllocError;

/// A statement, and a place where it stands.
#[derive(Clone, Copy)]
pub(crate) struct Standing {
    pub(crate) statement: usize,
    pub(crate) place: Place,
}

/// Statements behind an element, a sequence or a choice, where these stand, and the row that they are behind.
#[derive(Clone, Copy)]
pub(crate) struct Opening {
    pub(crate) behind: Statements,
    pub(crate) place: Place,
    pub(crate) body: RowId,
}

/// Rows, what is written of their statements, and the elements around them.
#[derive(Clone, Copy)]
pub(crate) struct Scene<'r, 'w> {
    pub(crate) rows: &'r [Row],
    pub(crate) written: &'r [Written<'w>],
    pub(crate) arounds: &'r [Option<usize>],
}

/// The element around a row.
pub(crate) fn around_at(arounds: &[Option<usize>], row: RowId) -> Option<usize>
    ensures { result ≡ spec.around_at arounds.now row }
{
    match arounds.get(row.number() as usize) {
        Some(around) => *around,
        None => None,
    }
}

fn at_element(around: Option<usize>) -> Place
    ensures { result ≡ spec.at_element around }
{
    match around {
        Some(element) => Place::At(element),
        None => Place::Above,
    }
}

fn in_element(around: Option<usize>) -> Place
    ensures { result ≡ spec.in_element around }
{
    match around {
        Some(element) => Place::Inside(element),
        None => Place::Above,
    }
}

fn question_place(asked: Asked, around: Option<usize>) -> Place
    ensures { result ≡ spec.question_place asked around }
{
    match asked {
        Asked::Length => at_element(around),
        Asked::Count => in_element(around),
        Asked::Key => in_element(around),
    }
}

fn source_place(source: &Source, around: Option<usize>) -> Place
    ensures { result ≡ spec.source_place source.now around }
{
    match source {
        Source::Calculation { .. } => at_element(around),
        Source::Question { asked, .. } => question_place(*asked, around),
        Source::Pattern(_) => in_element(around),
        Source::Test { .. } => in_element(around),
        Source::Setting { .. } => in_element(around),
        Source::Opening { .. } => in_element(around),
    }
}

// Where a statement stands that is done by a row of its own.
fn row_place(written: &[Written<'_>], statement: u32, around: Option<usize>) -> Place
    ensures { result ≡ spec.row_place (slice_get written.now statement) around }
{
    match written.get(statement as usize) {
        Some(written) => source_place(&written.source, around),
        None => in_element(around),
    }
}

fn opened_by(behind: Statements, place: Place, body: RowId) -> Opening
    ensures { result ≡ record { behind = behind; place = place; body = body } }
{
    Opening {
        behind,
        place,
        body,
    }
}

// The statements behind a row of so many, if it has some.
fn opening_of(count: usize, arounds: &[Option<usize>], id: RowId, row: &Row) -> Option<Opening>
    requires { id < count }
    ensures { result ≡ spec.opening_in count arounds.now id (Some row.now) }
{
    match row {
        Row::Elem { behind, body, .. } => {
            let place = Place::At(count - 1 - id.number() as usize);
            Some(opened_by(*behind, place, *body))
        }
        Row::Concluded { behind, body } => {
            let place = in_element(around_at(arounds, id));
            Some(opened_by(*behind, place, *body))
        }
        _ => None,
    }
}

fn push(list: &mut Vec<Standing>, statement: usize, place: Place) -> Result<(), AllocError>
    ensures { OnOk result (list.new.items ≡ list.old.items ++ spec.standing_of statement place ∷ []) }
{
    list.push(Standing { statement, place })?;
    Ok(())
}

// Statements that stand at one place.
fn push_all(
    list: &mut Vec<Standing>,
    statements: Statements,
    place: Place,
) -> Result<(), AllocError>
    ensures { OnOk result (list.new.items ≡ list.old.items ++ spec.standings_from statements.first statements.count place) }
{
    for step in 0..statements.count {
        push(list, statements.first as usize + step as usize, place)?;
    }
    Ok(())
}

impl<'r, 'w> Scene<'r, 'w> {
    // The statement that a row is, or by which it asks for its length, if there is one.
    fn push_stated(&self, list: &mut Vec<Standing>, row: RowId) -> Result<(), AllocError>
        ensures { OnOk result (list.new.items ≡ list.old.items ++ spec.stated self.now.rows.now self.now.written.now self.now.arounds.now row) }
    {
        match statement_at(self.rows, row) {
            Some(statement) => {
                let place = row_place(self.written, statement, around_at(self.arounds, row));
                push(list, statement as usize, place)
            }
            None => Ok(()),
        }
    }

    fn push_each(&self, list: &mut Vec<Standing>, rows: &[RowId]) -> Result<(), AllocError>
        ensures { OnOk result (list.new.items ≡ list.old.items
            ++ flat_map (spec.stated self.now.rows.now self.now.written.now self.now.arounds.now) rows.now) }
    {
        for row in rows {
            self.push_stated(list, *row)?;
        }
        Ok(())
    }

    // Those right inside of a group, and of any other row itself.
    fn push_grouped(&self, list: &mut Vec<Standing>, row: RowId) -> Result<(), AllocError>
        ensures { OnOk result (list.new.items ≡ list.old.items ++ spec.grouped self.now.rows.now self.now.written.now self.now.arounds.now row) }
    {
        match group_at(self.rows, row) {
            Some(children) => self.push_each(list, children),
            None => self.push_stated(list, row),
        }
    }

    // The statement that opens an instance at a row.
    fn push_instance(
        &self,
        list: &mut Vec<Standing>,
        row: RowId,
        statement: u32,
    ) -> Result<(), AllocError>
        ensures { OnOk result (list.new.items ≡ list.old.items
            ++ spec.standing_of statement (spec.row_place (slice_get self.now.written.now statement) (spec.around_at self.now.arounds.now row)) ∷ []) }
    {
        let place = row_place(self.written, statement, around_at(self.arounds, row));
        push(list, statement as usize, place)
    }

    // Those of instances that a row opens, one inside of the other, and of the group inside of them.
    fn push_begun(&self, list: &mut Vec<Standing>, row: RowId) -> Result<(), AllocError>
        ensures { OnOk result (list.new.items ≡ list.old.items ++ spec.begun self.now.rows.now self.now.written.now self.now.arounds.now row) }
    {
        let mut at = row;
        for _ in 0..self.rows.len() {
            match instance_at(self.rows, at) {
                Some(instance) => {
                    self.push_instance(list, at, instance.statement)?;
                    at = instance.body;
                }
                None => return self.push_grouped(list, at),
            }
        }
        Ok(())
    }

    // A row is a statement, and another opens an instance.
    fn opens_behind(&self, first: RowId, last: RowId) -> bool
        ensures { result ≡ spec.opens_behind self.now.rows.now self.now.written.now self.now.arounds.now first last }
    {
        statement_at(self.rows, first).is_some() && instance_at(self.rows, last).is_some()
    }

    // Those of the instances that the last one of some rows opens, where the first of them is a test.
    fn push_tested_by(&self, list: &mut Vec<Standing>, rows: &[RowId]) -> Result<(), AllocError>
        ensures { OnOk result (list.new.items ≡ list.old.items ++ spec.tested_by self.now.rows.now self.now.written.now self.now.arounds.now rows.now) }
    {
        if rows.is_empty() {
            return Ok(());
        }
        let last = rows[rows.len() - 1];
        if self.opens_behind(rows[0], last) {
            self.push_begun(list, last)?;
        }
        Ok(())
    }

    // Those of the instances that are opened behind tests, right inside of a group.
    fn push_tested(&self, list: &mut Vec<Standing>, row: RowId) -> Result<(), AllocError>
        ensures { OnOk result (list.new.items ≡ list.old.items ++ spec.tested self.now.rows.now self.now.written.now self.now.arounds.now row) }
    {
        match group_at(self.rows, row) {
            Some(children) => self.push_tested_by(list, children),
            None => Ok(()),
        }
    }

    // What a row asks for that is a choice, or that repeats an element.
    fn push_asked(&self, list: &mut Vec<Standing>, row: RowId) -> Result<(), AllocError>
        ensures { OnOk result (list.new.items ≡ list.old.items ++ spec.asked self.now.rows.now self.now.written.now self.now.arounds.now row) }
    {
        match question_at(self.rows, row) {
            Some(question) => {
                let place = row_place(self.written, question, around_at(self.arounds, row));
                push(list, question as usize, place)
            }
            None => Ok(()),
        }
    }

    // The statements of a row that opens nothing.
    fn push_own(&self, list: &mut Vec<Standing>, row: RowId) -> Result<(), AllocError>
        ensures { OnOk result (list.new.items ≡ list.old.items
            ++ (spec.begun self.now.rows.now self.now.written.now self.now.arounds.now row
            ++ spec.asked self.now.rows.now self.now.written.now self.now.arounds.now row)) }
    {
        self.push_begun(list, row)?;
        self.push_asked(list, row)
    }

    // The statements behind an element, a sequence or a choice, those that open instances, and those of the group right inside.
    fn push_opened(&self, list: &mut Vec<Standing>, opening: Opening) -> Result<(), AllocError>
        ensures { OnOk result (list.new.items ≡ list.old.items
            ++ (spec.standings_from opening.behind.first opening.behind.count opening.place
            ++ (spec.begun self.now.rows.now self.now.written.now self.now.arounds.now opening.body
            ++ spec.tested self.now.rows.now self.now.written.now self.now.arounds.now opening.body))) }
    {
        push_all(list, opening.behind, opening.place)?;
        self.push_begun(list, opening.body)?;
        self.push_tested(list, opening.body)
    }

    /// What a slot of a row asks for.
    pub(crate) fn push_slot_asked(
        &self,
        list: &mut Vec<Standing>,
        row: RowId,
        slot: Slot,
    ) -> Result<(), AllocError>
        ensures { OnOk result (list.new.items ≡ list.old.items ++ spec.slot_asked self.now.rows.now self.now.written.now self.now.arounds.now row slot) }
    {
        match slot.question {
            Some(question) => {
                let place = row_place(self.written, question, around_at(self.arounds, row));
                push(list, question as usize, place)
            }
            None => Ok(()),
        }
    }

    /// What the slots of a row ask for.
    pub(crate) fn push_slots_asked(
        &self,
        list: &mut Vec<Standing>,
        id: RowId,
        row: &Row,
    ) -> Result<(), AllocError>
        requires { slice_get self.now.rows.now id ≡ Some row.now }
        ensures { OnOk result (list.new.items ≡ list.old.items ++ spec.slots_asked self.now.rows.now self.now.written.now self.now.arounds.now id) }
    {
        for slot in slots_of(row) {
            self.push_slot_asked(list, id, *slot)?;
        }
        Ok(())
    }

    /// Adds the statements that a component begins with at a row.
    pub(crate) fn push_standings(
        &self,
        list: &mut Vec<Standing>,
        id: RowId,
        row: &Row,
    ) -> Result<(), AllocError>
        requires within { id < length self.now.rows.now }
        requires row { slice_get self.now.rows.now id ≡ Some row.now }
        ensures { OnOk result (list.new.items ≡ list.old.items ++ spec.standings self.now.rows.now self.now.written.now self.now.arounds.now id) }
    {
        match opening_of(self.rows.len(), self.arounds, id, row) {
            Some(opening) => self.push_opened(list, opening),
            None => self.push_own(list, id),
        }
    }
}
