// The reading of an infoset, element by element in schema order.
ghost use Rattle.std.specs.Prelude.{◌≡◌, ◌<◌, ◌+◌, ◌++◌, ◌∷◌, [], None, Some, IfOk, OnOk, drop, fold, if◌then◌else◌, suc};
ghost use Rattle.std.specs.BTreeSet.{contains};
ghost use Rattle.std.specs.Cmp.Lexicographic.{slice_cmp};
ghost use Rattle.std.specs.Ordering.{nat_cmp};
ghost use Rattle.serde_json.specs.View.{view, items_view, members_view};
ghost use Rattle.dfdl_terms.specs.Arrays.{is_marked};
ghost use Rattle.dfdl_terms.specs.Rows.{Table};
ghost use Rattle.dfdl_terms.specs.declared.event.Event.TheVariants.{Start, Simple as SimpleElement, End};
ghost use Rattle.dfdl_report.specs.declared.cause.InfosetCause.TheVariants.{ArrayExpected};
ghost use Rattle.dfdl_json.specs.declared.reading.Task.TheVariants.{Read, Item, Array};
ghost use Rattle.dfdl_json.specs.Children as children;
ghost use Rattle.dfdl_json.specs.Found.{noted};
ghost use Rattle.dfdl_json.specs.Infosets.{Says, array_findings, findings, complex_findings, children_findings, items_findings, unknown_findings, simple_findings, refused, value_in};
ghost use Rattle.dfdl_json.specs.Members.{members_in};
ghost use Rattle.dfdl_json.specs.Paths.{Names, step_to};
ghost use Rattle.dfdl_json.specs.Reading.{AreMarks, HasNames, all_found, coming, data_at, steps_left};
ghost use Rattle.dfdl_json.specs.ReadingSteps.{array_cost, children_cost, complex_cost, cost, items_cost};

use crate::children::{name_of, row_at};
use crate::found::Found;
use crate::marks::Marks;
use crate::members::{are_known, is_nil, member_of, read_member};
use crate::named::NamedElements;
use crate::path::OpenElements;
use dfdl_report::InfosetCause;
use dfdl_terms::{Event, Items, Row, RowId, Terms};
use dfdl_value::{Simple, Value};
use serde_json::{Map, Value as Json};
use std::alloc::{AllocError, Global};
use std::collections::VecDeque;

// What is to be done next: the element of this row is read, or an item of its array at a place counted from 1, or the array of
// its items, or the innermost open element ends.
#[derive(Clone, Copy, Drop)]
pub(crate) enum Task {
    Read(RowId),
    Item(RowId, usize),
    Array(RowId),
    Close,
}

// What is left to be read, with the content of each element that is, the elements around it, and what was found so far.
#[derive(Drop)]
pub(crate) struct Reading<'t, 'v> {
    tasks: VecDeque<Task>,
    contents: VecDeque<&'v Json>,
    around: OpenElements<'t>,
    found: Found,
}

impl<'t, 'v> Reading<'t, 'v> {
    // The reading of the root element, whose row this is.
    pub(crate) fn new(
        alloc: Global,
        row: RowId,
        content: &'v Json,
    ) -> Result<Reading<'t, 'v>, AllocError>
        ensures { IfOk result (λ reading. (t : Table) → all_found t reading
            ≡ fold noted (record { events = []; refused = None }) (findings t row None (view content.now) [] ++ [])) }
    {
        let mut tasks = VecDeque::new(alloc);
        tasks.push_front(Task::Read(row))?;
        let mut contents = VecDeque::new(alloc);
        contents.push_front(content)?;
        Ok(Reading {
            tasks,
            contents,
            around: OpenElements::new(alloc),
            found: Found::new(alloc),
        })
    }

    // Reads all that is left.
    pub(crate) fn run(
        &mut self,
        alloc: Global,
        terms: &'t Terms,
        marks: &Marks,
    ) -> Result<(), AllocError>
        requires { AreMarks terms.now marks.now }
        ensures { OnOk result (self.new.found ≡ all_found terms.now self.old) }
    {
        while let Some(task) = self.tasks.pop_front() {
            self.perform(alloc, terms, marks, task)?;
        }
        Ok(())
    }

    // What was found.
    pub(crate) fn found(self) -> Found
        ensures { result ≡ self.entry.found }
    {
        self.found
    }

    // Does a task that stood before the others, or puts others in its place.
    fn perform(
        &mut self,
        alloc: Global,
        terms: &'t Terms,
        marks: &Marks,
        task: Task,
    ) -> Result<(), AllocError>
        requires { AreMarks terms.now marks.now }
        ensures same { OnOk result (all_found terms.now self.new
            ≡ fold noted self.old.found (coming terms.now (task ∷ self.old.tasks.items) (data_at self.old.contents.items) self.old.around)) }
        ensures less { OnOk result (steps_left terms.now self.new.tasks.items (data_at self.new.contents.items)
            < steps_left terms.now (task ∷ self.old.tasks.items) (data_at self.old.contents.items)) }
    {
        match task {
            Task::Read(row) => self.read(alloc, terms, marks, row),
            Task::Item(row, place) => self.read_item(alloc, terms, marks, row, place),
            Task::Array(row) => self.read_array(alloc, terms, row),
            Task::Close => self.close(),
        }
    }

    // The innermost open element ends.
    fn close(&mut self) -> Result<(), AllocError>
        ensures tasks { OnOk result (self.new.tasks.items ≡ self.old.tasks.items) }
        ensures contents { OnOk result (self.new.contents.items ≡ self.old.contents.items) }
        ensures names { OnOk result (self.new.around ≡ drop 1 self.old.around) }
        ensures found { OnOk result (self.new.found ≡ noted self.old.found (Says End)) }
    {
        self.around.pop();
        self.found.say(Event::End)
    }

    // Reads the element of this row, whose content is the next one.
    fn read(
        &mut self,
        alloc: Global,
        terms: &'t Terms,
        marks: &Marks,
        row: RowId,
    ) -> Result<(), AllocError>
        requires { AreMarks terms.now marks.now }
        ensures same { OnOk result (all_found terms.now self.new
            ≡ fold noted self.old.found (coming terms.now (Read row ∷ self.old.tasks.items) (data_at self.old.contents.items) self.old.around)) }
        ensures less { OnOk result (steps_left terms.now self.new.tasks.items (data_at self.new.contents.items)
            < steps_left terms.now (Read row ∷ self.old.tasks.items) (data_at self.old.contents.items)) }
    {
        match self.contents.pop_front() {
            Some(content) => self.read_content(alloc, terms, marks, row, None, content),
            None => Ok(()),
        }
    }

    // Reads the item at this place of the array of the element of this row, whose content is the next one.
    fn read_item(
        &mut self,
        alloc: Global,
        terms: &'t Terms,
        marks: &Marks,
        row: RowId,
        place: usize,
    ) -> Result<(), AllocError>
        requires { AreMarks terms.now marks.now }
        ensures same { OnOk result (all_found terms.now self.new
            ≡ fold noted self.old.found (coming terms.now (Item row place ∷ self.old.tasks.items) (data_at self.old.contents.items) self.old.around)) }
        ensures less { OnOk result (steps_left terms.now self.new.tasks.items (data_at self.new.contents.items)
            < steps_left terms.now (Item row place ∷ self.old.tasks.items) (data_at self.old.contents.items)) }
    {
        match self.contents.pop_front() {
            Some(content) => self.read_content(alloc, terms, marks, row, Some(place), content),
            None => Ok(()),
        }
    }

    // Reads the array of the element of this row, whose content is the next one.
    fn read_array(&mut self, alloc: Global, terms: &'t Terms, row: RowId) -> Result<(), AllocError>
        ensures same { OnOk result (all_found terms.now self.new
            ≡ fold noted self.old.found (coming terms.now (Array row ∷ self.old.tasks.items) (data_at self.old.contents.items) self.old.around)) }
        ensures less { OnOk result (steps_left terms.now self.new.tasks.items (data_at self.new.contents.items)
            < steps_left terms.now (Array row ∷ self.old.tasks.items) (data_at self.old.contents.items)) }
    {
        match self.contents.pop_front() {
            Some(content) => self.read_items(alloc, row, name_of(terms, row), content),
            None => Ok(()),
        }
    }

    // Reads this content of the array of the element of this row, which has this name.
    fn read_items(
        &mut self,
        alloc: Global,
        row: RowId,
        name: &'t str,
        content: &'v Json,
    ) -> Result<(), AllocError>
        ensures same { OnOk result ((t : Table) → all_found t self.new
            ≡ fold noted self.old.found (array_findings (findings t row) name.now self.old.around (view content.now)
            ++ coming t self.old.tasks.items (data_at self.old.contents.items) self.old.around)) }
        ensures less { OnOk result ((t : Table) → steps_left t self.new.tasks.items (data_at self.new.contents.items)
            < array_cost (cost t row) (view content.now) + steps_left t self.old.tasks.items (data_at self.old.contents.items)) }
    {
        match content {
            Json::Array(items) => self.push_items(row, items.as_slice()),
            _ => self.refuse_array(alloc, name),
        }
    }

    // Puts the items of an array before the other tasks.
    fn push_items(&mut self, row: RowId, items: &'v [Json]) -> Result<(), AllocError>
        ensures names { OnOk result (self.new.around ≡ self.old.around) }
        ensures found { OnOk result (self.new.found ≡ self.old.found) }
        ensures coming { OnOk result ((t : Table) (names : Names) → coming t self.new.tasks.items (data_at self.new.contents.items) names
            ≡ items_findings (findings t row) names 1 (items_view items.now)
            ++ coming t self.old.tasks.items (data_at self.old.contents.items) names) }
        ensures steps { OnOk result ((t : Table) → steps_left t self.new.tasks.items (data_at self.new.contents.items)
            ≡ items_cost (cost t row) (items_view items.now) + steps_left t self.old.tasks.items (data_at self.old.contents.items)) }
    {
        for at in (0..items.len()).rev() {
            self.tasks.push_front(Task::Item(row, at + 1))?;
            self.contents.push_front(&items[at])?;
        }
        Ok(())
    }

    // The element of this name is refused, which is no array.
    fn refuse_array(&mut self, alloc: Global, name: &'t str) -> Result<(), AllocError>
        ensures tasks { OnOk result (self.new.tasks.items ≡ self.old.tasks.items) }
        ensures contents { OnOk result (self.new.contents.items ≡ self.old.contents.items) }
        ensures names { OnOk result (self.new.around ≡ self.old.around) }
        ensures found { OnOk result (self.new.found ≡ noted self.old.found (refused ArrayExpected (name.now ∷ self.old.around))) }
    {
        self.around.push(name)?;
        self.end_refused(alloc, InfosetCause::ArrayExpected)
    }

    // Reads this content of an occurrence of the element of this row, which has this place in its array, if it is an item.
    fn read_content(
        &mut self,
        alloc: Global,
        terms: &'t Terms,
        marks: &Marks,
        row: RowId,
        place: Option<usize>,
        content: &'v Json,
    ) -> Result<(), AllocError>
        requires { AreMarks terms.now marks.now }
        ensures same { OnOk result (all_found terms.now self.new
            ≡ fold noted self.old.found (findings terms.now row place (view content.now) self.old.around
            ++ coming terms.now self.old.tasks.items (data_at self.old.contents.items) self.old.around)) }
        ensures less { OnOk result (steps_left terms.now self.new.tasks.items (data_at self.new.contents.items)
            < suc (cost terms.now row (view content.now)) + steps_left terms.now self.old.tasks.items (data_at self.old.contents.items)) }
    {
        match row_at(terms, row) {
            Some(
                Row::Elem {
                    name,
                    simple,
                    tried,
                    body,
                    ..
                },
            ) => {
                if is_nil(tried.nil, content) {
                    self.found.say(Event::Nil { elem: row })
                } else {
                    match simple {
                        Some(kind) => {
                            self.read_simple(alloc, row, place, name.as_str(), *kind, content)
                        }
                        None => self.read_complex(
                            alloc,
                            terms,
                            marks,
                            row,
                            place,
                            name.as_str(),
                            *body,
                            content,
                        ),
                    }
                }
            }
            Some(Row::Leaf { .. }) => Ok(()),
            Some(Row::Group { .. }) => Ok(()),
            Some(Row::Skip { .. }) => Ok(()),
            Some(Row::Align { .. }) => Ok(()),
            Some(Row::Initiator { .. }) => Ok(()),
            Some(Row::Terminator { .. }) => Ok(()),
            Some(Row::Separator) => Ok(()),
            Some(Row::Scope { .. }) => Ok(()),
            Some(Row::Boxed { .. }) => Ok(()),
            Some(Row::PrefixedLeaf { .. }) => Ok(()),
            Some(Row::PrefixedBox { .. }) => Ok(()),
            Some(Row::MeasuredLeaf { .. }) => Ok(()),
            Some(Row::MeasuredBox { .. }) => Ok(()),
            Some(Row::Repeat { .. }) => Ok(()),
            Some(Row::Counted { .. }) => Ok(()),
            Some(Row::Optional { .. }) => Ok(()),
            Some(Row::Choice { .. }) => Ok(()),
            Some(Row::Dispatch { .. }) => Ok(()),
            Some(Row::Statement { .. }) => Ok(()),
            Some(Row::Concluded { .. }) => Ok(()),
            Some(Row::Hidden { .. }) => Ok(()),
            Some(Row::Spanned { .. }) => Ok(()),
            Some(Row::Instance { .. }) => Ok(()),
            Some(Row::Separated { .. }) => Ok(()),
            None => Ok(()),
        }
    }

    // Reads a simple element.
    fn read_simple(
        &mut self,
        alloc: Global,
        row: RowId,
        place: Option<usize>,
        name: &'t str,
        kind: Simple,
        content: &Json,
    ) -> Result<(), AllocError>
        ensures tasks { OnOk result (self.new.tasks.items ≡ self.old.tasks.items) }
        ensures contents { OnOk result (self.new.contents.items ≡ self.old.contents.items) }
        ensures names { OnOk result (self.new.around ≡ self.old.around) }
        ensures found { OnOk result (self.new.found ≡ fold noted self.old.found
            (simple_findings row (step_to name.now place ∷ self.old.around) (value_in kind (view content.now)))) }
    {
        self.around.push_step(name, place)?;
        match read_member(alloc, kind, content)? {
            Ok(value) => self.end_simple(row, value),
            Err(cause) => self.end_refused(alloc, cause),
        }
    }

    // The innermost open element has this value, and ends.
    fn end_simple(&mut self, row: RowId, value: Value) -> Result<(), AllocError>
        ensures tasks { OnOk result (self.new.tasks.items ≡ self.old.tasks.items) }
        ensures contents { OnOk result (self.new.contents.items ≡ self.old.contents.items) }
        ensures names { OnOk result (self.new.around ≡ drop 1 self.old.around) }
        ensures found { OnOk result (self.new.found ≡ noted self.old.found (Says (SimpleElement row value))) }
    {
        self.around.pop();
        self.found.say(Event::Simple { elem: row, value })
    }

    // The innermost open element is refused, and ends.
    fn end_refused(&mut self, alloc: Global, cause: InfosetCause) -> Result<(), AllocError>
        ensures tasks { OnOk result (self.new.tasks.items ≡ self.old.tasks.items) }
        ensures contents { OnOk result (self.new.contents.items ≡ self.old.contents.items) }
        ensures names { OnOk result (self.new.around ≡ drop 1 self.old.around) }
        ensures found { OnOk result (self.new.found ≡ noted self.old.found (refused cause self.old.around)) }
    {
        let level = self.around.depth().saturating_sub(1);
        self.found.refuse(alloc, level, cause, &self.around)?;
        self.around.pop();
        Ok(())
    }

    // Reads a complex element.
    fn read_complex(
        &mut self,
        alloc: Global,
        terms: &'t Terms,
        marks: &Marks,
        row: RowId,
        place: Option<usize>,
        name: &'t str,
        body: RowId,
        content: &'v Json,
    ) -> Result<(), AllocError>
        requires { AreMarks terms.now marks.now }
        ensures same { OnOk result (all_found terms.now self.new
            ≡ fold noted self.old.found (complex_findings terms.now (findings terms.now) row
            (members_in terms.now body) (step_to name.now place ∷ self.old.around) (view content.now)
            ++ coming terms.now self.old.tasks.items (data_at self.old.contents.items) self.old.around)) }
        ensures less { OnOk result (steps_left terms.now self.new.tasks.items (data_at self.new.contents.items)
            < suc (complex_cost terms.now (cost terms.now) (members_in terms.now body) (view content.now))
            + steps_left terms.now self.old.tasks.items (data_at self.old.contents.items)) }
    {
        self.around.push_step(name, place)?;
        match content {
            Json::Object(members) => self.begin(alloc, terms, marks, row, body, members),
            Json::Null => self.end_refused(alloc, InfosetCause::NullNotAllowed),
            _ => self.end_refused(alloc, InfosetCause::ObjectExpected),
        }
    }

    // The innermost open element begins, and its members are read next.
    fn begin(
        &mut self,
        alloc: Global,
        terms: &Terms,
        marks: &Marks,
        row: RowId,
        body: RowId,
        members: &'v Map<String, Json>,
    ) -> Result<(), AllocError>
        requires { AreMarks terms.now marks.now }
        ensures names { OnOk result (self.new.around ≡ self.old.around) }
        ensures found { OnOk result (self.new.found ≡ fold noted self.old.found (Says (Start row)
            ∷ unknown_findings terms.now (members_in terms.now body) self.old.around (members_view members.now.entries))) }
        ensures coming { OnOk result ((names : Names) → coming terms.now self.new.tasks.items (data_at self.new.contents.items) names
            ≡ children_findings terms.now (findings terms.now) (members_in terms.now body) names (members_view members.now.entries)
            ++ Says End ∷ coming terms.now self.old.tasks.items (data_at self.old.contents.items) (drop 1 names)) }
        ensures steps { OnOk result (steps_left terms.now self.new.tasks.items (data_at self.new.contents.items)
            ≡ suc (children_cost terms.now (cost terms.now) (members_in terms.now body) (members_view members.now.entries)
            + steps_left terms.now self.old.tasks.items (data_at self.old.contents.items))) }
    {
        self.found.say(Event::Start { elem: row })?;
        let named = NamedElements::of(alloc, terms, &marks.hidden, body)?;
        self.check_known(alloc, terms, &named, members)?;
        self.tasks.push_front(Task::Close)?;
        self.push_members(terms, marks, &named.rows, members)
    }

    // The innermost open element is refused where a member has the name of none of these elements.
    fn check_known(
        &mut self,
        alloc: Global,
        terms: &Terms,
        named: &NamedElements<'_>,
        members: &Map<String, Json>,
    ) -> Result<(), AllocError>
        requires { HasNames (contains (λ x y. slice_cmp nat_cmp x.now y.now) named.now.names) terms.now named.now.rows.items }
        ensures tasks { OnOk result (self.new.tasks.items ≡ self.old.tasks.items) }
        ensures contents { OnOk result (self.new.contents.items ≡ self.old.contents.items) }
        ensures names { OnOk result (self.new.around ≡ self.old.around) }
        ensures found { OnOk result (self.new.found ≡ fold noted self.old.found
            (unknown_findings terms.now named.now.rows.items self.old.around (members_view members.now.entries))) }
    {
        if are_known(members, &named.names) {
            return Ok(());
        }
        let level = self.around.depth();
        self.found
            .refuse(alloc, level, InfosetCause::UnknownMember, &self.around)
    }

    // Puts those of these elements that have a member before the other tasks.
    fn push_members(
        &mut self,
        terms: &Terms,
        marks: &Marks,
        elements: &[RowId],
        members: &'v Map<String, Json>,
    ) -> Result<(), AllocError>
        requires { AreMarks terms.now marks.now }
        ensures names { OnOk result (self.new.around ≡ self.old.around) }
        ensures found { OnOk result (self.new.found ≡ self.old.found) }
        ensures coming { OnOk result ((names : Names) → coming terms.now self.new.tasks.items (data_at self.new.contents.items) names
            ≡ children_findings terms.now (findings terms.now) elements.now names (members_view members.now.entries)
            ++ coming terms.now self.old.tasks.items (data_at self.old.contents.items) names) }
        ensures steps { OnOk result (steps_left terms.now self.new.tasks.items (data_at self.new.contents.items)
            ≡ children_cost terms.now (cost terms.now) elements.now (members_view members.now.entries)
            + steps_left terms.now self.old.tasks.items (data_at self.old.contents.items)) }
    {
        for at in (0..elements.len()).rev() {
            let row = elements[at];
            if let Some(content) = member_of(members, name_of(terms, row)) {
                self.tasks.push_front(reading_of(&marks.items, row))?;
                self.contents.push_front(content)?;
            }
        }
        Ok(())
    }
}

// How the member of the element of this row is read, where these rows are those of items.
fn reading_of(items: &Items, row: RowId) -> Task
    ensures { result ≡ if is_marked items.now row then Array row else Read row }
{
    if items.has(row) {
        Task::Array(row)
    } else {
        Task::Read(row)
    }
}
