// Instances of variables that are open while a component is parsed.
ghost use Rattle.std.specs.Prelude.{◌≡◌, [], false, IfOk, OnOk, Some};
ghost use Rattle.dfdl_bits.specs.Window.{Held};
ghost use Rattle.dfdl_paths.specs.declared.place.Start.TheVariants as starts;
ghost use Rattle.dfdl_vars.specs.Kept.{opened};
ghost use Rattle.dfdl_terms.specs.Arrays.{item_marks};
ghost use Rattle.dfdl_looks.specs.Tallies.{nothing, one_row};
ghost use Rattle.dfdl_grammar.specs.Instances.{begun_with, instance_closed, opening_of, start_read, start_told};
ghost use Rattle.dfdl_grammar.specs.States.{instances_within, is_instance};
ghost use Rattle.dfdl_parse.specs.Asking.{begins};
ghost use Rattle.dfdl_parse.specs.Instances.{instance_begins, instanced_begins, opening_begins, start_begins};
ghost use Rattle.dfdl_parse.specs.Moves.{pass};
ghost use Rattle.dfdl_parse.specs.Steps.{Moved};
ghost use Rattle.dfdl_parse.specs.Shown.{Becomes, HasSameLimits, state_of};

use crate::frame::{Focus, Frame};
use crate::parser::Parser;
use dfdl_grammar::End;
use dfdl_paths::Start;
use dfdl_report::ParseCause;
use dfdl_surroundings::take;
use dfdl_terms::{Opening, Row, RowId, Statement, Terms};
use dfdl_value::Value;
use dfdl_vars::{VarValues, Vars};
use std::alloc::{AllocError, Global};

impl Parser {
    // A component begins, with the instance of a variable that the statement of this number opens for it.
    pub(crate) fn begin_instance(
        &mut self,
        terms: &Terms,
        number: u32,
        body: RowId,
    ) -> Result<(), AllocError>
        requires items { self.old.items ≡ item_marks terms.now.rows }
        ensures moved { (held : Held) → OnOk result (Moved
            (begins one_row held (instanced_begins terms.now number body self.old.stack (state_of self.old))) false self.old.far self.new held 0) }
        ensures most { OnOk result (HasSameLimits self.old self.new) }
        ensures at { OnOk result (self.new.at ≡ self.old.at) }
    {
        self.open_for(terms, number, body)?;
        Ok(())
    }

    // The same, if there is such a statement.
    fn open_for(&mut self, terms: &Terms, number: u32, body: RowId) -> Result<(), AllocError>
        requires items { self.old.items ≡ item_marks terms.now.rows }
        ensures becomes { OnOk result (Becomes self.old (instanced_begins terms.now number body self.old.stack (state_of self.old)) self.new) }
        ensures at { OnOk result (self.new.at ≡ self.old.at) }
    {
        match terms.tables().statements().get(number as usize) {
            None => {
                self.focus = Focus::Enter(body);
                Ok(())
            }
            Some(statement) => {
                self.open_by(terms, statement, body)?;
                Ok(())
            }
        }
    }

    // A component begins, with the instance of a variable that a statement opens for it, if it is one that does.
    fn open_by(
        &mut self,
        terms: &Terms,
        statement: &Statement,
        body: RowId,
    ) -> Result<(), AllocError>
        requires items { self.old.items ≡ item_marks terms.now.rows }
        ensures becomes { OnOk result (Becomes self.old
            (opening_begins terms.now (opening_of (Some statement.now)) body self.old.stack (state_of self.old)) self.new) }
        ensures at { OnOk result (self.new.at ≡ self.old.at) }
    {
        match statement {
            Statement::Pattern(_) => {
                self.focus = Focus::Enter(body);
                Ok(())
            }
            Statement::Expression(_) => {
                self.focus = Focus::Enter(body);
                Ok(())
            }
            Statement::Setting(_) => {
                self.focus = Focus::Enter(body);
                Ok(())
            }
            Statement::Calculation(_) => {
                self.focus = Focus::Enter(body);
                Ok(())
            }
            Statement::Question(_) => {
                self.focus = Focus::Enter(body);
                Ok(())
            }
            Statement::Opening(opening) => {
                self.open_here(terms, opening, body)?;
                Ok(())
            }
        }
    }

    // A component begins, with the instance of a variable that is opened for it.
    fn open_here(&mut self, terms: &Terms, opening: &Opening, body: RowId) -> Result<(), AllocError>
        requires items { self.old.items ≡ item_marks terms.now.rows }
        ensures becomes { OnOk result (Becomes self.old
            (opening_begins terms.now (Some opening.now) body self.old.stack (state_of self.old)) self.new) }
        ensures at { OnOk result (self.new.at ≡ self.old.at) }
    {
        let start = self.start_of(terms, opening)?;
        self.open_with(opening.variable, start, body)?;
        Ok(())
    }

    // What an instance begins with, or why it can't begin. The variables that its expression asks for are read.
    fn start_of(
        &mut self,
        terms: &Terms,
        opening: &Opening,
    ) -> Result<Result<Option<Value>, u8>, AllocError>
        requires items { self.old.items ≡ item_marks terms.now.rows }
        ensures told { IfOk result (λ told. told
            ≡ start_told terms.now (starts.Inside self.old.inside) opening.now.kind opening.now.start (state_of self.old)) }
        ensures reads { OnOk result (state_of self.new ≡ record (state_of self.old) {
          variables = start_read terms.now (starts.Inside self.old.inside) opening.now.start (state_of self.old);
        }) }
        ensures same { self.new ≡ record self.old { variables = self.new.variables; evaluation = self.new.evaluation } }
    {
        match &opening.start {
            None => Ok(Ok(None)),
            Some(expression) => {
                let value = self.evaluate(terms, expression, Start::Inside(self.inside))?;
                let taken = take(self.scratch.alloc, opening.kind, value);
                Ok(begun_with(taken))
            }
        }
    }

    // A component begins with an instance of the variable of this number, or fails for a reason.
    fn open_with(
        &mut self,
        number: u32,
        start: Result<Option<Value>, u8>,
        body: RowId,
    ) -> Result<(), AllocError>
        ensures becomes { OnOk result (Becomes self.old (start_begins number start body self.old.stack (state_of self.old)) self.new) }
        ensures at { OnOk result (self.new.at ≡ self.old.at) }
    {
        match start {
            Ok(start) => {
                self.enter_instance(number, start, body)?;
                Ok(())
            }
            Err(fault) => {
                self.fail(ParseCause::ExpressionFault { fault });
                Ok(())
            }
        }
    }

    // A component begins with an instance of the variable of this number, where there is one. There is room for as many as there are rows that
    // open one.
    fn enter_instance(
        &mut self,
        number: u32,
        start: Option<Value>,
        body: RowId,
    ) -> Result<(), AllocError>
        ensures becomes { OnOk result (Becomes self.old (instance_begins number start body self.old.stack (state_of self.old)) self.new) }
        ensures at { OnOk result (self.new.at ≡ self.old.at) }
    {
        if number as usize >= self.variables.count() {
            self.focus = Focus::Enter(body);
            return Ok(());
        }
        self.stack.push(Frame::Instance)?;
        match self.variables.enter(number, start) {
            Ok(()) => {
                self.focus = Focus::Enter(body);
                Ok(())
            }
            Err(_) => Err(AllocError),
        }
    }

    // A component has ended for which an instance was opened, which is closed.
    pub(crate) fn end_instance(&mut self, end: End)
        ensures moved { (held : Held) → Moved
            (pass nothing held (Focus.Leave end) self.old.stack (instance_closed (state_of self.old))) false self.old.far self.new held 0 }
        ensures most { HasSameLimits self.old self.new }
        ensures at { self.new.at ≡ self.old.at }
    {
        self.variables.leave_innermost();
        self.focus = Focus::Leave(end);
    }
}

// A value that an instance begins with, or why there is none.
fn begun_with(value: Result<Value, u8>) -> Result<Option<Value>, u8>
    ensures { result ≡ begun_with value }
{
    match value {
        Ok(value) => Ok(Some(value)),
        Err(fault) => Err(fault),
    }
}

/// The variables of a schema before its data are parsed, each with its default, and with room for the instances that its rows open.
pub(crate) fn variables_of(alloc: Global, terms: &Terms) -> Result<Vars, AllocError>
    ensures { IfOk result (λ variables. variables ≡ opened terms.now.variables [] (instances_within terms.now.rows)) }
{
    let deep = instances_within(terms);
    Vars::open(
        alloc,
        terms.tables().variables(),
        &VarValues::new(alloc),
        deep,
    )
}

// How many rows open an instance of a variable.
#[tactic(auto, unfolding(dfdl_grammar::specs::States::instances_within))]
fn instances_within(terms: &Terms) -> u32
    ensures { result ≡ instances_within terms.now.rows }
{
    let mut count: u32 = 0;
    for number in 0..terms.rows() {
        if is_instance(terms.row(RowId::new(number))) {
            count += 1;
        }
    }
    count
}

// Whether a row opens an instance of a variable.
fn is_instance(row: &Row) -> bool
    ensures { result ≡ is_instance row.now }
{
    match row {
        Row::Instance { .. } => true,
        _ => false,
    }
}
