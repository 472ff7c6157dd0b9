// Rows that ask an expression before they begin: how long a content is, how many times a row stands there, and to which row a key leads.
ghost use Rattle.std.specs.Prelude.{◌≡◌, false, IfOk, OnOk};
ghost use Rattle.dfdl_bits.specs.Window.{Held};
ghost use Rattle.dfdl_terms.specs.Arrays.{item_marks};
ghost use Rattle.dfdl_looks.specs.Tallies.{nothing, one_row};
ghost use Rattle.dfdl_grammar.specs.Questions.{question_at, question_of, row_by};
ghost use Rattle.dfdl_paths.specs.declared.place.Start.TheVariants as starts;
ghost use Rattle.dfdl_report.specs.declared.cause.ParseCause.TheVariants as causes;
ghost use Rattle.dfdl_parse.specs.Asking.{begins, behind_question, count_told, counted_begins, dispatch_begins, given_by, if_told, key_told, measured_begins, row_begins, row_told, times_begin, told, variables_behind};
ghost use Rattle.dfdl_parse.specs.Prefixed.{behind_units};
ghost use Rattle.dfdl_parse.specs.Steps.{Moved};
ghost use Rattle.dfdl_parse.specs.Shown.{Becomes, HasSameLimits, state_of};

use crate::frame::{Behind, Focus, Frame};
use crate::parser::Parser;
use dfdl_expression_eval::Evaluated;
use dfdl_grammar::End;
use dfdl_paths::Start;
use dfdl_report::ParseCause;
use dfdl_surroundings::{take_count, take_text};
use dfdl_terms::{Key, LengthUnit, Measure, RowId, Statement, Terms};
use dfdl_value::TextValue;
use std::alloc::{AllocError, Global};

impl Parser {
    // A content whose length the open element's question tells begins.
    pub(crate) fn begin_measured(
        &mut self,
        terms: &Terms,
        measure: Measure,
        behind: Behind,
    ) -> Result<(), AllocError>
        requires items { self.old.items ≡ item_marks terms.now.rows }
        ensures moved { (held : Held) → OnOk result (Moved
            (begins one_row held (measured_begins terms.now measure behind self.old.stack (state_of self.old))) false self.old.far self.new held 0) }
        ensures most { OnOk result (HasSameLimits self.old self.new) }
        ensures at { OnOk result (self.new.at ≡ self.old.at) }
    {
        let given = self.ask(terms, measure.question, Start::At(self.inside))?;
        let units = count_told(self.scratch.alloc, given);
        self.measure_by(terms, units, measure.unit, behind)?;
        Ok(())
    }

    // A row begins that stands so many times as a question tells.
    pub(crate) fn begin_counted(
        &mut self,
        terms: &Terms,
        question: u32,
        body: RowId,
    ) -> Result<(), AllocError>
        requires items { self.old.items ≡ item_marks terms.now.rows }
        ensures moved { (held : Held) → OnOk result (Moved
            (begins one_row held (counted_begins terms.now question body self.old.stack (state_of self.old))) false self.old.far self.new held 0) }
        ensures most { OnOk result (HasSameLimits self.old self.new) }
        ensures at { OnOk result (self.new.at ≡ self.old.at) }
    {
        let given = self.ask(terms, question, Start::Inside(self.inside))?;
        let count = count_told(self.scratch.alloc, given);
        self.repeat_by(count, body)?;
        Ok(())
    }

    // A choice begins whose branch a key tells.
    pub(crate) fn begin_dispatch(
        &mut self,
        terms: &Terms,
        question: u32,
        keys: &[Key],
    ) -> Result<(), AllocError>
        requires items { self.old.items ≡ item_marks terms.now.rows }
        ensures moved { (held : Held) → OnOk result (Moved
            (begins one_row held (dispatch_begins terms.now question keys.now self.old.stack (state_of self.old))) false self.old.far self.new held 0) }
        ensures most { OnOk result (HasSameLimits self.old self.new) }
        ensures at { OnOk result (self.new.at ≡ self.old.at) }
    {
        let given = self.ask(terms, question, Start::Inside(self.inside))?;
        let row = key_told(self.scratch.alloc, keys, given)?;
        self.dispatch_by(row);
        Ok(())
    }

    // What the expression of the question of this number gives, which begins there, if it is one. The variables that it asks for are read.
    pub(crate) fn ask(
        &mut self,
        terms: &Terms,
        question: u32,
        start: Start,
    ) -> Result<Option<Evaluated>, AllocError>
        requires items { self.old.items ≡ item_marks terms.now.rows }
        ensures given { IfOk result (λ g. g ≡ given_by terms.now start (question_at terms.now question) (state_of self.old)) }
        ensures reads { OnOk result (state_of self.new ≡ behind_question terms.now start question (state_of self.old)) }
        ensures same { self.new ≡ record self.old { variables = self.new.variables; evaluation = self.new.evaluation } }
    {
        match terms.tables().statements().get(question as usize) {
            None => Ok(None),
            Some(statement) => {
                let given = self.ask_by(terms, statement, start)?;
                Ok(given)
            }
        }
    }

    // What the expression of a statement gives that is a question.
    fn ask_by(
        &mut self,
        terms: &Terms,
        statement: &Statement,
        start: Start,
    ) -> Result<Option<Evaluated>, AllocError>
        requires items { self.old.items ≡ item_marks terms.now.rows }
        ensures given { IfOk result (λ g. g ≡ given_by terms.now start (question_of (Some statement.now)) (state_of self.old)) }
        ensures reads { OnOk result (state_of self.new
            ≡ record (state_of self.old) { variables = variables_behind terms.now start (question_of (Some statement.now)) (state_of self.old) }) }
        ensures same { self.new ≡ record self.old { variables = self.new.variables; evaluation = self.new.evaluation } }
    {
        match statement {
            Statement::Pattern(_) => Ok(None),
            Statement::Expression(_) => Ok(None),
            Statement::Setting(_) => Ok(None),
            Statement::Calculation(_) => Ok(None),
            Statement::Question(question) => {
                let value = self.evaluate(terms, &question.expression, start)?;
                Ok(Some(value))
            }
            Statement::Opening(_) => Ok(None),
        }
    }

    // A content begins whose length is so many units, or fails for a reason.
    fn measure_by(
        &mut self,
        terms: &Terms,
        units: Result<Option<u128>, u8>,
        unit: LengthUnit,
        behind: Behind,
    ) -> Result<(), AllocError>
        ensures becomes { OnOk result (Becomes self.old
            (told causes.LengthOutOfRange (behind_units terms.now.primitives unit behind) units self.old.stack (state_of self.old)) self.new) }
        ensures at { OnOk result (self.new.at ≡ self.old.at) }
    {
        match units {
            Ok(units) => {
                self.measure_units(terms, units, unit, behind)?;
                Ok(())
            }
            Err(fault) => {
                self.fail(ParseCause::ExpressionFault { fault });
                Ok(())
            }
        }
    }

    // A content begins whose length is so many units, if it is not less than none.
    fn measure_units(
        &mut self,
        terms: &Terms,
        units: Option<u128>,
        unit: LengthUnit,
        behind: Behind,
    ) -> Result<(), AllocError>
        ensures becomes { OnOk result (Becomes self.old
            (if_told causes.LengthOutOfRange (behind_units terms.now.primitives unit behind) units self.old.stack (state_of self.old)) self.new) }
        ensures at { OnOk result (self.new.at ≡ self.old.at) }
    {
        match units {
            Some(count) => {
                self.begin_behind(terms, count, unit, behind)?;
                Ok(())
            }
            None => {
                self.fail(ParseCause::LengthOutOfRange);
                Ok(())
            }
        }
    }

    // A row stands so many times, or fails for a reason.
    fn repeat_by(&mut self, count: Result<Option<u128>, u8>, body: RowId) -> Result<(), AllocError>
        ensures becomes { OnOk result (Becomes self.old (told causes.NegativeCount (times_begin body) count self.old.stack (state_of self.old)) self.new) }
        ensures at { OnOk result (self.new.at ≡ self.old.at) }
    {
        match count {
            Ok(count) => {
                self.repeat_count(count, body)?;
                Ok(())
            }
            Err(fault) => {
                self.fail(ParseCause::ExpressionFault { fault });
                Ok(())
            }
        }
    }

    // A row stands so many times, if it is not less than none.
    fn repeat_count(&mut self, count: Option<u128>, body: RowId) -> Result<(), AllocError>
        ensures becomes { OnOk result (Becomes self.old (if_told causes.NegativeCount (times_begin body) count self.old.stack (state_of self.old)) self.new) }
        ensures at { OnOk result (self.new.at ≡ self.old.at) }
    {
        match count {
            Some(count) => {
                self.repeat(body, count)?;
                Ok(())
            }
            None => {
                self.fail(ParseCause::NegativeCount);
                Ok(())
            }
        }
    }

    // A row stands so many times more.
    fn repeat(&mut self, body: RowId, left: u128) -> Result<(), AllocError>
        ensures becomes { OnOk result (Becomes self.old (times_begin body left self.old.stack (state_of self.old)) self.new) }
        ensures at { OnOk result (self.new.at ≡ self.old.at) }
    {
        if left == 0 {
            self.focus = Focus::Leave(End::Done);
        } else {
            self.stack.push(Frame::Times {
                body,
                left: left - 1,
            })?;
            self.focus = Focus::Enter(body);
        }
        Ok(())
    }

    // One of the times is done that a row stands, and so many more follow.
    pub(crate) fn next_time(&mut self, body: RowId, left: u128) -> Result<(), AllocError>
        ensures moved { (held : Held) → OnOk result (Moved
            (begins nothing held (times_begin body left self.old.stack (state_of self.old))) false self.old.far self.new held 0) }
        ensures most { OnOk result (HasSameLimits self.old self.new) }
        ensures at { OnOk result (self.new.at ≡ self.old.at) }
    {
        self.repeat(body, left)?;
        Ok(())
    }

    // The branch of a choice begins to which its key leads, or it fails for a reason.
    fn dispatch_by(&mut self, row: Result<Option<RowId>, u8>)
        ensures becomes { Becomes self.old (told causes.NoDispatchBranch row_begins row self.old.stack (state_of self.old)) self.new }
        ensures at { self.new.at ≡ self.old.at }
    {
        match row {
            Ok(row) => self.dispatch(row),
            Err(fault) => self.fail(ParseCause::ExpressionFault { fault }),
        }
    }

    // The branch of a choice begins to which its key leads, if there is one.
    fn dispatch(&mut self, row: Option<RowId>)
        ensures becomes { Becomes self.old (if_told causes.NoDispatchBranch row_begins row self.old.stack (state_of self.old)) self.new }
        ensures at { self.new.at ≡ self.old.at }
    {
        match row {
            Some(id) => {
                self.focus = Focus::Enter(id);
            }
            None => self.fail(ParseCause::NoDispatchBranch),
        }
    }
}

/// How many a question tells by what its expression gives.
pub(crate) fn count_told(alloc: Global, given: Option<Evaluated>) -> Result<Option<u128>, u8>
    ensures { result ≡ count_told given }
{
    match given {
        None => Ok(None),
        Some(value) => take_count(alloc, value),
    }
}

// The row to which a question leads by what its expression gives.
fn key_told(
    alloc: Global,
    keys: &[Key],
    given: Option<Evaluated>,
) -> Result<Result<Option<RowId>, u8>, AllocError>
    ensures { IfOk result (λ row. row ≡ key_told keys.now given) }
{
    match given {
        None => Ok(Ok(None)),
        Some(value) => {
            let text = take_text(alloc, value)?;
            Ok(row_told(keys, text))
        }
    }
}

// The row to which a text leads, if there is one.
fn row_told(keys: &[Key], text: Result<TextValue, u8>) -> Result<Option<RowId>, u8>
    ensures { result ≡ row_told keys.now text }
{
    match text {
        Ok(text) => Ok(row_by(keys, &text)),
        Err(fault) => Err(fault),
    }
}

// The row of the first key that is this text.
#[tactic(auto, unfolding(dfdl_grammar::specs::Questions::row_by))]
fn row_by(keys: &[Key], text: &TextValue) -> Option<RowId>
    ensures { result ≡ row_by keys.now text.now }
{
    for key in keys {
        if key.text == *text {
            return Some(key.body);
        }
    }
    None
}
