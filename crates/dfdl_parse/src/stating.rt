// Statements that don't look at the data: tests of expressions, settings of variables, and calculated values.
ghost use Rattle.std.specs.Prelude.{◌≡◌, [], ◌+◌, ◌-◌, ◌*◌, ◌^◌, ◌<◌, ◌≤◌, IfOk, IfSome, IfNone, IsTrue, ◌↔◌, Some, Ok, false, OnOk, length, slice_get};
ghost use Rattle.dfdl_bits.specs.Window.{Held, end_of};
ghost use Rattle.dfdl_expression_eval.specs.Meanings.{meaning};
ghost use Rattle.dfdl_expression_eval.specs.Runs.{left_by};
ghost use Rattle.dfdl_paths.specs.declared.place.Start.TheVariants.{At, Inside};
ghost use Rattle.dfdl_surroundings.specs.Answers.{answer_in, read_in};
ghost use Rattle.dfdl_surroundings.specs.Taking.{taken, truth_taken};
ghost use Rattle.dfdl_region.specs.declared.node.Content.TheVariants as content;
ghost use Rattle.dfdl_value.specs.declared.value.Value.TheVariants as values;
ghost use Rattle.dfdl_terms.specs.Arrays.{item_marks};
ghost use Rattle.dfdl_terms.specs.declared.statement.Statement.TheVariants as variants;
ghost use Rattle.dfdl_looks.specs.Tallies.{Tally, nothing};
ghost use Rattle.dfdl_grammar.specs.declared.end.End.{End as AnyEnd};
ghost use Rattle.dfdl_grammar.specs.declared.end.End.TheVariants.{Done, Stopped};
ghost use Rattle.dfdl_grammar.specs.declared.end.Halt.TheVariants.{Variable};
ghost use Rattle.dfdl_grammar.specs.declared.limits.Limits.{Limits};
ghost use Rattle.dfdl_grammar.specs.Leaves.{hold};
ghost use Rattle.dfdl_grammar.specs.Spans.{vacant};
ghost use Rattle.dfdl_grammar.specs.Statements.{around_at, calculated, computed, evaluated, is_held, judged, reconsidered, reconsidered_from, set_by, set_to, start_of, stated, stated_from, told_at, variable_cause, with_reads};
ghost use Rattle.dfdl_surroundings.specs.Answers.{element_of};
ghost use Rattle.dfdl_parse.specs.Moves.{pass};
ghost use Rattle.dfdl_parse.specs.Opens.{IsHeld};
ghost use Rattle.dfdl_parse.specs.Stating.{conclude, is_done, is_well, make_statement, reconsider, with_behind};
ghost use Rattle.dfdl_parse.specs.Trials.{enter_element, parts_here};
ghost use Rattle.dfdl_parse.specs.Steps.{IsFree, Moved};
ghost use Rattle.dfdl_parse.specs.Shown.{Becomes, Comes, HasSameLimits, limits_of, state_of};

use crate::frame::{Focus, Frame};
use crate::parser::Parser;
use crate::trials::parts_here;
use dfdl_bits::{Steps, Window};
use dfdl_expression_eval::{Evaluated, Scratch as Evaluation};
use dfdl_expressions::Expression;
use dfdl_grammar::{End, Halt};
use dfdl_leaves::vacant;
use dfdl_paths::Start;
use dfdl_region::Content;
use dfdl_report::{ParseCause, VariableCause};
use dfdl_surroundings::{Document, evaluate, take, take_truth};
use dfdl_terms::{
    Calculation, ExpressionTest, Representations, RowId, Setting, Statement, Statements, Terms,
};
use dfdl_value::Value;
use dfdl_vars::VarFault;
use std::alloc::{AllocError, Global};
use std::sync::ledger::Ledger;

// How many nodes of an expression there is memory for at first.
const NODES: usize = 16;

impl Parser {
    // A statement begins: the one of this number, if there is one.
    pub(crate) fn begin_statement<L: Ledger>(
        &mut self,
        terms: &Terms,
        number: u32,
        sight: &mut Window,
        steps: &mut Steps<L>,
    ) -> Result<bool, AllocError>
        requires base { IsHeld sight.old.base self.old.at (state_of self.old) }
        requires at { self.old.at ≤ 8 * end_of sight.old }
        requires items { self.old.items ≡ item_marks terms.now.rows }
        ensures moved { IfOk result (λ waits. (cost : Tally) → IsFree cost → Moved
            (make_statement cost (limits_of self.old sight.old) terms.now self.old.focus sight.old number (slice_get terms.now.statements number) self.old.stack (state_of self.old))
            waits self.old.far self.new sight.new (steps.new - steps.old)) }
        ensures steps { steps.old ≤ steps.new }
        ensures most { OnOk result (HasSameLimits self.old self.new) }
        ensures at { OnOk result (self.new.at ≤ 8 * end_of sight.new) }
    {
        match terms.tables().statements().get(number as usize) {
            None => {
                self.focus = Focus::Leave(End::Done);
                Ok(false)
            }
            Some(statement) => {
                let waits = self.make_statement(terms, number, statement, sight, steps)?;
                Ok(waits)
            }
        }
    }

    // A statement of this number begins.
    fn make_statement<L: Ledger>(
        &mut self,
        terms: &Terms,
        number: u32,
        statement: &Statement,
        sight: &mut Window,
        steps: &mut Steps<L>,
    ) -> Result<bool, AllocError>
        requires base { IsHeld sight.old.base self.old.at (state_of self.old) }
        requires at { self.old.at ≤ 8 * end_of sight.old }
        requires items { self.old.items ≡ item_marks terms.now.rows }
        ensures moved { IfOk result (λ waits. (cost : Tally) → IsFree cost → Moved
            (make_statement cost (limits_of self.old sight.old) terms.now self.old.focus sight.old number (Some statement.now) self.old.stack (state_of self.old))
            waits self.old.far self.new sight.new (steps.new - steps.old)) }
        ensures steps { steps.old ≤ steps.new }
        ensures most { OnOk result (HasSameLimits self.old self.new) }
        ensures at { OnOk result (self.new.at ≤ 8 * end_of sight.new) }
    {
        match statement {
            Statement::Pattern(test) => {
                let waits = self.read_test(test, number, sight, steps)?;
                Ok(waits)
            }
            Statement::Expression(test) => {
                self.judge(terms, Start::Inside(self.inside), number, test)?;
                Ok(false)
            }
            Statement::Setting(setting) => {
                self.set(terms, Start::Inside(self.inside), setting)?;
                Ok(false)
            }
            Statement::Calculation(calculation) => {
                self.calculate(terms, Start::At(self.inside), calculation)?;
                Ok(false)
            }
            Statement::Question(_) => {
                self.focus = Focus::Leave(End::Done);
                Ok(false)
            }
            Statement::Opening(_) => {
                self.focus = Focus::Leave(End::Done);
                Ok(false)
            }
        }
    }

    // The value of an expression that begins there. The variables that it asks for are read.
    pub(crate) fn evaluate(
        &mut self,
        terms: &Terms,
        expression: &Expression,
        start: Start,
    ) -> Result<Evaluated, AllocError>
        requires items { self.old.items ≡ item_marks terms.now.rows }
        ensures value { IfOk result (λ e. e ≡ evaluated terms.now start expression.now (state_of self.old)) }
        ensures reads { OnOk result (state_of self.new ≡ with_reads terms.now start expression.now (state_of self.old)) }
        ensures same { self.new ≡ record self.old { variables = self.new.variables; evaluation = self.new.evaluation } }
    {
        let _count = self.region.count();
        let document = Document::new(
            terms.tables().names(),
            self.region.nodes(),
            self.text.all(),
            &self.items,
            start,
        );
        let value = evaluate(
            self.scratch.alloc,
            expression,
            &mut self.evaluation,
            document,
            &mut self.variables,
        );
        match value {
            Ok(value) => Ok(value),
            Err(_) => Err(AllocError),
        }
    }

    // A test of an expression of this number, which begins there: it holds, or doesn't, or has no truth for a reason.
    fn judge(
        &mut self,
        terms: &Terms,
        start: Start,
        number: u32,
        test: &ExpressionTest,
    ) -> Result<(), AllocError>
        requires items { self.old.items ≡ item_marks terms.now.rows }
        ensures { OnOk result (Comes self.old (judged test.now.discriminates number
            (truth_taken (evaluated terms.now start test.now.expression (state_of self.old))) (with_reads terms.now start test.now.expression (state_of self.old))) self.new) }
    {
        let value = self.evaluate(terms, &test.expression, start)?;
        self.judge_by(test.discriminates, number, take_truth(value));
        Ok(())
    }

    // A test of this number, by its truth, or why it has none.
    fn judge_by(&mut self, discriminates: bool, number: u32, truth: Result<bool, u8>)
        ensures { Comes self.old (judged discriminates number truth (state_of self.old)) self.new }
    {
        match truth {
            Ok(holds) => self.end_test(discriminates, number, holds),
            Err(fault) => self.fail(ParseCause::ExpressionFault { fault }),
        }
    }

    // A variable is set by an expression that begins there.
    fn set(&mut self, terms: &Terms, start: Start, setting: &Setting) -> Result<(), AllocError>
        requires items { self.old.items ≡ item_marks terms.now.rows }
        ensures { OnOk result (Comes self.old (set_to setting.now.variable
            (taken setting.now.kind (evaluated terms.now start setting.now.expression (state_of self.old)))
            (with_reads terms.now start setting.now.expression (state_of self.old))) self.new) }
    {
        let value = self.evaluate(terms, &setting.expression, start)?;
        let taken = take(self.scratch.alloc, setting.kind, value);
        self.set_by(setting.variable, taken);
        Ok(())
    }

    // The variable of a number gets a value, or fails for a reason.
    fn set_by(&mut self, number: u32, value: Result<Value, u8>)
        ensures { Comes self.old (set_to number value (state_of self.old)) self.new }
    {
        match value {
            Ok(value) => self.set_to(number, value),
            Err(fault) => self.fail(ParseCause::ExpressionFault { fault }),
        }
    }

    // The variable of a number gets a value, where there is one.
    fn set_to(&mut self, number: u32, value: Value)
        ensures { Comes self.old (set_to number (Ok value) (state_of self.old)) self.new }
    {
        if number as usize >= self.variables.count() {
            self.focus = Focus::Leave(End::Done);
            return;
        }
        match self.variables.set(number, value) {
            Ok(()) => {
                self.focus = Focus::Leave(End::Done);
            }
            Err(reason) => self.halt(variable_cause(reason)),
        }
    }

    // A variable can't be set here.
    fn halt(&mut self, cause: VariableCause)
        ensures { self.new ≡ record self.old { focus = Focus.Leave (Stopped (Variable cause) self.old.at) } }
    {
        self.focus = Focus::Leave(End::Stopped {
            cause: Halt::Variable(cause),
            quantity: self.at,
        });
    }

    // The open element gets the value of an expression that begins there; one of unparsing alone does nothing.
    fn calculate(
        &mut self,
        terms: &Terms,
        start: Start,
        calculation: &Calculation,
    ) -> Result<(), AllocError>
        requires items { self.old.items ≡ item_marks terms.now.rows }
        ensures { OnOk result ((limits : Limits) → limits.text ≡ self.old.text.most → Comes self.old
            (computed limits terms.now start calculation.now (state_of self.old)) self.new) }
    {
        if calculation.output {
            self.focus = Focus::Leave(End::Done);
            return Ok(());
        }
        self.give_value(terms, start, calculation)
    }

    // The open element gets the value of an expression that begins there.
    fn give_value(
        &mut self,
        terms: &Terms,
        start: Start,
        calculation: &Calculation,
    ) -> Result<(), AllocError>
        requires items { self.old.items ≡ item_marks terms.now.rows }
        ensures { OnOk result ((limits : Limits) → limits.text ≡ self.old.text.most → Comes self.old (calculated limits
            (taken calculation.now.kind (evaluated terms.now start calculation.now.expression (state_of self.old)))
            (with_reads terms.now start calculation.now.expression (state_of self.old))) self.new) }
    {
        let value = self.evaluate(terms, &calculation.expression, start)?;
        let taken = take(self.scratch.alloc, calculation.kind, value);
        self.give_by(taken);
        Ok(())
    }

    // The open element gets a value, or fails for a reason.
    fn give_by(&mut self, value: Result<Value, u8>)
        ensures { (limits : Limits) → limits.text ≡ self.old.text.most → Comes self.old (calculated limits value (state_of self.old)) self.new }
    {
        match value {
            Ok(value) => self.give(&value),
            Err(fault) => self.fail(ParseCause::ExpressionFault { fault }),
        }
    }

    // The open element gets a value.
    fn give(&mut self, value: &Value)
        ensures { (limits : Limits) → limits.text ≡ self.old.text.most → Comes self.old (calculated limits (Ok value.now) (state_of self.old)) self.new }
    {
        match value {
            Value::Int(number) => self.put(Content::Signed(*number), vacant(self.at)),
            Value::Uns(number) => self.put(Content::Unsigned(*number), vacant(self.at)),
            Value::Dec(number) => self.put(Content::Decimal(*number), vacant(self.at)),
            Value::Truth(truth) => self.put(Content::Truth(*truth), vacant(self.at)),
            Value::Text(text) => self.give_str(text.as_str()),
            Value::Bytes(bytes) => self.give_bytes(bytes.as_slice()),
        }
    }

    // The open element gets a text as its value, which is one of characters.
    fn give_str(&mut self, text: &str)
        ensures { (limits : Limits) → limits.text ≡ self.old.text.most
            → Comes self.old (calculated limits (Ok (values.Text text.now)) (state_of self.old)) self.new }
    {
        self.give_text(text);
    }

    // The open element gets a text.
    fn give_text(&mut self, text: &str)
        ensures { Comes self.old (hold self.old.text.most content.Text text.now (vacant self.old.at) (state_of self.old)) self.new }
    {
        match self.text.add(text.as_bytes()) {
            Ok(from) => {
                let len = self.text.count() - from;
                self.put(Content::Text { from, len }, vacant(self.at));
            }
            Err(_) => self.stop_at_text(),
        }
    }

    // The open element gets bytes.
    fn give_bytes(&mut self, bytes: &[u8])
        ensures { Comes self.old (hold self.old.text.most content.Octets bytes.now (vacant self.old.at) (state_of self.old)) self.new }
    {
        match self.text.add(bytes) {
            Ok(from) => {
                let len = self.text.count() - from;
                self.put(Content::Octets { from, len }, vacant(self.at));
            }
            Err(_) => self.stop_at_text(),
        }
    }

    // The statement of this number whose expression begins there, where it isn't a test of a pattern.
    fn state(&mut self, terms: &Terms, start: Start, number: u32) -> Result<(), AllocError>
        requires items { self.old.items ≡ item_marks terms.now.rows }
        ensures { OnOk result ((limits : Limits) → limits.text ≡ self.old.text.most → Comes self.old
            (stated limits terms.now start number (slice_get terms.now.statements number) (state_of self.old)) self.new) }
    {
        match terms.tables().statements().get(number as usize) {
            None => {
                self.focus = Focus::Leave(End::Done);
                Ok(())
            }
            Some(statement) => {
                self.state_by(terms, start, number, statement)?;
                Ok(())
            }
        }
    }

    // A statement of this number whose expression begins there.
    fn state_by(
        &mut self,
        terms: &Terms,
        start: Start,
        number: u32,
        statement: &Statement,
    ) -> Result<(), AllocError>
        requires items { self.old.items ≡ item_marks terms.now.rows }
        ensures { OnOk result ((limits : Limits) → limits.text ≡ self.old.text.most → Comes self.old
            (stated limits terms.now start number (Some statement.now) (state_of self.old)) self.new) }
    {
        match statement {
            Statement::Pattern(_) => {
                self.focus = Focus::Leave(End::Done);
                Ok(())
            }
            Statement::Expression(test) => self.judge(terms, start, number, test),
            Statement::Setting(setting) => self.set(terms, start, setting),
            Statement::Calculation(calculation) => self.calculate(terms, start, calculation),
            Statement::Question(_) => {
                self.focus = Focus::Leave(End::Done);
                Ok(())
            }
            Statement::Opening(_) => {
                self.focus = Focus::Leave(End::Done);
                Ok(())
            }
        }
    }

    // The statement of this number is considered again behind a component that has failed, where it is a discriminator.
    fn reconsider_one(&mut self, terms: &Terms, start: Start, number: u32) -> Result<(), AllocError>
        requires items { self.old.items ≡ item_marks terms.now.rows }
        ensures { OnOk result (Becomes self.old (record {
          focus = self.old.focus;
          stack = self.old.stack;
          state = reconsidered terms.now start (slice_get terms.now.statements number) (state_of self.old);
        }) self.new) }
    {
        match terms.tables().statements().get(number as usize) {
            None => Ok(()),
            Some(statement) => self.reconsider_by(terms, start, statement),
        }
    }

    // A statement is considered again.
    fn reconsider_by(
        &mut self,
        terms: &Terms,
        start: Start,
        statement: &Statement,
    ) -> Result<(), AllocError>
        requires items { self.old.items ≡ item_marks terms.now.rows }
        ensures { OnOk result (Becomes self.old (record {
          focus = self.old.focus;
          stack = self.old.stack;
          state = reconsidered terms.now start (Some statement.now) (state_of self.old);
        }) self.new) }
    {
        match statement {
            Statement::Pattern(_) => Ok(()),
            Statement::Expression(test) => self.judge_again(terms, start, test),
            Statement::Setting(_) => Ok(()),
            Statement::Calculation(_) => Ok(()),
            Statement::Question(_) => Ok(()),
            Statement::Opening(_) => Ok(()),
        }
    }

    // A discriminator that holds resolves the innermost point, also behind a component that has failed.
    fn judge_again(
        &mut self,
        terms: &Terms,
        start: Start,
        test: &ExpressionTest,
    ) -> Result<(), AllocError>
        requires items { self.old.items ≡ item_marks terms.now.rows }
        ensures { OnOk result (Becomes self.old (record {
          focus = self.old.focus;
          stack = self.old.stack;
          state = reconsidered terms.now start (Some (variants.Expression test.now)) (state_of self.old);
        }) self.new) }
    {
        if !test.discriminates {
            return Ok(());
        }
        let value = self.evaluate(terms, &test.expression, start)?;
        if is_held(take_truth(value)) {
            self.marks.resolve();
        }
        Ok(())
    }

    // The statements behind a component that is done are done, one after another.
    pub(crate) fn conclude(
        &mut self,
        terms: &Terms,
        behind: Statements,
        start: Start,
    ) -> Result<(), AllocError>
        requires items { self.old.items ≡ item_marks terms.now.rows }
        ensures moved { (held : Held) → OnOk result (Moved
            (conclude (limits_of self.old held) terms.now held behind start self.old.stack (state_of self.old)) false self.old.far self.new held 0) }
        ensures most { OnOk result (HasSameLimits self.old self.new) }
        ensures at { OnOk result (self.new.at ≡ self.old.at) }
    {
        let last = last_of(behind)?;
        state_from(self, terms, start, behind.first, last)?;
        if is_done(self.focus) {
            return Ok(());
        }
        self.inside = element_of(start);
        Ok(())
    }

    // The discriminators behind a component that has failed are considered again, and it ends as it did.
    pub(crate) fn reconsider(
        &mut self,
        terms: &Terms,
        behind: Statements,
        start: Start,
        end: End,
    ) -> Result<(), AllocError>
        requires items { self.old.items ≡ item_marks terms.now.rows }
        ensures moved { (held : Held) → OnOk result (Moved
            (reconsider terms.now held behind start end self.old.stack (state_of self.old)) false self.old.far self.new held 0) }
        ensures most { OnOk result (HasSameLimits self.old self.new) }
        ensures at { OnOk result (self.new.at ≡ self.old.at) }
    {
        let last = last_of(behind)?;
        reconsider_from(self, terms, start, behind.first, last)?;
        self.focus = Focus::Leave(end);
        Ok(())
    }

    // An element begins, with these statements behind it.
    pub(crate) fn begin_with(
        &mut self,
        id: RowId,
        behind: Statements,
        complex: bool,
        tried: Representations,
        body: RowId,
    ) -> Result<(), AllocError>
        ensures moved { (held : Held) → OnOk result (Moved
            (enter_element self.old.region.most held id (parts_here self.old.instead complex tried body)
            (with_behind behind (At (length self.old.region.nodes)) self.old.stack) (state_of self.old))
            false self.old.far self.new held 0) }
        ensures most { OnOk result (HasSameLimits self.old self.new) }
        ensures at { OnOk result (self.new.at ≡ self.old.at) }
    {
        let parts = parts_here(self.instead, complex, tried, body);
        let start = Start::At(self.region.count());
        self.push_behind(behind, start)?;
        self.begin_element(id, parts)
    }

    // A component in the open element begins, with these statements behind it.
    pub(crate) fn begin_concluded(
        &mut self,
        behind: Statements,
        body: RowId,
    ) -> Result<(), AllocError>
        ensures moved { (held : Held) (cost : Tally) → IsFree cost → OnOk result (Moved
            (pass cost held (Focus.Enter body) (with_behind behind (Inside self.old.inside) self.old.stack) (state_of self.old))
            false self.old.far self.new held 0) }
        ensures most { OnOk result (HasSameLimits self.old self.new) }
        ensures at { OnOk result (self.new.at ≡ self.old.at) }
    {
        self.push_behind(behind, Start::Inside(self.inside))?;
        self.focus = Focus::Enter(body);
        Ok(())
    }

    // These statements follow behind a component, if there are some.
    fn push_behind(&mut self, behind: Statements, start: Start) -> Result<(), AllocError>
        ensures { OnOk result (self.new ≡ record self.old { stack = with_behind behind start self.old.stack }) }
    {
        if behind.count == 0 {
            return Ok(());
        }
        self.stack.push(Frame::Concluding { behind, start })?;
        Ok(())
    }
}

// The statements from one number up to another are done, one after another, as long as they are done well.
fn state_from(
    parser: &mut Parser,
    terms: &Terms,
    start: Start,
    first: u32,
    last: u32,
) -> Result<(), AllocError>
    requires items { parser.old.items ≡ item_marks terms.now.rows }
    ensures { OnOk result ((limits : Limits) → limits.text ≡ parser.old.text.most → Comes parser.old
        (stated_from limits terms.now start first (last - first) (state_of parser.old)) parser.new) }
{
    'stating: for number in first..last {
        parser.state(terms, start, number)?;
        if !is_done(parser.focus) {
            return Ok(());
        }
    }
    parser.focus = Focus::Leave(End::Done);
    Ok(())
}

// The statements from one number up to another are considered again.
fn reconsider_from(
    parser: &mut Parser,
    terms: &Terms,
    start: Start,
    first: u32,
    last: u32,
) -> Result<(), AllocError>
    requires items { parser.old.items ≡ item_marks terms.now.rows }
    ensures { OnOk result (Becomes parser.old (record {
      focus = parser.old.focus;
      stack = parser.old.stack;
      state = reconsidered_from terms.now start first (last - first) (state_of parser.old);
    }) parser.new) }
{
    'again: for number in first..last {
        parser.reconsider_one(terms, start, number)?;
    }
    Ok(())
}

// The number behind that of the last of some statements. More than 32 bits count are more than there is memory for.
fn last_of(behind: Statements) -> Result<u32, AllocError>
    ensures { IfOk result (λ last. last ≡ behind.first + behind.count) }
{
    match behind.first.checked_add(behind.count) {
        Some(last) => Ok(last),
        None => Err(AllocError),
    }
}

// Whether a row has ended and is done.
fn is_done(focus: Focus) -> bool
    ensures { result ≡ is_done focus }
{
    match focus {
        Focus::Leave(end) => is_well(end),
        Focus::Enter(_) => false,
        Focus::Pass(_) => false,
        Focus::PassRest { .. } => false,
        Focus::Sized { .. } => false,
        Focus::Seek { .. } => false,
        Focus::LookIn { .. } => false,
        Focus::LookBehind { .. } => false,
        Focus::Count { .. } => false,
    }
}

fn is_well(end: End) -> bool
    ensures { result ≡ is_well end }
{
    match end {
        End::Done => true,
        End::Failed { .. } => false,
        End::Stopped { .. } => false,
    }
}

// Whether a test is known to hold.
fn is_held(truth: Result<bool, u8>) -> bool
    ensures { result ≡ is_held truth }
{
    match truth {
        Ok(holds) => holds,
        Err(_) => false,
    }
}

// The element that has statements, or in which the group stands that has them.
fn element_of(start: Start) -> u32
    ensures { result ≡ element_of start }
{
    match start {
        Start::At(number) => number,
        Start::Inside(number) => number,
    }
}

// Why a variable can't be set.
fn variable_cause(fault: VarFault) -> VariableCause
    ensures { result ≡ variable_cause fault }
{
    match fault {
        VarFault::SetTwice => VariableCause::SetTwice,
        VarFault::SetAfterRead => VariableCause::SetAfterRead,
    }
}

/// The memory for the evaluation of expressions.
pub(crate) fn evaluation_of(alloc: Global) -> Result<Evaluation, AllocError> {
    match Evaluation::open(alloc, NODES) {
        Ok(evaluation) => Ok(evaluation),
        Err(_) => Err(AllocError),
    }
}
