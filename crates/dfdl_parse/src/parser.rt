// The machine: what is done next, the stack, and the state.
ghost use Rattle.std.specs.Prelude.{replicate, ◌≡◌, length, ◌+◌, ◌-◌, ◌*◌, ◌/◌, ◌^◌, ◌<◌, ◌≤◌, ◌↔◌, ◌∷◌, [], ℕ, List, true, false, IfOk, IfSome, OnOk, IsTrue, Some, slice_get};
ghost use Rattle.dfdl_bits.specs.Window.{Held, end_of};
ghost use Rattle.dfdl_grammar.specs.declared.end.End.{End as AnyEnd};
ghost use Rattle.dfdl_grammar.specs.declared.end.End.TheVariants.{Done};
ghost use Rattle.dfdl_grammar.specs.declared.end.Halt.TheVariants.{Limit};
ghost use Rattle.dfdl_grammar.specs.declared.instead.Instead.{Instead as AnyInstead};
ghost use Rattle.dfdl_grammar.specs.States.{anchor_at, no_box};
ghost use Rattle.dfdl_grammar.specs.Documents.{front_at};
ghost use Rattle.dfdl_parse.specs.Machines.{HasEnded, step, enter, enter_fill, enter_group, fill, fill_move};
ghost use Rattle.dfdl_parse.specs.Opens.{Holds, IsHeld};
ghost use Rattle.dfdl_parse.specs.Answers.{answer_at, answer_of};
ghost use Rattle.dfdl_parse.specs.Steps.{Moved};
ghost use Rattle.dfdl_parse.specs.Registered.{IsRegistered};
ghost use Rattle.dfdl_parse.specs.Shown.{HasSameLimits, limits_of, state_of};

use crate::frame::{Behind, Focus, Frame, Sought};
use crate::framing::{last_bit, last_byte, look_beyond};
use crate::instances::variables_of;
use crate::marks::Marks;
use crate::outcome::Outcome;
use crate::register::register_of;
use crate::scopes::Scopes;
use crate::stack::Stack;
use crate::stating::evaluation_of;
use dfdl_bits::{Seen, Steps, Window};
use dfdl_delims::{Candidates, Markup};
use dfdl_expression_eval::Scratch as Evaluation;
use dfdl_grammar::{End, Halt, Instead, Limits};
use dfdl_leaves::{Scratch, aligned};
use dfdl_region::{NodeRegion, TextRegion};
use dfdl_report::{LimitCause, ParseCause};
use dfdl_terms::{Items, Row, RowId, Terms};
use dfdl_vars::Vars;
use std::alloc::{AllocError, Global};
use std::sync::ledger::Ledger;

// The bit at which a box would end that is around everything.
const NO_BOX: u64 = u64::MAX;

// How many frames the stack has room for at first.
const FRAMES: usize = 64;

// How many open marks there is room for at first.
const MARKS: usize = 16;

// How many open lists of delimiters there is room for at first.
const LISTS: usize = 16;

/// The machine over one document.
#[derive(Drop)]
pub struct Parser {
    pub(crate) focus: Focus,
    pub(crate) stack: Stack,
    pub(crate) at: u64,
    pub(crate) stop: u64,
    pub(crate) inside: u32,
    pub(crate) instead: Instead,
    pub(crate) lists: Scopes,
    pub(crate) hidden: usize,
    pub(crate) marks: Marks,
    pub(crate) region: NodeRegion,
    pub(crate) text: TextRegion,
    pub(crate) scratch: Scratch,
    pub(crate) markup: Markup,
    pub(crate) candidates: Candidates,
    pub(crate) variables: Vars,
    pub(crate) items: Items,
    pub(crate) evaluation: Evaluation,
    pub(crate) far: u64,
}

impl Parser {
    /// The machine before the root element's row, with the memory for as many elements and bytes of text as there may be.
    pub(crate) fn open(alloc: Global, terms: &Terms, limits: Limits) -> Result<Parser, AllocError>
        ensures focus { IfOk result (λ p. p.focus ≡ Focus.Enter (length terms.now.rows - 1)) }
        ensures stack { IfOk result (λ p. p.stack ≡ []) }
        ensures front { IfOk result (λ p. state_of p ≡ front_at terms.now 0) }
        ensures far { IfOk result (λ p. p.far ≡ 0) }
        ensures registered { IfOk result (λ p. IsRegistered terms.now p) }
        ensures region { IfOk result (λ p. p.region ≡ record { nodes = []; most = limits.nodes }) }
        ensures text { IfOk result (λ p. p.text ≡ record { bytes = []; most = limits.text }) }
    {
        Ok(Parser {
            focus: Focus::Enter(RowId::new(terms.rows() - 1)),
            stack: Stack::open(alloc, FRAMES)?,
            at: 0,
            stop: NO_BOX,
            inside: 0,
            instead: Instead::Nothing,
            lists: Scopes::open(alloc, LISTS)?,
            hidden: 0,
            marks: Marks::open(alloc, MARKS)?,
            region: NodeRegion::open(alloc, limits.nodes)?,
            text: TextRegion::open(alloc, limits.text)?,
            scratch: Scratch::open(alloc),
            markup: register_of(alloc, terms.tables().delimiters())?,
            candidates: Candidates::new(alloc),
            variables: variables_of(alloc, terms)?,
            items: Items::of(alloc, terms)?,
            evaluation: evaluation_of(alloc)?,
            far: 0,
        })
    }

    /// The machine before the root element's row at a byte, where nothing is open.
    pub(crate) fn begin(&mut self, terms: &Terms, start: u64) -> Result<(), AllocError>
        requires bound { start ≤ 2 ^ 60 }
        requires none { (self.old.stack ≡ []) × (self.old.marks ≡ []) }
        requires registered { IsRegistered terms.now self.old }
        ensures focus { OnOk result (self.new.focus ≡ Focus.Enter (length terms.now.rows - 1)) }
        ensures stack { OnOk result (self.new.stack ≡ []) }
        ensures front { OnOk result (state_of self.new ≡ front_at terms.now start) }
        ensures far { OnOk result (self.new.far ≡ 0) }
        ensures most { OnOk result (HasSameLimits self.old self.new) }
        ensures registered { OnOk result (IsRegistered terms.now self.new) }
    {
        self.variables = variables_of(self.scratch.alloc, terms)?;
        self.focus = Focus::Enter(RowId::new(terms.rows() - 1));
        self.at = 8 * start;
        self.stop = NO_BOX;
        self.inside = 0;
        self.instead = Instead::Nothing;
        self.lists.close_to(0);
        self.hidden = 0;
        self.region.clear();
        self.text.clear();
        self.far = 0;
        Ok(())
    }

    /// What the machine has come to.
    pub(crate) fn outcome(&self) -> Outcome
        ensures { result ≡ answer_at self.now.focus self.now.stack }
    {
        let focus = self.focus;
        match focus {
            Focus::Enter(_) => Outcome::Open,
            Focus::Pass(_) => Outcome::Open,
            Focus::PassRest { .. } => Outcome::Open,
            Focus::Sized { .. } => Outcome::Open,
            Focus::Seek { .. } => Outcome::Open,
            Focus::LookIn { .. } => Outcome::Open,
            Focus::LookBehind { .. } => Outcome::Open,
            Focus::Count { .. } => Outcome::Open,
            Focus::Leave(end) => {
                if self.stack.is_empty() {
                    answer_of(end)
                } else {
                    Outcome::Open
                }
            }
        }
    }

    /// Whether nothing is left to be done.
    pub(crate) fn has_ended(&self) -> bool
        ensures { IsTrue result ↔ HasEnded self.now.focus self.now.stack }
    {
        match self.focus {
            Focus::Enter(_) => false,
            Focus::Pass(_) => false,
            Focus::PassRest { .. } => false,
            Focus::Sized { .. } => false,
            Focus::Seek { .. } => false,
            Focus::LookIn { .. } => false,
            Focus::LookBehind { .. } => false,
            Focus::Count { .. } => false,
            Focus::Leave(_) => self.stack.is_empty(),
        }
    }

    /// Makes one step, and answers whether it waits for a byte.
    pub(crate) fn step<L: Ledger>(
        &mut self,
        terms: &Terms,
        sight: &mut Window,
        steps: &mut Steps<L>,
    ) -> Result<bool, AllocError>
        requires base { Holds sight.old.base self.old.focus self.old.stack (state_of self.old) }
        requires at { self.old.at ≤ 8 * end_of sight.old }
        requires registered { IsRegistered terms.now self.old }
        ensures moved { IfOk result (λ waits. Moved
            (step (limits_of self.old sight.old) terms.now sight.old self.old.focus self.old.stack (state_of self.old))
            waits self.old.far self.new sight.new (steps.new - steps.old)) }
        ensures steps { steps.old ≤ steps.new }
        ensures most { OnOk result (HasSameLimits self.old self.new) }
        ensures at { OnOk result (self.new.at ≤ 8 * end_of sight.new) }
    {
        let focus = self.focus;
        match focus {
            Focus::Enter(id) => {
                let waits = self.enter(terms, id, sight, steps)?;
                Ok(waits)
            }
            Focus::Pass(to) => Ok(self.pass(to, sight, steps)),
            Focus::PassRest { bit, outer } => Ok(self.pass_rest(bit, outer, sight, steps)),
            Focus::Sized { prim, size } => {
                let waits = self.read_sized(terms, prim, size, sight, steps)?;
                Ok(waits)
            }
            Focus::Seek { sought } => {
                let waits = self.seek(terms, sought, sight, steps)?;
                Ok(waits)
            }
            Focus::LookIn { slot } => {
                let waits = self.look_in(terms, slot, sight, steps)?;
                Ok(waits)
            }
            Focus::LookBehind { slot, bit } => {
                let waits = self.look_behind(terms, slot, bit, sight, steps)?;
                Ok(waits)
            }
            Focus::Count { slot, question } => {
                self.ask_count(terms, slot, question)?;
                Ok(false)
            }
            Focus::Leave(end) => {
                self.leave(terms, end)?;
                Ok(false)
            }
        }
    }

    // A row begins.
    fn enter<L: Ledger>(
        &mut self,
        terms: &Terms,
        id: RowId,
        sight: &mut Window,
        steps: &mut Steps<L>,
    ) -> Result<bool, AllocError>
        requires focus { self.old.focus ≡ Focus.Enter id }
        requires base { IsHeld sight.old.base self.old.at (state_of self.old) }
        requires at { self.old.at ≤ 8 * end_of sight.old }
        requires registered { IsRegistered terms.now self.old }
        ensures moved { IfOk result (λ waits. Moved
            (enter (limits_of self.old sight.old) terms.now sight.old id (slice_get terms.now.rows id) self.old.stack (state_of self.old))
            waits self.old.far self.new sight.new (steps.new - steps.old)) }
        ensures steps { steps.old ≤ steps.new }
        ensures most { OnOk result (HasSameLimits self.old self.new) }
        ensures at { OnOk result (self.new.at ≤ 8 * end_of sight.new) }
    {
        if id.number() >= terms.rows() {
            self.focus = Focus::Leave(End::Done);
            return Ok(false);
        }
        match terms.row(id) {
            Row::Leaf { prim } => {
                let waits = self.begin_leaf_of(terms, *prim, sight, steps)?;
                Ok(waits)
            }
            Row::Elem {
                simple,
                tried,
                behind,
                body,
                ..
            } => {
                self.begin_with(id, *behind, simple.is_none(), *tried, *body)?;
                Ok(false)
            }
            Row::Group { children } => {
                self.first_child(id, children.as_slice())?;
                Ok(false)
            }
            Row::Skip { bits } => {
                let _end = sight.end();
                self.begin_fill(self.at + u64::from(*bits));
                Ok(false)
            }
            Row::Align { bits } => {
                let _end = sight.end();
                self.begin_fill(aligned(*bits, self.at));
                Ok(false)
            }
            Row::Initiator { delimiter } => {
                self.begin_initiator(*delimiter);
                Ok(false)
            }
            Row::Terminator {
                delimiter,
                separator,
            } => {
                self.begin_terminator(*delimiter, *separator);
                Ok(false)
            }
            Row::Separator => {
                self.focus = Focus::Seek {
                    sought: Sought::Separator,
                };
                Ok(false)
            }
            Row::Scope { list, body } => {
                self.begin_scope(*list, *body)?;
                Ok(false)
            }
            Row::Boxed { bits, body } => {
                let _end = sight.end();
                self.begin_box(*bits, *body)?;
                Ok(false)
            }
            Row::PrefixedLeaf { prefix, prim } => {
                let behind = Behind::Leaf(self.read_by(terms, *prim));
                let waits = self.begin_prefix(terms, id, prefix, behind, sight, steps)?;
                Ok(waits)
            }
            Row::PrefixedBox { prefix, body } => {
                let behind = Behind::Box(*body);
                let waits = self.begin_prefix(terms, id, prefix, behind, sight, steps)?;
                Ok(waits)
            }
            Row::MeasuredLeaf { measure, prim } => {
                let behind = Behind::Leaf(self.read_by(terms, *prim));
                self.begin_measured(terms, *measure, behind)?;
                Ok(false)
            }
            Row::MeasuredBox { measure, body } => {
                self.begin_measured(terms, *measure, Behind::Box(*body))?;
                Ok(false)
            }
            Row::Repeat { count, body } => {
                self.first_time(id, *count, *body)?;
                Ok(false)
            }
            Row::Counted { question, body } => {
                self.begin_counted(terms, *question, *body)?;
                Ok(false)
            }
            Row::Optional {
                most,
                initiated,
                body,
                ..
            } => {
                self.try_occurrence(*body, *initiated, *most)?;
                Ok(false)
            }
            Row::Choice {
                branches,
                initiated,
            } => {
                self.begin_choice(id, branches.as_slice(), *initiated)?;
                Ok(false)
            }
            Row::Dispatch { question, keys } => {
                self.begin_dispatch(terms, *question, keys.as_slice())?;
                Ok(false)
            }
            Row::Statement { statement } => {
                let waits = self.begin_statement(terms, *statement, sight, steps)?;
                Ok(waits)
            }
            Row::Concluded { behind, body } => {
                let _end = sight.end();
                self.begin_concluded(*behind, *body)?;
                Ok(false)
            }
            Row::Hidden { body } => {
                let _end = sight.end();
                self.focus = Focus::Enter(*body);
                Ok(false)
            }
            Row::Spanned { body } => {
                let _end = sight.end();
                self.begin_span(*body)?;
                Ok(false)
            }
            Row::Instance { statement, body } => {
                self.begin_instance(terms, *statement, *body)?;
                Ok(false)
            }
            Row::Separated {
                policy,
                position,
                initiated,
                slots,
            } => {
                self.begin_separated(id, *policy, *position, *initiated, slots.as_slice())?;
                Ok(false)
            }
        }
    }

    // The first byte that is still needed where this bit comes next.
    pub(crate) fn anchor_at(&self, bit: u64) -> u64
        ensures { result ≡ anchor_at (state_of self.now) bit }
    {
        if self.marks.is_empty() {
            return bit / 8;
        }
        self.marks.held_from(bit) / 8
    }

    // Fill up to a bit begins, where there is any. It can't pass the end of the box.
    fn begin_fill(&mut self, to: u64)
        ensures moved { (held : Held) → Moved
            (enter_fill held to self.old.stack (state_of self.old)) false self.old.far self.new held 0 }
        ensures most { HasSameLimits self.old self.new }
        ensures at { self.new.at ≡ self.old.at }
    {
        if to <= self.at {
            self.focus = Focus::Leave(End::Done);
        } else if to <= self.stop {
            self.focus = Focus::Pass(to);
        } else {
            self.fail(ParseCause::LengthOutOfRange);
        }
    }

    // Fill up to a bit is passed over.
    fn pass<L: Ledger>(&mut self, to: u64, sight: &mut Window, steps: &mut Steps<L>) -> bool
        requires focus { self.old.focus ≡ Focus.Pass to }
        requires base { IsHeld sight.old.base (to - 1) (state_of self.old) }
        requires at { self.old.at ≤ 8 * end_of sight.old }
        ensures moved { Moved (fill (limits_of self.old sight.old) sight.old to self.old.stack (state_of self.old))
            result self.old.far self.new sight.new (steps.new - steps.old) }
        ensures steps { steps.old ≤ steps.new }
        ensures most { HasSameLimits self.old self.new }
        ensures at { self.new.at ≤ 8 * end_of sight.new }
    {
        let window = sight.size() as u64;
        let low = self.anchor_at(last_bit(to));
        let seen = look_beyond(low, last_byte(to), sight, steps);
        self.fill(seen, to, window)
    }

    // The last byte of fill up to a bit is seen.
    fn fill(&mut self, seen: Seen, to: u64, window: u64) -> bool
        requires focus { self.old.focus ≡ Focus.Pass to }
        ensures moved { (sight : Held) (low : ℕ) → Moved
            (fill_move window sight low to seen self.old.stack (state_of self.old)) result self.old.far self.new sight 1 }
        ensures most { HasSameLimits self.old self.new }
    {
        let far = self.far.max(last_byte(to) + 1);
        match seen {
            Seen::NotYet => return true,
            Seen::Byte(_) => {
                self.at = to;
                self.focus = Focus::Leave(End::Done);
                self.far = far;
            }
            Seen::End => {
                self.fail(ParseCause::DataEnds);
                self.far = far;
            }
            Seen::Over => self.stop_at(LimitCause::Window, window),
        }
        false
    }

    // A group begins.
    fn first_child(&mut self, id: RowId, children: &[RowId]) -> Result<(), AllocError>
        ensures moved { (held : Held) → OnOk result (Moved
            (enter_group held id children.now self.old.stack (state_of self.old)) false self.old.far self.new held 0) }
        ensures most { OnOk result (HasSameLimits self.old self.new) }
        ensures at { OnOk result (self.new.at ≡ self.old.at) }
    {
        match children {
            [] => {
                self.focus = Focus::Leave(End::Done);
            }
            [child, ..] => {
                self.stack.push(Frame::Rest { group: id, next: 1 })?;
                self.focus = Focus::Enter(*child);
            }
        }
        Ok(())
    }

    // A row that stands so many times begins: its first time is done next, if there is one.
    fn first_time(&mut self, id: RowId, count: u32, body: RowId) -> Result<(), AllocError>
        ensures moved { (held : Held) → OnOk result (Moved
            (enter_group held id (replicate count body) self.old.stack (state_of self.old)) false self.old.far self.new held 0) }
        ensures most { OnOk result (HasSameLimits self.old self.new) }
        ensures at { OnOk result (self.new.at ≡ self.old.at) }
    {
        if count == 0 {
            self.focus = Focus::Leave(End::Done);
        } else {
            self.stack.push(Frame::Rest { group: id, next: 1 })?;
            self.focus = Focus::Enter(body);
        }
        Ok(())
    }

    // The work ends for a cause, at the bit that comes next.
    pub(crate) fn fail(&mut self, cause: ParseCause)
        ensures { self.new ≡ record self.old { focus = Focus.Leave (AnyEnd.Failed cause self.old.at) } }
    {
        self.fail_at(cause, self.at);
    }

    // The work ends for a cause, at a bit.
    pub(crate) fn fail_at(&mut self, cause: ParseCause, bit: u64)
        ensures { self.new ≡ record self.old { focus = Focus.Leave (AnyEnd.Failed cause bit) } }
    {
        self.focus = Focus::Leave(End::Failed { cause, bit });
    }

    // The work ends at a limit, which allows this quantity.
    pub(crate) fn stop_at(&mut self, cause: LimitCause, quantity: u64)
        ensures { self.new ≡ record self.old { focus = Focus.Leave (AnyEnd.Stopped (Limit cause) quantity) } }
    {
        self.focus = Focus::Leave(End::Stopped {
            cause: Halt::Limit(cause),
            quantity,
        });
    }
}

// The answer of an end.
fn answer_of(end: End) -> Outcome
    ensures { result ≡ answer_of end }
{
    match end {
        End::Done => Outcome::Done,
        End::Failed { cause, bit } => Outcome::Failed { cause, bit },
        End::Stopped { cause, quantity } => halted(cause, quantity),
    }
}

// The answer where parsing ended at once, by the quantity beside the cause.
fn halted(cause: Halt, quantity: u64) -> Outcome
    ensures { result ≡ answer_of (AnyEnd.Stopped cause quantity) }
{
    match cause {
        Halt::Limit(cause) => Outcome::Limit { cause, quantity },
        Halt::Variable(cause) => Outcome::Variable {
            cause,
            bit: quantity,
        },
    }
}
