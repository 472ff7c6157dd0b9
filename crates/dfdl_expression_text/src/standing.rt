// What a token does where it stands.
ghost use Rattle.std.specs.Prelude.{◌≡◌, ◌≤◌, IfOk, OnOk, is_some, [], nat_le, drop, length};
ghost use Rattle.dfdl_expression_text.specs.Machine.{side, is_compared, begins, closes, follows, general, at_begin, at_arguments, at_operand, at_variable, at_step, at_if, at_callable, at_named, at_stepped, at_closed, special, act, top, next, may_end, acted};
ghost use Rattle.dfdl_expression_text.specs.Limit.{owed_frame, owed_all, owed_mark};
ghost use Rattle.dfdl_expression_text.specs.Shown.{at_seen, Takes};
ghost use Rattle.dfdl_expression_text.specs.declared.mark.Mark.TheVariants as Mark;

use crate::kind::Kind;
use crate::mark::{Act, Frame, Mark, Side};
use std::alloc::{AllocError, Global};
use std::collections::VecDeque;

/// What a token does that closes what was opened last, or divides it.
fn closes(top: Option<Frame>, kind: Kind) -> Option<Act>
    ensures { result ≡ closes top kind }
{
    match top {
        Some(Frame::InGroup(compared)) if kind == Kind::Close => {
            Some(Act::Leaves(Mark::Behind(compared)))
        }
        Some(Frame::InCall(compared)) if kind == Kind::Close => {
            Some(Act::Leaves(Mark::Behind(compared)))
        }
        Some(Frame::InCall(_)) if kind == Kind::Comma => Some(Act::Goes(Mark::Begin)),
        Some(Frame::InIndex(compared)) if kind == Kind::CloseIndex => {
            Some(Act::Leaves(Mark::Stepped(compared)))
        }
        Some(Frame::InCondition) if kind == Kind::Close => Some(Act::Leaves(Mark::Closed)),
        Some(Frame::InConsequent) if kind == Kind::Else => Some(Act::Leaves(Mark::Begin)),
        _ => None,
    }
}

/// What a token does behind an operand, whichever it is.
fn follows(top: Option<Frame>, compared: bool, kind: Kind) -> Option<Act>
    ensures { result ≡ follows top compared kind }
{
    match kind {
        Kind::Junction => Some(Act::Goes(Mark::Operand(false))),
        Kind::Comparison => {
            if compared {
                None
            } else {
                Some(Act::Goes(Mark::Operand(true)))
            }
        }
        Kind::Minus | Kind::Calculation => Some(Act::Goes(Mark::Operand(compared))),
        Kind::Close | Kind::Comma | Kind::CloseIndex | Kind::Else => closes(top, kind),
        _ => None,
    }
}

/// What a token does at an operand's begin, wherever it stands.
fn begins(compared: bool, kind: Kind) -> Option<Act>
    ensures { result ≡ begins compared kind }
{
    match kind {
        Kind::Literal => Some(Act::Goes(Mark::Behind(compared))),
        Kind::Dollar => Some(Act::Goes(Mark::Variable(compared))),
        Kind::Slash => Some(Act::Goes(Mark::Step(compared))),
        Kind::Dot => Some(Act::Goes(Mark::Stepped(compared))),
        Kind::Name => Some(Act::Goes(Mark::Callable(compared))),
        Kind::If => Some(Act::Goes(Mark::Named(compared))),
        Kind::Open => Some(Act::Enters(Frame::InGroup(compared), Mark::Begin)),
        _ => None,
    }
}

/// What a token does where an expression begins, and nowhere else.
fn at_begin(kind: Kind) -> Option<Act>
    ensures { result ≡ at_begin kind }
{
    match kind {
        Kind::If => Some(Act::Goes(Mark::BegunIf)),
        Kind::Minus => Some(Act::Goes(Mark::Positive(false))),
        _ => None,
    }
}

/// The same where arguments may begin.
fn at_arguments(top: Option<Frame>, kind: Kind) -> Option<Act>
    ensures { result ≡ at_arguments top kind }
{
    match kind {
        Kind::If => Some(Act::Goes(Mark::BegunIf)),
        Kind::Minus => Some(Act::Goes(Mark::Positive(false))),
        Kind::Close => closes(top, kind),
        _ => None,
    }
}

/// The same behind an operator.
fn at_operand(compared: bool, kind: Kind) -> Option<Act>
    ensures { result ≡ at_operand compared kind }
{
    match kind {
        Kind::Minus => Some(Act::Goes(Mark::Positive(compared))),
        _ => None,
    }
}

/// The same behind a `$`.
fn at_variable(compared: bool, kind: Kind) -> Option<Act>
    ensures { result ≡ at_variable compared kind }
{
    match kind {
        Kind::If | Kind::Name => Some(Act::Goes(Mark::Behind(compared))),
        _ => None,
    }
}

/// The same where a step is due.
fn at_step(compared: bool, kind: Kind) -> Option<Act>
    ensures { result ≡ at_step compared kind }
{
    match kind {
        Kind::If | Kind::Name => Some(Act::Goes(Mark::Named(compared))),
        Kind::Dot => Some(Act::Goes(Mark::Stepped(compared))),
        _ => None,
    }
}

/// The same behind an `if` with which an expression begins.
fn at_if(kind: Kind) -> Option<Act>
    ensures { result ≡ at_if kind }
{
    match kind {
        Kind::Open => Some(Act::Enters(Frame::InCondition, Mark::Begin)),
        Kind::OpenIndex => Some(Act::Enters(Frame::InIndex(false), Mark::Begin)),
        Kind::Slash => Some(Act::Goes(Mark::Step(false))),
        _ => None,
    }
}

/// The same behind a name that may be called.
fn at_callable(compared: bool, kind: Kind) -> Option<Act>
    ensures { result ≡ at_callable compared kind }
{
    match kind {
        Kind::Open => Some(Act::Enters(Frame::InCall(compared), Mark::Arguments)),
        Kind::OpenIndex => Some(Act::Enters(Frame::InIndex(compared), Mark::Begin)),
        Kind::Slash => Some(Act::Goes(Mark::Step(compared))),
        _ => None,
    }
}

/// The same behind another name of a path.
fn at_named(compared: bool, kind: Kind) -> Option<Act>
    ensures { result ≡ at_named compared kind }
{
    match kind {
        Kind::OpenIndex => Some(Act::Enters(Frame::InIndex(compared), Mark::Begin)),
        Kind::Slash => Some(Act::Goes(Mark::Step(compared))),
        _ => None,
    }
}

/// The same behind a step that has no index.
fn at_stepped(compared: bool, kind: Kind) -> Option<Act>
    ensures { result ≡ at_stepped compared kind }
{
    match kind {
        Kind::Slash => Some(Act::Goes(Mark::Step(compared))),
        _ => None,
    }
}

/// The same behind a condition.
fn at_closed(kind: Kind) -> Option<Act>
    ensures { result ≡ at_closed kind }
{
    match kind {
        Kind::Then => Some(Act::Enters(Frame::InConsequent, Mark::Begin)),
        _ => None,
    }
}

impl Frame {
    /// How many tokens still come at least before this ends, with those that end it.
    fn owed(self) -> u32
        ensures { result ≡ owed_frame self }
    {
        match self {
            Frame::InGroup(_) | Frame::InCall(_) | Frame::InIndex(_) => 1,
            Frame::InCondition => 5,
            Frame::InConsequent => 2,
        }
    }
}

impl Mark {
    /// How many tokens still come at least before anything may end.
    fn owed(self) -> u32
        ensures { result ≡ owed_mark self }
    {
        match self {
            Mark::Begin
            | Mark::Operand(_)
            | Mark::Positive(_)
            | Mark::Variable(_)
            | Mark::Step(_) => 1,
            Mark::Closed => 4,
            Mark::Arguments
            | Mark::BegunIf
            | Mark::Callable(_)
            | Mark::Named(_)
            | Mark::Stepped(_)
            | Mark::Behind(_) => 0,
        }
    }

    fn side(self) -> Side
        ensures { result ≡ side self }
    {
        match self {
            Mark::Begin | Mark::Arguments | Mark::Operand(_) | Mark::Positive(_) => Side::Before,
            Mark::BegunIf
            | Mark::Callable(_)
            | Mark::Named(_)
            | Mark::Stepped(_)
            | Mark::Behind(_) => Side::After,
            Mark::Variable(_) | Mark::Step(_) | Mark::Closed => Side::Neither,
        }
    }

    fn is_compared(self) -> bool
        ensures { result ≡ is_compared self }
    {
        match self {
            Mark::Operand(compared)
            | Mark::Positive(compared)
            | Mark::Variable(compared)
            | Mark::Step(compared)
            | Mark::Callable(compared)
            | Mark::Named(compared)
            | Mark::Stepped(compared)
            | Mark::Behind(compared) => compared,
            Mark::Begin | Mark::Arguments | Mark::BegunIf | Mark::Closed => false,
        }
    }

    /// What a token does at this mark alone.
    fn special(self, top: Option<Frame>, kind: Kind) -> Option<Act>
        ensures { result ≡ special top self kind }
    {
        match self {
            Mark::Begin => at_begin(kind),
            Mark::Arguments => at_arguments(top, kind),
            Mark::Operand(compared) => at_operand(compared, kind),
            Mark::Variable(compared) => at_variable(compared, kind),
            Mark::Step(compared) => at_step(compared, kind),
            Mark::BegunIf => at_if(kind),
            Mark::Callable(compared) => at_callable(compared, kind),
            Mark::Named(compared) => at_named(compared, kind),
            Mark::Stepped(compared) => at_stepped(compared, kind),
            Mark::Closed => at_closed(kind),
            Mark::Positive(_) | Mark::Behind(_) => None,
        }
    }

    /// What a token does at each mark of this one's side.
    fn general(self, top: Option<Frame>, kind: Kind) -> Option<Act>
        ensures { result ≡ general (side self) top (is_compared self) kind }
    {
        let compared = self.is_compared();
        match self.side() {
            Side::Before => begins(compared, kind),
            Side::After => follows(top, compared, kind),
            Side::Neither => None,
        }
    }

    /// What a token does, if it may stand here.
    #[tactic(auto, unfolding(crate::specs::Machine::act))]
    fn act(self, top: Option<Frame>, kind: Kind) -> Option<Act>
        ensures { result ≡ act top self kind }
    {
        match self.special(top, kind) {
            Some(act) => Some(act),
            None => self.general(top, kind),
        }
    }
}

/// Where the next token stands, and what is open there.
#[derive(Drop)]
pub(crate) struct Standing {
    mark: Mark,
    /// The innermost first.
    opened: VecDeque<Frame>,
}

impl Standing {
    pub(crate) fn new(alloc: Global) -> Standing
        ensures { at_seen result ≡ record { mark = Mark.Begin; opened = [] } }
    {
        Standing {
            mark: Mark::Begin,
            opened: VecDeque::new(alloc),
        }
    }

    fn act(&self, kind: Kind) -> Option<Act>
        ensures { result ≡ act (top (at_seen self.now).opened) self.now.mark kind }
    {
        self.mark.act(self.opened.front().copied(), kind)
    }

    /// Whether a token of this kind may stand here.
    pub(crate) fn allows(&self, kind: Kind) -> bool
        ensures { result ≡ is_some (next (at_seen self.now) kind) }
    {
        self.act(kind).is_some()
    }

    /// How many tokens still come at least before anything may end.
    pub(crate) fn owed_before(&self) -> u32
        ensures { result ≡ owed_mark self.now.mark }
    {
        self.mark.owed()
    }

    /// Whether no more than so many tokens are owed by what is open, without the innermost ones that are passed over.
    #[tactic(auto, using(crate::proofs::Owed::owed_more, crate::proofs::Owed::owed_end))]
    pub(crate) fn owes_at_most(&self, passed: usize, most: u32) -> bool
        ensures { result ≡ nat_le (owed_all (drop passed (at_seen self.now).opened)) most }
    {
        let mut left = most;
        for at in passed..self.opened.len() {
            let owed = self.opened[at].owed();
            if left < owed {
                return false;
            }
            left -= owed;
        }
        true
    }

    /// Does what a token does.
    fn do_act(&mut self, act: Act) -> Result<(), AllocError>
        ensures { OnOk result (at_seen self.new ≡ acted (at_seen self.old).opened act) }
    {
        match act {
            Act::Goes(mark) => self.mark = mark,
            Act::Enters(frame, mark) => {
                self.opened.push_front(frame)?;
                self.mark = mark;
            }
            Act::Leaves(mark) => {
                let _ = self.opened.pop_front();
                self.mark = mark;
            }
        }
        Ok(())
    }

    /// Takes a token of this kind, and answers whether it may stand here.
    pub(crate) fn take(&mut self, kind: Kind) -> Result<bool, AllocError>
        ensures { IfOk result (λ taken. Takes (next (at_seen self.old) kind) taken (at_seen self.new)) }
    {
        match self.act(kind) {
            Some(act) => {
                self.do_act(act)?;
                Ok(true)
            }
            None => Ok(false),
        }
    }

    /// Whether an expression may end here.
    pub(crate) fn may_end(&self) -> bool
        ensures { result ≡ may_end (at_seen self.now) }
    {
        self.opened.is_empty() && self.mark.side() == Side::After
    }
}
