// Builds the cells of an expression's tree of its tokens.
ghost use Rattle.std.specs.Prelude.{◌≡◌, map, drop, IfOk, OnOk, MatchOption, Some, None};
ghost use Rattle.dfdl_expression_tree.specs.Trees.{strength, operated};
ghost use Rattle.dfdl_expression_tree.specs.Building.{work, put, popped_of, moved, moved_by, closed_behind, closed_empty, joined};
ghost use Rattle.dfdl_expression_tree.specs.Building.{start, step, step_after, step_before, finished, opens_next, built};
ghost use Rattle.dfdl_expression_tree.specs.Shown.{state_seen, work_seen, Steps, Finishes};

use crate::moves::{
    begins, closes, closes_call, follows, goes_to, is_closing, is_open, is_operator, is_then,
    steps, varies,
};
use crate::node::Cell;
use crate::pending::{Move, Pending, Place};
use crate::token::{Operator, Token};
use dfdl_expression_text::Kind;
use std::alloc::{AllocError, Global};
use std::collections::VecDeque;

/// What has been built of an expression's tree.
#[derive(Drop)]
pub(crate) struct Builder {
    /// Operands stand before what they are operands of.
    cells: Vec<Cell>,
    /// What is open, the innermost first.
    pending: VecDeque<Pending>,
    place: Place,
}

impl Builder {
    fn new(alloc: Global) -> Builder
        ensures { state_seen result ≡ start }
    {
        Builder {
            cells: Vec::new(alloc),
            pending: VecDeque::new(alloc),
            place: Place::Before,
        }
    }

    /// Ends what is open and stronger than this, or as strong.
    fn pop(&mut self, strength: u32) -> Result<(), AllocError>
        ensures { OnOk result (work_seen self.new ≡ popped_of strength (work_seen self.old)) }
    {
        while let Some(pending) = self.pending.front().copied() {
            if !pending.ends_by(strength) {
                break;
            }
            let _ = self.pending.pop_front();
            self.cells.push(pending.cell())?;
        }
        Ok(())
    }

    fn put(&mut self, cell: Option<Cell>) -> Result<(), AllocError>
        ensures { OnOk result (work_seen self.new ≡ work (put (work_seen self.old).cells cell) (work_seen self.old).pending) }
    {
        if let Some(cell) = cell {
            self.cells.push(cell)?;
        }
        Ok(())
    }

    fn do_move(&mut self, next: Move) -> Result<(), AllocError>
        ensures { OnOk result (state_seen self.new ≡ moved (work_seen self.old) next) }
    {
        self.put(next.first)?;
        self.put(next.second)?;
        if let Some(pending) = next.opens {
            self.pending.push_front(pending)?;
        }
        self.place = next.place;
        Ok(())
    }

    /// Does the move, and answers whether there is one.
    fn move_by(&mut self, next: Option<Move>) -> Result<bool, AllocError>
        ensures { IfOk result (λ taken. Steps (moved_by (work_seen self.old) next) taken (state_seen self.new)) }
    {
        match next {
            Some(next) => {
                self.do_move(next)?;
                Ok(true)
            }
            None => Ok(false),
        }
    }

    /// Closes or divides what was opened last.
    fn close(&mut self, kind: Kind) -> Result<bool, AllocError>
        ensures { IfOk result (λ taken. Steps (closed_behind (work_seen self.old) kind) taken (state_seen self.new)) }
    {
        match self.pending.pop_front() {
            Some(pending) => self.move_by(closes(pending, kind)),
            None => Ok(false),
        }
    }

    /// Closes a call that has no arguments.
    fn close_empty(&mut self) -> Result<bool, AllocError>
        ensures { IfOk result (λ taken. Steps (closed_empty (work_seen self.old)) taken (state_seen self.new)) }
    {
        match self.pending.pop_front() {
            Some(pending) => self.move_by(closes_call(pending)),
            None => Ok(false),
        }
    }

    /// Takes an operator.
    fn join(&mut self, operator: Operator) -> Result<(), AllocError>
        ensures { OnOk result (joined (popped_of (strength operator) (work_seen self.old)) operator ≡ Some (state_seen self.new)) }
    {
        self.pop(operator.strength())?;
        self.pending.push_front(Pending::Operation(operator))?;
        self.place = Place::Before;
        Ok(())
    }

    /// Takes a token behind an operand.
    fn step_after(&mut self, token: Token) -> Result<bool, AllocError>
        ensures { IfOk result (λ taken. Steps (step_after token.kind token (work_seen self.old)) taken (state_seen self.new)) }
    {
        if is_operator(token.kind) {
            self.join(token.operator())?;
            Ok(true)
        } else if is_closing(token.kind) {
            self.pop(0)?;
            self.close(token.kind)
        } else {
            self.move_by(follows(token.kind))
        }
    }

    /// Takes a token where an operand may begin.
    fn step_before(&mut self, token: Token, called: bool) -> Result<bool, AllocError>
        ensures { IfOk result (λ taken. Steps (step_before token.kind token called (work_seen self.old)) taken (state_seen self.new)) }
    {
        match token.kind {
            Kind::Close => self.close_empty(),
            kind => self.move_by(begins(kind, token, called)),
        }
    }

    /// Takes a token, behind which a parenthesis comes or not, and answers whether it may stand here.
    fn step(&mut self, token: Token, called: bool) -> Result<bool, AllocError>
        ensures { IfOk result (λ taken. Steps (step token.kind token called (state_seen self.old)) taken (state_seen self.new)) }
    {
        match self.place {
            Place::After => self.step_after(token),
            Place::Before => self.step_before(token, called),
            Place::Variable => self.move_by(varies(token.kind, token)),
            Place::Step => self.move_by(steps(token.kind, token)),
            Place::Opening => self.move_by(goes_to(is_open(token.kind), Place::Before)),
            Place::Closed => self.move_by(goes_to(is_then(token.kind), Place::Before)),
        }
    }

    /// Ends what is open behind the last token, and answers whether all is closed then.
    fn finish(&mut self) -> Result<bool, AllocError>
        ensures { IfOk result (λ whole. Finishes (finished (state_seen self.old)) whole (work_seen self.new).cells) }
    {
        if self.place != Place::After {
            return Ok(false);
        }
        self.pop(0)?;
        Ok(self.pending.is_empty())
    }
}

/// Whether the token of this number is a `(`.
fn opens_at(tokens: &[Token], at: usize) -> bool
    ensures { result ≡ opens_next (map (λ (t : Token). t.kind) (drop at tokens.now)) }
{
    if at < tokens.len() {
        is_open(tokens[at].kind)
    } else {
        false
    }
}

/// The cells of the tree of these tokens, if they are those of an expression.
pub(crate) fn cells_of(alloc: Global, tokens: &[Token]) -> Result<Option<Vec<Cell>>, AllocError>
    ensures { IfOk result (λ cells. MatchOption cells (built tokens.now ≡ None) (λ found. built tokens.now ≡ Some found.items)) }
{
    let mut builder = Builder::new(alloc);
    for (at, token) in tokens.iter().enumerate() {
        let called = opens_at(tokens, at + 1);
        if !builder.step(*token, called)? {
            return Ok(None);
        }
    }
    if !builder.finish()? {
        return Ok(None);
    }
    Ok(Some(builder.cells))
}
