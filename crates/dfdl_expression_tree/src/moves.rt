// What a token does where it stands.
ghost use Rattle.std.specs.Prelude.{◌≡◌, Some, None};
ghost use Rattle.dfdl_expression_tree.specs.Trees.{strength, constant, constant_by, stepped, stepped_by, operated, operated_by};
ghost use Rattle.dfdl_expression_tree.specs.Building.{pops, cell_of, names, begins, varies, steps, goes_to, follows, closes, closes_call};
ghost use Rattle.dfdl_expression_tree.specs.Building.{is_operator, is_closing, is_open, is_then};

use crate::node::{Binary, Cell, Leaf, Unary};
use crate::pending::{Move, Pending, Place};
use crate::token::{Form, Operator, Token};
use dfdl_expression_text::Kind;

impl Operator {
    /// How strongly it binds its operands.
    pub(crate) fn strength(self) -> u32
        ensures { result ≡ strength self }
    {
        match self {
            Operator::Or => 1,
            Operator::And => 2,
            Operator::Equal
            | Operator::NotEqual
            | Operator::Less
            | Operator::LessOrEqual
            | Operator::Greater
            | Operator::GreaterOrEqual => 3,
            Operator::Plus | Operator::Minus => 4,
            Operator::Times | Operator::Divide | Operator::WholeDivide | Operator::Remainder => 5,
        }
    }
}

impl Token {
    fn constant(self) -> Leaf
        ensures { result ≡ constant self }
    {
        match self.form {
            Form::Text => Leaf::Text(self.span),
            _ => Leaf::Number(self.span),
        }
    }

    /// The step that isn't a name.
    fn step(self) -> Unary
        ensures { result ≡ stepped self }
    {
        match self.form {
            Form::Parent => Unary::Parent,
            _ => Unary::Here,
        }
    }

    pub(crate) fn operator(self) -> Operator
        ensures { result ≡ operated self }
    {
        match self.form {
            Form::Operation(operator) => operator,
            _ => Operator::Or,
        }
    }
}

impl Pending {
    /// Whether an operator of this strength ends its operand; at 0, whether what closes does.
    pub(crate) fn ends_by(self, strength: u32) -> bool
        ensures { result ≡ pops strength self }
    {
        match self {
            Pending::Negative => true,
            Pending::Operation(operator) => strength <= operator.strength(),
            Pending::Alternative => strength == 0,
            _ => false,
        }
    }

    /// What stands behind its operands.
    pub(crate) fn cell(self) -> Cell
        ensures { result ≡ cell_of self }
    {
        match self {
            Pending::Negative => Cell::Unary(Unary::Negative),
            Pending::Operation(operator) => Cell::Binary(Binary::Operation(operator)),
            _ => Cell::Choice,
        }
    }
}

/// The move that puts this cell and leads to a place.
fn puts(cell: Cell, place: Place) -> Move
    ensures { result ≡ record { first = Some cell; second = None; opens = None; place = place } }
{
    Move {
        first: Some(cell),
        second: None,
        opens: None,
        place,
    }
}

/// The move that opens this.
fn opens(pending: Pending) -> Move
    ensures { result ≡ record { first = None; second = None; opens = Some pending; place = Place.Before } }
{
    Move {
        first: None,
        second: None,
        opens: Some(pending),
        place: Place::Before,
    }
}

/// The move to a place.
fn leads(place: Place) -> Move
    ensures { result ≡ record { first = None; second = None; opens = None; place = place } }
{
    Move {
        first: None,
        second: None,
        opens: None,
        place,
    }
}

/// The move that puts two cells behind which an operand may end.
fn puts_both(first: Cell, second: Cell) -> Move
    ensures { result ≡ record { first = Some first; second = Some second; opens = None; place = Place.After } }
{
    Move {
        first: Some(first),
        second: Some(second),
        opens: None,
        place: Place::After,
    }
}

/// A name where an operand begins, which opens this where a parenthesis follows.
fn names(called: bool, token: Token, open_call: Pending, first: Option<Cell>) -> Move
    ensures { result ≡ names called token open_call first }
{
    if called {
        Move {
            first,
            second: None,
            opens: Some(open_call),
            place: Place::Opening,
        }
    } else {
        puts_both(
            Cell::Leaf(Leaf::Context),
            Cell::Unary(Unary::Child(token.span)),
        )
    }
}

/// What a token does with which an operand begins.
pub(crate) fn begins(kind: Kind, token: Token, called: bool) -> Option<Move>
    ensures { result ≡ begins kind token called }
{
    match kind {
        Kind::Literal => Some(puts(Cell::Leaf(token.constant()), Place::After)),
        Kind::Dollar => Some(leads(Place::Variable)),
        Kind::Slash => Some(puts(Cell::Leaf(Leaf::Root), Place::Step)),
        Kind::Dot => Some(puts_both(Cell::Leaf(Leaf::Context), Cell::Unary(token.step()))),
        Kind::Name => Some(names(
            called,
            token,
            Pending::Call(token.span),
            Some(Cell::Leaf(Leaf::NoArguments)),
        )),
        Kind::If => Some(names(called, token, Pending::Condition, None)),
        Kind::Open => Some(opens(Pending::Group)),
        Kind::Minus => Some(opens(Pending::Negative)),
        _ => None,
    }
}

/// What a token does behind a `$`.
pub(crate) fn varies(kind: Kind, token: Token) -> Option<Move>
    ensures { result ≡ varies kind token }
{
    match kind {
        Kind::If | Kind::Name => {
            Some(puts(Cell::Leaf(Leaf::Variable(token.span)), Place::After))
        }
        _ => None,
    }
}

/// What a token does where a step is due.
pub(crate) fn steps(kind: Kind, token: Token) -> Option<Move>
    ensures { result ≡ steps kind token }
{
    match kind {
        Kind::If | Kind::Name => Some(puts(Cell::Unary(Unary::Child(token.span)), Place::After)),
        Kind::Dot => Some(puts(Cell::Unary(token.step()), Place::After)),
        _ => None,
    }
}

/// The move to a place, where the condition holds.
pub(crate) fn goes_to(goes: bool, place: Place) -> Option<Move>
    ensures { result ≡ goes_to goes place }
{
    if goes { Some(leads(place)) } else { None }
}

/// What a token does that goes on with a path.
pub(crate) fn follows(kind: Kind) -> Option<Move>
    ensures { result ≡ follows kind }
{
    match kind {
        Kind::Slash => Some(leads(Place::Step)),
        Kind::OpenIndex => Some(opens(Pending::Index)),
        _ => None,
    }
}

pub(crate) fn is_open(kind: Kind) -> bool
    ensures { result ≡ is_open kind }
{
    match kind {
        Kind::Open => true,
        _ => false,
    }
}

pub(crate) fn is_then(kind: Kind) -> bool
    ensures { result ≡ is_then kind }
{
    match kind {
        Kind::Then => true,
        _ => false,
    }
}

/// What closes behind an operand.
pub(crate) fn closes(pending: Pending, kind: Kind) -> Option<Move>
    ensures { result ≡ closes pending kind }
{
    match pending {
        Pending::Group if kind == Kind::Close => Some(leads(Place::After)),
        Pending::Call(name) if kind == Kind::Close => Some(puts_both(
            Cell::Binary(Binary::Argument),
            Cell::Unary(Unary::Call(name)),
        )),
        Pending::Call(name) if kind == Kind::Comma => Some(Move {
            first: Some(Cell::Binary(Binary::Argument)),
            second: None,
            opens: Some(Pending::Call(name)),
            place: Place::Before,
        }),
        Pending::Index if kind == Kind::CloseIndex => {
            Some(puts(Cell::Binary(Binary::Item), Place::After))
        }
        Pending::Condition if kind == Kind::Close => Some(Move {
            first: None,
            second: None,
            opens: Some(Pending::Consequent),
            place: Place::Closed,
        }),
        Pending::Consequent if kind == Kind::Else => Some(opens(Pending::Alternative)),
        _ => None,
    }
}

/// What closes where an operand would begin.
pub(crate) fn closes_call(pending: Pending) -> Option<Move>
    ensures { result ≡ closes_call pending }
{
    match pending {
        Pending::Call(name) => Some(puts(Cell::Unary(Unary::Call(name)), Place::After)),
        _ => None,
    }
}

/// Whether the token is an operator, where it stands behind an operand.
pub(crate) fn is_operator(kind: Kind) -> bool
    ensures { result ≡ is_operator kind }
{
    match kind {
        Kind::Junction | Kind::Comparison | Kind::Minus | Kind::Calculation => true,
        _ => false,
    }
}

/// Whether the token closes something or divides it, where it stands behind an operand.
pub(crate) fn is_closing(kind: Kind) -> bool
    ensures { result ≡ is_closing kind }
{
    match kind {
        Kind::Close | Kind::Comma | Kind::CloseIndex | Kind::Else => true,
        _ => false,
    }
}
