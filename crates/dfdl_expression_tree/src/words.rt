// What words and signs are.
ghost use Rattle.std.specs.Prelude.{◌≡◌, length};
ghost use Rattle.dfdl_expression_tree.specs.TokenLists.{operator_of, is_text, form_of};
ghost use Rattle.dfdl_expression_tree.specs.Lexing.{worded, signed, kind_of_word, kind_of_point, kind_of, ends_operand};

use crate::bytes::{begun, is_quote};
use crate::piece::Piece;
use crate::token::{Form, Operator};
use dfdl_expression_text::Kind;

/// What an operator that is spelled so does, where it stands between operands.
#[tactic(auto, unfolding(crate::specs::TokenLists::operator_of))]
fn operator_of(word: &[u8]) -> Operator
    ensures { result ≡ operator_of word.now }
{
    if word == b"or".as_slice() {
        Operator::Or
    } else if word == b"and".as_slice() {
        Operator::And
    } else if word == b"=".as_slice() || word == b"eq".as_slice() {
        Operator::Equal
    } else if word == b"!=".as_slice() || word == b"ne".as_slice() {
        Operator::NotEqual
    } else if word == b"<".as_slice() || word == b"lt".as_slice() {
        Operator::Less
    } else if word == b"<=".as_slice() || word == b"le".as_slice() {
        Operator::LessOrEqual
    } else if word == b">".as_slice() || word == b"gt".as_slice() {
        Operator::Greater
    } else if word == b">=".as_slice() || word == b"ge".as_slice() {
        Operator::GreaterOrEqual
    } else if word == b"+".as_slice() {
        Operator::Plus
    } else if word == b"-".as_slice() {
        Operator::Minus
    } else if word == b"*".as_slice() {
        Operator::Times
    } else if word == b"div".as_slice() {
        Operator::Divide
    } else if word == b"idiv".as_slice() {
        Operator::WholeDivide
    } else {
        Operator::Remainder
    }
}

fn is_text(word: &[u8]) -> bool
    ensures { result ≡ is_text word.now }
{
    match word {
        [] => false,
        [first, ..] => is_quote(*first),
    }
}

/// What tells a token of this kind that is spelled so from others of the kind.
pub(crate) fn form_of(kind: Kind, word: &[u8]) -> Form
    ensures { result ≡ form_of kind word.now }
{
    match kind {
        Kind::Literal => {
            if is_text(word) {
                Form::Text
            } else {
                Form::Number
            }
        }
        Kind::Dot => {
            if word == b".".as_slice() {
                Form::Here
            } else {
                Form::Parent
            }
        }
        Kind::Minus | Kind::Calculation | Kind::Comparison | Kind::Junction => {
            Form::Operation(operator_of(word))
        }
        _ => Form::Plain,
    }
}

/// The kind of an operator that is a word.
#[tactic(auto, unfolding(crate::specs::Lexing::worded))]
fn worded(word: &[u8]) -> Kind
    ensures { result ≡ worded word.now }
{
    if word == b"and".as_slice() || word == b"or".as_slice() {
        Kind::Junction
    } else if word == b"div".as_slice()
        || (word == b"idiv".as_slice() || word == b"mod".as_slice())
    {
        Kind::Calculation
    } else if word == b"then".as_slice() {
        Kind::Then
    } else if word == b"else".as_slice() {
        Kind::Else
    } else {
        Kind::Comparison
    }
}

/// The kind of a sign.
#[tactic(auto, unfolding(crate::specs::Lexing::signed))]
fn signed(b: u8) -> Kind
    ensures { result ≡ signed b }
{
    if b == b'$' {
        Kind::Dollar
    } else if b == b'/' {
        Kind::Slash
    } else if b == b'(' {
        Kind::Open
    } else if b == b')' {
        Kind::Close
    } else if b == b',' {
        Kind::Comma
    } else if b == b'[' {
        Kind::OpenIndex
    } else if b == b']' {
        Kind::CloseIndex
    } else if b == b'-' {
        Kind::Minus
    } else if b == b'=' {
        Kind::Comparison
    } else {
        Kind::Calculation
    }
}

/// The kind of a name or, behind an operand, of an operator.
fn kind_of_word(ended: bool, word: &[u8]) -> Kind
    ensures { result ≡ kind_of_word ended word.now }
{
    if ended {
        worded(word)
    } else if word == b"if".as_slice() {
        Kind::If
    } else {
        Kind::Name
    }
}

/// The kind of a token that begins with a point, by what stands behind the point.
fn kind_of_point(bytes: &[u8]) -> Kind
    ensures { result ≡ kind_of_point bytes.now }
{
    match bytes {
        [] => Kind::Dot,
        [first, ..] => {
            if *first == b'.' {
                Kind::Dot
            } else {
                Kind::Literal
            }
        }
    }
}

/// The kind of a token, where an operand has ended before it or not.
pub(crate) fn kind_of(ended: bool, word: &[u8]) -> Kind
    ensures { result ≡ kind_of ended word.now }
{
    match word {
        [] => Kind::Literal,
        [first, rest @ ..] => match begun(*first) {
            Piece::Word => kind_of_word(ended, word),
            Piece::Point => kind_of_point(rest),
            Piece::MayEqual => Kind::Comparison,
            Piece::Whole => signed(*first),
            Piece::White | Piece::Digits | Piece::Text(_) | Piece::Quoted(_) => Kind::Literal,
        },
    }
}

/// Whether an operand may end with a token of this kind.
pub(crate) fn ends_operand(kind: Kind) -> bool
    ensures { result ≡ ends_operand kind }
{
    match kind {
        Kind::If | Kind::Name | Kind::Literal | Kind::Dot | Kind::Close | Kind::CloseIndex => true,
        _ => false,
    }
}
