// What characters begin.
ghost use Rattle.std.specs.Prelude.{◌≡◌};
ghost use Rattle.dfdl_expression_text.specs.Tokens.{is_white, is_digit};
ghost use Rattle.dfdl_expression_text.specs.Machine.{class_of, sign_of, mark_of, stage_next, word_next};

use crate::kind::Kind;
use crate::piece::{Class, Piece, Quote, Stage, Word};
use dfdl_xml_chars::{is_name_char, is_name_start};

fn is_white(c: char) -> bool
    ensures { result ≡ is_white c }
{
    c == ' ' || (c == '\t' || (c == '\n' || c == '\r'))
}

pub(crate) fn is_digit(c: char) -> bool
    ensures { result ≡ is_digit c }
{
    '0' <= c && c <= '9'
}

/// What a character begins that is no letter.
#[tactic(auto, unfolding(crate::specs::Machine::sign_of))]
fn sign_of(c: char) -> Class
    ensures { result ≡ sign_of c }
{
    if c == '$' {
        Class::Sign(Kind::Dollar)
    } else if c == '/' {
        Class::Sign(Kind::Slash)
    } else if c == '(' {
        Class::Sign(Kind::Open)
    } else if c == ')' {
        Class::Sign(Kind::Close)
    } else if c == ',' {
        Class::Sign(Kind::Comma)
    } else if c == '[' {
        Class::Sign(Kind::OpenIndex)
    } else if c == ']' {
        Class::Sign(Kind::CloseIndex)
    } else if c == '-' {
        Class::Sign(Kind::Minus)
    } else if c == '+' || c == '*' {
        Class::Sign(Kind::Calculation)
    } else if c == '=' {
        Class::Sign(Kind::Comparison)
    } else {
        Class::Other
    }
}

/// What the character begins.
#[tactic(auto, unfolding(crate::specs::Machine::class_of))]
pub(crate) fn class_of(c: char) -> Class
    ensures { result ≡ class_of c }
{
    if is_white(c) {
        Class::White
    } else if c == '\'' {
        Class::Quote(Quote::Single)
    } else if c == '"' {
        Class::Quote(Quote::Double)
    } else if is_digit(c) {
        Class::Digit
    } else if c == '.' {
        Class::Point
    } else if c == '<' || c == '>' {
        Class::Angle
    } else if c == '!' {
        Class::Bang
    } else if is_name_start(c) {
        Class::Letter
    } else {
        sign_of(c)
    }
}

impl Quote {
    /// The character that begins and ends the text.
    pub(crate) fn mark(self) -> char
        ensures { result ≡ mark_of self }
    {
        match self {
            Quote::Single => '\'',
            Quote::Double => '"',
        }
    }
}

/// The stage in a part of a name, behind a character that isn't told apart.
#[tactic(auto, unfolding(crate::specs::Machine::stage_next))]
fn first_next(c: char) -> Option<Stage>
    ensures { result ≡ stage_next Stage.First c }
{
    if is_name_char(c) {
        Some(Stage::First)
    } else if c == ':' {
        Some(Stage::Colon)
    } else {
        None
    }
}

impl Stage {
    /// Where the name stands behind this character, if it goes on by it.
    #[tactic(auto, unfolding(crate::specs::Machine::stage_next))]
    pub(crate) fn next(self, c: char) -> Option<Stage>
        ensures { result ≡ stage_next self c }
    {
        match self {
            Stage::Colon => {
                if is_name_start(c) {
                    Some(Stage::Second)
                } else {
                    None
                }
            }
            Stage::Second => {
                if is_name_char(c) {
                    Some(Stage::Second)
                } else {
                    None
                }
            }
            Stage::AfterI => {
                if c == 'f' {
                    Some(Stage::AfterIf)
                } else {
                    first_next(c)
                }
            }
            Stage::AfterIf | Stage::First => first_next(c),
        }
    }
}

impl Word {
    /// The letter by which the operator goes on.
    pub(crate) fn letter(self) -> char
        ensures { result ≡ (word_next self).0 }
    {
        match self {
            Word::D | Word::Div => 'd',
            Word::Nd | Word::N => 'n',
            Word::Od => 'o',
            Word::V => 'v',
            Word::Iv => 'i',
            Word::R => 'r',
            Word::E | Word::En => 'e',
            Word::Se => 's',
            Word::Hen => 'h',
        }
    }

    /// What is read of it behind that letter.
    pub(crate) fn rest(self) -> Piece
        ensures { result ≡ (word_next self).1 }
    {
        match self {
            Word::Nd | Word::Od => Piece::Word(Word::D),
            Word::Iv => Piece::Word(Word::V),
            Word::Div => Piece::Word(Word::Iv),
            Word::Se => Piece::Word(Word::E),
            Word::En => Piece::Word(Word::N),
            Word::Hen => Piece::Word(Word::En),
            Word::D | Word::V | Word::R | Word::E | Word::N => Piece::Spelled,
        }
    }
}
