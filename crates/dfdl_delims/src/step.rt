// The candidates that others come to by a byte.
#![tactic(auto)]

ghost use Rattle.std.specs.Prelude.{◌≡◌, ℕ, ◌+◌, List, false, [], ◌∷◌, OnOk};
ghost use Rattle.dfdl_forms.specs.declared.encoding.Encoding.{Encoding as AnyEncoding};
ghost use Rattle.dfdl_literal_texts.specs.Texts.{other_case};
ghost use Rattle.dfdl_delims.specs.Candidates.{Adds, IsNext, begun_each, begun_from, begun_line_break, begun_loop, begun_piece, cases, complete, further, passes, pieces_from, some_dead, step, stepped};

use crate::candidate::{Candidate, add_left};
use crate::left::{Left, behind, behind_pair, left_then};
use dfdl_forms::Piece;
use std::alloc::AllocError;

// The white space characters.
const WHITE_SPACE: [char; 26] = [
    '\u{9}', '\u{a}', '\u{b}', '\u{c}', '\u{d}', '\u{20}', '\u{85}', '\u{a0}', '\u{1680}',
    '\u{180e}', '\u{2000}', '\u{2001}', '\u{2002}', '\u{2003}', '\u{2004}', '\u{2005}', '\u{2006}',
    '\u{2007}', '\u{2008}', '\u{2009}', '\u{200a}', '\u{2028}', '\u{2029}', '\u{202f}', '\u{205f}',
    '\u{3000}',
];

// The line breaks of one character.
const LINE_ENDS: [char; 4] = ['\n', '\r', '\u{85}', '\u{2028}'];

// An ASCII letter in its other case, and any other character.
pub(crate) fn in_other_case(c: char) -> char
    ensures { result ≡ other_case c }
{
    match c {
        'A'..='Z' => c.to_ascii_lowercase(),
        'a'..='z' => c.to_ascii_uppercase(),
        _ => c,
    }
}

// Adds what the first byte of one of these characters comes to.
fn add_each(
    characters: &[char],
    byte: u8,
    next: Candidate,
    into: &mut Vec<Candidate>,
) -> Result<(), AllocError>
    ensures { OnOk result (Adds into.old.items (begun_each characters.now byte next) into.new.items) }
{
    for c in characters {
        add_left(behind(next.encoding, *c, byte), next, into)?;
    }
    Ok(())
}

fn add_cases(
    c: char,
    byte: u8,
    next: Candidate,
    into: &mut Vec<Candidate>,
) -> Result<(), AllocError>
    ensures { OnOk result (Adds into.old.items (begun_each (cases next.fold c) byte next) into.new.items) }
{
    if next.fold {
        add_each(&[c, in_other_case(c)], byte, next, into)
    } else {
        add_each(&[c], byte, next, into)
    }
}

#[tactic(auto, using(crate::proofs::Adding::adds_both), unfolding(crate::specs::Candidates::begun_line_break, crate::specs::Candidates::line_ends))]
fn add_line_break(byte: u8, next: Candidate, into: &mut Vec<Candidate>) -> Result<(), AllocError>
    ensures { OnOk result (Adds into.old.items (begun_line_break byte next) into.new.items) }
{
    add_left(behind_pair(next.encoding, byte), next, into)?;
    add_each(&LINE_ENDS, byte, next, into)
}

// Adds what the first byte of a piece comes to.
#[tactic(auto, using(crate::proofs::Adding::adds_none), unfolding(crate::specs::Candidates::begun_piece, dfdl_literal_texts::specs::Texts::white_space))]
fn add_piece(
    piece: Piece,
    byte: u8,
    next: Candidate,
    into: &mut Vec<Candidate>,
) -> Result<(), AllocError>
    ensures { OnOk result (Adds into.old.items (begun_piece piece byte next) into.new.items) }
{
    match piece {
        Piece::Char(c) => add_cases(c, byte, next, into),
        Piece::Byte(first) => add_left(left_then(Left::One(first), byte), next, into),
        Piece::NewLine => add_line_break(byte, next, into),
        Piece::Space => add_each(&WHITE_SPACE, byte, next, into),
        Piece::Spaces | Piece::MaybeSpaces => add_each(
            &WHITE_SPACE,
            byte,
            Candidate {
                loops: true,
                ..next
            },
            into,
        ),
        Piece::Nothing => Ok(()),
    }
}

// Whether a piece can stand for nothing.
pub(crate) fn passes(piece: Piece) -> bool
    ensures { result ≡ passes piece }
{
    matches!(piece, Piece::MaybeSpaces | Piece::Nothing)
}

// The piece at a place before the end.
#[tactic(auto, using(crate::proofs::Pieces::no_piece, crate::proofs::Pieces::a_piece))]
pub(crate) fn piece_at(pieces: &[Piece], at: usize, end: usize) -> Option<Piece>
    ensures { IsNext pieces.now at end result }
{
    if at >= end {
        return None;
    }
    match pieces.get(at) {
        Some(piece) => Some(*piece),
        None => None,
    }
}

// Adds what the first byte of the pieces before a candidate comes to.
fn add_from(
    pieces: &[Piece],
    byte: u8,
    candidate: Candidate,
    into: &mut Vec<Candidate>,
) -> Result<(), AllocError>
    ensures { OnOk result (Adds into.old.items (begun_from (pieces_from pieces.now candidate.at candidate.end) byte candidate) into.new.items) }
{
    let mut place = candidate;
    'pieces: loop {
        match piece_at(pieces, place.at, place.end) {
            None => return Ok(()),
            Some(piece) => {
                let next = Candidate {
                    at: place.at + 1,
                    ..place
                };
                add_piece(piece, byte, next, into)?;
                if !passes(piece) {
                    return Ok(());
                }
                place = next;
            }
        }
    }
}

// Adds what the first byte of white space comes to, where it loops.
#[tactic(auto, using(crate::proofs::Adding::adds_none), unfolding(crate::specs::Candidates::begun_loop, dfdl_literal_texts::specs::Texts::white_space))]
fn add_loop(byte: u8, candidate: Candidate, into: &mut Vec<Candidate>) -> Result<(), AllocError>
    ensures { OnOk result (Adds into.old.items (begun_loop candidate.loops byte candidate) into.new.items) }
{
    if candidate.loops {
        return add_each(&WHITE_SPACE, byte, candidate, into);
    }
    Ok(())
}

// Adds what a candidate comes to by a byte.
#[tactic(auto, using(crate::proofs::Adding::adds_both), unfolding(crate::specs::Candidates::stepped))]
fn add_step(
    pieces: &[Piece],
    byte: u8,
    candidate: Candidate,
    into: &mut Vec<Candidate>,
) -> Result<(), AllocError>
    ensures { OnOk result (Adds into.old.items (stepped pieces.now byte candidate.left candidate) into.new.items) }
{
    match candidate.left {
        Left::Done => {
            add_loop(byte, candidate, into)?;
            add_from(
                pieces,
                byte,
                Candidate {
                    loops: false,
                    ..candidate
                },
                into,
            )
        }
        left => add_left(left_then(left, byte), candidate, into),
    }
}

/// The candidates that others come to by a byte.
#[tactic(auto, using(crate::proofs::Completing::advanced))]
pub(crate) fn advance(
    pieces: &[Piece],
    byte: u8,
    from: &[Candidate],
    into: &mut Vec<Candidate>,
) -> Result<(), AllocError>
    ensures adds { OnOk result (Adds [] (step pieces.now byte from.now) into.new.items) }
    ensures dead { OnOk result (some_dead pieces.now from.now ≡ false → some_dead pieces.now into.new.items ≡ false) }
    ensures completes { OnOk result ((place : ℕ) (rest : List ℕ)
        → complete pieces.now place into.new.items rest ≡ complete pieces.now place from.now (byte ∷ rest)) }
{
    into.clear();
    for candidate in from {
        add_step(pieces, byte, *candidate, into)?;
    }
    Ok(())
}
