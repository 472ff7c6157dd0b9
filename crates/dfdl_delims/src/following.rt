// What may follow the bytes that were seen.
#![tactic(auto)]

ghost use Rattle.std.specs.Prelude.{◌≡◌, ◌+◌, [], ◌∷◌};
ghost use Rattle.std.specs.List.{list_all, list_any};
ghost use Rattle.dfdl_chars.specs.Encodings.{encoded_of};
ghost use Rattle.dfdl_delims.specs.Candidates.{cases, completes, has_more, has_one, has_text, have_texts, is_done, is_nothing, is_there, passes, pieces_from};

use crate::candidate::Candidate;
use crate::left::Left;
use crate::step::{in_other_case, passes, piece_at};
use dfdl_chars::encode;
use dfdl_forms::{Encoding, Piece};

fn is_there(encoding: Encoding, c: char) -> bool
    ensures { result ≡ is_there (encoded_of encoding c) }
{
    let mut room = [0; 4];
    match encode(encoding, c, &mut room) {
        Ok(_) => true,
        Err(_) => false,
    }
}

// Whether the encoding has the character in one of its cases.
fn has_case(encoding: Encoding, fold: bool, c: char) -> bool
    ensures { result ≡ has_one encoding (cases fold c) }
{
    if is_there(encoding, c) {
        return true;
    }
    if fold {
        return is_there(encoding, in_other_case(c));
    }
    false
}

fn has_text(encoding: Encoding, fold: bool, piece: Piece) -> bool
    ensures { result ≡ has_text encoding fold piece }
{
    match piece {
        Piece::Char(c) => has_case(encoding, fold, c),
        _ => true,
    }
}

/// Whether each of the pieces has a text.
#[tactic(auto, unfolding(crate::specs::Candidates::have_texts))]
pub(crate) fn have_texts(encoding: Encoding, fold: bool, pieces: &[Piece]) -> bool
    ensures { result ≡ have_texts encoding fold pieces.now }
{
    for piece in pieces {
        if !has_text(encoding, fold, *piece) {
            return false;
        }
    }
    true
}

fn is_nothing(piece: Piece) -> bool
    ensures { result ≡ is_nothing piece }
{
    matches!(piece, Piece::Nothing)
}

fn is_done(left: Left) -> bool
    ensures { result ≡ is_done left }
{
    matches!(left, Left::Done)
}

// Whether each piece from a place on can stand for nothing.
fn all_pass(pieces: &[Piece], from: usize, end: usize) -> bool
    ensures { result ≡ list_all passes (pieces_from pieces.now from end) }
{
    let mut at = from;
    'pieces: loop {
        match piece_at(pieces, at, end) {
            None => return true,
            Some(piece) => {
                if !passes(piece) {
                    return false;
                }
                at += 1;
            }
        }
    }
}

// Whether each piece from a place on stands for nothing.
fn are_nothing(pieces: &[Piece], from: usize, end: usize) -> bool
    ensures { result ≡ list_all is_nothing (pieces_from pieces.now from end) }
{
    let mut at = from;
    'pieces: loop {
        match piece_at(pieces, at, end) {
            None => return true,
            Some(piece) => {
                if !is_nothing(piece) {
                    return false;
                }
                at += 1;
            }
        }
    }
}

/// Whether the bytes that were seen are a text.
#[tactic(auto, using(crate::proofs::Ahead::whole))]
pub(crate) fn is_whole(pieces: &[Piece], candidate: Candidate) -> bool
    ensures { result ≡ completes pieces.now candidate [] }
{
    if !is_done(candidate.left) {
        return false;
    }
    all_pass(pieces, candidate.at, candidate.end)
}

/// Whether a text has more bytes, if the candidate isn't dead.
pub(crate) fn has_more(pieces: &[Piece], candidate: Candidate) -> bool
    ensures { result ≡ has_more pieces.now candidate }
{
    if !is_done(candidate.left) {
        return true;
    }
    if candidate.loops {
        return true;
    }
    !are_nothing(pieces, candidate.at, candidate.end)
}
