// The literals of a list, put into a register.
#![tactic(auto)]

ghost use Rattle.std.specs.Prelude.{◌≡◌, ℕ, ◌+◌, ◌++◌, drop, length, nat_le, OnOk, OnErr};
ghost use Rattle.dfdl_delims.specs.Lists.{Opened, is_text_in};
ghost use Rattle.dfdl_delims.specs.Registers.{BeginsWith, filled, pieces_of, start_of, starts_of, units_of, with_units};
ghost use Rattle.dfdl_delims.specs.Verdicts.{IsPut, StandAt};

use crate::candidate::Candidate;
use crate::firsts::Firsts;
use crate::following::have_texts;
use crate::left::Left;
use crate::telling::firsts_of;
use dfdl_forms::{Encoding, Literals, Piece};
use std::alloc::AllocError;

// How many pieces a literal takes up.
fn units(literal: &[Piece]) -> usize
    ensures { result ≡ length (filled literal.now) }
{
    match literal {
        [] => 1,
        [_, ..] => literal.len(),
    }
}

/// Whether the literals take up no more than so many pieces.
pub(crate) fn fits(literals: &Literals, room: usize) -> bool
    ensures { result ≡ nat_le (units_of literals.now) room }
{
    let mut left = room;
    for at in 0..literals.len() {
        let units = units(literals.pieces(at));
        if units > left {
            return false;
        }
        left -= units;
    }
    true
}

/// So many pieces and those that the literals take up, if they are no more than a register can have room for.
pub(crate) fn with_units(before: u32, literals: &Literals) -> Option<u32>
    ensures { result ≡ with_units before literals.now }
{
    let mut sum = before;
    for at in 0..literals.len() {
        let units = units(literals.pieces(at));
        if units > (u32::MAX - sum) as usize {
            return None;
        }
        sum += units as u32;
    }
    Some(sum)
}

// Puts the pieces of a literal behind others.
fn put_pieces(literal: &[Piece], pieces: &mut Vec<Piece>) -> Result<(), AllocError>
    ensures pieces { OnOk result (pieces.new.items ≡ pieces.old.items ++ filled literal.now) }
    ensures kept { OnErr result (pieces.new.items ≡ pieces.old.items) }
{
    match literal {
        [] => {
            pieces.push(Piece::Nothing)?;
            Ok(())
        }
        [_, ..] => {
            pieces.extend_from_slice(literal)?;
            Ok(())
        }
    }
}

// Puts a literal behind others.
#[tactic(auto, unfolding(crate::specs::Registers::start_of))]
fn put_literal(
    place: usize,
    encoding: Encoding,
    fold: bool,
    literal: &[Piece],
    starts: &mut Vec<Candidate>,
    pieces: &mut Vec<Piece>,
) -> Result<(), AllocError>
    ensures starts { OnOk result (starts.new.items ≡ starts.old.items ++ start_of place encoding fold (length pieces.old.items) literal.now) }
    ensures pieces { OnOk result (pieces.new.items ≡ pieces.old.items ++ filled literal.now) }
    ensures kept { BeginsWith starts.old.items starts.new.items }
    ensures kept_pieces { BeginsWith pieces.old.items pieces.new.items }
{
    let at = pieces.len();
    put_pieces(literal, pieces)?;
    if have_texts(encoding, fold, literal) {
        starts.push(Candidate {
            list: place,
            encoding,
            fold,
            left: Left::Done,
            loops: false,
            at,
            end: pieces.len(),
        })?;
    }
    Ok(())
}

// Puts the literals of a list behind others.
fn put_literals(
    place: usize,
    encoding: Encoding,
    fold: bool,
    literals: &Literals,
    starts: &mut Vec<Candidate>,
    pieces: &mut Vec<Piece>,
) -> Result<(), AllocError>
    ensures starts { OnOk result (starts.new.items ≡ starts.old.items ++ starts_of place encoding fold (length pieces.old.items) literals.now) }
    ensures pieces { OnOk result (pieces.new.items ≡ pieces.old.items ++ pieces_of literals.now) }
    ensures kept { BeginsWith starts.old.items starts.new.items }
    ensures kept_pieces { BeginsWith pieces.old.items pieces.new.items }
{
    for at in 0..literals.len() {
        put_literal(place, encoding, fold, literals.pieces(at), starts, pieces)?;
    }
    Ok(())
}

// The begins from a place on.
fn behind(starts: &[Candidate], from: usize) -> &[Candidate]
    ensures { result.now ≡ drop from starts.now }
{
    match starts.get(from..) {
        Some(begins) => begins,
        None => &[],
    }
}

// Puts what is kept of the first bytes of a list's texts behind what is kept of others, where the list's begins stand from a place on.
fn put_firsts(
    pieces: &[Piece],
    starts: &[Candidate],
    from: usize,
    firsts: &mut Vec<Firsts>,
    scratch: &mut Vec<Candidate>,
) -> Result<(), AllocError>
    ensures put { OnOk result ((list : Opened) (place : ℕ) → StandAt pieces.now (drop from starts.now) place (is_text_in list)
        → IsPut firsts.old.items firsts.new.items list) }
    ensures kept { OnErr result (firsts.new.items ≡ firsts.old.items) }
{
    let first = firsts_of(pieces, behind(starts, from), scratch)?;
    firsts.push(first)?;
    Ok(())
}

/// Puts the literals of a list behind others, and what is kept of the first bytes of its texts.
pub(crate) fn put_list(
    place: usize,
    encoding: Encoding,
    fold: bool,
    literals: &Literals,
    starts: &mut Vec<Candidate>,
    pieces: &mut Vec<Piece>,
    firsts: &mut Vec<Firsts>,
    scratch: &mut Vec<Candidate>,
) -> Result<(), AllocError>
    ensures starts { OnOk result (starts.new.items ≡ starts.old.items ++ starts_of place encoding fold (length pieces.old.items) literals.now) }
    ensures pieces { OnOk result (pieces.new.items ≡ pieces.old.items ++ pieces_of literals.now) }
    ensures firsts { OnOk result (IsPut firsts.old.items firsts.new.items (record { encoding = encoding; fold = fold; literals = literals.now })) }
    ensures kept { BeginsWith starts.old.items starts.new.items }
    ensures kept_pieces { BeginsWith pieces.old.items pieces.new.items }
    ensures kept_firsts { OnErr result (firsts.new.items ≡ firsts.old.items) }
{
    let from = starts.len();
    put_literals(place, encoding, fold, literals, starts, pieces)?;
    put_firsts(pieces, starts, from, firsts, scratch)?;
    Ok(())
}
