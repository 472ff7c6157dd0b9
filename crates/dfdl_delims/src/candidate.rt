// What may still follow some bytes of a text.
#![tactic(auto)]

ghost use Rattle.std.specs.Prelude.{◌≡◌, ◌||◌, [], ◌∷◌, Bool, true, false, OnOk};
ghost use Rattle.std.specs.List.{list_any};
ghost use Rattle.dfdl_delims.specs.declared.candidate.Candidate.{Candidate as AnyCandidate};
ghost use Rattle.dfdl_delims.specs.Candidates.{Adds, begun};

use crate::left::Left;
use dfdl_forms::Encoding;
use std::alloc::AllocError;

/// A way in which the bytes that were seen begin a text of a literal: its list, by its number in a register or its place among the
/// open ones, the bytes that are left of a character, white space where it loops, and the pieces from a place on to the end of the
/// literal.
#[derive(Debug, Clone, Copy, Drop)]
pub(crate) struct Candidate {
    pub list: usize,
    pub encoding: Encoding,
    pub fold: bool,
    pub left: Left,
    pub loops: bool,
    pub at: usize,
    pub end: usize,
}

fn is_same_encoding(first: Encoding, second: Encoding) -> bool
    ensures { result ≡ true → first ≡ second }
{
    match first {
        Encoding::Utf8 => matches!(second, Encoding::Utf8),
        Encoding::UsAscii => matches!(second, Encoding::UsAscii),
        Encoding::Iso88591 => matches!(second, Encoding::Iso88591),
        Encoding::Utf16Be => matches!(second, Encoding::Utf16Be),
        Encoding::Utf16Le => matches!(second, Encoding::Utf16Le),
    }
}

fn is_same_left(first: Left, second: Left) -> bool
    ensures { result ≡ true → first ≡ second }
{
    match (first, second) {
        (Left::Done, Left::Done) => true,
        (Left::One(a), Left::One(b)) => a == b,
        (Left::Two(a, b), Left::Two(c, d)) => a == c && b == d,
        (Left::Three(a, b, c), Left::Three(d, e, f)) => a == d && b == e && c == f,
        _ => false,
    }
}

#[tactic(auto, using(crate::proofs::Adding::one_candidate))]
fn is_same(first: Candidate, second: Candidate) -> bool
    ensures { result ≡ true → first ≡ second }
{
    if !is_same_encoding(first.encoding, second.encoding) {
        return false;
    }
    if !is_same_left(first.left, second.left) {
        return false;
    }
    if first.fold != second.fold || first.loops != second.loops {
        return false;
    }
    first.list == second.list && first.at == second.at && first.end == second.end
}

// Whether the candidate is one of these.
fn holds(candidates: &[Candidate], candidate: Candidate) -> bool
    ensures { result ≡ true → (test : AnyCandidate → Bool) → list_any test candidates.now ≡ (list_any test candidates.now || list_any test (candidate ∷ [])) }
{
    for other in candidates {
        if is_same(*other, candidate) {
            return true;
        }
    }
    false
}

#[tactic(auto, using(crate::proofs::Adding::adds_one))]
/// Adds a candidate, if it isn't there.
pub(crate) fn add(candidate: Candidate, into: &mut Vec<Candidate>) -> Result<(), AllocError>
    ensures { OnOk result (Adds into.old.items (candidate ∷ []) into.new.items) }
{
    if holds(into, candidate) {
        return Ok(());
    }
    into.push(candidate)?;
    Ok(())
}

#[tactic(auto, using(crate::proofs::Adding::adds_none), unfolding(crate::specs::Candidates::begun))]
/// Adds the candidate with so much left, if anything.
pub(crate) fn add_left(
    left: Option<Left>,
    next: Candidate,
    into: &mut Vec<Candidate>,
) -> Result<(), AllocError>
    ensures { OnOk result (Adds into.old.items (begun left next) into.new.items) }
{
    match left {
        None => Ok(()),
        Some(left) => add(Candidate { left, ..next }, into),
    }
}
