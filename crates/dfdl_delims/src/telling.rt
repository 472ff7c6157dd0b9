// What the first bytes of a list's texts tell.
#![tactic(auto)]

ghost use Rattle.std.specs.Prelude.{◌≡◌, ℕ, ◌<◌, ◌&&◌, ◌||◌, nat_eq, List, [], ◌∷◌, Bool, true, false, IfOk};
ghost use Rattle.dfdl_bits.specs.ByteSets.{has_byte};
ghost use Rattle.dfdl_delims.specs.Firsts.{HasByte, Tells};
ghost use Rattle.dfdl_delims.specs.Verdicts.{IsTold, StandAt};

use crate::candidate::Candidate;
use crate::finding::{innermost, some_more};
use crate::firsts::Firsts;
use crate::step::advance;
use dfdl_bits::ByteSet;
use dfdl_forms::Piece;
use std::alloc::AllocError;

// Whether the bytes that were seen are a text.
fn some_whole(pieces: &[Piece], live: &[Candidate]) -> bool
    ensures { (place : ℕ) (is_text : List ℕ → Bool) → StandAt pieces.now live.now place is_text → result ≡ is_text [] }
{
    innermost(pieces, live).is_some()
}

// Whether a text has more bytes.
fn some_longer(pieces: &[Piece], live: &[Candidate]) -> bool
    ensures some { (place : ℕ) (is_text : List ℕ → Bool) → StandAt pieces.now live.now place is_text → result ≡ true → HasByte is_text }
    ensures none { (place : ℕ) (is_text : List ℕ → Bool) → StandAt pieces.now live.now place is_text → result ≡ false
        → (byte : ℕ) (rest : List ℕ) → is_text (byte ∷ rest) ≡ false }
{
    some_more(pieces, live)
}

// Whether a byte alone is a text, and whether longer ones begin with it.
fn told(
    pieces: &[Piece],
    begins: &[Candidate],
    byte: u8,
    scratch: &mut Vec<Candidate>,
) -> Result<(bool, bool), AllocError>
    ensures { IfOk result (λ told. (place : ℕ) (is_text : List ℕ → Bool) → StandAt pieces.now begins.now place is_text
        → IsTold told.0 told.1 is_text byte) }
{
    advance(pieces, byte, begins, scratch)?;
    Ok((some_whole(pieces, scratch), some_longer(pieces, scratch)))
}

// The set with a byte, if it counts.
fn with_if(set: ByteSet, byte: u8, counts: bool) -> ByteSet
    ensures { (other : ℕ) → other < 256 → has_byte result other ≡ (has_byte set other || (nat_eq byte other && counts)) }
{
    if counts {
        return set.or(ByteSet::of(byte));
    }
    set
}

/// What is kept of the first bytes of a list's texts, by the begins of its literals.
pub(crate) fn firsts_of(
    pieces: &[Piece],
    begins: &[Candidate],
    scratch: &mut Vec<Candidate>,
) -> Result<Firsts, AllocError>
    ensures { IfOk result (λ firsts. (place : ℕ) (is_text : List ℕ → Bool) → StandAt pieces.now begins.now place is_text → Tells firsts is_text) }
{
    let mut ones = ByteSet::none();
    let mut more = ByteSet::none();
    for byte in 0..256u16 {
        let (alone, longer) = told(pieces, begins, byte as u8, scratch)?;
        ones = with_if(ones, byte as u8, alone);
        more = with_if(more, byte as u8, longer);
    }
    Ok(Firsts {
        ones,
        more,
        empty: some_whole(pieces, begins),
        some: some_longer(pieces, begins),
    })
}
