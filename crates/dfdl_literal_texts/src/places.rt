// The places of a text at which the rest of a literal may begin.
#![tactic(auto)]

ghost use Rattle.std.specs.Prelude.{◌≡◌, ℕ, List, [], ◌∷◌, ◌+◌, ◌<◌, ◌≤◌, ◌||◌, length, drop, Bool, false, IfSome, Some, None};
ghost use Rattle.dfdl_literal_texts.specs.Texts.{after_any, after_piece, is_text, one_each, cases_of, line_breaks, spaces};
ghost use Rattle.dfdl_literal_texts.specs.Places.{at_front, goes, piece_front, some_front, rest_at, some_marked, split, taken_at};
ghost use Rattle.dfdl_forms.specs.declared.literals.Piece.TheVariants.{MaybeSpaces};

use crate::fronts::{byte_length, front_length, in_other_case, pair_length};
use dfdl_forms::{Encoding, Piece};

// The white space characters.
const WHITE_SPACE: [char; 26] = [
    '\u{9}', '\u{a}', '\u{b}', '\u{c}', '\u{d}', '\u{20}', '\u{85}', '\u{a0}', '\u{1680}',
    '\u{180e}', '\u{2000}', '\u{2001}', '\u{2002}', '\u{2003}', '\u{2004}', '\u{2005}', '\u{2006}',
    '\u{2007}', '\u{2008}', '\u{2009}', '\u{200a}', '\u{2028}', '\u{2029}', '\u{202f}', '\u{205f}',
    '\u{3000}',
];

// The line breaks of one character.
const LINE_ENDS: [char; 4] = ['\n', '\r', '\u{85}', '\u{2028}'];

// Marks the place behind a text that stands at a place.
#[tactic(auto, using(crate::proofs::Marks::mark_on))]
fn mark(front: Option<usize>, at: usize, places: &mut [bool])
    requires { IfSome front (λ n. at + n < length places.old) }
    ensures marks { (passes : ℕ → Bool) → some_marked places.new passes
        ≡ (some_marked places.old passes || at_front front (λ n. passes (at + n))) }
    ensures length { length places.new ≡ length places.old }
{
    if let Some(count) = front {
        places[at + count] = true;
    }
}

// Marks the place behind each of these characters that stands at a place.
fn mark_each(encoding: Encoding, characters: &[char], bytes: &[u8], at: usize, places: &mut [bool])
    requires { at + length bytes.now < length places.old }
    ensures marks { (passes : ℕ → Bool) → some_marked places.new passes
        ≡ (some_marked places.old passes || some_front encoding (one_each characters.now) bytes.now (λ n. passes (at + n))) }
    ensures length { length places.new ≡ length places.old }
{
    for c in characters {
        mark(front_length(encoding, *c, bytes), at, places);
    }
}

fn mark_cases(encoding: Encoding, fold: bool, c: char, bytes: &[u8], at: usize, places: &mut [bool])
    requires { at + length bytes.now < length places.old }
    ensures marks { (passes : ℕ → Bool) → some_marked places.new passes
        ≡ (some_marked places.old passes || some_front encoding (cases_of fold c) bytes.now (λ n. passes (at + n))) }
    ensures length { length places.new ≡ length places.old }
{
    if fold {
        mark_each(encoding, &[c, in_other_case(c)], bytes, at, places);
    } else {
        mark_each(encoding, &[c], bytes, at, places);
    }
}

#[tactic(auto, unfolding(crate::specs::Texts::line_breaks))]
fn mark_line_breaks(encoding: Encoding, bytes: &[u8], at: usize, places: &mut [bool])
    requires { at + length bytes.now < length places.old }
    ensures marks { (passes : ℕ → Bool) → some_marked places.new passes
        ≡ (some_marked places.old passes || some_front encoding line_breaks bytes.now (λ n. passes (at + n))) }
    ensures length { length places.new ≡ length places.old }
{
    mark(pair_length(encoding, '\r', '\n', bytes), at, places);
    mark_each(encoding, &LINE_ENDS, bytes, at, places);
}

// Marks the place behind each text of a piece that stands at a place; of any number of white space
// characters one is taken.
#[tactic(auto, unfolding(crate::specs::Places::piece_front, crate::specs::Texts::line_breaks, crate::specs::Texts::spaces, crate::specs::Texts::white_space))]
fn mark_behind(
    encoding: Encoding,
    fold: bool,
    piece: Piece,
    bytes: &[u8],
    at: usize,
    places: &mut [bool],
)
    requires { at + length bytes.now < length places.old }
    ensures marks { (passes : ℕ → Bool) → some_marked places.new passes
        ≡ (some_marked places.old passes || piece_front encoding fold piece bytes.now (λ n. passes (at + n))) }
    ensures length { length places.new ≡ length places.old }
{
    match piece {
        Piece::Char(c) => mark_cases(encoding, fold, c, bytes, at, places),
        Piece::Byte(byte) => mark(byte_length(byte, bytes), at, places),
        Piece::NewLine => mark_line_breaks(encoding, bytes, at, places),
        Piece::Space | Piece::Spaces | Piece::MaybeSpaces => {
            mark_each(encoding, &WHITE_SPACE, bytes, at, places);
        }
        Piece::Nothing => {}
    }
}

// Takes the mark off a place, and marks those behind a text of the piece there.
fn pass(encoding: Encoding, fold: bool, piece: Piece, bytes: &[u8], at: usize, places: &mut [bool])
    requires within { at < length places.old }
    requires last { length places.old ≡ length bytes.now + 1 }
    ensures passed { (is_rest : List ℕ → Bool)
        → some_marked places.new (split at (taken_at encoding fold piece is_rest bytes.now) (rest_at is_rest bytes.now))
        ≡ some_marked places.old (split (at + 1) (taken_at encoding fold piece is_rest bytes.now) (rest_at is_rest bytes.now)) }
    ensures length { length places.new ≡ length places.old }
{
    if places[at] {
        places[at] = false;
        mark_behind(encoding, fold, piece, &bytes[at..], at, places);
    }
}

// Moves the marks behind a text of the piece.
fn pass_all(encoding: Encoding, fold: bool, piece: Piece, bytes: &[u8], places: &mut [bool])
    requires last { length places.old ≡ length bytes.now + 1 }
    ensures passed { (is_rest : List ℕ → Bool)
        → goes places.new is_rest bytes.now ≡ some_marked places.old (taken_at encoding fold piece is_rest bytes.now) }
    ensures length { length places.new ≡ length places.old }
{
    for at in (0..places.len()).rev() {
        pass(encoding, fold, piece, bytes, at, places);
    }
}

// Where a place is marked, marks those behind a white space character there too.
fn spread(encoding: Encoding, bytes: &[u8], at: usize, places: &mut [bool])
    requires within { at < length places.old }
    requires last { length places.old ≡ length bytes.now + 1 }
    ensures spread { (is_rest : List ℕ → Bool)
        → some_marked places.new (split (at + 1) (rest_at is_rest bytes.now) (rest_at (after_any encoding spaces is_rest) bytes.now))
        ≡ some_marked places.old (split at (rest_at is_rest bytes.now) (rest_at (after_any encoding spaces is_rest) bytes.now)) }
    ensures length { length places.new ≡ length places.old }
{
    if places[at] {
        mark_behind(
            encoding,
            false,
            Piece::MaybeSpaces,
            &bytes[at..],
            at,
            places,
        );
    }
}

// Spreads the marks behind any number of white space characters.
fn spread_all(encoding: Encoding, bytes: &[u8], places: &mut [bool])
    requires last { length places.old ≡ length bytes.now + 1 }
    ensures spread { (is_rest : List ℕ → Bool)
        → goes places.new is_rest bytes.now ≡ goes places.old (after_any encoding spaces is_rest) bytes.now }
    ensures length { length places.new ≡ length places.old }
{
    for at in 0..places.len() {
        spread(encoding, bytes, at, places);
    }
}

// Moves the marks behind a piece.
fn step(encoding: Encoding, fold: bool, piece: Piece, bytes: &[u8], places: &mut [bool])
    requires last { length places.old ≡ length bytes.now + 1 }
    ensures stepped { (is_rest : List ℕ → Bool)
        → goes places.new is_rest bytes.now ≡ goes places.old (after_piece encoding fold piece is_rest) bytes.now }
    ensures length { length places.new ≡ length places.old }
{
    match piece {
        Piece::Nothing => {}
        Piece::MaybeSpaces => spread_all(encoding, bytes, places),
        Piece::Spaces => {
            pass_all(encoding, fold, piece, bytes, places);
            spread_all(encoding, bytes, places);
        }
        _ => pass_all(encoding, fold, piece, bytes, places),
    }
}

// Marks the first place alone.
fn begin(places: &mut [bool])
    requires { 0 < length places.old }
    ensures begun { (passes : ℕ → Bool) → some_marked places.new passes ≡ passes 0 }
    ensures length { length places.new ≡ length places.old }
{
    for place in 0..places.len() {
        places[place] = false;
    }
    places[0] = true;
}

// Whether the bytes are a text of the literal of these pieces.
pub fn is_text_of(
    encoding: Encoding,
    fold: bool,
    pieces: &[Piece],
    bytes: &[u8],
    places: &mut [bool],
) -> bool
    requires last { length places.old ≡ length bytes.now + 1 }
    ensures is { result ≡ is_text encoding fold pieces.now bytes.now }
    ensures length { length places.new ≡ length places.old }
{
    begin(places);
    for piece in pieces {
        step(encoding, fold, *piece, bytes, places);
    }
    places[bytes.len()]
}
