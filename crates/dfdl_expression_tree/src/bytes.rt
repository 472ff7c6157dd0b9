// What bytes begin, and by which ones a token goes on.
ghost use Rattle.std.specs.Prelude.{◌≡◌, ◌+◌, ◌≤◌, length, drop, if◌then◌else◌};
ghost use Rattle.dfdl_expression_text.specs.Tokens.{is_white, is_digit, is_quote};
ghost use Rattle.dfdl_expression_tree.specs.Lexing.{begins_word, is_in_word, begun, goes, rest_of};

use crate::piece::Piece;

fn is_white(b: u8) -> bool
    ensures { result ≡ is_white b }
{
    b == b' ' || (b == b'\t' || (b == b'\n' || b == b'\r'))
}

fn is_digit(b: u8) -> bool
    ensures { result ≡ is_digit b }
{
    b'0' <= b && b <= b'9'
}

pub(crate) fn is_quote(b: u8) -> bool
    ensures { result ≡ is_quote b }
{
    b == b'\'' || b == b'"'
}

/// Whether the byte may begin a word.
#[tactic(auto, unfolding(crate::specs::Lexing::begins_word))]
fn begins_word(b: u8) -> bool
    ensures { result ≡ begins_word b }
{
    128 <= b || ((b'A' <= b && b <= b'Z') || (b == b'_' || (b'a' <= b && b <= b'z')))
}

/// Whether the byte may stand in a word.
#[tactic(auto, unfolding(crate::specs::Lexing::is_in_word))]
fn is_in_word(b: u8) -> bool
    ensures { result ≡ is_in_word b }
{
    begins_word(b) || ((b'-' <= b && b <= b'.') || (b'0' <= b && b <= b':'))
}

/// What the byte begins.
#[tactic(auto, unfolding(crate::specs::Lexing::begun))]
pub(crate) fn begun(b: u8) -> Piece
    ensures { result ≡ begun b }
{
    if is_quote(b) {
        Piece::Text(b)
    } else if is_digit(b) {
        Piece::Digits
    } else if b == b'.' {
        Piece::Point
    } else if (b == b'<' || b == b'>') || b == b'!' {
        Piece::MayEqual
    } else if begins_word(b) {
        Piece::Word
    } else {
        Piece::Whole
    }
}

/// The piece, where the condition holds.
fn piece_if(goes: bool, piece: Piece) -> Option<Piece>
    ensures { result ≡ (if goes then Some piece else None) }
{
    if goes { Some(piece) } else { None }
}

/// What a `.` goes on to by the byte.
fn point_next(b: u8) -> Option<Piece>
    ensures { result ≡ goes Piece.Point b }
{
    if b == b'.' {
        Some(Piece::Whole)
    } else {
        piece_if(is_digit(b), Piece::Digits)
    }
}

impl Piece {
    /// What it goes on to by the byte, if it goes on.
    fn next(self, b: u8) -> Option<Piece>
        ensures { result ≡ goes self b }
    {
        match self {
            Piece::White => piece_if(is_white(b), Piece::White),
            Piece::Word => piece_if(is_in_word(b), Piece::Word),
            Piece::Digits => piece_if(is_digit(b) || b == b'.', Piece::Digits),
            Piece::Text(quote) => {
                if b == quote {
                    Some(Piece::Quoted(quote))
                } else {
                    Some(Piece::Text(quote))
                }
            }
            Piece::Quoted(quote) => piece_if(b == quote, Piece::Text(quote)),
            Piece::Point => point_next(b),
            Piece::MayEqual => piece_if(b == b'=', Piece::Whole),
            Piece::Whole => None,
        }
    }
}

/// The place behind the bytes by which a piece goes on that stands before a place.
pub(crate) fn end_of(bytes: &[u8], from: usize, piece: Piece) -> usize
    requires { from ≤ length bytes.now }
    ensures end { result ≡ from + rest_of piece (drop from bytes.now) }
    ensures within { result ≤ length bytes.now }
{
    let mut last = piece;
    for at in from..bytes.len() {
        match last.next(bytes[at]) {
            Some(next) => last = next,
            None => return at,
        }
    }
    bytes.len()
}
