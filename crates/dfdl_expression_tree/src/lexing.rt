// Finds the tokens of an expression.
ghost use Rattle.std.specs.Prelude.{◌≡◌, ℕ, ◌+◌, ◌<◌, ◌≤◌, ◌^◌, length, drop, IfOk, IfSome};
ghost use Rattle.dfdl_expression_text.specs.Expressions.{ReadsBytes};
ghost use Rattle.dfdl_expression_tree.specs.Lexing.{token_by, next_token};
ghost use Rattle.dfdl_expression_tree.specs.Readings.{tokens_of};

use crate::bytes::{begun, end_of};
use crate::piece::Piece;
use crate::token::{Span, Token};
use crate::words::{ends_operand, form_of, kind_of};
use std::alloc::{AllocError, Global};

/// The token with these bytes, of which the first has this number.
fn token_by(ended: bool, from: usize, word: &[u8]) -> Token
    requires { from + length word.now < 2 ^ 64 }
    ensures { result ≡ token_by ended from word.now }
{
    let kind = kind_of(ended, word);
    let form = form_of(kind, word);
    let span = Span {
        from,
        to: from + word.len(),
    };
    Token { kind, form, span }
}

/// The token that comes next from a place on.
fn next_token(bytes: &[u8], at: usize, ended: bool) -> Option<Token>
    requires { at ≤ length bytes.now }
    ensures token { result ≡ next_token ended at (drop at bytes.now) }
    ensures further { IfSome result (λ t. at < t.span.to) }
    ensures within { IfSome result (λ t. t.span.to ≤ length bytes.now) }
{
    let from = end_of(bytes, at, Piece::White);
    if from >= bytes.len() {
        return None;
    }
    let to = end_of(bytes, from + 1, begun(bytes[from]));
    Some(token_by(ended, from, &bytes[from..to]))
}

/// The tokens of a text that is an expression. Those of another text can be any.
pub(crate) fn tokens_of(alloc: Global, bytes: &[u8]) -> Result<Vec<Token>, AllocError>
    ensures { IfOk result (λ tokens. (count : ℕ) (reads : ReadsBytes count bytes.now) → tokens.items ≡ tokens_of reads) }
{
    let mut tokens = Vec::new(alloc);
    let mut at = 0;
    let mut ended = false;
    while let Some(token) = next_token(bytes, at, ended) {
        tokens.push(token)?;
        at = token.span.to;
        ended = ends_operand(token.kind);
    }
    Ok(tokens)
}
