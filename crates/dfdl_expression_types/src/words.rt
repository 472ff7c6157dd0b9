// The names in an expression's text, which are bytes of it.
ghost use Rattle.std.specs.Prelude.{◌≡◌, ◌<◌, length, option_map, IfSome};
ghost use Rattle.dfdl_expression_types.specs.Words as words;

use dfdl_expression_tree::Span;

/// The bytes of a text at a place, as far as there are any.
pub fn word(text: &[u8], span: Span) -> &[u8]
    ensures { result.now ≡ words.word text.now span }
{
    let to = span.to.min(text.len());
    let from = span.from.min(to);
    &text[from..to]
}

/// The place of the first colon.
fn colon_of(word: &[u8]) -> Option<usize>
    ensures place { result ≡ words.colon_of word.now }
    ensures within { IfSome result (λ place. place < length word.now) }
{
    word.iter().position(|b| *b == b':')
}

/// The local name of a name: what is behind its colon, if it has one.
pub fn local_of(word: &[u8]) -> &[u8]
    ensures { result.now ≡ words.local_of word.now }
{
    match colon_of(word) {
        Some(colon) => &word[colon + 1..],
        None => word,
    }
}

/// The prefix of a name, if it has one.
pub(crate) fn prefix_of(word: &[u8]) -> Option<&[u8]>
    ensures { option_map (λ p. p.now) result ≡ words.prefix_of word.now }
{
    match colon_of(word) {
        Some(colon) => Some(&word[..colon]),
        None => None,
    }
}
