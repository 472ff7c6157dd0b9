/// What was read of a token whose first byte has been read.
#[derive(Clone, Copy, Debug, PartialEq, Eq)]
pub(crate) enum Piece {
    /// White space before it.
    White,
    /// A name, or an operator that is a word.
    Word,
    /// A number.
    Digits,
    /// Inside of a text in these quotes.
    Text(u8),
    /// Behind a quote that ends the text or is the first of two.
    Quoted(u8),
    /// A point, which may be a step, the first of two, or the begin of a number.
    Point,
    /// An operator that a `=` may make longer.
    MayEqual,
    /// A token that can't be longer.
    Whole,
}
