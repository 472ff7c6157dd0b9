/// Where in a name the next character stands.
#[derive(Clone, Copy, Debug, PartialEq, Eq)]
pub(crate) enum Stage {
    /// Behind an `i` alone.
    AfterI,
    /// Behind `if` alone.
    AfterIf,
    /// Behind any other part of a name that has no colon.
    First,
    /// Behind the colon.
    Colon,
    /// In the part behind the colon.
    Second,
}

/// The letters of an operator that are still to come, by which it is named here.
#[derive(Clone, Copy, Debug, PartialEq, Eq)]
pub(crate) enum Word {
    D,
    Nd,
    Od,
    V,
    Iv,
    Div,
    R,
    E,
    Se,
    N,
    En,
    Hen,
}

/// The quotes of a text.
#[derive(Clone, Copy, Debug, PartialEq, Eq)]
pub(crate) enum Quote {
    Single,
    Double,
}

/// What was read of the token that isn't known to have ended.
#[derive(Clone, Copy, Debug, PartialEq, Eq)]
pub(crate) enum Piece {
    /// Nothing.
    Ready,
    /// A name, whose kind is told by its end.
    Named(Stage),
    /// Digits, with a point among them or without.
    Digits(bool),
    /// A point, which may be a step, the first of two, or the begin of a number.
    Point,
    /// An operator that a `=` may make longer.
    MayEqual,
    /// A `!`, behind which `=` comes.
    MustEqual,
    /// Inside of a text in these quotes.
    Text(Quote),
    /// Behind a quote that ends the text or is the first of two.
    Quoted(Quote),
    /// In an operator that is a word.
    Word(Word),
    /// Behind the `l` or `g` of a comparison.
    Order,
    /// Behind the `e` of `eq` or `else`.
    Either,
    /// Behind an operator that is a word.
    Spelled,
}

/// What a character begins.
#[derive(Clone, Copy, Debug, PartialEq, Eq)]
pub(crate) enum Class {
    White,
    /// A token of this character alone.
    Sign(crate::kind::Kind),
    Quote(Quote),
    Digit,
    Point,
    /// `<` or `>`.
    Angle,
    Bang,
    Letter,
    Other,
}
