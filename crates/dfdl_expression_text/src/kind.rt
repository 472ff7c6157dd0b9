/// What a token is to the grammar.
#[derive(Clone, Copy, Debug, PartialEq, Eq)]
pub enum Kind {
    /// The name `if`.
    If,
    /// Any other name.
    Name,
    /// A number or a text.
    Literal,
    Dollar,
    Slash,
    /// The step `.` or `..`.
    Dot,
    Open,
    Close,
    Comma,
    /// The `[` before an index.
    OpenIndex,
    CloseIndex,
    /// The `-` of a difference or of a negative value.
    Minus,
    /// Any other operator that calculates.
    Calculation,
    Comparison,
    /// `and` or `or`.
    Junction,
    Then,
    Else,
}
