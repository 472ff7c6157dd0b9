use dfdl_expression_text::Kind;

/// Bytes of a text, from the one of the first number up to and without the one of the second.
#[derive(Clone, Copy, Debug, PartialEq, Eq)]
pub struct Span {
    pub from: usize,
    pub to: usize,
}

/// What an operator between two operands does.
#[derive(Clone, Copy, Debug, PartialEq, Eq)]
pub enum Operator {
    Or,
    And,
    /// `=` or `eq`.
    Equal,
    /// `!=` or `ne`.
    NotEqual,
    /// `<` or `lt`.
    Less,
    /// `<=` or `le`.
    LessOrEqual,
    /// `>` or `gt`.
    Greater,
    /// `>=` or `ge`.
    GreaterOrEqual,
    Plus,
    Minus,
    Times,
    /// `div`.
    Divide,
    /// `idiv`.
    WholeDivide,
    /// `mod`.
    Remainder,
}

/// What tells a token from others of its kind.
#[derive(Clone, Copy, Debug, PartialEq, Eq)]
pub enum Form {
    Plain,
    /// A literal that is a number.
    Number,
    /// A literal that is a text.
    Text,
    /// The step `.`.
    Here,
    /// The step `..`.
    Parent,
    Operation(Operator),
}

/// A token of a text.
#[derive(Clone, Copy, Debug, PartialEq, Eq)]
pub struct Token {
    pub kind: Kind,
    pub form: Form,
    pub span: Span,
}
