/// What is wrong with the definition of a variable. Each of these is the cause C37.
#[derive(Debug, Clone, Copy, PartialEq, Eq)]
pub enum Malformed {
    /// Its type is no simple type that is carried, or its name names nothing.
    TypeNotCarried,
    /// Its default is an expression.
    DefaultByExpression,
    /// Its default is no value of its type.
    DefaultNotAValue,
}
