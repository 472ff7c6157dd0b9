// What a schema states besides the layout of data: tests, settings of variables, calculated values ('DFDL Schema Component Model').
use crate::text::PatternForm;
use dfdl_expressions::Expression;
use dfdl_value::{Simple, TextValue};

/// A test of a pattern at the begin of a component: it holds where the pattern matches in the characters from there on ('DFDL Schema
/// Component Model', on asserts and discriminators).
#[derive(Debug, Drop)]
pub struct PatternTest {
    pub form: PatternForm,
    /// Where it holds, it resolves the innermost point of uncertainty: it is a discriminator, and else an assert.
    pub discriminates: bool,
    /// What the schema says of a test that fails.
    pub message: Option<TextValue>,
}

/// A test of an expression: it holds where its value is true ('DFDL Schema Component Model', on asserts and discriminators).
#[derive(Debug, Drop)]
pub struct ExpressionTest {
    pub expression: Expression,
    /// Where it holds, it resolves the innermost point of uncertainty: it is a discriminator, and else an assert.
    pub discriminates: bool,
    /// What the schema says of a test that fails.
    pub message: Option<TextValue>,
}

/// A variable is set ('DFDL Expression Language', on variables).
#[derive(Debug, Drop)]
pub struct Setting {
    /// The number of the variable in the tables.
    pub variable: u32,
    /// Its type.
    pub kind: Simple,
    pub expression: Expression,
}

/// An instance of a variable is opened, which the variable stands for as long as it is open ('DFDL Expression Language', on variables).
#[derive(Debug, Drop)]
pub struct Opening {
    /// The number of the variable in the tables.
    pub variable: u32,
    /// Its type.
    pub kind: Simple,
    /// What the instance begins with; without it, with what the variable does.
    pub start: Option<Expression>,
}

/// The value of an element that has no representation, or the value by which an element is written ('Calculated Values').
#[derive(Debug, Drop)]
pub struct Calculation {
    /// The type of the element.
    pub kind: Simple,
    pub expression: Expression,
    /// The value is that of unparsing alone (outputValueCalc); parsing takes the element's value from the data.
    pub output: bool,
}

/// What a row asks for: a length, a number of occurrences, or the key of a choice ('DFDL Expression Language').
#[derive(Debug, Drop)]
pub struct Question {
    pub expression: Expression,
}

/// What a schema states at a component.
#[derive(Debug, Drop)]
pub enum Statement {
    Pattern(PatternTest),
    Expression(ExpressionTest),
    Setting(Setting),
    Calculation(Calculation),
    Question(Question),
    Opening(Opening),
}

/// Statements of the tables that stand there one after the other.
#[derive(Debug, Clone, Copy, PartialEq, Eq)]
pub struct Statements {
    /// the number of the first
    pub first: u32,
    /// how many they are
    pub count: u32,
}
