// How a component is written, beside what its rows say.

use dfdl_forms::{CharList, EscapeScheme};
use dfdl_value::Value;

/// What the writing of a text depends on, and its reading doesn't ('Simple Types').
#[derive(Debug, Drop)]
pub struct WritingForm {
    /// The least number of characters of a content without a box (minLength of a string, textOutputMinLength of other text).
    pub least: u64,
    /// What `%NL;` is written as (outputNewLine).
    pub new_line: CharList,
    /// The escape scheme; its kind is `Absent` where there is none.
    pub scheme: EscapeScheme,
}

/// How a component is written, beside what its rows say ('Framing', 'Simple Types').
#[derive(Debug, Drop)]
pub struct Writing {
    /// The bits of fill: bit k of the data is bit k mod 8 of it (fillByte).
    pub fill: u8,
    pub text: WritingForm,
    /// The value of a missing element (its default).
    pub default: Option<Value>,
}
