//! What the rows of a schema mean over data: `document` (`specs/Documents.antt`) gives the elements of a document, the
//! bit behind it, and the cause where it fails. It has no code; dfdl_parse computes it.
//!
//! The map of the grammar, one file of specs/ for each subject of the standard:
//! - States: what is known while data are parsed ('Parsing Algorithm').
//! - Outcomes: what a row comes to, and how outcomes are put together ('Parsing Algorithm').
//! - Spans: how long elements are in the data ('DFDL Expression Language').
//! - Marks: a place that parsing can go back to ('Parsing Algorithm').
//! - Leaves: what a simple element's content is read as ('Simple Types').
//! - Octets: the bytes that stand in the data from a bit on ('Simple Types').
//! - Nils: what stands for nil in the data ('DFDL Data Syntax Grammar').
//! - Patterns: how many bytes a pattern matches in the data ('Lengths').
//! - Framing: alignment and skips ('Framing').
//! - Delimiters: initiators, terminators and separators, and which are open ('Framing', 'Sequence Groups').
//! - Delimited: contents that terminating markup ends ('Simple Types').
//! - Boxes: a box around a content, and what the content leaves of it ('Lengths').
//! - Prefixes: a number before a content that tells how long that is ('Lengths').
//! - Elements: an element begins, and ends ('The DFDL Information Set').
//! - Representations: nil, empty and normal, in this order from one place ('DFDL Data Syntax Grammar').
//! - Choices: branches are tried from one place ('Choices').
//! - Occurrences: times of an element that are tried, one after another ('Arrays and Optional Elements').
//! - Statements: tests of expressions, settings of variables and calculated values ('DFDL Schema Component Model').
//! - Instances: instances of variables that are open while a component is parsed ('DFDL Expression Language').
//! - Tests: patterns that have to match at the begin of a component ('DFDL Schema Component Model').
//! - Questions: a length, a number of occurrences, and the key of a choice, which expressions give ('Lengths', 'Arrays and Optional
//!   Elements', 'Choices').
//! - Slots: the slots of a sequence with separators, some of which may be missing ('Sequence Groups').
//! - Rows: the meaning of each row, by those below it ('DFDL Data Syntax Grammar').
//! - Documents: the meaning of the root element's row at the front of the data, or at the byte at which a document begins.
//! - Trees: the elements of a document are a tree of the schema's elements, each of which is read.
//! - Paths: the path of an element, by names.
#![tactic(auto)]

pub mod end;
pub mod instead;
pub mod laws;
pub mod limits;
pub mod mark;
pub mod span;

pub use end::{End, Halt};
pub use instead::Instead;
pub use limits::Limits;
pub use mark::Mark;
pub use span::Span;
