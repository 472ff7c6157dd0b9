// The rows that a schema is compiled to, and the events of an infoset over them.
//
// A row is one step of the data syntax grammar ('DFDL Data Syntax Grammar'), and names the rows inside it by their
// numbers, each below its own; the last row is the root element's. `specs/Rows.antt` says which rows can be a schema's.
#![tactic(auto)]

pub mod arrays;
pub mod delimiters;
pub mod event;
pub mod framing;
pub mod keys;
pub mod names;
pub mod occurs;
pub mod prefix;
pub mod representations;
pub mod row;
pub mod slots;
pub mod statement;
pub mod terms;
pub mod text;
pub mod value_list;
pub mod writing;

pub use arrays::Items;
pub use delimiters::{Delimiter, Delimiters};
pub use dfdl_vars::VarDef;
pub use event::Event;
pub use framing::Framing;
pub use keys::{Key, KeyList};
pub use names::NameNumbers;
pub use occurs::Occurs;
pub use prefix::{LengthUnit, Measure, Prefix};
pub use representations::{Representations, WhereTried};
pub use row::{Primitive, Row, RowId, RowList, Tables};
pub use slots::{Slot, SlotList};
pub use statement::{
    Calculation, ExpressionTest, Opening, PatternTest, Question, Setting, Statement, Statements,
};
pub use terms::{TermFault, Terms};
pub use text::{
    DefaultForm, NilForm, NilOctets, NilTexts, NilValues, OctetForm, PatternForm, ScanForm,
    TextContent, TextForm, TextSize,
};
pub use value_list::ValueList;
pub use writing::{Writing, WritingForm};
