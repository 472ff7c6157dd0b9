//! What is wrong at one schema component: the rules that the compiler asks of each component by itself, in the order
//! of their numbers.
//!
//! A component comes as a `Subject`: what kind it is, what it states, the chain that its properties are asked of, and the
//! type of its length prefix. `breach` gives the first rule that it breaks, and else the first that the type of its prefix
//! does; its contract cites `specs/Rules.antt`, and the table of the properties that apply to components is
//! `specs/Table.antt`. `primitive` says how the values of a simple element without a breach lie in the data, by
//! `specs/Numbers.antt` and `specs/Texts.antt`: text numbers are read by `specs/NumberTexts.antt`, text booleans by
//! `specs/BooleanTexts.antt`, and the characters by which texts are padded and trimmed are those of `specs/Pads.antt`.
//! `prefix` says how the length prefix of an element lies in the data, by `specs/Prefixes.antt`, and `length_pattern` which
//! pattern tells its length, by `specs/Patterns.antt`. `framing` says which fill stands around a component, by
//! `specs/Framing.antt`, `delimiters_at` which initiator, terminator and separator it has, by `specs/Delimiters.antt`, and `size_of_box` how long
//! a complex element's box is, by `specs/Boxes.antt`. `occurrences` says how often an element occurs, by `specs/Occurrences.antt`.
//! `measure` and `count` tell by which expressions it has its length and the number of its occurrences, by `specs/Measures.antt`, `key` by
//! which expression the branch of a choice is told, and `branch_keys` the keys of a branch, by `specs/Keys.antt`.
//! The patterns of its tests and `checks`, its tests of expressions, are told by `specs/Tests.antt`, and what is asked of it where it stands by `specs/Standings.antt`.
//! `other_representations` says which representations of a simple element are tried before its normal one, by
//! `specs/Representations.antt`, which stands on `specs/Nils.antt`, `specs/NilValues.antt` and `specs/Defaults.antt`. The chapters are
//! 'Property Scoping and DFDL Schema Checking', 'DFDL Data Syntax Grammar', 'Framing', 'Lengths', 'Simple Types', 'Sequence Groups' and
//! 'Arrays and Optional Elements'. Which values are calculated is told by `specs/Calculations.antt` ('Calculated Values'). `writing` says how a
//! component is written beside what its rows say, by `specs/Writings.antt`.
#![tactic(auto)]

mod applicability;
mod applying;
mod boolean_texts;
mod booleans;
mod boxes;
mod calculations;
mod defaults;
mod delimiters;
mod encodings;
mod expression_tests;
mod fill;
mod fill_bytes;
mod flaw;
mod flaws;
mod key_list;
mod keys;
mod kinds;
pub mod laws;
mod length_rules;
mod lengths;
mod measures;
mod new_lines;
mod nil_values;
mod nils;
mod number;
mod number_texts;
mod occurring;
mod orders;
mod packed;
mod pads;
mod patterns;
mod prefixes;
mod purpose;
mod representations;
mod rules;
mod standings;
mod subject;
mod table;
mod tests;
mod text;
mod text_rules;
mod tried;
mod values;
mod writings;
mod zoned_texts;

pub use boxes::size_of_box;
pub use calculations::{calculation, kind_for, output_calculation};
pub use delimiters::{Delimiting, Markup, Separating, delimiters_at, is_delimiter};
pub use expression_tests::{CheckForm, checks, message_of};
pub use fill::framing;
pub use key_list::KeyList;
pub use keys::{branch_keys, is_keyed_by, key, keys_of_chain};
pub use measures::{MeasureForm, count, measure};
pub use number::primitive;
pub use occurring::{Bounds, is_count_parsed, occurrences};
pub use orders::bit_order;
pub use patterns::{length_pattern, pattern_encoding};
pub use prefixes::{PrefixForm, prefix};
pub use purpose::Purpose;
pub use representations::is_word;
pub use rules::breach;
pub use standings::initiates;
pub use subject::{Breach, Facts, Kind, PrefixType, Standing, StatedTest, Subject};
pub use tests::{is_pattern_test, test_pattern, tests_for};
pub use tried::{EmptyRepresentation, OtherRepresentations, other_representations};
pub use writings::writing;
