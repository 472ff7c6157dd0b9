//! One run of the program, from its words to its exit status.
//!
//! `run` reads the words of a command, loads and compiles the schema, reads the source and writes
//! the answer, over the traits of the outside. Its contract is `IsRun` of `specs/Run.antt`, whose
//! premise is `Expects` of `specs/Expects.antt`: what a run comes to, as far as the outside tells
//! its bytes. The meaning of the data stands in `specs/Meaning.antt`. It serves 'DFDL Processing
//! Introduction'.
#![tactic(auto)]

pub mod answer;
pub mod call;
mod command;
mod deciding;
mod delivery;
mod feeding;
mod loading;
mod parsing;
mod reading;
pub mod stop;
mod unparsing;

pub use answer::Answer;
pub use call::run;
pub use deciding::MOST_INPUT;
pub use dfdl_suspend::{Chooser, FirstReady};
pub use loading::MOST_SCHEMA;
pub use stop::Stop;
