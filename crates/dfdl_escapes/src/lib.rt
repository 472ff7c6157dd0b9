//! Delimited text with escape schemes: its characters, each escaped or not, where it ends, what trimming keeps of it, and what a text
//! is written as.
//!
//! The contracts cite `step_at` (`specs/Steps.antt`) and `content_from` (`specs/Contents.antt`), programs over looks as dfdl_looks
//! has them, `trimmed_content` (`specs/Trims.antt`) and `written` (`specs/Written.antt`). It serves the chapter 'Simple Types'
//! (escape schemes) of the DFDL 1.0 specification, GFD.240.
#![tactic(auto)]

pub mod character;
mod end;
pub mod ending;
pub mod escaping;
pub mod form;
pub mod laws;
mod placed;
mod placing;
pub mod reading;
pub mod refusal;
mod run;
pub mod scan;
pub mod scanned;
pub mod trimming;
mod turn;
mod unit;
mod walk;
mod writing;

pub use character::Character;
pub use ending::{Ending, Read};
pub use escaping::escape;
pub use form::{Form, Mode, Stand};
pub use reading::read_content;
pub use refusal::Refusal;
pub use scan::{Scan, first_mode};
pub use scanned::{Glance, Scanned};
pub use trimming::trim_content;

#[cfg(test)]
mod tests;
#[cfg(test)]
mod trimming_tests;
