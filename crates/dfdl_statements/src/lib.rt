//! The statements of a schema's rows: their expressions compiled, and checked wherever they stand ('DFDL Schema Component Model', on
//! asserts, discriminators and variables; 'DFDL Expression Language'; 'Calculated Values'). What a row asks for, as a length, is a
//! statement, too ('Lengths', 'Arrays and Optional Elements', 'Choices').
//!
//! `declare` gives the elements of rows as paths see them, and the numbers of their names. `settle` makes the statements of what the
//! schema wrote, or tells which is refused, or tells a refusal of another kind that is given to it with its row. `specs/Making.antt` says what is made of one where it stands, `specs/Standing.antt` where
//! each stands, and `specs/Settled.antt` what all of them come to.
#![tactic(auto)]

mod braces;
mod declaring;
mod fault;
mod making;
mod names;
mod prefixes;
mod rows;
mod settling;
mod sight;
mod standing;
#[cfg(test)]
mod tests;
mod tops;
mod written;

pub use declaring::{Declared, declare};
pub use fault::{GivenRefusal, Refusal, StatementFault};
pub use settling::settle;
pub use sight::Sight;
pub use written::{Asked, Source, Target, Written};
