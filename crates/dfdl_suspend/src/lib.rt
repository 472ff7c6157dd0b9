// Values that wait for one another while unparsing.
//
// Each unknown has an equation, which asks for other unknowns one after another (specs/Asks.antt). What they come to is
// their least solution (specs/Rounds.antt), in whatever order they are computed: a `Chooser` picks which of those that
// are ready is computed next. It serves 'DFDL Processing Introduction'.
#![tactic(auto)]

pub mod board;
pub mod chooser;
pub mod equations;
pub mod events;
mod firsts;
pub mod known;
pub mod laws;
pub mod mark;
mod queue;
pub mod rounds;
pub mod running;
pub mod solved;
pub mod table;

pub use board::{Board, Full};
pub use chooser::{Chooser, FirstReady};
pub use dfdl_value::CellId;
pub use equations::{Answer, Equations};
pub use events::take_up;
pub use known::{Held, Known};
pub use mark::Mark;
pub use rounds::{Solution, solve_by_rounds};
pub use running::run_all;
pub use solved::Solved;
pub use table::{Formula, Table};

#[cfg(test)]
mod choosers;
#[cfg(test)]
mod tests;
