// Infosets as JSON, for any schema: the events of the JSON value that an infoset is, and the line of parsed data.
//
// The contract of `events_of` cites `events_in` of `specs/Infosets.antt`, which says what a JSON value says of each
// element that the schema declares, or which refusal counts, and `Fits` of `specs/Fitting.antt`, which says which lists
// of events fit the terms. That of `line_of` cites `infoset_of` of `specs/Lines.antt`. `specs/Children.antt` has the
// elements that a schema declares, by recursion on its rows. It serves 'The DFDL Information Set'.
#![tactic(auto)]

mod arrays;
mod chains;
pub mod children;
#[cfg(test)]
mod event_tests;
mod events;
pub mod fault;
mod found;
mod hidden;
mod lines;
mod marks;
mod members;
mod named;
pub mod path;
mod ranks;
mod reading;
mod sorted;
#[cfg(test)]
mod tests;
mod text;
mod values;
mod writing;

pub use children::{elements_in, name_of, push_all, root_row, row_at};
pub use dfdl_report::InfosetCause;
pub use events::events_of;
pub use fault::InfosetFault;
pub use lines::{line_of, value_of};
pub use path::OpenElements;
pub use text::events_of_json;
