// The data of an infoset: one piece for each simple element, in the order of the data.
//
// The contract of `unparse` cites `unparsed_of` of `specs/Laying.antt`, which says by recursion on the rows of a schema
// which pieces are laid while the events of an infoset come. `specs/Pieces.antt` says which bytes a value is written as.
// It serves 'DFDL Data Syntax Grammar' and 'Simple Types'.
#![tactic(auto)]

mod bytes;
mod events;
mod forms;
pub mod piece;
pub mod unparsing;

pub use piece::{Piece, PieceList};
pub use unparsing::{Unparsed, unparse};
