//! The forms of data: types, orders and encodings that rows, codecs, the compiler and the parser share.
//!
//! A form says how something lies in the data, and keeps its bounds; the codecs' contracts say what it means. The
//! crate stands at the bottom, so that a change of a codec touches no row. It serves 'Properties Common to both Content
//! and Framing' and 'Simple Types'.
#![tactic(auto)]

pub mod binary;
pub mod encoding;
pub mod fault;
pub mod literals;
pub mod number;
pub mod number_pattern;
pub mod order;
pub mod packed;
mod separators;
pub mod simple;
pub mod text;

pub use binary::{BitTruthForm, IntForm};
pub use encoding::Encoding;
pub use fault::{NoFit, NoTruth};
pub use literals::{Literals, Piece};
pub use number::{NumberForm, Rounding};
pub use number_pattern::{NumberPattern, Point};
pub use order::{BitOrder, ByteOrder};
pub use packed::{PackedForm, PackedRep, ZonedForm, ZonedStyle};
pub use simple::{Form, Simple};
pub use text::{CharList, EscapeKind, EscapeScheme, Justify, PadForm, PlainTexts, TruthForm};
