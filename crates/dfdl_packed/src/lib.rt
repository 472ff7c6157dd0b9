// Packed decimal, BCD, IBM 4690 packed and zoned numbers: what value digits are read as, and what digits a value is
// written as. The contracts cite `packed_reading` and `packed_writing` (`specs/Packed.antt`), `zoned_reading` and
// `zoned_writing` (`specs/Zoned.antt`). Serves 'Simple Types'.
#![tactic(auto)]

mod fault;
pub mod laws;
mod nibbles;
mod packed;
mod reading;
mod scaled;
mod size;
#[cfg(test)]
mod tests;
mod typed;
mod writing;
mod zoned;
mod zoned_reading;
mod zoned_writing;

pub use dfdl_forms::{NoFit, PackedForm, PackedRep, ZonedForm, ZonedStyle};
pub use fault::PackedFault;
pub use packed::{read, write};
pub use zoned::{read_zoned, write_zoned};
