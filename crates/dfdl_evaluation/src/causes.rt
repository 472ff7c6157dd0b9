// The numbers of causes of unparsing.
ghost use Rattle.std.specs.Prelude.{◌≡◌};
ghost use Rattle.dfdl_cells.specs.Lengths as lengths;

use dfdl_writings::Unwritten;

/// The number of the cause of unparsing that there is no writing.
pub fn cause_of(cause: Unwritten) -> u8
    ensures { result ≡ lengths.cause_of cause }
{
    match cause {
        Unwritten::BinaryForm => 1,
        Unwritten::PackedForm => 2,
        Unwritten::TextForm => 3,
        Unwritten::TooLong => 4,
        Unwritten::NotInEncoding => 5,
        Unwritten::Prefix => 7,
        Unwritten::Boolean => 9,
        Unwritten::Escape => 12,
    }
}
