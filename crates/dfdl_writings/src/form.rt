// Where a value is written, what its writing depends on, and what it is.
ghost use Rattle.std.specs.Prelude.{◌≡◌};
ghost use Rattle.dfdl_terms.specs.Rows.{IsTextSize};
ghost use Rattle.dfdl_writings.specs.Rooms.{room_of, IsRoom};

use dfdl_terms::TextSize;
use dfdl_value::ByteValue;

/// The room that the characters of a content have ('Lengths').
#[derive(Debug, Clone, Copy, PartialEq, Eq)]
pub enum Room {
    /// A box of so many bits.
    Bits(u64),
    /// A box of so many characters.
    Characters(u64),
    /// No box, and no markup that ends it (lengthKind prefixed and pattern).
    Open,
    /// No box, and terminating markup ends it (lengthKind delimited).
    Delimited,
}

/// The room of a content of this size.
pub fn room_of(size: TextSize) -> Room
    ensures room { result ≡ room_of size }
    ensures bounded { IsTextSize size → IsRoom result }
{
    match size {
        TextSize::Bits(bits) => Room::Bits(bits),
        TextSize::Characters(count) => Room::Characters(count),
        TextSize::Delimited(_) => Room::Delimited,
    }
}

/// What a value is written as: so many bits, from bit 0 of the bytes on, and behind them so many bits of fill.
#[derive(Debug, Drop)]
pub struct Written {
    pub bytes: ByteValue,
    pub bits: u64,
    pub fill: u64,
}
