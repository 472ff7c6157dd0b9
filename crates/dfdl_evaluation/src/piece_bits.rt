// The bits of a piece.

use dfdl_value::ByteValue;

/// The bits of a piece: so many from bit 0 of its bytes on, and behind them so many bits of fill, which are told by the place of each in the
/// data ('Framing', fillByte).
#[derive(Debug, Drop)]
pub struct PieceBits {
    pub bytes: ByteValue,
    /// How many bits of the bytes.
    pub bits: u64,
    /// Bit k of the data is bit k mod 8 of this byte.
    pub fill_byte: u8,
    /// At which bit of the data the fill begins.
    pub fill_at: u64,
    /// How many bits of fill.
    pub fill: u64,
}
