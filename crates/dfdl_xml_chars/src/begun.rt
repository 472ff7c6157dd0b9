// The bytes of a character that is begun, and what one byte more makes of them.
#![tactic(auto, unfolding(crate::specs::Utf8::see))]

ghost use Rattle.std.specs.Prelude.{◌≡◌, ◌-◌, ◌<◌, ◌++◌, [], ◌∷◌};
ghost use Rattle.dfdl_xml_chars.specs.Utf8.{see, low_of, high_of};
ghost use Rattle.dfdl_xml_chars.specs.Characters.{begins};
ghost use Rattle.dfdl_xml_chars.specs.Shown.{bytes_of, seen_of, IfPart};

use crate::sequences::{first, fourth, second, third};

/// The bytes of a character that is not whole yet.
#[derive(Clone, Copy, Debug, PartialEq, Eq, Drop)]
pub enum Begun {
    Nothing,
    One(u8),
    Two(u8, u8),
    Three(u8, u8, u8),
}

/// What bytes are: a character, a part of one, or the front of none.
#[derive(Clone, Copy, Debug, PartialEq, Eq, Drop)]
pub enum Taken {
    Whole(char),
    Part(Begun),
    Bad,
}

impl Begun {
    /// What these bytes are with one more behind them.
    pub fn with(self, byte: u8) -> Taken
        ensures seen { seen_of result ≡ see (bytes_of self ++ byte ∷ []) }
        ensures part { IfPart result (λ more. bytes_of more ≡ bytes_of self ++ byte ∷ []) }
    {
        match self {
            Begun::Nothing => first(byte),
            Begun::One(a) => second(a, byte),
            Begun::Two(a, b) => third(a, b, byte),
            Begun::Three(a, b, c) => fourth(a, b, c, byte),
        }
    }

    /// The least code of the characters that begin so, where the bytes are a part of one.
    #[tactic(auto, unfolding(crate::specs::Utf8::low_of))]
    pub fn low(self) -> u32
        ensures { result ≡ low_of (bytes_of self) }
    {
        match self {
            Begun::Nothing => 0,
            Begun::One(a) if a < 0xE0 => bits(a, 0xC0) * 64,
            Begun::One(a) if a < 0xF0 => (bits(a, 0xE0) * 4096).max(0x800),
            Begun::One(a) => (bits(a, 0xF0) * 26_2144).max(0x1_0000),
            Begun::Two(a, b) if a < 0xF0 => (bits(a, 0xE0) * 64 + bits(b, 0x80)) * 64,
            Begun::Two(a, b) => (bits(a, 0xF0) * 64 + bits(b, 0x80)) * 4096,
            Begun::Three(a, b, c) => ((bits(a, 0xF0) * 64 + bits(b, 0x80)) * 64 + bits(c, 0x80))
                * 64,
        }
    }

    /// The greatest code of the characters that begin so, where the bytes are a part of one.
    #[tactic(auto, unfolding(crate::specs::Utf8::high_of))]
    pub fn high(self) -> u32
        ensures { result ≡ high_of (bytes_of self) }
    {
        match self {
            Begun::Nothing => 0,
            Begun::One(a) if a < 0xE0 => bits(a, 0xC0) * 64 + 63,
            Begun::One(0xED) => 0xD7FF,
            Begun::One(a) if a < 0xF0 => bits(a, 0xE0) * 4096 + 4095,
            Begun::One(a) => (bits(a, 0xF0) * 26_2144 + 26_2143).min(0x10_FFFF),
            Begun::Two(a, b) if a < 0xF0 => (bits(a, 0xE0) * 64 + bits(b, 0x80)) * 64 + 63,
            Begun::Two(a, b) => (bits(a, 0xF0) * 64 + bits(b, 0x80)) * 4096 + 4095,
            Begun::Three(a, b, c) => ((bits(a, 0xF0) * 64 + bits(b, 0x80)) * 64 + bits(c, 0x80))
                * 64
                + 63,
        }
    }

    /// The character begins so, where the bytes are a part of one.
    pub fn begins(self, c: char) -> bool
        ensures { result ≡ begins (bytes_of self) c }
    {
        let code = u32::from(c);
        self.low() <= code && code <= self.high()
    }
}

// What the byte has above the bits that mark it.
fn bits(byte: u8, mark: u8) -> u32
    ensures value { result ≡ byte - mark }
    ensures few { result < 256 }
{
    u32::from(byte.saturating_sub(mark))
}
