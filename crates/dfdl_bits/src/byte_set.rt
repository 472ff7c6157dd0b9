// Sets of bytes.
ghost use Rattle.std.specs.Prelude.{◌≡◌, ◌<◌, ◌||◌, ◌/◌, ◌%◌, ◌^◌, ℕ, false, if◌then◌else◌, nat_eq, nat_le};
ghost use Rattle.dfdl_bits.specs.ByteSets.{has_byte};

/// A set of bytes: bit `n % 64` of word `n / 64` stands for byte `n`.
#[derive(Debug, Clone, Copy, Drop)]
pub struct ByteSet {
    words: [u64; 4],
}

#[tactic(auto, unfolding(crate::specs::ByteSets::has_byte))]
impl ByteSet {
    /// No byte.
    pub fn none() -> ByteSet
        ensures { (byte : ℕ) → byte < 256 → has_byte result byte ≡ false }
    {
        ByteSet { words: [0; 4] }
    }

    /// The bytes from 128 on.
    pub fn high() -> ByteSet
        ensures { (byte : ℕ) → byte < 256 → has_byte result byte ≡ nat_le 128 byte }
    {
        ByteSet {
            words: [0, 0, u64::MAX, u64::MAX],
        }
    }

    /// Whether the set has the byte.
    pub fn has(&self, byte: u8) -> bool
        ensures { result ≡ has_byte self.now byte }
    {
        (self.words[(byte / 64) as usize] >> (byte % 64)) & 1 == 1
    }

    /// One byte alone.
    pub fn of(byte: u8) -> ByteSet
        ensures { (other : ℕ) → other < 256 → has_byte result other ≡ nat_eq byte other }
    {
        ByteSet {
            words: [
                bit_in(0, byte),
                bit_in(1, byte),
                bit_in(2, byte),
                bit_in(3, byte),
            ],
        }
    }

    /// The bytes of both sets.
    pub fn or(self, other: ByteSet) -> ByteSet
        ensures { (byte : ℕ) → byte < 256 → has_byte result byte ≡ (has_byte self byte || has_byte other byte) }
    {
        ByteSet {
            words: [
                self.words[0] | other.words[0],
                self.words[1] | other.words[1],
                self.words[2] | other.words[2],
                self.words[3] | other.words[3],
            ],
        }
    }
}

// The bit of a byte in a word, if the byte's bit stands there.
fn bit_in(word: u8, byte: u8) -> u64
    ensures { result ≡ (if nat_eq (byte / 64) word then 2 ^ (byte % 64) else 0) }
{
    if byte / 64 == word {
        return 1 << (byte % 64);
    }
    0
}
