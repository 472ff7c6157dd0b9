// What is written in an encoding is read back, as laws. The calls do nothing.
ghost use Rattle.std.specs.Prelude.{◌≡◌, ◌+◌, ℕ, List, Some, length};
ghost use Rattle.std.specs.List.{All};
ghost use Rattle.std.specs.Char.{IsScalar};
ghost use Rattle.dfdl_forms.specs.declared.encoding.Encoding.{Encoding as AnyEncoding};
ghost use Rattle.dfdl_chars.specs.Decoding.{Boxed};
ghost use Rattle.dfdl_chars.specs.Encodings.{encoded_of, encoded_text};
ghost use Rattle.dfdl_chars.specs.Sights.{SeesBytes, StandFrom, StandsAt};

/// The bytes of a character decode to that character, whatever stands behind them, and take as
/// many bits as they have.
pub fn characters_are_read_back()
    ensures { (enc : AnyEncoding) (c : ℕ) (bytes : List ℕ) (box : Boxed) (k : ℕ)
        → IsScalar c → encoded_of enc c ≡ Some bytes → SeesBytes box k bytes
        → StandsAt enc box k c (length bytes) }
{}

/// The bytes of a text decode to its characters, one after the other, up to its last byte.
pub fn texts_are_read_back()
    ensures { (enc : AnyEncoding) (cs : List ℕ) (bytes : List ℕ) (box : Boxed) (k : ℕ)
        → All IsScalar cs → encoded_text enc cs ≡ Some bytes → SeesBytes box k bytes
        → StandFrom enc box k (k + length bytes) cs }
{}
