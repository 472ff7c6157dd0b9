// What stands at a place is what is decoded there, and where a text lies, as laws. The calls do nothing.
ghost use Rattle.std.specs.Prelude.{◌≡◌, ◌+◌, ◌/◌, ◌<◌, ◌≤◌, ℕ, Bool, List, Some, length};
ghost use Rattle.std.specs.List.{All};
ghost use Rattle.std.specs.Char.{IsScalar};
ghost use Rattle.dfdl_bits.specs.declared.window.Seen.{Seen as AnySeen};
ghost use Rattle.dfdl_bits.specs.declared.window.Seen.TheVariants.{Byte};
ghost use Rattle.dfdl_forms.specs.declared.encoding.Encoding.{Encoding as AnyEncoding};
ghost use Rattle.dfdl_looks.specs.Asks.{AsksFrom, Told, ask};
ghost use Rattle.dfdl_looks.specs.Tallies.{Tally};
ghost use Rattle.dfdl_chars.specs.Decoding.{decoded_at, no_look};
ghost use Rattle.dfdl_chars.specs.Encodings.{encoded_text};
ghost use Rattle.dfdl_chars.specs.Sights.{SeesBytes};
ghost use Rattle.dfdl_texts.specs.declared.extent.Extent.{Extent as AnyExtent};
ghost use Rattle.dfdl_texts.specs.declared.extent.Extent.TheVariants.{Box, Characters};
ghost use Rattle.dfdl_texts.specs.Texts.{IsRead, Reads, text_at};
ghost use Rattle.dfdl_texts.specs.Units.{IsUnit, far_seen, unit_at};

/// What stands at a place by the program is what is decoded there, in as many looks, which have gone as far. A byte that
/// hasn't come isn't seen.
pub fn units_are_decoded()
    ensures { (look : ℕ → AnySeen) (enc : AnyEncoding) (stop k looks : ℕ) (t : Tally)
        → let decoded = decoded_at enc (record { look = look; stop = stop }) k (no_look looks) in
        IsUnit decoded.chars (far_seen decoded.chars k decoded.walk.far) looks decoded.walk.looks t (ask look (unit_at enc stop k) t) }
{}

/// Each look of a text is at its first byte or behind it.
pub fn texts_begin()
    ensures { (enc : AnyEncoding) (replaces : Bool) (extent : AnyExtent) (stop k : ℕ)
        → AsksFrom k (text_at enc replaces extent stop k) }
{}

/// A text that is read ends no earlier than it begins, in what was seen and in its box: at the end of its box, if it goes so
/// far, and else with as many characters as are counted.
pub fn texts_end()
    ensures { (look : ℕ → AnySeen) (enc : AnyEncoding) (replaces : Bool) (extent : AnyExtent) (stop last k : ℕ) (t : Tally)
        (chars : List ℕ) (end : ℕ) → ((j byte : ℕ) → k ≤ j → look j ≡ Byte byte → j + 1 ≤ last)
        → (ask look (text_at enc replaces extent stop k) t).reached ≡ Told (Reads chars end)
        → IsRead extent stop last k chars end }
{}

/// The characters of a text that is read from bytes are code points of characters: none is a surrogate, or past U+10FFFF.
pub fn texts_are_characters()
    ensures { (look : ℕ → AnySeen) (enc : AnyEncoding) (replaces : Bool) (extent : AnyExtent) (stop k : ℕ) (t : Tally)
        (chars : List ℕ) (end : ℕ) → ((j byte : ℕ) → k ≤ j → look j ≡ Byte byte → byte < 256)
        → (ask look (text_at enc replaces extent stop k) t).reached ≡ Told (Reads chars end) → All IsScalar chars }
{}

/// The bytes of a text are read back as its characters, whatever stands behind them: as many as it has, or all up to the end of
/// a box that ends behind the last of them.
pub fn texts_are_read_back()
    ensures counted { (look : ℕ → AnySeen) (enc : AnyEncoding) (replaces : Bool) (stop k : ℕ) (t : Tally) (chars bytes : List ℕ)
        → All IsScalar chars → encoded_text enc chars ≡ Some bytes → SeesBytes (record { look = look; stop = stop }) k bytes
        → (ask look (text_at enc replaces (Characters (length chars)) stop k) t).reached ≡ Told (Reads chars (k + length bytes)) }
    ensures boxed { (look : ℕ → AnySeen) (enc : AnyEncoding) (replaces : Bool) (stop k : ℕ) (t : Tally) (chars bytes : List ℕ)
        → All IsScalar chars → encoded_text enc chars ≡ Some bytes → SeesBytes (record { look = look; stop = stop }) k bytes
        → stop / 8 ≡ k + length bytes
        → (ask look (text_at enc replaces Box stop k) t).reached ≡ Told (Reads chars (k + length bytes)) }
{}
