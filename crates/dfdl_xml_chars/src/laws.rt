// What the definitions that the other contracts cite say of UTF-8, as laws. The calls do nothing.
#![tactic(auto)]

ghost use Rattle.std.specs.Prelude.{◌≡◌, ◌↔◌, ℕ, true, List, IsTrue, encode_utf8};
ghost use Rattle.std.specs.Char.{IsScalar};
ghost use Rattle.dfdl_layers.specs.Bytes.{IsBegun, IsCoding, Part};
ghost use Rattle.dfdl_xml_chars.specs.Characters.{Row, begins, is_in, meets};
ghost use Rattle.dfdl_xml_chars.specs.Beyond.{AreAllowed};
ghost use Rattle.dfdl_xml_chars.specs.Utf8.{see};

/// What is seen of bytes is what they are in UTF-8: a character, a part of one, or the front of
/// none.
pub fn bytes_are_seen()
    ensures { IsCoding IsScalar encode_utf8 see }
{}

/// Those characters begin with a part of one that are told to.
pub fn characters_begin()
    ensures { (bytes : List ℕ) (c : ℕ) → see bytes ≡ Part
        → IsTrue (begins bytes c) ↔ IsBegun IsScalar encode_utf8 bytes c }
{}

/// Rows meet a part of a character exactly where one of theirs begins so.
pub fn rows_meet()
    ensures { (rows : List Row) (bytes : List ℕ) → AreAllowed rows → see bytes ≡ Part
        → IsTrue (meets rows bytes)
        ↔ ((c : ℕ) × IsBegun IsScalar encode_utf8 bytes c × IsTrue (is_in rows c)) }
{}
