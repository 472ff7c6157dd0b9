// What literals of characters alone stand for.
ghost use Rattle.std.specs.Prelude.{◌≡◌, ◌↔◌, ℕ, List, map, Some, true, false};
ghost use Rattle.dfdl_forms.specs.declared.encoding.Encoding.{Encoding as AnyEncoding};
ghost use Rattle.dfdl_forms.specs.declared.literals.Piece.TheVariants.{Char};
ghost use Rattle.dfdl_chars.specs.Encodings.{encoded_text};
ghost use Rattle.dfdl_literal_texts.specs.Texts.{is_text};

/// A literal of characters alone stands for their bytes, and for nothing else.
pub fn characters_stand_for_their_bytes()
    ensures { (encoding : AnyEncoding) (text : List ℕ) (bytes : List ℕ)
        → (is_text encoding false (map Char text) bytes ≡ true) ↔ (encoded_text encoding text ≡ Some bytes) }
{}
