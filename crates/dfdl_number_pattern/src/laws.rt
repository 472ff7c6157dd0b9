// What a text is read as is the one pattern that it spells.
ghost use Rattle.std.specs.Prelude.{◌≡◌, ℕ, List, Some};
ghost use Rattle.dfdl_forms.specs.declared.number_pattern.NumberPattern.{NumberPattern};
ghost use Rattle.dfdl_forms.specs.NumberForms.{IsNumberPattern};
ghost use Rattle.dfdl_number_pattern.specs.Pattern.{Spells};
ghost use Rattle.dfdl_number_pattern.specs.Read.{pattern_read};

/// A text spells one pattern at most, which `pattern_read` tells, and the numbers of each pattern are bounded.
pub fn texts_spell_one_pattern()
    ensures spelled { (text : List ℕ) (p : NumberPattern) → pattern_read text ≡ Some p → Spells p text }
    ensures one { (text : List ℕ) (p : NumberPattern) → Spells p text → pattern_read text ≡ Some p }
    ensures bounded { (text : List ℕ) (p : NumberPattern) → pattern_read text ≡ Some p → IsNumberPattern p }
{}
