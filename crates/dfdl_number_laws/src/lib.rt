//! The law of text numbers: what a value is written as is read as that value.
//!
//! The call does nothing: its contract is a law of the definitions that the contracts of dfdl_number_text cite,
//! `reading` and `writing`. It serves 'Properties Specific to Number with Text Representation'.
#![tactic(auto)]

ghost use Rattle.std.specs.Prelude.{◌≡◌, ◌≢◌, ℕ, true, false, List, ◌∷◌, Some, None, Ok, IsOk, pos};
ghost use Rattle.dfdl_decimal.specs.Decimal.{DecimalNumber, with_sign};
ghost use Rattle.dfdl_value.specs.Numbers.{number_reading};
ghost use Rattle.dfdl_forms.specs.Types.{form_of};
ghost use Rattle.dfdl_value.specs.Types.{IsOfType};
ghost use Rattle.dfdl_forms.specs.declared.simple.Simple.{Simple};
ghost use Rattle.dfdl_value.specs.declared.value.Value.{Value};
ghost use Rattle.dfdl_forms.specs.declared.number.NumberForm.{NumberForm};
ghost use Rattle.dfdl_forms.specs.declared.number_pattern.NumberPattern.{NumberPattern};
ghost use Rattle.dfdl_forms.specs.NumberForms.{IsNumberForm};
ghost use Rattle.dfdl_number_laws.specs.ReadBack.{NeedsNoRounding, HasOneSign, is_of_body, tells_sign};
ghost use Rattle.dfdl_number_text.specs.NumberReading.{reading, of_value};
ghost use Rattle.dfdl_number_text.specs.Writing.{number_of_value, is_below_zero, places_of, size_at, writing};

/// What a value of a type is written as is read as that value, and as no other (`pattern`, `base`). What a pattern rounds is
/// read as the rounded value (`rounded`; `size` counts the last fraction digit). A minus before the positive prefix tells
/// the sign (`minus`).
pub fn read_back()
    ensures pattern { (form : NumberForm) (pattern : NumberPattern) (kind : Simple) (value : Value) (number : DecimalNumber) (text : List ℕ)
        → IsNumberForm form → form.pattern ≡ Some pattern → IsOfType kind value → number_of_value value ≡ Some number
        → NeedsNoRounding pattern pattern.point number
        → (is_below_zero number ≡ true → HasOneSign form pattern text)
        → writing form value ≡ Some text → reading form kind text ≡ Ok value }
    ensures rounded { (form : NumberForm) (pattern : NumberPattern) (kind : Simple) (value : Value) (number : DecimalNumber) (size : ℕ) (text : List ℕ)
        → IsNumberForm form → form.pattern ≡ Some pattern → IsOfType kind value → number_of_value value ≡ Some number
        → size_at form.rounding pattern.point (places_of pattern pattern.point) number ≡ Some size
        → (is_below_zero number ≡ true → size ≢ 0 → HasOneSign form pattern text)
        → writing form value ≡ Some text
        → (reading form kind text ≡ of_value (number_reading (form_of kind) (record { mantissa = with_sign (is_below_zero number) size; scale = places_of pattern pattern.point })))
        × IsOk (reading form kind text) }
    ensures minus { (form : NumberForm) (pattern : NumberPattern) → pattern.negative_prefix ≡ 45 ∷ pattern.prefix
        → is_of_body form pattern 45 ≡ false → tells_sign form pattern ≡ true }
    ensures base { (form : NumberForm) (kind : Simple) (value : Value) (text : List ℕ) → IsNumberForm form → form.pattern ≡ None → IsOfType kind value
        → writing form value ≡ Some text → reading form kind text ≡ Ok value }
{}

#[cfg(test)]
mod tests;
