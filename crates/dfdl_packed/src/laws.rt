// Laws of the definitions that the contracts cite. The calls do nothing.
ghost use Rattle.std.specs.Prelude.{◌≡◌, ℕ, List, Some, Ok};
ghost use Rattle.dfdl_value.specs.Types.{IsOfType};
ghost use Rattle.dfdl_value.specs.declared.value.Value.{Value};
ghost use Rattle.dfdl_forms.specs.BinaryNumbers.{IsPackedForm};
ghost use Rattle.dfdl_forms.specs.Packed.{IsZonedForm};
ghost use Rattle.dfdl_forms.specs.declared.packed.PackedForm.{PackedForm};
ghost use Rattle.dfdl_forms.specs.declared.packed.ZonedForm.{ZonedForm};
ghost use Rattle.dfdl_packed.specs.Packed.{packed_reading, packed_writing};
ghost use Rattle.dfdl_packed.specs.Zoned.{zoned_reading, zoned_writing};

/// What a value of a type is written as is read as that value, and as no other.
pub fn read_back()
    ensures packed { (form : PackedForm) (value : Value) (nibbles : List ℕ) → IsPackedForm form → IsOfType form.kind value
        → packed_writing form value ≡ Some nibbles → packed_reading form nibbles ≡ Ok value }
    ensures zoned { (form : ZonedForm) (value : Value) (chars : List ℕ) → IsZonedForm form → IsOfType form.kind value
        → zoned_writing form value ≡ Some chars → zoned_reading form chars ≡ Ok value }
{}
