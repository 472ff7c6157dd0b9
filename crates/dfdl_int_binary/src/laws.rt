// Laws of the definitions that the contracts cite. The calls do nothing.
ghost use Rattle.std.specs.Prelude.{◌≡◌, ℕ, Some, Bool};
ghost use Rattle.dfdl_value.specs.Types.{IsOfType};
ghost use Rattle.dfdl_value.specs.declared.value.Value.{Value};
ghost use Rattle.dfdl_forms.specs.declared.binary.IntForm.{IntForm};
ghost use Rattle.dfdl_forms.specs.declared.binary.BitTruthForm.{BitTruthForm};
ghost use Rattle.dfdl_forms.specs.BinaryNumbers.{IsIntForm, IsTruthForm};
ghost use Rattle.dfdl_int_binary.specs.Integers.{integer_reading, integer_writing};
ghost use Rattle.dfdl_int_binary.specs.Truths.{DiffersInNumber, truth_reading, truth_writing};

/// What a value of a type is written as is read as that value, and as no other.
pub fn read_back()
    ensures integers { (form : IntForm) (value : Value) (number : ℕ) → IsIntForm form → IsOfType form.kind value
        → integer_writing form value ≡ Some number → integer_reading form number ≡ Some value }
    ensures truths { (form : BitTruthForm) (truth : Bool) (number : ℕ) → IsTruthForm form → DiffersInNumber form
        → truth_writing form truth ≡ Some number → truth_reading form number ≡ Some truth }
{}
