// Laws of the definitions that the contracts cite. The calls do nothing.
ghost use Rattle.std.specs.Prelude.{◌≡◌, ℕ, ◌+◌, ◌*◌, List, Ok};
ghost use Rattle.dfdl_delims.specs.Lists.{Opened};
ghost use Rattle.dfdl_forms.specs.declared.text.PadForm.{PadForm};
ghost use Rattle.dfdl_value.specs.declared.value.Value.{Value};
ghost use Rattle.dfdl_terms.specs.declared.row.Primitive.{Primitive};
ghost use Rattle.dfdl_terms.specs.declared.text.NilForm.{NilForm};
ghost use Rattle.dfdl_terms.specs.declared.text.TextForm.{TextForm};
ghost use Rattle.dfdl_writings.specs.declared.form.Room.TheVariants.{Bits};
ghost use Rattle.dfdl_terms.specs.declared.writing.WritingForm.{WritingForm};
ghost use Rattle.dfdl_writings.specs.declared.form.Written.{Written};
ghost use Rattle.dfdl_writings.specs.Binary.{binary, box_bits};
ghost use Rattle.dfdl_writings.specs.Contents.{content};
ghost use Rattle.dfdl_writings.specs.Nils.{nil_content};

/// A box of bits is written whole, with its fill.
pub fn boxes_are_filled()
    ensures texts { (writing : WritingForm) (form : TextForm) (n : ℕ) (opened : List Opened) (value : Value) (written : Written)
        → content writing form (Bits n) opened value ≡ Ok written → written.bits + written.fill ≡ n }
    ensures nils { (writing : WritingForm) (nil : NilForm) (pad : PadForm) (n : ℕ) (written : Written)
        → nil_content writing nil pad (Bits n) ≡ Ok written → written.bits + written.fill ≡ n }
    ensures fields { (primitive : Primitive) (value : Value) (written : Written)
        → binary primitive value ≡ Ok written → written.bits + written.fill ≡ box_bits primitive }
{}
