// Laws of the definitions. The calls do nothing.
ghost use Rattle.std.specs.Prelude.{◌≡◌, ◌<◌, ◌≤◌, ◌*◌, ℕ, false, List, Option, None, length};
ghost use Rattle.dfdl_value.specs.declared.value.Value.{Value};
ghost use Rattle.dfdl_vars.specs.Instances.{has, is_set};
ghost use Rattle.dfdl_vars.specs.Kept.{Kept, IsSound, with_setting, with_read, entered, left, place_now, fault_now, opened};
ghost use Rattle.dfdl_vars.specs.declared.instances.Change.{Change};
ghost use Rattle.dfdl_vars.specs.declared.instances.Instance.{Instance};
ghost use Rattle.dfdl_vars.specs.declared.instances.VarMark.{VarMark};
ghost use Rattle.dfdl_vars.specs.declared.values.VarDef.{VarDef};
ghost use Rattle.dfdl_vars.specs.Marks.{LeadsBack, mark_of, gone_back};

/// A way back stays open while instances are set, read, entered and left, as long as no instance is left that was open there.
pub fn ways_back()
    ensures here { (now : Kept) → IsSound now.instances now.changes → now.globals ≤ length now.instances → LeadsBack now now }
    ensures set { (base now : Kept) (place : ℕ) (value : Value) → LeadsBack base now
        → has is_set now.instances place ≡ false → LeadsBack base (with_setting now place value) }
    ensures read { (base now : Kept) (place : ℕ) → LeadsBack base now → LeadsBack base (with_read now place) }
    ensures entered { (base now : Kept) (var : ℕ) (start : Option Value) → LeadsBack base now
        → LeadsBack base (entered now var start) }
    ensures left { (base now : Kept) → LeadsBack base now → length base.instances < length now.instances
        → LeadsBack base (left now) }
    // Behind each of these calls there is a way back to what is kept then.
    ensures opened { (definitions : List VarDef) (given : List (ℕ × Value)) (deep : ℕ)
        → LeadsBack (opened definitions given deep) (opened definitions given deep) }
    ensures sound_set { (now : Kept) (var : ℕ) (value : Value) → LeadsBack now now → var < now.globals → fault_now now var ≡ None
        → LeadsBack (with_setting now (place_now now var) value) (with_setting now (place_now now var) value) }
    ensures sound_read { (now : Kept) (var : ℕ) → LeadsBack now now → var < now.globals
        → LeadsBack (with_read now (place_now now var)) (with_read now (place_now now var)) }
    ensures sound_entered { (now : Kept) (var : ℕ) (start : Option Value) → LeadsBack now now
        → LeadsBack (entered now var start) (entered now var start) }
    ensures sound_left { (now : Kept) → LeadsBack now now → now.globals < length now.instances → LeadsBack (left now) (left now) }
    ensures sound_gone { (mark : VarMark) (now : Kept) → LeadsBack now now → LeadsBack (gone_back mark now) (gone_back mark now) }
{}

/// Going back to a mark to which there is a way back gives what was kept there.
pub fn marks_lead_back()
    ensures { (base now : Kept) → LeadsBack base now → gone_back (mark_of base) now ≡ base }
{}

/// Of changes that are kept once each there are at most two for each instance.
pub fn few_changes()
    ensures { (n : ℕ) (instances : List Instance) (changes : List Change) → IsSound instances changes → length instances ≤ n
        → length changes ≤ 2 * n }
{}
