// Laws of the definitions that the contracts cite. The calls do nothing.
ghost use Rattle.std.specs.Prelude.{◌≡◌, ◌<◌, ℕ, List, Some, length, true, false};
ghost use Rattle.dfdl_forms.specs.declared.text.PadForm.{PadForm};
ghost use Rattle.dfdl_text_string.specs.Padding.{Survives, padded, trimmed};
ghost use Rattle.dfdl_text_string.specs.Truths.{is_among, truth_of, written_truth};

use dfdl_forms::TruthForm;

/// What a boolean is written as is read as that boolean: false, where that text is none of true.
#[tactic(auto, using(crate::proofs::LawLemmas::true_read_back, crate::proofs::LawLemmas::false_read_back))]
pub fn truth_is_read_back(form: &TruthForm)
    ensures truth { truth_of form.now (written_truth form.now true) ≡ Some true }
    ensures falsity { is_among form.now.fold form.now.truths (written_truth form.now false) ≡ false
        → truth_of form.now (written_truth form.now false) ≡ Some false }
{
    let _truths = form.truths.len();
    let _falses = form.falses.len();
}

/// A text that was padded is trimmed to that text again, if it survives: it has no pad characters
/// where it is trimmed.

pub fn padding_is_trimmed()
    ensures { (form : PadForm) (pad : ℕ) (text : List ℕ) (size : ℕ) → form.trim ≡ Some pad
        → Survives form pad text
        → trimmed form (padded form.justify pad text size) ≡ text }
{}
