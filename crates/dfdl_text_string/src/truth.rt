// Booleans as text.
ghost use Rattle.std.specs.Prelude.{◌≡◌, ◌≤◌, ◌++◌, length, take, drop, true, false};
ghost use Rattle.std.specs.Result.{result_ok};
ghost use Rattle.dfdl_text_string.specs.Truths.{first_text, is_among, is_same, is_same_text, truth_of, written_truth};

use dfdl_forms::{NoTruth, PlainTexts, TruthForm};

fn is_match(fold: bool, c: char, d: char) -> bool
    ensures { result ≡ is_same fold c d }
{
    if fold {
        c.eq_ignore_ascii_case(&d)
    } else {
        c == d
    }
}

fn is_matching_text(fold: bool, text: &[char], chars: &[char]) -> bool
    ensures { result ≡ is_same_text fold text.now chars.now }
{
    if text.len() != chars.len() {
        return false;
    }
    for at in 0..text.len() {
        if !is_match(fold, text[at], chars[at]) {
            return false;
        }
    }
    true
}

fn is_any(fold: bool, texts: &PlainTexts, chars: &[char]) -> bool
    ensures { result ≡ is_among fold texts.now chars.now }
{
    for at in 0..texts.len() {
        if is_matching_text(fold, texts.text(at), chars) {
            return true;
        }
    }
    false
}

/// The boolean that the whole text stands for.
pub fn read_truth(form: &TruthForm, chars: &[char]) -> Result<bool, NoTruth>
    ensures { result_ok result ≡ truth_of form.now chars.now }
{
    if is_any(form.fold, &form.truths, chars) {
        return Ok(true);
    }
    if is_any(form.fold, &form.falses, chars) {
        return Ok(false);
    }
    Err(NoTruth)
}

fn first(texts: &PlainTexts) -> &[char]
    ensures { result.now ≡ first_text texts.now }
{
    let _count = texts.len();
    texts.text(0)
}

fn text_of(form: &TruthForm, truth: bool) -> &[char]
    ensures { result.now ≡ written_truth form.now truth }
{
    if truth {
        first(&form.truths)
    } else {
        first(&form.falses)
    }
}

/// How many characters a boolean is written with.
pub fn truth_length(form: &TruthForm, truth: bool) -> usize
    ensures { result ≡ length (written_truth form.now truth) }
{
    text_of(form, truth).len()
}

/// Writes a boolean to the front of the slice, which has to have the room that `truth_length`
/// answers, and answers how many characters it wrote. It is written by the first text of its list.
pub fn write_truth(form: &TruthForm, truth: bool, into: &mut [char]) -> usize
    requires { length (written_truth form.now truth) ≤ length into.old }
    ensures length { result ≡ length (written_truth form.now truth) }
    ensures into { into.new ≡ written_truth form.now truth ++ drop result into.old }
{
    let text = text_of(form, truth);
    into[..text.len()].copy_from_slice(text);
    text.len()
}
