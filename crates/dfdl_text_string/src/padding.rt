// Texts padded to a length, trimmed again and cut.
ghost use Rattle.std.specs.Prelude.{◌≡◌, ◌+◌, ◌-◌, ◌<◌, ◌≤◌, ◌↔◌, ◌&&◌, ◌==◌, nat_lt, IfOk, IsErr, false, length, take, drop, min};
ghost use Rattle.dfdl_text_string.specs.Padding.{bare, bare_from, cut_from, end_trimmed, front_trimmed, is_trim, missing_before, padded_from, room_padded, trimmed, trimmed_from};
ghost use Rattle.dfdl_lemmas.specs.Trimmed.{without_leading, without_trailing};

use dfdl_forms::{Justify, PadForm};
use thiserror::Error;

/// The text is longer than its room, and isn't cut.
#[derive(Debug, Clone, Copy, PartialEq, Eq, Error)]
#[error("the text is longer than its room")]
pub struct TooLong;

fn is_trimmed(trim: Option<char>, c: char) -> bool
    ensures { result ≡ is_trim trim c }
{
    match trim {
        Some(trim) => c == trim,
        None => false,
    }
}

fn behind_leading(trim: Option<char>, text: &[char]) -> &[char]
    ensures { result.now ≡ without_leading (is_trim trim) text.now }
{
    let mut rest = text;
    while let [first, others @ ..] = rest {
        if !is_trimmed(trim, *first) {
            break;
        }
        rest = others;
    }
    rest
}

fn before_trailing(trim: Option<char>, text: &[char]) -> &[char]
    ensures { result.now ≡ without_trailing (is_trim trim) text.now }
{
    let mut end = text.len();
    while end > 0 {
        if !is_trimmed(trim, text[end - 1]) {
            return &text[..end];
        }
        end -= 1;
    }
    &text[..end]
}

#[tactic(auto, using(crate::proofs::PaddingLemmas::lengths))]
fn front<'a>(form: &PadForm, text: &'a [char]) -> &'a [char]
    ensures value { result.now ≡ front_trimmed form.now.justify (is_trim form.now.trim) text.now }
    ensures within { length result.now ≤ length text.now }
{
    match form.justify {
        Justify::Left => text,
        Justify::Right | Justify::Center => behind_leading(form.trim, text),
    }
}

#[tactic(auto, using(crate::proofs::PaddingLemmas::lengths))]
fn end<'a>(form: &PadForm, text: &'a [char]) -> &'a [char]
    ensures value { result.now ≡ end_trimmed form.now.justify (is_trim form.now.trim) text.now }
    ensures within { length result.now ≤ length text.now }
{
    match form.justify {
        Justify::Right => text,
        Justify::Left | Justify::Center => before_trailing(form.trim, text),
    }
}

// The range of the characters that are no pad characters at the sides that are trimmed.
fn bare_range(form: &PadForm, chars: &[char]) -> (usize, usize)
    ensures begin { result.0 ≡ bare_from form.now chars.now }
    ensures end { result.1 ≡ result.0 + length (bare form.now chars.now) }
    ensures within { result.1 ≤ length chars.now }
    ensures kept { take (result.1 - result.0) (drop result.0 chars.now) ≡ bare form.now chars.now }
{
    let rest = front(form, chars);
    let kept = end(form, rest);
    let begin = chars.len() - rest.len();
    (begin, begin + kept.len())
}

// Whether a zero is kept of a text of so many characters, of which so many are left.
fn is_zero_kept(form: &PadForm, size: usize, left: usize) -> bool
    ensures { result
        ≡ (form.now.keeps_zero && (is_trim form.now.trim 48 && (nat_lt 0 size && (left == 0)))) }
{
    form.keeps_zero && is_trimmed(form.trim, '0') && size > 0 && left == 0
}

/// The range of the characters that are kept: where it begins, and where it ends. It knows nothing
/// of escapes.
pub fn trim(form: &PadForm, chars: &[char]) -> (usize, usize)
    ensures begin { result.0 ≡ trimmed_from form.now chars.now }
    ensures end { result.1 ≡ result.0 + length (trimmed form.now chars.now) }
    ensures within { result.1 ≤ length chars.now }
    ensures kept { take (result.1 - result.0) (drop result.0 chars.now)
        ≡ trimmed form.now chars.now }
{
    let (begin, end) = bare_range(form, chars);
    if is_zero_kept(form, chars.len(), end - begin) {
        let at = begin.saturating_sub(1);
        return (at, at + 1);
    }
    (begin, end)
}

fn padding_before(justify: Justify, missing: usize) -> usize
    ensures value { result ≡ missing_before justify missing }
    ensures within { result ≤ missing }
{
    match justify {
        Justify::Left => 0,
        Justify::Right => missing,
        Justify::Center => missing / 2,
    }
}

/// Puts pad characters around the text that the first `len` characters of the slice are, so that it
/// has the length of the slice, and answers where the text begins then. Without a pad character the
/// slice stays as it is: the text begins at 0.
pub fn pad(form: &PadForm, len: usize, chars: &mut [char]) -> usize
    requires within { len ≤ length chars.old }
    ensures padded { chars.new ≡ room_padded form.now.justify form.now.pad len chars.old }
    ensures begin { result ≡ padded_from form.now.justify form.now.pad (length chars.old - len) }
{
    let Some(pad) = form.pad else {
        return 0;
    };
    let before = padding_before(form.justify, chars.len() - len);
    chars[len..].fill(pad);
    chars.rotate_right(before);
    before
}

/// The range of the characters that are kept of a text of `len` characters where there is room for
/// `room`.
pub fn cut(form: &PadForm, len: usize, room: usize) -> Result<(usize, usize), TooLong>
    ensures begin { IfOk result (λ r. r.0 ≡ cut_from form.now.justify len room) }
    ensures end { IfOk result (λ r. r.1 ≡ r.0 + min len room) }
    ensures too_long { IsErr result ↔ (room < len) × (form.now.truncate ≡ false) }
{
    if len <= room {
        return Ok((0, len));
    }
    if !form.truncate {
        return Err(TooLong);
    }
    match form.justify {
        Justify::Left | Justify::Center => Ok((0, room)),
        Justify::Right => Ok((len - room, len)),
    }
}
