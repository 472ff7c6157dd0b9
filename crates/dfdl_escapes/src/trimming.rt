// Contents trimmed at their sides, up to characters that are escaped.
ghost use Rattle.std.specs.Prelude.{◌≡◌, ◌+◌, ◌-◌, ◌≤◌, ◌&&◌, ◌==◌, nat_lt, length, take, drop};
ghost use Rattle.dfdl_text_string.specs.Padding.{is_trim};
ghost use Rattle.dfdl_escapes.specs.Trims.{bare_content, bare_content_from, before_pads, behind_pads, end_trimmed, front_trimmed, is_pad, trimmed_content, trimmed_content_from};

use crate::character::Character;
use dfdl_forms::{Justify, PadForm};

fn is_trim(trim: Option<char>, c: char) -> bool
    ensures { result ≡ is_trim trim c }
{
    match trim {
        Some(trim) => c == trim,
        None => false,
    }
}

fn is_pad(trim: Option<char>, character: Character) -> bool
    ensures { result ≡ is_pad trim character }
{
    !character.is_escaped && is_trim(trim, character.c)
}

fn behind_pads(trim: Option<char>, characters: &[Character]) -> &[Character]
    ensures { result.now ≡ behind_pads trim characters.now }
{
    let mut rest = characters;
    while let [first, others @ ..] = rest {
        if !is_pad(trim, *first) {
            break;
        }
        rest = others;
    }
    rest
}

fn before_pads(trim: Option<char>, characters: &[Character]) -> &[Character]
    ensures { result.now ≡ before_pads trim characters.now }
{
    let mut end = characters.len();
    while end > 0 {
        if !is_pad(trim, characters[end - 1]) {
            return &characters[..end];
        }
        end -= 1;
    }
    &characters[..end]
}

#[tactic(auto, using(crate::proofs::TrimmedContents::lengths))]
fn front<'a>(form: &PadForm, characters: &'a [Character]) -> &'a [Character]
    ensures value { result.now ≡ front_trimmed form.now.justify form.now.trim characters.now }
    ensures within { length result.now ≤ length characters.now }
{
    match form.justify {
        Justify::Left => characters,
        Justify::Right | Justify::Center => behind_pads(form.trim, characters),
    }
}

#[tactic(auto, using(crate::proofs::TrimmedContents::lengths))]
fn end<'a>(form: &PadForm, characters: &'a [Character]) -> &'a [Character]
    ensures value { result.now ≡ end_trimmed form.now.justify form.now.trim characters.now }
    ensures within { length result.now ≤ length characters.now }
{
    match form.justify {
        Justify::Right => characters,
        Justify::Left | Justify::Center => before_pads(form.trim, characters),
    }
}

// The range of the characters that are no pad characters at the sides that are trimmed.
fn bare_range(form: &PadForm, characters: &[Character]) -> (usize, usize)
    ensures begin { result.0 ≡ bare_content_from form.now characters.now }
    ensures end { result.1 ≡ result.0 + length (bare_content form.now characters.now) }
    ensures within { result.1 ≤ length characters.now }
    ensures kept { take (result.1 - result.0) (drop result.0 characters.now) ≡ bare_content form.now characters.now }
{
    let rest = front(form, characters);
    let kept = end(form, rest);
    let begin = characters.len() - rest.len();
    (begin, begin + kept.len())
}

// Whether a zero is kept of a content of so many characters, of which so many are left.
fn is_zero_kept(form: &PadForm, size: usize, left: usize) -> bool
    ensures { result ≡ (form.now.keeps_zero && (is_trim form.now.trim 48 && (nat_lt 0 size && (left == 0)))) }
{
    form.keeps_zero && is_trim(form.trim, '0') && size > 0 && left == 0
}

/// The range of the characters of a content that trimming keeps: where it begins, and where it ends. From each side that is trimmed,
/// pad characters are taken off up to the first that is escaped or another.
pub fn trim_content(form: &PadForm, characters: &[Character]) -> (usize, usize)
    ensures begin { result.0 ≡ trimmed_content_from form.now characters.now }
    ensures end { result.1 ≡ result.0 + length (trimmed_content form.now characters.now) }
    ensures within { result.1 ≤ length characters.now }
    ensures kept { take (result.1 - result.0) (drop result.0 characters.now) ≡ trimmed_content form.now characters.now }
{
    let (begin, end) = bare_range(form, characters);
    if is_zero_kept(form, characters.len(), end - begin) {
        let at = begin.saturating_sub(1);
        return (at, at + 1);
    }
    (begin, end)
}
