// What stands between a prefix and a suffix.
ghost use Rattle.std.specs.Prelude.{◌≡◌, MatchOption, Some, None};
ghost use Rattle.std.specs.Str.{bytes_eq};
ghost use Rattle.dfdl_number_text.specs.Body.{between as between_of};

fn is_same(part: &[char], affix: &[char]) -> bool
    ensures { result ≡ bytes_eq part.now affix.now }
{
    part == affix
}

/// What stands between a prefix and a suffix, if the text begins and ends with them.
pub fn between<'a>(text: &'a [char], prefix: &[char], suffix: &[char]) -> Option<&'a [char]>
    ensures { MatchOption result (between_of prefix.now suffix.now text.now ≡ None)
        (λ inner. between_of prefix.now suffix.now text.now ≡ Some inner.now) }
{
    let front = prefix.len();
    let back = suffix.len();
    if back > text.len() || front > text.len() - back {
        return None;
    }
    let end = text.len() - back;
    if !is_same(&text[..front], prefix) || !is_same(&text[end..], suffix) {
        return None;
    }
    Some(&text[front..end])
}
