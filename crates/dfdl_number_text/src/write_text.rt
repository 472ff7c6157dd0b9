// Characters that are put into a text from the left.
ghost use Rattle.std.specs.Prelude.{◌≡◌, ◌+◌, ◌<◌, ◌≤◌, [], ◌∷◌, length};
ghost use Rattle.dfdl_number_text.specs.Written.{IsPut};

/// Puts the characters of an affix into the text from a place on, and answers the place behind them.
pub fn put_affix(into: &mut [char], at: usize, affix: &[char]) -> usize
    requires { at + length affix.now ≤ length into.old }
    ensures place { result ≡ at + length affix.now }
    ensures put { IsPut into.old at affix.now into.new }
{
    let behind = at + affix.len();
    into[at..behind].copy_from_slice(affix);
    behind
}

/// Puts a character into the text, and answers the place behind it.
#[tactic(auto, using(crate::proofs::WriteLists::put_one))]
pub fn put_char(into: &mut [char], at: usize, c: char) -> usize
    requires { at < length into.old }
    ensures place { result ≡ at + 1 }
    ensures put { IsPut into.old at (c ∷ []) into.new }
{
    into[at] = c;
    at + 1
}
