// Texts without the white space around them.
ghost use Rattle.std.specs.Prelude.{◌≡◌};
ghost use Rattle.dfdl_lemmas.specs.Trimmed.{without_leading, without_trailing};
ghost use Rattle.dfdl_markup.specs.Grammar.{is_white};
ghost use Rattle.dfdl_properties.specs.Forms.{trimmed};

#[tactic(auto, unfolding(dfdl_markup::specs::Grammar::is_white))]
fn is_white(byte: u8) -> bool
    ensures { result ≡ is_white byte }
{
    byte == b' ' || byte == b'\t' || byte == b'\n' || byte == b'\r'
}

fn without_leading_white(text: &str) -> &str
    ensures { result.now ≡ without_leading is_white text.now }
{
    let mut rest = text;
    while let [first, ..] = rest.as_bytes() {
        if !is_white(*first) {
            break;
        }
        rest = &rest[1..];
    }
    rest
}

fn without_trailing_white(text: &str) -> &str
    ensures { result.now ≡ without_trailing is_white text.now }
{
    let mut rest = text;
    while let [.., last] = rest.as_bytes() {
        if !is_white(*last) {
            break;
        }
        rest = &rest[..rest.len() - 1];
    }
    rest
}

/// The text without the white space around it.
pub fn trimmed(text: &str) -> &str
    ensures { result.now ≡ trimmed text.now }
{
    without_trailing_white(without_leading_white(text))
}
