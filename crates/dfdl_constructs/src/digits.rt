// Numbers in decimal digits, of any length.
ghost use Rattle.std.specs.Prelude.{◌≡◌, ◌<◌, length, IsTrue, nat_lt};
ghost use Rattle.std.specs.List.{list_all};
ghost use Rattle.dfdl_constructs.specs.Values.{is_digit, is_number, is_one, number};
ghost use Rattle.dfdl_constructs.specs.ValuesAllowed.{is_above};
ghost use Rattle.dfdl_constructs.specs.Comparing.{is_greater, is_more, is_only_one, significant};

// The byte is a decimal digit.
#[tactic(auto, unfolding(crate::specs::Values::is_digit))]
fn is_digit(byte: u8) -> bool
    ensures { result ≡ is_digit byte }
{
    b'0' <= byte && byte <= b'9'
}

// All bytes are decimal digits.
fn are_digits(bytes: &[u8]) -> bool
    ensures { result ≡ list_all is_digit bytes.now }
{
    bytes.iter().all(|byte| is_digit(*byte))
}

// The text is a run of decimal digits, and not empty.
pub(crate) fn is_number(text: &str) -> bool
    ensures { result ≡ is_number text.now }
{
    !text.is_empty() && are_digits(text.as_bytes())
}

// The digits without zeros in front.
fn significant(digits: &[u8]) -> &[u8]
    ensures { result.now ≡ significant digits.now }
{
    for at in 0..digits.len() {
        if digits[at] != b'0' {
            return &digits[at..];
        }
    }
    &[]
}

// The first digits are above the second ones, which are as many.
fn is_greater(first: &[u8], second: &[u8]) -> bool
    requires { length first.now ≡ length second.now }
    ensures { result ≡ is_greater first.now second.now }
{
    for at in 0..first.len() {
        if first[at] != second[at] {
            return first[at] > second[at];
        }
    }
    false
}

// The first digits, which begin with no zero, are more or above the second ones.
fn is_more(first: &[u8], second: &[u8]) -> bool
    ensures { result ≡ is_more first.now second.now }
{
    if first.len() == second.len() {
        is_greater(first, second)
    } else {
        first.len() > second.len()
    }
}

// The digits are a 1 alone.
fn is_only_one(digits: &[u8]) -> bool
    ensures { result ≡ is_only_one digits.now }
{
    match digits {
        [digit] => *digit == b'1',
        _ => false,
    }
}

// The number one.
#[tactic(auto, using(crate::proofs::Numbers::one_is))]
pub(crate) fn is_one(text: &str) -> bool
    ensures { result ≡ is_one text.now }
{
    is_number(text) && is_only_one(significant(text.as_bytes()))
}

// Both are numbers, and the first is above the second.
#[tactic(auto, using(crate::proofs::Numbers::more_is))]
pub(crate) fn is_above(first: &str, second: &str) -> bool
    ensures { result ≡ is_above first.now second.now }
{
    if !is_number(first) {
        return false;
    }
    is_number(second)
        && is_more(
            significant(first.as_bytes()),
            significant(second.as_bytes()),
        )
}
