// The parts of a number's text: white space at its ends, its sign and its digits.
ghost use Rattle.std.specs.Prelude.{◌≡◌, ◌^◌, ◌<◌, IsTrue};
ghost use Rattle.std.specs.Char.{is_ascii_digit};
ghost use Rattle.std.specs.List.{list_all};
ghost use Rattle.std.specs.Option.{SomeIff};
ghost use Rattle.dfdl_value.specs.Texts.{is_xml_space, trimmed as trimmed_of, is_negative as has_minus, unsigned_part as unsigned_part_of, is_numeral as writes_number, number_after};
ghost use Rattle.dfdl_lemmas.specs.Trimmed.{without_leading, without_trailing};

fn is_space(byte: u8) -> bool
    ensures { result ≡ is_xml_space byte }
{
    byte == b' ' || byte == b'\t' || byte == b'\n' || byte == b'\r'
}

fn without_leading_space(text: &[u8]) -> &[u8]
    ensures { result.now ≡ without_leading is_xml_space text.now }
{
    let mut rest = text;
    while let [first, others @ ..] = rest {
        if !is_space(*first) {
            break;
        }
        rest = others;
    }
    rest
}

fn without_trailing_space(text: &[u8]) -> &[u8]
    ensures { result.now ≡ without_trailing is_xml_space text.now }
{
    let mut rest = text;
    while let [others @ .., last] = rest {
        if !is_space(*last) {
            break;
        }
        rest = others;
    }
    rest
}

/// The text with the white space at its ends passed over.
pub(crate) fn trimmed(text: &[u8]) -> &[u8]
    ensures { result.now ≡ trimmed_of text.now }
{
    without_trailing_space(without_leading_space(text))
}

pub(crate) fn is_negative(text: &[u8]) -> bool
    ensures { result ≡ has_minus text.now }
{
    text.first() == Some(&b'-')
}

pub(crate) fn unsigned_part(text: &[u8]) -> &[u8]
    ensures { result.now ≡ unsigned_part_of text.now }
{
    match text {
        [b'+' | b'-', digits @ ..] => digits,
        _ => text,
    }
}

pub(crate) fn are_digits(text: &[u8]) -> bool
    ensures { result ≡ list_all is_ascii_digit text.now }
{
    text.iter().all(|byte| byte.is_ascii_digit())
}

pub(crate) fn is_numeral(text: &[u8]) -> bool
    ensures { result ≡ writes_number text.now }
{
    !text.is_empty() && are_digits(text)
}

/// The number that the digits write behind those of `number`, if it has 128 bits at most.
pub(crate) fn appended(number: u128, digits: &[u8]) -> Option<u128>
    requires { IsTrue (list_all is_ascii_digit digits.now) }
    ensures { SomeIff result
        (number_after number digits.now < 2 ^ 128) (number_after number digits.now) }
{
    let mut number = number;
    for digit in digits {
        let shifted = number.checked_mul(10)?;
        number = shifted.checked_add(u128::from(*digit - b'0'))?;
    }
    Some(number)
}
