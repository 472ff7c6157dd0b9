// The digits of a body.
ghost use Rattle.std.specs.Prelude.{◌≡◌, ◌+◌, ◌*◌, ◌<◌, ◌≤◌, ◌^◌, ◌++◌, nat_le, length, filter, IsTrue};
ghost use Rattle.std.specs.Char.{is_ascii_digit};
ghost use Rattle.std.specs.List.{list_all};
ghost use Rattle.std.specs.Option.{SomeIff};
ghost use Rattle.dfdl_value.specs.Texts.{is_zero, number_after, number_of};
ghost use Rattle.dfdl_lemmas.specs.Trimmed.{without_trailing};

/// Fraction digits without the zeros at their end.
pub fn without_zeros(digits: &[char]) -> &[char]
    ensures kept { result.now ≡ without_trailing is_zero digits.now }
    ensures fewer { length result.now ≤ length digits.now }
{
    let mut rest = digits;
    while let [others @ .., last] = rest {
        if *last != '0' {
            break;
        }
        rest = others;
    }
    rest
}

/// The number that the digits of a text write behind those of `number`, if it has 128 bits at most.
fn appended(number: u128, text: &[char]) -> Option<u128>
    ensures { SomeIff result (number_after number (filter is_ascii_digit text.now) < 2 ^ 128) (number_after number (filter is_ascii_digit text.now)) }
{
    let mut number = number;
    for c in text {
        if !c.is_ascii_digit() {
            continue;
        }
        let shifted = number.checked_mul(10)?;
        number = shifted.checked_add(u128::from(*c as u32 - 48))?;
    }
    Some(number)
}

/// The same for so few characters that 64 bits hold it.
fn appended_short(number: u64, text: &[char]) -> u64
    requires { (number + 1) * 10 ^ length text.now ≤ 10 ^ 18 }
    ensures value { result ≡ number_after number (filter is_ascii_digit text.now) }
    ensures small { (result + 1) ≤ (number + 1) * 10 ^ length text.now }
{
    let mut number = number;
    for c in text {
        if !c.is_ascii_digit() {
            continue;
        }
        number = number * 10 + u64::from(*c as u32 - 48);
    }
    number
}

/// Whether 64 bits hold the number of any digits in both texts.
fn is_short(whole: &[char], fraction: &[char]) -> bool
    ensures { result ≡ nat_le (length whole.now + length fraction.now) 18 }
{
    whole.len() <= 18 && fraction.len() <= 18 - whole.len()
}

fn held_short(whole: &[char], fraction: &[char]) -> u64
    requires { length whole.now + length fraction.now ≤ 18 }
    ensures value { result ≡ number_of (filter is_ascii_digit whole.now ++ filter is_ascii_digit fraction.now) }
{
    let number = appended_short(0, whole);
    appended_short(number, fraction)
}

/// The number that the digits of both texts write one after the other, if it has 128 bits at most.
pub fn held(whole: &[char], fraction: &[char]) -> Option<u128>
    ensures { SomeIff result (number_of (filter is_ascii_digit whole.now ++ filter is_ascii_digit fraction.now) < 2 ^ 128) (number_of (filter is_ascii_digit whole.now ++ filter is_ascii_digit fraction.now)) }
{
    if is_short(whole, fraction) {
        return Some(u128::from(held_short(whole, fraction)));
    }
    let number = appended(0, whole)?;
    appended(number, fraction)
}
