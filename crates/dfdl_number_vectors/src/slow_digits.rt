// Decimal digits, one by one.
pub(crate) fn digit_of(c: u8) -> Option<u8> {
    if c.is_ascii_digit() {
        c.checked_sub(48)
    } else {
        None
    }
}

pub(crate) fn followed(number: u128, digit: u8) -> Option<u128> {
    number.checked_mul(10)?.checked_add(u128::from(digit))
}

// The number without its last digits.
pub(crate) fn front(size: u128, behind: usize) -> u128 {
    let mut rest = size;
    for _ in 0..behind {
        rest /= 10;
    }
    rest
}

// The digit with so many digits behind it.
pub(crate) fn digit(size: u128, behind: usize) -> u8 {
    (front(size, behind) % 10) as u8
}

pub(crate) fn digit_char(size: u128, behind: usize) -> u8 {
    digit(size, behind).saturating_add(48)
}
