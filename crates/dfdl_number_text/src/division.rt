// The last digit of a number in a base, and what is left in front of it.
ghost use Rattle.std.specs.Prelude.{◌≡◌, ◌/◌, ◌%◌, ◌<◌, ◌^◌};

/// A number without its last digit, and that digit.
#[derive(Clone, Copy)]
pub struct LastDigit {
    pub front: u128,
    pub digit: u8,
}

/// Takes the last digit of a number off. Numbers of 64 bits take no division of 128 bits.
pub fn last_digit(number: u128, base: u8) -> LastDigit
    requires { 0 < base }
    ensures front { result.front ≡ number / base }
    ensures digit { result.digit ≡ number % base }
    ensures small { result.digit < base }
{
    if number < 0x1_0000_0000_0000_0000 {
        short_last_digit(number as u64, base)
    } else {
        let divisor = u128::from(base);
        LastDigit {
            front: number / divisor,
            digit: (number % divisor) as u8,
        }
    }
}

fn short_last_digit(number: u64, base: u8) -> LastDigit
    requires { 0 < base }
    ensures front { result.front ≡ number / base }
    ensures digit { result.digit ≡ number % base }
    ensures small { result.digit < base }
{
    if base == 10 {
        LastDigit {
            front: u128::from(number / 10),
            digit: (number % 10) as u8,
        }
    } else {
        let divisor = u64::from(base);
        LastDigit {
            front: u128::from(number / divisor),
            digit: (number % divisor) as u8,
        }
    }
}
