// The size of a number that is read digit by digit.
ghost use Rattle.std.specs.Prelude.{◌≡◌, ℕ, ◌+◌, ◌*◌, ◌^◌, ◌<◌, ◌≤◌, ◌==◌, length};
ghost use Rattle.std.specs.Option.{SomeIff};
ghost use Rattle.dfdl_packed.specs.Sizes.{Shows, ShowsDigits, ShowsShort};

/// A number without its trailing zeros, as far as 128 bits hold that, and how many zeros these are.
#[derive(Clone, Copy)]
pub struct Size {
    pub mantissa: Option<u128>,
    pub zeros: u64,
}

/// The most digits that 64 bits hold whatever they are.
pub const SHORT: usize = 18;

/// A number's size and whether it is negative.
#[derive(Clone, Copy)]
pub struct SignedSize {
    pub negative: bool,
    pub size: Size,
}

impl Size {
    /// No digit, which is zero.
    pub fn zero() -> Size
        ensures shows { Shows result 0 }
        ensures zeros { result.zeros ≡ 0 }
    {
        Size {
            mantissa: Some(0),
            zeros: 0,
        }
    }

    /// The size of a number of 64 bits.
    pub fn of(number: u64) -> Size
        ensures { Shows result number }
    {
        if number == 0 {
            return Size::zero();
        }
        let mut mantissa = number;
        let mut zeros = 0;
        while mantissa % 10 == 0 {
            mantissa /= 10;
            zeros += 1;
        }
        Size {
            mantissa: Some(u128::from(mantissa)),
            zeros,
        }
    }

    /// The number with one digit more.
    pub fn then(self, digit: u8) -> Size
        requires digit { digit < 10 }
        requires few { self.zeros + 1 < 2 ^ 64 }
        ensures shows { (n : ℕ) → Shows self n → Shows result (n * 10 + digit) }
        ensures zeros { result.zeros ≤ self.zeros + 1 }
    {
        if digit == 0 {
            return self.with_zero();
        }
        let mantissa = match self.mantissa {
            Some(mantissa) => joined(mantissa, self.zeros + 1, digit),
            None => None,
        };
        Size { mantissa, zeros: 0 }
    }

    pub fn is_zero(self) -> bool
        ensures { (n : ℕ) → Shows self n → result ≡ (n == 0) }
    {
        self.mantissa == Some(0)
    }

    fn with_zero(self) -> Size
        requires { self.zeros + 1 < 2 ^ 64 }
        ensures shows { (n : ℕ) → Shows self n → Shows result (n * 10) }
        ensures zeros { result.zeros ≤ self.zeros + 1 }
    {
        if self.mantissa == Some(0) {
            return Size::zero();
        }
        Size {
            mantissa: self.mantissa,
            zeros: self.zeros + 1,
        }
    }
}

/// The size of the number that digits write, if they are digits.
pub fn size_of(digits: &[u8]) -> Option<Size>
    ensures { ShowsDigits result digits.now }
{
    if digits.len() > SHORT {
        return long_size_of(digits);
    }
    match short_number(digits) {
        Some(number) => Some(Size::of(number)),
        None => None,
    }
}

// The number of digits that 64 bits hold.
fn short_number(digits: &[u8]) -> Option<u64>
    requires { length digits.now ≤ 18 }
    ensures { ShowsShort result digits.now }
{
    let mut number = 0;
    for digit in digits {
        if *digit > 9 {
            return None;
        }
        number = number * 10 + u64::from(*digit);
    }
    Some(number)
}

/// The size of digits one by one.
pub fn long_size_of(digits: &[u8]) -> Option<Size>
    ensures { ShowsDigits result digits.now }
{
    let mut size = Size::zero();
    for digit in digits {
        if *digit > 9 {
            return None;
        }
        size = size.then(*digit);
    }
    Some(size)
}

/// A number times ten to the power of `zeros`, where 128 bits hold it.
pub fn with_zeros(number: u128, zeros: u64) -> Option<u128>
    ensures { SomeIff result (number * 10 ^ zeros < 2 ^ 128) (number * 10 ^ zeros) }
{
    if number == 0 {
        return Some(0);
    }
    let mut product = number;
    for _zero in 0..zeros {
        let Some(more) = product.checked_mul(10) else {
            return None;
        };
        product = more;
    }
    Some(product)
}

fn joined(front: u128, zeros: u64, digit: u8) -> Option<u128>
    ensures { SomeIff result (front * 10 ^ zeros + digit < 2 ^ 128) (front * 10 ^ zeros + digit) }
{
    match with_zeros(front, zeros) {
        Some(number) => number.checked_add(u128::from(digit)),
        None => None,
    }
}
