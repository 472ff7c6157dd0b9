// Numbers rounded to so many fraction digits.
ghost use Rattle.std.specs.Prelude.{◌≡◌, ◌+◌, ◌-◌, ◌*◌, ◌^◌, ◌<◌, ◌≤◌, ◌≢◌};
ghost use Rattle.dfdl_number_text.specs.Rounding.{goes_up, may_round, rounded};
ghost use Rattle.dfdl_number_text.specs.Written.{ShowsSize};

use dfdl_forms::Rounding;

/// A sign, and a size that is divided by ten to the power of `scale`.
#[derive(Clone, Copy)]
pub struct Number {
    pub negative: bool,
    pub magnitude: u128,
    pub scale: u16,
}

/// The integer part of a size, and its fraction digits as a number.
#[derive(Clone, Copy)]
pub struct Size {
    pub whole: u128,
    pub fraction: u128,
}

/// The size of a number with so many fraction digits, rounded by a mode, if that is allowed.
pub fn size_of(number: Number, mode: Rounding, places: u16) -> Option<Size>
    requires places { places ≤ 38 }
    requires few { 0 < number.scale → number.magnitude < 10 ^ 38 }
    ensures { ShowsSize places result (rounded mode number.negative (number.magnitude * 10 ^ places) (10 ^ number.scale)) }
{
    if number.scale <= places {
        return Some(exact(number.magnitude, number.scale, places));
    }
    let divisor = divisor_of(number.scale - places);
    match round(mode, number.negative, number.magnitude, divisor) {
        Some(quotient) => Some(divided(quotient, places)),
        None => None,
    }
}

// The size of a number that has no more than so many fraction digits.
fn exact(magnitude: u128, scale: u16, places: u16) -> Size
    requires places { places ≤ 38 }
    requires fits { scale ≤ places }
    ensures size { result.whole * 10 ^ places + result.fraction ≡ magnitude * 10 ^ (places - scale) }
    ensures fraction { result.fraction < 10 ^ places }
{
    let power = power_of(scale);
    Size {
        whole: magnitude / power,
        fraction: magnitude % power * power_of(places - scale),
    }
}

fn divided(quotient: u128, places: u16) -> Size
    requires { places ≤ 38 }
    ensures size { result.whole * 10 ^ places + result.fraction ≡ quotient }
    ensures fraction { result.fraction < 10 ^ places }
{
    let power = power_of(places);
    Size {
        whole: quotient / power,
        fraction: quotient % power,
    }
}

// Ten to a power.
#[tactic(auto, using(crate::proofs::RoundingLemmas::power_small, crate::proofs::RoundingLemmas::ten_some))]
fn power_of(zeros: u16) -> u128
    requires { zeros ≤ 38 }
    ensures value { result ≡ 10 ^ zeros }
    ensures some { 0 < result }
{
    10u128.pow(u32::from(zeros))
}

// Ten to a power, or a number that rounds one of at most 38 digits in the same way.
fn divisor_of(zeros: u16) -> u128
    ensures some { result ≢ 0 }
    ensures exact { zeros ≤ 38 → result ≡ 10 ^ zeros }
    ensures large { 38 < zeros → 2 * 10 ^ 38 ≤ result }
{
    if zeros > 38 {
        u128::MAX
    } else {
        power_of(zeros)
    }
}

/// The size of a quotient, rounded by a mode, if that is allowed.
fn round(mode: Rounding, negative: bool, dividend: u128, divisor: u128) -> Option<u128>
    requires divisor { divisor ≢ 0 }
    requires small { dividend < 10 ^ 38 }
    ensures { result ≡ rounded mode negative dividend divisor }
{
    let quotient = dividend / divisor;
    let rest = dividend % divisor;
    if rest == 0 {
        return Some(quotient);
    }
    if !may_round(mode) {
        return None;
    }
    if goes_up(mode, negative, quotient, rest, divisor) {
        Some(quotient + 1)
    } else {
        Some(quotient)
    }
}

fn may_round(mode: Rounding) -> bool
    ensures { result ≡ may_round mode }
{
    mode != Rounding::Unnecessary
}

fn goes_up(mode: Rounding, negative: bool, quotient: u128, rest: u128, divisor: u128) -> bool
    requires { rest < 10 ^ 38 }
    ensures { result ≡ goes_up mode negative quotient rest divisor }
{
    match mode {
        Rounding::Ceiling => !negative,
        Rounding::Floor => negative,
        Rounding::Down => false,
        Rounding::Up => true,
        Rounding::HalfEven => 2 * rest > divisor || 2 * rest == divisor && quotient % 2 == 1,
        Rounding::HalfDown => 2 * rest > divisor,
        Rounding::HalfUp => 2 * rest >= divisor,
        Rounding::Unnecessary => false,
    }
}
