// Long division, digit by digit, in 128 bits.
ghost use Rattle.std.specs.Prelude.{ℕ, ◌≡◌, ◌≢◌, ◌+◌, ◌*◌, ◌/◌, ◌%◌, ◌^◌, ◌<◌, ◌≤◌, IfSome, IfNone};
ghost use Rattle.std.specs.Option.{SomeIff};

/// So many times the divisor, and what is left.
#[derive(Clone, Copy)]
struct Part {
    times: u128,
    rest: u128,
}

fn part_sum(left: Part, right: Part, divisor: u128) -> Part
    requires divisor { divisor < 2 ^ 127 }
    requires left { left.rest < divisor }
    requires right { right.rest < divisor }
    requires left_times { left.times < 32 }
    requires right_times { right.times < 32 }
    ensures sum { result.times * divisor + result.rest
        ≡ (left.times + right.times) * divisor + (left.rest + right.rest) }
    ensures rest { result.rest < divisor }
    ensures times { result.times ≤ left.times + right.times + 1 }
{
    let times = left.times + right.times;
    let rest = left.rest + right.rest;
    if rest < divisor {
        Part { times, rest }
    } else {
        Part {
            times: times + 1,
            rest: rest - divisor,
        }
    }
}

/// How often the divisor goes into ten times the rest, and what is left then.
fn ten_times(rest: u128, divisor: u128) -> Part
    requires divisor { divisor < 2 ^ 127 }
    requires rest { rest < divisor }
    ensures sum { result.times * divisor + result.rest ≡ rest * 10 }
    ensures rest { result.rest < divisor }
{
    let one = Part { times: 0, rest };
    let two = part_sum(one, one, divisor);
    let four = part_sum(two, two, divisor);
    let five = part_sum(four, one, divisor);
    part_sum(five, five, divisor)
}

/// A quotient that the division gives exactly, or nothing in place of one past 128 bits, and how
/// many zeros were put behind the dividend.
#[derive(Clone, Copy)]
pub(crate) struct Quotient {
    pub number: Option<u128>,
    pub zeros: u32,
}

/// The quotient with the fewest zeros behind the dividend by which the division leaves nothing, if
/// at most so many do.
pub(crate) fn divide(dividend: u128, divisor: u128, most: u32) -> Option<Quotient>
    requires some { 0 < divisor }
    requires divisor { divisor < 2 ^ 127 }
    ensures few { IfSome result (λ q. q.zeros ≤ most) }
    ensures exact { IfSome result (λ q. dividend * 10 ^ q.zeros % divisor ≡ 0) }
    ensures number { IfSome result (λ q. SomeIff q.number
        (dividend * 10 ^ q.zeros / divisor < 2 ^ 128) (dividend * 10 ^ q.zeros / divisor)) }
    ensures last { IfSome result (λ q. 0 < q.zeros → dividend * 10 ^ q.zeros / divisor % 10 ≢ 0) }
    ensures inexact { IfNone result (dividend * 10 ^ most % divisor ≢ 0) }
{
    let mut number = Some(dividend / divisor);
    let mut rest = dividend % divisor;
    let mut zeros = 0;
    while rest > 0 {
        if zeros == most {
            return None;
        }
        let step = ten_times(rest, divisor);
        number = extended(number, step.times);
        rest = step.rest;
        zeros += 1;
    }
    Some(Quotient { number, zeros })
}

/// The number with a digit more.
fn extended(number: Option<u128>, digit: u128) -> Option<u128>
    ensures { (n : ℕ) → SomeIff number (n < 2 ^ 128) n
        → SomeIff result (n * 10 + digit < 2 ^ 128) (n * 10 + digit) }
{
    number?.checked_mul(10)?.checked_add(digit)
}
