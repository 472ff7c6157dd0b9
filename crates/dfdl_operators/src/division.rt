// Division in 128 bits, with any number of zeros behind the dividend.
ghost use Rattle.std.specs.Prelude.{ℕ, ◌≡◌, ◌≢◌, ◌+◌, ◌*◌, ◌/◌, ◌%◌, ◌^◌, ◌<◌, ◌≤◌, IfSome, IfNone};
ghost use Rattle.std.specs.Option.{SomeIff};

/// So many times the divisor, and what is left.
#[derive(Clone, Copy)]
pub(crate) struct Part {
    pub(crate) times: u128,
    pub(crate) rest: u128,
}

/// The greatest number of 64 bits.
const WORD: u128 = 18_446_744_073_709_551_615;

/// The quotient and the rest, in 64 bits where these do.
pub(crate) fn parted(dividend: u128, divisor: u128) -> Part
    requires { 0 < divisor }
    ensures times { result.times ≡ dividend / divisor }
    ensures rest { result.rest ≡ dividend % divisor }
{
    if dividend > WORD {
        return Part {
            times: dividend / divisor,
            rest: dividend % divisor,
        };
    }
    if divisor > WORD {
        return Part {
            times: 0,
            rest: dividend,
        };
    }
    let short = dividend as u64;
    let by = divisor as u64;
    Part {
        times: u128::from(short / by),
        rest: u128::from(short % by),
    }
}

fn part_sum(left: Part, right: Part, divisor: u128) -> Part
    requires left { left.rest < divisor }
    requires right { right.rest < divisor }
    requires left_times { left.times < 32 }
    requires right_times { right.times < 32 }
    ensures sum { result.times * divisor + result.rest
        ≡ (left.times + right.times) * divisor + (left.rest + right.rest) }
    ensures rest { result.rest < divisor }
    ensures times { result.times ≤ left.times + right.times + 1 }
{
    let times = left.times + right.times;
    let room = divisor - right.rest;
    if left.rest < room {
        Part {
            times,
            rest: left.rest + right.rest,
        }
    } else {
        Part {
            times: times + 1,
            rest: left.rest - room,
        }
    }
}

/// How often the divisor goes into ten times the rest, and what is left then.
fn ten_times(rest: u128, divisor: u128) -> Part
    requires { rest < divisor }
    ensures sum { result.times * divisor + result.rest ≡ rest * 10 }
    ensures rest { result.rest < divisor }
{
    let one = Part { times: 0, rest };
    let two = part_sum(one, one, divisor);
    let four = part_sum(two, two, divisor);
    let five = part_sum(four, one, divisor);
    part_sum(five, five, divisor)
}

/// The number with a digit more, if that has 128 bits at most.
fn extended(number: Option<u128>, digit: u128) -> Option<u128>
    ensures { (n : ℕ) → SomeIff number (n < 2 ^ 128) n
        → SomeIff result (n * 10 + digit < 2 ^ 128) (n * 10 + digit) }
{
    number?.checked_mul(10)?.checked_add(digit)
}

/// A quotient, or nothing in place of one past 128 bits, and how many zeros were put behind the
/// dividend.
#[derive(Clone, Copy)]
pub(crate) struct Quotient {
    pub(crate) number: Option<u128>,
    pub(crate) zeros: u32,
}

/// The quotient with the fewest zeros behind the dividend by which the division leaves nothing, if
/// at most so many do.
pub(crate) fn exact(dividend: u128, divisor: u128, most: u32) -> Option<Quotient>
    requires { 0 < divisor }
    ensures few { IfSome result (λ q. q.zeros ≤ most) }
    ensures exact { IfSome result (λ q. dividend * 10 ^ q.zeros % divisor ≡ 0) }
    ensures number { IfSome result (λ q. SomeIff q.number
        (dividend * 10 ^ q.zeros / divisor < 2 ^ 128) (dividend * 10 ^ q.zeros / divisor)) }
    ensures last { IfSome result (λ q. 0 < q.zeros → dividend * 10 ^ q.zeros / divisor % 10 ≢ 0) }
    ensures inexact { IfNone result (dividend * 10 ^ most % divisor ≢ 0) }
{
    let part = parted(dividend, divisor);
    let mut number = Some(part.times);
    let mut rest = part.rest;
    let mut zeros = 0;
    while rest > 0 {
        if zeros == most {
            return None;
        }
        let step = ten_times(rest, divisor);
        number = extended(number, step.times);
        rest = step.rest;
        zeros += 1;
    }
    Some(Quotient { number, zeros })
}

/// A quotient, or nothing in place of one past 128 bits, and what is left.
#[derive(Clone, Copy)]
pub(crate) struct Division {
    pub(crate) number: Option<u128>,
    pub(crate) rest: u128,
}

/// The division with so many zeros behind the dividend.
pub(crate) fn long(dividend: u128, divisor: u128, most: u32) -> Division
    requires { 0 < divisor }
    ensures number { SomeIff result.number (dividend * 10 ^ most / divisor < 2 ^ 128)
        (dividend * 10 ^ most / divisor) }
    ensures rest { result.rest ≡ dividend * 10 ^ most % divisor }
{
    let part = parted(dividend, divisor);
    let mut number = Some(part.times);
    let mut rest = part.rest;
    let mut zeros = 0;
    while zeros < most {
        let step = ten_times(rest, divisor);
        number = extended(number, step.times);
        rest = step.rest;
        zeros += 1;
    }
    Division { number, rest }
}
