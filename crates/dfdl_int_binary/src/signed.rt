// Two's complement.
ghost use Rattle.std.specs.Prelude.{◌≡◌, ◌-◌, ◌^◌, ◌<◌, ◌≤◌, IfSome};
ghost use Rattle.dfdl_int_binary.specs.Signed.{signed_of, pattern_of};

/// The integer that a number of `bits` bits stands for.
pub fn signed(number: u128, bits: u32) -> i128
    requires some { 1 ≤ bits }
    requires few { bits ≤ 128 }
    requires fits { number < 2 ^ bits }
    ensures { result ≡ signed_of bits number }
{
    if number < 1 << (bits - 1) {
        number as i128
    } else {
        -1 - (greatest(bits) - number) as i128
    }
}

/// The number of `bits` bits that stands for an integer, if there is one.
pub fn pattern(integer: i128, bits: u32) -> Option<u128>
    requires some { 1 ≤ bits }
    requires few { bits ≤ 128 }
    ensures pattern { result ≡ pattern_of bits integer }
    ensures fits { IfSome result (λ number. number < 2 ^ bits) }
{
    let positive = integer >= 0;
    let rest = if positive {
        integer as u128
    } else {
        (-1 - integer) as u128
    };
    if rest >= 1 << (bits - 1) {
        return None;
    }
    Some(if positive {
        rest
    } else {
        greatest(bits) - rest
    })
}

/// The number with `bits` bits that are all set.
pub fn greatest(bits: u32) -> u128
    requires some { 1 ≤ bits }
    requires few { bits ≤ 128 }
    ensures { result ≡ 2 ^ bits - 1 }
{
    u128::MAX >> (128 - bits)
}
