// Zeros behind the digits of a number, and digits cut off.
ghost use Rattle.std.specs.Prelude.{◌≡◌, ◌*◌, ◌/◌, ◌-◌, ◌+◌, ◌^◌, ◌<◌};
ghost use Rattle.std.specs.Option.{SomeIff};

/// The magnitude with so many zeros behind it, if that has 128 bits at most.
pub(crate) fn shifted(magnitude: u128, zeros: u32) -> Option<u128>
    ensures { SomeIff result (magnitude * 10 ^ zeros < 2 ^ 128) (magnitude * 10 ^ zeros) }
{
    if zeros == 0 {
        return Some(magnitude);
    }
    if magnitude == 0 {
        return Some(0);
    }
    let factor = 10u128.checked_pow(zeros)?;
    magnitude.checked_mul(factor)
}

/// The digits before the point, where so many stand behind it.
pub(crate) fn cut(magnitude: u128, scale: u32) -> u128
    ensures { result ≡ magnitude / 10 ^ scale }
{
    if scale == 0 {
        return magnitude;
    }
    match 10u128.checked_pow(scale) {
        Some(unit) => magnitude / unit,
        None => 0,
    }
}

/// The least whole number that isn't below.
pub(crate) fn cut_up(magnitude: u128, scale: u32) -> u128
    ensures none { magnitude ≡ 0 → result ≡ 0 }
    ensures some { 0 < magnitude → result ≡ (magnitude - 1) / 10 ^ scale + 1 }
{
    if magnitude == 0 {
        return 0;
    }
    cut(magnitude - 1, scale) + 1
}
