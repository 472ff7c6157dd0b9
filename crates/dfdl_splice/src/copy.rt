// Bits copied from any place of some bytes to any place of others.
ghost use Rattle.std.specs.Prelude.{◌+◌, ◌*◌, ◌^◌, ◌<◌, ◌≤◌, length};
ghost use Rattle.dfdl_splice.specs.Copying.{Copies};

use dfdl_bits::{ByteOrder, number_at_64, put_number_64};
use dfdl_forms::BitOrder;

/// Copies `count` bits from bit `begin` of `from` on to bit `at` of `to`.
pub fn copy_bits(to: &mut [u8], at: u64, from: &[u8], begin: u64, count: u64, order: BitOrder)
    requires room { at + count ≤ 8 * length to.old }
    requires inside { begin + count ≤ 8 * length from.now }
    requires to_fits { at + count < 2 ^ 64 }
    requires from_fits { begin + count < 2 ^ 64 }
    ensures { Copies order to.old to.new at from.now begin count }
{
    let most = at_once(at, begin);
    let mut done = 0;
    while done < count {
        let len = (count - done).min(most) as u32;
        copy_few(to, at + done, from, begin + done, len, order);
        done += u64::from(len);
    }
}

// How many bits are copied at once: those that lie in eight bytes wherever they begin, or whole words where both places begin a
// byte.
fn at_once(at: u64, begin: u64) -> u64
    ensures some { 0 < result }
    ensures few { result ≤ 64 }
{
    if at % 8 == 0 && begin % 8 == 0 {
        return 64;
    }
    56
}

// Copies at most 64 bits.
fn copy_few(to: &mut [u8], at: u64, from: &[u8], begin: u64, len: u32, order: BitOrder)
    requires few { len ≤ 64 }
    requires room { at + len ≤ 8 * length to.old }
    requires inside { begin + len ≤ 8 * length from.now }
    ensures { Copies order to.old to.new at from.now begin len }
{
    let number = number_at_64(from, begin, len, ByteOrder::Big, order);
    put_number_64(to, at, len, number, ByteOrder::Big, order);
}
