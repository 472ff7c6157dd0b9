// Where what is aligned begins.
ghost use Rattle.std.specs.Prelude.{◌≡◌, ◌^◌, ◌≤◌};
ghost use Rattle.dfdl_grammar.specs.Framing.{aligned};

/// The first multiple of so many bits that is no bit before this one; of no bits it is this one. 'Framing' (alignment).
pub fn aligned(bits: u32, bit: u64) -> u64
    requires { bit ≤ 2 ^ 63 }
    ensures { result ≡ aligned bits bit }
{
    if bits == 0 {
        return bit;
    }
    let bits = u64::from(bits);
    (bit + (bits - 1)) / bits * bits
}
