// Laws of the definitions that the contracts cite. The calls do nothing.
ghost use Rattle.std.specs.Prelude.{◌≡◌, ◌<◌, ℕ, ◌+◌, ◌*◌, ◌^◌, List, slice_index};
ghost use Rattle.dfdl_bits.specs.Bits.{number_of};
ghost use Rattle.dfdl_forms.specs.declared.order.BitOrder.{BitOrder};
ghost use Rattle.dfdl_forms.specs.declared.order.BitOrder.TheVariants.{MostFirst};
ghost use Rattle.dfdl_forms.specs.declared.order.ByteOrder.{ByteOrder};
ghost use Rattle.dfdl_forms.specs.declared.order.ByteOrder.TheVariants.{Big, Little};

/// The number of whole bytes, by the first of them. In big endian it counts most, and in little endian least.
pub fn whole_bytes()
    ensures none { (bytes : List ℕ) (bit : ℕ) (bytes_by : ByteOrder) (bits_by : BitOrder) → number_of bytes bit 0 bytes_by bits_by ≡ 0 }
    ensures big { (bytes : List ℕ) (at count : ℕ) → slice_index bytes at < 256
        → number_of bytes (8 * at) (8 * (count + 1)) Big MostFirst ≡ slice_index bytes at * 256 ^ count + number_of bytes (8 * (at + 1)) (8 * count) Big MostFirst }
    ensures little { (bytes : List ℕ) (at count : ℕ) → slice_index bytes at < 256
        → number_of bytes (8 * at) (8 * (count + 1)) Little MostFirst ≡ slice_index bytes at + 256 * number_of bytes (8 * (at + 1)) (8 * count) Little MostFirst }
{}
