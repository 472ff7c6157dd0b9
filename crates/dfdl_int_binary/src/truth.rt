// Binary booleans.
ghost use Rattle.std.specs.Prelude.{◌≡◌, ◌+◌, ◌-◌, ◌*◌, ◌^◌, ◌<◌, ◌≤◌, ◌↔◌, Some, None, length, IfSome, IsErr, OnOk, OnErr};
ghost use Rattle.std.specs.Option.{SomeIff};
ghost use Rattle.std.specs.Result.{result_ok};
ghost use Rattle.dfdl_forms.specs.BinaryNumbers.{IsTruthForm};
ghost use Rattle.dfdl_bits.specs.Bits.{KeepsOutside};
ghost use Rattle.dfdl_int_binary.specs.Truths.{truth_field_of, truth_reading, truth_writing, held_in, inverted_in};

use crate::signed::greatest;
use dfdl_bits::{number_at, put_number};
use dfdl_forms::{BitTruthForm, NoFit, NoTruth};

/// Reads the boolean whose field begins at bit `bit`.
pub fn read_truth(bytes: &[u8], bit: u64, form: &BitTruthForm) -> Result<bool, NoTruth>
    requires form { IsTruthForm form.now }
    requires inside { bit + form.now.bits ≤ 8 * length bytes.now }
    ensures { result_ok result ≡ truth_reading form.now (truth_field_of form.now bytes.now bit) }
{
    let number = number_at(bytes, bit, form.bits, form.bytes_by, form.bits_by) as u32;
    if number == form.falsity {
        return Ok(false);
    }
    match form.truth {
        None => Ok(true),
        Some(truth) if number == truth => Ok(true),
        Some(_) => Err(NoTruth),
    }
}

/// Writes a boolean into the field that begins at bit `bit`. It doesn't fit exactly where the field can't hold its
/// number.
pub fn write_truth(
    truth: bool,
    form: &BitTruthForm,
    bytes: &mut [u8],
    bit: u64,
) -> Result<(), NoFit>
    requires form { IsTruthForm form.now }
    requires inside { bit + form.now.bits ≤ 8 * length bytes.old }
    ensures no_fit { IsErr result ↔ (truth_writing form.now truth ≡ None) }
    ensures number { OnOk result (truth_writing form.now truth ≡ Some (truth_field_of form.now bytes.new bit)) }
    ensures kept { OnOk result (KeepsOutside form.now.bits_by bytes.old bytes.new bit form.now.bits) }
    ensures err { OnErr result (bytes.new ≡ bytes.old) }
{
    match number_of_truth(truth, form) {
        Some(number) => {
            put_number(
                bytes,
                bit,
                form.bits,
                u128::from(number),
                form.bytes_by,
                form.bits_by,
            );
            Ok(())
        }
        None => Err(NoFit),
    }
}

// The number that a boolean is written as.
fn number_of_truth(truth: bool, form: &BitTruthForm) -> Option<u32>
    requires form { IsTruthForm form.now }
    ensures number { result ≡ truth_writing form.now truth }
    ensures fits { IfSome result (λ number. number < 2 ^ form.now.bits) }
{
    if !truth {
        return held(form.falsity, form.bits);
    }
    match form.truth {
        Some(truth) => held(truth, form.bits),
        None => inverted(form.falsity, form.bits),
    }
}

// The number, if it has at most `bits` bits.
fn held(number: u32, bits: u32) -> Option<u32>
    requires some { 1 ≤ bits }
    requires few { bits ≤ 32 }
    ensures held { result ≡ held_in bits number }
    ensures fits { IfSome result (λ number. number < 2 ^ bits) }
{
    (u128::from(number) <= greatest(bits)).then_some(number)
}

// The number with its bits inverted, if it has at most `bits` bits.
fn inverted(number: u32, bits: u32) -> Option<u32>
    requires some { 1 ≤ bits }
    requires few { bits ≤ 32 }
    ensures inverted { result ≡ inverted_in bits number }
    ensures fits { IfSome result (λ number. number < 2 ^ bits) }
{
    let number = u128::from(number);
    let greatest = greatest(bits);
    if number <= greatest {
        Some((greatest - number) as u32)
    } else {
        None
    }
}
