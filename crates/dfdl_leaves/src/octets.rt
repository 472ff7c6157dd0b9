// The bytes of a hexBinary.
ghost use Rattle.std.specs.Prelude.{◌≡◌, ◌+◌, ◌-◌, ◌*◌, ◌/◌, ◌%◌, ◌^◌, ◌<◌, ◌≤◌, IfOk, OnOk, length};
ghost use Rattle.dfdl_bits.specs.Window.{end_of, seen_at};
ghost use Rattle.dfdl_grammar.specs.Leaves.{octets};
ghost use Rattle.dfdl_grammar.specs.Octets.{octet_at, octets_from};
ghost use Rattle.dfdl_looks.specs.Asks.{ask};
ghost use Rattle.dfdl_looks.specs.Tallies.{nothing};
ghost use Rattle.dfdl_leaves.specs.Readings.{Answers, HasPiece, IsWithin};

use crate::leaf::{Found, Glance, Scratch, cut, spanned};
use crate::spans::{filled, vacant};
use dfdl_bits::{BitOrder, ByteOrder, Steps, Window, number_at_64};
use dfdl_report::ParseCause;
use dfdl_terms::OctetForm;
use std::alloc::AllocError;
use std::sync::ledger::Ledger;

/// Reads a hexBinary whose box begins at a bit. Its bytes stand in the scratch once all of them have come.
pub(crate) fn read_octets<L: Ledger>(
    form: OctetForm,
    bit: u64,
    sight: &Window,
    scratch: &mut Scratch,
    steps: &mut Steps<L>,
) -> Result<Glance, AllocError>
    requires base { sight.now.base ≤ bit / 8 }
    requires at { bit ≤ 8 * end_of sight.now }
    requires bound { end_of sight.now ≤ 2 ^ 60 }
    requires inside { bit + form.bits < 2 ^ 64 }
    ensures answers { IfOk result (λ g. Answers (ask (seen_at sight.now) (octets form bit) nothing) scratch.new g (steps.new - steps.old)) }
    ensures steps { steps.old ≤ steps.new }
    ensures within { IfOk result (λ g. IsWithin g.found (end_of sight.now)) }
    ensures pieces { IfOk result (λ g. HasPiece g.found scratch.new) }
{
    if form.bits == 0 {
        scratch.octets.clear();
        return Ok(Glance {
            found: Found::Octets { span: vacant(bit) },
            far: 0,
        });
    }
    if form.bits % 8 != 0 {
        return Ok(Glance {
            found: Found::Fails(ParseCause::NotFilled),
            far: 0,
        });
    }
    let first = bit / 8;
    let count = spanned(bit, form.bits);
    let run = sight.run(first, count, steps);
    if run.len() < count {
        return Ok(cut(first, run.len(), sight, steps));
    }
    let octets = (form.bits / 8) as usize;
    put_octets(form.bits_by, run, bit % 8, octets, &mut scratch.octets)?;
    Ok(Glance {
        found: Found::Octets {
            span: filled(bit, form.bits),
        },
        far: first + count as u64,
    })
}

// Puts so many bytes into a list, in place of what it has: those that stand in others from a bit of the first on.
fn put_octets(
    bits_by: BitOrder,
    bytes: &[u8],
    before: u64,
    count: usize,
    into: &mut Vec<u8>,
) -> Result<(), AllocError>
    requires before { before ≤ 7 }
    requires few { count ≤ 2 ^ 61 }
    requires inside { before + 8 * count ≤ 8 * length bytes.now }
    ensures { OnOk result (into.new.items ≡ octets_from bits_by bytes.now before count) }
{
    into.clear();
    if before == 0 {
        into.extend_from_slice(&bytes[..count])?;
        return Ok(());
    }
    for at in 0..count {
        let octet = octet_at(bits_by, bytes, before + 8 * at as u64);
        into.push(octet)?;
    }
    Ok(())
}

// The byte whose first bit in the data is this one.
fn octet_at(bits_by: BitOrder, bytes: &[u8], bit: u64) -> u8
    requires { bit + 8 ≤ 8 * length bytes.now }
    ensures { result ≡ octet_at bits_by bytes.now bit }
{
    number_at_64(bytes, bit, 8, ByteOrder::Big, bits_by) as u8
}
