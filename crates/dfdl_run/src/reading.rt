// The reading of a source to its end, while its bytes are parsed.
ghost use Rattle.std.specs.Prelude.{◌≡◌, ◌≢◌, ◌^◌, ◌<◌, ◌≤◌, [], IfOk, OnOk, OnErr, IsErrOf, Err, length, take, All};
ghost use Rattle.dfdl_edge.specs.Faults.{Rose};
ghost use Rattle.dfdl_edge.specs.Told.{IsAll, IsLonger};
ghost use Rattle.dfdl_edge.specs.Source.{Takes};
ghost use Rattle.dfdl_edge.specs.Whole.{IsUsedUp};
ghost use Rattle.dfdl_run.specs.Fed.{HasParsedAll, HasReadAll, HasTaken};

use crate::feeding::Feeding;
use dfdl_bits::Steps;
use dfdl_edge::{Source, SourceFault};
use dfdl_terms::Terms;
use std::alloc::Global;
use std::sync::ledger::{Blank, Ledger};

// How many bytes are read at once.
const PIECE: usize = 64 * 1024;

// One read to the front of the buffer, of at most so many bytes.
fn read_front<S: Source>(
    source: &mut S,
    buffer: &mut [u8],
    most: usize,
) -> Result<usize, SourceFault>
    requires some { 0 < most }
    requires within { most ≤ length buffer.old }
    ensures count { IfOk result (λ count. count ≤ most) }
    ensures within { length buffer.new ≡ length buffer.old }
    ensures takes { IfOk result (λ count. Takes (S.seen source.old).left count buffer.new (S.seen source.new).left) }
    ensures cause { IsErrOf result SourceFault.Failed
        → Rose (S.seen source.old).faults (S.seen source.new).faults }
    ensures only { OnErr result (result ≡ Err SourceFault.Failed) }
    ensures still { OnOk result ((S.seen source.new).faults ≡ (S.seen source.old).faults) }
{
    let count = source.read(&mut buffer[..most])?;
    Ok(count)
}

// The source has no byte left.
fn expect_end<S: Source>(source: &mut S, buffer: &mut [u8]) -> Result<(), SourceFault>
    requires some { 0 < length buffer.old }
    ensures used_up { OnOk result (IsUsedUp (S.seen source.old).left (S.seen source.new).left) }
    ensures ended { OnOk result (IsAll (S.seen source.old).left []) }
    ensures too_large { IsErrOf result SourceFault.TooLarge → IsLonger (S.seen source.old).left 0 }
    ensures cause { IsErrOf result SourceFault.Failed
        → Rose (S.seen source.old).faults (S.seen source.new).faults }
    ensures still { result ≢ Err SourceFault.Failed
        → (S.seen source.new).faults ≡ (S.seen source.old).faults }
{
    match read_front(source, buffer, 1)? {
        0 => Ok(()),
        _ => Err(SourceFault::TooLarge),
    }
}

// The bytes at the front of the buffer.
fn front_of(buffer: &[u8], count: usize) -> &[u8]
    requires { count ≤ length buffer.now }
    ensures { result.now ≡ take count buffer.now }
{
    &buffer[..count]
}

// Reads a source to its end, by the buffer, and gives each piece to the session. So many bytes are allowed.
fn read_all<S: Source, L: Ledger>(
    source: &mut S,
    feeding: &mut Feeding<'_>,
    buffer: &mut [u8],
    most: u64,
    steps: &mut Steps<L>,
) -> Result<(), SourceFault>
    requires some { 0 < length buffer.old }
    requires few { most ≤ 2 ^ 60 }
    requires begun { HasTaken feeding.old.session.terms.now feeding.old [] }
    ensures read { OnOk result (HasReadAll feeding.old.session.terms.now (S.seen source.old).left (S.seen source.new).left most feeding.new) }
    ensures too_large { IsErrOf result SourceFault.TooLarge → IsLonger (S.seen source.old).left most }
    ensures cause { IsErrOf result SourceFault.Failed
        → Rose (S.seen source.old).faults (S.seen source.new).faults }
    ensures still { result ≢ Err SourceFault.Failed
        → (S.seen source.new).faults ≡ (S.seen source.old).faults }
{
    while feeding.count < most {
        let room = (most - feeding.count).min(buffer.len() as u64);
        let count = read_front(source, buffer, room as usize)?;
        if count == 0 {
            return Ok(());
        }
        feeding.take(front_of(buffer, count), steps)?;
    }
    expect_end(source, buffer)
}

// The session that has come to the outcome of all bytes of a source, of which so many are allowed. The caller picks the
// ledger in which its steps are counted.
pub(crate) fn parsed<'t, S: Source, L: Ledger>(
    alloc: Global,
    source: &mut S,
    terms: &'t Terms,
    most: u64,
    blank: Blank,
) -> Result<Feeding<'t>, SourceFault>
    requires name { blank.name ≡ L.name }
    requires parts { blank.parts ≡ L.parts }
    requires some { 0 < L.parts }
    requires few { most ≤ 2 ^ 60 }
    ensures parsed { IfOk result (λ feeding.
        HasParsedAll terms.now (S.seen source.old).left (S.seen source.new).left most feeding) }
    ensures too_large { IsErrOf result SourceFault.TooLarge → IsLonger (S.seen source.old).left most }
    ensures cause { IsErrOf result SourceFault.Failed
        → Rose (S.seen source.old).faults (S.seen source.new).faults }
    ensures still { result ≢ Err SourceFault.Failed
        → (S.seen source.new).faults ≡ (S.seen source.old).faults }
{
    let mut steps = Steps::<L>::open(blank);
    let mut feeding = Feeding::open(alloc, terms)?;
    let mut buffer = vec![in alloc; 0u8; PIECE]?;
    match read_all(source, &mut feeding, &mut buffer, most, &mut steps) {
        Ok(()) => {
            feeding.finish(&mut steps)?;
            Ok(feeding)
        }
        Err(fault) => Err(fault),
    }
}
