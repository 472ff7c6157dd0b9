// The reading of a whole source.
ghost use Rattle.std.specs.Prelude.{◌≡◌, ◌≢◌, ◌+◌, ◌-◌, ◌^◌, ◌<◌, ◌≤◌, [], take, drop, IfOk, OnOk};
ghost use Rattle.std.specs.Prelude.{OnErr, IsErrOf, vec_len};
ghost use Rattle.dfdl_edge.specs.Faults.{Rose};
ghost use Rattle.dfdl_edge.specs.Told.{IsAll, IsLonger, IsWithin};
ghost use Rattle.dfdl_edge.specs.Source.{Takes};
ghost use Rattle.dfdl_edge.specs.Whole.{IsUsedUp, IsRestOf};

use crate::reading::{Failed, Source};
use std::alloc::{AllocError, Global};
use thiserror::Error;

/// Why a source was not read to its end.
#[derive(Clone, Copy, Debug, PartialEq, Eq, Error)]
pub enum SourceFault {
    /// A read failed.
    #[error("a read failed")]
    Failed,
    /// The source gave a byte past the greatest number allowed.
    #[error("there are more bytes than are allowed")]
    TooLarge,
    #[error("out of memory")]
    OutOfMemory,
}

impl From<Failed> for SourceFault {
    ghost use Rattle.std.specs.Prelude.{◌≡◌};
    ghost use Rattle.dfdl_edge.specs.declared.whole.SourceFault.TheVariants as fault;

    ghost from_gives = { λ _ error. error ≡ fault.Failed };

    fn from(_: Failed) -> SourceFault {
        SourceFault::Failed
    }
}

impl From<AllocError> for SourceFault {
    ghost use Rattle.std.specs.Prelude.{◌≡◌};
    ghost use Rattle.dfdl_edge.specs.declared.whole.SourceFault.TheVariants as fault;

    ghost from_gives = { λ _ error. error ≡ fault.OutOfMemory };

    fn from(_: AllocError) -> SourceFault {
        SourceFault::OutOfMemory
    }
}

// How many bytes are made room for at a time.
const CHUNK: usize = 64 * 1024;

/// All bytes that a source has left, of which `most` are allowed. Memory is taken as bytes come.
#[tactic(auto, using(crate::proofs::Filling::is_after_read))]
pub fn read_to_limit<S: Source>(
    alloc: Global,
    source: &mut S,
    most: u64,
) -> Result<Vec<u8>, SourceFault>
    ensures bytes { IfOk result (λ v. IsAll (S.seen source.old).left v.items) }
    ensures fits { IfOk result (λ v. vec_len v ≤ most) }
    ensures used_up { OnOk result (IsUsedUp (S.seen source.old).left (S.seen source.new).left) }
    ensures within { OnOk result (IsWithin (S.seen source.old).left most) }
    ensures too_large { IsErrOf result SourceFault.TooLarge
        → IsLonger (S.seen source.old).left most }
    ensures rest { IsRestOf (S.seen source.old).left (S.seen source.new).left }

    // A Vec has fewer than 2 ^ 63 bytes, so a greater limit is not passed.
    ensures limit { IsErrOf result SourceFault.TooLarge → most < 2 ^ 63 }

    ensures later { (S.seen source.old).faults ≤ (S.seen source.new).faults }
    ensures cause { IsErrOf result SourceFault.Failed
        → Rose (S.seen source.old).faults (S.seen source.new).faults }
    ensures still { result ≢ Err SourceFault.Failed
        → (S.seen source.new).faults ≡ (S.seen source.old).faults }
{
    let most = most as usize;
    let mut bytes = Vec::new(alloc);
    let mut filled = 0;
    while filled < most {
        let count = read_more(source, &mut bytes, filled, most)?;
        if count == 0 {
            bytes.truncate(filled);
            return Ok(bytes);
        }
        filled += count;
    }
    expect_end(source)?;
    Ok(bytes)
}

// One read behind the first `filled` bytes, where room is made if there is none.
fn read_more<S: Source>(
    source: &mut S,
    bytes: &mut Vec<u8>,
    filled: usize,
    most: usize,
) -> Result<usize, SourceFault>
    requires filled { filled ≤ vec_len bytes.old }
    requires within { vec_len bytes.old ≤ most }
    requires room { filled < most }
    ensures count { IfOk result (λ count. filled + count ≤ vec_len bytes.new) }
    ensures within { vec_len bytes.new ≤ most }
    ensures front { OnOk result (take filled bytes.new.items ≡ take filled bytes.old.items) }
    ensures takes { IfOk result (λ count. Takes (S.seen source.old).left count (drop filled bytes.new.items) (S.seen source.new).left) }
    ensures err { OnErr result ((S.seen source.new).left ≡ (S.seen source.old).left) }
    ensures never { result ≢ Err SourceFault.TooLarge }

    ensures later { (S.seen source.old).faults ≤ (S.seen source.new).faults }
    ensures cause { IsErrOf result SourceFault.Failed
        → Rose (S.seen source.old).faults (S.seen source.new).faults }
    ensures still { result ≢ Err SourceFault.Failed
        → (S.seen source.new).faults ≡ (S.seen source.old).faults }
{
    if filled == bytes.len() {
        let room = filled.saturating_add(CHUNK).min(most);
        bytes.resize(room, 0)?;
    }
    let count = source.read(&mut bytes[filled..])?;
    Ok(count)
}

// The source has no byte left.
fn expect_end<S: Source>(source: &mut S) -> Result<(), SourceFault>
    ensures used_up { OnOk result (IsUsedUp (S.seen source.old).left (S.seen source.new).left) }
    ensures ended { OnOk result (IsAll (S.seen source.old).left []) }
    ensures too_large { IsErrOf result SourceFault.TooLarge → IsLonger (S.seen source.old).left 0 }
    ensures memory { result ≢ Err SourceFault.OutOfMemory }
    ensures rest { IsRestOf (S.seen source.old).left (S.seen source.new).left }

    ensures later { (S.seen source.old).faults ≤ (S.seen source.new).faults }
    ensures cause { IsErrOf result SourceFault.Failed
        → Rose (S.seen source.old).faults (S.seen source.new).faults }
    ensures still { result ≢ Err SourceFault.Failed
        → (S.seen source.new).faults ≡ (S.seen source.old).faults }
{
    let mut next = [0u8; 1];
    match source.read(&mut next)? {
        0 => Ok(()),
        _ => Err(SourceFault::TooLarge),
    }
}
