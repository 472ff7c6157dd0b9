// A session that is given the data as they come.
ghost use Rattle.std.specs.Prelude.{◌≡◌, ◌<◌, ◌+◌, ◌^◌, ◌≤◌, ℕ, List, [], ◌++◌, true, false, IfOk, OnOk, All, length};
ghost use Rattle.dfdl_terms.specs.Rows.{Table};
ghost use Rattle.dfdl_run.specs.Meaning.{limits};
ghost use Rattle.dfdl_run.specs.Fed.{HasBegun, HasEnded, HasTaken};

use dfdl_bits::Steps;
use dfdl_parse::{Fed, Limits, Session};
use dfdl_terms::Terms;
use std::alloc::{AllocError, Global};
use std::sync::ledger::Ledger;

// What parsing may take: the bytes of the data that are held, the elements of a document, and the bytes of its strings and
// hexBinary values.
fn limits() -> Limits
    ensures { result ≡ limits }
{
    Limits {
        window: 33_554_432,
        nodes: 1_000_000,
        text: 33_554_432,
    }
}

/// A session with the count of the bytes that came. Once it needs no more, bytes are only counted.
#[derive(Drop)]
pub(crate) struct Feeding<'t> {
    pub(crate) session: Session<'t>,
    pub(crate) count: u64,
    pub(crate) needs_more: bool,
}

impl<'t> Feeding<'t> {
    // A session over no data yet.
    pub(crate) fn open(alloc: Global, terms: &'t Terms) -> Result<Feeding<'t>, AllocError>
        ensures taken { IfOk result (λ feeding. HasTaken terms.now feeding []) }
        ensures terms { IfOk result (λ feeding. feeding.session.terms.now ≡ terms.now) }
    {
        Ok(Feeding {
            session: Session::open(alloc, terms, limits())?,
            count: 0,
            needs_more: true,
        })
    }

    // Takes the next bytes of the data.
    pub(crate) fn take<L: Ledger>(
        &mut self,
        piece: &[u8],
        steps: &mut Steps<L>,
    ) -> Result<(), AllocError>
        requires begun { HasBegun self.old }
        requires few { self.old.count + length piece.now ≤ 2 ^ 60 }
        ensures taken { IfOk result (λ _. (t : Table) (bytes : List ℕ)
            → HasTaken t self.old bytes → HasTaken t self.new (bytes ++ piece.now)) }
        ensures count { OnOk result (self.new.count ≡ self.old.count + length piece.now) }
    {
        are_bytes(piece);
        self.count += piece.len() as u64;
        if !self.needs_more {
            return Ok(());
        }
        let fed = self.session.feed(piece, steps)?;
        self.needs_more = is_more(fed);
        Ok(())
    }

    // Says that there are no more data.
    pub(crate) fn finish<L: Ledger>(&mut self, steps: &mut Steps<L>) -> Result<(), AllocError>
        requires begun { HasBegun self.old }
        ensures { IfOk result (λ _. (t : Table) (bytes : List ℕ)
            → HasTaken t self.old bytes → HasEnded t self.new bytes) }
    {
        if !self.needs_more {
            return Ok(());
        }
        self.session.finish(steps)?;
        Ok(())
    }
}

// Each byte is one.
fn are_bytes(bytes: &[u8])
    ensures { All (λ byte. byte < 256) bytes.now }
{
    let _bytes = bytes;
}

// Whether a session needs more.
fn is_more(fed: Fed) -> bool
    ensures more { result ≡ true → fed ≡ Fed.More }
    ensures done { result ≡ false → (taken : ℕ) × (fed ≡ Fed.Done taken) }
{
    match fed {
        Fed::More => true,
        Fed::Done { .. } => false,
    }
}
