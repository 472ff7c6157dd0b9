ghost use Rattle.std.specs.Prelude.{◌≡◌, ℕ, ◌<◌, ◌≤◌, ◌^◌, List, [], ◌∷◌, ◌++◌, length, All, OnOk, OnErr, IfErr, IsTrue, false};
ghost use Rattle.dfdl_order.specs.declared.fault.OrderFault.TheVariants.{OutOfMemory};
ghost use Rattle.dfdl_order.specs.Parts.{uses_of, IsClosed};

use crate::OrderFault;
use std::alloc::Global;
use std::marker::Model;

/// Components by number, and the parts of each one in schema order.
#[derive(Drop)]
pub struct Uses {
    parts: Vec<u32>,
    spans: Vec<Span>,
}

// The parts of one component: from a place in the list of all up to another.
#[derive(Clone, Copy)]
pub(crate) struct Span {
    pub(crate) begin: usize,
    pub(crate) end: usize,
}

impl Model for Uses {
    ghost use Rattle.std.specs.Prelude.{ℕ, List, length, ◌<◌, ◌^◌};
    ghost use Rattle.dfdl_order.specs.UsesShown.{lists_in, AreWithin};

    ghost Value = { List (List ℕ) };

    ghost view = { λ u. lists_in u.parts.items u.spans.items };

    ghost invariant = { λ u. (length u.spans.items < 2 ^ 32) × AreWithin u.parts.items u.spans.items };
}

impl Uses {
    /// No component yet.
    pub fn new(alloc: Global) -> Uses
        ensures { result ≡ [] }
    {
        Uses {
            parts: Vec::new(alloc),
            spans: Vec::new(alloc),
        }
    }

    /// How many components there are.
    pub fn count(&self) -> u32
        ensures { result ≡ length self.now }
    {
        self.spans.len() as u32
    }

    /// The parts of a component.
    pub fn of(&self, component: u32) -> &[u32]
        requires { component < length self.now }
        ensures { result.now ≡ uses_of self.now component }
    {
        let span = self.spans[component as usize];
        &self.parts[span.begin..span.end]
    }

    /// Adds a component with these parts. They may be components that are added later.
    pub fn push(&mut self, parts: &[u32]) -> Result<(), OrderFault>
        ensures added { OnOk result (self.new ≡ self.old ++ parts.now ∷ []) }
        ensures kept { OnErr result (self.new ≡ self.old) }
        ensures only_memory { IfErr result (λ e. e ≡ OutOfMemory) }
    {
        if self.spans.len() >= u32::MAX as usize {
            return Err(OrderFault::OutOfMemory);
        }
        let begin = self.parts.len();
        self.parts.extend_from_slice(parts)?;
        let end = self.parts.len();
        let Ok(()) = self.spans.push(Span { begin, end }) else {
            return Err(OrderFault::OutOfMemory);
        };
        Ok(())
    }

    /// Each part is a component.
    pub fn is_closed(&self) -> bool
        ensures closed { IsTrue result → IsClosed self.now }
        ensures unknown { result ≡ false → IsClosed self.now → ⊥ }
    {
        let count = self.count();
        for component in 0..count {
            if !are_below(self.of(component), count) {
                return false;
            }
        }
        true
    }
}

// Each of these numbers is below a bound.
fn are_below(parts: &[u32], count: u32) -> bool
    ensures below { IsTrue result → All (λ p. p < count) parts.now }
    ensures other { result ≡ false → All (λ p. p < count) parts.now → ⊥ }
{
    parts.iter().all(|part| *part < count)
}
