// The first element that reaches itself through what it consists of.
ghost use Rattle.std.specs.Prelude.{◌≡◌, ◌<◌, ◌≤◌, IfOk, IfErr, false};
ghost use Rattle.dfdl_order.specs.declared.fault.OrderFault.TheVariants.{OutOfMemory};
ghost use Rattle.dfdl_components.specs.Counting.{AreNumbers, IsFirstOrCount, IsRecursionOf};
ghost use Rattle.dfdl_components.specs.Recursion.{is_recursive, number_of};
ghost use Rattle.dfdl_components.specs.Sites.{IsSite};

use crate::parts::{Numbers, numbers_of, uses_of};
use crate::schema::Schema;
use crate::site::Site;
use dfdl_order::laws::nothing_in_an_order_reaches_itself;
use dfdl_order::{OrderFault, order_of};
use std::alloc::Global;

// The number of the first element that reaches itself, or the count of all where none does.
pub(crate) fn first_recursive(
    alloc: Global,
    numbers: &Numbers,
    schema: &Schema,
) -> Result<u32, OrderFault>
    requires { AreNumbers schema.now numbers.now }
    ensures first { IfOk result (IsFirstOrCount schema.now) }
    ensures only_memory { IfErr result (λ e. e ≡ OutOfMemory) }
{
    nothing_in_an_order_reaches_itself();
    let uses = uses_of(alloc, numbers, schema)?;
    match order_of(alloc, &uses) {
        Ok(_) => Ok(numbers.count),
        Err(OrderFault::Recursive { component }) => Ok(component),
        Err(OrderFault::OutOfMemory) => Err(OrderFault::OutOfMemory),
    }
}

// The numbers of the elements of a schema, and that of the first which reaches itself, or the count of
// all where none does.
#[derive(Drop)]
pub(crate) struct Recursion {
    pub(crate) numbers: Numbers,
    pub(crate) first: u32,
}

// Which elements of a schema reach themselves, as far as the first.
pub(crate) fn recursion_of(alloc: Global, schema: &Schema) -> Result<Recursion, OrderFault>
    ensures recursion { IfOk result (IsRecursionOf schema.now) }
    ensures only_memory { IfErr result (λ e. e ≡ OutOfMemory) }
{
    let numbers = numbers_of(alloc, schema)?;
    let first = first_recursive(alloc, &numbers, schema)?;
    Ok(Recursion { numbers, first })
}

impl Recursion {
    // The element of a schema reaches itself, where none before it does.
    #[tactic(auto, using(crate::proofs::Consisting::at_first, crate::proofs::Consisting::passed_first))]
    pub(crate) fn is_at(&self, schema: &Schema, site: Site) -> bool
        requires recursion { IsRecursionOf schema.now self.now }
        requires site { IsSite schema.now site }
        requires reached { number_of schema.now site ≤ self.now.first }
        ensures recursive { result ≡ is_recursive schema.now site }
        ensures passed { result ≡ false → number_of schema.now site < self.now.first }
    {
        let _ = schema;
        let start = self.numbers.starts[site.document as usize];
        u64::from(start) + u64::from(site.element) == u64::from(self.first)
    }
}
