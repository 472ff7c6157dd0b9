// The order of the elements of a schema.
ghost use Rattle.std.specs.Prelude.{IfOk};
ghost use Rattle.dfdl_order.specs.Parts.{IsOrder};
ghost use Rattle.dfdl_components.specs.Recursion.{all_uses};
ghost use Rattle.dfdl_components.specs.Rules.{loading_rules, AllKeep};

use crate::parts::{numbers_of, uses_of};
use crate::schema::Schema;
use dfdl_order::{Order, OrderFault, order_of};
use std::alloc::{AllocError, Global};

/// The order in which each element of a schema stands behind those that it consists of. An element is
/// its number among those of all documents.
pub fn order(alloc: Global, schema: &Schema) -> Result<Order, AllocError>
    requires { AllKeep (loading_rules schema.now) schema.now }
    ensures { IfOk result (IsOrder (all_uses schema.now)) }
{
    let Ok(numbers) = numbers_of(alloc, schema) else {
        return Err(AllocError);
    };
    let Ok(uses) = uses_of(alloc, &numbers, schema) else {
        return Err(AllocError);
    };
    match order_of(alloc, &uses) {
        Ok(order) => Ok(order),
        Err(OrderFault::OutOfMemory) => Err(AllocError),
        Err(OrderFault::Recursive { .. }) => unreachable!(),
    }
}
