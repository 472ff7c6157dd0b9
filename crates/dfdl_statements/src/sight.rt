// What expressions may name.
ghost use Rattle.std.specs.Prelude.{◌≡◌};
ghost use Rattle.dfdl_statements.specs.Sights.{statics_of};

use crate::written::Written;
use dfdl_expression_types::{Element, Place, Statics, Variable};
use std::collections::BTreeMap;

/// What all expressions of a schema may name.
#[derive(Clone, Copy)]
pub struct Sight<'s> {
    /// All elements, of which the first is the root.
    pub elements: &'s [Element],
    /// The numbers of the local names of elements.
    pub names: &'s BTreeMap<String, u32>,
    /// The variables by their local names.
    pub variables: &'s BTreeMap<String, Variable>,
}

/// What the expression of a statement may name that stands at a place.
pub(crate) fn statics<'s>(sight: &Sight<'s>, written: &Written<'s>, place: Place) -> Statics<'s>
    ensures { result ≡ statics_of sight.now written.now place }
{
    Statics {
        elements: sight.elements,
        names: sight.names,
        prefixes: written.prefixes,
        variables: sight.variables,
        place,
    }
}
