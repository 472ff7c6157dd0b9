// What attributes declare.
ghost use Rattle.std.specs.Prelude.{◌≡◌, ◌++◌, ◌∷◌, [], IfOk, chars, map};
ghost use Rattle.dfdl_markup.specs.Values.{bindings_of};
ghost use Rattle.dfdl_xml_names.specs.Shown.{attribute_of, name_of};

use crate::bindings::Bindings;
use crate::name::{Attribute, Name};
use std::alloc::{AllocError, Global};

// The bindings with what an attribute declares, if it does.
pub(crate) fn declare(bindings: Bindings, name: &Name, value: &str) -> Result<Bindings, AllocError>
    ensures { IfOk result (λ more. more ≡ bindings
        ++ bindings_of (record { name = name_of name.now; value = chars value.now } ∷ [])) }
{
    match name.declares() {
        Some(prefix) => bindings.with(prefix, value),
        None => Ok(bindings),
    }
}

// The bindings with what one more attribute declares.
fn declare_more(bindings: Bindings, attribute: &Attribute) -> Result<Bindings, AllocError>
    ensures { IfOk result (λ more. more ≡ bindings ++ bindings_of (attribute_of attribute.now ∷ [])) }
{
    declare(bindings, &attribute.name, attribute.value.as_str())
}

/// The bindings that attributes declare, in their order.
#[tactic(auto, using(crate::proofs::Lists::declared_more))]
pub fn declared_by(alloc: Global, attributes: &[Attribute]) -> Result<Bindings, AllocError>
    ensures { IfOk result (λ bindings. bindings ≡ bindings_of (map attribute_of attributes.now)) }
{
    let mut bindings = Bindings::new(alloc);
    for attribute in attributes {
        bindings = declare_more(bindings, attribute)?;
    }
    Ok(bindings)
}
