// The types of variables.
ghost use Rattle.std.specs.Prelude.{◌≡◌, IfOk, option_copied, option_map};
ghost use Rattle.dfdl_components.specs.Sites.{IsSite};
ghost use Rattle.dfdl_chains.specs.Shown.{AreNumbers};
ghost use Rattle.dfdl_chains.specs.NamedShown.{named_shown};
ghost use Rattle.dfdl_variables.specs.Types as types;

use crate::reading::attribute;
use dfdl_chains::{NamedType, Numbers, prefix_type};
use dfdl_components::{Schema, Site};
use dfdl_forms::Simple;
use std::alloc::{AllocError, Global};

// The simple type that a named type comes to, if that is carried.
fn simple_of(named: Option<NamedType>) -> Option<Simple>
    ensures { result ≡ types.simple_of (option_map named_shown named) }
{
    match named {
        Some(named) => named.simple,
        None => None,
    }
}

// The simple type that a text names at an element, if that is carried.
fn type_by(
    alloc: Global,
    schema: &Schema,
    numbers: &Numbers,
    site: Site,
    text: Option<&str>,
) -> Result<Option<Simple>, AllocError>
    requires site { IsSite schema.now site }
    requires numbers { AreNumbers schema.now numbers.now }
    ensures { IfOk result (λ simple. simple ≡ types.type_by schema.now site (option_copied text.entry)) }
{
    match text {
        Some(text) => {
            let named = prefix_type(alloc, schema, numbers, site, text)?;
            Ok(simple_of(named))
        }
        None => Ok(Some(Simple::String)),
    }
}

/// The type of the variable that an element defines.
pub(crate) fn type_at(
    alloc: Global,
    schema: &Schema,
    numbers: &Numbers,
    site: Site,
) -> Result<Option<Simple>, AllocError>
    requires site { IsSite schema.now site }
    requires numbers { AreNumbers schema.now numbers.now }
    ensures { IfOk result (λ simple. simple ≡ types.type_at schema.now site) }
{
    let text = attribute(schema, site, "type");
    type_by(alloc, schema, numbers, site, text)
}
