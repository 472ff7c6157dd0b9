// A schema with all that parsing and unparsing ask of it.
ghost use Rattle.std.specs.Prelude.{◌≡◌, IfOk};
ghost use Rattle.dfdl_compile.specs.WholeShown.{terms_of};

use crate::fault::CompileFault;
use dfdl_rows::Components;
use dfdl_terms::{Terms, Writing};

/// A schema with all that parsing and unparsing ask of it ('DFDL Schema Component Model').
#[derive(Drop)]
pub struct CompiledSchema {
    /// Its rows with their tables, as `compile` gives them.
    pub terms: Terms,
    /// The components that the rows come from: each element of the documents, by its number among those of all.
    pub components: Components,
    /// The number of the root's component.
    pub root: u32,
    /// How each component is written beside what its rows say, by its number.
    pub writings: Vec<Writing>,
}

/// A schema by its terms, if it has some.
pub(crate) fn with_terms(
    terms: Result<Terms, CompileFault>,
    components: Components,
    root: u32,
    writings: Vec<Writing>,
) -> Result<CompiledSchema, CompileFault>
    ensures terms { terms_of result ≡ terms }
    ensures components { IfOk result (λ whole. whole.components ≡ components) }
    ensures root { IfOk result (λ whole. whole.root ≡ root) }
    ensures writings { IfOk result (λ whole. whole.writings.items ≡ writings.items) }
{
    match terms {
        Ok(terms) => Ok(CompiledSchema {
            terms,
            components,
            root,
            writings,
        }),
        Err(fault) => Err(fault),
    }
}
