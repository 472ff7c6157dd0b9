// The type of a calculated value.
ghost use Rattle.std.specs.Prelude.{◌≡◌};
ghost use Rattle.dfdl_components.specs.Sites.{IsSite};
ghost use Rattle.dfdl_checks.specs.Subjects as subjects;
ghost use Rattle.dfdl_chains.specs.Shown.{AreNumbers};
ghost use Rattle.dfdl_written.specs.Noting as spec;

use dfdl_chains::{Numbers, kind_at};
use dfdl_checks::Kind;
use dfdl_components::{Schema, Site};
use dfdl_forms::Simple;

// The simple type of a kind of component, where it has one.
fn simple_of(kind: Kind) -> Option<Simple>
    ensures { result ≡ subjects.simple_of kind }
{
    match kind {
        Kind::SimpleElement(simple) | Kind::PrefixNumber(simple) => Some(simple),
        _ => None,
    }
}

/// The type of the value of a component, which is calculated.
pub(crate) fn calculated_type(schema: &Schema, numbers: &Numbers, site: Site) -> Simple
    requires site { IsSite schema.now site }
    requires numbers { AreNumbers schema.now numbers.now }
    ensures { result ≡ spec.calculated_type schema.now site }
{
    simple_of(kind_at(schema, numbers, site)).unwrap_or(Simple::UnsignedByte)
}
