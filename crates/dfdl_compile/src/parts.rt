// The parts of the components of a schema's documents, and where these stand.
ghost use Rattle.std.specs.Prelude.{◌≡◌, Bool, All, length, map, IfOk, IfErr, IfSome, OnOk};
ghost use Rattle.dfdl_order.specs.declared.fault.OrderFault.TheVariants.{OutOfMemory};
ghost use Rattle.dfdl_components.specs.Recursion.{number_of};
ghost use Rattle.dfdl_components.specs.Sites.{IsSite};
ghost use Rattle.dfdl_components.specs.declared.site.Site as declared_site;
ghost use Rattle.dfdl_chains.specs.Shown.{AreNumbers};
ghost use Rattle.dfdl_breaches.specs.Elements.{place_of};
ghost use Rattle.dfdl_breaches.specs.Judging.{judgement_at};
ghost use Rattle.dfdl_compile.specs.Components as spec;
ghost use Rattle.dfdl_compile.specs.Shown.{HidesElement};

use dfdl_breaches::Judgement;
use dfdl_chains::{Numbers, parts_at};
use dfdl_checks::Purpose;
use dfdl_components::{Schema, Site};
use dfdl_order::{OrderFault, Uses};
use dfdl_report::Place;
use std::alloc::{AllocError, Global};

// The numbers of some elements, in place of those before.
fn number_all(
    schema: &Schema,
    numbers: &Numbers,
    sites: &[Site],
    found: &mut Vec<u32>,
) -> Result<(), AllocError>
    requires sites { All (IsSite schema.now) sites.now }
    requires numbers { AreNumbers schema.now numbers.now }
    ensures { OnOk result (found.new.items ≡ map (number_of schema.now) sites.now) }
{
    found.clear();
    for site in sites {
        found.push(numbers.number(schema, *site))?;
    }
    Ok(())
}

/// The parts of an element that hides the group of this sequence or choice, or none, in place of those before.
pub(crate) fn parts_by(
    schema: &Schema,
    numbers: &Numbers,
    site: Site,
    hidden: Option<Site>,
    parts: &mut Vec<Site>,
) -> Result<(), AllocError>
    requires site { IsSite schema.now site }
    requires hidden { IfSome hidden (IsSite schema.now) }
    requires numbers { AreNumbers schema.now numbers.now }
    ensures parts { OnOk result (parts.new.items ≡ spec.parts_by schema.now site hidden) }
    ensures within { OnOk result (All (IsSite schema.now) parts.new.items) }
{
    match hidden {
        Some(content) => {
            parts.clear();
            parts.push(content)?;
            Ok(())
        }
        None => parts_at(schema, numbers, site, parts),
    }
}

/// The numbers of the parts of each element, of which this is told.
pub(crate) fn uses(
    alloc: Global,
    schema: &Schema,
    numbers: &Numbers,
    purpose: Purpose,
    sites: &[Site],
    judgements: &[Judgement],
) -> Result<Uses, OrderFault>
    requires sites { All (IsSite schema.now) sites.now }
    requires numbers { AreNumbers schema.now numbers.now }
    requires told { length judgements.now ≡ length sites.now }
    requires hidden { All (HidesElement schema.now) judgements.now }
    ensures uses { (refused : declared_site.Site → Bool)
        → judgements.now ≡ map (judgement_at purpose refused schema.now) sites.now
        → IfOk result (λ made. made ≡ map (spec.part_numbers purpose refused schema.now) sites.now) }
    ensures only_memory { IfErr result (λ e. e ≡ OutOfMemory) }
{
    let _ = purpose;
    let mut made = Uses::new(alloc);
    let mut parts = Vec::new(alloc);
    let mut found = Vec::new(alloc);
    for at in 0..sites.len() {
        let site = sites[at];
        parts_by(schema, numbers, site, judgements[at].hidden, &mut parts)?;
        number_all(schema, numbers, parts.as_slice(), &mut found)?;
        made.push(found.as_slice())?;
    }
    Ok(made)
}

/// Where each element stands.
pub(crate) fn places(
    alloc: Global,
    schema: &Schema,
    sites: &[Site],
) -> Result<Vec<Place>, AllocError>
    requires { All (IsSite schema.now) sites.now }
    ensures { IfOk result (λ made. made.items ≡ map (place_of schema.now) sites.now) }
{
    let mut made = Vec::new(alloc);
    for site in sites {
        made.push(place_at(schema, *site))?;
    }
    Ok(made)
}

// Where an element stands.
pub(crate) fn place_at(schema: &Schema, site: Site) -> Place
    requires { IsSite schema.now site }
    ensures { result ≡ place_of schema.now site }
{
    schema.place(site)
}
