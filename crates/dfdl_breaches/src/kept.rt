// What is kept of a schema.
ghost use Rattle.std.specs.Prelude.{◌≡◌, ◌<◌, ℕ, List, Option, length, option_map, IfSome};
ghost use Rattle.dfdl_components.specs.Recursion.{count_of, number_of};
ghost use Rattle.dfdl_components.specs.Sites.{IsSite};
ghost use Rattle.dfdl_components.specs.declared.site.Site as declared_site;
ghost use Rattle.dfdl_scope.specs.Shown.{element_of, given_if};
ghost use Rattle.dfdl_breaches.specs.Elements.{element_at};
ghost use Rattle.dfdl_breaches.specs.Formats.{format_value, given_by};
ghost use Rattle.dfdl_breaches.specs.KeptShown.{AreKept, IsFormatIf};
ghost use Rattle.dfdl_breaches.specs.Tabled.{AreJoined, IsEntry};

use crate::entry::Entry;
use crate::sites::Sites;
use dfdl_components::{Schema, Site};
use dfdl_scope::{Element, Format, Properties};

/// What is kept of a schema: its elements, what each of them gives, and the formats.
#[derive(Clone, Copy)]
pub(crate) struct Kept<'e, 's> {
    pub(crate) sites: &'e Sites,
    pub(crate) entries: &'e [Entry<'s>],
    pub(crate) formats: &'e [Format<'s>],
    /// What gives no property.
    pub(crate) nothing: &'e Properties<'s>,
}

// The format of a number.
#[tactic(auto, using(crate::proofs::Keeping::none_given))]
fn format_at<'e, 's>(
    schema: &Schema,
    formats: &'e [Format<'s>],
    number: Option<u32>,
) -> Option<&'e Format<'s>>
    requires joined { AreJoined schema.now (count_of schema.now) formats.now }
    requires within { IfSome number (λ n. n < length formats.now) }
    ensures { (o : Option declared_site.Site) (name : List ℕ) → number ≡ option_map (number_of schema.now) o → IsFormatIf schema.now o
        → given_if result name ≡ given_by (format_value schema.now) o name }
{
    let _ = schema;
    match number {
        Some(number) => Some(&formats[number as usize]),
        None => None,
    }
}

// What is kept of an element.
fn entry_at<'e, 's>(kept: &Kept<'e, 's>, schema: &Schema, site: Site) -> &'e Entry<'s>
    requires kept { AreKept schema.now kept.now }
    requires site { IsSite schema.now site }
    ensures { IsEntry schema.now site result.now }
{
    &kept.entries[kept.sites.number(schema, site) as usize]
}

/// An element as one of a chain.
pub(crate) fn element_at<'e, 's>(
    kept: &Kept<'e, 's>,
    schema: &Schema,
    site: Site,
) -> Element<'e, 's>
    requires kept { AreKept schema.now kept.now }
    requires site { IsSite schema.now site }
    ensures { element_of result ≡ element_at schema.now site }
{
    let entry = entry_at(kept, schema, site);
    Element {
        place: entry.place,
        own: &entry.own,
        format: format_at(schema, kept.formats, entry.format),
        default: format_at(schema, kept.formats, entry.default),
    }
}
