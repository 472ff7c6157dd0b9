// An element of a tree.
ghost use Rattle.std.specs.Prelude.{◌≡◌, ◌<◌, ◌^◌, length, map};
ghost use Rattle.dfdl_markup.specs.Values.{bindings_of};
ghost use Rattle.dfdl_xml_names.specs.Shown.{attribute_of};

use crate::text::Text;
use dfdl_xml_names::{Attribute, Bindings, Name};

/// An element: its name and attributes as they are written, what they declare, the number of the element that it
/// stands in, those of its children, its characters, and the byte at which its start tag begins.
#[derive(Drop)]
pub(crate) struct Element {
    pub(crate) name: Name,
    pub(crate) attributes: Vec<Attribute>,
    pub(crate) declared: Bindings,
    pub(crate) parent: Option<u32>,
    pub(crate) children: Vec<u32>,
    pub(crate) text: Text,
    pub(crate) at: u64,
    ghost declares: { declared ≡ bindings_of (map attribute_of attributes.items) },
    ghost few_attributes: { length attributes.items < 2 ^ 32 },
}
