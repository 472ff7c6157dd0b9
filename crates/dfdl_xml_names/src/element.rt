// An open element.
ghost use Rattle.std.specs.Prelude.{◌≡◌};
ghost use Rattle.dfdl_markup.specs.Grammar.{name_characters};
ghost use Rattle.dfdl_xml_names.specs.Shown.{name_of, text_of};

use crate::bindings::Bindings;
use crate::name::Name;

/// An open element: its name, the text of it, and what its start tag declares.
#[derive(Debug, Drop)]
pub(crate) struct Element {
    pub(crate) name: Name,
    pub(crate) text: String,
    pub(crate) declared: Bindings,
    ghost whole: { text_of text ≡ name_characters (name_of name) },
}
