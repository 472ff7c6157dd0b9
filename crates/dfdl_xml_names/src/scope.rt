// The bindings inside of a tag that is open.
ghost use Rattle.std.specs.Prelude.{◌≡◌, chars, true};
ghost use Rattle.std.specs.List.{list_all};
ghost use Rattle.dfdl_markup.specs.Values.{found, is_found, is_some_text, xmlns_prefix};
ghost use Rattle.dfdl_xml_names.specs.Shown.{name_of, lent_text};
ghost use Rattle.dfdl_xml_names.specs.Scoped.{scope_seen};

use crate::bindings::Bindings;
use crate::frames::Frames;
use crate::name::{Attribute, Name, xmlns};

/// What a tag declares, and the elements around it, if they count.
#[derive(Clone, Copy, Drop)]
pub(crate) struct Scope<'a> {
    pub(crate) declared: &'a Bindings,
    pub(crate) outer: Option<&'a Frames>,
}

impl<'a> Scope<'a> {
    /// The namespace that a prefix stands for.
    pub(crate) fn find(&self, prefix: &str) -> Option<&'a str>
        ensures { lent_text result ≡ found (scope_seen self.now) (chars prefix.now) }
    {
        if let Some(namespace) = self.declared.find(prefix) {
            return Some(namespace);
        }
        match self.outer {
            Some(frames) => frames.find(prefix),
            None => None,
        }
    }

    /// The prefix of the name is declared, if it has one.
    pub(crate) fn is_found(&self, name: &Name) -> bool
        ensures { result ≡ is_found (scope_seen self.now) (name_of name.now) }
    {
        match name {
            Name::Plain(_) => true,
            Name::Prefixed { prefix, .. } => self.find(prefix.as_str()).is_some(),
        }
    }

    /// The prefix `xmlns` is declared.
    pub(crate) fn finds_declarations(&self) -> bool
        ensures { result ≡ true → is_some_text (found (scope_seen self.now) xmlns_prefix) ≡ true }
    {
        self.find(xmlns()).is_some()
    }

    /// The prefixes of all attributes' names are declared.
    pub(crate) fn are_found(&self, attributes: &[Attribute]) -> bool
        ensures { result ≡ list_all (λ a. is_found (scope_seen self.now) (name_of a.name)) attributes.now }
    {
        attributes
            .iter()
            .all(|attribute| self.is_found(&attribute.name))
    }
}
