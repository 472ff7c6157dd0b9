// The names of attributes as they are written.
ghost use Rattle.std.specs.Prelude.{◌≡◌, ◌++◌, ◌∷◌, ◌||◌, [], ℕ, List, IfOk, OnOk, chars, map, if◌then◌else◌, string_bytes, true};
ghost use Rattle.std.specs.BTreeSet.{contains_text};
ghost use Rattle.std.specs.List.{list_any};
ghost use Rattle.std.specs.Str.{bytes_eq};
ghost use Rattle.dfdl_markup.specs.Grammar.{name_characters};
ghost use Rattle.dfdl_markup.specs.Values.{Attribute as Attributed};
ghost use Rattle.dfdl_xml_names.specs.Shown.{attribute_of, name_of};
ghost use Rattle.dfdl_xml_names.specs.Indexed.{IsWritten};

use crate::name::{Attribute, Name};
use crate::pairs::add_text;
use std::alloc::{AllocError, Global};
use std::collections::BTreeSet;

/// The names of attributes as they are written, in an ordered set, and whether two are written alike.
#[derive(Debug, Drop)]
pub(crate) struct Written {
    pub(crate) names: BTreeSet<String>,
    pub(crate) repeated: bool,
}

impl Written {
    fn new(alloc: Global) -> Written
        ensures { IsWritten result [] }
    {
        Written {
            names: BTreeSet::new(alloc),
            repeated: false,
        }
    }

    /// The names of these attributes.
    pub(crate) fn of(alloc: Global, attributes: &[Attribute]) -> Result<Written, AllocError>
        ensures { IfOk result (λ written. IsWritten written (map attribute_of attributes.now)) }
    {
        let mut written = Written::new(alloc);
        for attribute in attributes {
            written.add(&attribute.name)?;
        }
        Ok(written)
    }

    /// The name of one attribute more.
    pub(crate) fn add(&mut self, name: &Name) -> Result<(), AllocError>
        ensures { OnOk result ((attributes : List Attributed) (value : List ℕ) → IsWritten self.old attributes
            → IsWritten self.new (attributes ++ record { name = name_of name.now; value = value } ∷ [])) }
    {
        self.insert(name.text()?)
    }

    fn insert(&mut self, name: String) -> Result<(), AllocError>
        ensures names { OnOk result ((q : List ℕ) → contains_text self.new.names q
            ≡ (if bytes_eq (string_bytes name) q then true else contains_text self.old.names q)) }
        ensures repeated { OnOk result (self.new.repeated ≡ (self.old.repeated || contains_text self.old.names (string_bytes name))) }
    {
        let is_new = add_text(&mut self.names, name)?;
        self.repeated = self.repeated || !is_new;
        Ok(())
    }

    /// An attribute has this name as it is written.
    pub(crate) fn has(&self, name: &str) -> bool
        ensures { (attributes : List Attributed) → IsWritten self.now attributes
            → result ≡ list_any (λ a. bytes_eq (name_characters a.name) (chars name.now)) attributes }
    {
        self.names.contains(name)
    }
}
