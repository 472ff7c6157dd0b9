// Formats, each joined with the one that it refers to.
ghost use Rattle.std.specs.Prelude.{◌≡◌, ℕ, List, IfOk, OnOk};
ghost use Rattle.dfdl_scope.specs.Scoping.{nearer};
ghost use Rattle.dfdl_scope.specs.Shown.{given, given_if, format_given, lent_text};

use crate::properties::Properties;
use std::alloc::{AllocError, Global};

/// What a format gives, with what it takes from the formats that its reference leads to.
///
/// Where formats are filled with properties of the table alone (`is_property`), joining one with
/// the next costs as many steps as the table has rows, however long the chain is.
#[derive(Debug, Drop)]
pub struct Format<'c> {
    pub(crate) joined: Properties<'c>,
}

impl<'c> Format<'c> {
    /// A format of these properties that refers to no other.
    pub fn new(own: Properties<'c>) -> Format<'c>
        ensures { (q : List ℕ) → format_given result q ≡ given own.entry q }
    {
        Format { joined: own }
    }

    /// A format of these properties, with those of the one that it refers to, where it does.
    pub fn over(
        alloc: Global,
        own: &Properties<'c>,
        next: Option<&Format<'c>>,
    ) -> Result<Format<'c>, AllocError>
        ensures { IfOk result (λ format. (q : List ℕ) → format_given format q
            ≡ nearer (given own.now) (given_if next.entry) q) }
    {
        let mut joined = Properties::new(alloc);
        joined.add_all_absent(own)?;
        if let Some(next) = next {
            joined.add_all_absent(&next.joined)?;
        }
        Ok(Format { joined })
    }

    /// The value of a property in this format, or in the nearest that it leads to.
    pub fn get(&self, name: &str) -> Option<&'c str>
        ensures { lent_text result ≡ format_given self.now name.now }
    {
        self.joined.get(name)
    }
}
