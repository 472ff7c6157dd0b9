// The components of a schema for laying.

use crate::entry::Entry;
use std::marker::Model;

/// The entries of a schema's components by their numbers. A contract sees them as their list.
#[derive(Drop)]
pub struct Layout {
    entries: Vec<Entry>,
}

impl Model for Layout {
    ghost use Rattle.std.specs.Prelude.{List};
    ghost use Rattle.dfdl_outline.specs.declared.entry.Entry.{Entry};

    ghost Value = { List Entry };

    ghost view = { λ l. l.entries.items };
}

impl Layout {
    ghost use Rattle.std.specs.Prelude.{◌≡◌, option_copied, slice_get};

    /// Takes the entries as they are, and no memory.
    pub fn from_vec(entries: Vec<Entry>) -> Layout
        ensures { result ≡ entries.items }
    {
        Layout { entries }
    }

    /// The entry of a component, if there is one of this number.
    pub fn entry(&self, component: u32) -> Option<&Entry>
        ensures { option_copied result ≡ slice_get self.now component }
    {
        self.entries.get(component as usize)
    }
}
