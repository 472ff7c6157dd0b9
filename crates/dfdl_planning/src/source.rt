// What a layout is made of.

use dfdl_rows::Components;
use dfdl_terms::{Delimiters, Primitive, Statement, Terms, Writing};
use std::marker::Model;

/// The rows of a schema with their tables, its components, and how each of these is written.
#[derive(Drop)]
pub struct Source<'a> {
    terms: &'a Terms,
    components: &'a Components,
    writings: &'a [Writing],
    root: u32,
}

impl<'a> Model for Source<'a> {
    ghost use Rattle.dfdl_cells.specs.Plans.{Plan};

    ghost Value = { Plan };

    ghost view = { λ s. record { table = s.terms.now; schema = s.components.now; writings = s.writings.now; root = s.root } };
}

impl<'a> Source<'a> {
    ghost use Rattle.std.specs.Prelude.{◌≡◌, option_copied, slice_get};
    ghost use Rattle.dfdl_cells.specs.Plans.{list_of, writing_of};

    pub fn new(
        terms: &'a Terms,
        components: &'a Components,
        writings: &'a [Writing],
        root: u32,
    ) -> Source<'a>
        ensures { result ≡ record { table = terms.now; schema = components.now; writings = writings.now; root = root } }
    {
        Source {
            terms,
            components,
            writings,
            root,
        }
    }

    // The components.
    pub(crate) fn components(&self) -> &Components
        ensures { result.now ≡ self.now.schema }
    {
        self.components
    }

    // The component of the root.
    pub(crate) fn root(&self) -> u32
        ensures { result ≡ self.now.root }
    {
        self.root
    }

    // How the component of a number is written, if there is one of it.
    pub(crate) fn writing(&self, component: u32) -> Option<&Writing>
        ensures { option_copied result ≡ writing_of self.now component }
    {
        self.writings.get(component as usize)
    }

    // The list of delimiters of a number, if there is one of it.
    pub(crate) fn list(&self, list: u32) -> Option<&Delimiters>
        ensures { option_copied result ≡ list_of self.now list }
    {
        self.terms.tables().delimiters().get(list as usize)
    }

    // The primitive of a number, if there is one of it.
    pub(crate) fn primitive(&self, number: u32) -> Option<&Primitive>
        ensures { option_copied result ≡ slice_get self.now.table.primitives number }
    {
        self.terms.tables().primitives().get(number as usize)
    }

    // The statement of a number, if there is one of it.
    pub(crate) fn statement(&self, number: usize) -> Option<&Statement>
        ensures { option_copied result ≡ slice_get self.now.table.statements number }
    {
        self.terms.tables().statements().get(number)
    }
}
