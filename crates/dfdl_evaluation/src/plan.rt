// What unparsing goes by, lent.

use crate::form::Form;
use dfdl_delims::{Markup, OpenLists};
use dfdl_rows::{Component, Components, LeafLength};
use dfdl_terms::{Delimiters, Primitive, Terms, Writing};
use std::marker::Model;

/// What unparsing goes by ('DFDL Processing Introduction'): the rows with their tables, the components that they come from, how each of these is
/// written, and the component of the root; and the lists of delimiters of the tables as a register has them.
#[derive(Drop)]
pub struct Plan<'a> {
    terms: &'a Terms,
    components: &'a Components,
    markup: &'a Markup,
    writings: &'a [Writing],
    root: u32,
}

impl<'a> Model for Plan<'a> {
    ghost use Rattle.std.specs.Prelude.{map};
    ghost use Rattle.dfdl_cells.specs.Plans.{Plan};
    ghost use Rattle.dfdl_delims.specs.Registers.{Holds};
    ghost use Rattle.dfdl_grammar.specs.Delimiters.{opened};

    ghost Value = { Plan };

    ghost view = { λ p. record { table = p.terms.now; schema = p.components.now; writings = p.writings.now; root = p.root } };

    ghost invariant = { λ p. Holds p.markup.now (map opened p.terms.now.delimiters) };
}

impl<'a> Plan<'a> {
    ghost use Rattle.std.specs.Prelude.{◌≡◌, ◌<◌, All, IfSome, length, map, option_copied, slice_get};
    ghost use Rattle.dfdl_cells.specs.Plans as plans;
    ghost use Rattle.dfdl_cells.specs.Sound.{AreLists};
    ghost use Rattle.dfdl_delims.specs.Opening.{Opens};
    ghost use Rattle.dfdl_delims.specs.Registers.{Holds};
    ghost use Rattle.dfdl_evaluation.specs.Forms.{HasBounds, form_shown, some_shown};
    ghost use Rattle.dfdl_grammar.specs.Delimiters.{lists_of, opened};
    ghost use Rattle.dfdl_terms.specs.Rows.{IsPrimitive};

    /// List n of the delimiters of the tables is list n of the register.
    pub fn new(
        terms: &'a Terms,
        components: &'a Components,
        markup: &'a Markup,
        writings: &'a [Writing],
        root: u32,
    ) -> Plan<'a>
        requires { Holds markup.now (map opened terms.now.delimiters) }
        ensures { result ≡ record { table = terms.now; schema = components.now; writings = writings.now; root = root } }
    {
        Plan {
            terms,
            components,
            markup,
            writings,
            root,
        }
    }

    /// The component of the root.
    pub fn root(&self) -> u32
        ensures { result ≡ self.now.root }
    {
        self.root
    }

    /// How the component of a number is written, if there is one of it.
    pub fn writing(&self, component: u32) -> Option<&Writing>
        ensures { option_copied result ≡ plans.writing_of self.now component }
    {
        self.writings.get(component as usize)
    }

    /// The list of delimiters of a number, if there is one of it.
    pub fn list(&self, list: u32) -> Option<&Delimiters>
        ensures { option_copied result ≡ plans.list_of self.now list }
    {
        self.terms.tables().delimiters().get(list as usize)
    }

    /// The primitive of a number, if there is one of it.
    pub fn primitive(&self, number: u32) -> Option<&Primitive>
        ensures primitive { option_copied result ≡ slice_get self.now.table.primitives number }
        ensures bounded { IfSome (option_copied result) IsPrimitive }
    {
        self.terms.tables().primitives().get(number as usize)
    }

    // The component of a number, if there is one of it.
    fn component(&self, number: u32) -> Option<&Component>
        ensures { option_copied result ≡ slice_get self.now.schema.components number }
    {
        if number < self.components.count() {
            Some(self.components.component(number))
        } else {
            None
        }
    }

    // The primitive of a number, if there is a number.
    fn primitive_if(&self, number: Option<u32>) -> Option<&Primitive>
        ensures primitive { option_copied result ≡ plans.primitive_if self.now number }
        ensures bounded { IfSome (option_copied result) IsPrimitive }
    {
        match number {
            Some(number) => self.primitive(number),
            None => None,
        }
    }

    // A form with these primitives, where the first one is there.
    fn form_with(&self, prim: u32, nil: Option<u32>, length: LeafLength) -> Option<Form<'_>>
        ensures form { some_shown result ≡ plans.form_with (plans.primitive_if self.now nil) length (slice_get self.now.table.primitives prim) }
        ensures bounded { IfSome (some_shown result) HasBounds }
    {
        let nil = self.primitive_if(nil);
        match self.primitive(prim) {
            Some(prim) => Some(Form { prim, nil, length }),
            None => None,
        }
    }

    // The form of a component that is a simple element.
    fn form_by(&self, component: &Component) -> Option<Form<'_>>
        ensures form { some_shown result ≡ plans.form_by self.now component.now }
        ensures bounded { IfSome (some_shown result) HasBounds }
    {
        match component {
            Component::SimpleElement {
                prim,
                length,
                tried,
                ..
            } => self.form_with(*prim, tried.nil, *length),
            _ => None,
        }
    }

    /// How the content of the component of a number lies, where that is a simple element.
    pub fn form(&self, component: u32) -> Option<Form<'_>>
        ensures form { some_shown result ≡ plans.form_of self.now component }
        ensures bounded { IfSome (some_shown result) HasBounds }
    {
        match self.component(component) {
            Some(component) => self.form_by(component),
            None => None,
        }
    }

    /// The lists of delimiters of these numbers, as those that are open.
    pub fn open_lists<'b>(&'b self, numbers: &'b [u32]) -> OpenLists<'b>
        requires { AreLists self.now numbers.now }
        ensures { Opens result (lists_of self.now.table.delimiters numbers.now) }
    {
        OpenLists {
            markup: self.markup,
            numbers,
        }
    }
}
