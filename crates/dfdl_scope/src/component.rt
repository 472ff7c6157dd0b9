// The chain of a component.
ghost use Rattle.std.specs.Prelude.{◌≡◌, ◌++◌, ◌∷◌, [], OnOk, OnErr};
ghost use Rattle.std.specs.Option.{option_or};
ghost use Rattle.dfdl_scope.specs.Scoping.{explicit};
ghost use Rattle.dfdl_scope.specs.Shown.{chain_of, element_of, lent_text, given_if};

use crate::format::Format;
use crate::properties::Properties;
use dfdl_report::Place;
use std::alloc::{AllocError, Global};

/// An element of a component's chain.
#[derive(Debug, Clone, Copy)]
pub struct Element<'e, 'c> {
    pub place: Place,
    pub own: &'e Properties<'c>,
    /// The format that it refers to.
    pub format: Option<&'e Format<'c>>,
    /// The default format of its document.
    pub default: Option<&'e Format<'c>>,
}

/// The elements whose properties are joined for one component, from the reference on.
#[derive(Drop)]
pub struct Component<'e, 'c> {
    pub(crate) chain: Vec<Element<'e, 'c>>,
}

impl<'e, 'c> Component<'e, 'c> {
    pub fn new(alloc: Global) -> Component<'e, 'c>
        ensures { chain_of result ≡ [] }
    {
        Component {
            chain: Vec::new(alloc),
        }
    }

    /// Adds what the last element refers to: the global element, the type or the group.
    pub fn push_element(&mut self, element: Element<'e, 'c>) -> Result<(), AllocError>
        ensures ok { OnOk result (chain_of self.new ≡ chain_of self.old ++ element_of element.entry ∷ []) }
        ensures err { OnErr result (chain_of self.new ≡ chain_of self.old) }
    {
        self.chain.push(element)?;
        Ok(())
    }
}

impl<'e, 'c> Element<'e, 'c> {
    /// The value of a property that is explicit here.
    pub(crate) fn explicit(&self, name: &str) -> Option<&'c str>
        ensures { lent_text result ≡ explicit (element_of self.now) name.now }
    {
        match self.own.get(name) {
            Some(value) => Some(value),
            None => value_in(self.format, name),
        }
    }
}

/// The value of a property in a format that may be lacking.
pub(crate) fn value_in<'c>(format: Option<&Format<'c>>, name: &str) -> Option<&'c str>
    ensures { lent_text result ≡ given_if format.entry name.now }
{
    match format {
        Some(format) => format.get(name),
        None => None,
    }
}
