// What a schema declares, as an expression sees it.
ghost use Rattle.std.specs.Prelude.{◌≡◌, option_map, option_copied};
ghost use Rattle.dfdl_expression_types.specs.Declarations as declared;

use dfdl_forms::Simple;
use std::collections::BTreeMap;

/// A declared element.
#[derive(Debug, Drop)]
pub struct Element {
    /// The number of the element around it; the root element has none.
    pub parent: Option<usize>,
    /// The number of its local name.
    pub name: u32,
    /// Its simple type; a complex element has none.
    pub simple: Option<Simple>,
    /// The numbers of the elements right below it, in schema order, those of all branches among them.
    pub children: Vec<usize>,
}

/// A declared variable.
#[derive(Clone, Copy, Debug, PartialEq, Eq)]
pub struct Variable {
    pub number: u32,
    pub simple: Simple,
}

/// Where in the schema a path may stand.
#[derive(Clone, Copy, Debug, PartialEq, Eq)]
pub enum Place {
    /// Above the root element.
    Above,
    /// At the element of this number.
    At(usize),
    /// At a group right inside of the element of this number.
    Inside(usize),
}

/// What an expression may name, and where it stands.
#[derive(Clone, Copy)]
pub struct Statics<'s> {
    /// All elements, of which the first is the root.
    pub elements: &'s [Element],
    /// The numbers of the local names of elements.
    pub names: &'s BTreeMap<String, u32>,
    /// The namespaces of the prefixes in scope.
    pub prefixes: &'s BTreeMap<String, String>,
    /// The variables by their local names.
    pub variables: &'s BTreeMap<String, Variable>,
    /// Where the expression stands.
    pub place: Place,
}

/// The number of a local name, which is bytes of an expression's text.
pub fn name_number(statics: &Statics<'_>, local: &[u8]) -> Option<u32>
    ensures { result ≡ declared.name_number statics.now local.now }
{
    match str::from_utf8(local) {
        Ok(local) => statics.names.get(local).copied(),
        Err(_) => None,
    }
}

/// The variable of a local name, which is bytes of an expression's text.
pub fn variable_named(statics: &Statics<'_>, name: &[u8]) -> Option<Variable>
    ensures { result ≡ declared.variable_named statics.now name.now }
{
    match str::from_utf8(name) {
        Ok(name) => statics.variables.get(name).copied(),
        Err(_) => None,
    }
}

/// The namespace of a prefix.
pub(crate) fn namespace_of<'s>(statics: &Statics<'s>, prefix: &[u8]) -> Option<&'s [u8]>
    ensures { option_map (λ n. n.now) result ≡ declared.namespace_of statics.now prefix.now }
{
    match str::from_utf8(prefix) {
        Ok(prefix) => match statics.prefixes.get(prefix) {
            Some(namespace) => Some(namespace.as_bytes()),
            None => None,
        },
        Err(_) => None,
    }
}
