// Names that are the same by the namespaces of a scope, compared two by two.
ghost use Rattle.std.specs.Prelude.{◌≡◌, ◌||◌, IfOk, chars, map};
ghost use Rattle.std.specs.List.{list_any};
ghost use Rattle.dfdl_markup.specs.Values.{found, same_found, same_expanded, same_name, have_same, names_of};
ghost use Rattle.dfdl_xml_names.specs.Shown.{attribute_of, name_of};
ghost use Rattle.dfdl_xml_names.specs.Scoped.{scope_seen};

use crate::binding_rules::same_text;
use crate::name::{Attribute, Name};
use crate::scope::Scope;
use std::alloc::AllocError;

impl<'a> Scope<'a> {
    /// The two prefixes stand for one namespace.
    fn stand_alike(&self, prefix: &str, other: &str) -> bool
        ensures { result ≡ same_found (found (scope_seen self.now) (chars prefix.now))
            (found (scope_seen self.now) (chars other.now)) }
    {
        match self.find(prefix) {
            Some(namespace) => match self.find(other) {
                Some(second) => same_text(namespace, second),
                None => false,
            },
            None => false,
        }
    }

    /// The two names are the same.
    fn are_same(&self, name: &Name, other: &Name) -> bool
        ensures { result ≡ same_expanded (scope_seen self.now) (name_of name.now) (name_of other.now) }
    {
        match name {
            Name::Plain(_) => false,
            Name::Prefixed { prefix, part } => match other {
                Name::Plain(_) => false,
                Name::Prefixed {
                    prefix: second,
                    part: local,
                } => {
                    same_text(part.as_str(), local.as_str())
                        && self.stand_alike(prefix.as_str(), second.as_str())
                }
            },
        }
    }

    /// One of the attributes has this name, or one that is the same.
    pub(crate) fn is_given(&self, name: &Name, others: &[Attribute]) -> Result<bool, AllocError>
        ensures { IfOk result (λ given. given ≡ (list_any (λ other. same_name other (name_of name.now))
            (names_of (map attribute_of others.now))
            || list_any (λ other. same_expanded (scope_seen self.now) other (name_of name.now))
            (names_of (map attribute_of others.now)))) }
    {
        if is_written_among(name, others)? {
            return Ok(true);
        }
        Ok(self.is_same_among(name, others))
    }

    /// This name is the same as one of the attributes' names.
    fn is_same_among(&self, name: &Name, others: &[Attribute]) -> bool
        ensures { result ≡ list_any (λ a. same_expanded (scope_seen self.now) (name_of a.name)
            (name_of name.now)) others.now }
    {
        others.iter().any(|other| self.are_same(&other.name, name))
    }

    /// One of the attributes' names is the same as this one.
    fn is_among(&self, name: &Name, others: &[Attribute]) -> bool
        ensures { result ≡ list_any (λ a. same_expanded (scope_seen self.now) (name_of name.now)
            (name_of a.name)) others.now }
    {
        others.iter().any(|other| self.are_same(name, &other.name))
    }

    /// Two of the attributes' names are the same.
    pub(crate) fn have_same(&self, attributes: &[Attribute]) -> bool
        ensures { result ≡ have_same (same_expanded (scope_seen self.now))
            (names_of (map attribute_of attributes.now)) }
    {
        for at in 0..attributes.len() {
            if self.is_among(&attributes[at].name, &attributes[at + 1..]) {
                return true;
            }
        }
        false
    }
}

/// One of the attributes has this name as it is written.
fn is_written_among(name: &Name, others: &[Attribute]) -> Result<bool, AllocError>
    ensures { IfOk result (λ written. written ≡ list_any (λ a. same_name (name_of a.name) (name_of name.now)) others.now) }
{
    for other in others {
        if other.name.is_written_as(name)? {
            return Ok(true);
        }
    }
    Ok(false)
}
