// A start tag as far as it was read.
ghost use Rattle.std.specs.Prelude.{◌≡◌, ◌++◌, ◌∷◌, [], ℕ, List, IfOk, None, OnOk, map, true};
ghost use Rattle.std.specs.List.{list_all};
ghost use Rattle.dfdl_markup.specs.Values.{Attribute as Attributed, Binding, bindings_of, declares, scope_in, is_found};
ghost use Rattle.dfdl_markup.specs.Values.{same_expanded, have_same, names_of};
ghost use Rattle.dfdl_markup.specs.Machine.{tag_of, is_given, has_sure_clash, have_clash, all_found, scope_of};
ghost use Rattle.dfdl_xml_names.specs.Shown.{name_of, text_of, tag_with, attribute_of};
ghost use Rattle.dfdl_xml_names.specs.Scoped.{scope_seen};
ghost use Rattle.dfdl_xml_names.specs.Indexed.{IsKept};

use crate::bindings::Bindings;
use crate::declared::{declare, declared_by};
use crate::frames::Frames;
use crate::index::Index;
use crate::name::{Attribute, Name};
use crate::scope::Scope;
use std::alloc::{AllocError, Global};
use std::marker::Model;
use std::mem;

/// So many attributes are compared two by two, and more by ordered sets.
const FEW: usize = 8;

/// A start tag: its name, its attributes, the bindings that they declare, and what is kept of their
/// names where they are many.
#[derive(Debug, Drop)]
pub struct StartTag {
    alloc: Global,
    name: Name,
    attributes: Vec<Attribute>,
    declared: Bindings,
    index: Option<Index>,
}

impl Model for StartTag {
    ghost use Rattle.std.specs.Prelude.{◌≡◌, map};
    ghost use Rattle.dfdl_markup.specs.Machine.{StartTag as Tagged};
    ghost use Rattle.dfdl_markup.specs.Values.{bindings_of};
    ghost use Rattle.dfdl_xml_names.specs.Shown.{name_of, attribute_of};
    ghost use Rattle.dfdl_xml_names.specs.Indexed.{IsKept};

    ghost Value = { Tagged };

    ghost view = { λ t. record { name = name_of t.name; attributes = map attribute_of t.attributes.items } };

    ghost invariant = { λ t. (t.declared ≡ bindings_of (map attribute_of t.attributes.items))
        × IsKept t.index (bindings_of (map attribute_of t.attributes.items)) (map attribute_of t.attributes.items) };
}

impl StartTag {
    /// A tag without attributes.
    pub fn new(alloc: Global, name: Name) -> StartTag
        ensures { result ≡ tag_of (name_of name) }
    {
        StartTag {
            alloc,
            name,
            attributes: Vec::new(alloc),
            declared: Bindings::new(alloc),
            index: None,
        }
    }

    pub fn name(&self) -> &Name
        ensures { name_of result.now ≡ self.now.name }
    {
        &self.name
    }

    /// The name, the attributes, and what they declare.
    pub fn into_parts(self) -> (Name, Vec<Attribute>, Bindings)
        ensures name { name_of result.0 ≡ self.name }
        ensures attributes { map attribute_of result.1.items ≡ self.attributes }
        ensures declared { result.2 ≡ bindings_of self.attributes }
    {
        (self.name, self.attributes, self.declared)
    }

    /// What the attributes declare.
    pub(crate) fn bindings(&self) -> Result<Bindings, AllocError>
        ensures { IfOk result (λ bindings. bindings ≡ bindings_of self.now.attributes) }
    {
        declared_by(self.alloc, self.attributes.as_slice())
    }

    /// The tag has an attribute of the name, or surely one that is the same by the namespaces that
    /// it declares itself.
    pub fn is_given(&self, name: &Name) -> Result<bool, AllocError>
        ensures { IfOk result (λ given. given ≡ is_given self.now (name_of name.now)) }
    {
        let scope = own(&self.declared);
        match &self.index {
            Some(index) => index.is_given(&scope, name),
            None => scope.is_given(name, self.attributes.as_slice()),
        }
    }

    /// The tag with one attribute more; true where two attributes are one by the namespaces that it
    /// declares itself, and this attribute declares one.
    pub fn with(self, name: Name, value: String) -> Result<(StartTag, bool), AllocError>
        ensures tag { IfOk result (λ more. more.0 ≡ tag_with self (name_of name) (text_of value)) }
        ensures clash { IfOk result (λ more. more.1 ≡ has_sure_clash (declares (name_of name)) more.0.attributes) }
    {
        let declares = name.declares().is_some();
        let more = self.more(name, value)?;
        let clash = declares && more.clashes();
        Ok((more, clash))
    }

    /// Gives the tag one attribute more, and answers whether two attributes are one by the namespaces
    /// that it declares itself, and this attribute declares one.
    pub fn push(&mut self, name: Name, value: String) -> Result<bool, AllocError>
        ensures tag { OnOk result (self.new ≡ tag_with self.old (name_of name) (text_of value)) }
        ensures clash { IfOk result (λ clash. clash ≡ has_sure_clash (declares (name_of name)) self.new.attributes) }
    {
        if declares_none(&name) {
            if stay_few(&self.index, self.attributes.as_slice()) {
                self.attributes.push(Attribute { name, value })?;
                return Ok(false);
            }
        }
        let empty = StartTag::new(self.alloc, Name::Plain(String::new(self.alloc)));
        let (tag, clash) = mem::replace(self, empty).with(name, value)?;
        *self = tag;
        Ok(clash)
    }

    /// Two attributes are one by the namespaces that are found inside of these elements.
    pub fn has_clash(&self, frames: &Frames) -> Result<bool, AllocError>
        ensures { IfOk result (λ clash. clash ≡ have_clash (scope_of frames.now) self.now.attributes) }
    {
        let attributes = self.attributes.as_slice();
        let scope = self.inside(frames);
        match &self.index {
            Some(index) => {
                let own = own(&self.declared);
                index.clashes_within(self.alloc, &own, &scope, attributes)
            }
            None => Ok(scope.have_same(attributes)),
        }
    }

    /// All prefixes of the tag are found inside of these elements.
    pub fn all_found(&self, frames: &Frames) -> bool
        ensures { result ≡ all_found (scope_of frames.now) self.now }
    {
        self.inside(frames).is_found(&self.name) && self.are_found(frames)
    }

    /// Two attributes' names are the same by these namespaces.
    fn clashes(&self) -> bool
        ensures { result ≡ have_same (same_expanded (bindings_of self.now.attributes))
            (names_of self.now.attributes) }
    {
        match &self.index {
            Some(index) => index.resolved.clash,
            None => own(&self.declared).have_same(self.attributes.as_slice()),
        }
    }

    /// The prefixes of the attributes' names are found inside of these elements.
    fn are_found(&self, frames: &Frames) -> bool
        ensures { result ≡ list_all (λ name. is_found (scope_in self.now.attributes
            (scope_of frames.now)) name) (names_of self.now.attributes) }
    {
        let attributes = self.attributes.as_slice();
        let scope = self.inside(frames);
        match &self.index {
            Some(index) => index.resolved.are_found(&scope, attributes),
            None => scope.are_found(attributes),
        }
    }

    fn inside<'a>(&'a self, frames: &'a Frames) -> Scope<'a>
        ensures { scope_seen result ≡ scope_in self.now.attributes (scope_of frames.now) }
    {
        Scope {
            declared: &self.declared,
            outer: Some(frames),
        }
    }

    /// The tag with one attribute more.
    fn more(self, name: Name, value: String) -> Result<StartTag, AllocError>
        ensures { IfOk result (λ more. more ≡ tag_with self (name_of name) (text_of value)) }
    {
        let StartTag {
            alloc,
            name: element,
            mut attributes,
            declared,
            index,
        } = self;
        let declared = declare(declared, &name, value.as_str())?;
        let index = extended(alloc, index, &own(&declared), &name)?;
        attributes.push(Attribute { name, value })?;
        let index = begun(alloc, index, &own(&declared), attributes.as_slice())?;
        Ok(StartTag {
            alloc,
            name: element,
            attributes,
            declared,
            index,
        })
    }
}

// An attribute of this name declares nothing.
fn declares_none(name: &Name) -> bool
    ensures { result ≡ true → declares (name_of name.now) ≡ None }
{
    name.declares().is_none()
}

// With one more the attributes are still few.
fn stay_few(index: &Option<Index>, attributes: &[Attribute]) -> bool
    ensures { result ≡ true → index.now ≡ None }
{
    index.is_none() && attributes.len() < FEW
}

// The index, if there is one, with one attribute more.
fn extended(
    alloc: Global,
    index: Option<Index>,
    scope: &Scope<'_>,
    name: &Name,
) -> Result<Option<Index>, AllocError>
    ensures { IfOk result (λ more. (old : List Binding) (value : List ℕ) (attributes : List Attributed)
        → scope_seen scope.now ≡ old ++ bindings_of (record { name = name_of name.now; value = value } ∷ [])
        → IsKept index old attributes
        → IsKept more (scope_seen scope.now) (attributes ++ record { name = name_of name.now; value = value } ∷ [])) }
{
    match index {
        Some(index) => Ok(Some(index.more(alloc, scope, name)?)),
        None => Ok(None),
    }
}

// The index, which is made where the attributes are many.
fn begun(
    alloc: Global,
    index: Option<Index>,
    scope: &Scope<'_>,
    attributes: &[Attribute],
) -> Result<Option<Index>, AllocError>
    ensures { IfOk result (λ made. IsKept index (scope_seen scope.now) (map attribute_of attributes.now)
        → IsKept made (scope_seen scope.now) (map attribute_of attributes.now)) }
{
    if index.is_some() || attributes.len() <= FEW {
        return Ok(index);
    }
    Ok(Some(Index::of(alloc, scope, attributes)?))
}

// The scope of what a tag declares alone.
fn own(declared: &Bindings) -> Scope<'_>
    ensures { scope_seen result ≡ declared.now }
{
    Scope {
        declared,
        outer: None,
    }
}
