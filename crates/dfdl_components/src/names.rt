// The names of the global components of one document.
ghost use Rattle.std.specs.Prelude.{◌≡◌, ◌<◌, ℕ, List, length, IfOk, OnOk, option_copied, bytes_eq, string_bytes, if◌then◌else◌, Some, None};
ghost use Rattle.std.specs.BTreeMap.{get_by_text};
ghost use Rattle.std.specs.Map.{update};
ghost use Rattle.dfdl_constructs.specs.Roles.{AreRoles, role_at};
ghost use Rattle.dfdl_components.specs.declared.kind.ComponentKind.{ComponentKind};
ghost use Rattle.dfdl_components.specs.Searching.{or_else};
ghost use Rattle.dfdl_components.specs.Globals.{first_in, is_kind, is_named, is_text, kind_of, name_at};
ghost use Rattle.dfdl_components.specs.Shown.{AreNames, name_found};

use crate::kind::ComponentKind;
use dfdl_constructs::{Role, Roles, plain};
use dfdl_xml_tree::Tree;
use std::alloc::{AllocError, Global};
use std::collections::BTreeMap;

/// For each kind, the first component of each name.
#[derive(Drop)]
pub(crate) struct Names {
    pub(crate) elements: BTreeMap<String, u32>,
    pub(crate) types: BTreeMap<String, u32>,
    pub(crate) groups: BTreeMap<String, u32>,
    pub(crate) formats: BTreeMap<String, u32>,
    pub(crate) escape_schemes: BTreeMap<String, u32>,
    pub(crate) variables: BTreeMap<String, u32>,
}

// The kind of global component that an element of a role is.
pub(crate) fn kind_of(role: Role) -> Option<ComponentKind>
    ensures { result ≡ kind_of role }
{
    match role {
        Role::GlobalElement => Some(ComponentKind::Element),
        Role::GlobalComplexType | Role::GlobalSimpleType => Some(ComponentKind::Type),
        Role::GlobalGroup => Some(ComponentKind::Group),
        Role::DefineFormat => Some(ComponentKind::Format),
        Role::DefineEscapeScheme => Some(ComponentKind::EscapeScheme),
        Role::DefineVariable => Some(ComponentKind::Variable),
        _ => None,
    }
}

// The kind is this one.
fn is_kind(kind: ComponentKind, other: Option<ComponentKind>) -> bool
    ensures { result ≡ is_kind kind other }
{
    other == Some(kind)
}

// The name of an element that is a global component of this kind.
fn name_of<'t>(tree: &'t Tree, roles: &Roles, kind: ComponentKind, element: u32) -> Option<&'t str>
    requires roles { AreRoles tree.now roles.now }
    requires element { element < length tree.now }
    ensures { option_copied result ≡ (if is_kind kind (kind_of (role_at tree.now element)) then name_at tree.now element else None) }
{
    if is_kind(kind, kind_of(roles.of(element))) {
        plain(tree, element, "name")
    } else {
        None
    }
}

// One more name of an element, unless it is one already.
fn put(
    names: &mut BTreeMap<String, u32>,
    alloc: Global,
    name: &str,
    element: u32,
) -> Result<(), AllocError>
    ensures { OnOk result ((q : List ℕ) → get_by_text names.new q
        ≡ or_else (get_by_text names.old q) (if bytes_eq name.now q then Some element else None)) }
{
    if names.contains_key(name) {
        return Ok(());
    }
    add(names, String::from_str(alloc, name)?, element)?;
    Ok(())
}

// One more name of an element, in place of what has it.
fn add(names: &mut BTreeMap<String, u32>, name: String, element: u32) -> Result<(), AllocError>
    ensures { OnOk result ((q : List ℕ) → get_by_text names.new q
        ≡ update bytes_eq (get_by_text names.old) (string_bytes name) (Some element) q) }
{
    names.insert(name, element)?;
    Ok(())
}

// The same, where there is a name.
fn put_if(
    names: &mut BTreeMap<String, u32>,
    alloc: Global,
    name: Option<&str>,
    element: u32,
) -> Result<(), AllocError>
    ensures { OnOk result ((q : List ℕ) → get_by_text names.new q
        ≡ or_else (get_by_text names.old q) (if is_text q (option_copied name.entry) then Some element else None)) }
{
    let Some(name) = name else {
        return Ok(());
    };
    put(names, alloc, name, element)
}

// The names of the global components of this kind.
fn names_of(
    alloc: Global,
    tree: &Tree,
    roles: &Roles,
    kind: ComponentKind,
) -> Result<BTreeMap<String, u32>, AllocError>
    requires { AreRoles tree.now roles.now }
    ensures { IfOk result (λ names. (q : List ℕ) → get_by_text names q ≡ first_in tree.now kind q) }
{
    let mut names = BTreeMap::new(alloc);
    for element in 0..tree.count() {
        let name = name_of(tree, roles, kind, element);
        put_if(&mut names, alloc, name, element)?;
    }
    Ok(names)
}

impl Names {
    /// The names of the global components of a document.
    pub(crate) fn of(alloc: Global, tree: &Tree, roles: &Roles) -> Result<Names, AllocError>
        requires { AreRoles tree.now roles.now }
        ensures { IfOk result (AreNames tree.now) }
    {
        Ok(Names {
            elements: names_of(alloc, tree, roles, ComponentKind::Element)?,
            types: names_of(alloc, tree, roles, ComponentKind::Type)?,
            groups: names_of(alloc, tree, roles, ComponentKind::Group)?,
            formats: names_of(alloc, tree, roles, ComponentKind::Format)?,
            escape_schemes: names_of(alloc, tree, roles, ComponentKind::EscapeScheme)?,
            variables: names_of(alloc, tree, roles, ComponentKind::Variable)?,
        })
    }

    /// The first component of a kind and name.
    pub(crate) fn get(&self, kind: ComponentKind, local: &str) -> Option<u32>
        ensures { result ≡ name_found self.now kind local.now }
    {
        match kind {
            ComponentKind::Element => found(&self.elements, local),
            ComponentKind::Type => found(&self.types, local),
            ComponentKind::Group => found(&self.groups, local),
            ComponentKind::Format => found(&self.formats, local),
            ComponentKind::EscapeScheme => found(&self.escape_schemes, local),
            ComponentKind::Variable => found(&self.variables, local),
        }
    }
}

// The component of a name.
fn found(names: &BTreeMap<String, u32>, local: &str) -> Option<u32>
    ensures { result ≡ get_by_text names.now local.now }
{
    names.get(local).copied()
}
