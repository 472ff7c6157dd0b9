// The own properties of components and formats.
ghost use Rattle.std.specs.Prelude.{◌≡◌, ◌<◌, ℕ, List, length, IfOk};
ghost use Rattle.dfdl_constructs.specs.Roles.{AreRoles};
ghost use Rattle.dfdl_scope.specs.Shown.{given, given_twice};
ghost use Rattle.dfdl_properties.specs.Own.{format_given_at, given_at, repeats_at};

use crate::annotations::{add_annotations, add_written_in};
use crate::attributes::add_short_form;
use dfdl_constructs::Roles;
use dfdl_scope::Properties;
use dfdl_xml_tree::Tree;
use std::alloc::{AllocError, Global};

/// What a component gives by itself: an element of any kind, a sequence, a choice, a group reference
/// or a simple type. Names and values are lent from the document.
///
/// Only properties of the table are taken. It costs as many steps as the component and its annotations
/// have attributes and characters.
pub fn own_properties<'t>(
    alloc: Global,
    tree: &'t Tree,
    roles: &Roles,
    component: u32,
) -> Result<Properties<'t>, AllocError>
    requires roles { AreRoles tree.now roles.now }
    requires within { component < length tree.now }
    ensures given { IfOk result (λ own. (q : List ℕ) → given own q ≡ given_at tree.now component q) }
    ensures twice { IfOk result (λ own. (q : List ℕ) → given_twice own q ≡ repeats_at tree.now component q) }
{
    let mut own = Properties::new(alloc);
    add_short_form(&mut own, tree, component)?;
    add_annotations(&mut own, tree, roles, component)?;
    Ok(own)
}

/// What a `dfdl:format` gives by itself, without the format that it refers to. Only properties of the
/// table are taken, and of two of one name the first.
pub fn format_properties<'t>(
    alloc: Global,
    tree: &'t Tree,
    roles: &Roles,
    format: u32,
) -> Result<Properties<'t>, AllocError>
    requires roles { AreRoles tree.now roles.now }
    requires within { format < length tree.now }
    ensures given { IfOk result (λ own. (q : List ℕ) → given own q ≡ format_given_at tree.now format q) }
{
    let mut own = Properties::new(alloc);
    add_written_in(&mut own, tree, roles, format)?;
    Ok(own)
}
