// The roles of the elements of a document.
ghost use Rattle.std.specs.Prelude.{◌≡◌, ◌<◌, ◌+◌, ◌∷◌, [], length, get_or, IfOk};
ghost use Rattle.dfdl_markup.specs.Trees.{node_at};
ghost use Rattle.dfdl_constructs.specs.Walking.{ArePlaced, AreSoFar, parent_with};
ghost use Rattle.dfdl_constructs.specs.Roles.{AreRoles};
ghost use Rattle.dfdl_constructs.specs.declared.role.Role.TheVariants.{Skipped};

use crate::placing::{role_in, root_role, single_of};
use crate::role::Role;
use dfdl_xml_tree::Tree;
use std::alloc::{AllocError, Global};
use std::marker::Model;

/// The roles of the elements of a document, by their numbers.
#[derive(Drop)]
pub struct Roles {
    roles: Vec<Role>,
}

impl Model for Roles {
    ghost use Rattle.std.specs.Prelude.{List};
    ghost use Rattle.dfdl_constructs.specs.declared.role.Role.{Role};

    ghost Value = { List Role };

    ghost view = { λ r. r.roles.items };
}

impl Roles {
    /// The role of an element.
    pub fn of(&self, element: u32) -> Role
        requires { element < length self.now }
        ensures { result ≡ get_or self.now element Skipped }
    {
        self.roles[element as usize]
    }
}

// The roles before any child is placed.
fn root_roles(alloc: Global, tree: &Tree) -> Result<Vec<Role>, AllocError>
    ensures { IfOk result (λ roles. AreSoFar 0 tree.now roles.items) }
{
    let mut roles = Vec::new(alloc);
    for element in 0..tree.count() {
        roles.push(root_role(tree, element))?;
    }
    Ok(roles)
}

// An element with its role, and the part that stands once in it.
#[derive(Clone, Copy)]
struct Parent {
    element: u32,
    role: Role,
    single: Option<u32>,
}

// A child of an element has its role.
fn place_child(tree: &Tree, parent: Parent, child: u32, roles: &mut Vec<Role>)
    requires { length roles.old.items ≡ length tree.now }
    ensures { ArePlaced (parent_with tree.now parent.element parent.role parent.single) (child ∷ []) roles.old.items roles.new.items }
{
    if parent.element < child && child < tree.count() {
        roles[child as usize] = role_in(tree, parent.role, parent.single, child);
    }
}

// The children of an element have their roles.
fn place_children(tree: &Tree, parent: Parent, roles: &mut Vec<Role>)
    requires parent { parent.element < length tree.now }
    requires count { length roles.old.items ≡ length tree.now }
    ensures { ArePlaced (parent_with tree.now parent.element parent.role parent.single) (node_at tree.now parent.element).children roles.old.items roles.new.items }
{
    for child in tree.children(parent.element) {
        place_child(tree, parent, *child, roles);
    }
}

// The children of the next element have their roles.
fn place_next(tree: &Tree, element: u32, roles: &mut Vec<Role>)
    requires element { element < length tree.now }
    requires roles { AreSoFar element tree.now roles.old.items }
    ensures { AreSoFar (element + 1) tree.now roles.new.items }
{
    let role = roles[element as usize];
    let single = single_of(tree, role, element);
    let parent = Parent {
        element,
        role,
        single,
    };
    place_children(tree, parent, roles);
}

/// The role of each element of a document.
pub fn roles_of(alloc: Global, tree: &Tree) -> Result<Roles, AllocError>
    ensures { IfOk result (λ roles. AreRoles tree.now roles) }
{
    let mut roles = root_roles(alloc, tree)?;
    for element in 0..tree.count() {
        place_next(tree, element, &mut roles);
    }
    Ok(Roles { roles })
}
