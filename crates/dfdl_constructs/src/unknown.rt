// Annotations that are not known where they stand.
ghost use Rattle.std.specs.Prelude.{◌≡◌, ◌<◌, length};
ghost use Rattle.dfdl_constructs.specs.Roles.{AreRoles};
ghost use Rattle.dfdl_constructs.specs.UnknownAnnotations.{is_unknown_annotation};

use crate::role::Role;
use crate::roles::Roles;
use dfdl_xml_tree::Tree;

/// Whether an element is an annotation that isn't known where it stands.
pub fn is_unknown_annotation(tree: &Tree, roles: &Roles, element: u32) -> bool
    requires roles { AreRoles tree.now roles.now }
    requires element { element < length tree.now }
    ensures { result ≡ is_unknown_annotation tree.now element }
{
    roles.of(element) == Role::UnknownAnnotation
}
