// A law of the definitions. The call does nothing.
ghost use Rattle.std.specs.Prelude.{◌≡◌, ℕ, List};
ghost use Rattle.dfdl_markup.specs.Trees.{Node};
ghost use Rattle.dfdl_constructs.specs.Roles.{parent_of, role_at, role_by};

/// The role of an element follows from that of the element that it stands in.
pub fn role_follows_from_the_parent()
    ensures { (nodes : List Node) (element : ℕ)
        → role_at nodes element ≡ role_by nodes (role_at nodes) element (parent_of nodes element) }
{}
