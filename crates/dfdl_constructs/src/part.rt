// What may stand in a construct.
ghost use Rattle.std.specs.Prelude.{◌≡◌};
ghost use Rattle.dfdl_constructs.specs.Parts.{name_of};
ghost use Rattle.dfdl_constructs.specs.Shown.{part_shown};

use crate::role::Role;

// What may stand in a construct, by its local name, and what it is then.
#[derive(Debug, Clone, Copy)]
pub(crate) enum Part {
    // Any number of times.
    Many(&'static str, Role),
    // Only once, and then with no other such part beside it.
    Single(&'static str, Role),
}

impl Part {
    // The local name.
    pub(crate) fn name(&self) -> &'static str
        ensures { result.now ≡ name_of (part_shown self.now) }
    {
        match self {
            Part::Many(name, _) => name,
            Part::Single(name, _) => name,
        }
    }
}
