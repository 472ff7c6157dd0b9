// Instances of variables, and what changes in them.
ghost use Rattle.std.specs.Prelude.{◌≡◌};
ghost use Rattle.dfdl_vars.specs.Instances.{place_of};

use dfdl_value::Value;

/// An instance of a variable.
#[derive(Debug, Drop)]
pub struct Instance {
    /// the number of its variable
    pub var: usize,
    /// what it begins with; an entered instance without one begins with what its variable's first instance begins with
    pub start: Option<Value>,
    /// the value that it was set to
    pub setting: Option<Value>,
    pub was_read: bool,
}

/// What changed in the instance at a place.
#[derive(Debug, Clone, Copy, PartialEq, Eq)]
pub enum Change {
    /// it was set
    Set(usize),
    /// it was read, and hadn't been before
    Read(usize),
}

/// A place to which variables can go back.
#[derive(Debug, Clone, Copy, PartialEq, Eq)]
pub struct VarMark {
    // how many instances are open
    pub(crate) instances: usize,
    // how many changes are kept
    pub(crate) changes: usize,
}

/// Why a variable can't be set.
#[derive(Debug, Clone, Copy, PartialEq, Eq)]
pub enum VarFault {
    /// Its instance was set before.
    SetTwice,
    /// Its instance was read before.
    SetAfterRead,
}

impl Change {
    // The place of the instance that changed.
    pub(crate) fn place(self) -> usize
        ensures { result ≡ place_of self }
    {
        match self {
            Change::Set(place) => place,
            Change::Read(place) => place,
        }
    }
}
