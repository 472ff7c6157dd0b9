// Paths, as an expression names them.
use std::marker::Model;

/// One step of a path.
#[derive(Clone, Copy, Debug, PartialEq, Eq)]
pub enum Step {
    /// `.`
    Here,
    /// `..`
    Up,
    /// A child by the number of its local name. Where it is indexed, the next of the indexes that are
    /// given with the path says which of its items is meant; they count from 1.
    Down { name: u32, indexed: bool },
}

/// The steps of a path, in their order. A contract sees them as their list.
#[derive(Debug, Drop)]
pub struct StepList {
    steps: Vec<Step>,
}

impl Model for StepList {
    ghost use Rattle.std.specs.Prelude.{List};
    ghost use Rattle.dfdl_expressions.specs.declared.path.Step.{Step as StepOf};

    ghost Value = { List StepOf };

    ghost view = { λ l. l.steps.items };
}

impl StepList {
    ghost use Rattle.std.specs.Prelude.{◌≡◌};

    /// Takes the steps as they are, and no memory.
    pub fn from_vec(steps: Vec<Step>) -> StepList
        ensures { result ≡ steps.items }
    {
        StepList { steps }
    }

    pub fn as_slice(&self) -> &[Step]
        ensures { result.now ≡ self.now }
    {
        self.steps.as_slice()
    }
}

/// A path: where it begins, and its steps. An absolute one begins above the root element, which its
/// first step names.
#[derive(Debug, Drop)]
pub struct Path {
    pub absolute: bool,
    pub steps: StepList,
}
