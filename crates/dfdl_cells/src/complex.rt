// An element with parts as it lies in the data.

use crate::step::Step;
use dfdl_suspend::CellId;
use std::alloc::AllocError;
use std::marker::Model;

/// Steps one behind the other. A contract sees them as their list.
#[derive(Debug, Drop)]
pub struct StepList {
    steps: Vec<Step>,
}

impl Model for StepList {
    ghost use Rattle.std.specs.Prelude.{List};
    ghost use Rattle.dfdl_cells.specs.declared.step.Step.{Step};

    ghost Value = { List Step };

    ghost view = { λ l. l.steps.items };
}

impl StepList {
    ghost use Rattle.std.specs.Prelude.{◌≡◌, ◌++◌, ◌∷◌, [], OnOk};

    /// Takes the steps as they are, and no memory.
    pub fn from_vec(steps: Vec<Step>) -> StepList
        ensures { result ≡ steps.items }
    {
        StepList { steps }
    }

    pub fn as_slice(&self) -> &[Step]
        ensures { result.now ≡ self.now }
    {
        self.steps.as_slice()
    }

    /// Adds a step behind the others.
    pub fn push(&mut self, step: Step) -> Result<(), AllocError>
        ensures { OnOk result (self.new ≡ self.old ++ step ∷ []) }
    {
        self.steps.push(step)?;
        Ok(())
    }
}

/// An element with parts as it lies in the data ('DFDL Data Syntax Grammar').
#[derive(Debug, Drop)]
pub struct Complex {
    /// The number, among elements with parts, of the element around.
    pub around: Option<u32>,
    /// The unknown of its start, which counts bits from the begin of the content around.
    pub start: CellId,
    /// What lies between its start and its content.
    pub lead: StepList,
    /// What lies in its content so far.
    pub inside: StepList,
}
