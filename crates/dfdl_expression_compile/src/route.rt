// Paths of which steps and indexes are still to come.
ghost use Rattle.std.specs.Prelude.{◌≡◌, IfOk, OnOk};
ghost use Rattle.dfdl_expression_compile.specs.Routes as routes;

use crate::memory::OutOfMemory;
use dfdl_expressions::{Node, Operands, Path, Question, Step, StepList};
use std::alloc::Global;
use std::marker::Model;

/// A path as far as it goes. A contract sees its steps and the numbers of its indexes as lists.
#[derive(Debug, Drop)]
pub(crate) struct Route {
    absolute: bool,
    steps: Vec<Step>,
    indexes: Vec<u32>,
}

impl Model for Route {
    ghost use Rattle.dfdl_expression_compile.specs.Lists.{RouteOf};

    ghost Value = { RouteOf };

    ghost view = { λ r. record { absolute = r.absolute; steps = r.steps.items; indexes = r.indexes.items } };
}

fn indexed(step: Step) -> Step
    ensures { result ≡ routes.indexed step }
{
    match step {
        Step::Down { name, .. } => Step::Down {
            name,
            indexed: true,
        },
        Step::Here | Step::Up => step,
    }
}

/// Gives the last step an index.
fn index_last(steps: &mut Vec<Step>) -> Result<(), OutOfMemory>
    ensures { OnOk result (steps.new.items ≡ routes.last_indexed steps.old.items) }
{
    if let Some(step) = steps.pop() {
        steps.push(indexed(step))?;
    }
    Ok(())
}

impl Route {
    /// A path without steps.
    pub(crate) fn begin(alloc: Global, absolute: bool) -> Route
        ensures { result ≡ routes.begun absolute }
    {
        Route {
            absolute,
            steps: Vec::new(alloc),
            indexes: Vec::new(alloc),
        }
    }

    /// The path with one step more.
    pub(crate) fn with_step(self, step: Step) -> Result<Route, OutOfMemory>
        ensures { IfOk result (λ r. r ≡ routes.with_step step self) }
    {
        let Route {
            absolute,
            mut steps,
            indexes,
        } = self;
        steps.push(step)?;
        Ok(Route {
            absolute,
            steps,
            indexes,
        })
    }

    /// The path with an index behind its last step.
    pub(crate) fn with_index(self, number: u32) -> Result<Route, OutOfMemory>
        ensures { IfOk result (λ r. r ≡ routes.with_index number self) }
    {
        let Route {
            absolute,
            mut steps,
            mut indexes,
        } = self;
        index_last(&mut steps)?;
        indexes.push(number)?;
        Ok(Route {
            absolute,
            steps,
            indexes,
        })
    }

    /// The node that asks something of the path.
    pub(crate) fn into_node(self, question: Question) -> Node
        ensures { result ≡ routes.route_node question self }
    {
        let Route {
            absolute,
            steps,
            indexes,
        } = self;
        Node::Path {
            question,
            path: Path {
                absolute,
                steps: StepList::from_vec(steps),
            },
            indexes: Operands::from_vec(indexes),
        }
    }
}
