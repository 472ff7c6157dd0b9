// Operands, and their nodes.
ghost use Rattle.std.specs.Prelude.{◌≡◌, IfOk};
ghost use Rattle.dfdl_expression_compile.specs.Compiling as compiling;
ghost use Rattle.dfdl_expression_compile.specs.Lists as lists;
ghost use Rattle.dfdl_expression_compile.specs.Settling as settling;

use crate::memory::OutOfMemory;
use crate::route::Route;
use dfdl_expressions::{Node, Question, Unit};
use dfdl_value::{TextValue, Value};
use std::alloc::Global;
use std::collections::VecDeque;
use std::marker::Model;

/// An operand of a node that is still to come.
#[derive(Debug, Drop)]
pub(crate) enum Operand {
    /// A value that has the node of this number.
    Value(u32),
    /// A text in quotes that is a unit of length.
    Unit(Unit),
    /// A path.
    Route(Route),
}

/// What is made of a part of an expression.
#[derive(Debug, Drop)]
pub(crate) enum Item {
    One(Operand),
    /// The arguments of a call, as far as they have come.
    Many(OperandList),
}

/// Operands in their order. A contract sees them as their list.
#[derive(Debug, Drop)]
pub(crate) struct OperandList {
    operands: VecDeque<Operand>,
}

impl Model for OperandList {
    ghost use Rattle.std.specs.Prelude.{List};
    ghost use Rattle.std.specs.VecDeque.{deque_items};
    ghost use Rattle.dfdl_expression_compile.specs.declared.operand.Operand.{Operand as OperandOf};

    ghost Value = { List OperandOf };

    ghost view = { λ l. deque_items l.operands };
}

impl OperandList {
    ghost use Rattle.std.specs.Prelude.{◌≡◌, ◌++◌, ◌∷◌, [], IfOk, MatchOption};

    pub(crate) fn new(alloc: Global) -> OperandList
        ensures { result ≡ [] }
    {
        OperandList {
            operands: VecDeque::new(alloc),
        }
    }

    /// The operands with one more behind them.
    pub(crate) fn with(self, operand: Operand) -> Result<OperandList, OutOfMemory>
        ensures { IfOk result (λ more. more ≡ self ++ operand ∷ []) }
    {
        let OperandList { mut operands } = self;
        operands.push_back(operand)?;
        Ok(OperandList { operands })
    }

    /// Takes off the first one.
    fn take(&mut self) -> Option<Operand>
        ensures { MatchOption result ((self.old ≡ []) × (self.new ≡ [])) (λ first. self.old ≡ first ∷ self.new) }
    {
        self.operands.pop_front()
    }

    /// Takes off the first one, which stands for nothing where there is none.
    pub(crate) fn pop(&mut self) -> Operand
        ensures first { result ≡ settling.first self.old }
        ensures rest { self.new ≡ settling.rest self.old }
    {
        match self.take() {
            Some(operand) => operand,
            None => Operand::Value(0),
        }
    }
}

/// Adds a node, and answers its number.
pub(crate) fn push(nodes: &mut Vec<Node>, node: Node) -> Result<u32, OutOfMemory>
    ensures { IfOk result (λ n. lists.numbered n nodes.new.items ≡ lists.pushed node nodes.old.items) }
{
    let number = nodes.len();
    if number > u32::MAX as usize {
        return Err(OutOfMemory);
    }
    nodes.push(node)?;
    Ok(number as u32)
}

#[tactic(auto, unfolding(crate::specs::Settling::unit_text))]
fn unit_text(unit: Unit) -> &'static str
    ensures { result.now ≡ settling.unit_text unit }
{
    match unit {
        Unit::Bits => "bits",
        Unit::Bytes => "bytes",
    }
}

impl Operand {
    /// The number of the operand's node, which it gets where it has none.
    pub(crate) fn settle(self, alloc: Global, nodes: &mut Vec<Node>) -> Result<u32, OutOfMemory>
        ensures { IfOk result (λ n. lists.numbered n nodes.new.items ≡ settling.settled self nodes.old.items) }
    {
        match self {
            Operand::Value(number) => Ok(number),
            Operand::Unit(unit) => {
                let text = TextValue::from_str(alloc, unit_text(unit))?;
                push(nodes, Node::Constant(Value::Text(text)))
            }
            Operand::Route(route) => push(nodes, route.into_node(Question::Item)),
        }
    }

    /// The path that it is.
    pub(crate) fn into_route(self, alloc: Global) -> Route
        ensures { result ≡ settling.route_of self }
    {
        match self {
            Operand::Route(route) => route,
            Operand::Value(_) | Operand::Unit(_) => Route::begin(alloc, false),
        }
    }

    /// The unit that it is.
    pub(crate) fn unit(&self) -> Unit
        ensures { result ≡ settling.unit_of self.now }
    {
        match self {
            Operand::Unit(unit) => *unit,
            Operand::Value(_) | Operand::Route(_) => Unit::Bits,
        }
    }
}

impl Item {
    /// The part, which is no list of arguments.
    pub(crate) fn into_operand(self) -> Operand
        ensures { result ≡ compiling.operand_of self }
    {
        match self {
            Item::One(operand) => operand,
            Item::Many(_) => Operand::Value(0),
        }
    }

    /// The arguments of a call.
    pub(crate) fn into_operands(self, alloc: Global) -> OperandList
        ensures { result ≡ compiling.operands_of self }
    {
        match self {
            Item::Many(operands) => operands,
            Item::One(_) => OperandList::new(alloc),
        }
    }
}

/// The numbers of the operands' nodes.
pub(crate) fn settle_all(
    alloc: Global,
    operands: OperandList,
    nodes: &mut Vec<Node>,
) -> Result<Vec<u32>, OutOfMemory>
    ensures { IfOk result (λ ns. lists.listed ns.items nodes.new.items ≡ settling.all_settled operands nodes.old.items) }
{
    let mut left = operands;
    let mut numbers = Vec::new(alloc);
    'left: while let Some(operand) = left.take() {
        let number = operand.settle(alloc, nodes)?;
        numbers.push(number)?;
    }
    Ok(numbers)
}
