// A walk over all uses of components, in schema order.
ghost use Rattle.std.specs.Prelude.{◌≡◌, ◌<◌, ◌≤◌, ◌+◌, ◌^◌, ◌++◌, ◌∷◌, [], length, map, All, get_or, IfOk, OnOk};
ghost use Rattle.dfdl_order.specs.Parts.{uses_of};
ghost use Rattle.dfdl_rows.specs.Components.{HasOrder};
ghost use Rattle.dfdl_rows.specs.Framing.{opened_size};
ghost use Rattle.dfdl_rows.specs.RowLists as lists;
ghost use Rattle.dfdl_rows.specs.Scopes as scopes;
ghost use Rattle.dfdl_rows.specs.Scopes.{scope_size};
ghost use Rattle.dfdl_rows.specs.Sizes.{group_size, own_size, size_of};
ghost use Rattle.dfdl_rows.specs.Slots.{kind_of};
ghost use Rattle.dfdl_rows.specs.Walk.{made, closed, all_done, component_of, steps_left};
ghost use Rattle.dfdl_terms.specs.declared.row.Row.TheVariants.{Elem};
ghost use Rattle.dfdl_rows.specs.declared.walk.Task.TheVariants.{Enter, Close};

use crate::boxes::box_row;
use crate::component::Dispatch;
use crate::framing::{push_conclusion, push_framed, push_opened};
use crate::last::push_last;
use crate::scopes::{list_of, push_scoped, scanned_list, separator_list};
use crate::slots::{Group, Grouping, push_group};
use crate::times::Times;
use crate::{Component, Components, LeafLength};
use dfdl_forms::Simple;
use dfdl_terms::{Framing, Representations, Row, RowId, Statements, WhereTried};
use dfdl_value::TextValue;
use std::alloc::{AllocError, Global};
use std::collections::VecDeque;

// No representation is tried before the normal one.
const NO_TRIALS: Representations = Representations {
    nil: None,
    empty: None,
    refuses_empty: false,
    are_several: false,
    where_tried: WhereTried {
        empty: None,
        refuses_empty: false,
        are_several: false,
    },
};

// What is to be done next: all rows of a component, or the rows of its own behind those of its parts.
#[derive(Clone, Copy, Drop)]
enum Task {
    Enter(u32),
    Close(u32),
}

// The tasks that are left, the rows so far, and the last rows of the components whose user is not closed yet.
#[derive(Drop)]
struct Walk {
    tasks: VecDeque<Task>,
    rows: Vec<Row>,
    lasts: Vec<RowId>,
}

/// The rows of a component as the root.
pub(crate) fn all_rows(
    alloc: Global,
    components: &Components,
    root: u32,
) -> Result<Vec<Row>, AllocError>
    requires ordered { HasOrder components.now.uses }
    requires within { root < length components.now.uses }
    requires few { size_of components.now root < 2 ^ 32 }
    ensures { IfOk result (λ rows. rows.items ≡ lists.rows_of components.now root) }
{
    let mut tasks = VecDeque::new(alloc);
    tasks.push_front(Task::Enter(root))?;
    let mut walk = Walk {
        tasks,
        rows: Vec::new(alloc),
        lasts: Vec::new(alloc),
    };
    walk.run(alloc, components)?;
    Ok(walk.rows)
}

impl Walk {
    // Does all that is to be done.
    fn run(&mut self, alloc: Global, components: &Components) -> Result<(), AllocError>
        requires ordered { HasOrder components.now.uses }
        requires within { All (λ t. component_of t < length components.now.uses) self.old.tasks.items }
        requires few { length (all_done components.now self.old.tasks.items
            (made self.old.rows.items self.old.lasts.items)).rows < 2 ^ 32 }
        ensures { OnOk result (made self.new.rows.items self.new.lasts.items
            ≡ all_done components.now self.old.tasks.items (made self.old.rows.items self.old.lasts.items)) }
    {
        while let Some(task) = self.tasks.pop_front() {
            self.perform(alloc, components, task)?;
        }
        Ok(())
    }

    // Does a task that stood before the others, or puts others in its place.
    fn perform(
        &mut self,
        alloc: Global,
        components: &Components,
        task: Task,
    ) -> Result<(), AllocError>
        requires ordered { HasOrder components.now.uses }
        requires within { All (λ t. component_of t < length components.now.uses) (task ∷ self.old.tasks.items) }
        requires few { length (all_done components.now (task ∷ self.old.tasks.items)
            (made self.old.rows.items self.old.lasts.items)).rows < 2 ^ 32 }
        ensures same { OnOk result (all_done components.now self.new.tasks.items
            (made self.new.rows.items self.new.lasts.items)
            ≡ all_done components.now (task ∷ self.old.tasks.items)
            (made self.old.rows.items self.old.lasts.items)) }
        ensures within { OnOk result (All (λ t. component_of t < length components.now.uses) self.new.tasks.items) }
        ensures less { OnOk result (steps_left components.now self.new.tasks.items
            < steps_left components.now (task ∷ self.old.tasks.items)) }
    {
        match task {
            Task::Enter(number) => enter(&mut self.tasks, components, number),
            Task::Close(number) => close(
                alloc,
                components,
                number,
                &mut self.rows,
                &mut self.lasts,
            ),
        }
    }
}

// Puts the parts of a component before the other tasks, and behind them its own rows.
fn enter(tasks: &mut VecDeque<Task>, components: &Components, number: u32) -> Result<(), AllocError>
    requires { number < length components.now.uses }
    ensures { OnOk result (tasks.new.items
        ≡ map Enter (uses_of components.now.uses number) ++ Close number ∷ tasks.old.items) }
{
    tasks.push_front(Task::Close(number))?;
    enter_all(tasks, components.parts(number))
}

// Puts these components before the other tasks.
fn enter_all(tasks: &mut VecDeque<Task>, parts: &[u32]) -> Result<(), AllocError>
    ensures { OnOk result (tasks.new.items ≡ map Enter parts.now ++ tasks.old.items) }
{
    for at in (0..parts.len()).rev() {
        let part = parts[at];
        tasks.push_front(Task::Enter(part))?;
    }
    Ok(())
}

// Adds the rows of a component's own.
fn close(
    alloc: Global,
    components: &Components,
    number: u32,
    rows: &mut Vec<Row>,
    lasts: &mut Vec<RowId>,
) -> Result<(), AllocError>
    requires within { number < length components.now.uses }
    requires few { length (closed components.now number (made rows.old.items lasts.old.items)).rows < 2 ^ 32 }
    ensures { OnOk result (made rows.new.items lasts.new.items
        ≡ closed components.now number (made rows.old.items lasts.old.items)) }
{
    let kept = lasts.len().saturating_sub(components.parts(number).len());
    let slots = components.slots(alloc, number)?;
    push_own(
        alloc,
        rows,
        components.component(number),
        slots.as_slice(),
        &lasts[kept..],
    )?;
    lasts.truncate(kept);
    lasts.push(RowId::new(rows.len().saturating_sub(1) as u32))?;
    Ok(())
}

// Adds the rows of a component's own, where these are the last rows of its parts, which occur so often.
fn push_own(
    alloc: Global,
    rows: &mut Vec<Row>,
    component: &Component,
    slots: &[Times],
    parts: &[RowId],
) -> Result<(), AllocError>
    requires { length rows.old.items + own_size component.now slots.now < 2 ^ 32 }
    ensures { OnOk result (rows.new.items
        ≡ rows.old.items ++ lists.own_rows component.now slots.now parts.now (length rows.old.items)) }
{
    match component {
        Component::Sequence {
            framing,
            separated,
            initiated,
        } => {
            let group = Group {
                kind: Grouping::Sequence,
                separated: *separated,
                initiated: *initiated,
            };
            push_grouped(alloc, rows, group, &None, *framing, slots, parts)
        }
        Component::Choice {
            framing,
            initiated,
            dispatch,
        } => {
            let group = Group {
                kind: Grouping::Choice,
                separated: None,
                initiated: *initiated,
            };
            push_grouped(alloc, rows, group, dispatch, *framing, slots, parts)
        }
        Component::ComplexElement {
            name,
            framing,
            content_box,
            ..
        } => {
            let scoped = push_scoped(rows, list_of(framing.terminator), first_of(parts))?;
            let boxed = push_last(rows, box_row(*content_box, scoped))?;
            let body = push_framed(alloc, rows, *framing, None, boxed)?;
            let behind = framing.behind;
            push_element(alloc, rows, name, None, NO_TRIALS, behind, body)
        }
        Component::SimpleElement {
            name,
            simple,
            prim,
            framing,
            length,
            tried,
            is_scanned,
            ..
        } => {
            let content = RowId::new(rows.len() as u32);
            rows.push(leaf_row(*length, *prim))?;
            let list = scanned_list(*is_scanned, framing.terminator);
            let scoped = push_scoped(rows, list, content)?;
            let body = push_framed(alloc, rows, *framing, None, scoped)?;
            let behind = framing.behind;
            push_element(alloc, rows, name, Some(*simple), *tried, behind, body)
        }
        Component::CalculatedElement {
            name,
            simple,
            statement,
            framing,
        } => {
            let content = RowId::new(rows.len() as u32);
            rows.push(Row::Statement {
                statement: *statement,
            })?;
            let body = push_framed(alloc, rows, *framing, None, content)?;
            let behind = framing.behind;
            push_element(alloc, rows, name, Some(*simple), NO_TRIALS, behind, body)
        }
        Component::Hidden => {
            let body = first_of(parts);
            rows.push(Row::Hidden { body })?;
            Ok(())
        }
    }
}

// Adds the rows of a sequence or choice of its own.
fn push_grouped(
    alloc: Global,
    rows: &mut Vec<Row>,
    group: Group,
    dispatch: &Option<Dispatch>,
    framing: Framing,
    slots: &[Times],
    parts: &[RowId],
) -> Result<(), AllocError>
    requires { length rows.old.items + group_size framing group.separated slots.now < 2 ^ 32 }
    ensures { OnOk result (rows.new.items
        ≡ rows.old.items ++ lists.group_rows (kind_of group.kind dispatch.now) framing group.separated group.initiated slots.now parts.now
        (length rows.old.items)) }
{
    push_unconcluded(alloc, rows, group, dispatch, framing, slots, parts)?;
    push_conclusion(rows, framing.behind)
}

// Adds the rows of a sequence or choice of its own, but for the one behind which statements are done.
fn push_unconcluded(
    alloc: Global,
    rows: &mut Vec<Row>,
    group: Group,
    dispatch: &Option<Dispatch>,
    framing: Framing,
    slots: &[Times],
    parts: &[RowId],
) -> Result<(), AllocError>
    requires { length rows.old.items + group_size framing group.separated slots.now < 2 ^ 32 }
    ensures { OnOk result (rows.new.items
        ≡ rows.old.items ++ lists.around_rows (kind_of group.kind dispatch.now) framing group.separated group.initiated slots.now parts.now
        (length rows.old.items)) }
{
    let content = push_group(alloc, rows, group, dispatch, slots, parts)?;
    let separators = separator_list(group.separated);
    push_around(alloc, rows, framing, separators, content)
}

// Adds the rows around the row of the group of a sequence or choice: the scopes of its separators and of its terminator, what frames it, and the instances
// that are open in it.
fn push_around(
    alloc: Global,
    rows: &mut Vec<Row>,
    framing: Framing,
    separators: Option<u32>,
    content: RowId,
) -> Result<(), AllocError>
    requires { length rows.old.items + scope_size separators + scope_size (scopes.list_of framing.terminator)
        + opened_size framing separators < 2 ^ 32 }
    ensures { OnOk result (rows.new.items
        ≡ rows.old.items ++ lists.sequence_rows framing separators content (length rows.old.items)) }
{
    let inner = push_scoped(rows, separators, content)?;
    let outer = push_scoped(rows, list_of(framing.terminator), inner)?;
    push_opened(alloc, rows, framing, separators, outer)
}

// The row of the content of a simple element, with what gives its length.
fn leaf_row(own_length: LeafLength, prim: u32) -> Row
    ensures { result ≡ lists.leaf_row own_length prim }
{
    match own_length {
        LeafLength::Own => Row::Leaf { prim },
        LeafLength::Prefixed(prefix) => Row::PrefixedLeaf { prefix, prim },
        LeafLength::Measured(measure) => Row::MeasuredLeaf { measure, prim },
    }
}

// Adds the row of an element.
fn push_element(
    alloc: Global,
    rows: &mut Vec<Row>,
    name: &TextValue,
    simple: Option<Simple>,
    tried: Representations,
    behind: Statements,
    body: RowId,
) -> Result<(), AllocError>
    ensures { OnOk result (rows.new.items ≡ rows.old.items ++ Elem name.now simple tried behind body ∷ []) }
{
    let name = name.copy(alloc)?;
    rows.push(Row::Elem {
        name,
        simple,
        tried,
        behind,
        body,
    })?;
    Ok(())
}

// The first of these rows.
fn first_of(parts: &[RowId]) -> RowId
    ensures { result ≡ get_or parts.now 0 0 }
{
    match parts {
        [first, ..] => *first,
        [] => RowId::new(0),
    }
}
