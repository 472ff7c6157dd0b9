// The slots of a group, the separators at them, and the rows that repeat elements there, and those that try them.
ghost use Rattle.std.specs.Prelude.{◌≡◌, ◌≤◌, ◌<◌, ◌+◌, ◌-◌, ◌^◌, ◌++◌, ◌∷◌, ◌||◌, [], Bool, false, get_or, length, map, vec_len, IfOk, OnOk, if◌then◌else◌, nat_lt};
ghost use Rattle.dfdl_rows.specs.Saturated.{saturated};
ghost use Rattle.dfdl_rows.specs.Slots as spec;

use crate::apart::{apart, apart_row, part_at};
use crate::component::{BranchKey, Dispatch, Separated};
use crate::last::push_last;
use crate::slot_sizes::{needed, tried_size};
use crate::times::Times;
use dfdl_separators::SeparatorPosition;
use dfdl_terms::{Key, KeyList, Row, RowId, RowList};
use std::alloc::{AllocError, Global};

/// What rows are in the group that they stand in.
#[derive(Clone, Copy)]
pub(crate) enum Grouping {
    /// One stands behind the other.
    Sequence,
    /// One of them is taken.
    Choice,
}

/// What a sequence or choice is, without what frames it and its parts.
#[derive(Clone, Copy)]
pub(crate) struct Group {
    pub(crate) kind: Grouping,
    /// Its separators, if it has some.
    pub(crate) separated: Option<Separated>,
    /// Initiators tell what stands in it.
    pub(crate) initiated: bool,
}

// Whether a slot begins with a separator, where a slot came before it or none did.
fn begins(position: SeparatorPosition, taken: bool) -> bool
    ensures { result ≡ spec.begins position taken }
{
    match position {
        SeparatorPosition::Prefix => true,
        SeparatorPosition::Infix => taken,
        SeparatorPosition::Postfix => false,
    }
}

// Whether a slot ends with a separator.
fn ends(position: SeparatorPosition) -> bool
    ensures { result ≡ spec.ends position }
{
    match position {
        SeparatorPosition::Prefix | SeparatorPosition::Infix => false,
        SeparatorPosition::Postfix => true,
    }
}

// Adds a row, where it stands there.
fn push_if(children: &mut Vec<RowId>, stands: bool, row: RowId) -> Result<(), AllocError>
    ensures { OnOk result (children.new.items ≡ children.old.items ++ spec.row_if stands row) }
{
    if stands {
        children.push(row)?;
    }
    Ok(())
}

// Adds the row of a part, which has a slot or has none, with the separators at it.
fn push_with_separators(
    children: &mut Vec<RowId>,
    position: SeparatorPosition,
    separator: RowId,
    taken: bool,
    slot: bool,
    part: RowId,
) -> Result<(), AllocError>
    ensures { OnOk result (children.new.items
        ≡ children.old.items ++ spec.with_separators position separator taken slot part) }
{
    push_if(children, slot && begins(position, taken), separator)?;
    children.push(part)?;
    push_if(children, slot && ends(position), separator)
}

// Adds the rows that stand for a part with one slot or none.
fn push_single(
    children: &mut Vec<RowId>,
    way: Option<SeparatorPosition>,
    separator: RowId,
    taken: bool,
    slot: bool,
    part: RowId,
) -> Result<(), AllocError>
    ensures { OnOk result (children.new.items ≡ children.old.items ++ spec.single way separator taken slot part) }
{
    match way {
        Some(position) => push_with_separators(children, position, separator, taken, slot, part),
        None => {
            children.push(part)?;
            Ok(())
        }
    }
}

// The rows of the group of a part and its separator.
fn pair(alloc: Global, before: RowId, behind: RowId) -> Result<RowList, AllocError>
    ensures { IfOk result (λ made. made ≡ before ∷ behind ∷ []) }
{
    let mut rows = Vec::new(alloc);
    rows.push(before)?;
    rows.push(behind)?;
    Ok(RowList::new(rows))
}

// Adds two rows: a group, and one that repeats it so many times.
fn push_repeat(
    rows: &mut Vec<Row>,
    children: RowList,
    count: u32,
    body: RowId,
) -> Result<(), AllocError>
    ensures { OnOk result (rows.new.items ≡ rows.old.items ++ Row.Group children ∷ Row.Repeat count body ∷ []) }
{
    rows.push(Row::Group { children })?;
    rows.push(Row::Repeat { count, body })?;
    Ok(())
}

// Adds the rows that repeat the row of a part with so many slots, from a number on.
fn push_repeating(
    alloc: Global,
    rows: &mut Vec<Row>,
    way: Option<SeparatorPosition>,
    separator: RowId,
    slots: u32,
    part: RowId,
    first: RowId,
) -> Result<(), AllocError>
    requires { 1 < slots }
    ensures { OnOk result (rows.new.items ≡ rows.old.items ++ spec.repeating_rows way separator slots part first) }
{
    match way {
        None => {
            rows.push(Row::Repeat {
                count: slots,
                body: part,
            })?;
            Ok(())
        }
        Some(SeparatorPosition::Prefix) => {
            let children = pair(alloc, separator, part)?;
            push_repeat(rows, children, slots, first)
        }
        Some(SeparatorPosition::Infix) => {
            let children = pair(alloc, separator, part)?;
            push_repeat(rows, children, slots - 1, first)
        }
        Some(SeparatorPosition::Postfix) => {
            let children = pair(alloc, part, separator)?;
            push_repeat(rows, children, slots, first)
        }
    }
}

// Adds the rows that stand for a part that is repeated by rows from a number on.
fn push_repeated(
    children: &mut Vec<RowId>,
    way: Option<SeparatorPosition>,
    separator: RowId,
    taken: bool,
    part: RowId,
    first: u32,
) -> Result<(), AllocError>
    requires { first + 1 < 2 ^ 32 }
    ensures { OnOk result (children.new.items ≡ children.old.items ++ spec.repeated way separator taken part first) }
{
    match way {
        None => {
            children.push(RowId::new(first))?;
        }
        Some(SeparatorPosition::Infix) => {
            push_if(children, taken, separator)?;
            children.push(part)?;
            children.push(RowId::new(first + 1))?;
        }
        Some(SeparatorPosition::Prefix | SeparatorPosition::Postfix) => {
            children.push(RowId::new(first + 1))?;
        }
    }
    Ok(())
}

// Adds the rows that try a part, from a number on. Initiators tell what stands there, or don't.
fn push_tried(
    alloc: Global,
    rows: &mut Vec<Row>,
    initiated: bool,
    times: Times,
    part: RowId,
    first: u32,
) -> Result<(), AllocError>
    requires { first + 1 < 2 ^ 32 }
    ensures { OnOk result (rows.new.items ≡ rows.old.items ++ spec.tried_rows initiated times part first) }
{
    let tried = Row::Optional {
        most: times.further,
        is_item: times.is_item,
        initiated,
        body: part,
    };
    if times.least == 0 {
        rows.push(tried)?;
        return Ok(());
    }
    let count = times.least;
    rows.push(Row::Repeat { count, body: part })?;
    rows.push(tried)?;
    let children = pair(alloc, RowId::new(first), RowId::new(first + 1))?;
    rows.push(Row::Group { children })?;
    Ok(())
}

// Adds what stands for a part with so many slots, all of which are required, where the rows of the group's own begin at a number.
fn push_required(
    alloc: Global,
    rows: &mut Vec<Row>,
    children: &mut Vec<RowId>,
    way: Option<SeparatorPosition>,
    first: u32,
    taken: bool,
    slots: u32,
    part: RowId,
) -> Result<(), AllocError>
    requires { first + length rows.old.items + spec.required_size way slots < 2 ^ 32 }
    ensures rows { OnOk result (rows.new.items
        ≡ rows.old.items ++ spec.required_rows way first slots part (first + length rows.old.items)) }
    ensures children { OnOk result (children.new.items
        ≡ children.old.items ++ spec.required_children way first taken slots part (first + length rows.old.items)) }
{
    let separator = RowId::new(first);
    if slots <= 1 {
        return push_single(children, way, separator, taken, slots > 0, part);
    }
    let number = first + rows.len() as u32;
    push_repeating(alloc, rows, way, separator, slots, part, RowId::new(number))?;
    push_repeated(children, way, separator, taken, part, number)
}

// Adds what stands for a part that is repeated and tried by its bounds, where the rows of the group's own begin at a number.
fn push_bounded(
    alloc: Global,
    rows: &mut Vec<Row>,
    children: &mut Vec<RowId>,
    initiated: bool,
    way: Option<SeparatorPosition>,
    first: u32,
    taken: bool,
    times: Times,
    part: RowId,
) -> Result<(), AllocError>
    requires { first + length rows.old.items + spec.bounded_size way times < 2 ^ 32 }
    ensures rows { OnOk result (rows.new.items
        ≡ rows.old.items ++ spec.bounded_rows initiated way first times part (first + length rows.old.items)) }
    ensures children { OnOk result (children.new.items
        ≡ children.old.items ++ spec.bounded_children way first taken times part (first + length rows.old.items)) }
{
    if times.further == 0 {
        return push_required(alloc, rows, children, way, first, taken, times.least, part);
    }
    let number = first + rows.len() as u32;
    push_tried(alloc, rows, initiated, times, part, number)?;
    children.push(RowId::new(number + tried_size(times.least) - 1))?;
    Ok(())
}

// Adds what stands for a part that is repeated as often as a question tells, where the rows of the group's own begin at a number.
fn push_counted(
    rows: &mut Vec<Row>,
    children: &mut Vec<RowId>,
    first: u32,
    question: u32,
    part: RowId,
) -> Result<(), AllocError>
    requires { first + length rows.old.items < 2 ^ 32 }
    ensures rows { OnOk result (rows.new.items ≡ rows.old.items ++ Row.Counted question part ∷ []) }
    ensures children { OnOk result (children.new.items ≡ children.old.items ++ (first + length rows.old.items) ∷ []) }
{
    children.push(RowId::new(first + rows.len() as u32))?;
    rows.push(Row::Counted {
        question,
        body: part,
    })?;
    Ok(())
}

// Adds what stands for a part, where the rows of the group's own begin at a number.
fn push_part(
    alloc: Global,
    rows: &mut Vec<Row>,
    children: &mut Vec<RowId>,
    initiated: bool,
    way: Option<SeparatorPosition>,
    first: u32,
    taken: bool,
    times: Times,
    part: RowId,
) -> Result<(), AllocError>
    requires { first + length rows.old.items + spec.part_size way times < 2 ^ 32 }
    ensures rows { OnOk result (rows.new.items
        ≡ rows.old.items ++ spec.part_rows initiated way first times part (first + length rows.old.items)) }
    ensures children { OnOk result (children.new.items
        ≡ children.old.items ++ spec.part_children way first taken times part (first + length rows.old.items)) }
{
    match times.question {
        Some(question) => push_counted(rows, children, first, question, part),
        None => push_bounded(
            alloc, rows, children, initiated, way, first, taken, times, part,
        ),
    }
}

// Whether a part had a slot so far, where one with so many comes.
fn is_taken(taken: bool, slots: u32) -> bool
    ensures { result ≡ (taken || nat_lt 0 slots) }
{
    taken || slots > 0
}

// The row of separators, where there are some.
fn separator_rows(alloc: Global, way: Option<SeparatorPosition>) -> Result<Vec<Row>, AllocError>
    ensures { IfOk result (λ made. made.items ≡ spec.separator_rows way) }
{
    let mut rows = Vec::new(alloc);
    if way.is_some() {
        rows.push(Row::Separator)?;
    }
    Ok(rows)
}

// What is made of the parts of a group: the rows of its separators and those that repeat and try parts, and the rows that stand in it.
#[derive(Drop)]
struct Laid {
    rows: Vec<Row>,
    children: Vec<RowId>,
}

// What is made of the parts of a group, which occur so often, where the rows of its own begin at a number.
fn lay(
    alloc: Global,
    initiated: bool,
    way: Option<SeparatorPosition>,
    slots: &[Times],
    parts: &[RowId],
    first: u32,
) -> Result<Laid, AllocError>
    requires { first + spec.separator_size way + spec.parts_size way slots.now < 2 ^ 32 }
    ensures rows { IfOk result (λ made. made.rows.items ≡ (spec.all_laid initiated way slots.now parts.now first).rows) }
    ensures children { IfOk result (λ made. made.children.items ≡ (spec.all_laid initiated way slots.now parts.now first).children) }
{
    let mut rows = separator_rows(alloc, way)?;
    let mut children = Vec::new(alloc);
    let mut taken = false;
    for at in 0..slots.len() {
        let part = part_at(parts, at);
        let times = slots[at];
        push_part(
            alloc,
            &mut rows,
            &mut children,
            initiated,
            way,
            first,
            taken,
            times,
            part,
        )?;
        taken = is_taken(taken, times.least);
    }
    Ok(Laid { rows, children })
}

// The keys of a choice with the rows that stand for their branches, of these rows of the branches.
fn keys_of(alloc: Global, keys: &[BranchKey], branches: &[RowId]) -> Result<KeyList, AllocError>
    ensures { IfOk result (λ made. made ≡ map (spec.key_of branches.now) keys.now) }
{
    let mut made = Vec::new(alloc);
    for key in keys {
        let text = key.text.copy(alloc)?;
        let body = part_at(branches, key.branch as usize);
        made.push(Key { text, body })?;
    }
    Ok(KeyList::from_vec(made))
}

// The row of a choice of rows. Initiators tell what stands in it, or don't, where no key does.
fn choice_row(
    alloc: Global,
    dispatch: &Option<Dispatch>,
    initiated: bool,
    rows: Vec<RowId>,
) -> Result<Row, AllocError>
    ensures { IfOk result (λ row. row ≡ spec.row_of (spec.kind_by dispatch.now) initiated rows.items) }
{
    match dispatch {
        Some(dispatch) => {
            let keys = keys_of(alloc, dispatch.keys.as_slice(), rows.as_slice())?;
            let question = dispatch.question;
            Ok(Row::Dispatch { question, keys })
        }
        None => Ok(Row::Choice {
            branches: RowList::new(rows),
            initiated,
        }),
    }
}

// The row of a group of rows. Initiators tell what stands in it, or don't.
fn row_of(
    alloc: Global,
    kind: Grouping,
    dispatch: &Option<Dispatch>,
    initiated: bool,
    rows: Vec<RowId>,
) -> Result<Row, AllocError>
    ensures { IfOk result (λ row. row ≡ spec.row_of (spec.kind_of kind dispatch.now) initiated rows.items) }
{
    match kind {
        Grouping::Sequence => Ok(Row::Group {
            children: RowList::new(rows),
        }),
        Grouping::Choice => choice_row(alloc, dispatch, initiated, rows),
    }
}

// Adds the rows of a group that isn't one row of slots.
fn push_laid(
    alloc: Global,
    rows: &mut Vec<Row>,
    group: Group,
    dispatch: &Option<Dispatch>,
    slots: &[Times],
    parts: &[RowId],
) -> Result<RowId, AllocError>
    requires { length rows.old.items + spec.laid_size group.separated slots.now + 1 < 2 ^ 32 }
    ensures rows { OnOk result (rows.new.items ≡ rows.old.items
        ++ spec.grouped_by None (spec.kind_of group.kind dispatch.now) group.initiated group.separated slots.now parts.now (length rows.old.items)) }
    ensures number { IfOk result (λ number. number ≡ length rows.old.items + spec.laid_size group.separated slots.now) }
{
    let first = rows.len() as u32;
    let way = needed(group.separated, slots);
    let laid = lay(alloc, group.initiated, way, slots, parts, first)?;
    let mut own = laid.rows;
    rows.append(&mut own)?;
    let initiated = group.initiated;
    let row = row_of(alloc, group.kind, dispatch, initiated, laid.children)?;
    push_last(rows, row)
}

/// Adds the rows of the group of a sequence or choice, whose branch a key tells or none does, where these are the last rows of its parts, which occur
/// so often; gives its own row.
pub(crate) fn push_group(
    alloc: Global,
    rows: &mut Vec<Row>,
    group: Group,
    dispatch: &Option<Dispatch>,
    slots: &[Times],
    parts: &[RowId],
) -> Result<RowId, AllocError>
    requires { length rows.old.items + spec.slots_size group.separated slots.now + 1 < 2 ^ 32 }
    ensures rows { OnOk result (rows.new.items ≡ rows.old.items
        ++ spec.grouped (spec.kind_of group.kind dispatch.now) group.initiated group.separated slots.now parts.now (length rows.old.items)) }
    ensures number { IfOk result (λ number. number ≡ length rows.old.items + spec.slots_size group.separated slots.now) }
{
    match apart(group.separated, slots) {
        Some(own) => {
            let row = apart_row(alloc, group.initiated, slots, parts, own)?;
            push_last(rows, row)
        }
        None => push_laid(alloc, rows, group, dispatch, slots, parts),
    }
}
