// The layout of a schema.
ghost use Rattle.std.specs.Prelude.{◌≡◌, ◌<◌, length, IfOk};
ghost use Rattle.dfdl_planning.specs.Planned.{entry_by, entry_in, has_moves, layout_in, outline_at, outlines_in};
ghost use Rattle.dfdl_rows.specs.Components.{component_at};
ghost use Rattle.dfdl_order.specs.Parts.{uses_of};

use crate::frames::around_of;
use crate::outline::Outline;
use crate::outlines::outlines;
use crate::parts::{parts_of, separated_of};
use crate::sorts::sort_of;
use crate::source::Source;
use dfdl_outline::{Entry, Layout};
use std::alloc::{AllocError, Global};

/// The layout of a schema, and whether something in it may leave a place that is on no whole byte.
#[derive(Drop)]
pub struct Planned {
    pub layout: Layout,
    pub moves: bool,
}

// The entry of the component of a number.
fn entry_of(
    alloc: Global,
    source: &Source<'_>,
    known: &[Outline],
    moves: bool,
    number: u32,
) -> Result<Entry, AllocError>
    requires number { number < length source.now.schema.uses }
    requires known { length known.now ≡ length source.now.schema.uses }
    ensures { IfOk result (λ made. made ≡ entry_by source.now (outline_at known.now) moves number
        (component_at source.now.schema.components number) (uses_of source.now.schema.uses number)) }
{
    let components = source.components();
    let component = components.component(number);
    let sort = sort_of(alloc, source, moves, number, component)?;
    let around = around_of(alloc, source, number, component)?;
    let parts = parts_of(
        alloc,
        separated_of(component),
        components.parts(number),
        known,
    )?;
    let outline = &known[number as usize];
    Ok(Entry {
        sort,
        parts,
        declared: outline.declared,
        needs: outline.needs,
        around,
    })
}

// The same, where what is known is the outlines of the schema's components.
fn entry_at(
    alloc: Global,
    source: &Source<'_>,
    known: &[Outline],
    moves: bool,
    number: u32,
) -> Result<Entry, AllocError>
    requires number { number < length source.now.schema.uses }
    requires known { known.now ≡ outlines_in source.now }
    requires counted { length known.now ≡ length source.now.schema.uses }
    requires moves { moves ≡ has_moves source.now }
    ensures { IfOk result (λ made. made ≡ entry_in source.now number) }
{
    entry_of(alloc, source, known, moves, number)
}

/// The layout of a schema.
pub fn layout_of(alloc: Global, source: &Source<'_>) -> Result<Planned, AllocError>
    requires { source.now.root < length source.now.schema.uses }
    ensures layout { IfOk result (λ made. made.layout ≡ layout_in source.now) }
    ensures moves { IfOk result (λ made. made.moves ≡ has_moves source.now) }
{
    let known = outlines(alloc, source)?;
    let moves = !known[source.root() as usize].is_whole;
    let mut entries = Vec::new(alloc);
    let count = source.components().count();
    for number in 0..count {
        entries.push(entry_at(alloc, source, known.as_slice(), moves, number)?)?;
    }
    Ok(Planned {
        layout: Layout::from_vec(entries),
        moves,
    })
}
