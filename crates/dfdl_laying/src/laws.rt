// Laws of the acts of laying: what was laid names only what is there, and the book grows. The calls do nothing.
ghost use Rattle.std.specs.Prelude.{ℕ, ◌<◌, length};
ghost use Rattle.dfdl_cells.specs.declared.cell.Cell.{Cell as CellOf};
ghost use Rattle.dfdl_outline.specs.declared.entry.Around.{Around as AroundOf};
ghost use Rattle.dfdl_outline.specs.declared.entry.ContentSize.{ContentSize as SizeOf};
ghost use Rattle.dfdl_outline.specs.declared.entry.SimpleSort.{SimpleSort as SimpleOf};
ghost use Rattle.dfdl_laying.specs.Good.{IsGood, IsValue, Keeps};
ghost use Rattle.dfdl_laying.specs.Laying as laying;
ghost use Rattle.dfdl_laying.specs.Laying.{Laid as LaidOf};

/// A simple element is laid.
pub fn simple_element_keeps()
    ensures { (laid : LaidOf) (component : ℕ) (simple : SimpleOf) (around : AroundOf) (value : CellOf) → IsGood laid → IsValue value
        → Keeps laid (laying.with_simple component simple around value laid) }
{}

/// An element with parts opens.
pub fn opened_element_keeps()
    ensures { (laid : LaidOf) (component declared : ℕ) (size : SizeOf) (around : AroundOf) → IsGood laid
        → Keeps laid (laying.complex_opened component declared size around laid) }
{}

/// An element with parts that is missing is laid.
pub fn missing_element_keeps()
    ensures { (laid : LaidOf) (component declared : ℕ) (size : SizeOf) (around : AroundOf) (cause : ℕ) → IsGood laid
        → Keeps laid (laying.complex_missed component declared size around cause laid) }
{}

/// An element with parts closes, which has unknowns.
pub fn closed_element_keeps()
    ensures { (laid : LaidOf) (component : ℕ) (size : SizeOf) (around : AroundOf) → IsGood laid → 0 < length laid.book.cells
        → Keeps laid (laying.complex_closed component size around laid) }
{}

/// A group closes, around which this list of markup is open.
pub fn closed_group_keeps()
    ensures { (laid : LaidOf) (component : ℕ) (around : AroundOf) (markup : ℕ) → IsGood laid → markup < length laid.book.markups
        → Keeps laid (laying.group_closed component around markup laid) }
{}
