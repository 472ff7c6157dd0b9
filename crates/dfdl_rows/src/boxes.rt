// The row of a box around the content of a complex element.
ghost use Rattle.std.specs.Prelude.{◌≡◌};
ghost use Rattle.dfdl_rows.specs.Boxes as boxes;

use crate::ContentBox;
use dfdl_terms::{Row, RowId};

/// The row of a box around the row of a content; where there is no box, the one that keeps how long the content is.
pub(crate) fn box_row(content_box: ContentBox, content: RowId) -> Row
    ensures { result ≡ boxes.box_row content_box content }
{
    let body = content;
    match content_box {
        ContentBox::Unbounded => Row::Spanned { body },
        ContentBox::Sized(bits) => Row::Boxed { bits, body },
        ContentBox::Prefixed(prefix) => Row::PrefixedBox { prefix, body },
        ContentBox::Measured(measure) => Row::MeasuredBox { measure, body },
    }
}
