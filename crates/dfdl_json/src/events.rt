// The events of a JSON value.
ghost use Rattle.std.specs.Prelude.{◌≡◌, ◌++◌, [], None, IfOk, fold};
ghost use Rattle.serde_json.specs.View.{view};
ghost use Rattle.dfdl_json.specs.Answers.{Answers};
ghost use Rattle.dfdl_terms.specs.Rows.{HasElementLast};
ghost use Rattle.dfdl_json.specs.Fitting.{Fits};
ghost use Rattle.dfdl_json.specs.Found.{noted};
ghost use Rattle.dfdl_json.specs.Infosets.{events_in, findings};

use crate::children::{name_of, root_row};
use crate::fault::InfosetFault;
use crate::found::Found;
use crate::marks::Marks;
use crate::members::content_of_root;
use crate::reading::Reading;
use dfdl_report::InfosetCause;
use dfdl_terms::{Event, RowId, Terms};
use dfdl_value::TextValue;
use serde_json::Value as Json;
use std::alloc::{AllocError, Global};

/// The events of an infoset, in schema order. A child whose member is absent has no event, and the items of an array have theirs
/// one after another. Bad comes exactly where the value is no infoset of the schema; of several causes, that at the outermost level
/// counts, and of one level the first in schema order, where an unknown member stands before the children, and the items of an array
/// at the level of their element ('The DFDL Information Set').
pub fn events_of(alloc: Global, terms: &Terms, value: &Json) -> Result<Vec<Event>, InfosetFault>
    requires { HasElementLast terms.now }
    ensures answer { Answers (λ events. events.items) (events_in terms.now (view value.now)) result }
    ensures fits { IfOk result (λ events. Fits terms.now events.items) }
{
    let root = root_row(terms);
    match content_of_root(value, name_of(terms, root)) {
        Some(content) => {
            let found = found_in(alloc, terms, root, content)?;
            found.answer()
        }
        None => Err(InfosetFault::Bad {
            cause: InfosetCause::RootExpected,
            path: TextValue::from_str(alloc, "/")?,
        }),
    }
}

// What is found in the content of the root element, whose row this is.
fn found_in(alloc: Global, terms: &Terms, root: RowId, content: &Json) -> Result<Found, AllocError>
    ensures { IfOk result (λ found. found
        ≡ fold noted (record { events = []; refused = None }) (findings terms.now root None (view content.now) [] ++ [])) }
{
    let marks = Marks::of(alloc, terms)?;
    let mut reading = Reading::new(alloc, root, content)?;
    reading.run(alloc, terms, &marks)?;
    Ok(reading.found())
}
