// The events of the text of an infoset.
ghost use Rattle.std.specs.Prelude.{IfOk};
ghost use Rattle.serde_json.specs.View.{view};
ghost use Rattle.dfdl_json.specs.Answers.{Answers};
ghost use Rattle.dfdl_terms.specs.Rows.{HasElementLast};
ghost use Rattle.dfdl_json.specs.Fitting.{Fits};
ghost use Rattle.dfdl_json.specs.Texts.{events_of_text, json_in};

use crate::events::events_of;
use crate::fault::InfosetFault;
use dfdl_report::InfosetCause;
use dfdl_terms::{Event, Terms};
use dfdl_value::TextValue;
use serde_json::Value as Json;
use std::alloc::Global;

/// The events of an infoset's text, in schema order. Bad comes exactly where the text is no JSON in UTF-8, or the value
/// of it is no infoset of the schema ('The DFDL Information Set'). Values that are nested deeper than 127 count as no
/// JSON (profile).
pub fn events_of_json(alloc: Global, terms: &Terms, text: &[u8]) -> Result<Vec<Event>, InfosetFault>
    requires { HasElementLast terms.now }
    ensures answer { Answers (λ events. events.items) (events_of_text terms.now text.now) result }
    ensures fits { IfOk result (λ events. Fits terms.now events.items) }
{
    let json = json_of(alloc, text)?;
    events_of(alloc, terms, &json)
}

// The JSON value of a text.
fn json_of(alloc: Global, text: &[u8]) -> Result<Json, InfosetFault>
    ensures { Answers (λ json. view json) (json_in text.now) result }
{
    match Json::from_slice(alloc, text) {
        Ok(json) => Ok(json),
        Err(error) => {
            if error.is_memory() {
                return Err(InfosetFault::OutOfMemory);
            }
            Err(InfosetFault::Bad {
                cause: InfosetCause::NotJson,
                path: TextValue::from_str(alloc, "/")?,
            })
        }
    }
}
