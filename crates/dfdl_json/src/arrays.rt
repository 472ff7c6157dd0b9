// Arrays of an object that is being made: their items are put from the last to the first, and turned round once.
ghost use Rattle.std.specs.Prelude.{◌≡◌, IfOk, OnOk, None, Some, true};
ghost use Rattle.serde_json.specs.Data.{put};
ghost use Rattle.serde_json.specs.Find.{get_member};
ghost use Rattle.serde_json.specs.View.{view};
ghost use Rattle.dfdl_json.specs.Inside.{all_turned, shown, turned, with_last};

use serde_json::{Map, Value as Json};
use std::alloc::{AllocError, Global};

// Puts an item behind those of the array of this name.
pub(crate) fn put_item(
    alloc: Global,
    object: &mut Map<String, Json>,
    name: &str,
    value: Json,
) -> Result<(), AllocError>
    ensures { OnOk result (shown object.new
        ≡ put name.now (with_last true (view value) (get_member name.now (shown object.old))) (shown object.old)) }
{
    match object.get_mut(name) {
        Some(held) => push_item(alloc, held, value),
        None => {
            let first = array_of(alloc, value)?;
            serde_json::put(object, alloc, name, first)
        }
    }
}

// Puts an item behind those of an array; of any other value comes an array of the item.
fn push_item(alloc: Global, held: &mut Json, value: Json) -> Result<(), AllocError>
    ensures { OnOk result (view held.new ≡ with_last true (view value) (Some (view held.old))) }
{
    *held = with_item(alloc, held.take(), value)?;
    Ok(())
}

// An array with an item more, or of any other value the array of the item.
fn with_item(alloc: Global, held: Json, value: Json) -> Result<Json, AllocError>
    ensures { IfOk result (λ all. view all ≡ with_last true (view value) (Some (view held))) }
{
    match held {
        Json::Array(items) => {
            let mut items = items;
            items.push(value)?;
            Ok(Json::Array(items))
        }
        _ => array_of(alloc, value),
    }
}

// An array of one item.
fn array_of(alloc: Global, value: Json) -> Result<Json, AllocError>
    ensures { IfOk result (λ one. view one ≡ with_last true (view value) None) }
{
    let mut items = Vec::new(alloc);
    items.push(value)?;
    Ok(Json::Array(items))
}

// Members with their arrays from the first item to the last.
pub(crate) fn in_order(members: Map<String, Json>) -> Map<String, Json>
    ensures { shown result ≡ all_turned (shown members) }
{
    let mut members = members;
    members.retain(|_, value| {
        *value = turned(value.take());
        true
    });
    members
}

// An array turned round, or any other value as it is.
fn turned(value: Json) -> Json
    ensures { view result ≡ turned (view value) }
{
    match value {
        Json::Array(items) => {
            let mut items = items;
            items.reverse();
            Json::Array(items)
        }
        other => other,
    }
}
