// The parts of a JSON value: the root element's content, the names and the values of its members.
ghost use Rattle.std.specs.Prelude.{◌≡◌, ℕ, List, IfOk, map, option_map, string_bytes};
ghost use Rattle.std.specs.BTreeSet.{contains, contains_by};
ghost use Rattle.std.specs.BTreeMap.{keys};
ghost use Rattle.std.specs.List.{list_all};
ghost use Rattle.std.specs.Cmp.Lexicographic.{slice_cmp};
ghost use Rattle.std.specs.Ordering.{nat_cmp};
ghost use Rattle.serde_json.specs.Find.{get_member};
ghost use Rattle.serde_json.specs.View.{view, members_view};
ghost use Rattle.dfdl_terms.specs.Rows.{Table};
ghost use Rattle.dfdl_value.specs.Types.{IsOfType};
ghost use Rattle.dfdl_value.specs.ReadValues.{reading_of};
ghost use Rattle.dfdl_json.specs.Infosets.{content_in, value_if, value_in, are_known as all_known, is_nil as spells_nil};
ghost use Rattle.dfdl_json.specs.Reading.{HasNames};

use dfdl_report::InfosetCause;
use dfdl_value::{ReadFault, Simple, Value};
use serde_json::{Map, Value as Json};
use std::alloc::{AllocError, Global};
use std::collections::BTreeSet;

// The content of the root element, if the whole is an object whose only member has its name.
pub(crate) fn content_of_root<'v>(whole: &'v Json, root: &str) -> Option<&'v Json>
    ensures { option_map (λ v. view v.now) result ≡ content_in root.now (view whole.now) }
{
    let members = whole.as_object()?;
    if members.len() == 1 {
        whole.get(root)
    } else {
        None
    }
}

// The member of this name.
pub(crate) fn member_of<'v>(members: &'v Map<String, Json>, name: &str) -> Option<&'v Json>
    ensures { option_map (λ v. view v.now) result ≡ get_member name.now (members_view members.now.entries) }
{
    members.get(name)
}

// Whether each member has one of these names.
pub(crate) fn are_known(members: &Map<String, Json>, names: &BTreeSet<&str>) -> bool
    ensures { (t : Table) (elements : List ℕ) → HasNames (contains (λ x y. slice_cmp nat_cmp x.now y.now) names.now) t elements
        → result ≡ all_known t elements (members_view members.now.entries) }
{
    are_among(members, names)
}

// Whether each member has one of these names, by the test of the set.
fn are_among(members: &Map<String, Json>, names: &BTreeSet<&str>) -> bool
    ensures { result ≡ list_all (λ key. contains_by (λ k. slice_cmp nat_cmp (string_bytes key) k.now) names.now) (keys members.now) }
{
    members.keys().all(|name| names.contains(name.as_str()))
}

// Whether an element is nil, whose nil representation has this primitive.
pub(crate) fn is_nil(nil: Option<u32>, content: &Json) -> bool
    ensures { result ≡ spells_nil nil (view content.now) }
{
    match nil {
        Some(_) => matches!(content, Json::Null),
        None => false,
    }
}

// What a member says of its simple element.
pub(crate) fn read_member(
    alloc: Global,
    kind: Simple,
    member: &Json,
) -> Result<Result<Value, InfosetCause>, AllocError>
    ensures read { IfOk result (λ read. read ≡ value_in kind (view member.now)) }
{
    match member {
        Json::String(text) => read_text(alloc, kind, text.as_str()),
        Json::Null => Ok(Err(InfosetCause::NullNotAllowed)),
        _ => Ok(Err(InfosetCause::StringExpected)),
    }
}

// What a text says of a simple element.
fn read_text(
    alloc: Global,
    kind: Simple,
    text: &str,
) -> Result<Result<Value, InfosetCause>, AllocError>
    ensures read { IfOk result (λ read. read ≡ value_if (reading_of kind text.now)) }
{
    match Value::read(alloc, kind, text) {
        Ok(value) => Ok(Ok(value)),
        Err(ReadFault::NotAValue) => Ok(Err(InfosetCause::NotAValue)),
        Err(ReadFault::PastType) => Ok(Err(InfosetCause::NotAValue)),
        Err(ReadFault::OutOfMemory) => Err(AllocError),
    }
}
