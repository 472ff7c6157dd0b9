// The line of the infoset of parsed data.
ghost use Rattle.std.specs.Prelude.{◌≡◌, ◌+◌, ◌≤◌, ℕ, suc, true, nat_eq, IfOk, OnOk, IsUtf8, length, drop, string_bytes};
ghost use Rattle.dfdl_value.specs.Writing.{text_of};
ghost use Rattle.dfdl_region.specs.Texts.{HasText, HaveTexts};
ghost use Rattle.serde_json.specs.Data.{Members, no_members};
ghost use Rattle.serde_json.specs.View.{view};
ghost use Rattle.dfdl_terms.specs.Arrays.{MarksItems, is_item, is_marked};
ghost use Rattle.dfdl_json.specs.Adding.{Adds, data_tokens};
ghost use Rattle.dfdl_json.specs.Inside.{HaveMembers, IsPut, all_turned, put_if, shown};
ghost use Rattle.dfdl_json.specs.Children as children;
ghost use Rattle.dfdl_json.specs.Lines as lines;

use crate::arrays::{in_order, put_item};
use crate::children::name_of;
use crate::hidden::Hidden;
use crate::values::bytes_at;
use crate::writing::Infoset;
use dfdl_decimal::Fixed;
use dfdl_region::{Content, Node};
use dfdl_terms::{Items, Terms};
use dfdl_value::{TextValue, Value};
use json::Writer;
use serde_json::{Map, Value as Json};
use std::alloc::{AllocError, Global};

/// The line of an infoset whose elements are these nodes, the root element first, with the bytes of their texts and
/// hexBinary values: compact JSON and one line feed ('The DFDL Information Set').
pub fn line_of(
    alloc: Global,
    terms: &Terms,
    nodes: &[Node],
    text: &[u8],
) -> Result<TextValue, AllocError>
    requires texts { HaveTexts nodes.now text.now }
    ensures { IfOk result (λ line. line ≡ lines.line_of terms.now nodes.now text.now) }
{
    let mut out = Writer::new(Vec::with_capacity(alloc, 128)?);
    write_infoset(alloc, &mut out, terms, nodes, text)?;
    let mut line = string_with(out.into_inner());
    line.push('\n')?;
    Ok(TextValue::from_string(line))
}

// Writes the infoset whose elements are these nodes.
fn write_infoset(
    alloc: Global,
    out: &mut Writer,
    terms: &Terms,
    nodes: &[Node],
    text: &[u8],
) -> Result<(), AllocError>
    requires texts { HaveTexts nodes.now text.now }
    ensures { OnOk result (Adds out.old out.new (data_tokens (lines.infoset_of terms.now nodes.now text.now))) }
{
    let [root, ..] = nodes else {
        out.begin_object()?;
        return out.end_object();
    };
    let infoset = Infoset::of(alloc, terms, nodes, text)?;
    out.begin_object()?;
    out.key(name_of(terms, root.element))?;
    infoset.write_element(alloc, out, 0)?;
    out.end_object()
}

// The string with bytes that are UTF-8.
fn string_with(bytes: Vec<u8>) -> String
    requires { IsUtf8 bytes.items }
    ensures { string_bytes result ≡ bytes.items }
{
    match String::from_utf8(bytes) {
        Ok(string) => string,
        Err(_) => unreachable!(),
    }
}

/// The infoset whose elements are these nodes, with the bytes of their texts and hexBinary values, as JSON.
pub fn value_of(
    alloc: Global,
    terms: &Terms,
    nodes: &[Node],
    text: &[u8],
) -> Result<Json, AllocError>
    requires texts { HaveTexts nodes.now text.now }
    ensures { IfOk result (λ value. view value ≡ lines.infoset_of terms.now nodes.now text.now) }
{
    let mut whole = Map::new(alloc);
    let [root, ..] = nodes else {
        return Ok(Json::Object(whole));
    };
    let members = members_of_root(alloc, terms, nodes, text)?;
    let value = value_with(alloc, root.content, members, text)?;
    serde_json::put(&mut whole, alloc, name_of(terms, root.element), value)?;
    Ok(Json::Object(whole))
}

// The members of the root element, which is the first of these nodes, with their arrays from the last item to the first.
// Those of each element are whole when the nodes from it on have been put.
fn members_of_root(
    alloc: Global,
    terms: &Terms,
    nodes: &[Node],
    text: &[u8],
) -> Result<Map<String, Json>, AllocError>
    requires some { 1 ≤ length nodes.now }
    requires texts { HaveTexts nodes.now text.now }
    ensures { IfOk result (λ members. shown members ≡ all_turned (lines.members_of terms.now text.now 1 (drop 1 nodes.now) 0)) }
{
    let items = Items::of(alloc, terms)?;
    let hidden = Hidden::of(alloc, terms)?;
    let mut objects = empty_objects(alloc, nodes.len())?;
    for at in (1..nodes.len()).rev() {
        put_node(alloc, terms, &items, &hidden, &mut objects, nodes[at], text)?;
    }
    let Some(members) = objects.pop() else {
        unreachable!()
    };
    Ok(members)
}

// So many objects without members.
fn empty_objects(alloc: Global, count: usize) -> Result<Vec<Map<String, Json>>, AllocError>
    ensures { IfOk result (λ objects. HaveMembers objects.items count (λ _. no_members)) }
{
    let mut objects = Vec::new(alloc);
    for made in 0..count {
        objects.push(Map::new(alloc))?;
    }
    Ok(objects)
}

// Puts a node, whose object is the last one, into that of the element around it, unless it is hidden.
fn put_node(
    alloc: Global,
    terms: &Terms,
    items: &Items,
    hidden: &Hidden,
    objects: &mut Vec<Map<String, Json>>,
    node: Node,
    text: &[u8],
) -> Result<(), AllocError>
    requires some { 1 ≤ length objects.old.items }
    requires text { HasText text.now node.content }
    ensures { OnOk result ((told : ℕ → Members) (count : ℕ) → HaveMembers objects.old.items (suc count) told
        → HaveMembers objects.new.items count (λ j. put_if (lines.is_member (is_marked hidden.now node.element) node.parent j) (is_marked items.now node.element)
        (children.name_of terms.now node.element) (lines.data_of text.now node.content (all_turned (told count))) (told j))) }
{
    let Some(members) = objects.pop() else {
        unreachable!()
    };
    if hidden.has(node.element) {
        return Ok(());
    }
    let value = value_with(alloc, node.content, members, text)?;
    put_member(
        alloc,
        objects,
        node.parent,
        items.has(node.element),
        name_of(terms, node.element),
        value,
    )
}

// Puts a member, or an item of an array, into the object of this number, if there is one.
fn put_member(
    alloc: Global,
    objects: &mut Vec<Map<String, Json>>,
    number: u32,
    is_item: bool,
    name: &str,
    value: Json,
) -> Result<(), AllocError>
    ensures { OnOk result (IsPut number is_item name.now (view value) objects.old.items objects.new.items) }
{
    let number = number as usize;
    if number < objects.len() {
        let object = &mut objects[number];
        return put_value(alloc, object, is_item, name, value);
    }
    Ok(())
}

// Puts a member, or an item of an array, into an object.
fn put_value(
    alloc: Global,
    object: &mut Map<String, Json>,
    is_item: bool,
    name: &str,
    value: Json,
) -> Result<(), AllocError>
    ensures { OnOk result (shown object.new ≡ put_if true is_item name.now (view value) (shown object.old)) }
{
    if is_item {
        put_item(alloc, object, name, value)
    } else {
        serde_json::put(object, alloc, name, value)
    }
}

// The value of an element with these members, whose arrays are from the last item to the first.
fn value_with(
    alloc: Global,
    content: Content,
    members: Map<String, Json>,
    text: &[u8],
) -> Result<Json, AllocError>
    requires { HasText text.now content }
    ensures { IfOk result (λ value. view value ≡ lines.data_of text.now content (all_turned (shown members))) }
{
    match content {
        Content::Signed(number) => Ok(Json::String(number.to_string(alloc)?)),
        Content::Unsigned(number) => Ok(Json::String(number.to_string(alloc)?)),
        Content::Decimal(number) => Ok(Json::String(decimal_text(alloc, number)?)),
        Content::Truth(truth) => Ok(Json::String(truth.to_string(alloc)?)),
        Content::Text { from, len } => Ok(Json::String(string_of(
            alloc,
            bytes_at(text, from, len),
        )?)),
        Content::Octets { from, len } => Ok(Json::String(hex::encode_upper(
            alloc,
            bytes_at(text, from, len),
        )?)),
        Content::Nil => Ok(Json::Null),
        Content::Complex => Ok(Json::Object(in_order(members))),
        Content::Begun => Ok(Json::Object(in_order(members))),
    }
}

// The string of bytes that are UTF-8.
fn string_of(alloc: Global, bytes: &[u8]) -> Result<String, AllocError>
    requires { IsUtf8 bytes.now }
    ensures { IfOk result (λ string. string_bytes string ≡ bytes.now) }
{
    match str::from_utf8(bytes) {
        Ok(string) => Ok(String::from_str(alloc, string)?),
        Err(_) => unreachable!(),
    }
}

// The text of a decimal.
fn decimal_text(alloc: Global, number: Fixed) -> Result<String, AllocError>
    ensures { IfOk result (λ text. string_bytes text ≡ text_of (Value.Dec number)) }
{
    let text = Value::Dec(number).text(alloc)?;
    Ok(String::from_str(alloc, text.as_str())?)
}
