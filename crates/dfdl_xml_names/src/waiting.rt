// Names whose prefix is not found, by their prefix.
ghost use Rattle.std.specs.Prelude.{◌≡◌, ◌++◌, ◌∷◌, [], ℕ, List, OnOk, chars, map, if◌then◌else◌, string_bytes, Some, None};
ghost use Rattle.std.specs.BTreeMap.{get_by_text};
ghost use Rattle.std.specs.Map.{update};
ghost use Rattle.std.specs.Str.{bytes_eq};
ghost use Rattle.dfdl_xml_names.specs.Shown.{text_of};
ghost use Rattle.dfdl_xml_names.specs.Waiting.{parts_at, parts_in};

use crate::name::is_xmlns;
use std::alloc::{AllocError, Global};
use std::collections::BTreeMap;
use std::mem;

/// The local parts of the names with the prefix `xmlns`, and for each other prefix those of its names,
/// in their order.
#[derive(Debug, Drop)]
pub(crate) struct Waiting {
    pub(crate) declarations: Vec<String>,
    pub(crate) others: BTreeMap<String, Vec<String>>,
}

impl Waiting {
    pub(crate) fn new(alloc: Global) -> Waiting
        ensures { (q : List ℕ) → parts_at result q ≡ [] }
    {
        Waiting {
            declarations: Vec::new(alloc),
            others: no_parts(alloc),
        }
    }

    /// One name more.
    pub(crate) fn add(&mut self, alloc: Global, prefix: &str, part: &str) -> Result<(), AllocError>
        ensures { OnOk result ((q : List ℕ) → parts_at self.new q
            ≡ (if bytes_eq prefix.now q then parts_at self.old q ++ chars part.now ∷ [] else parts_at self.old q)) }
    {
        if is_xmlns(prefix) {
            return push_text(&mut self.declarations, alloc, part);
        }
        add_part(&mut self.others, alloc, prefix, part)
    }

    /// Takes out the names of a prefix.
    pub(crate) fn take(&mut self, alloc: Global, prefix: &str) -> Vec<String>
        ensures parts { map text_of result.items ≡ parts_at self.old prefix.now }
        ensures others { (q : List ℕ) → parts_at self.new q ≡ (if bytes_eq prefix.now q then [] else parts_at self.old q) }
    {
        if is_xmlns(prefix) {
            return mem::replace(&mut self.declarations, Vec::new(alloc));
        }
        take_parts(&mut self.others, alloc, prefix)
    }
}

// Puts a text behind the others.
fn push_text(texts: &mut Vec<String>, alloc: Global, text: &str) -> Result<(), AllocError>
    ensures { OnOk result (map text_of texts.new.items ≡ map text_of texts.old.items ++ chars text.now ∷ []) }
{
    texts.push(String::from_str(alloc, text)?)?;
    Ok(())
}

// Puts a part behind the others of its prefix.
fn add_part(
    others: &mut BTreeMap<String, Vec<String>>,
    alloc: Global,
    prefix: &str,
    part: &str,
) -> Result<(), AllocError>
    ensures { OnOk result ((q : List ℕ) → parts_in (get_by_text others.new q)
        ≡ (if bytes_eq prefix.now q then parts_in (get_by_text others.old q) ++ chars part.now ∷ [] else parts_in (get_by_text others.old q))) }
{
    let mut parts = take_parts(others, alloc, prefix);
    push_text(&mut parts, alloc, part)?;
    put_parts(others, String::from_str(alloc, prefix)?, parts)
}

fn no_parts(alloc: Global) -> BTreeMap<String, Vec<String>>
    ensures { (q : List ℕ) → get_by_text result q ≡ None }
{
    BTreeMap::new(alloc)
}

// Takes out the parts of a prefix.
fn take_parts(
    others: &mut BTreeMap<String, Vec<String>>,
    alloc: Global,
    prefix: &str,
) -> Vec<String>
    ensures parts { map text_of result.items ≡ parts_in (get_by_text others.old prefix.now) }
    ensures others { (q : List ℕ) → parts_in (get_by_text others.new q)
        ≡ (if bytes_eq prefix.now q then [] else parts_in (get_by_text others.old q)) }
{
    match others.remove(prefix) {
        Some(parts) => parts,
        None => Vec::new(alloc),
    }
}

fn put_parts(
    others: &mut BTreeMap<String, Vec<String>>,
    prefix: String,
    parts: Vec<String>,
) -> Result<(), AllocError>
    ensures { OnOk result ((q : List ℕ) → get_by_text others.new q
        ≡ update bytes_eq (get_by_text others.old) (string_bytes prefix) (Some parts) q) }
{
    others.insert(prefix, parts)?;
    Ok(())
}
