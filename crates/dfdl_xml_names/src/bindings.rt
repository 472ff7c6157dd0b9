// The namespaces that the prefixes of one tag are declared as.
ghost use Rattle.std.specs.Prelude.{◌≡◌, ◌++◌, ◌∷◌, ◌||◌, [], ℕ, List, Some, None, IfOk, OnOk, chars, option_map, if◌then◌else◌, string_bytes, true};
ghost use Rattle.std.specs.BTreeMap.{get_by_text};
ghost use Rattle.std.specs.Str.{bytes_eq};
ghost use Rattle.std.specs.Option.{option_or};
ghost use Rattle.std.specs.Map.{update};
ghost use Rattle.dfdl_markup.specs.Values.{found, xmlns_prefix};
ghost use Rattle.dfdl_xml_names.specs.Shown.{lent_text};
ghost use Rattle.dfdl_xml_names.specs.Kept.{HasFirst};

use crate::name::is_xmlns;
use std::alloc::{AllocError, Global};
use std::collections::BTreeMap;
use std::marker::Model;

/// A prefix, and the namespace that it stands for.
#[derive(Debug, Drop)]
pub(crate) struct Binding {
    pub(crate) prefix: String,
    pub(crate) namespace: String,
}

/// Bindings in their order, the first of each prefix in an ordered map, and whether `xmlns` may be one
/// of the prefixes, which hardly any tag declares and each of its declarations asks for.
#[derive(Debug, Drop)]
pub struct Bindings {
    items: Vec<Binding>,
    first: BTreeMap<String, String>,
    binds_xmlns: bool,
}

impl Model for Bindings {
    ghost use Rattle.std.specs.Prelude.{◌≡◌, List, false, map, None};
    ghost use Rattle.dfdl_markup.specs.Values.{Binding as Bound, found, xmlns_prefix};
    ghost use Rattle.dfdl_xml_names.specs.Kept.{binding_of, HasFirst};

    ghost Value = { List Bound };

    ghost view = { λ b. map binding_of b.items.items };

    ghost invariant = { λ b. HasFirst b.first (map binding_of b.items.items)
        × (b.binds_xmlns ≡ false → found (map binding_of b.items.items) xmlns_prefix ≡ None) };
}

impl Bindings {
    pub(crate) fn new(alloc: Global) -> Bindings
        ensures { result ≡ [] }
    {
        Bindings {
            items: Vec::new(alloc),
            first: BTreeMap::new(alloc),
            binds_xmlns: false,
        }
    }

    /// The namespace of the first binding of a prefix.
    pub fn find(&self, prefix: &str) -> Option<&str>
        ensures { lent_text result ≡ found self.now (chars prefix.now) }
    {
        if self.lacks(prefix) {
            return None;
        }
        match self.first.get(prefix) {
            Some(namespace) => Some(namespace.as_str()),
            None => None,
        }
    }

    /// The prefix is `xmlns`, which no binding has.
    fn lacks(&self, prefix: &str) -> bool
        ensures { result ≡ true → found self.now (chars prefix.now) ≡ None }
    {
        if self.binds_xmlns {
            return false;
        }
        is_xmlns(prefix)
    }

    /// The bindings with one more behind them.
    pub(crate) fn with(self, prefix: &str, namespace: &str) -> Result<Bindings, AllocError>
        ensures { IfOk result (λ more. more ≡ self
            ++ record { prefix = chars prefix.now; namespace = chars namespace.now } ∷ []) }
    {
        let Bindings {
            mut items,
            mut first,
            binds_xmlns,
        } = self;
        let alloc = *items.allocator();
        let binds_xmlns = or_xmlns(binds_xmlns, prefix);
        add_first(&mut first, alloc, prefix, namespace)?;
        items.push(Binding {
            prefix: String::from_str(alloc, prefix)?,
            namespace: String::from_str(alloc, namespace)?,
        })?;
        Ok(Bindings {
            items,
            first,
            binds_xmlns,
        })
    }
}

// This holds, or the prefix is `xmlns`.
fn or_xmlns(holds: bool, prefix: &str) -> bool
    ensures { result ≡ (holds || bytes_eq (chars prefix.now) xmlns_prefix) }
{
    holds || is_xmlns(prefix)
}

/// Adds what the prefix stands for, unless it is there.
fn add_first(
    first: &mut BTreeMap<String, String>,
    alloc: Global,
    prefix: &str,
    namespace: &str,
) -> Result<(), AllocError>
    ensures { OnOk result ((q : List ℕ) → option_map string_bytes (get_by_text first.new q)
        ≡ option_or (option_map string_bytes (get_by_text first.old q))
        (if bytes_eq prefix.now q then Some namespace.now else None)) }
{
    let text = String::from_str(alloc, namespace)?;
    match put(first, String::from_str(alloc, prefix)?, text)? {
        None => Ok(()),
        Some(before) => {
            put(first, String::from_str(alloc, prefix)?, before)?;
            Ok(())
        }
    }
}

/// Puts a namespace at a prefix, and answers the one that was there.
fn put(
    map: &mut BTreeMap<String, String>,
    prefix: String,
    namespace: String,
) -> Result<Option<String>, AllocError>
    ensures before { IfOk result (λ before. before ≡ get_by_text map.old (string_bytes prefix)) }
    ensures put { OnOk result ((q : List ℕ) → get_by_text map.new q
        ≡ update bytes_eq (get_by_text map.old) (string_bytes prefix) (Some namespace) q) }
{
    let before = map.insert(prefix, namespace)?;
    Ok(before)
}
