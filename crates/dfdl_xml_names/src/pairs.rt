// Pairs of texts in ordered sets.
ghost use Rattle.std.specs.Prelude.{◌≡◌, ◌&&◌, ℕ, List, IfOk, OnOk, if◌then◌else◌, true, false, not, string_bytes, Some};
ghost use Rattle.std.specs.BTreeMap.{get_by_text};
ghost use Rattle.std.specs.BTreeSet.{contains_text};
ghost use Rattle.std.specs.Map.{update};
ghost use Rattle.std.specs.Str.{bytes_eq};
ghost use Rattle.dfdl_xml_names.specs.Paired.{has_pair, has_second};

use std::alloc::{AllocError, Global};
use std::collections::{BTreeMap, BTreeSet};

/// The second texts of a first one, which mostly is one.
#[derive(Debug, Drop)]
pub(crate) enum Seconds {
    One(String),
    Many(BTreeSet<String>),
}

/// For each first text of a pair the second ones.
#[derive(Debug, Drop)]
pub(crate) struct Pairs {
    seconds: BTreeMap<String, Seconds>,
}

impl Seconds {
    fn has(&self, second: &str) -> bool
        ensures { result ≡ has_second self.now second.now }
    {
        match self {
            Seconds::One(text) => text.as_str() == second,
            Seconds::Many(set) => set.contains(second),
        }
    }

    fn into_set(self, alloc: Global) -> Result<BTreeSet<String>, AllocError>
        ensures { IfOk result (λ set. (b : List ℕ) → contains_text set b ≡ has_second self b) }
    {
        match self {
            Seconds::One(text) => set_of(alloc, text),
            Seconds::Many(set) => Ok(set),
        }
    }
}

impl Pairs {
    pub(crate) fn new(alloc: Global) -> Pairs
        ensures { (a b : List ℕ) → has_pair result a b ≡ false }
    {
        Pairs {
            seconds: BTreeMap::new(alloc),
        }
    }

    pub(crate) fn has(&self, first: &str, second: &str) -> bool
        ensures { result ≡ has_pair self.now first.now second.now }
    {
        match self.seconds.get(first) {
            Some(seconds) => seconds.has(second),
            None => false,
        }
    }

    /// No pair has this first text.
    pub(crate) fn lacks(&self, first: &str) -> bool
        ensures { result ≡ true → (b : List ℕ) → has_pair self.now first.now b ≡ false }
    {
        match self.seconds.get(first) {
            Some(_) => false,
            None => true,
        }
    }

    /// Adds a pair, and answers whether it is new.
    pub(crate) fn add(
        &mut self,
        alloc: Global,
        first: &str,
        second: &str,
    ) -> Result<bool, AllocError>
        ensures new { IfOk result (λ is_new. is_new ≡ not (has_pair self.old first.now second.now)) }
        ensures pairs { OnOk result ((a b : List ℕ) → has_pair self.new a b
            ≡ (if bytes_eq first.now a && bytes_eq second.now b then true else has_pair self.old a b)) }
    {
        let one = Seconds::One(String::from_str(alloc, second)?);
        match put(&mut self.seconds, String::from_str(alloc, first)?, one)? {
            None => Ok(true),
            Some(before) => self.put_back(alloc, first, before, second),
        }
    }

    // Puts the second texts of a first one back with one more, and answers whether that is new.
    fn put_back(
        &mut self,
        alloc: Global,
        first: &str,
        before: Seconds,
        second: &str,
    ) -> Result<bool, AllocError>
        ensures new { IfOk result (λ is_new. is_new ≡ not (has_second before second.now)) }
        ensures pairs { OnOk result ((a b : List ℕ) → has_pair self.new a b
            ≡ (if bytes_eq first.now a then (if bytes_eq second.now b then true else has_second before b) else has_pair self.old a b)) }
    {
        let mut set = before.into_set(alloc)?;
        let is_new = add_text(&mut set, String::from_str(alloc, second)?)?;
        put(
            &mut self.seconds,
            String::from_str(alloc, first)?,
            Seconds::Many(set),
        )?;
        Ok(is_new)
    }
}

// Puts second texts at a first one, and answers those that were there.
fn put(
    map: &mut BTreeMap<String, Seconds>,
    first: String,
    seconds: Seconds,
) -> Result<Option<Seconds>, AllocError>
    ensures before { IfOk result (λ before. before ≡ get_by_text map.old (string_bytes first)) }
    ensures put { OnOk result ((a : List ℕ) → get_by_text map.new a
        ≡ update bytes_eq (get_by_text map.old) (string_bytes first) (Some seconds) a) }
{
    let before = map.insert(first, seconds)?;
    Ok(before)
}

// The set of one text.
fn set_of(alloc: Global, text: String) -> Result<BTreeSet<String>, AllocError>
    ensures { IfOk result (λ set. (b : List ℕ) → contains_text set b ≡ bytes_eq (string_bytes text) b) }
{
    let mut set = BTreeSet::new(alloc);
    add_text(&mut set, text)?;
    Ok(set)
}

/// Adds a text, and answers whether it is new.
pub(crate) fn add_text(texts: &mut BTreeSet<String>, text: String) -> Result<bool, AllocError>
    ensures new { IfOk result (λ is_new. is_new ≡ not (contains_text texts.old (string_bytes text))) }
    ensures others { OnOk result ((b : List ℕ) → contains_text texts.new b
        ≡ (if bytes_eq (string_bytes text) b then true else contains_text texts.old b)) }
{
    let is_new = texts.insert(text)?;
    Ok(is_new)
}
