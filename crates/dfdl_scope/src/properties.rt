// Properties that are given together.
ghost use Rattle.std.specs.Prelude.{◌≡◌, ℕ, List, Some, None, OnOk, OnErr, false, if◌then◌else◌, is_some, ◌&&◌, ◌||◌};
ghost use Rattle.std.specs.Option.{option_or};
ghost use Rattle.std.specs.Str.{bytes_eq};
ghost use Rattle.std.specs.Map.{update};
ghost use Rattle.dfdl_scope.specs.Shown.{given, given_twice, is_in, lent_text, value_in};

use std::alloc::{AllocError, Global};
use std::collections::{BTreeMap, BTreeSet};

/// Names of properties with their values, in an ordered map, and the names that are given twice.
///
/// A name is sought in the logarithm of their number. Where they are filled with properties of the
/// table alone (`is_property`), there are never more of them than the table has rows, whatever else
/// a document says.
#[derive(Debug, Drop)]
pub struct Properties<'c> {
    pub(crate) values: BTreeMap<&'c str, &'c str>,
    pub(crate) twice: BTreeSet<&'c str>,
}

impl<'c> Properties<'c> {
    pub fn new(alloc: Global) -> Properties<'c>
        ensures none { (q : List ℕ) → given result q ≡ None }
        ensures once { (q : List ℕ) → given_twice result q ≡ false }
    {
        Properties {
            values: BTreeMap::new(alloc),
            twice: BTreeSet::new(alloc),
        }
    }

    /// The value of a property.
    pub fn get(&self, name: &str) -> Option<&'c str>
        ensures { lent_text result ≡ given self.now name.now }
    {
        self.values.get(name).copied()
    }

    /// Whether a property is given twice.
    pub fn is_twice(&self, name: &str) -> bool
        ensures { result ≡ given_twice self.now name.now }
    {
        self.twice.contains(name)
    }

    /// Adds a property. Where one of its name is there, that one stays, and is given twice.
    pub fn add(&mut self, name: &'c str, value: &'c str) -> Result<(), AllocError>
        ensures added { OnOk result ((q : List ℕ) → given self.new q
            ≡ option_or (given self.old q) (if bytes_eq name.now q then Some value.now else None)) }
        ensures twice { OnOk result ((q : List ℕ) → given_twice self.new q
            ≡ given_twice self.old q || (bytes_eq name.now q && is_some (given self.old q))) }
        ensures err { OnErr result ((q : List ℕ) → given self.new q ≡ given self.old q) }
        ensures err_twice { OnErr result ((q : List ℕ) → given_twice self.new q ≡ given_twice self.old q) }
    {
        if self.values.contains_key(name) {
            return mark(&mut self.twice, name);
        }
        put(&mut self.values, name, value)
    }

    /// Adds a property, unless one of its name is there.
    pub(crate) fn add_absent(&mut self, name: &'c str, value: &'c str) -> Result<(), AllocError>
        ensures { OnOk result ((q : List ℕ) → given self.new q
            ≡ option_or (given self.old q) (if bytes_eq name.now q then Some value.now else None)) }
    {
        if self.values.contains_key(name) {
            return Ok(());
        }
        put(&mut self.values, name, value)
    }

    /// Adds those of other properties whose names are not there.
    pub(crate) fn add_all_absent(&mut self, others: &Properties<'c>) -> Result<(), AllocError>
        ensures { OnOk result ((q : List ℕ) → given self.new q ≡ option_or (given self.old q) (given others.now q)) }
    {
        for (name, value) in others.values.iter() {
            self.add_absent(*name, *value)?;
        }
        Ok(())
    }
}

/// Puts a value at a name.
fn put<'c>(
    values: &mut BTreeMap<&'c str, &'c str>,
    name: &'c str,
    value: &'c str,
) -> Result<(), AllocError>
    ensures ok { OnOk result ((q : List ℕ) → value_in values.new q
        ≡ update bytes_eq (value_in values.old) name.now (Some value.now) q) }
    ensures err { OnErr result ((q : List ℕ) → value_in values.new q ≡ value_in values.old q) }
{
    values.insert(name, value)?;
    Ok(())
}

/// Puts a name into a set.
fn mark<'c>(names: &mut BTreeSet<&'c str>, name: &'c str) -> Result<(), AllocError>
    ensures ok { OnOk result ((q : List ℕ) → is_in names.new q ≡ is_in names.old q || bytes_eq name.now q) }
    ensures err { OnErr result ((q : List ℕ) → is_in names.new q ≡ is_in names.old q) }
{
    names.insert(name)?;
    Ok(())
}
