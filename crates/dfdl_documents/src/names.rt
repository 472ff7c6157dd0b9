// Names in the order in which they are first named.
ghost use Rattle.std.specs.Prelude.{◌≡◌, ◌++◌, ◌∷◌, [], ℕ, List, IfOk, OnOk, map, true, if◌then◌else◌, string_bytes, option_copied};
ghost use Rattle.std.specs.BTreeSet.{contains_text};
ghost use Rattle.std.specs.List.{slice_get};
ghost use Rattle.std.specs.Str.{bytes_eq};
ghost use Rattle.dfdl_documents.specs.Loading.{is_among};
ghost use Rattle.dfdl_documents.specs.Names.{with_name};

use std::alloc::{AllocError, Global};
use std::collections::BTreeSet;
use std::marker::Model;

/// Names, each once, in their order and in an ordered set.
#[derive(Drop)]
pub struct Names {
    items: Vec<String>,
    known: BTreeSet<String>,
}

impl Model for Names {
    ghost use Rattle.std.specs.Prelude.{◌≡◌, ℕ, List, map, string_bytes};
    ghost use Rattle.std.specs.BTreeSet.{contains_text};
    ghost use Rattle.dfdl_documents.specs.Loading.{is_among};

    ghost Value = { List (List ℕ) };

    ghost view = { λ n. map (λ name. string_bytes name) n.items.items };

    ghost invariant = { λ n. (q : List ℕ)
        → contains_text n.known q ≡ is_among (map (λ name. string_bytes name) n.items.items) q };
}

impl Names {
    /// No name.
    pub fn new(alloc: Global) -> Names
        ensures { result ≡ [] }
    {
        Names {
            items: Vec::new(alloc),
            known: BTreeSet::new(alloc),
        }
    }

    /// All of them.
    pub fn as_slice(&self) -> &[String]
        ensures { map (λ name. string_bytes name) result.now ≡ self.now }
    {
        self.items.as_slice()
    }

    /// The name of a number, from 0.
    pub fn get(&self, number: usize) -> Option<&str>
        ensures { option_copied result ≡ slice_get self.now number }
    {
        match self.items.get(number) {
            Some(name) => Some(name.as_str()),
            None => None,
        }
    }

    /// Whether a name is one of these.
    fn has(&self, name: &str) -> bool
        ensures { result ≡ is_among self.now name.now }
    {
        self.known.contains(name)
    }

    /// The names with one more behind them that is not yet one.
    fn more(self, name: &str) -> Result<Names, AllocError>
        ensures { IfOk result (λ more. more ≡ self ++ name.now ∷ []) }
    {
        let Names {
            mut items,
            mut known,
        } = self;
        let alloc = *items.allocator();
        add(&mut known, String::from_str(alloc, name)?)?;
        items.push(String::from_str(alloc, name)?)?;
        Ok(Names { items, known })
    }

    /// The names with one more, unless it is one of them.
    pub fn with(self, name: &str) -> Result<Names, AllocError>
        ensures { IfOk result (λ more. more ≡ with_name self name.now) }
    {
        if self.has(name) {
            Ok(self)
        } else {
            self.more(name)
        }
    }
}

// Adds a name.
fn add(names: &mut BTreeSet<String>, name: String) -> Result<(), AllocError>
    ensures { OnOk result ((q : List ℕ) → contains_text names.new q
        ≡ (if bytes_eq (string_bytes name) q then true else contains_text names.old q)) }
{
    names.insert(name)?;
    Ok(())
}
