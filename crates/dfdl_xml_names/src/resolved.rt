// The names of attributes by the namespaces of a scope.
ghost use Rattle.std.specs.Prelude.{◌≡◌, ◌++◌, ◌∷◌, ◌&&◌, ◌||◌, [], ℕ, List, IfOk, OnOk, map, true, if◌then◌else◌, Some, None, chars};
ghost use Rattle.std.specs.List.{list_any};
ghost use Rattle.std.specs.Str.{bytes_eq};
ghost use Rattle.dfdl_markup.specs.Grammar.{Name as Named, Prefixed as Spelled};
ghost use Rattle.dfdl_markup.specs.Values.{Binding, bindings_of, names_of, found, same_expanded};
ghost use Rattle.dfdl_xml_names.specs.Shown.{name_of, text_of, attribute_of};
ghost use Rattle.dfdl_xml_names.specs.Scoped.{scope_seen};
ghost use Rattle.dfdl_xml_names.specs.Paired.{has_pair};
ghost use Rattle.dfdl_xml_names.specs.Expanded.{IsPaired, IsResolved, is_in};

use crate::name::{Attribute, Name};
use crate::pairs::Pairs;
use crate::scope::Scope;
use crate::waiting::Waiting;
use std::alloc::{AllocError, Global};

/// The namespaces and local parts of names whose prefix is found, the names whose prefix is not, and
/// whether two are one.
#[derive(Debug, Drop)]
pub(crate) struct Resolved {
    pub(crate) pairs: Pairs,
    pub(crate) waiting: Waiting,
    pub(crate) clash: bool,
}

impl Resolved {
    pub(crate) fn new(alloc: Global) -> Resolved
        ensures { (scope : List Binding) → IsResolved result scope [] }
    {
        Resolved {
            pairs: Pairs::new(alloc),
            waiting: Waiting::new(alloc),
            clash: false,
        }
    }

    /// One name more.
    pub(crate) fn add(
        &mut self,
        alloc: Global,
        scope: &Scope<'_>,
        name: &Name,
    ) -> Result<(), AllocError>
        ensures { OnOk result ((names : List Named) → IsResolved self.old (scope_seen scope.now) names
            → IsResolved self.new (scope_seen scope.now) (names ++ name_of name.now ∷ [])) }
    {
        match name {
            Name::Plain(_) => Ok(()),
            Name::Prefixed { prefix, part } => match scope.find(prefix.as_str()) {
                Some(namespace) => self.take(alloc, namespace, part.as_str()),
                None => self.wait(alloc, prefix.as_str(), part.as_str()),
            },
        }
    }

    /// One name more, of this local part and a prefix that stands for this namespace.
    fn take(&mut self, alloc: Global, namespace: &str, part: &str) -> Result<(), AllocError>
        ensures { OnOk result ((scope : List Binding) (names : List Named) (prefix : List ℕ)
            → found scope prefix ≡ Some (chars namespace.now) → IsResolved self.old scope names
            → IsResolved self.new scope (names ++ Spelled prefix (chars part.now) ∷ [])) }
    {
        self.insert(alloc, namespace, part)
    }

    /// One name more, of a prefix that is not found.
    fn wait(&mut self, alloc: Global, prefix: &str, part: &str) -> Result<(), AllocError>
        ensures { OnOk result ((scope : List Binding) (names : List Named)
            → found scope (chars prefix.now) ≡ None → IsResolved self.old scope names
            → IsResolved self.new scope (names ++ Spelled (chars prefix.now) (chars part.now) ∷ [])) }
    {
        self.waiting.add(alloc, prefix, part)
    }

    fn insert(&mut self, alloc: Global, namespace: &str, part: &str) -> Result<(), AllocError>
        ensures pairs { OnOk result ((a b : List ℕ) → has_pair self.new.pairs a b
            ≡ (if bytes_eq namespace.now a && bytes_eq part.now b then true else has_pair self.old.pairs a b)) }
        ensures waiting { self.new.waiting ≡ self.old.waiting }
        ensures clash { OnOk result (self.new.clash ≡ (self.old.clash || has_pair self.old.pairs namespace.now part.now)) }
    {
        let is_new = self.pairs.add(alloc, namespace, part)?;
        self.clash = self.clash || !is_new;
        Ok(())
    }

    /// A name is the same as this one.
    pub(crate) fn has(&self, scope: &Scope<'_>, name: &Name) -> bool
        ensures { (names : List Named) → IsPaired self.now.pairs (scope_seen scope.now) names
            → result ≡ list_any (λ other. same_expanded (scope_seen scope.now) other (name_of name.now)) names }
    {
        match name {
            Name::Plain(_) => false,
            Name::Prefixed { prefix, part } => match scope.find(prefix.as_str()) {
                Some(namespace) => self.holds(namespace, part.as_str()),
                None => false,
            },
        }
    }

    /// A name has this local part, and a prefix that stands for this namespace.
    fn holds(&self, namespace: &str, part: &str) -> bool
        ensures { (scope : List Binding) (names : List Named) → IsPaired self.now.pairs scope names
            → result ≡ list_any (is_in scope (chars namespace.now) (chars part.now)) names }
    {
        self.pairs.has(namespace, part)
    }

    /// What is kept of the names where an attribute of this name declares what the scope has beyond.
    pub(crate) fn within(
        self,
        alloc: Global,
        scope: &Scope<'_>,
        name: &Name,
    ) -> Result<Resolved, AllocError>
        ensures { IfOk result (λ resolved. (old : List Binding) (value : List ℕ) (names : List Named)
            → scope_seen scope.now ≡ old ++ bindings_of (record { name = name_of name.now; value = value } ∷ [])
            → IsResolved self old names → IsResolved resolved (scope_seen scope.now) names) }
    {
        match name.declares() {
            None => Ok(self),
            Some(prefix) => self.declare(alloc, scope, prefix),
        }
    }

    // What is kept of the names where the scope has a binding of this prefix beyond.
    fn declare(self, alloc: Global, scope: &Scope<'_>, prefix: &str) -> Result<Resolved, AllocError>
        ensures { IfOk result (λ resolved. (old : List Binding) (value : List ℕ) (names : List Named)
            → scope_seen scope.now ≡ old ++ record { prefix = chars prefix.now; namespace = value } ∷ []
            → IsResolved self old names → IsResolved resolved (scope_seen scope.now) names) }
    {
        let mut resolved = self;
        let parts = resolved.waiting.take(alloc, prefix);
        let parts = parts.as_slice();
        if are_none(parts) {
            return Ok(resolved);
        }
        match scope.find(prefix) {
            Some(namespace) => resolved.take_all(alloc, namespace, parts),
            None => Ok(resolved),
        }
    }

    // So many names more, of these local parts and a prefix that stands for this namespace.
    fn take_all(
        self,
        alloc: Global,
        namespace: &str,
        parts: &[String],
    ) -> Result<Resolved, AllocError>
        ensures { IfOk result (λ resolved. (scope : List Binding) (names : List Named) (prefix : List ℕ)
            → found scope prefix ≡ Some (chars namespace.now) → IsResolved self scope names
            → IsResolved resolved scope (names ++ map (Spelled prefix) (map text_of parts.now))) }
    {
        let mut resolved = self;
        for part in parts {
            resolved.take(alloc, namespace, part.as_str())?;
        }
        Ok(resolved)
    }

    /// The names of all attributes.
    pub(crate) fn of(
        alloc: Global,
        scope: &Scope<'_>,
        attributes: &[Attribute],
    ) -> Result<Resolved, AllocError>
        ensures { IfOk result (λ resolved. IsResolved resolved (scope_seen scope.now)
            (names_of (map attribute_of attributes.now))) }
    {
        let mut resolved = Resolved::new(alloc);
        for attribute in attributes {
            resolved.add(alloc, scope, &attribute.name)?;
        }
        Ok(resolved)
    }
}

// There is no text.
fn are_none(texts: &[String]) -> bool
    ensures { result ≡ true → texts.now ≡ [] }
{
    texts.is_empty()
}
