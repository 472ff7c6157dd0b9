// The names whose prefix is found beyond a tag alone.
ghost use Rattle.std.specs.Prelude.{◌≡◌, ◌++◌, ◌∷◌, [], ℕ, List, IfOk, OnOk, chars, map, if◌then◌else◌, false, true, None};
ghost use Rattle.std.specs.BTreeMap.{get_by_text};
ghost use Rattle.std.specs.List.{list_all, list_any};
ghost use Rattle.std.specs.Str.{IsUtf8};
ghost use Rattle.dfdl_markup.specs.Grammar.{Name as Named, Prefixed as Spelled};
ghost use Rattle.dfdl_markup.specs.Values.{Binding, have_same, is_found, names_of, same_expanded, xmlns_prefix};
ghost use Rattle.dfdl_xml_names.specs.Shown.{name_of, attribute_of};
ghost use Rattle.dfdl_xml_names.specs.Scoped.{scope_seen};
ghost use Rattle.dfdl_xml_names.specs.Expanded.{IsPaired, IsResolved, is_in};

use crate::name::{Attribute, Name, xmlns};
use crate::resolved::Resolved;
use crate::scope::Scope;
use std::alloc::{AllocError, Global};

impl Resolved {
    /// Two of the attributes' names, which these are by their own scope, are the same by a scope that
    /// has more bindings behind.
    pub(crate) fn clashes_within(
        &self,
        alloc: Global,
        own: &Scope<'_>,
        scope: &Scope<'_>,
        attributes: &[Attribute],
    ) -> Result<bool, AllocError>
        ensures { IfOk result (λ clash. (outer : List Binding) → scope_seen scope.now ≡ scope_seen own.now ++ outer
            → IsResolved self.now (scope_seen own.now) (names_of (map attribute_of attributes.now))
            → clash ≡ have_same (same_expanded (scope_seen scope.now)) (names_of (map attribute_of attributes.now))) }
    {
        if self.clash {
            return Ok(true);
        }
        let mut more = Resolved::new(alloc);
        for attribute in attributes {
            if self.meets(alloc, &mut more, own, scope, &attribute.name)? {
                return Ok(true);
            }
        }
        Ok(more.clash)
    }

    // One name more of those that the own scope does not find, if it does not: and whether it is the
    // same as one that is found.
    fn meets(
        &self,
        alloc: Global,
        more: &mut Resolved,
        own: &Scope<'_>,
        scope: &Scope<'_>,
        name: &Name,
    ) -> Result<bool, AllocError>
        ensures met { IfOk result (λ met. (names : List Named) → IsPaired self.now.pairs (scope_seen scope.now) names
            → met ≡ list_any (λ u. list_any (λ other. same_expanded (scope_seen scope.now) other u) names)
            (if is_found (scope_seen own.now) (name_of name.now) then [] else name_of name.now ∷ [])) }
        ensures more { OnOk result ((names : List Named) → IsResolved more.old (scope_seen scope.now) names
            → IsResolved more.new (scope_seen scope.now)
            (names ++ (if is_found (scope_seen own.now) (name_of name.now) then [] else name_of name.now ∷ []))) }
    {
        if own.is_found(name) {
            return Ok(false);
        }
        more.add(alloc, scope, name)?;
        Ok(self.has(scope, name))
    }

    /// The names whose prefix is not found declare prefixes.
    pub(crate) fn leaves_declarations(&self) -> bool
        ensures { result ≡ true → (q : List ℕ) → get_by_text self.now.waiting.others q ≡ None }
    {
        self.waiting.others.is_empty()
    }

    /// No name is the same as that of a declaration of a prefix.
    pub(crate) fn stands_apart(&self, scope: &Scope<'_>) -> bool
        ensures { result ≡ true → (names : List Named) → IsPaired self.now.pairs (scope_seen scope.now) names
            → (b : List ℕ) → IsUtf8 b
            → list_any (λ other. same_expanded (scope_seen scope.now) other (Spelled xmlns_prefix (chars b))) names ≡ false }
    {
        match scope.find(xmlns()) {
            Some(namespace) => self.has_none_in(namespace),
            None => true,
        }
    }

    // No name has a prefix that stands for this namespace.
    fn has_none_in(&self, namespace: &str) -> bool
        ensures { result ≡ true → (scope : List Binding) (names : List Named) → IsPaired self.now.pairs scope names
            → (b : List ℕ) → IsUtf8 b → list_any (is_in scope (chars namespace.now) (chars b)) names ≡ false }
    {
        self.pairs.lacks(namespace)
    }

    /// The prefixes of the names of these attributes, which these are by their own scope, are found by
    /// a scope that has more bindings behind.
    pub(crate) fn are_found(&self, scope: &Scope<'_>, attributes: &[Attribute]) -> bool
        ensures { (own outer : List Binding) → scope_seen scope.now ≡ own ++ outer
            → IsResolved self.now own (names_of (map attribute_of attributes.now))
            → result ≡ list_all (λ a. is_found (scope_seen scope.now) (name_of a.name)) attributes.now }
    {
        if self.leaves_declarations() {
            if scope.finds_declarations() {
                return true;
            }
        }
        scope.are_found(attributes)
    }
}
