// What is kept of the names of many attributes.
ghost use Rattle.std.specs.Prelude.{◌≡◌, ◌++◌, ◌∷◌, ◌||◌, [], ℕ, List, IfOk, chars, map, false, true, None};
ghost use Rattle.std.specs.BTreeMap.{get_by_text};
ghost use Rattle.std.specs.List.{list_any};
ghost use Rattle.std.specs.Str.{IsUtf8};
ghost use Rattle.dfdl_markup.specs.Grammar.{Name as Named, Prefixed as Spelled};
ghost use Rattle.dfdl_markup.specs.Values.{Attribute as Attributed, Binding, bindings_of, have_same, names_of, same_expanded, same_name, xmlns_prefix};
ghost use Rattle.dfdl_xml_names.specs.Shown.{attribute_of, name_of};
ghost use Rattle.dfdl_xml_names.specs.Scoped.{scope_seen};
ghost use Rattle.dfdl_xml_names.specs.Expanded.{IsPaired};
ghost use Rattle.dfdl_xml_names.specs.Indexed.{IsIndexOf};

use crate::name::{Attribute, Name};
use crate::names::Written;
use crate::resolved::Resolved;
use crate::scope::Scope;
use std::alloc::{AllocError, Global};

/// The names of attributes as they are written, and what they are by the namespaces of a scope.
#[derive(Debug, Drop)]
pub(crate) struct Index {
    pub(crate) written: Written,
    pub(crate) resolved: Resolved,
}

impl Index {
    /// What is kept of these attributes.
    pub(crate) fn of(
        alloc: Global,
        scope: &Scope<'_>,
        attributes: &[Attribute],
    ) -> Result<Index, AllocError>
        ensures { IfOk result (λ index. IsIndexOf index (scope_seen scope.now) (map attribute_of attributes.now)) }
    {
        Ok(Index {
            written: Written::of(alloc, attributes)?,
            resolved: Resolved::of(alloc, scope, attributes)?,
        })
    }

    /// What is kept with one attribute more, of this name, where it declares what the scope has
    /// beyond.
    pub(crate) fn more(
        self,
        alloc: Global,
        scope: &Scope<'_>,
        name: &Name,
    ) -> Result<Index, AllocError>
        ensures { IfOk result (λ index. (old : List Binding) (value : List ℕ) (attributes : List Attributed)
            → scope_seen scope.now ≡ old ++ bindings_of (record { name = name_of name.now; value = value } ∷ [])
            → IsIndexOf self old attributes
            → IsIndexOf index (scope_seen scope.now) (attributes ++ record { name = name_of name.now; value = value } ∷ [])) }
    {
        let Index {
            mut written,
            resolved,
        } = self;
        let mut resolved = resolved.within(alloc, scope, name)?;
        resolved.add(alloc, scope, name)?;
        written.add(name)?;
        Ok(Index { written, resolved })
    }

    /// An attribute has this name, or one that is the same by the namespaces of the scope.
    pub(crate) fn is_given(&self, scope: &Scope<'_>, name: &Name) -> Result<bool, AllocError>
        ensures { IfOk result (λ given. (attributes : List Attributed)
            → IsIndexOf self.now (scope_seen scope.now) attributes
            → given ≡ (list_any (λ other. same_name other (name_of name.now)) (names_of attributes)
            || list_any (λ other. same_expanded (scope_seen scope.now) other (name_of name.now)) (names_of attributes))) }
    {
        let text = name.text()?;
        if self.written.has(text.as_str()) {
            return Ok(true);
        }
        Ok(self.resolved.has(scope, name))
    }

    /// Two of the attributes' names, which these are by their own scope, are the same by a scope that
    /// has more bindings behind.
    pub(crate) fn clashes_within(
        &self,
        alloc: Global,
        own: &Scope<'_>,
        scope: &Scope<'_>,
        attributes: &[Attribute],
    ) -> Result<bool, AllocError>
        ensures { IfOk result (λ clash. (outer : List Binding) → scope_seen scope.now ≡ scope_seen own.now ++ outer
            → IsIndexOf self.now (scope_seen own.now) (map attribute_of attributes.now)
            → clash ≡ have_same (same_expanded (scope_seen scope.now)) (names_of (map attribute_of attributes.now))) }
    {
        if self.is_settled(scope) {
            return Ok(self.resolved.clash);
        }
        self.resolved.clashes_within(alloc, own, scope, attributes)
    }

    // No two names are written alike, those whose prefix is not found declare prefixes, and the others
    // are none of these by the scope.
    fn is_settled(&self, scope: &Scope<'_>) -> bool
        ensures written { result ≡ true → self.now.written.repeated ≡ false }
        ensures open { result ≡ true → (q : List ℕ) → get_by_text self.now.resolved.waiting.others q ≡ None }
        ensures apart { result ≡ true → (names : List Named) → IsPaired self.now.resolved.pairs (scope_seen scope.now) names
            → (b : List ℕ) → IsUtf8 b
            → list_any (λ other. same_expanded (scope_seen scope.now) other (Spelled xmlns_prefix (chars b))) names ≡ false }
    {
        if self.written.repeated {
            return false;
        }
        if !self.resolved.leaves_declarations() {
            return false;
        }
        self.resolved.stands_apart(scope)
    }
}
