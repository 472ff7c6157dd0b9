// The rules that the documents of a schema keep.
ghost use Rattle.std.specs.Prelude.{◌≡◌, ◌<◌, ◌≤◌, ◌+◌, ◌==◌, length, Some, None, MatchOption, option_copied};
ghost use Rattle.dfdl_components.specs.Sites.{IsSite, is_same, nodes_of, role_of};
ghost use Rattle.dfdl_components.specs.Globals.{is_global_twice, is_other};
ghost use Rattle.dfdl_constructs.specs.OutsideSubset.{is_outside_subset};
ghost use Rattle.dfdl_constructs.specs.ValuesAllowed.{is_value_not_allowed};
ghost use Rattle.dfdl_constructs.specs.UnknownAnnotations.{is_unknown_annotation};
ghost use Rattle.dfdl_components.specs.Rules.{first_at, loading_rules, IsFirst, AllKeep};
ghost use Rattle.dfdl_components.specs.Shown.{IsBreachIn, AllKeepIn};
ghost use Rattle.dfdl_components.specs.Recursion.{number_of, start_of};
ghost use Rattle.dfdl_components.specs.Counting.{IsRecursionOf};

use crate::names::kind_of;
use crate::recursion::Recursion;
use crate::schema::Schema;
use crate::site::Site;
use dfdl_constructs::{is_outside_subset, is_unknown_annotation, is_value_not_allowed, plain};
use dfdl_report::SchemaCause;

/// A rule that an element breaks.
#[derive(Debug, Clone, Copy, PartialEq, Eq)]
pub struct Breach {
    pub cause: SchemaCause,
    pub site: Site,
}

// There is such an element, and it is another.
fn is_other(own: Site, other: Option<Site>) -> bool
    ensures { result ≡ is_other own other }
{
    match other {
        Some(other) => own.document != other.document || own.element != other.element,
        None => false,
    }
}

impl Schema {
    /// Whether an element is a global component whose kind and name an earlier one has.
    pub fn is_global_twice(&self, site: Site) -> bool
        requires { IsSite self.now site }
        ensures { result ≡ is_global_twice self.now site }
    {
        let Some(kind) = kind_of(self.role(site)) else {
            return false;
        };
        let Some(name) = plain(self.tree(site.document), site.element, "name") else {
            return false;
        };
        is_other(site, self.global(kind, self.namespace(site.document), name))
    }

    // A construct is outside of the subset, or lacks what it needs.
    fn is_outside_subset(&self, site: Site) -> bool
        requires { IsSite self.now site }
        ensures { result ≡ is_outside_subset (nodes_of self.now site.document) site.element }
    {
        let roles = &self.index(site.document).roles;
        is_outside_subset(self.tree(site.document), roles, site.element)
    }

    // An attribute has a value that it can't have.
    fn is_value_not_allowed(&self, site: Site) -> bool
        requires { IsSite self.now site }
        ensures { result ≡ is_value_not_allowed (nodes_of self.now site.document) site.element }
    {
        let roles = &self.index(site.document).roles;
        is_value_not_allowed(self.tree(site.document), roles, site.element)
    }

    // An annotation isn't known where it stands.
    fn is_unknown_annotation(&self, site: Site) -> bool
        requires { IsSite self.now site }
        ensures { result ≡ is_unknown_annotation (nodes_of self.now site.document) site.element }
    {
        let roles = &self.index(site.document).roles;
        is_unknown_annotation(self.tree(site.document), roles, site.element)
    }

    // The first of the rules that an element breaks.
    #[tactic(auto, unfolding(crate::specs::Rules::loading_rules))]
    fn broken(&self, recursion: &Recursion, site: Site) -> Option<SchemaCause>
        requires site { IsSite self.now site }
        requires recursion { IsRecursionOf self.now recursion.now }
        requires reached { number_of self.now site ≤ recursion.now.first }
        ensures rule { result ≡ first_at (loading_rules self.now) site }
        ensures passed { result ≡ None → number_of self.now site < recursion.now.first }
    {
        if self.is_name_not_found(site) {
            return Some(SchemaCause::NameNotFound);
        }
        if self.is_global_twice(site) {
            return Some(SchemaCause::GlobalTwice);
        }
        if self.is_outside_subset(site) {
            return Some(SchemaCause::OutsideSubset);
        }
        if self.is_value_not_allowed(site) {
            return Some(SchemaCause::ValueNotAllowed);
        }
        if recursion.is_at(self, site) {
            return Some(SchemaCause::Recursive);
        }
        if self.is_unknown_annotation(site) {
            return Some(SchemaCause::UnknownAnnotation);
        }
        None
    }

    // The first element of a document that breaks a rule.
    fn breach_in(&self, recursion: &Recursion, document: u32) -> Option<Breach>
        requires document { document < length self.now }
        requires recursion { IsRecursionOf self.now recursion.now }
        requires reached { start_of self.now document ≤ recursion.now.first }
        ensures breach { MatchOption result (AllKeepIn (loading_rules self.now) self.now document)
            (IsBreachIn (loading_rules self.now) self.now document) }
        ensures passed { result ≡ None → start_of self.now (document + 1) ≤ recursion.now.first }
    {
        for element in 0..self.tree(document).count() {
            let site = Site { document, element };
            if let Some(cause) = self.broken(recursion, site) {
                return Some(Breach { cause, site });
            }
        }
        None
    }

    /// The first element that breaks a rule, with the first rule that it breaks.
    pub(crate) fn breach(&self, recursion: &Recursion) -> Option<Breach>
        requires { IsRecursionOf self.now recursion.now }
        ensures { MatchOption result (AllKeep (loading_rules self.now) self.now)
            (λ breach. IsFirst (loading_rules self.now) self.now breach.site breach.cause) }
    {
        for document in 0..self.count() {
            if let Some(breach) = self.breach_in(recursion, document) {
                return Some(breach);
            }
        }
        None
    }
}
