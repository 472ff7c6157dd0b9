// The groups that sequences hide.
ghost use Rattle.std.specs.Prelude.{◌≡◌, All, map};
ghost use Rattle.dfdl_checks.specs.JudgedShown.{facts_judged_of, test_judged_of};
ghost use Rattle.dfdl_chains.specs.Chains.{chain_sites};
ghost use Rattle.dfdl_chains.specs.Facts as stated;
ghost use Rattle.dfdl_chains.specs.Kinds as kinds;
ghost use Rattle.dfdl_checks.specs.Subjects.{is_sequence};
ghost use Rattle.dfdl_components.specs.Sites.{IsSite};
ghost use Rattle.dfdl_scope.specs.Shown.{chain_of, lent_text};
ghost use Rattle.dfdl_scope.specs.Told.{told_by};
ghost use Rattle.dfdl_breaches.specs.Hidden as spec;
ghost use Rattle.dfdl_breaches.specs.Roots as roots;

use dfdl_chains::group_named;
use dfdl_checks::{Facts, Kind, Purpose, StatedTest};
use dfdl_components::{Schema, Site};
use dfdl_references::writer;
use dfdl_scope::{Asked, Component, is_expression, literal, property};

/// What the property hiddenGroupRef of a component names ('Sequence Groups').
#[derive(Debug, Clone, Copy, PartialEq, Eq)]
pub enum Hiding {
    /// No name is told, or it has no effect.
    NoGroup,
    /// Nothing.
    Unknown,
    /// A group; this is its sequence or choice.
    Group(Site),
}

// The name of a group that is told, by no expression.
fn name_told<'c>(told: Asked<'c>) -> Option<&'c str>
    ensures { lent_text result ≡ spec.name_told (told_by told.entry) }
{
    match told {
        Asked::Given(written) => {
            if is_expression(written) {
                None
            } else {
                Some(literal(written))
            }
        }
        Asked::Absent => None,
        Asked::Twice { .. } => None,
    }
}

// Whether it is a sequence.
fn is_sequence(kind: Kind) -> bool
    ensures { result ≡ is_sequence kind }
{
    match kind {
        Kind::Sequence => true,
        _ => false,
    }
}

// The name of the group that a component of this kind with this chain hides.
fn hidden_name<'c>(kind: Kind, is_empty: bool, chain: &Component<'_, 'c>) -> Option<&'c str>
    ensures { lent_text result ≡ spec.hidden_name kind is_empty (chain_of chain.now) }
{
    if is_sequence(kind) && is_empty {
        name_told(property(chain, "hiddenGroupRef"))
    } else {
        None
    }
}

// The sequence or choice of the group of a name that a chain of these elements writes.
fn group_told(schema: &Schema, sites: &[Site], text: &str) -> Option<Site>
    requires { All (IsSite schema.now) sites.now }
    ensures { result ≡ spec.group_told schema.now sites.now text.now }
{
    match writer(schema, sites, "hiddenGroupRef") {
        Some(writer) => group_named(schema, writer, text),
        None => None,
    }
}

// A group of this sequence or choice, or of nothing's name.
fn hiding_by(content: Option<Site>) -> Hiding
    ensures { result ≡ spec.hiding_by content }
{
    match content {
        Some(content) => Hiding::Group(content),
        None => Hiding::Unknown,
    }
}

// The group of a name that may be lacking.
fn hiding_named(schema: &Schema, sites: &[Site], text: Option<&str>) -> Hiding
    requires { All (IsSite schema.now) sites.now }
    ensures { result ≡ spec.hiding_named schema.now sites.now (lent_text text.entry) }
{
    match text {
        Some(text) => hiding_by(group_told(schema, sites, text)),
        None => Hiding::NoGroup,
    }
}

// A group that a component hides is built for parsing.
fn hiding_for(purpose: Purpose, hiding: Hiding) -> Hiding
    ensures { result ≡ spec.hiding_for purpose hiding }
{
    match purpose {
        Purpose::Parsing => hiding,
        Purpose::Unparsing => Hiding::NoGroup,
    }
}

/// The group that a component of this kind with this chain hides.
#[tactic(auto, unfolding(crate::specs::Hidden::hiding_at))]
pub(crate) fn hiding_at(
    schema: &Schema,
    purpose: Purpose,
    kind: Kind,
    facts: Facts<'_>,
    site: Site,
    sites: &[Site],
    chain: &Component<'_, '_>,
) -> Hiding
    requires kind { kind ≡ kinds.kind_at schema.now site }
    requires facts { facts_judged_of facts ≡ stated.facts_at schema.now site }
    requires sites { sites.now ≡ chain_sites schema.now site }
    requires within { All (IsSite schema.now) sites.now }
    requires chain { chain_of chain.now ≡ roots.chain_at schema.now site }
    ensures { result ≡ spec.hiding_at purpose schema.now site }
{
    let _ = site;
    let name = hidden_name(kind, facts.is_empty, chain);
    hiding_for(purpose, hiding_named(schema, sites, name))
}

/// Whether a group's name is told.
pub(crate) fn hides(hiding: Hiding) -> bool
    ensures { result ≡ spec.hides hiding }
{
    match hiding {
        Hiding::NoGroup => false,
        Hiding::Unknown => true,
        Hiding::Group(_) => true,
    }
}

/// Whether a name is told that names nothing.
pub(crate) fn is_unknown(hiding: Hiding) -> bool
    ensures { result ≡ spec.is_unknown hiding }
{
    match hiding {
        Hiding::NoGroup => false,
        Hiding::Unknown => true,
        Hiding::Group(_) => false,
    }
}

/// The sequence or choice of the group.
pub(crate) fn content_hidden(hiding: Hiding) -> Option<Site>
    ensures { result ≡ spec.content_hidden hiding }
{
    match hiding {
        Hiding::NoGroup => None,
        Hiding::Unknown => None,
        Hiding::Group(content) => Some(content),
    }
}

// The kind of a component that hides a group: it is a sequence.
fn hidden_kind(kind: Kind) -> Kind
    ensures { result ≡ spec.hidden_kind kind }
{
    match kind {
        Kind::Sequence => Kind::HiddenSequence,
        other => other,
    }
}

/// The kind of a component that may hide a group.
pub(crate) fn kind_where(is_hidden: bool, kind: Kind) -> Kind
    ensures { result ≡ spec.kind_where is_hidden kind }
{
    if is_hidden { hidden_kind(kind) } else { kind }
}

/// What a component states that may hide a group.
pub(crate) fn facts_where<'c>(is_hidden: bool, facts: Facts<'c>) -> Facts<'c>
    ensures { facts_judged_of result ≡ spec.facts_where is_hidden (facts_judged_of facts.entry) }
{
    if !is_hidden {
        return facts;
    }
    Facts {
        opens_instances: false,
        ..facts
    }
}

/// The tests of a component that may hide a group.
pub(crate) fn tests_where<'p, 'c>(
    is_hidden: bool,
    tests: &'p [StatedTest<'c>],
) -> &'p [StatedTest<'c>]
    ensures { map test_judged_of result.now ≡ spec.tests_where is_hidden (map test_judged_of tests.now) }
{
    if is_hidden { &[] } else { tests }
}
