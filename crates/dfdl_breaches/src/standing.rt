// In which groups components stand, and what these ask of them.
ghost use Rattle.std.specs.Prelude.{◌≡◌, ◌<◌, ◌++◌, [], ℕ, List, All, IfOk, OnOk, true, false, codes, get_or, if◌then◌else◌, length, map, nat_eq};
ghost use Rattle.dfdl_checks.specs.Places.{both_of, nowhere};
ghost use Rattle.dfdl_checks.specs.Subjects.{is_plain_group};
ghost use Rattle.dfdl_chains.specs.Chains.{chain_sites};
ghost use Rattle.dfdl_chains.specs.Kinds as kinds;
ghost use Rattle.dfdl_chains.specs.Parts as parted;
ghost use Rattle.dfdl_components.specs.Recursion.{count_of, number_of};
ghost use Rattle.dfdl_components.specs.Sites.{IsSite};
ghost use Rattle.dfdl_scope.specs.Scoping.{told};
ghost use Rattle.dfdl_scope.specs.Shown.{chain_of};
ghost use Rattle.dfdl_breaches.specs.KeptShown.{AreKept};
ghost use Rattle.dfdl_breaches.specs.Standing as spec;
ghost use Rattle.dfdl_breaches.specs.StandingShown.{AreStandings, asked_shown};

use crate::chain::chain_at;
use crate::kept::Kept;
use dfdl_chains::{chain_sites, kind_at, parts_at};
use dfdl_checks::{KeyList, Kind, Standing, is_delimiter, is_keyed_by, is_word, keys_of_chain};
use dfdl_components::{Schema, Site};
use dfdl_scope::{Component, property};
use dfdl_value::TextValue;
use std::alloc::{AllocError, Global};

/// What a group asks of its last part, and of each other.
#[derive(Debug, Clone, Copy, PartialEq, Eq)]
pub(crate) struct Asking {
    pub(crate) of_last: Standing,
    pub(crate) of_others: Standing,
    /// It is a choice by a key.
    pub(crate) is_keyed: bool,
}

/// In no group that asks anything of it.
fn nowhere() -> Standing
    ensures { result ≡ nowhere }
{
    Standing {
        is_initiated: false,
        needs_bound: false,
        needs_key: false,
        repeats_key: false,
        resolves: false,
    }
}

// In two groups.
fn both_of(one: Standing, other: Standing) -> Standing
    ensures { result ≡ both_of one other }
{
    Standing {
        is_initiated: one.is_initiated || other.is_initiated,
        needs_bound: one.needs_bound || other.needs_bound,
        needs_key: one.needs_key || other.needs_key,
        repeats_key: one.repeats_key || other.repeats_key,
        resolves: one.resolves || other.resolves,
    }
}

// Whether it is a sequence or a choice of what stands in it.
fn is_group(kind: Kind) -> bool
    ensures { result ≡ is_plain_group kind }
{
    match kind {
        Kind::Sequence | Kind::Choice => true,
        _ => false,
    }
}

// Whether optional slots of a sequence may be missing at its end alone.
fn is_trailing(chain: &Component<'_, '_>) -> bool
    ensures { result ≡ spec.is_trailing (told (chain_of chain.now) (codes "separatorSuppressionPolicy")) }
{
    is_word(chain, "separatorSuppressionPolicy", "trailingEmpty")
        || is_word(chain, "separatorSuppressionPolicy", "trailingEmptyStrict")
}

// Whether a part of a sequence, the last one or another, may not be unbounded.
fn asks_bound(is_last: bool, chain: &Component<'_, '_>) -> bool
    ensures { result ≡ spec.asks_bound is_last (told (chain_of chain.now) (codes "separatorSuppressionPolicy")) }
{
    is_word(chain, "separatorSuppressionPolicy", "never") || (is_trailing(chain) && !is_last)
}

// The same of a component of a kind, if it is a sequence with a separator.
fn is_bounding(is_last: bool, kind: Kind, chain: &Component<'_, '_>) -> bool
    ensures { result ≡ spec.is_bounding is_last kind (chain_of chain.now) }
{
    is_separated(kind, chain) && asks_bound(is_last, chain)
}

// Whether it is a sequence with a separator.
fn is_separated(kind: Kind, chain: &Component<'_, '_>) -> bool
    ensures { result ≡ spec.is_separated kind (chain_of chain.now) }
{
    match kind {
        Kind::Sequence => is_delimiter(property(chain, "separator")),
        _ => false,
    }
}

// Whether the content of a component of a kind is initiated.
fn is_initiating(kind: Kind, chain: &Component<'_, '_>) -> bool
    ensures { result ≡ spec.is_initiating kind (chain_of chain.now) }
{
    is_group(kind) && is_word(chain, "initiatedContent", "yes")
}

// Whether it is a choice by a key whose content is initiated.
fn is_resolving(kind: Kind, chain: &Component<'_, '_>) -> bool
    ensures { result ≡ spec.is_resolving kind (chain_of chain.now) }
{
    is_keyed_by(kind, chain) && is_initiating(kind, chain)
}

// What a component of a kind asks of its last part, or of another.
fn asked_by(is_last: bool, kind: Kind, chain: &Component<'_, '_>) -> Standing
    ensures { result ≡ spec.asked_by is_last kind (chain_of chain.now) }
{
    Standing {
        is_initiated: is_initiating(kind, chain),
        needs_bound: is_bounding(is_last, kind, chain),
        needs_key: false,
        repeats_key: false,
        resolves: is_resolving(kind, chain),
    }
}

// What is asked of the last part or another.
fn asked(asking: Asking, is_last: bool) -> Standing
    ensures { result ≡ asked_shown asking is_last }
{
    if is_last {
        asking.of_last
    } else {
        asking.of_others
    }
}

// What a component asks of its parts.
fn asking_of(
    alloc: Global,
    kept: &Kept<'_, '_>,
    schema: &Schema,
    site: Site,
    chain: &mut Vec<Site>,
) -> Result<Asking, AllocError>
    requires kept { AreKept schema.now kept.now }
    requires site { IsSite schema.now site }
    ensures last { IfOk result (λ asking. asking.of_last ≡ spec.asked_at schema.now site true) }
    ensures others { IfOk result (λ asking. asking.of_others ≡ spec.asked_at schema.now site false) }
    ensures keyed { IfOk result (λ asking. asking.is_keyed ≡ spec.is_keyed_at schema.now site) }
{
    let kind = kind_at(schema, &kept.sites.numbers, site);
    chain_sites(schema, &kept.sites.numbers, site, chain)?;
    asking_by(alloc, kept, schema, kind, site, chain.as_slice())
}

// What a component of a kind with this chain asks of its parts.
fn asking_by(
    alloc: Global,
    kept: &Kept<'_, '_>,
    schema: &Schema,
    kind: Kind,
    site: Site,
    sites: &[Site],
) -> Result<Asking, AllocError>
    requires kept { AreKept schema.now kept.now }
    requires kind { kind ≡ kinds.kind_at schema.now site }
    requires chain { sites.now ≡ chain_sites schema.now site }
    requires within { All (IsSite schema.now) sites.now }
    ensures last { IfOk result (λ asking. asking.of_last ≡ spec.asked_at schema.now site true) }
    ensures others { IfOk result (λ asking. asking.of_others ≡ spec.asked_at schema.now site false) }
    ensures keyed { IfOk result (λ asking. asking.is_keyed ≡ spec.is_keyed_at schema.now site) }
{
    let _ = site;
    let chain = chain_at(alloc, kept, schema, sites)?;
    Ok(Asking {
        of_last: asked_by(true, kind, &chain),
        of_others: asked_by(false, kind, &chain),
        is_keyed: is_keyed_by(kind, &chain),
    })
}

// Notes what is asked of a component.
fn note(standings: &mut Vec<Standing>, number: u32, asked: Standing)
    requires { number < length standings.old.items }
    ensures noted { (c : ℕ) → get_or standings.new.items c nowhere
        ≡ both_of (get_or standings.old.items c nowhere) (if nat_eq number c then asked else nowhere) }
    ensures many { length standings.new.items ≡ length standings.old.items }
{
    let at = number as usize;
    standings[at] = both_of(standings[at], asked);
}

// Notes what a component asks of its parts.
fn note_parts(
    kept: &Kept<'_, '_>,
    schema: &Schema,
    parts: &[Site],
    asking: Asking,
    standings: &mut Vec<Standing>,
)
    requires kept { AreKept schema.now kept.now }
    requires parts { All (IsSite schema.now) parts.now }
    requires many { length standings.old.items ≡ count_of schema.now }
    ensures noted { (c : ℕ) → get_or standings.new.items c nowhere
        ≡ both_of (get_or standings.old.items c nowhere) (spec.standing_among (asked_shown asking) (map (number_of schema.now) parts.now) c) }
    ensures many { length standings.new.items ≡ length standings.old.items }
{
    for at in 0..parts.len() {
        let number = kept.sites.number(schema, parts[at]);
        note(standings, number, asked(asking, at + 1 == parts.len()));
    }
}

// Whether a key stands among those that are taken.
fn is_taken(taken: &[TextValue], key: &TextValue) -> bool
    ensures { result ≡ spec.is_taken taken.now key.now }
{
    for other in taken {
        if other.as_str() == key.as_str() {
            return true;
        }
    }
    false
}

// Takes some keys, and answers whether one of them was taken before.
fn take_keys(
    alloc: Global,
    keys: &[TextValue],
    taken: &mut Vec<TextValue>,
) -> Result<bool, AllocError>
    ensures again { IfOk result (λ again. again ≡ spec.repeats taken.old.items keys.now) }
    ensures taken { OnOk result (taken.new.items ≡ taken.old.items ++ keys.now) }
{
    let mut again = false;
    for key in keys {
        let is_again = is_taken(taken.as_slice(), key);
        let copy = key.copy(alloc)?;
        taken.push(copy)?;
        again |= is_again;
    }
    Ok(again)
}

// The keys of a branch.
fn keys_at(
    alloc: Global,
    kept: &Kept<'_, '_>,
    schema: &Schema,
    site: Site,
    chain: &mut Vec<Site>,
) -> Result<KeyList, AllocError>
    requires kept { AreKept schema.now kept.now }
    requires site { IsSite schema.now site }
    ensures { IfOk result (λ keys. keys ≡ spec.keys_at schema.now site) }
{
    chain_sites(schema, &kept.sites.numbers, site, chain)?;
    keys_in(alloc, kept, schema, site, chain.as_slice())
}

// The keys of a branch with this chain.
fn keys_in(
    alloc: Global,
    kept: &Kept<'_, '_>,
    schema: &Schema,
    site: Site,
    sites: &[Site],
) -> Result<KeyList, AllocError>
    requires kept { AreKept schema.now kept.now }
    requires chain { sites.now ≡ chain_sites schema.now site }
    requires within { All (IsSite schema.now) sites.now }
    ensures { IfOk result (λ keys. keys ≡ spec.keys_at schema.now site) }
{
    let _ = site;
    let chain = chain_at(alloc, kept, schema, sites)?;
    keys_of_chain(alloc, &chain)
}

// What a choice by a key asks of a branch that repeats a key, or of another.
fn asked_key(again: bool) -> Standing
    ensures { result ≡ spec.asked_key again }
{
    Standing {
        is_initiated: false,
        needs_bound: false,
        needs_key: true,
        repeats_key: again,
        resolves: false,
    }
}

// Notes what a choice by a key asks of its branches.
fn note_branches(
    alloc: Global,
    kept: &Kept<'_, '_>,
    schema: &Schema,
    branches: &[Site],
    chain: &mut Vec<Site>,
    standings: &mut Vec<Standing>,
) -> Result<(), AllocError>
    requires kept { AreKept schema.now kept.now }
    requires branches { All (IsSite schema.now) branches.now }
    requires many { length standings.old.items ≡ count_of schema.now }
    ensures noted { (c : ℕ) → OnOk result (get_or standings.new.items c nowhere
        ≡ both_of (get_or standings.old.items c nowhere) (spec.keying_among schema.now [] branches.now c)) }
    ensures many { length standings.new.items ≡ length standings.old.items }
{
    let mut taken = Vec::new(alloc);
    for at in 0..branches.len() {
        let keys = keys_at(alloc, kept, schema, branches[at], chain)?;
        let again = take_keys(alloc, keys.as_slice(), &mut taken)?;
        let number = kept.sites.number(schema, branches[at]);
        note(standings, number, asked_key(again));
    }
    Ok(())
}

// The same of a group that is one or isn't.
fn note_branches_if(
    alloc: Global,
    kept: &Kept<'_, '_>,
    schema: &Schema,
    is_keyed: bool,
    branches: &[Site],
    chain: &mut Vec<Site>,
    standings: &mut Vec<Standing>,
) -> Result<(), AllocError>
    requires kept { AreKept schema.now kept.now }
    requires branches { All (IsSite schema.now) branches.now }
    requires many { length standings.old.items ≡ count_of schema.now }
    ensures noted { (c : ℕ) → OnOk result (get_or standings.new.items c nowhere
        ≡ both_of (get_or standings.old.items c nowhere) (spec.keying_if schema.now is_keyed branches.now c)) }
    ensures many { length standings.new.items ≡ length standings.old.items }
{
    if !is_keyed {
        return Ok(());
    }
    note_branches(alloc, kept, schema, branches, chain, standings)
}

// Notes what a component asks of its parts, which the list takes.
fn note_group(
    alloc: Global,
    kept: &Kept<'_, '_>,
    schema: &Schema,
    site: Site,
    parts: &mut Vec<Site>,
    chain: &mut Vec<Site>,
    standings: &mut Vec<Standing>,
) -> Result<(), AllocError>
    requires kept { AreKept schema.now kept.now }
    requires site { IsSite schema.now site }
    requires many { length standings.old.items ≡ count_of schema.now }
    ensures noted { (c : ℕ) → OnOk result (get_or standings.new.items c nowhere
        ≡ both_of (get_or standings.old.items c nowhere) (spec.standing_in schema.now site c)) }
    ensures many { length standings.new.items ≡ length standings.old.items }
{
    parts_at(schema, &kept.sites.numbers, site, parts)?;
    if parts.is_empty() {
        return Ok(());
    }
    let asking = asking_of(alloc, kept, schema, site, chain)?;
    let branches = parts.as_slice();
    note_parts(kept, schema, branches, asking, standings);
    note_branches_if(
        alloc,
        kept,
        schema,
        asking.is_keyed,
        branches,
        chain,
        standings,
    )?;
    Ok(())
}

/// Where the element of each number stands.
pub(crate) fn standings_of(
    alloc: Global,
    kept: &Kept<'_, '_>,
    schema: &Schema,
) -> Result<Vec<Standing>, AllocError>
    requires { AreKept schema.now kept.now }
    ensures { IfOk result (λ standings. AreStandings schema.now standings.items) }
{
    let mut standings = vec![in alloc; nowhere(); kept.sites.all.len()]?;
    let mut parts = Vec::new(alloc);
    let mut chain = Vec::new(alloc);
    for site in kept.sites.all.as_slice() {
        note_group(
            alloc,
            kept,
            schema,
            *site,
            &mut parts,
            &mut chain,
            &mut standings,
        )?;
    }
    Ok(standings)
}

/// Where an element stands.
pub(crate) fn standing_at(
    kept: &Kept<'_, '_>,
    schema: &Schema,
    standings: &[Standing],
    site: Site,
) -> Standing
    requires kept { AreKept schema.now kept.now }
    requires standings { AreStandings schema.now standings.now }
    requires site { IsSite schema.now site }
    ensures { result ≡ spec.standing_at schema.now site }
{
    standings[kept.sites.number(schema, site) as usize]
}
