// What is told of all components of a schema.
ghost use Rattle.std.specs.Prelude.{◌≡◌, All, IfOk, IfErr};
ghost use Rattle.dfdl_components.specs.Rules.{loading_rules, AllKeep};
ghost use Rattle.dfdl_components.specs.Sites.{IsSite};
ghost use Rattle.dfdl_chains.specs.Chains.{chain_sites};
ghost use Rattle.dfdl_chains.specs.Settings.{settings_at};
ghost use Rattle.dfdl_checks.specs.Representations.{no_empty};
ghost use Rattle.dfdl_checks.specs.Tests.{patterns_of};
ghost use Rattle.dfdl_breaches.specs.Builds.{AreBuiltInPart, AreJudged, always, never, patterns_at};
ghost use Rattle.dfdl_breaches.specs.BuildsShown.{IsPushed, IsToldBy};
ghost use Rattle.dfdl_breaches.specs.GatheredShown.{IsGathered};
ghost use Rattle.dfdl_breaches.specs.JudgementShown.{judgement_of};
ghost use Rattle.dfdl_breaches.specs.Judging.{built_settings_at, hidden_at, judged_at, judgement_at, no_judgement, no_writing};
ghost use Rattle.dfdl_breaches.specs.KeptShown.{AreKept};
ghost use Rattle.dfdl_breaches.specs.Roots as spec;
ghost use Rattle.dfdl_breaches.specs.Standing.{standing_at};
ghost use Rattle.dfdl_breaches.specs.StandingShown.{AreStandings};

use crate::chain::chain_at;
use crate::check_list::CheckList;
use crate::entries::entries_of;
use crate::formats::formats_of;
use crate::gathered::{Gathered, gather};
use crate::hiding::{
    content_hidden, facts_where, hides, hiding_at, is_unknown, kind_where, tests_where,
};
use crate::judgement::Judgement;
use crate::judging::judge;
use crate::kept::Kept;
use crate::prefixes::lent;
use crate::root::root_of;
use crate::setting_list::SettingList;
use crate::settings::{are_some, settings_for, settings_of, settings_where};
use crate::sites::sites_of;
use crate::standing::{standing_at, standings_of};
use crate::test_list::TestList;
use dfdl_chains::{Setter, chain_sites, facts_at, is_component, kind_at};
use dfdl_checks::{
    EmptyRepresentation, KeyList, Markup, OtherRepresentations, Purpose, Standing, Subject,
    bit_order, kind_for,
};
use dfdl_components::{Schema, Site};
use dfdl_edge::Patterns;
use dfdl_forms::{BitOrder, CharList, EscapeKind, EscapeScheme};
use dfdl_scope::Properties;
use dfdl_terms::{Framing, Occurs, Writing, WritingForm};
use std::alloc::{AllocError, Global};

// The order of bits that is told at a component with this chain.
fn bit_order_at(
    alloc: Global,
    kept: &Kept<'_, '_>,
    schema: &Schema,
    site: Site,
    sites: &[Site],
) -> Result<BitOrder, AllocError>
    requires kept { AreKept schema.now kept.now }
    requires chain { sites.now ≡ chain_sites schema.now site }
    requires within { All (IsSite schema.now) sites.now }
    ensures { IfOk result (λ order. order ≡ spec.bit_order_at schema.now site) }
{
    let _ = site;
    let component = chain_at(alloc, kept, schema, sites)?;
    Ok(bit_order(&component))
}

// The order of bits that is told at the root.
#[tactic(auto, unfolding(crate::specs::Roots::root_bits_by))]
fn root_bits_by(alloc: Global, kept: &Kept<'_, '_>, schema: &Schema) -> Result<BitOrder, AllocError>
    requires kept { AreKept schema.now kept.now }
    ensures { IfOk result (λ order. order ≡ spec.root_bits_by schema.now) }
{
    let Some(root) = root_of(schema) else {
        return Ok(BitOrder::MostFirst);
    };
    let mut chain = Vec::new(alloc);
    chain_sites(schema, &kept.sites.numbers, root, &mut chain)?;
    bit_order_at(alloc, kept, schema, root, chain.as_slice())
}

// What is told of a component whose chain has these elements, by what is gathered of it.
fn judged_by<'p, 'e, 's, P: Patterns>(
    alloc: Global,
    kept: &Kept<'_, 's>,
    schema: &'s Schema,
    purpose: Purpose,
    bits_by: BitOrder,
    site: Site,
    standing: Standing,
    sites: &[Site],
    own: &'p Gathered<'e, 's>,
    settings: Vec<Setter>,
    patterns: &mut P,
) -> Result<Judgement, AllocError>
    requires kept { AreKept schema.now kept.now }
    requires order { bits_by ≡ spec.root_bits_by schema.now }
    requires site { IsSite schema.now site }
    requires standing { standing ≡ standing_at schema.now site }
    requires chain { sites.now ≡ chain_sites schema.now site }
    requires within { All (IsSite schema.now) sites.now }
    requires own { IsGathered schema.now site own.now }
    requires settings { settings.items ≡ settings_at schema.now site }
    ensures { IsToldBy (patterns_of (judged_at purpose never schema.now site))
        (λ is_refused. judgement_of (hidden_at purpose schema.now site) (built_settings_at purpose schema.now site) (judged_at purpose (always is_refused) schema.now site))
        (record { faults = P.faults patterns.old; last = P.last_refused patterns.old })
        (record { faults = P.faults patterns.new; last = P.last_refused patterns.new }) result }
{
    let kind = kind_at(schema, &kept.sites.numbers, site);
    let facts = facts_at(schema, site, sites);
    let hiding = hiding_at(schema, purpose, kind, facts, site, sites, &own.chain);
    let is_hidden = hides(hiding);
    let settings = settings_where(alloc, is_hidden, settings);
    let subject = Subject {
        purpose,
        kind: kind_for(purpose, facts, &own.chain, kind_where(is_hidden, kind)),
        place: schema.place(site),
        chain: &own.chain,
        facts: facts_where(is_hidden, facts),
        root_bits_by: bits_by,
        prefix: lent(&own.prefix),
        scheme: &own.scheme,
        pattern_is_refused: false,
        tests: tests_where(is_hidden, own.tests.as_slice()),
        sets_variables: are_some(&settings),
        standing,
        group_is_unknown: is_unknown(hiding),
    };
    let settings = settings_for(alloc, purpose, settings);
    judge(alloc, &subject, content_hidden(hiding), settings, patterns)
}

// What is told of a component whose chain has these elements.
fn judged<'s, P: Patterns>(
    alloc: Global,
    kept: &Kept<'_, 's>,
    schema: &'s Schema,
    purpose: Purpose,
    bits_by: BitOrder,
    site: Site,
    standing: Standing,
    sites: &[Site],
    patterns: &mut P,
) -> Result<Judgement, AllocError>
    requires kept { AreKept schema.now kept.now }
    requires order { bits_by ≡ spec.root_bits_by schema.now }
    requires site { IsSite schema.now site }
    requires standing { standing ≡ standing_at schema.now site }
    requires chain { sites.now ≡ chain_sites schema.now site }
    requires within { All (IsSite schema.now) sites.now }
    ensures { IsToldBy (patterns_of (judged_at purpose never schema.now site))
        (λ is_refused. judgement_of (hidden_at purpose schema.now site) (built_settings_at purpose schema.now site) (judged_at purpose (always is_refused) schema.now site))
        (record { faults = P.faults patterns.old; last = P.last_refused patterns.old })
        (record { faults = P.faults patterns.new; last = P.last_refused patterns.new }) result }
{
    let own = gather(alloc, kept, schema, site, sites)?;
    let settings = settings_of(alloc, schema, site, sites)?;
    judged_by(
        alloc, kept, schema, purpose, bits_by, site, standing, sites, &own, settings, patterns,
    )
}

// What is told of an element. The list takes its chain.
fn judgement<'s, P: Patterns>(
    alloc: Global,
    kept: &Kept<'_, 's>,
    schema: &'s Schema,
    purpose: Purpose,
    bits_by: BitOrder,
    site: Site,
    standing: Standing,
    chain: &mut Vec<Site>,
    patterns: &mut P,
) -> Result<Judgement, AllocError>
    requires kept { AreKept schema.now kept.now }
    requires order { bits_by ≡ spec.root_bits_by schema.now }
    requires site { IsSite schema.now site }
    requires standing { standing ≡ standing_at schema.now site }
    ensures { IsToldBy (patterns_at purpose schema.now site)
        (λ is_refused. judgement_at purpose (always is_refused) schema.now site)
        (record { faults = P.faults patterns.old; last = P.last_refused patterns.old })
        (record { faults = P.faults patterns.new; last = P.last_refused patterns.new }) result }
{
    if !is_component(schema.role(site)) {
        return Ok(nothing_told(alloc));
    }
    chain_sites(schema, &kept.sites.numbers, site, chain)?;
    judged(
        alloc,
        kept,
        schema,
        purpose,
        bits_by,
        site,
        standing,
        chain.as_slice(),
        patterns,
    )
}

// No empty representation.
fn no_empty() -> EmptyRepresentation
    ensures { result ≡ no_empty }
{
    EmptyRepresentation {
        empty: None,
        refuses_empty: false,
        are_several: false,
    }
}

// How what is no component is written.
fn no_writing(alloc: Global) -> Writing
    ensures { result ≡ no_writing }
{
    let scheme = EscapeScheme {
        kind: EscapeKind::Absent,
        escape: None,
        escape_escape: None,
        start: None,
        end: None,
        extra: CharList::new(Vec::new(alloc)),
        always: false,
    };
    Writing {
        fill: 0,
        text: WritingForm {
            least: 0,
            new_line: CharList::new(Vec::new(alloc)),
            scheme,
        },
        default: None,
    }
}

// Nothing is told of what is no component.
fn nothing_told(alloc: Global) -> Judgement
    ensures { result ≡ no_judgement }
{
    Judgement {
        breach: None,
        primitive: None,
        simple: None,
        framing: Framing::none(),
        markup: Markup {
            initiator: None,
            terminator: None,
            separator: None,
        },
        size: None,
        prefix: None,
        others: OtherRepresentations {
            nil: None,
            required: no_empty(),
            where_tried: no_empty(),
        },
        occurs: Occurs {
            least: 1,
            further: 0,
            is_item: false,
        },
        is_parsed: false,
        initiates: false,
        tests: TestList::from_vec(Vec::new(alloc)),
        checks: CheckList::from_vec(Vec::new(alloc)),
        output: None,
        settings: SettingList::from_vec(Vec::new(alloc)),
        calculation: None,
        measure: None,
        count: None,
        key: None,
        keys: KeyList::from_vec(Vec::new(alloc)),
        writing: no_writing(alloc),
        hidden: None,
    }
}

// What is told of an element, behind what is told of others.
fn push_judgement<'s, P: Patterns>(
    alloc: Global,
    kept: &Kept<'_, 's>,
    schema: &'s Schema,
    purpose: Purpose,
    bits_by: BitOrder,
    site: Site,
    standing: Standing,
    chain: &mut Vec<Site>,
    patterns: &mut P,
    judgements: &mut Vec<Judgement>,
) -> Result<(), AllocError>
    requires kept { AreKept schema.now kept.now }
    requires order { bits_by ≡ spec.root_bits_by schema.now }
    requires site { IsSite schema.now site }
    requires standing { standing ≡ standing_at schema.now site }
    ensures { IsPushed (patterns_at purpose schema.now site)
        (λ is_refused. judgement_at purpose (always is_refused) schema.now site)
        (record { faults = P.faults patterns.old; last = P.last_refused patterns.old })
        (record { faults = P.faults patterns.new; last = P.last_refused patterns.new })
        judgements.old.items judgements.new.items result }
{
    let judgement = judgement(
        alloc, kept, schema, purpose, bits_by, site, standing, chain, patterns,
    )?;
    judgements.push(judgement)?;
    Ok(())
}

// What is told of all elements.
fn judgements<'s, P: Patterns>(
    alloc: Global,
    kept: &Kept<'_, 's>,
    schema: &'s Schema,
    purpose: Purpose,
    bits_by: BitOrder,
    standings: &[Standing],
    patterns: &mut P,
) -> Result<Vec<Judgement>, AllocError>
    requires kept { AreKept schema.now kept.now }
    requires order { bits_by ≡ spec.root_bits_by schema.now }
    requires standings { AreStandings schema.now standings.now }
    ensures judged { IfOk result (λ judgements. AreJudged purpose schema.now
        (record { faults = P.faults patterns.old; last = P.last_refused patterns.old })
        (record { faults = P.faults patterns.new; last = P.last_refused patterns.new }) judgements.items) }
    ensures part { IfErr result (λ _. AreBuiltInPart purpose schema.now
        (record { faults = P.faults patterns.old; last = P.last_refused patterns.old })
        (record { faults = P.faults patterns.new; last = P.last_refused patterns.new })) }
{
    let mut judgements = Vec::new(alloc);
    let mut chain = Vec::new(alloc);
    for site in kept.sites.all.as_slice() {
        push_judgement(
            alloc,
            kept,
            schema,
            purpose,
            bits_by,
            *site,
            standing_at(kept, schema, standings, *site),
            &mut chain,
            patterns,
            &mut judgements,
        )?;
    }
    Ok(judgements)
}

/// What is told of each element of a schema's documents, in the order of their numbers: of a component
/// the first rule that it breaks, how its values, what tells its length and its other representations lie in the data, the fill
/// and the box around its content, its tests and settings, by which expression its value is calculated, how it is written, and the group
/// that it hides; of every other element nothing.
///
/// What its rows are made for decides which forms are built. The order of bits is that of the root, which is found once. The
/// properties of each element are collected once, and each format is joined once. What groups ask of their parts is noted once, before
/// all else. The patterns of each component's tests and length are built
/// once, in the order of the elements; one that `patterns` refuses is a rule that the component breaks.
pub fn breaches<P: Patterns>(
    alloc: Global,
    schema: &Schema,
    purpose: Purpose,
    patterns: &mut P,
) -> Result<Vec<Judgement>, AllocError>
    requires { AllKeep (loading_rules schema.now) schema.now }
    ensures judged { IfOk result (λ judgements. AreJudged purpose schema.now
        (record { faults = P.faults patterns.old; last = P.last_refused patterns.old })
        (record { faults = P.faults patterns.new; last = P.last_refused patterns.new }) judgements.items) }
    ensures part { IfErr result (λ _. AreBuiltInPart purpose schema.now
        (record { faults = P.faults patterns.old; last = P.last_refused patterns.old })
        (record { faults = P.faults patterns.new; last = P.last_refused patterns.new })) }
{
    let sites = sites_of(alloc, schema)?;
    let formats = formats_of(alloc, schema, &sites)?;
    let entries = entries_of(alloc, schema, &sites)?;
    let nothing = Properties::new(alloc);
    let kept = Kept {
        sites: &sites,
        entries: entries.as_slice(),
        formats: formats.as_slice(),
        nothing: &nothing,
    };
    let bits_by = root_bits_by(alloc, &kept, schema)?;
    let standings = standings_of(alloc, &kept, schema)?;
    judgements(
        alloc,
        &kept,
        schema,
        purpose,
        bits_by,
        standings.as_slice(),
        patterns,
    )
}
