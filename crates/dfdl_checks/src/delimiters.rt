// The initiators and terminators of components, and the separators of sequences.
ghost use Rattle.std.specs.Prelude.{◌≡◌, IfOk, Some, false, codes, option_map};
ghost use Rattle.std.specs.Str.{chars};
ghost use Rattle.dfdl_checks.specs.Delimiters as delimiters;
ghost use Rattle.dfdl_checks.specs.JudgedShown.{judged_of};
ghost use Rattle.dfdl_literals.specs.Lists.{matches_nothing};
ghost use Rattle.dfdl_literals.specs.Readings.{literals_reading};
ghost use Rattle.dfdl_scope.specs.Scoping.{told};
ghost use Rattle.dfdl_scope.specs.Shown.{chain_of};
ghost use Rattle.dfdl_scope.specs.Told.{told_by};

use crate::encodings::encoding_told;
use crate::kinds::{is_sequence, is_unframed};
use crate::nils::lacks_literals;
use crate::purpose::Purpose;
use crate::representations::is_word;
use crate::subject::Subject;
use dfdl_forms::{Encoding, Literals};
use dfdl_literals::{LiteralFault, literals_read_as_one, read_literals};
use dfdl_scope::{Asked, Component, is_expression, literal, property};
use dfdl_separators::{SeparatorPosition, SeparatorSuppressionPolicy};
use dfdl_terms::Delimiters;
use std::alloc::{AllocError, Global};

/// An initiator or a terminator of a component ('Framing').
#[derive(Debug, Drop)]
pub struct Delimiting {
    /// Its literals.
    pub list: Delimiters,
    /// It stands in the nil representation too ('DFDL Data Syntax Grammar').
    pub in_nil: bool,
    /// It stands in the empty representation too ('DFDL Data Syntax Grammar').
    pub in_empty: bool,
    /// Where it is found, it resolves a point of uncertainty ('Choices', on choices by a key with initiated content).
    pub resolves: bool,
}

/// The separator of a sequence ('Sequence Groups').
#[derive(Debug, Drop)]
pub struct Separating {
    /// Its literals.
    pub list: Delimiters,
    /// Where it stands.
    pub position: SeparatorPosition,
    /// Which optional slots may be missing.
    pub policy: SeparatorSuppressionPolicy,
}

/// The delimiters of a component ('Framing', 'Sequence Groups').
#[derive(Debug, Drop)]
pub struct Markup {
    /// The initiator, if it has one.
    pub initiator: Option<Delimiting>,
    /// The terminator, if it has one.
    pub terminator: Option<Delimiting>,
    /// The separator, if it has one.
    pub separator: Option<Separating>,
}

/// What is told of a delimiter.
#[derive(Debug, Drop)]
pub enum DelimiterText {
    /// It is told as none.
    Nothing,
    /// Literals, none of which can match nothing.
    Literals(Literals),
    /// A text that is no list of literals.
    Malformed,
    /// Literals, one of which can match nothing.
    Empty,
}

/// The initiator, the terminator and the separator of a component: for unparsing there is none.
pub fn delimiters_at(alloc: Global, subject: &Subject<'_, '_, '_>) -> Result<Markup, AllocError>
    ensures { IfOk result (λ markup. markup ≡ delimiters.delimiters_of (judged_of subject.now)) }
{
    match subject.purpose {
        Purpose::Parsing => all_delimiters(alloc, subject),
        Purpose::Unparsing => Ok(no_delimiters()),
    }
}

/// No delimiter.
fn no_delimiters() -> Markup
    ensures { result ≡ delimiters.no_delimiters }
{
    Markup {
        initiator: None,
        terminator: None,
        separator: None,
    }
}

/// The delimiters of a component, for parsing.
fn all_delimiters(alloc: Global, subject: &Subject<'_, '_, '_>) -> Result<Markup, AllocError>
    ensures { IfOk result (λ markup. markup ≡ delimiters.delimiters_for Purpose.Parsing (judged_of subject.now)) }
{
    let initiator = delimiter_of(alloc, subject, "initiator")?;
    let terminator = delimiter_of(alloc, subject, "terminator")?;
    let separator = separator_of(alloc, subject)?;
    Ok(Markup {
        initiator,
        terminator,
        separator,
    })
}

/// The delimiter of a name of a component, if it has one.
fn delimiter_of(
    alloc: Global,
    subject: &Subject<'_, '_, '_>,
    name: &str,
) -> Result<Option<Delimiting>, AllocError>
    ensures { IfOk result (λ delimiter. delimiter ≡ delimiters.delimiter_of (judged_of subject.now) name.now) }
{
    let text = delimiter_at(alloc, subject, name)?;
    let encoding = encoding_told(property(subject.chain, "encoding"));
    Ok(delimiting_by(subject, name, text, encoding))
}

/// A delimiter of a component, where it has literals and its encoding is told.
fn delimiting_by(
    subject: &Subject<'_, '_, '_>,
    name: &str,
    text: DelimiterText,
    encoding: Option<Encoding>,
) -> Option<Delimiting>
    ensures { result ≡ delimiters.delimiting_by (judged_of subject.now) name.now text encoding }
{
    match text {
        DelimiterText::Literals(literals) => delimiting_in(subject, name, literals, encoding),
        _ => None,
    }
}

/// A delimiter of a component with literals, where its encoding is told.
fn delimiting_in(
    subject: &Subject<'_, '_, '_>,
    name: &str,
    literals: Literals,
    encoding: Option<Encoding>,
) -> Option<Delimiting>
    ensures { result ≡ option_map (delimiters.delimiting_with (judged_of subject.now) name.now literals) encoding }
{
    match encoding {
        Some(encoding) => Some(delimiting_with(subject, name, literals, encoding)),
        None => None,
    }
}

/// A delimiter of a component, of these literals in an encoding.
fn delimiting_with(
    subject: &Subject<'_, '_, '_>,
    name: &str,
    literals: Literals,
    encoding: Encoding,
) -> Delimiting
    ensures { result ≡ delimiters.delimiting_with (judged_of subject.now) name.now literals encoding }
{
    Delimiting {
        list: list_with(subject, literals, encoding),
        in_nil: is_named(name, property(subject.chain, "nilValueDelimiterPolicy")),
        in_empty: is_in_empty(subject, name),
        resolves: is_resolving(subject, name),
    }
}

/// Whether a delimiter of a component resolves a point of uncertainty where it is found.
fn is_resolving(subject: &Subject<'_, '_, '_>, name: &str) -> bool
    ensures { result ≡ delimiters.is_resolving (judged_of subject.now) name.now }
{
    name == "initiator" && subject.standing.resolves
}

/// Literals in an encoding at a component; with ignoreCase ASCII letters match in both cases.
fn list_with(subject: &Subject<'_, '_, '_>, literals: Literals, encoding: Encoding) -> Delimiters
    ensures { result ≡ delimiters.list_with (judged_of subject.now) literals encoding }
{
    Delimiters {
        literals,
        encoding,
        fold: is_word(subject.chain, "ignoreCase", "yes"),
    }
}

/// The separator of a component, if it has one.
fn separator_of(
    alloc: Global,
    subject: &Subject<'_, '_, '_>,
) -> Result<Option<Separating>, AllocError>
    ensures { IfOk result (λ separator. separator ≡ delimiters.separator_of (judged_of subject.now)) }
{
    let text = separator_at(alloc, subject)?;
    let encoding = encoding_told(property(subject.chain, "encoding"));
    Ok(separating_by(subject, text, encoding))
}

/// A separator of a component, where it has literals and its encoding is told.
fn separating_by(
    subject: &Subject<'_, '_, '_>,
    text: DelimiterText,
    encoding: Option<Encoding>,
) -> Option<Separating>
    ensures { result ≡ delimiters.separating_by (judged_of subject.now) text encoding }
{
    match text {
        DelimiterText::Literals(literals) => separating_in(subject, literals, encoding),
        _ => None,
    }
}

/// A separator of a component with literals, where its encoding is told.
fn separating_in(
    subject: &Subject<'_, '_, '_>,
    literals: Literals,
    encoding: Option<Encoding>,
) -> Option<Separating>
    ensures { result ≡ option_map (delimiters.separating_with (judged_of subject.now) literals) encoding }
{
    match encoding {
        Some(encoding) => Some(Separating {
            list: list_with(subject, literals, encoding),
            position: position_told(subject.chain),
            policy: policy_told(subject.chain),
        }),
        None => None,
    }
}

/// Where a separator stands: between the slots, where a chain gives nothing.
fn position_told(chain: &Component<'_, '_>) -> SeparatorPosition
    ensures { result ≡ delimiters.position_told (told (chain_of chain.now) (codes "separatorPosition")) }
{
    if is_word(chain, "separatorPosition", "prefix") {
        return SeparatorPosition::Prefix;
    }
    if is_word(chain, "separatorPosition", "postfix") {
        return SeparatorPosition::Postfix;
    }
    SeparatorPosition::Infix
}

/// Which optional slots may be missing: any, where a chain gives nothing.
fn policy_told(chain: &Component<'_, '_>) -> SeparatorSuppressionPolicy
    ensures { result ≡ delimiters.policy_told (told (chain_of chain.now) (codes "separatorSuppressionPolicy")) }
{
    if is_word(chain, "separatorSuppressionPolicy", "never") {
        return SeparatorSuppressionPolicy::Never;
    }
    if is_word(chain, "separatorSuppressionPolicy", "trailingEmpty") {
        return SeparatorSuppressionPolicy::TrailingEmpty;
    }
    if is_word(chain, "separatorSuppressionPolicy", "trailingEmptyStrict") {
        return SeparatorSuppressionPolicy::TrailingEmptyStrict;
    }
    SeparatorSuppressionPolicy::AnyEmpty
}

/// Whether a delimiter is told: an empty value is none.
pub fn is_delimiter(told: Asked<'_>) -> bool
    ensures { result ≡ delimiters.is_delimiter (told_by told.entry) }
{
    match told {
        Asked::Given(written) => !literal(written).is_empty(),
        Asked::Absent => false,
        Asked::Twice { .. } => false,
    }
}

/// Whether a component has the delimiter of a name; the type of a prefix has none, nor has a sequence that stands for a hidden group.
pub(crate) fn has_delimiter(subject: &Subject<'_, '_, '_>, name: &str) -> bool
    ensures { result ≡ delimiters.has_delimiter (judged_of subject.now) name.now }
{
    !is_unframed(subject.kind) && is_delimiter(property(subject.chain, name))
}

/// Whether it is a sequence with a separator.
pub(crate) fn is_separated(subject: &Subject<'_, '_, '_>) -> bool
    ensures { result ≡ delimiters.is_separated (judged_of subject.now) }
{
    is_sequence(subject.kind) && is_delimiter(property(subject.chain, "separator"))
}

/// Whether a component has an initiator, a terminator or a separator.
pub(crate) fn is_delimited(subject: &Subject<'_, '_, '_>) -> bool
    ensures { result ≡ delimiters.is_delimited (judged_of subject.now) }
{
    has_delimiter(subject, "initiator")
        || has_delimiter(subject, "terminator")
        || is_separated(subject)
}

/// Whether a policy of which this is told names a delimiter; absent it names both.
fn is_named(name: &str, told: Asked<'_>) -> bool
    ensures { result ≡ delimiters.is_named name.now (told_by told.entry) }
{
    match told {
        Asked::Given(written) => literal(written) == "both" || literal(written) == name,
        Asked::Absent => true,
        Asked::Twice { .. } => false,
    }
}

/// Whether a delimiter stands in the empty representation of a component.
fn is_in_empty(subject: &Subject<'_, '_, '_>, name: &str) -> bool
    ensures { result ≡ delimiters.is_in_empty (judged_of subject.now) name.now }
{
    is_named(name, property(subject.chain, "emptyValueDelimiterPolicy"))
}

/// Whether the empty representation of a component has a delimiter.
pub(crate) fn is_empty_delimited(subject: &Subject<'_, '_, '_>) -> bool
    ensures { result ≡ delimiters.is_empty_delimited (judged_of subject.now) }
{
    (has_delimiter(subject, "initiator") && is_in_empty(subject, "initiator"))
        || (has_delimiter(subject, "terminator") && is_in_empty(subject, "terminator"))
}

/// What the delimiter of a name comes to at a component.
pub(crate) fn delimiter_at(
    alloc: Global,
    subject: &Subject<'_, '_, '_>,
    name: &str,
) -> Result<DelimiterText, AllocError>
    ensures { IfOk result (λ text. text ≡ delimiters.delimiter_at (judged_of subject.now) name.now) }
{
    if is_unframed(subject.kind) {
        return Ok(DelimiterText::Nothing);
    }
    delimiter_told(alloc, property(subject.chain, name))
}

/// What the separator of a component comes to; a sequence alone has one.
pub(crate) fn separator_at(
    alloc: Global,
    subject: &Subject<'_, '_, '_>,
) -> Result<DelimiterText, AllocError>
    ensures { IfOk result (λ text. text ≡ delimiters.separator_at (judged_of subject.now)) }
{
    if !is_sequence(subject.kind) {
        return Ok(DelimiterText::Nothing);
    }
    delimiter_told(alloc, property(subject.chain, "separator"))
}

/// What a delimiter that is told comes to; an expression is none, nor is an empty value.
fn delimiter_told(alloc: Global, told: Asked<'_>) -> Result<DelimiterText, AllocError>
    ensures { IfOk result (λ text. text ≡ delimiters.delimiter_told (told_by told.entry)) }
{
    match told {
        Asked::Given(written) if is_none(written) => Ok(DelimiterText::Nothing),
        Asked::Given(written) => delimiter_text(alloc, literal(written)),
        Asked::Absent => Ok(DelimiterText::Nothing),
        Asked::Twice { .. } => Ok(DelimiterText::Nothing),
    }
}

/// Whether a value is an expression or empty.
fn is_none(written: &str) -> bool
    ensures { result ≡ delimiters.is_none written.now }
{
    is_expression(written) || literal(written).is_empty()
}

/// What a text of a delimiter comes to.
fn delimiter_text(alloc: Global, text: &str) -> Result<DelimiterText, AllocError>
    ensures { IfOk result (λ found. found ≡ delimiters.delimiter_by (literals_reading false (chars text.now))) }
{
    literals_read_as_one();
    match read_literals(alloc, text, false) {
        Ok(literals) => Ok(some_literals(literals)),
        Err(LiteralFault::Malformed { .. }) => Ok(DelimiterText::Malformed),
        Err(LiteralFault::MatchesNothing) => Ok(DelimiterText::Empty),
        Err(LiteralFault::OutOfMemory) => Err(AllocError),
    }
}

/// What literals come to, none of which can match nothing.
fn some_literals(literals: Literals) -> DelimiterText
    requires { matches_nothing literals ≡ false }
    ensures { result ≡ delimiters.delimiter_by (Some literals) }
{
    if literals.len() == 0 {
        DelimiterText::Malformed
    } else {
        DelimiterText::Literals(literals)
    }
}

/// Whether the text is no list of literals.
fn is_malformed_text(text: &DelimiterText) -> bool
    ensures { result ≡ delimiters.is_malformed_text text.now }
{
    matches!(text, DelimiterText::Malformed)
}

/// Whether a literal of the text can match nothing.
fn is_empty_text(text: &DelimiterText) -> bool
    ensures { result ≡ delimiters.is_empty_text text.now }
{
    matches!(text, DelimiterText::Empty)
}

/// Whether an encoding lacks a character of the literals.
fn lacks_text(encoding: Option<Encoding>, text: &DelimiterText) -> bool
    ensures { result ≡ delimiters.lacks_text encoding text.now }
{
    match text {
        DelimiterText::Literals(literals) => lacks_literals(encoding, literals),
        _ => false,
    }
}

/// Whether a delimiter of a component is no list of literals.
pub(crate) fn is_delimiter_malformed(
    alloc: Global,
    subject: &Subject<'_, '_, '_>,
) -> Result<bool, AllocError>
    ensures { IfOk result (λ malformed. malformed ≡ delimiters.is_delimiter_malformed (judged_of subject.now)) }
{
    let initiator = delimiter_at(alloc, subject, "initiator")?;
    let terminator = delimiter_at(alloc, subject, "terminator")?;
    let separator = separator_at(alloc, subject)?;
    Ok(
        is_malformed_text(&initiator)
            || is_malformed_text(&terminator)
            || is_malformed_text(&separator),
    )
}

/// Whether a literal of a delimiter of a component can match nothing.
pub(crate) fn is_delimiter_empty(
    alloc: Global,
    subject: &Subject<'_, '_, '_>,
) -> Result<bool, AllocError>
    ensures { IfOk result (λ empty. empty ≡ delimiters.is_delimiter_empty (judged_of subject.now)) }
{
    let initiator = delimiter_at(alloc, subject, "initiator")?;
    let terminator = delimiter_at(alloc, subject, "terminator")?;
    let separator = separator_at(alloc, subject)?;
    Ok(is_empty_text(&initiator) || is_empty_text(&terminator) || is_empty_text(&separator))
}

/// Whether the encoding of a component lacks a character of a delimiter.
pub(crate) fn is_delimiter_not_encoded(
    alloc: Global,
    subject: &Subject<'_, '_, '_>,
) -> Result<bool, AllocError>
    ensures { IfOk result (λ outside. outside ≡ delimiters.is_delimiter_not_encoded (judged_of subject.now)) }
{
    let initiator = delimiter_at(alloc, subject, "initiator")?;
    let terminator = delimiter_at(alloc, subject, "terminator")?;
    let separator = separator_at(alloc, subject)?;
    let encoding = encoding_told(property(subject.chain, "encoding"));
    Ok(
        lacks_text(encoding, &initiator)
            || lacks_text(encoding, &terminator)
            || lacks_text(encoding, &separator),
    )
}
