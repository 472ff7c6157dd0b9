// The names of the properties, by their lengths.
ghost use Rattle.std.specs.Prelude.{◌≡◌, [], map, get_or, bytes_eq};
ghost use Rattle.std.specs.List.{list_any};
ghost use Rattle.dfdl_scope.specs.Names.{names_by_length};
ghost use Rattle.dfdl_scope.specs.Table.{is_property};

/// Whether the profile has a property of the name. Compares the name with the few that are as long
/// as it is.
pub fn is_property(name: &str) -> bool
    ensures { result ≡ is_property name.now }
{
    is_among(names_of_length(name.len()), name)
}

// The names of a length.
fn names_of_length(length: usize) -> &'static [&'static str]
    ensures { map (λ n. n.now) result.now ≡ get_or names_by_length length [] }
{
    let lists = names_by_length();
    if length >= lists.len() {
        return &[];
    }
    lists[length]
}

// The name is one of these.
fn is_among(names: &[&str], name: &str) -> bool
    ensures { result ≡ list_any (λ n. bytes_eq n name.now) (map (λ n. n.now) names.now) }
{
    for other in names {
        if *other == name {
            return true;
        }
    }
    false
}

// The names of each length.
#[tactic(auto, unfolding(crate::specs::Names::names_by_length))]
fn names_by_length() -> &'static [&'static [&'static str]]
    ensures { map (λ names. map (λ n. n.now) names.now) result.now ≡ names_by_length }
{
    &NAMES_BY_LENGTH
}

static NAMES_BY_LENGTH: [&[&str]; 30] = [
    &[],
    &[],
    &[],
    &[],
    &[],
    &[],
    &["length"],
    &["nilKind"],
    &["encoding", "bitOrder", "fillByte", "nilValue"],
    &["byteOrder", "alignment", "initiator", "separator"],
    &["lengthKind", "terminator", "ignoreCase"],
    &["lengthUnits", "leadingSkip", "occursCount", "textPadKind"],
    &["trailingSkip", "sequenceKind", "textTrimKind"],
    &["lengthPattern", "outputNewLine", "textNumberRep"],
    &[
        "representation",
        "alignmentUnits",
        "hiddenGroupRef",
        "inputValueCalc",
    ],
    &[
        "choiceBranchKey",
        "occursCountKind",
        "escapeSchemeRef",
        "binaryNumberRep",
        "outputValueCalc",
    ],
    &["prefixLengthType", "initiatedContent", "textStandardBase"],
    &[
        "separatorPosition",
        "choiceDispatchKey",
        "textNumberPattern",
    ],
    &[
        "textNumberRounding",
        "textZonedSignStyle",
        "textBooleanTrueRep",
    ],
    &[
        "encodingErrorPolicy",
        "textOutputMinLength",
        "textBooleanFalseRep",
    ],
    &["binaryBooleanTrueRep"],
    &["binaryBooleanFalseRep", "binaryPackedSignCodes"],
    &[
        "textStringPadCharacter",
        "textNumberPadCharacter",
        "textNumberRoundingMode",
    ],
    &[
        "textStringJustification",
        "textNumberJustification",
        "textBooleanPadCharacter",
        "binaryNumberCheckPolicy",
        "nilValueDelimiterPolicy",
    ],
    &["textBooleanJustification"],
    &["binaryDecimalVirtualPoint", "emptyValueDelimiterPolicy"],
    &["prefixIncludesPrefixLength", "separatorSuppressionPolicy"],
    &[],
    &["textStandardDecimalSeparator"],
    &[
        "truncateSpecifiedLengthString",
        "textStandardGroupingSeparator",
    ],
];
