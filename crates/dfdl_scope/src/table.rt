// The properties of the profile.
ghost use Rattle.std.specs.Prelude.{◌≡◌, map, option_map};
ghost use Rattle.dfdl_scope.specs.Table.{property_table, row_named};
ghost use Rattle.dfdl_scope.specs.TableShown.{row_shown};

use crate::row::{Absence, Form, PropertyRow, Values};

/// The properties in their order.
#[tactic(auto, unfolding(crate::specs::Table::property_table))]
pub fn property_rows() -> &'static [PropertyRow]
    ensures { map row_shown result.now ≡ property_table }
{
    &PROPERTIES
}

static PROPERTIES: [PropertyRow; 63] = [
    PropertyRow {
        name: "representation",
        values: Values::Words(&["text", "binary"]),
        absent: Absence::Missing,
    },
    PropertyRow {
        name: "encoding",
        values: Values::Form(Form::Encoding),
        absent: Absence::Missing,
    },
    PropertyRow {
        name: "encodingErrorPolicy",
        values: Values::Words(&["error", "replace"]),
        absent: Absence::Value("replace"),
    },
    PropertyRow {
        name: "byteOrder",
        values: Values::Words(&["bigEndian", "littleEndian"]),
        absent: Absence::Missing,
    },
    PropertyRow {
        name: "bitOrder",
        values: Values::Words(&["mostSignificantBitFirst", "leastSignificantBitFirst"]),
        absent: Absence::Value("mostSignificantBitFirst"),
    },
    PropertyRow {
        name: "lengthKind",
        values: Values::Words(&["explicit", "implicit", "prefixed", "delimited", "pattern"]),
        absent: Absence::Missing,
    },
    PropertyRow {
        name: "length",
        values: Values::Form(Form::NumberOrExpression),
        absent: Absence::Missing,
    },
    PropertyRow {
        name: "lengthUnits",
        values: Values::Words(&["bits", "bytes", "characters"]),
        absent: Absence::Value("bytes"),
    },
    PropertyRow {
        name: "lengthPattern",
        values: Values::Form(Form::Pattern),
        absent: Absence::Missing,
    },
    PropertyRow {
        name: "prefixLengthType",
        values: Values::Form(Form::Name),
        absent: Absence::Missing,
    },
    PropertyRow {
        name: "prefixIncludesPrefixLength",
        values: Values::Words(&["yes", "no"]),
        absent: Absence::Value("no"),
    },
    PropertyRow {
        name: "alignment",
        values: Values::Form(Form::Alignment),
        absent: Absence::Value("1"),
    },
    PropertyRow {
        name: "alignmentUnits",
        values: Values::Words(&["bits", "bytes"]),
        absent: Absence::Value("bits"),
    },
    PropertyRow {
        name: "leadingSkip",
        values: Values::Range {
            least: 0,
            most: 65536,
        },
        absent: Absence::Value("0"),
    },
    PropertyRow {
        name: "trailingSkip",
        values: Values::Range {
            least: 0,
            most: 65536,
        },
        absent: Absence::Value("0"),
    },
    PropertyRow {
        name: "fillByte",
        values: Values::Form(Form::FillByte),
        absent: Absence::Value("%#r00;"),
    },
    PropertyRow {
        name: "initiator",
        values: Values::Form(Form::LiteralsOrEmpty),
        absent: Absence::Value(""),
    },
    PropertyRow {
        name: "terminator",
        values: Values::Form(Form::LiteralsOrEmpty),
        absent: Absence::Value(""),
    },
    PropertyRow {
        name: "separator",
        values: Values::Form(Form::LiteralsOrEmpty),
        absent: Absence::Value(""),
    },
    PropertyRow {
        name: "separatorPosition",
        values: Values::Words(&["infix", "prefix", "postfix"]),
        absent: Absence::Value("infix"),
    },
    PropertyRow {
        name: "separatorSuppressionPolicy",
        values: Values::Words(&["never", "trailingEmpty", "trailingEmptyStrict", "anyEmpty"]),
        absent: Absence::Value("anyEmpty"),
    },
    PropertyRow {
        name: "initiatedContent",
        values: Values::Words(&["yes", "no"]),
        absent: Absence::Value("no"),
    },
    PropertyRow {
        name: "ignoreCase",
        values: Values::Words(&["yes", "no"]),
        absent: Absence::Value("no"),
    },
    PropertyRow {
        name: "outputNewLine",
        values: Values::Form(Form::NewLine),
        absent: Absence::Value("%LF;"),
    },
    PropertyRow {
        name: "sequenceKind",
        values: Values::Words(&["ordered"]),
        absent: Absence::Value("ordered"),
    },
    PropertyRow {
        name: "hiddenGroupRef",
        values: Values::Form(Form::Name),
        absent: Absence::Nothing,
    },
    PropertyRow {
        name: "choiceDispatchKey",
        values: Values::Form(Form::Expression),
        absent: Absence::Nothing,
    },
    PropertyRow {
        name: "choiceBranchKey",
        values: Values::Form(Form::Literals),
        absent: Absence::MissingKey,
    },
    PropertyRow {
        name: "occursCountKind",
        values: Values::Words(&["fixed", "expression", "implicit", "parsed"]),
        absent: Absence::Value("implicit"),
    },
    PropertyRow {
        name: "occursCount",
        values: Values::Form(Form::Expression),
        absent: Absence::Missing,
    },
    PropertyRow {
        name: "textTrimKind",
        values: Values::Words(&["none", "padChar"]),
        absent: Absence::Value("none"),
    },
    PropertyRow {
        name: "textPadKind",
        values: Values::Words(&["none", "padChar"]),
        absent: Absence::Value("none"),
    },
    PropertyRow {
        name: "textStringJustification",
        values: Values::Words(&["left", "right", "center"]),
        absent: Absence::Value("left"),
    },
    PropertyRow {
        name: "textBooleanJustification",
        values: Values::Words(&["left", "right", "center"]),
        absent: Absence::Value("left"),
    },
    PropertyRow {
        name: "textNumberJustification",
        values: Values::Words(&["left", "right", "center"]),
        absent: Absence::Value("right"),
    },
    PropertyRow {
        name: "textStringPadCharacter",
        values: Values::Form(Form::Character),
        absent: Absence::Value("%SP;"),
    },
    PropertyRow {
        name: "textBooleanPadCharacter",
        values: Values::Form(Form::Character),
        absent: Absence::Value("%SP;"),
    },
    PropertyRow {
        name: "textNumberPadCharacter",
        values: Values::Form(Form::Character),
        absent: Absence::Value("%SP;"),
    },
    PropertyRow {
        name: "textOutputMinLength",
        values: Values::Form(Form::Number),
        absent: Absence::Value("0"),
    },
    PropertyRow {
        name: "truncateSpecifiedLengthString",
        values: Values::Words(&["yes", "no"]),
        absent: Absence::Value("no"),
    },
    PropertyRow {
        name: "escapeSchemeRef",
        values: Values::Form(Form::NameOrEmpty),
        absent: Absence::Value(""),
    },
    PropertyRow {
        name: "textNumberRep",
        values: Values::Words(&["standard", "zoned"]),
        absent: Absence::Value("standard"),
    },
    PropertyRow {
        name: "textNumberPattern",
        values: Values::Form(Form::NumberPattern),
        absent: Absence::Missing,
    },
    PropertyRow {
        name: "textStandardBase",
        values: Values::Words(&["2", "8", "10", "16"]),
        absent: Absence::Value("10"),
    },
    PropertyRow {
        name: "textStandardDecimalSeparator",
        values: Values::Form(Form::Character),
        absent: Absence::Value("."),
    },
    PropertyRow {
        name: "textStandardGroupingSeparator",
        values: Values::Form(Form::Character),
        absent: Absence::Value(","),
    },
    PropertyRow {
        name: "textNumberRounding",
        values: Values::Words(&["pattern", "explicit"]),
        absent: Absence::Value("pattern"),
    },
    PropertyRow {
        name: "textNumberRoundingMode",
        values: Values::Words(&[
            "roundCeiling",
            "roundFloor",
            "roundDown",
            "roundUp",
            "roundHalfEven",
            "roundHalfDown",
            "roundHalfUp",
            "roundUnnecessary",
        ]),
        absent: Absence::Value("roundHalfEven"),
    },
    PropertyRow {
        name: "textZonedSignStyle",
        values: Values::Words(&["asciiStandard", "asciiTranslatedEBCDIC"]),
        absent: Absence::Value("asciiStandard"),
    },
    PropertyRow {
        name: "textBooleanTrueRep",
        values: Values::Form(Form::Literals),
        absent: Absence::Value("true"),
    },
    PropertyRow {
        name: "textBooleanFalseRep",
        values: Values::Form(Form::Literals),
        absent: Absence::Value("false"),
    },
    PropertyRow {
        name: "binaryBooleanTrueRep",
        values: Values::Form(Form::NumberOrEmpty),
        absent: Absence::Value(""),
    },
    PropertyRow {
        name: "binaryBooleanFalseRep",
        values: Values::Form(Form::NumberOrEmpty),
        absent: Absence::Value("0"),
    },
    PropertyRow {
        name: "binaryNumberRep",
        values: Values::Words(&["binary", "packed", "bcd", "ibm4690Packed"]),
        absent: Absence::Missing,
    },
    PropertyRow {
        name: "binaryPackedSignCodes",
        values: Values::Form(Form::SignCodes),
        absent: Absence::Value("C D F C"),
    },
    PropertyRow {
        name: "binaryNumberCheckPolicy",
        values: Values::Words(&["strict", "lax"]),
        absent: Absence::Value("lax"),
    },
    PropertyRow {
        name: "binaryDecimalVirtualPoint",
        values: Values::Range { least: 0, most: 38 },
        absent: Absence::Value("0"),
    },
    PropertyRow {
        name: "nilKind",
        values: Values::Words(&["literalValue", "literalCharacter", "logicalValue"]),
        absent: Absence::Missing,
    },
    PropertyRow {
        name: "nilValue",
        values: Values::Form(Form::Literals),
        absent: Absence::Missing,
    },
    PropertyRow {
        name: "nilValueDelimiterPolicy",
        values: Values::Words(&["none", "initiator", "terminator", "both"]),
        absent: Absence::Value("both"),
    },
    PropertyRow {
        name: "emptyValueDelimiterPolicy",
        values: Values::Words(&["none", "initiator", "terminator", "both"]),
        absent: Absence::Value("both"),
    },
    PropertyRow {
        name: "inputValueCalc",
        values: Values::Form(Form::Expression),
        absent: Absence::Nothing,
    },
    PropertyRow {
        name: "outputValueCalc",
        values: Values::Form(Form::Expression),
        absent: Absence::Nothing,
    },
];

/// The property of a name, where the profile has one.
pub fn property_row(name: &str) -> Option<&'static PropertyRow>
    ensures { option_map (λ row. row_shown row.now) result ≡ row_named property_table name.now }
{
    row_among(property_rows(), name)
}

/// The first of these properties that has the name.
fn row_among<'r>(rows: &'r [PropertyRow], name: &str) -> Option<&'r PropertyRow>
    ensures { option_map (λ row. row_shown row.now) result
        ≡ row_named (map row_shown rows.now) name.now }
{
    for row in rows {
        if row.name == name {
            return Some(row);
        }
    }
    None
}
