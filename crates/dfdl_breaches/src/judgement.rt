// What is told of a component.
use crate::check_list::CheckList;
use crate::setting_list::SettingList;
use crate::test_list::TestList;
use dfdl_checks::{Breach, KeyList, Markup, MeasureForm, OtherRepresentations, PrefixForm};
use dfdl_components::Site;
use dfdl_forms::Simple;
use dfdl_terms::{Framing, Occurs, Primitive, Writing};
use dfdl_value::TextValue;

/// What is told of an element of a schema's documents.
#[derive(Debug, Drop)]
pub struct Judgement {
    /// The first rule that the component breaks, or else the type of its length prefix.
    pub breach: Option<Breach>,
    /// How its values lie in the data, where they are of a type and of a size that are built.
    pub primitive: Option<Primitive>,
    /// The type of its values, where it is one that is carried; for unparsing none, since no expression asks for it.
    pub simple: Option<Simple>,
    /// The fill around its content.
    pub framing: Framing,
    /// Its initiator, its terminator and its separator.
    pub markup: Markup,
    /// How many bits the box has around the content of a complex element with a constant length of its own.
    pub size: Option<u64>,
    /// How its length prefix lies in the data, if it has one.
    pub prefix: Option<PrefixForm>,
    /// Which representations of it are tried before its normal one, and how their content lies in the data.
    pub others: OtherRepresentations,
    /// How often it occurs where it stands.
    pub occurs: Occurs,
    /// Those of its occurrences that are tried are of occursCountKind parsed.
    pub is_parsed: bool,
    /// The content of it, a sequence or a choice, is initiated ('Sequence Groups').
    pub initiates: bool,
    /// Its tests of patterns, in their order ('DFDL Schema Component Model').
    pub tests: TestList,
    /// Its tests of expressions, in their order.
    pub checks: CheckList,
    /// The expression by which its value is calculated for writing, as it is written, if it is ('Calculated Values').
    pub output: Option<TextValue>,
    /// What opens instances of variables at it, and then what sets variables, each in its order ('Syntax of DFDL Annotation Elements').
    pub settings: SettingList,
    /// The expression by which its value is calculated, as it is written, if it is ('Calculated Values').
    pub calculation: Option<TextValue>,
    /// By which expression its length is told, and what that counts ('Lengths').
    pub measure: Option<MeasureForm>,
    /// The expression that tells how often it occurs, as it is written, if it does ('Arrays and Optional Elements').
    pub count: Option<TextValue>,
    /// The expression that tells the key by which its branch is taken, as it is written, where it is a choice by a key ('Choices').
    pub key: Option<TextValue>,
    /// Its keys, where it is a branch of such a choice.
    pub keys: KeyList,
    /// How it is written, beside what its rows say ('Framing', 'Simple Types').
    pub writing: Writing,
    /// It stands for the group of this sequence or choice, whose elements the infoset doesn't have ('Sequence Groups').
    pub hidden: Option<Site>,
}
