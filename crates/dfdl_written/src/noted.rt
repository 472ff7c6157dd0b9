use dfdl_breaches::{CheckList, SettingList, TestList};
use dfdl_checks::MeasureForm;
use dfdl_components::Site;
use dfdl_report::Place;
use dfdl_statements::Source;
use dfdl_value::TextValue;

/// A statement of a component as a document writes it.
#[derive(Debug, Drop)]
pub struct Noted {
    pub source: Source,
    /// The start tag of the component.
    pub place: Place,
    /// The element at which its text is written.
    pub site: Site,
}

/// What a component states: its tests of patterns, what opens instances of variables and what sets them, its tests of expressions, and the
/// expressions by which its value is calculated, for writing and where it has no representation, and how long its content is, how often it
/// occurs and which branch is taken are told, if they are.
#[derive(Debug, Drop)]
pub struct Stated {
    pub tests: TestList,
    pub settings: SettingList,
    pub checks: CheckList,
    pub output: Option<TextValue>,
    pub calculation: Option<TextValue>,
    pub measure: Option<MeasureForm>,
    pub count: Option<TextValue>,
    pub key: Option<TextValue>,
}
