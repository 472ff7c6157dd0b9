use crate::malformed::Malformed;
use dfdl_components::Site;
use dfdl_forms::Simple;
use dfdl_value::{TextValue, Value};

/// A variable that a document defines.
#[derive(Debug, Drop)]
pub struct Declared {
    /// Its local name, empty where none is given.
    pub name: TextValue,
    /// The element that defines it.
    pub site: Site,
    /// Its simple type, where that is carried.
    pub simple: Option<Simple>,
    /// Its value may be given from outside.
    pub is_external: bool,
    /// The value that it begins with, its default, if it has one; or what is wrong with the definition.
    pub start: Result<Option<Value>, Malformed>,
}
