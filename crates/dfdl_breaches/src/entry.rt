// What is kept of an element of a schema.
use dfdl_report::Place;
use dfdl_scope::Properties;

/// What is kept of an element: its start tag, what it gives by itself, and the numbers of the format
/// that it refers to and of the default format of its document.
#[derive(Drop)]
pub(crate) struct Entry<'s> {
    pub(crate) place: Place,
    pub(crate) own: Properties<'s>,
    pub(crate) format: Option<u32>,
    pub(crate) default: Option<u32>,
}
