use dfdl_value::TextValue;

/// How a document is named by another.
#[derive(Clone, Copy, Debug, PartialEq, Eq, Drop)]
pub enum ReferenceKind {
    Include,
    Import,
}

/// A reference to a document: the number of the element that it is, and the name of the document.
#[derive(Debug, Drop)]
pub struct DocumentReference {
    pub kind: ReferenceKind,
    pub element: u32,
    pub name: TextValue,
}
