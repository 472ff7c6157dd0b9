/// The kinds of global components. Complex and simple types are of one kind, so that two of them can't
/// have one name.
#[derive(Debug, Clone, Copy, PartialEq, Eq)]
pub enum ComponentKind {
    Element,
    Type,
    Group,
    Format,
    EscapeScheme,
    Variable,
}
