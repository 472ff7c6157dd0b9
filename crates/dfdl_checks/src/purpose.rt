/// What the rows of a schema are made for.
#[derive(Debug, Clone, Copy, PartialEq, Eq)]
pub enum Purpose {
    Parsing,
    Unparsing,
}
