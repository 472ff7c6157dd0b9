use crate::Site;

/// What a name names.
#[derive(Debug, Clone, Copy, PartialEq, Eq)]
pub enum Named {
    /// A global component.
    Component(Site),
    /// A simple type of XML Schema's that is carried.
    Carried,
    /// A simple type of XML Schema's that is not carried.
    NotCarried,
}
