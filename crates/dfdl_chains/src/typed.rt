use dfdl_components::Site;
use dfdl_forms::Simple;

/// A type that a schema names.
#[derive(Debug, Clone, Copy, PartialEq, Eq)]
pub enum Typed {
    /// A simple type of XML Schema's that is carried.
    Carried(Simple),
    /// A simple type of XML Schema's that is not carried.
    NotCarried,
    /// A type that a document defines.
    Defined(Site),
}
