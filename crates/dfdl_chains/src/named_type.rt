use dfdl_components::Site;
use dfdl_forms::Simple;

/// A type that is named as that of a length prefix.
#[derive(Debug, Drop)]
pub struct NamedType {
    /// The simple type that it comes to, if that is carried.
    pub simple: Option<Simple>,
    /// The simple types that it comes of, as far as documents define them, itself first.
    pub sites: Vec<Site>,
}
