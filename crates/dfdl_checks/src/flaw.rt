/// What can be wrong with one property that applies to a component.
#[derive(Debug, Clone, Copy, PartialEq, Eq)]
pub(crate) enum Flaw {
    /// Its value is one of the profile, and a form of it that is built later.
    Unbuilt,
    /// It is given nowhere, and no value stands in its place.
    Missing,
    /// Its value is none of the profile.
    NotCarried,
    /// It is an expression where no expression may stand.
    Expression,
}
