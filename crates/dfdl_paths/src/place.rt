// Places that the steps of a path can reach, and where a path begins.
ghost use Rattle.std.specs.Prelude.{◌≡◌};
ghost use Rattle.dfdl_paths.specs.Elements.{is_place};
ghost use Rattle.dfdl_paths.specs.Leads.{begins};

/// A place among the elements of a document.
#[derive(Debug, Clone, Copy, PartialEq, Eq)]
pub enum Place {
    /// above the root element
    Above,
    /// at the element of this number
    At(u32),
    /// right inside of the element of this number, where a group of it stands
    Inside(u32),
}

/// What has the expression.
#[derive(Debug, Clone, Copy, PartialEq, Eq)]
pub enum Start {
    /// the element of this number
    At(u32),
    /// a group right inside of the element of this number
    Inside(u32),
}

impl Place {
    /// Whether it is the same place.
    pub fn is(self, other: Place) -> bool
        ensures { result ≡ is_place self other }
    {
        match self {
            Place::Above => other.is_above(),
            Place::At(number) => other.is_at(number),
            Place::Inside(number) => other.is_inside(number),
        }
    }

    fn is_above(self) -> bool
        ensures { result ≡ is_place Place.Above self }
    {
        match self {
            Place::Above => true,
            Place::At(_) => false,
            Place::Inside(_) => false,
        }
    }

    fn is_at(self, number: u32) -> bool
        ensures { result ≡ is_place (Place.At number) self }
    {
        match self {
            Place::Above => false,
            Place::At(other) => number == other,
            Place::Inside(_) => false,
        }
    }

    fn is_inside(self, number: u32) -> bool
        ensures { result ≡ is_place (Place.Inside number) self }
    {
        match self {
            Place::Above => false,
            Place::At(_) => false,
            Place::Inside(other) => number == other,
        }
    }
}

/// Where a path begins.
pub(crate) fn begins(start: Start, absolute: bool) -> Place
    ensures { result ≡ begins start absolute }
{
    if absolute {
        return Place::Above;
    }
    match start {
        Start::At(number) => Place::At(number),
        Start::Inside(number) => Place::Inside(number),
    }
}
