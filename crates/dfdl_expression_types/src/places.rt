// Where paths lead.
ghost use Rattle.std.specs.Prelude.{◌≡◌, ◌++◌, ◌∷◌, [], Some, IfOk, OnOk};
ghost use Rattle.dfdl_expression_types.specs.Declarations as declared;
ghost use Rattle.dfdl_expression_types.specs.Paths as paths;

use crate::statics::{Place, Statics};
use crate::types::{Types, ValueType};
use std::alloc::{AllocError, Global};
use std::marker::Model;

/// Places to which a path leads. A contract sees them as their list.
#[derive(Debug, Drop)]
pub(crate) struct PlaceList {
    places: Vec<Place>,
}

impl Model for PlaceList {
    ghost use Rattle.std.specs.Prelude.{List};
    ghost use Rattle.dfdl_expression_types.specs.declared.statics.Place.{Place as PlaceOf};

    ghost Value = { List PlaceOf };

    ghost view = { λ l. l.places.items };
}

impl PlaceList {
    pub(crate) fn new(alloc: Global) -> PlaceList
        ensures { result ≡ [] }
    {
        PlaceList {
            places: Vec::new(alloc),
        }
    }

    /// The list of one place.
    pub(crate) fn of(alloc: Global, place: Place) -> Result<PlaceList, AllocError>
        ensures { IfOk result (λ l. l ≡ place ∷ []) }
    {
        let mut list = PlaceList::new(alloc);
        list.push(place)?;
        Ok(list)
    }

    fn push(&mut self, place: Place) -> Result<(), AllocError>
        ensures { OnOk result (self.new ≡ self.old ++ place ∷ []) }
    {
        self.places.push(place)?;
        Ok(())
    }

    pub(crate) fn as_slice(&self) -> &[Place]
        ensures { result.now ≡ self.now }
    {
        self.places.as_slice()
    }
}

/// The elements to which a step by name may lead from a place.
fn below<'s>(statics: &Statics<'s>, place: Place) -> &'s [usize]
    ensures { result.now ≡ paths.below statics.now place }
{
    match place {
        Place::Above => &[0],
        Place::At(number) => match statics.elements.get(number) {
            Some(element) => element.children.as_slice(),
            None => &[],
        },
        Place::Inside(_) => &[],
    }
}

/// Whether the element of a number has the local name of this number, if there is one.
fn is_named(statics: &Statics<'_>, name: Option<u32>, number: usize) -> bool
    ensures { result ≡ paths.is_named statics.now name number }
{
    match (name, statics.elements.get(number)) {
        (Some(name), Some(element)) => element.name == name,
        _ => false,
    }
}

/// Adds those of some elements that have this name.
fn add_named(
    found: &mut PlaceList,
    statics: &Statics<'_>,
    name: Option<u32>,
    numbers: &[usize],
) -> Result<(), AllocError>
    ensures { OnOk result (found.new ≡ found.old ++ paths.named_places statics.now name numbers.now) }
{
    for number in numbers {
        if is_named(statics, name, *number) {
            found.push(Place::At(*number))?;
        }
    }
    Ok(())
}

/// Where a step by name leads.
pub(crate) fn children_of(
    alloc: Global,
    statics: &Statics<'_>,
    name: Option<u32>,
    places: &[Place],
) -> Result<PlaceList, AllocError>
    ensures { IfOk result (λ l. l ≡ paths.children_of statics.now name places.now) }
{
    let mut found = PlaceList::new(alloc);
    for place in places {
        add_named(&mut found, statics, name, below(statics, *place))?;
    }
    Ok(found)
}

/// The element around a place.
fn around(statics: &Statics<'_>, place: Place) -> Option<usize>
    ensures { result ≡ paths.around statics.now place }
{
    match place {
        Place::Above => None,
        Place::At(number) => match statics.elements.get(number) {
            Some(element) => element.parent,
            None => None,
        },
        Place::Inside(number) => Some(number),
    }
}

/// Whether a number is the one before it.
fn is_same(before: Option<usize>, number: usize) -> bool
    ensures { result ≡ paths.is_same before number }
{
    match before {
        Some(before) => before == number,
        None => false,
    }
}

/// Where `..` leads.
pub(crate) fn parents_of(
    alloc: Global,
    statics: &Statics<'_>,
    places: &[Place],
) -> Result<PlaceList, AllocError>
    ensures { IfOk result (λ l. l ≡ paths.parents_of statics.now places.now) }
{
    let mut found = PlaceList::new(alloc);
    let mut before = None;
    for place in places {
        if let Some(number) = around(statics, *place) {
            if !is_same(before, number) {
                found.push(Place::At(number))?;
                before = Some(number);
            }
        }
    }
    Ok(found)
}

/// Where `.` stays.
pub(crate) fn elements_of(alloc: Global, places: &[Place]) -> Result<PlaceList, AllocError>
    ensures { IfOk result (λ l. l ≡ paths.elements_of places.now) }
{
    let mut found = PlaceList::new(alloc);
    for place in places {
        if let Place::At(number) = *place {
            found.push(Place::At(number))?;
        }
    }
    Ok(found)
}

/// The types of an element.
fn types_at(statics: &Statics<'_>, place: Place) -> Types
    ensures { result ≡ paths.types_at statics.now place }
{
    match place {
        Place::Above | Place::Inside(_) => Types::every(),
        Place::At(number) => match statics.elements.get(number) {
            Some(element) => match element.simple {
                Some(simple) => Types::only(ValueType::of(simple)),
                None => Types::every(),
            },
            None => Types::every(),
        },
    }
}

/// The types of a path that leads to these places.
pub(crate) fn path_types(statics: &Statics<'_>, places: &[Place]) -> Types
    ensures { result ≡ paths.path_types statics.now places.now }
{
    if is_nowhere(places) {
        return Types::every();
    }
    types_of_places(statics, places)
}

/// Whether there is no place.
pub(crate) fn is_nowhere(places: &[Place]) -> bool
    ensures { result ≡ paths.is_nowhere places.now }
{
    match places {
        [] => true,
        [_, ..] => false,
    }
}

/// The types of some places.
fn types_of_places(statics: &Statics<'_>, places: &[Place]) -> Types
    ensures { result ≡ paths.types_of_places statics.now places.now }
{
    let mut types = Types::none();
    for place in places {
        types = types.either(types_at(statics, *place));
    }
    types
}
