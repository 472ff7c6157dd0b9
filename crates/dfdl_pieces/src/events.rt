// What the next event says of an element.
ghost use Rattle.std.specs.Prelude.{◌≡◌, Option, drop, option_map, slice_get};
ghost use Rattle.dfdl_terms.specs.declared.event.Event.{Event as AnyEvent};
ghost use Rattle.dfdl_pieces.specs.Laying as lays;
ghost use Rattle.dfdl_pieces.specs.Laying.{Laying, Takes, laid};

use dfdl_terms::{Event, RowId};
use dfdl_value::Value;

// The event at this place, if there is one; the place is then that of the one behind it.
pub(crate) fn next_event<'e>(events: &'e [Event], at: &mut usize) -> Option<&'e Event>
    ensures takes { (more : Option AnyEvent → Laying) → laid (Takes more) (drop at.old events.now)
        ≡ laid (more (option_map (λ event. event.now) result)) (drop at.new events.now) }
    ensures one { option_map (λ event. event.now) result ≡ slice_get events.now at.old }
{
    match events.get(*at) {
        Some(event) => {
            *at += 1;
            Some(event)
        }
        None => None,
    }
}

// The value that an event gives the simple element of this row.
pub(crate) fn value_for<'e>(event: Option<&'e Event>, row: RowId) -> Option<&'e Value>
    ensures { option_map (λ value. value.now) result ≡ lays.value_for row (option_map (λ event. event.now) event.entry) }
{
    match event {
        Some(Event::Simple { elem, value }) if *elem == row => Some(value),
        _ => None,
    }
}

// Whether an event begins the complex element of this row.
pub(crate) fn begins(event: Option<&Event>, row: RowId) -> bool
    ensures { result ≡ lays.begins row (option_map (λ event. event.now) event.entry) }
{
    match event {
        Some(Event::Start { elem }) => *elem == row,
        _ => false,
    }
}
