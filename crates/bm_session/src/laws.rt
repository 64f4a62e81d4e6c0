//! Laws of traces, as contracts.

ghost use Rattle.bm_session.specs.Laws.{OrdersAreSmall, EventsAreNumbered, PendingFollows};

/// The number of an order that is taken, and the command that it starts or stops, are below 2^63.
/// That is so since a trace has no more than a million events.
pub fn orders_are_small()
    ensures { OrdersAreSmall }
{}

/// The event that [`Event::of_value`](crate::Event::of_value) answers is a request or a response
/// with a number below 2^63.
pub fn events_are_numbered()
    ensures { EventsAreNumbered }
{}

/// How the orders without an answer follow from those before an event. An order is appended, and an
/// answer takes out the order with its number. An `Up` that resumes nothing begins anew, and all
/// else leaves them.
pub fn pending_follows()
    ensures { PendingFollows }
{}
