//! Laws of the grammar: each holds of all events and all texts.
ghost use Rattle.event_text.specs.Laws.{EventsAreReadExactly, EventsHaveTheirOwnSpellings, EventsAreLines};

/// Reading a line of a schedule takes exactly the spellings of events, each for its event.
pub fn events_are_read_exactly()
    ensures { EventsAreReadExactly }
{}

/// Events of the same spelling are equal.
pub fn events_have_their_own_spellings()
    ensures { EventsHaveTheirOwnSpellings }
{}

/// The spelling of an event has no newline and at most [`MAX_LINE_BYTES`](crate::MAX_LINE_BYTES) bytes.
pub fn events_are_lines()
    ensures { EventsAreLines }
{}
