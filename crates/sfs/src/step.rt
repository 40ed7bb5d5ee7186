use schedule_text::Lines;

/// What an event of a schedule makes of the world.
#[derive(Debug, Drop)]
pub enum Step {
    /// It was handled, and these are its lines.
    On(Lines),
    /// It ends the schedule.
    Ended,
    /// It is excluded, and nothing changed.
    Refused,
}
