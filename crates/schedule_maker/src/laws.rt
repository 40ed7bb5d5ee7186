//! That made schedules can be written.
ghost use Rattle.schedule_maker.specs.Laws.{SchedulesCanBeWritten};

/// Each event of a made schedule has a spelling.
pub fn schedules_can_be_written()
    ensures { SchedulesCanBeWritten }
{}
