//! Laws of logs and boot numbers: each holds of every content of a disk.
ghost use Rattle.gate_log.specs.Laws.{LogsHaveOneList, DamagedLogsHaveNone, DisksHaveOneBoot};

/// A log has one list of entries, so what is found by loading is all that can be found.
pub fn logs_have_one_list()
    ensures { LogsHaveOneList }
{}

/// A log with a damaged gate has no list of entries, so it is refused just where it has to be.
pub fn damaged_logs_have_none()
    ensures { DamagedLogsHaveNone }
{}

/// A disk has one boot number.
pub fn disks_have_one_boot()
    ensures { DisksHaveOneBoot }
{}
