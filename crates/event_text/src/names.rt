//! The names with which lines begin, and the words between their numbers.

pub const CLUSTER: &[u8] = b"cluster";

pub const ARRIVE: &[u8] = b"arrive";

pub const DELIVER: &[u8] = b"deliver";

pub const STOP: &[u8] = b"stop";

pub const DRAIN: &[u8] = b"drain";

pub const LOSE: &[u8] = b"lose";

pub const GIVE_UP: &[u8] = b"giveup";

pub const RESEND: &[u8] = b"resend";

pub const CRASH: &[u8] = b"crash";

pub const START: &[u8] = b"start";

pub const NODE: &[u8] = b"node";

pub const MEMORY: &[u8] = b"memory";

pub const MANAGER: &[u8] = b"manager";

pub const OLD: &[u8] = b"old";

pub const NEW: &[u8] = b"new";

pub const FILL: &[u8] = b"fill";

pub const SWEEP: &[u8] = b"sweep";

pub const CHECKPOINT: &[u8] = b"checkpoint";

pub const BACKUP: &[u8] = b"backup";

pub const SHOW: &[u8] = b"show";

pub const END: &[u8] = b"end";
