//! The names with which lines begin, and the words between their numbers.

pub const DO: &[u8] = b"do";

pub const ARRIVE: &[u8] = b"arrive";

pub const LOST: &[u8] = b"lost";

pub const DOWN: &[u8] = b"down";

pub const STOP: &[u8] = b"stop";

pub const FAULT: &[u8] = b"fault";

pub const FULL: &[u8] = b"full";

pub const SPENT: &[u8] = b"spent";

pub const DAMAGED: &[u8] = b"damaged";

pub const POINT: &[u8] = b"point";

pub const ARRIVAL: &[u8] = b"arrival";

pub const MADE: &[u8] = b"made";

pub const SENT: &[u8] = b"sent";

pub const REPLY: &[u8] = b"reply";

pub const AT: &[u8] = b"at";

pub const RETRY: &[u8] = b"retry";

pub const BACKUP: &[u8] = b"backup";

pub const MISMATCH: &[u8] = b"mismatch";

pub const LOCKED: &[u8] = b"locked";

pub const HELD: &[u8] = b"held";

pub const FORCED: &[u8] = b"forced";

pub const UNREACHED: &[u8] = b"unreached";

pub const VAULT: &[u8] = b"vault";

pub const DROPPED: &[u8] = b"dropped";

pub const SILENT: &[u8] = b"silent";

pub const CUT: &[u8] = b"cut";

pub const DONE: &[u8] = b"done";

pub const MOUNTED: &[u8] = b"mounted";

pub const FAILED: &[u8] = b"failed";

pub const BAD: &[u8] = b"bad";

pub const REFUSED: &[u8] = b"refused";

pub const END: &[u8] = b"end";

pub const NODE: &[u8] = b"node";

pub const MEMORY: &[u8] = b"memory";

pub const MANAGER: &[u8] = b"manager";

pub const MGR: &[u8] = b"mgr";

pub const PREPARE: &[u8] = b"prepare";

pub const VOTE: &[u8] = b"vote";

pub const OK: &[u8] = b"ok";

pub const DECIDE: &[u8] = b"decide";

pub const COMMIT: &[u8] = b"commit";

pub const ABORT: &[u8] = b"abort";

pub const FORGET: &[u8] = b"forget";

pub const LIST: &[u8] = b"list";

pub const KEPT: &[u8] = b"kept";

pub const ASK: &[u8] = b"ask";

pub const ANSWER: &[u8] = b"answer";

pub const HOLD: &[u8] = b"hold";

pub const PAST: &[u8] = b"past";

pub const RELEASE: &[u8] = b"release";

pub const DROP: &[u8] = b"drop";

pub const READ: &[u8] = b"read";

pub const PIECE: &[u8] = b"piece";

pub const NONE: &[u8] = b"none";

pub const FILE: &[u8] = b"file";

pub const NAME: &[u8] = b"name";

pub const DATA: &[u8] = b"data";

pub const REG: &[u8] = b"reg";

pub const DIR: &[u8] = b"dir";

pub const LNK: &[u8] = b"lnk";
