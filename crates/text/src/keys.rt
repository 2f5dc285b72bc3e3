// The keys of the lines, each with its `=`.

// The keys that are read.
pub const PROCS: [u8; 6] = *b"procs=";

pub const SPEED: [u8; 2] = *b"s=";

pub const TASKS: [u8; 6] = *b"tasks=";

pub const C: [u8; 2] = *b"c=";

pub const D: [u8; 2] = *b"d=";

pub const T: [u8; 2] = *b"t=";

pub const R: [u8; 2] = *b"r=";

pub const Y: [u8; 2] = *b"y=";

pub const Z: [u8; 2] = *b"z=";

pub const Q: [u8; 2] = *b"q=";

pub const TICKS: [u8; 6] = *b"ticks=";

pub const RELEASES: [u8; 9] = *b"releases=";

pub const AT: [u8; 3] = *b"at=";

pub const TASK: [u8; 5] = *b"task=";

pub const UNITS: [u8; 6] = *b"units=";

// The keys that are printed.
pub const ANSWER: [u8; 7] = *b"answer=";

pub const PLACE: [u8; 6] = *b"place=";

pub const DETAIL: [u8; 7] = *b"detail=";

pub const SLACK: [u8; 6] = *b"slack=";

pub const RESPONSE: [u8; 9] = *b"response=";
