// The limits and sizes of document 01, each under a name of its own, as the model's Limits.antt has them.
#![tactic(auto)]

// "a count byte 0 to 32"
pub const NODE_LIMIT: u8 = 32;

// "one quota byte each, 0 to 8"; "the quotas of one side sum to at most 64"
pub const QUOTA_LIMIT: u8 = 8;

pub const QUOTA_SUM_LIMIT: u8 = 64;

// "a two-byte count of all entries, low byte first, at most 1,024"
pub const ENTRY_LIMIT: usize = 1024;

// a plan's "count byte 0 to 64"
pub const PLAN_LIMIT: usize = 64;

// "an empty place has rank 33"
pub const EMPTY_RANK: usize = 33;

// W-204: "A list may now be longer than the other side's count, but has at most 32 entries"; "a shift byte, 1 to 3"
pub const LIST_LIMIT: u8 = 32;

pub const SHIFT_LIMIT: u8 = 3;

// an entry's bytes: number, shift; a pair's: surveyor, stand, shift; a diary record's: fate, surveyor, stand, shift, rule
pub const ENTRY_WIDTH: usize = 2;

pub const PAIR_WIDTH: usize = 3;

pub const RECORD_WIDTH: usize = 5;

// W-204: "Plans of up to 64 entries now need 193 bytes, rosters 4,262"; "the diary and the left pairs 1,024 entries each", a pair left being
// three bytes
pub const PLAN_SIZE: usize = 193;

pub const ROSTER_SIZE: usize = 4262;

pub const DIARY_SIZE: usize = 1024;

pub const LEFT_SIZE: usize = 3072;

// W-209: "over days 1 to 9: one day byte for each entry in the plan's order, in a buffer of 64 bytes"
pub const LAST_DAY: u8 = 9;

pub const DAY_SIZE: usize = 64;

// W-208: "Each vote's pairings need a buffer of 256 bytes"
pub const PAIRING_SIZE: usize = 256;

// W-211: "a rank byte for each range, in a buffer of 2,048 bytes"; "high above 32" is refused
pub const CHOICE_SIZE: usize = 2048;

pub const RANK_LIMIT: u8 = 32;

// the size of a flat diary, five numbers a record
pub const FLAT_SIZE: usize = 5120;

// W-214: "Either buffer needs 4,295 bytes": a route's count and 32 numbers, and the longest roster
pub const STORED_SIZE: usize = 4295;

// W-204: "the program reads at most 4,263"
pub const INPUT_SIZE: usize = 4263;

// the size of the program's text: 1,024 diary lines and the longest ending
pub const TEXT_SIZE: usize = 43023;
