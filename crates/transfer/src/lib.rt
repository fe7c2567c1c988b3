// Block transfers over the lent crate memory, a module each. A cycle is one command. Scan, Repeat and Stop read into a lent buffer: a word is stored when Q = 1,
// and buffer words past those stored keep their contents. Put writes words that are offered, and leaves them as they are. Repeat and Stop end where X is 0;
// Scan and Put do not look at it.
#![tactic(auto)]

pub mod put;
pub mod repeat;
pub mod scan;
pub mod stop;

// What a transfer answers: how it ended, how many words it stored (a put: used up), how many cycles it made. The end is a number, no enum: the theorems on
// steps and the answers' words, in the crates above, speak of 1, 2 and 3.
#[derive(Clone, Copy)]
pub struct Transfer {
    pub end: u32,
    pub words: u32,
    pub cycles: u32,
}

// End 1: the limit is reached.
pub const LIMIT_REACHED: u32 = 1;

// End 2: the transfer is over with fewer words: past `to`, no try left, or Q = 0.
pub const CUT_SHORT: u32 = 2;

// End 3: the command of a Repeat or a Stop is not accepted.
pub const NOT_ACCEPTED: u32 = 3;

// The last subaddress of a station.
const LAST_SUBADDRESS: u32 = 15;
