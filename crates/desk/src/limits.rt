// The numbers of document 02, 2.11.
use records::limits::{LEAD_BYTES, PROBLEM_HEADER, TABLE};

// The places of the desk.
pub const PLACES: usize = 16;

// The largest problem of kind 1, 16,394 bytes; place i keeps its problem at 16,394 i of the lent memory.
pub const PROBLEM_MOST: usize = PROBLEM_HEADER + 2 * LEAD_BYTES * TABLE;

pub const MEMORY: usize = PLACES * PROBLEM_MOST;

// The last ticket, 2⁶⁴ − 1.
pub const LAST_TICKET: u64 = u64::MAX;
