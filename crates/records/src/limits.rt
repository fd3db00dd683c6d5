// The numbers of documents 01 and 02 that the code uses, each once; those that follow from others are derived. The definitions
// have them in `Limits`.

// The highest n and m.
pub const HIGHEST_N: usize = 31;

pub const HIGHEST_M: usize = 63;

// Tables: the columns of a row, 32, the rows, 64, the elements of a table, and those of a table of arcs between variables.
pub const STRIDE: usize = HIGHEST_N + 1;

pub const ROWS: usize = HIGHEST_M + 1;

pub const TABLE: usize = ROWS * STRIDE;

pub const ARCS: usize = STRIDE * STRIDE;

// The columns of a row in 32 and in 64 bits.
pub const STRIDE_32: u32 = STRIDE as u32;

pub const STRIDE_64: u64 = STRIDE as u64;

// The limits of leads, of spans, two leads for each of 32 variables, and of stamps.
pub const LEAD_LIMIT: u64 = 20160;

pub const SPAN_LIMIT: u64 = 2 * STRIDE_64 * LEAD_LIMIT;

pub const STAMP_LIMIT: u64 = 6000000;

// The most trials that an answer takes.
pub const MOST_TRIALS: u64 = 24;

// The trials counted for none and for bottomless: the outer ones, with which those for least begin.
pub const TRIALS_INFEASIBLE: u64 = 1;

pub const TRIALS_UNBOUNDED: u64 = 2;

// The numbers that a byte can be; the offset number of 0, and the first number that 4 bytes do not hold.
pub const BYTE: u64 = 256;

pub const OFFSET: u64 = 2147483648;

pub const FULL: u64 = 2 * OFFSET;

// The offset number of 0 in 32 bits.
pub const OFFSET_32: u32 = OFFSET as u32;

// The sizes of a length field, of the fields of 2 bytes, and of a lead, stamp or span.
pub const LENGTH_BYTES: usize = 4;

pub const SHORT_BYTES: usize = 2;

pub const LEAD_BYTES: usize = 4;

// Places in a record's header: the length, the kind, n; then m of a problem, or class, span and start of an answer.
pub const LENGTH_PLACE: usize = 0;

pub const KIND_PLACE: usize = LENGTH_PLACE + LENGTH_BYTES;

pub const N_PLACE: usize = KIND_PLACE + SHORT_BYTES;

pub const M_PLACE: usize = N_PLACE + SHORT_BYTES;

pub const CLASS_PLACE: usize = N_PLACE + SHORT_BYTES;

pub const SPAN_PLACE: usize = CLASS_PLACE + SHORT_BYTES;

pub const START_PLACE: usize = SPAN_PLACE + LEAD_BYTES;

// The sizes of a problem's header and of an answer's, and of the largest answer record.
pub const PROBLEM_HEADER: usize = M_PLACE + SHORT_BYTES;

// Document 02, 2.1: where a record of several questions has their count, the size of its header, and the most questions.
pub const COUNT_PLACE: usize = M_PLACE + SHORT_BYTES;

pub const QUESTIONS_HEADER: usize = COUNT_PLACE + SHORT_BYTES;

pub const MOST_QUESTIONS: usize = 8;

// The states of the rules of a problem of kind 5 stand behind m; the most bytes of a problem of kind 1, 16,394.
pub const STATES_PLACE: usize = M_PLACE + SHORT_BYTES;

pub const PROBLEM_MOST: usize = PROBLEM_HEADER + 2 * LEAD_BYTES * TABLE;

pub const ANSWER_HEADER: usize = START_PLACE + SHORT_BYTES;

pub const ANSWER_MOST: usize = ANSWER_HEADER + (LEAD_BYTES + SHORT_BYTES) * STRIDE;

// Kinds of records.
pub const PROBLEM_KIND: u16 = 1;

pub const QUESTIONS_KIND: u16 = 3;

pub const STATES_KIND: u16 = 5;

pub const ANSWER_KIND: u64 = 4;

// Classes of answers: least, bottomless, none.
pub const OPTIMAL: u64 = 1;

pub const UNBOUNDED: u64 = 2;

pub const INFEASIBLE: u64 = 3;

// How many bytes of their input the programs keep, and from which count on they may stop counting.
pub const KEPT: usize = 20000;

pub const READ_MOST: u64 = 2 * FULL;

// Document 02, 2.7: a value with a text is blank or within this of 0; the writer's buffer has at least so many bytes, and no text
// has more; the minutes of an hour.
pub const TEXT_LIMIT: u64 = 6000000;

pub const TEXT_MOST: usize = 10;

pub const HOUR: u64 = 60;

// Document 02, 2.8: the minutes of a week, the most windows of a week list; a minute to be looked up is within this of a
// Monday 0:00.
pub const WEEK: u64 = 10080;

pub const MOST_WINDOWS: usize = 14;

pub const MINUTE_LIMIT: u64 = 6000000;

// Document 02, 2.13: the stamps of 32 moments in bytes; from this on a number of 64 bits stands for one below 0, and the last of them.
pub const MERGED_MOST: usize = LEAD_BYTES * STRIDE;

pub const WORD_HALF: u64 = 9223372036854775808;

pub const LAST_WORD: u64 = 18446744073709551615;

// Document 02, 2.14: the most problems that a census counts.
pub const CENSUS_MOST: u64 = 65536;
