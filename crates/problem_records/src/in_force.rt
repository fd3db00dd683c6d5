// The rules in force of a record of kind 5, as a record of kind 1: document 02, 2.10. The rows of suspended rules are blank, so that
// whoever reads leads where they stand needs to know nothing of states.
ghost use Rattle.std.specs.Prelude.{◌≡◌, ◌+◌, ◌*◌, ◌≤◌, ◌<◌, length, get_or};
ghost use Rattle.base.specs.Filled.{FilledFrom};
ghost use Rattle.definitions.specs.Limits.{highest_n, highest_m, problem_header, problem_most};
ghost use Rattle.definitions.specs.ProblemRecord.{row_place, header_bytes};
ghost use Rattle.definitions.specs.Questions.{rows_size};
ghost use Rattle.problem_records.specs.InForce.{blank_byte, lifted, row_byte, StatesHeld, RowsInForce, InForce};

use crate::reader::row_place;
use records::bytes::short_at;
use records::limits::{
    LEAD_BYTES, LENGTH_BYTES, PROBLEM_HEADER, PROBLEM_MOST, SHORT_BYTES, STATES_PLACE,
};
use records::problem::lead_count;

// Of m rules, rule i is suspended: its state is 0. The question, row m, has none.
fn suspended(bytes: &[u8], m: usize, i: usize) -> bool
    requires { (m ≤ highest_m) × (i ≤ m) }
    ensures { result ≡ lifted bytes.now m i }
{
    i < m && short_at(bytes, STATES_PLACE + SHORT_BYTES * i) == 0
}

// Byte k of a row of blanks.
fn blank_byte(k: usize) -> u8
    ensures { result ≡ blank_byte k }
{
    if k % 4 == 3 { 128 } else { 0 }
}

// `count` bytes of blanks, from a place of the room on.
fn put_blanks(room: &mut [u8], at: usize, count: usize)
    requires { at + count ≤ length room.old }
    ensures { FilledFrom blank_byte at count room.old room.new }
{
    for k in 0..count {
        room[at + k] = blank_byte(k);
    }
}

// `count` bytes from a place of the record on, to a place of the room.
fn copy_part(bytes: &[u8], from: usize, count: usize, room: &mut [u8], at: usize)
    requires { (from + count ≤ length bytes.now) × (at + count ≤ length room.old) }
    ensures { FilledFrom (λ k. get_or bytes.now (from + k) 0) at count room.old room.new }
{
    room[at..at + count].copy_from_slice(&bytes[from..from + count]);
}

// Row i of a record behind m states, to its place in the room: blank where it is a suspended rule.
fn put_row_in_force(bytes: &[u8], n: usize, m: usize, i: usize, room: &mut [u8])
    requires { StatesHeld bytes.now n m × (i ≤ m) × (length room.old ≡ problem_most) }
    ensures { FilledFrom (row_byte bytes.now n m i) (row_place problem_header n i) (rows_size n 1) room.old room.new }
{
    let at = row_place(n, i);
    let count = 2 * LEAD_BYTES * (n + 1);
    if suspended(bytes, m, i) {
        put_blanks(room, at, count);
        return;
    }
    copy_part(bytes, at + SHORT_BYTES * m, count, room, at);
}

// All rows.
fn put_rows_in_force(bytes: &[u8], n: usize, m: usize, room: &mut [u8])
    requires { StatesHeld bytes.now n m × (length room.old ≡ problem_most) }
    ensures { RowsInForce bytes.now n m (m + 1) room.new }
{
    for i in 0..m + 1 {
        put_row_in_force(bytes, n, m, i, room);
    }
}

// The header of kind 1 with these n and m, and with `long` in its length field.
fn head_in_force(n: usize, m: usize, long: usize) -> [u8; PROBLEM_HEADER]
    requires { (n ≤ highest_n) × (m ≤ highest_m) × (long + 4 ≡ problem_header + rows_size n (m + 1)) }
    ensures { result ≡ header_bytes n m }
{
    let [low, high] = (long as u16).to_le_bytes();
    [low, high, 0, 0, 1, 0, n as u8, 0, m as u8, 0]
}

// It is put at the front of the room; what stands behind it stays.
fn put_head_in_force(n: usize, m: usize, room: &mut [u8])
    requires { (n ≤ highest_n) × (m ≤ highest_m) × (length room.old ≡ problem_most) }
    ensures { FilledFrom (λ k. get_or (header_bytes n m) (0 + k) 0) 0 problem_header room.old room.new }
{
    let long = PROBLEM_HEADER + LEAD_BYTES * lead_count(n, m + 1) - LENGTH_BYTES;
    let head = head_in_force(n, m, long);
    copy_part(&head, 0, PROBLEM_HEADER, room, 0);
}

// The record in force. Public for the checker's `check`.
pub fn in_force(bytes: &[u8], n: usize, m: usize) -> [u8; PROBLEM_MOST]
    requires { StatesHeld bytes.now n m }
    ensures { InForce bytes.now n m result }
{
    let mut room = [0u8; PROBLEM_MOST];
    put_rows_in_force(bytes, n, m, &mut room);
    put_head_in_force(n, m, &mut room);
    room
}
