// Records as the marks of a case say, right or wrong: a run of zeros with fields put into it.
use crate::noise::BUFFER;
use crate::script::{Marks, minus};
use records::limits::{LEAD_BYTES, OFFSET, PROBLEM_HEADER, STRIDE, TABLE};

// The room of a record: the largest problem that is tried has n 32 and m 63, 10 + 8 × 33 × 64 bytes.
pub const ROOM: usize = 16906;

// How many leads the largest problem has.
const LEADS_MOST: usize = 2 * TABLE;

// The bytes of a row of 32 left leads and 32 right ones.
const ROW: usize = 2 * LEAD_BYTES * STRIDE;

// The bytes of a record, and what is handed over beside it.
// An array and a count, as a list on the heap would put more C functions under what is trusted.
#[derive(Clone, Copy)]
pub struct Record {
    bytes: [u8; ROOM],
    size: usize,
    pub n: usize,
    pub m: usize,
    pub room: usize,
}

// Puts a field at a place, and gives the place after it. What is past the end stays out.
fn put(bytes: &mut [u8], at: usize, field: &[u8]) -> usize {
    let rest = bytes.get_mut(at..).unwrap_or(&mut []);
    for (byte, new) in rest.iter_mut().zip(field) {
        *byte = *new;
    }
    at.saturating_add(field.len())
}

// A field of 2 bytes.
fn put_short(bytes: &mut [u8], at: usize, x: u64) -> usize {
    put(bytes, at, &x.to_le_bytes()[..2])
}

// A field of 4 bytes.
fn put_word(bytes: &mut [u8], at: usize, x: u64) -> usize {
    put(bytes, at, &x.to_le_bytes()[..4])
}

// Blanks from the first lead on, as many as any problem has; those after the record's size are no part of it.
fn put_blanks(bytes: &mut [u8]) {
    for i in 0..LEADS_MOST {
        put_word(bytes, PROBLEM_HEADER + LEAD_BYTES * i, OFFSET);
    }
}

// 31 rules and the question in a ring, in rows of 64 leads: moment i + left ≤ moment i + 1 + right, span moment 31 + left −
// (anchor + right), all other leads blank.
fn put_ring(bytes: &mut [u8], left: u64) {
    put_blanks(bytes);
    for i in 0..STRIDE {
        let row = PROBLEM_HEADER + ROW * i;
        let next = (i + 1) % STRIDE;
        put_word(bytes, row + LEAD_BYTES * i, left);
        put_word(bytes, row + ROW / 2 + LEAD_BYTES * next, minus(left));
    }
}

impl Record {
    // The record of some marks.
    pub fn read(marks: Marks<'_>) -> Record {
        let mut record = Record {
            bytes: [0; ROOM],
            size: 0,
            n: 0,
            m: 0,
            room: BUFFER,
        };
        let mut at = 0;
        for (mark, x) in marks {
            match mark {
                b's' => at = put_short(&mut record.bytes, at, x),
                b'w' => at = put_word(&mut record.bytes, at, x),
                b'f' => put_blanks(&mut record.bytes),
                b'r' => put_ring(&mut record.bytes, x),
                b'z' => record.size = x as usize,
                b'@' => at = x as usize,
                b'n' => record.n = x as usize,
                b'm' => record.m = x as usize,
                b'b' => record.room = x as usize,
                _ => (),
            }
        }
        record
    }

    // As many bytes as the size says, none where it says more than there is room for.
    pub fn bytes(&self) -> &[u8] {
        self.bytes.get(..self.size).unwrap_or(&[])
    }
}
