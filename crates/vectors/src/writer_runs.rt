// The answer writer run on fields. Spans and stamps are handed over as offset numbers: 0 is blank, any other k stands for
// k − 2³¹.
use crate::noise::{BUFFER, BYTE, show_refused, show_written};
use crate::print::edge;
use crate::script::{Case, Marks};
use answer_reader::answer::Head;
use answer_writer::writer::write_answer;
use records::limits::{ANSWER_MOST, OFFSET};
use records::refusal::Refusal;
use std::io;

// The most stamps and picks that a list here has.
pub const LONGEST: usize = 70;

// What is handed to the writer: the buffer is the first `room` bytes.
// Arrays and counts, as lists on the heap would put more C functions under what is trusted.
#[derive(Clone, Copy)]
pub struct Fields {
    pub head: Head,
    stamps: [u64; LONGEST],
    stamp_count: usize,
    picks: [u64; LONGEST],
    pick_count: usize,
    pub n: usize,
    pub m: usize,
    pub room: usize,
}

// Puts a number at a place of a list; a place past the end stays out.
fn put(list: &mut [u64], at: usize, x: u64) {
    if let Some(number) = list.get_mut(at) {
        *number = x;
    }
}

impl Fields {
    // The fields of some marks. Stamps and picks are all 0 before any mark.
    pub fn read(marks: Marks<'_>) -> Fields {
        let mut fields = Fields {
            head: Head {
                class: 0,
                span: 0,
                start: 0,
            },
            stamps: [OFFSET; LONGEST],
            stamp_count: 0,
            picks: [0; LONGEST],
            pick_count: 0,
            n: 0,
            m: 0,
            room: ANSWER_MOST,
        };
        let mut at = 0;
        for (mark, x) in marks {
            match mark {
                b'c' => fields.head.class = x,
                b's' => fields.head.span = x,
                b'r' => fields.head.start = x,
                b'e' => put(&mut fields.stamps, at, x),
                b'p' => put(&mut fields.picks, at, x),
                b't' => fields.stamp_count = x as usize,
                b'k' => fields.pick_count = x as usize,
                b'n' => fields.n = x as usize,
                b'm' => fields.m = x as usize,
                b'b' => fields.room = x as usize,
                b'@' => at = x as usize,
                _ => (),
            }
        }
        fields
    }

    // As many stamps as their count says, none where it says more than there is room for.
    pub fn stamps(&self) -> &[u64] {
        self.stamps.get(..self.stamp_count).unwrap_or(&[])
    }

    // The picks likewise.
    pub fn picks(&self) -> &[u64] {
        self.picks.get(..self.pick_count).unwrap_or(&[])
    }

    // The answer written into the room of a buffer.
    pub fn write(&self, buffer: &mut [u8]) -> Result<usize, Refusal> {
        let room = buffer.get_mut(..self.room).unwrap_or(&mut []);
        write_answer(self.head, self.stamps(), self.picks(), self.n, self.m, room)
    }
}

// Writes an answer of the fields and prints what came of it.
pub fn run(rt: &impl Print, case: Case<'_>) -> io::Result<()> {
    let fields = Fields::read(case.marks());
    let mut buffer = [BYTE; BUFFER];
    edge(rt, "writer", case)?;
    match fields.write(&mut buffer) {
        Ok(size) => show_written(rt, size, &buffer)?,
        Err(refusal) => show_refused(rt, refusal, &buffer)?,
    }
    println!(rt)
}
