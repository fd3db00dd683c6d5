// The round trips: what is written reads back as itself, and what is read is written again to the same bytes.
use crate::build::Record;
use crate::noise::{BUFFER, BYTE, NUMBER, touched};
use crate::print::edge;
use crate::script::Case;
use crate::writer_runs::Fields;
use answer_writer::roundtrip::{read_then_write, write_then_read};
use records::limits::{ROWS, STRIDE};
use std::io;

fn show(rt: &impl Print, same: bool) -> io::Result<()> {
    rt.println(if same { "same" } else { "differ" })
}

// The list stands at the start of the numbers, and 0 behind it.
fn same_list(list: &[u64], numbers: &[u64]) -> bool {
    numbers
        .strip_prefix(list)
        .is_some_and(|rest| rest.iter().all(|x| *x == 0))
}

// What was written reads back as itself.
fn back(fields: &Fields) -> bool {
    let mut buffer = [BYTE; BUFFER];
    let mut stamps = [NUMBER; STRIDE];
    let mut picks = [NUMBER; ROWS];
    let head = write_then_read(
        fields.head,
        fields.stamps(),
        fields.picks(),
        fields.n,
        fields.m,
        &mut buffer,
        &mut stamps,
        &mut picks,
    );
    head == Ok(fields.head)
        && same_list(fields.stamps(), &stamps)
        && same_list(fields.picks(), &picks)
}

// Writes the fields, reads the record, and compares.
pub fn run_written(rt: &impl Print, case: Case<'_>) -> io::Result<()> {
    let fields = Fields::read(case.marks());
    edge(rt, "written and read", case)?;
    show(rt, back(&fields))
}

// What was read is written again to the same bytes, and the rest of the buffer is noise.
fn again(record: &Record) -> bool {
    let mut buffer = [BYTE; BUFFER];
    let written = read_then_write(record.bytes(), record.n, record.m, &mut buffer);
    written == Ok(record.bytes().len())
        && buffer
            .strip_prefix(record.bytes())
            .is_some_and(|rest| !touched(rest, &BYTE))
}

// Reads the bytes, writes the answer, and compares.
pub fn run_read(rt: &impl Print, case: Case<'_>) -> io::Result<()> {
    let record = Record::read(case.marks());
    edge(rt, "read and written", case)?;
    show(rt, again(&record))
}

// Writes the fields and prints the record.
pub fn run_bytes(rt: &impl Print, case: Case<'_>) -> io::Result<()> {
    let fields = Fields::read(case.marks());
    let mut buffer = [BYTE; BUFFER];
    edge(rt, "bytes", case)?;
    match fields.write(&mut buffer) {
        Ok(size) => {
            for byte in buffer.iter().take(size) {
                print!(rt; "{byte:02x}")?;
            }
        }
        Err(refusal) => print!(rt; "refused {}", refusal.number())?,
    }
    println!(rt)
}
