// Hours and minutes run: a text that is read, and a value, an offset number, that is written.
use crate::noise::{BUFFER, BYTE, show_refused, show_written};
use crate::print::{Minutes, edge};
use crate::script::Case;
use crate::writer_runs::Fields;
use hour_texts::reader::read_hours;
use hour_texts::writer::write_hours;
use std::io;

// Reads a text and prints what came of it.
pub fn run_read(rt: &impl Print, case: Case<'_>) -> io::Result<()> {
    let text = case.text();
    print!(rt; "hours read, ")?;
    rt.write_all(text)?;
    match read_hours(text) {
        Ok(value) => println!(rt; ": {}", Minutes(value)),
        Err(refusal) => println!(rt; ": refused {}", refusal.number()),
    }
}

// Writes a value with so many bytes of room and prints what came of it.
pub fn run_write(rt: &impl Print, case: Case<'_>) -> io::Result<()> {
    let Fields { head, room, .. } = Fields::read(case.marks());
    let mut buffer = [BYTE; BUFFER];
    edge(rt, "hours written", case)?;
    match write_hours(head.span, buffer.get_mut(..room).unwrap_or(&mut [])) {
        Ok(size) => {
            rt.write_all(buffer.get(..size).unwrap_or(&[]))?;
            print!(rt; ", ")?;
            show_written(rt, size, &buffer)?;
        }
        Err(refusal) => show_refused(rt, refusal, &buffer)?,
    }
    println!(rt)
}
