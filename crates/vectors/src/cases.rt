// The cases: one line of standard input each.
ghost use Rattle.std.specs.Prelude.{◌≤◌, length};

use crate::print::Lasting;
use crate::script::Case;
use crate::{
    answer_runs, checker_runs, engine_runs, problem_runs, round_trips, sheet_runs, writer_runs,
};
use std::io;
use std::io::Read;

// No more of the cases is read.
const CASES_MOST: usize = 65536;

// Runs a case by its letter; an empty line and one that starts with # are remarks.
fn run_case(rt: &impl Print, case: Case<'_>) -> io::Result<()> {
    match case.letter() {
        Some(b'p') => problem_runs::run(rt, case),
        Some(b'l') => problem_runs::run_places(rt, case),
        Some(b'a') => answer_runs::run(rt, case),
        Some(b'r') => round_trips::run_read(rt, case),
        Some(b'e') => engine_runs::run(rt, case),
        Some(b'c') => checker_runs::run(rt, case),
        Some(b'w') => writer_runs::run(rt, case),
        Some(b't') => round_trips::run_written(rt, case),
        Some(b'b') => round_trips::run_bytes(rt, case),
        Some(b'v') => sheet_runs::run_write(rt, case),
        Some(b'h') => sheet_runs::run_read(rt, case),
        _ => Ok(()),
    }
}

// Reads until the buffer is full, the input ends or a read fails: how many bytes stand at its start.
fn read_full(input: &mut impl Read, buffer: &mut [u8]) -> usize
    ensures { result ≤ length buffer.new }
{
    let mut size = 0;
    while size < buffer.len() {
        match input.read(&mut buffer[size..]) {
            Ok(0) | Err(_) => break,
            Ok(n) => size += n,
        }
    }
    size
}

// Reads the cases and runs each. Where a read fails, those before it are run; where a write fails, the output is short, and what is
// behind it is written all the same.
pub fn run(rt: &(impl Input + Print)) -> io::Result<()> {
    let mut buffer = [0u8; CASES_MOST];
    let size = read_full(&mut rt.reader(), &mut buffer);
    for line in buffer[..size].split(|byte| *byte == b'\n') {
        run_case(&Lasting(rt), Case(line))?;
    }
    Ok(())
}
