// The engine run on a record: what it answers, and what the checker says of the bytes that it wrote.
use crate::build::Record;
use crate::noise::{BUFFER, BYTE, show_refused, show_written};
use crate::print::edge;
use crate::script::Case;
use crate::verdicts::{Found, judged};
use engine::solve::{Solution, solve};
use std::io;

// What was answered, and the verdict on the bytes that were written; of several questions how many they are.
fn show_solved(
    rt: &impl Print,
    problem: &[u8],
    solution: Solution,
    buffer: &[u8],
) -> io::Result<()> {
    match solution {
        Solution::One(answered) => {
            let found = Found {
                class: answered.class,
                span: answered.span,
            };
            print!(rt; "{found}, trials {}, ", answered.trials)?;
            show_written(rt, answered.size, buffer)?;
            print!(rt; ", ")?;
            judged(rt, problem, buffer.get(..answered.size).unwrap_or(&[]))
        }
        Solution::All {
            count,
            trials,
            size,
        } => {
            print!(rt; "questions {count}, trials {trials}, ")?;
            show_written(rt, size, buffer)
        }
    }
}

// Runs the engine with so many bytes of room and prints what came of it.
pub fn run(rt: &impl Print, case: Case<'_>) -> io::Result<()> {
    let record = Record::read(case.marks());
    let mut buffer = [BYTE; BUFFER];
    edge(rt, "engine", case)?;
    let room = buffer.get_mut(..record.room).unwrap_or(&mut []);
    match solve(record.bytes(), room) {
        Ok(solution) => show_solved(rt, record.bytes(), solution, &buffer)?,
        Err(refusal) => show_refused(rt, refusal, &buffer)?,
    }
    println!(rt)
}
