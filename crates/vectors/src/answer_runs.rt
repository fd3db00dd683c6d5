// The answer reader run on a record, for the n and m of a problem that are handed over.
use crate::build::Record;
use crate::noise::{NUMBER, show_touched};
use crate::print::{Minutes, edge};
use crate::script::Case;
use answer_reader::answer::{Head, read_answer};
use records::class::Class;
use records::limits::{ROWS, STRIDE};
use std::io;

// The first and the last stamp of an answer that was read.
fn show_stamps(rt: &impl Print, stamps: &[u64; STRIDE], last: usize) -> io::Result<()> {
    let first = Minutes(stamps[0]);
    let last = Minutes(stamps.get(last).copied().unwrap_or(0));
    print!(rt; ", stamps {first} to {last}")
}

// The first and the last pick.
fn show_picks(rt: &impl Print, picks: &[u64; ROWS], last: usize) -> io::Result<()> {
    let first = picks[0];
    let last = picks.get(last).copied().unwrap_or(0);
    print!(rt; ", picks {first} to {last}")
}

// What was read: of stamps and picks what the class has.
fn show_read(
    rt: &impl Print,
    head: Head,
    n: usize,
    m: usize,
    stamps: &[u64; STRIDE],
    picks: &[u64; ROWS],
) -> io::Result<()> {
    let Head { class, span, start } = head;
    print!(rt; "read, class {class} span {} start {start}", Minutes(span))?;
    match Class::try_from(class) {
        Ok(Class::Optimal) => {
            show_stamps(rt, stamps, n)?;
            show_picks(rt, picks, n)
        }
        Ok(Class::Unbounded) => show_picks(rt, picks, m),
        Ok(Class::Infeasible) => show_picks(rt, picks, n),
        Err(_) => Ok(()),
    }
}

// Reads the bytes for a problem's n and m and prints what came of it.
pub fn run(rt: &impl Print, case: Case<'_>) -> io::Result<()> {
    let record = Record::read(case.marks());
    let mut stamps = [NUMBER; STRIDE];
    let mut picks = [NUMBER; ROWS];
    edge(rt, "answer", case)?;
    match read_answer(record.bytes(), record.n, record.m, &mut stamps, &mut picks) {
        Ok(head) => show_read(rt, head, record.n, record.m, &stamps, &picks)?,
        Err(refusal) => {
            print!(rt; "refused {}", refusal.number())?;
            show_touched(rt, &stamps, &NUMBER, "stamps")?;
            show_touched(rt, &picks, &NUMBER, "picks")?;
        }
    }
    println!(rt)
}
