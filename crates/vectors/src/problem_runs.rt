// The problem reader run on a record.
use crate::build::Record;
use crate::noise::{LEAD, show_touched};
use crate::print::{Minutes, edge};
use crate::script::Case;
use problem_records::reader::read_problem;
use records::limits::{STRIDE, TABLE};
use records::problem::{CHECKER_KINDS, Layout};
use std::io;

// A lead of a table, blank where there is none.
fn lead_at(table: &[u32], row: usize, column: usize) -> Minutes {
    let row = table.chunks(STRIDE).nth(row).unwrap_or(&[]);
    Minutes(row.get(column).map_or(0, |lead| u64::from(*lead)))
}

// The first left lead and the last right one of a problem that was read: that of the last variable in the question.
fn show_read(rt: &impl Print, layout: Layout, left: &[u32], right: &[u32]) -> io::Result<()> {
    let Layout { n, m, .. } = layout;
    let first = lead_at(left, 0, 0);
    let last = lead_at(right, m, n);
    print!(rt; "read, n {n} m {m}, leads {first} to {last}")
}

// Reads the bytes and prints what came of it.
pub fn run(rt: &impl Print, case: Case<'_>) -> io::Result<()> {
    let record = Record::read(case.marks());
    let mut left = [LEAD; TABLE];
    let mut right = [LEAD; TABLE];
    edge(rt, "problem", case)?;
    match read_problem(record.bytes(), CHECKER_KINDS, &mut left, &mut right) {
        Ok(layout) => show_read(rt, layout, &left, &right)?,
        Err(refusal) => {
            print!(rt; "refused {}", refusal.number())?;
            show_touched(rt, &left, &LEAD, "left table")?;
            show_touched(rt, &right, &LEAD, "right table")?;
        }
    }
    println!(rt)
}

// Which lead stands where: three places of each of two rows, two leads and what follows them.
fn show_rows(rt: &impl Print, table: &[u32]) -> io::Result<()> {
    for row in table.chunks(STRIDE).take(2) {
        for lead in row.iter().take(3) {
            print!(rt; " {}", Minutes(u64::from(*lead)))?;
        }
    }
    Ok(())
}

// Reads the bytes and prints places of both tables.
pub fn run_places(rt: &impl Print, case: Case<'_>) -> io::Result<()> {
    let record = Record::read(case.marks());
    let mut left = [LEAD; TABLE];
    let mut right = [LEAD; TABLE];
    edge(rt, "problem", case)?;
    let _ = read_problem(record.bytes(), CHECKER_KINDS, &mut left, &mut right);
    print!(rt; "left")?;
    show_rows(rt, &left)?;
    print!(rt; ", right")?;
    show_rows(rt, &right)?;
    println!(rt)
}
