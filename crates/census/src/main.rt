// The census program: with n, m and w behind its name one line, the counts of least, bottomless, none and refused, or the line of the
// refusal; without words the handbook's table. Document 02, 2.14.
#![tactic(auto)]

mod lines;
mod words;

ghost use Rattle.std.specs.Prelude.{◌≡◌, ◌≤◌, length, IfSome};
ghost use Rattle.census.specs.Words.{line_room, put_out, Answered};

use lines::{LINE_ROOM, census_line, table_line};
use records::limits::{HIGHEST_M, HIGHEST_N, LEAD_LIMIT};
use std::env::{Env, FillError};
use std::io;
use words::read_number;

// Room for a word; a longer one is no number.
const WORD_MOST: usize = 4096;

// Puts the line for three words at the front of a buffer, and gives its size; None where they are no three numbers.
fn answer(first: &[u8], second: &[u8], third: &[u8], line: &mut [u8]) -> Option<usize>
    requires { length line.old ≡ line_room }
    ensures inside { IfSome result (λ size. size ≤ line_room) }
    ensures shown { Answered first.now second.now third.now (put_out result line.new) }
{
    let n = read_number(first)?;
    let m = read_number(second)?;
    let w = read_number(third)?;
    Some(census_line(n, m, w, line))
}

// Says on standard error that a write failed.
fn not_written(rt: &impl Eprint) {
    let _ = rt.eprintln("census: standard output cannot be written");
}

// The lines of n and m, w by w up to the first that is refused.
fn print_widths(rt: &impl Print, n: u64, m: u64) -> io::Result<()> {
    let mut line = [0u8; LINE_ROOM];
    for w in 1..=LEAD_LIMIT {
        let Some(size) = table_line(n, m, w, &mut line) else {
            return Ok(());
        };
        rt.write_all(&line[..size])?;
    }
    Ok(())
}

// The table: a line of words, then a line for each n, m and w that is not refused.
fn print_table(rt: &impl Print) -> io::Result<()> {
    rt.println("n m w least bottomless none refused")?;
    for n in 0..=HIGHEST_N {
        for m in 0..=HIGHEST_M {
            print_widths(rt, n as u64, m as u64)?;
        }
    }
    Ok(())
}

// The line for the three words behind the program's name.
fn print_census(rt: &(impl Env + Print + Eprint)) {
    let mut first = [0u8; WORD_MOST];
    let mut second = [0u8; WORD_MOST];
    let mut third = [0u8; WORD_MOST];
    let a = rt.arg(1, &mut first).unwrap_or(0);
    let b = rt.arg(2, &mut second).unwrap_or(0);
    let c = rt.arg(3, &mut third).unwrap_or(0);
    let mut line = [0u8; LINE_ROOM];
    let Some(size) = answer(&first[..a], &second[..b], &third[..c], &mut line) else {
        let _ = rt.eprintln("census: n, m and w are numbers");
        return;
    };
    if rt.write_all(&line[..size]).is_err() {
        not_written(rt);
    }
}

// How many words stand behind the program's name, told as 4 where there are more.
fn word_count(rt: &impl Env) -> usize {
    (0..4)
        .find(|count| matches!(rt.arg(count + 1, &mut []), Err(FillError::NotPresent)))
        .unwrap_or(4)
}

fn main(rt: HostRuntime) {
    match word_count(&rt) {
        0 => {
            if print_table(&rt).is_err() {
                not_written(&rt);
            }
        }
        3 => print_census(&rt),
        _ => {
            let _ = rt.eprintln("census: give n, m and w, or no words for the table");
        }
    }
}
