// The lines of a census: numbers in decimal with a space between two, or the line of the refusal.
ghost use Rattle.std.specs.Prelude.{◌≡◌, ◌+◌, ◌*◌, ◌≤◌, ◌<◌, [], ◌∷◌, ◌++◌, length, take, IfSome};
ghost use Rattle.definitions.specs.Programs.{decimal};
ghost use Rattle.definitions.specs.Census.{numbers_line, CensusOutput, TableOutput};
ghost use Rattle.printing.specs.Text.{Putting};
ghost use Rattle.census.specs.Words.{line_room, put_out};

use counting::census::take_census;
use printing::lines::refused_line;
use printing::text::{copy, put_decimal};

// Room for seven numbers, each with a space or the newline behind it.
pub const LINE_ROOM: usize = 147;

// Puts a number and a space.
fn put_spaced(line: &mut [u8], at: usize, number: u64) -> usize
    requires { at + 21 ≤ length line.old }
    ensures { Putting line.old at (decimal number ++ (32 ∷ [])) line.new result × (result ≤ at + 21) }
{
    let next = put_decimal(line, at, number);
    copy(line, next, b" ")
}

// Puts numbers at the front of a buffer, with a space between two, and the newline.
fn put_numbers(line: &mut [u8], numbers: &[u64]) -> usize
    requires { (0 < length numbers.now) × (21 * length numbers.now ≤ length line.old) }
    ensures { Putting line.old 0 (numbers_line numbers.now) line.new result × (result ≤ 21 * length numbers.now) }
{
    let last = numbers.len() - 1;
    let mut at = 0;
    for number in &numbers[..last] {
        at = put_spaced(line, at, *number);
    }
    let next = put_decimal(line, at, numbers[last]);
    copy(line, next, b"\n")
}

// Puts the line of a census at the front of a buffer, and gives its size.
pub fn census_line(n: u64, m: u64, w: u64, line: &mut [u8]) -> usize
    requires { length line.old ≡ line_room }
    ensures { (result ≤ line_room) × CensusOutput n m w (take result line.new) }
{
    match take_census(n, m, w) {
        Err(refusal) => refused_line(line, refusal.number()),
        Ok(tally) => put_numbers(
            line,
            &[tally.least, tally.bottomless, tally.none, tally.silent],
        ),
    }
}

// Puts the line of a census in the handbook's table at the front of a buffer, and gives its size; None where the census is refused.
pub fn table_line(n: u64, m: u64, w: u64, line: &mut [u8]) -> Option<usize>
    requires { length line.old ≡ line_room }
    ensures inside { IfSome result (λ size. size ≤ line_room) }
    ensures shown { TableOutput n m w (put_out result line.new) }
{
    match take_census(n, m, w) {
        Err(_) => None,
        Ok(t) => Some(put_numbers(line, &[n, m, w, t.least, t.bottomless, t.none, t.silent])),
    }
}
