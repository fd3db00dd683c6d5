// The lines of the reasons program, as bytes: `rules 1 4` and `round 0 1`. Each ends with one newline.
ghost use Rattle.std.specs.Prelude.{◌≡◌, ◌++◌, ◌+◌, ◌*◌, ◌≤◌, length, take};
ghost use Rattle.definitions.specs.Programs.{newline};
ghost use Rattle.definitions.specs.Reasons.{spaced, reasons_lines};
ghost use Rattle.printing.specs.Text.{Putting};
ghost use Rattle.reasons.specs.Lines.{number_most, lines_most, numbered};

use grounds::reasons::Grounds;
use output::writer::write_turned_away;
use printing::text::{copy, put_decimal};
use records::limits::{HIGHEST_M, STRIDE};

// A space and a number take no more bytes.
const NUMBER_MOST: usize = 21;

// Room for both lines: a word of five bytes and a newline each, 63 rules, 32 moments.
pub const LINES_MOST: usize = 2 * (5 + 1) + NUMBER_MOST * (HIGHEST_M + STRIDE);

// Puts numbers, each after a single space.
fn put_numbers(lines: &mut [u8], at: usize, numbers: &[usize]) -> usize
    requires { at + number_most * length numbers.now ≤ length lines.old }
    ensures { Putting lines.old at (spaced numbers.now) lines.new result × (result ≤ at + number_most * length numbers.now) }
{
    let mut next = at;
    for number in numbers {
        let behind = copy(lines, next, b" ");
        next = put_decimal(lines, behind, *number as u64);
    }
    next
}

// Puts a line: a word of five bytes, and numbers.
fn put_line(lines: &mut [u8], at: usize, word: &[u8], numbers: &[usize]) -> usize
    requires { (length word.now ≡ 5) × (at + 6 + number_most * length numbers.now ≤ length lines.old) }
    ensures { Putting lines.old at (word.now ++ (spaced numbers.now ++ newline)) lines.new result × (result ≤ at + 6 + number_most * length numbers.now) }
{
    let a = copy(lines, at, word);
    let b = put_numbers(lines, a, numbers);
    copy(lines, b, b"\n")
}

// Puts the lines of the reasons, or of a refusal's number, at the front of a buffer, and gives their size.
pub fn put_lines(lines: &mut [u8], reasons: Result<Grounds, usize>) -> usize
    requires { length lines.old ≡ lines_most }
    ensures inside { result ≤ lines_most }
    ensures lines_are { take result lines.new ≡ reasons_lines (numbered reasons) }
{
    match reasons {
        Err(number) => write_turned_away(lines, number),
        Ok(grounds) => {
            let next = put_line(lines, 0, b"rules", grounds.rules.as_slice());
            match grounds.round {
                None => next,
                Some(round) => put_line(lines, next, b"round", round.as_slice()),
            }
        }
    }
}
