// The writer: a span or stamp, an offset number, to its text. Document 02, 2.7.
ghost use Rattle.std.specs.Prelude.{◌∷◌, ◌+◌, ◌≤◌, ◌<◌, length};
ghost use Rattle.definitions.specs.Limits.{hour_minutes};
ghost use Rattle.definitions.specs.Offset.{trop_of};
ghost use Rattle.definitions.specs.Hours.{colon, two_digits, clock_of, text_of, WritesHours};
ghost use Rattle.printing.specs.Text.{Putting};
ghost use Rattle.hour_texts.specs.Outcome.{writing_of};

use printing::text::{copy, digit, put_decimal};
use records::limits::{HOUR, OFFSET, TEXT_LIMIT, TEXT_MOST};
use records::offset::blank_or_within;
use records::refusal::Refusal;

// Room for a minus, the 20 digits that a number of 64 bits may have, and the minutes.
const LINE: usize = 24;

// Puts a colon and two digits of minutes.
fn put_minutes(line: &mut [u8], at: usize, minutes: u64) -> usize
    requires { (at + 3 ≤ length line.old) × (minutes < hour_minutes) }
    ensures { Putting line.old at (colon ∷ two_digits minutes) line.new result }
{
    copy(line, at, &[b':', digit(minutes / 10), digit(minutes % 10)])
}

// Puts so many minutes in hours and minutes.
fn put_clock(line: &mut [u8], at: usize, number: u64) -> usize
    requires { at + 23 ≤ length line.old }
    ensures { Putting line.old at (clock_of number) line.new result }
{
    let next = put_decimal(line, at, number / HOUR);
    put_minutes(line, next, number % HOUR)
}

// Puts the text of a value.
fn put_text(line: &mut [u8], value: u64) -> usize
    requires { 24 ≤ length line.old }
    ensures { Putting line.old 0 (text_of (trop_of value)) line.new result }
{
    match value {
        0 => copy(line, 0, b"--"),
        OFFSET.. => put_clock(line, 0, value - OFFSET),
        _ => {
            let next = copy(line, 0, b"-");
            put_clock(line, next, OFFSET - value)
        }
    }
}

// The text of a value written: its size, with the text at the front of the buffer and every byte after it as it was; or refusal
// 18, and the buffer as it was. The text is put together in a line of its own, as decimal numbers want room for 64 bits.
pub fn write_hours(value: u64, buffer: &mut [u8]) -> Result<usize, Refusal>
    ensures { WritesHours (trop_of value) buffer.old (writing_of result) buffer.new }
{
    if buffer.len() < TEXT_MOST || !blank_or_within(TEXT_LIMIT, value) {
        return Err(Refusal::NoText);
    }
    let mut line = [0; LINE];
    let size = put_text(&mut line, value);
    Ok(copy(buffer, 0, &line[..size]))
}
