// The reader and the writer of hours and minutes over lent bytes, with results as one number.
ghost use Rattle.definitions.specs.Offset.{trop_of};
ghost use Rattle.hour_texts.specs.Outcome.{reading_of};
ghost use Rattle.capi.specs.Numbers.{Small};
ghost use Rattle.capi.specs.HoursNumbers.{HoursNumbered, ReadsHoursAs, WritesHoursAs};

use crate::numbers::size_number;
use hour_texts::reader::read_hours;
use hour_texts::writer::write_hours;
use records::limits::FULL;
use records::refusal::Refusal;

// 2³² × the value's offset number where read, else the refusal.
fn read_number(read: Result<u64, Refusal>) -> u64
    requires { Small read }
    ensures { HoursNumbered (reading_of read) result }
{
    match read {
        Ok(value) => FULL * value,
        Err(refusal) => refusal.number() as u64,
    }
}

// Reads a text of hours and minutes.
#[unsafe(no_mangle)]
pub extern "C" fn span_hours_read(text: &[u8]) -> u64
    ensures { ReadsHoursAs text.now result }
{
    read_number(read_hours(text))
}

// Writes the text of a value, an offset number.
#[unsafe(no_mangle)]
pub extern "C" fn span_hours_write(value: u64, buffer: &mut [u8]) -> u64
    ensures { WritesHoursAs (trop_of value) result buffer.old buffer.new }
{
    size_number(write_hours(value, buffer))
}
