// Round trips of answers: written and read back, read and written back.
ghost use Rattle.answer_writer.specs.RoundTrips.{WrittenThenRead, ReadThenWritten};

use crate::writer::write_answer;
use answer_reader::answer::{Head, read_answer};
use answer_reader::class::{pick_count, stamp_count};
use records::limits::{ROWS, STRIDE};
use records::refusal::Refusal;

// An answer written and read back: the writer's refusal, or the same class, span, start, stamps and picks. Public for `vectors`.
pub fn write_then_read(
    head: Head,
    stamps: &[u64],
    picks: &[u64],
    n: usize,
    m: usize,
    buffer: &mut [u8],
    stamps_back: &mut [u64; STRIDE],
    picks_back: &mut [u64; ROWS],
) -> Result<Head, Refusal>
    ensures { WrittenThenRead head stamps.now picks.now n m result buffer.old buffer.new stamps_back.old stamps_back.new picks_back.old picks_back.new }
{
    let size = write_answer(head, stamps, picks, n, m, buffer)?;
    read_answer(&buffer[..size], n, m, stamps_back, picks_back)
}

// An answer read and written back: the reader's refusal, 7 where the buffer is too short, or the same bytes. Public for
// `vectors`.
pub fn read_then_write(
    bytes: &[u8],
    n: usize,
    m: usize,
    buffer: &mut [u8],
) -> Result<usize, Refusal>
    ensures { ReadThenWritten bytes.now n m result buffer.old buffer.new }
{
    let mut stamps = [0u64; STRIDE];
    let mut picks = [0u64; ROWS];
    let head = read_answer(bytes, n, m, &mut stamps, &mut picks)?;
    let s = stamp_count(head.class, n);
    let p = pick_count(head.class, n, m);
    write_answer(head, &stamps[..s], &picks[..p], n, m, buffer)
}
