// The answer reader and writer over lent numbers and bytes, with results as one number.
ghost use Rattle.std.specs.Prelude.{◌<◌};
ghost use Rattle.answer_reader.specs.Fields.{fields_of};
ghost use Rattle.capi.specs.Numbers.{WritesAs, ReadsAs, PlacesAs, low_byte, low_quarter, low_half, head_with, head_number};

use crate::numbers::{QUARTER, TOO_FEW_PLACES, size_number};
use answer_reader::answer::{Head, read_answer};
use answer_writer::writer::write_answer;
use records::limits::{BYTE, FULL, ROWS, STRIDE};

// What `span_read` is lent for stamps and for picks.
const STAMP_PLACES: usize = STRIDE;

const PICK_PLACES: usize = ROWS;

// Writes an answer for a problem of n and m; span and stamps are offset numbers, the start is a number by itself.
#[unsafe(no_mangle)]
pub extern "C" fn span_write(
    class: u64,
    span: u64,
    start: u64,
    stamps: &[u64],
    picks: &[u64],
    n: u64,
    m: u64,
    buffer: &mut [u8],
) -> u64
    ensures { WritesAs (fields_of (head_with class span start) stamps.now picks.now) n m result buffer.old buffer.new }
{
    let head = Head { class, span, start };
    size_number(write_answer(head, stamps, picks, n as usize, m as usize, buffer))
}

// Class, start and span as a number, stamps and picks in the lent places, where there are enough.
fn lend(
    head: Head,
    stamps: &[u64; STRIDE],
    picks: &[u64; ROWS],
    stamps_out: &mut [u64],
    picks_out: &mut [u64],
) -> u64
    requires { (head.class < low_byte) × (head.start < low_quarter) × (head.span < low_half) }
    ensures { PlacesAs (head_number head) stamps.now picks.now stamps_out.old picks_out.old result stamps_out.new picks_out.new }
{
    if stamps_out.len() < STAMP_PLACES || picks_out.len() < PICK_PLACES {
        return TOO_FEW_PLACES;
    }
    stamps_out[..STAMP_PLACES].copy_from_slice(stamps);
    picks_out[..PICK_PLACES].copy_from_slice(picks);
    BYTE * head.class + QUARTER * head.start + FULL * head.span
}

// Reads an answer for a problem of n and m.
#[unsafe(no_mangle)]
pub extern "C" fn span_read(
    bytes: &[u8],
    n: u64,
    m: u64,
    stamps: &mut [u64],
    picks: &mut [u64],
) -> u64
    ensures { ReadsAs bytes.now n m stamps.old picks.old result stamps.new picks.new }
{
    let mut own_stamps = [0u64; STRIDE];
    let mut own_picks = [0u64; ROWS];
    let read = read_answer(
        bytes,
        n as usize,
        m as usize,
        &mut own_stamps,
        &mut own_picks,
    );
    match read {
        Ok(head) => lend(head, &own_stamps, &own_picks, stamps, picks),
        Err(refusal) => refusal.number() as u64,
    }
}
