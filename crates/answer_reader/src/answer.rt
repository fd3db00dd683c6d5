// The answer reader: bytes to class, span, start, stamps and picks. Document 01, "Records" and "What is turned away", 4 and 8 to 13;
// document 02, 2.4.
ghost use Rattle.std.specs.Prelude.{◌≡◌, map, ◌<◌, ◌≤◌, ◌+◌, ◌*◌, length};
ghost use Rattle.definitions.specs.Limits.{highest_n, highest_m, short_full, signed_full, short_bytes, signed_bytes, answer_header, stride, table_rows};
ghost use Rattle.definitions.specs.Bytes.{num_at};
ghost use Rattle.definitions.specs.Offset.{trop_of, off};
ghost use Rattle.definitions.specs.AnswerRecord.{stamps_fit, picks_fit, form_refusal, answer_header_outcome};
ghost use Rattle.records.specs.Refusals.{refused_by};
ghost use Rattle.answer_reader.specs.Fields.{fields_of, stamps_at, picks_at, stamp_fits, Padded};
ghost use Rattle.answer_reader.specs.AnswerReading.{HeadAt, head_of, AnswerRead};

use crate::class::{answer_size, highest_pick, known_record, pick_count, span_fits, stamp_count};
use records::bytes::{short_at, short_in, word_at, word_in};
use records::limits::{
    ANSWER_HEADER, CLASS_PLACE, HIGHEST_M, HIGHEST_N, KIND_PLACE, LEAD_BYTES, LENGTH_BYTES,
    LENGTH_PLACE, N_PLACE, OFFSET, ROWS, SHORT_BYTES, SPAN_PLACE, STAMP_LIMIT, START_PLACE, STRIDE,
};
use records::offset::{blank_or_within, offset, offset_32};
use records::refusal::Refusal;

// The class of an answer, its span's offset number and its start. Public for `answer_writer`, `checker`, `engine` and `grounds`, which hand
// them on together. The class is a number, not a `Class`: the C interface hands the writer any number (refusal 10).
#[derive(Clone, Copy, Debug, PartialEq, Eq)]
pub struct Head {
    pub class: u64,
    pub span: u64,
    pub start: u64,
}

// Class, span and start in the first bytes of an answer. A byte past the end counts as 0, also in what follows.
fn head_at(bytes: &[u8]) -> Head
    ensures { HeadAt bytes.now result }
{
    Head {
        class: u64::from(short_at(bytes, CLASS_PLACE)),
        span: offset(u64::from(word_at(bytes, SPAN_PLACE))),
        start: u64::from(short_at(bytes, START_PLACE)),
    }
}

// The first bytes of an answer and its size: class, span and start, or the first of refusals 4 and 8 to 11. Public for the
// checker's `input`.
pub fn read_answer_header(bytes: &[u8], size: usize, n: usize, m: usize) -> Result<Head, Refusal>
    ensures { head_of result ≡ answer_header_outcome bytes.now size n m }
{
    let length = word_at(bytes, LENGTH_PLACE) as usize;
    let kind = u64::from(short_at(bytes, KIND_PLACE));
    let own = short_at(bytes, N_PLACE) as usize;
    let head = head_at(bytes);
    if HIGHEST_N < n || HIGHEST_M < m {
        return Err(Refusal::Limits);
    }
    if size < ANSWER_HEADER {
        return Err(Refusal::AnswerShort);
    }
    if length + LENGTH_BYTES != size {
        return Err(Refusal::AnswerLength);
    }
    if !known_record(kind, head.class, head.start, n) {
        return Err(Refusal::AnswerClass);
    }
    if own != n || size != answer_size(head.class, n, m) {
        return Err(Refusal::AnswerSize);
    }
    Ok(head)
}

// Stamp i, an offset number, has its form: stamp 0 is 0, the others are blank or within their limit.
pub fn stamp_fits(i: usize, k: u64) -> bool
    ensures { result ≡ stamp_fits i (trop_of k) }
{
    if i == 0 {
        k == OFFSET
    } else {
        blank_or_within(STAMP_LIMIT, k)
    }
}

// The stamps, offset numbers, have their form. Public for `answer_writer::writer`.
pub fn stamps_fit(stamps: &[u64]) -> bool
    ensures { result ≡ stamps_fit (map trop_of stamps.now) }
{
    stamps.iter().enumerate().all(|(i, k)| stamp_fits(i, *k))
}

// No pick is above the highest.
fn picks_fit(picks: &[u64], highest: u64) -> bool
    ensures { result ≡ picks_fit highest picks.now }
{
    picks.iter().all(|pick| *pick <= highest)
}

// The first of refusals 12 and 13 that applies to the fields. Public for `answer_writer::writer`.
pub fn judge_form(
    head: Head,
    stamps: &[u64],
    picks: &[u64],
    n: usize,
    m: usize,
) -> Result<(), Refusal>
    requires { (n ≤ highest_n) × (m ≤ highest_m) }
    ensures { refused_by result ≡ form_refusal (fields_of head stamps.now picks.now) n m }
{
    if !span_fits(head.class, head.span) || !stamps_fit(stamps) {
        return Err(Refusal::Form);
    }
    if !picks_fit(picks, highest_pick(head.class, n, m)) {
        return Err(Refusal::Pick);
    }
    Ok(())
}

// The stamp at a place that lies inside the bytes.
fn stamp_at(bytes: &[u8], i: usize) -> u64
    requires { answer_header + signed_bytes * i + signed_bytes ≤ length bytes.now }
    ensures { (result ≡ off (num_at signed_bytes bytes.now (answer_header + signed_bytes * i))) × (result < signed_full) }
{
    u64::from(offset_32(word_in(bytes, ANSWER_HEADER + LEAD_BYTES * i)))
}

// The pick at a place that lies inside the bytes, behind so many stamps.
fn pick_at(bytes: &[u8], stamps: usize, i: usize) -> u64
    requires { answer_header + signed_bytes * stamps + short_bytes * i + short_bytes ≤ length bytes.now }
    ensures { (result ≡ num_at short_bytes bytes.now (answer_header + signed_bytes * stamps + short_bytes * i)) × (result < short_full) }
{
    u64::from(short_in(bytes, ANSWER_HEADER + LEAD_BYTES * stamps + SHORT_BYTES * i))
}

// The stamps in the bytes, and 0 behind them. By `array::from_fn`, as in `merging`, a check of a short record would take a twentieth more.
fn stamps_from(bytes: &[u8], count: usize) -> [u64; STRIDE]
    requires { (count ≤ stride) × (answer_header + signed_bytes * count ≤ length bytes.now) }
    ensures { Padded stride (stamps_at bytes.now count) result }
{
    let mut out = [0u64; STRIDE];
    for i in 0..count {
        out[i] = stamp_at(bytes, i);
    }
    out
}

// The picks in the bytes behind so many stamps, and 0 behind them.
fn picks_from(bytes: &[u8], stamps: usize, count: usize) -> [u64; ROWS]
    requires { (count ≤ table_rows) × (answer_header + signed_bytes * stamps + short_bytes * count ≤ length bytes.now) }
    ensures { Padded table_rows (picks_at bytes.now stamps count) result }
{
    let mut out = [0u64; ROWS];
    for i in 0..count {
        out[i] = pick_at(bytes, stamps, i);
    }
    out
}

// An answer read with the problem's n and m: its class, span and start, its stamps and picks in the two arrays with 0 behind
// them; or the first of refusals 4 and 8 to 13, and the arrays as they were.
pub fn read_answer(
    bytes: &[u8],
    n: usize,
    m: usize,
    stamps: &mut [u64; STRIDE],
    picks: &mut [u64; ROWS],
) -> Result<Head, Refusal>
    ensures { AnswerRead bytes.now n m result stamps.old stamps.new picks.old picks.new }
{
    let head = read_answer_header(bytes, bytes.len(), n, m)?;
    let s = stamp_count(head.class, n);
    let p = pick_count(head.class, n, m);
    let read_stamps = stamps_from(bytes, s);
    let read_picks = picks_from(bytes, s, p);
    judge_form(head, &read_stamps[..s], &read_picks[..p], n, m)?;
    *stamps = read_stamps;
    *picks = read_picks;
    Ok(head)
}
