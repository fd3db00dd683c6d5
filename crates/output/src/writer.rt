// What the programs put out: a record or a line, appended through a writer. The writer borrows a lent slice and holds the
// next place in it. Its methods leave the work to `printing::text::append`; `write`, with plain parameters, stands above
// them.
ghost use Rattle.std.specs.Prelude.{◌≡◌, ◌≤◌, length, take};
ghost use Rattle.definitions.specs.Offset.{trop_of};
ghost use Rattle.definitions.specs.Programs.{refused_line, verdict_line};
ghost use Rattle.definitions.specs.Verdict.{accepted, refused};
ghost use Rattle.printing.specs.Text.{Appended, Output, line_most};
ghost use Rattle.output.specs.Written.{writer_after};

use printing::lines::{LINE_MOST, accepted_line, refused_line, turned_away_line};
use printing::text::append;

// A lent slice, and the place in it where the next record or line goes.
#[derive(Drop)]
pub struct Writer<'a> {
    buf: &'a mut [u8],
    at: usize,
}

impl<'a> Writer<'a> {
    // The writer on a slice, at a place of it.
    pub fn new(buf: &'a mut [u8], at: usize) -> Writer<'a>
        ensures { (result.buf ≡ buf.entry) × (result.at ≡ at) }
    {
        Writer { buf, at }
    }

    // Appends a record or a line: the same slice, and the next place.
    pub fn append(&mut self, text: &[u8])
        ensures { self.new ≡ writer_after self.old text.now }
    {
        self.at = append(self.buf, self.at, text);
    }

    // The next place. The slice goes back, as it is, to whom it was lent by.
    pub fn place(self) -> usize
        ensures { (result ≡ self.entry.at) × (self.exit.0.now ≡ self.entry.buf.now) }
    {
        self.at
    }
}

// Writes a record or a line at place `at`, through a writer, and gives the next place. Where there is no room nothing is
// written, and the place stays.
pub fn write(buf: &mut [u8], at: usize, text: &[u8]) -> usize
    ensures { Appended buf.old at text.now buf.new result }
{
    let mut w = Writer::new(buf, at);
    w.append(text);
    w.place()
}

// What the span program puts out for a problem that is answered: the record. Public for `span`.
pub fn write_record(buf: &mut [u8], answer: &[u8]) -> usize
    ensures { Output buf.old answer.now buf.new result }
{
    write(buf, 0, answer)
}

// What a program puts out of a buffer: the record of this size at its front. Where the buffer is shorter, nothing. Public
// for `span` and `convert`.
pub fn write_front(buf: &mut [u8], from: &[u8], size: usize) -> usize
    ensures inside { result ≤ length buf.old }
    ensures shown { size ≤ length from.now → size ≤ length buf.old → take result buf.new ≡ take size from.now }
{
    match from.get(..size) {
        Some(record) => write_record(buf, record),
        None => 0,
    }
}

// What the span program puts out for a refusal: its line. Public for `span` and `convert`. The two below do the same with other lines:
// a closure that puts the line would take its law as a parameter, and be no plainer.
pub fn write_refused(buf: &mut [u8], number: usize) -> usize
    ensures shown { Output buf.old (refused_line number) buf.new result }
    ensures short { length (refused_line number) ≤ line_most }
{
    let mut line = [0u8; LINE_MOST];
    let size = refused_line(&mut line, number);
    write(buf, 0, &line[..size])
}

// What the verdict program puts out for an accepted answer. Public for `verdict`.
pub fn write_accepted(buf: &mut [u8], class: u64, span: u64) -> usize
    ensures shown { Output buf.old (verdict_line (accepted class (trop_of span))) buf.new result }
    ensures short { length (verdict_line (accepted class (trop_of span))) ≤ line_most }
{
    let mut line = [0u8; LINE_MOST];
    let size = accepted_line(&mut line, class, span);
    write(buf, 0, &line[..size])
}

// What it puts out for one that is turned away. Public for `verdict` and `reasons`.
pub fn write_turned_away(buf: &mut [u8], number: usize) -> usize
    ensures shown { Output buf.old (verdict_line (refused number)) buf.new result }
    ensures short { length (verdict_line (refused number)) ≤ line_most }
{
    let mut line = [0u8; LINE_MOST];
    let size = turned_away_line(&mut line, number);
    write(buf, 0, &line[..size])
}
