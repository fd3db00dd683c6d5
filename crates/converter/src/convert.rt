// A record of kind 1 or 3 copied into a lent buffer without the rules that have an all-blank left list.
ghost use Rattle.std.specs.Prelude.{◌≡◌, ◌+◌, ◌*◌, ◌-◌, ◌≤◌, ◌<◌, not, length};
ghost use Rattle.definitions.specs.Limits.{highest_m, most_questions, length_bytes, signed_bytes};
ghost use Rattle.definitions.specs.Bytes.{put};
ghost use Rattle.definitions.specs.ProblemRecord.{m_field, run_blank, blank_left};
ghost use Rattle.definitions.specs.Questions.{part};
ghost use Rattle.definitions.specs.Conversion.{rules_left, rows_left, converted_size, converted, Converts};
ghost use Rattle.converter.specs.Steps.{record_most, Stored, head_left, conversion_of};

use answer_writer::writer::{put_short, put_word};
use problem_records::reader::{all_blank, judge_leads};
use records::limits::{
    KIND_PLACE, LEAD_BYTES, LENGTH_BYTES, LENGTH_PLACE, M_PLACE, PROBLEM_HEADER,
};
use records::problem::{CONVERTER_KINDS, Layout, lead_count};
use records::refusal::Refusal;

// A stored record: its bytes, and where things stand in them.
#[derive(Clone, Copy)]
struct Record<'a> {
    bytes: &'a [u8],
    layout: Layout,
    ghost stored: { Stored bytes.now layout },
}

impl Record<'_> {
    // How many bytes a row has.
    fn row(&self) -> usize
        ensures { result ≡ 2 * signed_bytes * (self.now.layout.n + 1) }
    {
        2 * LEAD_BYTES * (self.layout.n + 1)
    }

    // The left list of rule i begins with so many blanks.
    fn begins_blank(&self, i: usize, count: usize) -> bool
        requires { (i < self.now.layout.m) × (count ≤ self.now.layout.n + 1) }
        ensures { result ≡ run_blank self.now.bytes.now count (self.now.layout.leads + 2 * signed_bytes * (self.now.layout.n + 1) * i) }
    {
        all_blank(self.bytes, self.layout.leads + self.row() * i, count)
    }

    // Rule i stays: its left list is not all blank.
    fn stays(&self, i: usize) -> bool
        requires { i < self.now.layout.m }
        ensures { result ≡ not (blank_left self.now.bytes.now i) }
    {
        !self.begins_blank(i, self.layout.n + 1)
    }

    // How many rules stay.
    fn rules_left(&self) -> usize
        ensures { (result ≡ rules_left self.now.bytes.now (m_field self.now.bytes.now)) × (result ≤ self.now.layout.m) }
    {
        (0..self.layout.m).filter(|&i| self.stays(i)).count()
    }

    // The size of the record with so many rules.
    fn size_left(&self, left: usize) -> usize
        requires { left + self.now.layout.questions ≤ highest_m + most_questions }
        ensures { (result ≡ self.now.layout.leads + 2 * signed_bytes * ((self.now.layout.n + 1) * (left + self.now.layout.questions))) × (result ≤ record_most) }
    {
        self.layout.leads + LEAD_BYTES * lead_count(self.layout.n, left + self.layout.questions)
    }

    // Puts `count` of its bytes from a place on at a place of the buffer.
    fn put_part(&self, from: usize, count: usize, out: &mut [u8], at: usize)
        requires { (from + count ≤ length self.now.bytes.now) × (at + count ≤ length out.old) }
        ensures { out.new ≡ put out.old at (part self.now.bytes.now from count) }
    {
        out[at..at + count].copy_from_slice(&self.bytes[from..from + count]);
    }

    // Puts what stands before the leads: the new length, kind and n, the new m, and the count where there is one.
    fn put_head(&self, left: usize, size: usize, out: &mut [u8])
        requires { (self.now.layout.leads ≤ length out.old) × (length_bytes ≤ size) }
        ensures { out.new ≡ put out.old 0 (head_left self.now.bytes.now (size - length_bytes) left) }
    {
        put_word(out, LENGTH_PLACE, (size - LENGTH_BYTES) as u64);
        self.put_part(KIND_PLACE, M_PLACE - KIND_PLACE, out, KIND_PLACE);
        put_short(out, M_PLACE, left as u64);
        self.put_part(
            PROBLEM_HEADER,
            self.layout.leads - PROBLEM_HEADER,
            out,
            PROBLEM_HEADER,
        );
    }

    // Puts the rows of the rules that stay behind the head, in their order: the next place moves by rows that stay alone.
    fn put_rows(&self, out: &mut [u8])
        requires { self.now.layout.leads + length (rows_left self.now.bytes.now (m_field self.now.bytes.now)) ≤ length out.old }
        ensures { out.new ≡ put out.old self.now.layout.leads (rows_left self.now.bytes.now (m_field self.now.bytes.now)) }
    {
        let row = self.row();
        let mut to = self.layout.leads;
        for i in 0..self.layout.m {
            if self.stays(i) {
                self.put_part(self.layout.leads + row * i, row, out, to);
                to += row;
            }
        }
    }

    // Puts the whole record at the front of the buffer.
    fn put(&self, left: usize, size: usize, out: &mut [u8])
        requires { (left ≡ rules_left self.now.bytes.now (m_field self.now.bytes.now)) × (size ≡ converted_size self.now.bytes.now) × (size ≤ length out.old) }
        ensures { out.new ≡ put out.old 0 (converted self.now.bytes.now) }
    {
        let row = self.row();
        self.put_head(left, size, out);
        self.put_rows(out);
        self.put_part(
            self.layout.leads + row * self.layout.m,
            row * self.layout.questions,
            out,
            self.layout.leads + row * left,
        );
    }
}

// A stored record converted: its size, with the record at the front of the buffer and every byte after it as it was; or the first of
// refusals 1 to 6 and 15, then 7 where the buffer is shorter than the record to be written, and the buffer as it was.
pub fn convert(bytes: &[u8], out: &mut [u8]) -> Result<usize, Refusal>
    ensures { Converts bytes.now out.old (conversion_of result) out.new }
{
    let layout = judge_leads(bytes, CONVERTER_KINDS)?;
    let record = Record { bytes, layout };
    let left = record.rules_left();
    let size = record.size_left(left);
    if out.len() < size {
        return Err(Refusal::Room);
    }
    record.put(left, size, out);
    Ok(size)
}
