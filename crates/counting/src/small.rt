// The records of the problems of a census, by their numbers, and how each is counted.
ghost use Rattle.std.specs.Prelude.{◌≡◌, ◌+◌, ◌*◌, ◌≤◌, ◌<◌, map, length};
ghost use Rattle.definitions.specs.Limits.{lead_limit, signed_bytes, problem_header};
ghost use Rattle.definitions.specs.Bytes.{put, fields, field_of};
ghost use Rattle.definitions.specs.ProblemRecord.{header_bytes};
ghost use Rattle.definitions.specs.Census.{leads_up_to, lead_count, census_lead, CountsAs};
ghost use Rattle.counting.specs.Steps.{few_leads, leads_at, Posed, counts_as};

use answer_writer::writer::{put_short, put_word};
use engine::solve::{Solution, solve};
use records::class::Class;
use records::limits::{
    ANSWER_MOST, KIND_PLACE, LEAD_BYTES, LENGTH_BYTES, LENGTH_PLACE, M_PLACE, N_PLACE, OFFSET,
    PROBLEM_HEADER, PROBLEM_KIND,
};
use records::offset::offset;

// The 4-byte field of a lead by its number: 0 is blank, then come −w to w.
fn lead_field(w: u64, number: u64) -> u64
    requires { (w ≤ lead_limit) × (number < leads_up_to w) }
    ensures { result ≡ field_of (census_lead w number) }
{
    if number == 0 {
        return OFFSET;
    }
    offset(OFFSET + number - 1 - w)
}

// Puts the header of the problems of n and m, with so many leads.
pub fn put_head(buffer: &mut [u8], n: usize, m: usize, leads: usize)
    requires { (problem_header ≤ length buffer.old) × (leads ≡ lead_count n m) × (leads ≤ few_leads) }
    ensures { buffer.new ≡ put buffer.old 0 (header_bytes n m) }
{
    let size = PROBLEM_HEADER + LEAD_BYTES * leads;
    put_word(buffer, LENGTH_PLACE, (size - LENGTH_BYTES) as u64);
    put_short(buffer, KIND_PLACE, PROBLEM_KIND as u64);
    put_short(buffer, N_PLACE, n as u64);
    put_short(buffer, M_PLACE, m as u64);
}

// Puts the leads of a problem behind its header: the digits of its number, the lowest first.
pub fn put_leads(buffer: &mut [u8], leads: usize, w: u64, number: u64)
    requires { (problem_header + signed_bytes * leads ≤ length buffer.old) × (w ≤ lead_limit) }
    ensures { buffer.new ≡ put buffer.old problem_header (fields signed_bytes (map field_of (leads_at w leads number))) }
{
    let base = 2 * w + 2;
    let mut rest = number;
    for i in 0..leads {
        put_word(
            buffer,
            PROBLEM_HEADER + LEAD_BYTES * i,
            lead_field(w, rest % base),
        );
        rest /= base;
    }
}

// The class of a problem, by which it is counted; none where it is under refusal 17.
pub fn counted_as(problem: &[u8]) -> Option<Class>
    requires { Posed problem.now }
    ensures { CountsAs problem.now (counts_as result) }
{
    let mut answer = [0u8; ANSWER_MOST];
    match solve(problem, &mut answer) {
        Ok(Solution::One(answered)) => Some(answered.class),
        Ok(Solution::All { .. }) => unreachable!(),
        Err(_) => None,
    }
}
