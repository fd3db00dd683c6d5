// What depends on an answer's class: 1 least, 2 bottomless, 3 none. Document 01, "Records"; document 02, 2.4. The class is a number here,
// not a `Class`: the C interface hands the writer any number, and one that is no class has its own answers (refusal 10).
ghost use Rattle.std.specs.Prelude.{◌≡◌, ◌≤◌, ◌&&◌, eqb};
ghost use Rattle.definitions.specs.Limits.{highest_n, highest_m, answer_kind, answer_most, stride, table_rows};
ghost use Rattle.definitions.specs.Offset.{trop_of};
ghost use Rattle.definitions.specs.AnswerRecord.{known_class, start_fits, stamp_count, pick_count, highest_pick, answer_size, span_fits};

use records::limits::{
    ANSWER_HEADER, ANSWER_KIND, INFEASIBLE, LEAD_BYTES, OPTIMAL, SHORT_BYTES, SPAN_LIMIT, UNBOUNDED,
};
use records::offset::whole_within;

// The class is 1, 2 or 3, and the start is one of the class: 0 or 1 for least and none, for bottomless 1 + the number of a moment.
// Public for `answer_writer::writer`.
pub fn start_fits(class: u64, start: u64, n: usize) -> bool
    requires { n ≤ highest_n }
    ensures { result ≡ (known_class class && start_fits class start n) }
{
    match class {
        OPTIMAL | INFEASIBLE => start <= 1,
        UNBOUNDED => 0 < start && start <= n as u64 + 1,
        _ => false,
    }
}

// How many stamps an answer of this class has: n + 1 for least, else none.
// Public for `answer`, `answer_writer` and `engine::solve`.
pub fn stamp_count(class: u64, n: usize) -> usize
    requires { n ≤ highest_n }
    ensures { (result ≡ stamp_count class n) × (result ≤ stride) }
{
    if class == OPTIMAL { n + 1 } else { 0 }
}

// How many picks: one a row for bottomless, one a moment for least and none.
// Public for `answer`, `answer_writer` and `engine::solve`.
pub fn pick_count(class: u64, n: usize, m: usize) -> usize
    requires { (n ≤ highest_n) × (m ≤ highest_m) }
    ensures { (result ≡ pick_count class n m) × (result ≤ table_rows) }
{
    match class {
        OPTIMAL | INFEASIBLE => n + 1,
        UNBOUNDED => m + 1,
        _ => 0,
    }
}

// The highest pick: 1 + a moment's number for bottomless, m + 1, the question, for least and none. Public for `answer`.
pub fn highest_pick(class: u64, n: usize, m: usize) -> u64
    requires { (n ≤ highest_n) × (m ≤ highest_m) }
    ensures { result ≡ highest_pick class n m }
{
    match class {
        OPTIMAL | INFEASIBLE => m as u64 + 1,
        UNBOUNDED => n as u64 + 1,
        _ => 0,
    }
}

// The span, an offset number, has the form of its class: whole and within its limit for least, blank for bottomless and none.
// Public for `answer`.
pub fn span_fits(class: u64, span: u64) -> bool
    ensures { result ≡ span_fits class (trop_of span) }
{
    match class {
        OPTIMAL => whole_within(SPAN_LIMIT, span),
        UNBOUNDED | INFEASIBLE => span == 0,
        _ => false,
    }
}

// The size of an answer record. Public for `answer` and `answer_writer::writer`.
pub fn answer_size(class: u64, n: usize, m: usize) -> usize
    requires { (n ≤ highest_n) × (m ≤ highest_m) }
    ensures { (result ≡ answer_size class n m) × (result ≤ answer_most) }
{
    ANSWER_HEADER + LEAD_BYTES * stamp_count(class, n) + SHORT_BYTES * pick_count(class, n, m)
}

// The kind is an answer's, the class is one that answers have, and the start is one of the class. Public for `answer`.
pub fn known_record(kind: u64, class: u64, start: u64, n: usize) -> bool
    requires { n ≤ highest_n }
    ensures { result ≡ (eqb kind answer_kind && (known_class class && start_fits class start n)) }
{
    kind == ANSWER_KIND && start_fits(class, start, n)
}
