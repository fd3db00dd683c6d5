// The problem record: its header judged.
ghost use Rattle.std.specs.Prelude.{◌≡◌, ◌+◌, ◌*◌, ◌<◌, ◌≤◌};
ghost use Rattle.definitions.specs.Limits.{highest_n, highest_m, signed_full, short_full, stride, questions_kind, leads_latest};
ghost use Rattle.definitions.specs.Bytes.{first, outcome};
ghost use Rattle.definitions.specs.ProblemRecord.{leads_place, questions_asked, record_size, wrong_count, counts_refused, header_judged, header_outcome};
ghost use Rattle.records.specs.Refusals.{refused_by};
ghost use Rattle.records.specs.ProblemHeader.{kinds_in, kind_number, Knows, layout_in, layout_by, header_of, FieldsAt};

use crate::bytes::{short_at, word_at};
use crate::limits::{
    COUNT_PLACE, HIGHEST_M, HIGHEST_N, KIND_PLACE, LEAD_BYTES, LENGTH_BYTES, LENGTH_PLACE, M_PLACE,
    MOST_QUESTIONS, N_PLACE, PROBLEM_HEADER, PROBLEM_KIND, QUESTIONS_HEADER, QUESTIONS_KIND,
    SHORT_BYTES, STATES_KIND, STATES_PLACE,
};
use crate::refusal::Refusal;

// The kinds of problem records: one question, several questions, rules with states.
#[derive(Clone, Copy, Debug, PartialEq, Eq)]
pub enum Kind {
    Problem,
    Questions,
    States,
}

// The kinds that an entry knows beside kind 1: whether kind 3, several questions, and whether kind 5, states of rules.
#[derive(Clone, Copy)]
pub struct Kinds {
    pub several: bool,
    pub states: bool,
}

// Those of the engine and the problem reader: 1, 3 and 5.
pub const ENGINE_KINDS: Kinds = Kinds {
    several: true,
    states: true,
};

// Those of the checker: 1 and 5.
pub const CHECKER_KINDS: Kinds = Kinds {
    several: false,
    states: true,
};

// Those of the converter: 1 and 3.
pub const CONVERTER_KINDS: Kinds = Kinds {
    several: true,
    states: false,
};

// Those of the desk: 1 alone.
pub const DESK_KINDS: Kinds = Kinds {
    several: false,
    states: false,
};

// Where things stand in a problem record: its kind, n and m, where its leads start, and how many questions follow its rules.
#[derive(Clone, Copy)]
pub struct Layout {
    pub kind: Kind,
    pub n: usize,
    pub m: usize,
    pub leads: usize,
    pub questions: usize,
}

// The numbers of a header. The count is that of a record of several questions; in others it plays no part.
#[derive(Clone, Copy)]
struct Fields {
    length: usize,
    kind: u16,
    n: usize,
    m: usize,
    count: usize,
}

// How many leads `rows` rows have. Public for `problem_records::reader`.
pub fn lead_count(n: usize, rows: usize) -> usize
    requires { (n ≤ highest_n) × (rows < 2 * short_full) }
    ensures { (result ≡ 2 * ((n + 1) * rows)) × (result ≤ 2 * (stride * rows)) }
{
    2 * ((n + 1) * rows)
}

// Where the leads of a record of this kind with m rules start.
fn leads_place(kind: Kind, m: usize) -> usize
    requires { m < short_full }
    ensures { (result ≡ leads_place (kind_number kind) m) × (result ≤ 2 * short_full + leads_latest) }
{
    match kind {
        Kind::Problem => PROBLEM_HEADER,
        Kind::Questions => QUESTIONS_HEADER,
        Kind::States => STATES_PLACE + SHORT_BYTES * m,
    }
}

// How many questions it asks.
fn questions_asked(kind: Kind, count: usize) -> usize
    requires { count < short_full }
    ensures { (result ≡ questions_asked (kind_number kind) count) × (result < short_full) }
{
    match kind {
        Kind::Questions => count,
        Kind::Problem | Kind::States => 1,
    }
}

// The size of a problem record, from n and m within their limits.
fn record_size(kind: Kind, n: usize, m: usize, count: usize) -> usize
    requires { (n ≤ highest_n) × (m ≤ highest_m) × (count < short_full) }
    ensures { result ≡ record_size (kind_number kind) n m count }
{
    let rows = m + questions_asked(kind, count);
    leads_place(kind, m) + LEAD_BYTES * lead_count(n, rows)
}

// A record that reaches to the end of its count asks no question, or too many.
fn count_outside(size: usize, count: usize) -> bool
    ensures { result ≡ wrong_count size questions_kind count }
{
    QUESTIONS_HEADER <= size && (count == 0 || MOST_QUESTIONS < count)
}

// Refusal 15 applies.
fn wrong_count(size: usize, kind: Kind, count: usize) -> bool
    ensures { result ≡ wrong_count size (kind_number kind) count }
{
    kind == Kind::Questions && count_outside(size, count)
}

// Refusals 4, 15 and 5: n and m against their limits, the count, then the size.
fn judge_counts(size: usize, kind: Kind, n: usize, m: usize, count: usize) -> Result<(), Refusal>
    requires { count < short_full }
    ensures { refused_by result ≡ first (counts_refused size (kind_number kind) n m count) }
{
    if HIGHEST_N < n || HIGHEST_M < m {
        return Err(Refusal::Limits);
    }
    if wrong_count(size, kind, count) {
        return Err(Refusal::Count);
    }
    if size != record_size(kind, n, m, count) {
        return Err(Refusal::Size);
    }
    Ok(())
}

// The kind with this number, where the entry knows it.
fn known(kinds: Kinds, number: u16) -> Option<Kind>
    ensures { Knows (kinds_in kinds) number result }
{
    match number {
        PROBLEM_KIND => Some(Kind::Problem),
        QUESTIONS_KIND if kinds.several => Some(Kind::Questions),
        STATES_KIND if kinds.states => Some(Kind::States),
        0.. => None,
    }
}

// The layout that a header's numbers tell, in a record of this kind.
fn layout_of(kind: Kind, fields: Fields) -> Layout
    requires { (fields.count < short_full) × (fields.m < short_full) }
    ensures { layout_in result ≡ layout_by (kind_number kind) fields.n fields.m fields.count }
{
    Layout {
        kind,
        n: fields.n,
        m: fields.m,
        leads: leads_place(kind, fields.m),
        questions: questions_asked(kind, fields.count),
    }
}

// The layout that a header's numbers tell, or the first of refusals 1 to 5 and 15 that applies to them.
fn judge(kinds: Kinds, size: usize, fields: Fields) -> Result<Layout, Refusal>
    requires { (fields.length < signed_full) × (fields.count < short_full) × (fields.m < short_full) }
    ensures { header_of result ≡ outcome (header_judged (kinds_in kinds) size fields.length fields.kind fields.n fields.m fields.count) (layout_by fields.kind fields.n fields.m fields.count) }
{
    let whole = fields.length + LENGTH_BYTES;
    if size < PROBLEM_HEADER {
        return Err(Refusal::Short);
    }
    if whole != size {
        return Err(Refusal::Length);
    }
    let Some(kind) = known(kinds, fields.kind) else {
        return Err(Refusal::Kind);
    };
    judge_counts(size, kind, fields.n, fields.m, fields.count)?;
    Ok(layout_of(kind, fields))
}

// The numbers of a header. A program may hold only the first bytes of a longer input; a byte past the end counts as 0.
fn fields_at(bytes: &[u8]) -> Fields
    ensures { FieldsAt bytes.now result }
{
    Fields {
        length: word_at(bytes, LENGTH_PLACE) as usize,
        kind: short_at(bytes, KIND_PLACE) as u16,
        n: short_at(bytes, N_PLACE) as usize,
        m: short_at(bytes, M_PLACE) as usize,
        count: short_at(bytes, COUNT_PLACE) as usize,
    }
}

// The header of a problem from its first bytes and its size: the layout, or the first of refusals 1 to 5 and 15 that applies, in an
// entry that knows these kinds.
pub fn read_header(bytes: &[u8], size: usize, kinds: Kinds) -> Result<Layout, Refusal>
    ensures { header_of result ≡ header_outcome (kinds_in kinds) bytes.now size }
{
    judge(kinds, size, fields_at(bytes))
}
