// A problem from its bytes: its leads judged, and read into two lent tables.
ghost use Rattle.std.specs.Prelude.{◌≡◌, ◌+◌, ◌*◌, ◌-◌, ◌<◌, ◌≤◌, ◌&&◌, eqb, length};
ghost use Rattle.base.specs.Filled.{FilledFrom};
ghost use Rattle.definitions.specs.Limits.{lead_limit, signed_full, signed_bytes, states_kind, highest_n, highest_m, most_questions, leads_latest, questions_leads, questions_row, stride, table_size};
ghost use Rattle.definitions.specs.Bytes.{trop_field, some_below, blank_or_within};
ghost use Rattle.definitions.specs.ProblemRecord.{row_place, left_place, run_blank, wrong_state, problem_outcome, meant};
ghost use Rattle.definitions.specs.Questions.{alone};
ghost use Rattle.records.specs.ProblemHeader.{kinds_in, kind_number, header_of};
ghost use Rattle.problem_records.specs.Tables.{run_fits, row_blank, states_outcome, leads_outcome, lead_at, left_table, right_table, ProblemRead};
ghost use Rattle.problem_records.specs.Filling.{row_cell, RowOf, Framed, QuestionHeld, Tabled};
ghost use Rattle.problem_records.specs.InForce.{StatesHeld};

use crate::in_force::in_force;
use records::bytes::{short_at, word_in};
use records::idle::idle_day;
use records::limits::{
    HIGHEST_N, LEAD_BYTES, LEAD_LIMIT, OFFSET_32, PROBLEM_HEADER, QUESTIONS_HEADER, SHORT_BYTES,
    STATES_PLACE, STRIDE, TABLE,
};
use records::offset::offset_32;
use records::problem::{Kind, Kinds, Layout, lead_count, read_header};
use records::refusal::Refusal;

// The limit of leads in 32 bits.
const LEAD_LIMIT_32: u32 = LEAD_LIMIT as u32;

// The field of a blank lead, −2³¹, as an unsigned number.
const BLANK_32: u32 = OFFSET_32;

// A 4-byte field holds a lead: blank, or within the limit.
fn lead_fits(w: u32) -> bool
    requires { w < signed_full }
    ensures { result ≡ blank_or_within lead_limit (trop_field w) }
{
    let k = offset_32(w);
    k == 0 || OFFSET_32 - LEAD_LIMIT_32 <= k && k <= OFFSET_32 + LEAD_LIMIT_32
}

// Each of `count` leads of a problem from a place on is blank or within the limit. All are looked at, so that the loop has no
// branch.
fn leads_fit(bytes: &[u8], start: usize, count: usize) -> bool
    requires { (start ≤ leads_latest) × (count ≤ questions_leads) × (start + signed_bytes * count ≤ length bytes.now) }
    ensures { result ≡ run_fits bytes.now count start }
{
    let mut fit = true;
    for i in 0..count {
        fit &= lead_fits(word_in(bytes, start + LEAD_BYTES * i));
    }
    fit
}

// Each of `count` leads from a place of the bytes on is blank. All are looked at, so that the loop has no branch. Public for
// `converter::convert`.
pub fn all_blank(bytes: &[u8], start: usize, count: usize) -> bool
    requires { start + signed_bytes * count ≤ length bytes.now }
    ensures { result ≡ run_blank bytes.now count start }
{
    let mut blank = true;
    for i in 0..count {
        blank &= word_in(bytes, start + LEAD_BYTES * i) == BLANK_32;
    }
    blank
}

// One of the m rules of a record whose leads start at a place has an all-blank left list: it says nothing.
fn some_silent(bytes: &[u8], start: usize, n: usize, m: usize) -> bool
    requires { (n ≤ highest_n) × (row_place start n m ≤ length bytes.now) }
    ensures { result ≡ some_below (row_blank bytes.now start n) m }
{
    let step = 2 * LEAD_BYTES * (n + 1);
    for i in 0..m {
        if all_blank(bytes, start + step * i, n + 1) {
            return true;
        }
    }
    false
}

// The lead at a place of the bytes, as an offset number. Public for `closed_walks::arcs`, `strategy_tests::certify`.
pub fn lead_in(bytes: &[u8], at: usize) -> u32
    requires { at + signed_bytes ≤ length bytes.now }
    ensures { (result ≡ lead_at bytes.now at) × (result < signed_full) }
{
    offset_32(word_in(bytes, at))
}

// Where the leads of row i start, behind the ten bytes of a header, in a problem of n + 1 variables. Public for `closed_walks::arcs`, `plan_tests`,
// `strategy_tests::certify`.
pub fn row_place(n: usize, i: usize) -> usize
    requires { (n ≤ highest_n) × (i ≤ highest_m + most_questions) }
    ensures { (result ≡ left_place n i 0) × (result ≤ questions_row) }
{
    PROBLEM_HEADER + 2 * LEAD_BYTES * (i * (n + 1))
}

// `count` leads from a place of the bytes, then blanks. Public for `strategy_tests::starts`.
pub fn row_of(bytes: &[u8], at: usize, count: usize) -> [u32; STRIDE]
    requires { (count ≤ stride) × (at + signed_bytes * count ≤ length bytes.now) }
    ensures { RowOf (λ j. lead_at bytes.now (at + signed_bytes * j)) count result }
{
    let mut row = [0u32; STRIDE];
    for j in 0..count {
        row[j] = lead_in(bytes, at + LEAD_BYTES * j);
    }
    row
}

// n + 1 leads from a place of the bytes, then blanks. Rows of the full width have a call of their own, which is compiled for
// that length. It has one caller, and is put in there: a row that is handed over is stored twice.
fn leads_of(bytes: &[u8], at: usize, n: usize) -> [u32; STRIDE]
    requires { (n ≤ highest_n) × (at + signed_bytes * (n + 1) ≤ length bytes.now) }
    ensures { RowOf (λ j. lead_at bytes.now (at + signed_bytes * j)) (n + 1) result }
{
    if n == HIGHEST_N {
        return row_of(bytes, at, STRIDE);
    }
    row_of(bytes, at, n + 1)
}

// A row of a table: n + 1 leads from a place of the bytes, then blanks.
fn read_row(bytes: &[u8], at: usize, n: usize, table: &mut [u32], base: usize)
    requires { (n ≤ highest_n) × (at + signed_bytes * (n + 1) ≤ length bytes.now) × (base + stride ≤ length table.old) }
    ensures { FilledFrom (row_cell bytes.now at n) base stride table.old table.new }
{
    table[base..base + STRIDE].copy_from_slice(&leads_of(bytes, at, n));
}

// The leads of n + 1 variables in m + 1 rows, into the first m + 1 rows of both tables.
fn read_rows(bytes: &[u8], n: usize, m: usize, left: &mut [u32], right: &mut [u32])
    requires { Framed bytes.now n m left.old right.old }
    ensures { Tabled bytes.now n m (stride * (m + 1)) left.new right.new }
{
    for i in 0..m + 1 {
        let at = row_place(n, i);
        read_row(bytes, at, n, left, STRIDE * i);
        read_row(bytes, at + LEAD_BYTES * (n + 1), n, right, STRIDE * i);
    }
}

// The leads of n + 1 variables in m + 1 rows, into both tables; what lies past them is blank. Public for the checker's
// `check`.
pub fn read_tables(bytes: &[u8], n: usize, m: usize, left: &mut [u32], right: &mut [u32])
    requires { Framed bytes.now n m left.old right.old }
    ensures { Tabled bytes.now n m table_size left.new right.new }
{
    read_rows(bytes, n, m, left, right);
    let used = STRIDE * (m + 1);
    left[used..].fill(0);
    right[used..].fill(0);
}

// Question q of a record of several questions, into the row of the question of both tables, which hold the record's rules: then they are the
// tables of the kind 1 problem with that question alone. Public for the engine's `solve`.
pub fn read_question(
    bytes: &[u8],
    n: usize,
    m: usize,
    q: usize,
    left: &mut [u32; TABLE],
    right: &mut [u32; TABLE],
)
    requires { QuestionHeld bytes.now n m q left.old right.old }
    ensures { (left.new ≡ left_table (alone bytes.now q)) × (right.new ≡ right_table (alone bytes.now q)) }
{
    let at = row_place(n, m + q) + (QUESTIONS_HEADER - PROBLEM_HEADER);
    read_row(bytes, at, n, left, STRIDE * m);
    read_row(bytes, at + LEAD_BYTES * (n + 1), n, right, STRIDE * m);
}

// A state is neither 0 nor 1.
fn wrong_state(bytes: &[u8], i: usize) -> bool
    requires { i < highest_m }
    ensures { result ≡ wrong_state bytes.now i }
{
    1 < short_at(bytes, STATES_PLACE + SHORT_BYTES * i)
}

// One of the states of m rules is neither 0 nor 1.
fn some_wrong(bytes: &[u8], m: usize) -> bool
    requires { m ≤ highest_m }
    ensures { result ≡ some_below (wrong_state bytes.now) m }
{
    for i in 0..m {
        if wrong_state(bytes, i) {
            return true;
        }
    }
    false
}

// Refusal 20 applies, which concerns kind 5 alone.
fn states_wrong(bytes: &[u8], kind: Kind, m: usize) -> bool
    requires { m ≤ highest_m }
    ensures { result ≡ (eqb (kind_number kind) states_kind && some_below (wrong_state bytes.now) m) }
{
    kind == Kind::States && some_wrong(bytes, m)
}

// The header of a record whose states fit, in an entry that knows these kinds: where things stand in it, or the first of refusals 1 to
// 5, 15 and 20 that applies.
fn judge_states(bytes: &[u8], kinds: Kinds) -> Result<Layout, Refusal>
    ensures { header_of result ≡ states_outcome (kinds_in kinds) bytes.now }
{
    let layout = read_header(bytes, bytes.len(), kinds)?;
    if states_wrong(bytes, layout.kind, layout.m) {
        return Err(Refusal::State);
    }
    Ok(layout)
}

// The header of a record whose leads fit, in an entry that knows these kinds: where things stand in it, or the first of refusals 1 to 6, 15
// and 20 that applies. Public for `converter::convert`.
pub fn judge_leads(bytes: &[u8], kinds: Kinds) -> Result<Layout, Refusal>
    ensures { header_of result ≡ leads_outcome (kinds_in kinds) bytes.now }
{
    let layout = judge_states(bytes, kinds)?;
    let count = lead_count(layout.n, layout.m + layout.questions);
    if !leads_fit(bytes, layout.leads, count) {
        return Err(Refusal::Lead);
    }
    Ok(layout)
}

// The header of a problem within the layout, in an entry that knows these kinds: where things stand in it, or the first of refusals 1 to 6,
// 15, 17 and 20 that applies. Public for the checker's `check` and `input`.
pub fn judge_problem(bytes: &[u8], kinds: Kinds) -> Result<Layout, Refusal>
    ensures { header_of result ≡ problem_outcome (kinds_in kinds) bytes.now }
{
    let layout = judge_leads(bytes, kinds)?;
    if some_silent(bytes, layout.leads, layout.n, layout.m) {
        return Err(Refusal::Silent);
    }
    Ok(layout)
}

// The leads of a record of kind 5, into both tables; the rows of suspended rules are blank.
fn read_in_force(bytes: &[u8], n: usize, m: usize, left: &mut [u32], right: &mut [u32])
    requires { StatesHeld bytes.now n m × (length left.old ≡ table_size) × (length right.old ≡ table_size) }
    ensures { (left.new ≡ left_table bytes.now) × (right.new ≡ right_table bytes.now) }
{
    let room = in_force(bytes, n, m);
    read_tables(&room, n, m, left, right);
}

// A problem record, into two lent tables: its layout, with the leads of its rules and of its first question as offset numbers
// in rows of 32, or the first of refusals 1 to 6, 15, 17 and 20 that applies, in an entry that knows these kinds. A refused problem leaves both tables as
// they are.
fn read_record(
    bytes: &[u8],
    kinds: Kinds,
    left: &mut [u32; TABLE],
    right: &mut [u32; TABLE],
) -> Result<Layout, Refusal>
    ensures { ProblemRead (kinds_in kinds) bytes.now left.old right.old result left.new right.new }
{
    let layout = judge_problem(bytes, kinds)?;
    match layout.kind {
        Kind::States => read_in_force(bytes, layout.n, layout.m, left, right),
        Kind::Problem | Kind::Questions => {
            let behind = &bytes[layout.leads - PROBLEM_HEADER..];
            read_tables(behind, layout.n, layout.m, left, right);
        }
    }
    Ok(layout)
}

// A problem from its bytes, the same way; no bytes mean the idle day.
pub fn read_problem(
    bytes: &[u8],
    kinds: Kinds,
    left: &mut [u32; TABLE],
    right: &mut [u32; TABLE],
) -> Result<Layout, Refusal>
    ensures { ProblemRead (kinds_in kinds) (meant bytes.now) left.old right.old result left.new right.new }
{
    if bytes.is_empty() {
        return read_record(&idle_day(), kinds, left, right);
    }
    read_record(bytes, kinds, left, right)
}
