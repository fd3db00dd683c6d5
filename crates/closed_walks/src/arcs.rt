// The table of arcs of a strategy, 32 rows of 32: 0 no arc, else 2³¹ plus the arc's weight, scaled.
ghost use Rattle.std.specs.Prelude.{◌≡◌, ℕ, suc, ◌+◌, ◌*◌, ◌<◌, ◌≤◌, length, slice_index};
ghost use Rattle.base.specs.Filled.{FilledFrom};
ghost use Rattle.definitions.specs.Limits.{lead_limit, span_limit, arcs_size, stride, table_size};
ghost use Rattle.records.specs.Decoded.{Near};
ghost use Rattle.problem_records.specs.Tables.{left_table, right_table};
ghost use Rattle.closed_walks.specs.Tables.{Sized, Picked, Trial};
ghost use Rattle.closed_walks.specs.Arcs.{raised_by, lift, lift_most, lifted, LiftSized, LiftFilled, variable_arc, VariableArcs, fall, fall_most, fallen, RowArcs, Column};

use problem_records::laid::Rows;
use problem_records::reader::lead_in;
use records::limits::{
    ARCS, LEAD_BYTES, LEAD_LIMIT, OFFSET, ROWS, STRIDE, STRIDE_32, STRIDE_64, TABLE,
};

// The offset number of the least lead.
const LEAST_LEAD: u32 = (OFFSET - LEAD_LIMIT) as u32;

// What row i is raised by: t for the objective, 0 for an inequality.
fn raise_of(t: u64, m: usize, i: usize) -> u64
    requires { Trial t }
    ensures { (result ≡ raised_by t m i) × Near (suc span_limit) result × (0 < result) }
{
    if i == m { t } else { OFFSET }
}

// ---- classes 1 and 3

// An entry but for its right coefficient: left coefficient a, raise r.
fn lift_of(a: u32, r: u64) -> u32
    requires { Near lead_limit a × (0 < a) × Near (suc span_limit) r × (0 < r) }
    ensures { (result ≡ lift a r) × (result ≤ lift_most) }
{
    ((OFFSET + STRIDE_64 * r + 1) - STRIDE_64 * (a as u64 + LEAD_LIMIT)) as u32
}

// An entry with right coefficient b; none where it is blank.
fn lifted_by(up: u32, b: u32) -> u32
    requires { (up ≤ lift_most) × Near lead_limit b }
    ensures { result ≡ lifted up b }
{
    if b == 0 {
        0
    } else {
        up + STRIDE_32 * (b - LEAST_LEAD)
    }
}

// The entries from one variable, whose row of the table starts at `from`, by a row whose right leads start at a place of the
// bytes.
fn fill_run(arcs: &mut [u32; ARCS], from: usize, bytes: &[u8], at: usize, width: usize, up: u32)
    requires { LiftSized arcs.old from bytes.now at width up }
    ensures { LiftFilled from bytes.now at width up arcs.old arcs.new }
{
    for l in 0..width {
        arcs[from + l] = lifted_by(up, lead_in(bytes, at + LEAD_BYTES * l));
    }
}

// The same. Rows of the full width have a call of their own, which is compiled for that length.
fn fill_lifted(arcs: &mut [u32; ARCS], from: usize, bytes: &[u8], at: usize, width: usize, up: u32)
    requires { LiftSized arcs.old from bytes.now at width up }
    ensures { LiftFilled from bytes.now at width up arcs.old arcs.new }
{
    if width == STRIDE {
        fill_run(arcs, from, bytes, at, STRIDE, up);
    } else {
        fill_run(arcs, from, bytes, at, width, up);
    }
}

// No entries from one variable.
fn fill_none(arcs: &mut [u32; ARCS], from: usize, width: usize)
    requires { (length arcs.old ≡ arcs_size) × (from + width ≤ arcs_size) }
    ensures { FilledFrom (λ _. 0) from width arcs.old arcs.new }
{
    arcs[from..from + width].fill(0);
}

// The entries from variable j by the row that it picks.
fn fill_variable(arcs: &mut [u32; ARCS], rows: &Rows, t: u64, pick: usize, j: usize)
    requires { Trial t × (length arcs.old ≡ arcs_size) × (pick ≤ rows.now.m + 1) × (j ≤ rows.now.n) }
    ensures { FilledFrom (variable_arc (left_table rows.now.bytes.now) (right_table rows.now.bytes.now) rows.now.m t pick j) (j * stride) (rows.now.n + 1) arcs.old arcs.new }
{
    let from = j * STRIDE;
    let width = rows.n + 1;
    if pick == 0 {
        fill_none(arcs, from, width);
        return;
    }
    let i = pick - 1;
    let a = rows.left(i, j);
    if a == 0 {
        fill_none(arcs, from, width);
        return;
    }
    let up = lift_of(a, raise_of(t, rows.m, i));
    fill_lifted(arcs, from, rows.bytes, rows.right_start(i), width, up);
}

// The table of a strategy of variables, for a problem as bytes. Public for `strategy_tests::certify`.
pub fn variable_arcs(arcs: &mut [u32; ARCS], rows: &Rows, picks: &[u64; ROWS], t: u64)
    requires { Trial t × (length arcs.old ≡ arcs_size) × Picked picks.now (rows.now.m + 1) }
    ensures { VariableArcs (left_table rows.now.bytes.now) (right_table rows.now.bytes.now) rows.now.m t picks.now (rows.now.n + 1) (rows.now.n + 1) arcs.new }
{
    for j in 0..rows.n + 1 {
        fill_variable(arcs, rows, t, picks[j] as usize, j);
    }
}

// ---- class 2

// An entry but for its left coefficient: right coefficient b, raise r.
fn fall_of(b: u32, r: u64) -> u32
    requires { Near lead_limit b × (0 < b) × Near (suc span_limit) r × (0 < r) }
    ensures { (result ≡ fall b r) × (result ≤ fall_most) }
{
    ((OFFSET + OFFSET + LEAST_LEAD as u64) - (b as u64 + r)) as u32
}

// An entry with left coefficient a; none where it is blank.
fn fallen_by(down: u32, a: u32) -> u32
    requires { (down ≤ fall_most) × Near lead_limit a }
    ensures { result ≡ fallen down a }
{
    if a == 0 { 0 } else { down + (a - LEAST_LEAD) }
}

// The entries by one row, whose left coefficients start at `base`, to variable l: each where it is the heaviest so far.
fn fill_column(
    arcs: &mut [u32; ARCS],
    left: &[u32; TABLE],
    base: usize,
    l: usize,
    width: usize,
    down: u32,
)
    requires { (length arcs.old ≡ arcs_size) × (width ≤ stride) × (l < width) × (base + width ≤ table_size) × (down ≤ fall_most) × ((k : ℕ) → Near lead_limit (slice_index left.now k)) }
    ensures { Column (λ j. fallen down (slice_index left.now (base + j))) l width arcs.old arcs.new }
{
    for j in 0..width {
        let at = j * STRIDE + l;
        arcs[at] = arcs[at].max(fallen_by(down, left[base + j]));
    }
}

// Two tables of coefficients for n + 1 variables and m + 1 rows.
#[derive(Clone, Copy)]
pub struct Tables<'a> {
    pub left: &'a [u32; TABLE],
    pub right: &'a [u32; TABLE],
    pub n: usize,
    pub m: usize,
    pub ghost sized: { Sized left.now right.now n m },
}

// The entries by row i, to the variable that it picks.
fn fill_row(arcs: &mut [u32; ARCS], tables: &Tables, picks: &[u64; ROWS], t: u64, i: usize)
    requires { Trial t × RowArcs tables.now.left.now tables.now.right.now tables.now.m t picks.now (tables.now.n + 1) i arcs.old × Picked picks.now (tables.now.n + 1) × (i ≤ tables.now.m) }
    ensures { RowArcs tables.now.left.now tables.now.right.now tables.now.m t picks.now (tables.now.n + 1) (i + 1) arcs.new }
{
    let pick = picks[i] as usize;
    if pick == 0 {
        return;
    }
    let l = pick - 1;
    let base = i * STRIDE;
    let b = tables.right[base + l];
    if b == 0 {
        return;
    }
    let down = fall_of(b, raise_of(t, tables.m, i));
    fill_column(arcs, tables.left, base, l, tables.n + 1, down);
}

// An empty table.
fn clear_arcs(arcs: &mut [u32; ARCS], width: usize)
    requires { (length arcs.old ≡ arcs_size) × (width ≤ stride) }
    ensures { (length arcs.new ≡ arcs_size) × ((j l : ℕ) → j < width → l < width → slice_index arcs.new (j * stride + l) ≡ 0) }
{
    for j in 0..width {
        fill_none(arcs, j * STRIDE, width);
    }
}

// The table of a strategy of rows. Public for `strategy_tests::certify`.
pub fn row_arcs(arcs: &mut [u32; ARCS], tables: &Tables, picks: &[u64; ROWS], t: u64)
    requires { Trial t × (length arcs.old ≡ arcs_size) × Picked picks.now (tables.now.n + 1) }
    ensures { RowArcs tables.now.left.now tables.now.right.now tables.now.m t picks.now (tables.now.n + 1) (tables.now.m + 1) arcs.new }
{
    clear_arcs(arcs, tables.n + 1);
    for i in 0..tables.m + 1 {
        fill_row(arcs, tables, picks, t, i);
    }
}
