// A strategy judged: picks that count, and cycles at a trial t. Document 01 asks of classes 1 and 3 that every reached
// variable has a pick that counts and every reached cycle weighs below zero, of class 2 that every row in use picks
// and every reached cycle weighs zero or more. The test is of closed walks, which is the same.
ghost use Rattle.std.specs.Prelude.{◌≡◌, ◌+◌, ◌*◌, ◌≤◌, ℤ};
ghost use Rattle.base.specs.Decides.{Decides};
ghost use Rattle.definitions.specs.Limits.{stride, table_size};
ghost use Rattle.definitions.specs.Tropical.{fin};
ghost use Rattle.definitions.specs.Offset.{trop_of};
ghost use Rattle.definitions.specs.Problem.{Problem};
ghost use Rattle.definitions.specs.Certificate.{PicksCount, BelowZero, RowPicksCount, AtLeastZero};
ghost use Rattle.definitions.specs.ProblemRecord.{problem_of};
ghost use Rattle.definitions.specs.Verdict.{strategy_of};
ghost use Rattle.problem_records.specs.Tables.{left_table};
ghost use Rattle.reach.specs.Marks.{Flags, Begins};
ghost use Rattle.records.specs.Decoded.{InTables};
ghost use Rattle.closed_walks.specs.Tables.{Picked, Trial};
ghost use Rattle.strategy_tests.specs.Counts.{PickCounts, RowPickCounts, VariablesCount, Idle, Stands, RowsCount};

use closed_walks::arcs::{Tables, row_arcs, variable_arcs};
use closed_walks::gains::{Order, none_gains, order_of};
use problem_records::laid::Rows;
use reach::reach;
use records::limits::{ARCS, ROWS, STRIDE, TABLE};

// A variable's pick counts.
fn variable_counts(rows: &Rows, pick: usize, j: usize) -> bool
    requires { (pick ≤ rows.now.m + 1) × (j ≤ rows.now.n) }
    ensures { Decides (PickCounts (left_table rows.now.bytes.now) pick j) result }
{
    pick != 0 && rows.left(pick - 1, j) != 0
}

// The pick of each variable of an order counts.
fn variables_count(rows: &Rows, picks: &[u64; ROWS], order: &Order) -> bool
    requires { Picked picks.now (rows.now.m + 1) × (order.now.width ≤ rows.now.n + 1) }
    ensures { Decides (VariablesCount (left_table rows.now.bytes.now) picks.now order.now.marks.now order.now.width) result }
{
    for &j in order.variables() {
        if !variable_counts(rows, picks[j] as usize, j) {
            return false;
        }
    }
    true
}

// A strategy of variables, judged at t from a start, for a problem as bytes. Public for the checker's `check`.
pub fn certify_variables(rows: &Rows, picks: &[u64; ROWS], t: u64, start: [u8; STRIDE]) -> bool
    requires { Trial t × Picked picks.now (rows.now.m + 1) × Flags start }
    ensures { (z : ℤ) → trop_of t ≡ fin z → Decides (PicksCount (Begins start (rows.now.n + 1)) (problem_of rows.now.bytes.now) (strategy_of picks.now) × BelowZero (Begins start (rows.now.n + 1)) (problem_of rows.now.bytes.now) (strategy_of picks.now) z) result }
{
    let width = rows.n + 1;
    let mut arcs = [0u32; ARCS];
    variable_arcs(&mut arcs, rows, picks, t);
    let marks = reach(&arcs, width, start);
    let order = order_of(&marks, width);
    variables_count(rows, picks, &order) && none_gains(&arcs, &order)
}

// The row that starts at `base` has no left coefficient of a marked variable.
fn row_idle(left: &[u32; TABLE], marks: &[u8; STRIDE], base: usize, width: usize) -> bool
    requires { (base + width ≤ table_size) × (width ≤ stride) }
    ensures { Decides (Idle left.now marks.now base width) result }
{
    for j in 0..width {
        if marks[j] != 0 && left[base + j] != 0 {
            return false;
        }
    }
    true
}

// The row's pick counts.
fn row_picks(right: &[u32; TABLE], base: usize, pick: usize) -> bool
    requires { (base + stride ≤ table_size) × (pick ≤ stride) }
    ensures { Decides (RowPickCounts right.now pick base) result }
{
    pick != 0 && right[base + (pick - 1)] != 0
}

// A row that is idle, or whose pick counts.
fn row_stands(tables: &Tables, marks: &[u8; STRIDE], i: usize, pick: usize) -> bool
    requires { (i ≤ tables.now.m) × (pick ≤ tables.now.n + 1) }
    ensures { Decides (Stands tables.now.left.now tables.now.right.now marks.now (tables.now.n + 1) (i * stride) pick) result }
{
    let base = i * STRIDE;
    row_idle(tables.left, marks, base, tables.n + 1) || row_picks(tables.right, base, pick)
}

// Every row in use has a pick that counts.
fn rows_count(tables: &Tables, picks: &[u64; ROWS], marks: &[u8; STRIDE]) -> bool
    requires { Picked picks.now (tables.now.n + 1) }
    ensures { Decides (RowsCount tables.now.left.now tables.now.right.now picks.now marks.now (tables.now.n + 1) (tables.now.m + 1)) result }
{
    for i in 0..tables.m + 1 {
        if !row_stands(tables, marks, i, picks[i] as usize) {
            return false;
        }
    }
    true
}

// A strategy of rows, judged at t from a start. Public for the checker's `check`.
pub fn certify_rows(tables: &Tables, picks: &[u64; ROWS], t: u64, start: [u8; STRIDE]) -> bool
    requires { Trial t × Picked picks.now (tables.now.n + 1) × Flags start }
    ensures { (p : Problem) (z : ℤ) → InTables p tables.now.n tables.now.m tables.now.left.now tables.now.right.now → trop_of t ≡ fin z → Decides (RowPicksCount (Begins start (tables.now.n + 1)) p (strategy_of picks.now) × AtLeastZero (Begins start (tables.now.n + 1)) p (strategy_of picks.now) z) result }
{
    let width = tables.n + 1;
    let mut arcs = [0u32; ARCS];
    row_arcs(&mut arcs, tables, picks, t);
    let marks = reach(&arcs, width, start);
    rows_count(tables, picks, &marks) && none_gains(&arcs, &order_of(&marks, width))
}
