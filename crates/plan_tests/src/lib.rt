// A point at the rows of a problem, which are read where they stand: the sides of a row, the rules, the value.
#![tactic(auto)]

ghost use Rattle.std.specs.Prelude.{◌≡◌, List, ℕ, ◌+◌, ◌≤◌, ◌<◌, length, ℤ};
ghost use Rattle.base.specs.Decides.{Decides};
ghost use Rattle.definitions.specs.Limits.{stamp_limit, signed_full, stride, signed_bytes};
ghost use Rattle.definitions.specs.Tropical.{fin};
ghost use Rattle.definitions.specs.Problem.{Keeps, value, whole};
ghost use Rattle.definitions.specs.Offset.{trop_of, off};
ghost use Rattle.definitions.specs.ProblemRecord.{problem_of};
ghost use Rattle.records.specs.Decoded.{Near};
ghost use Rattle.records.specs.Stamps.{Stamped, stamps_point};
ghost use Rattle.problem_records.specs.Tables.{lead_at};
ghost use Rattle.plan_tests.specs.Sides.{lowered, Lowered, side_floor, run, side_of, Low, RowSized, BestIs, NoneOver};

use problem_records::laid::Rows;
use records::bytes::word_in;
use records::limits::{HIGHEST_N, LEAD_BYTES, OFFSET, OFFSET_32, STRIDE};
use records::offset::{later, offset_32, offset_added};

// What stamps are lowered by, so that their sums with coefficients stay below 2³².
const STAMP_DROP: u32 = OFFSET_32 / 2;

// Two whole numbers in range have a sum above this, a whole number and blank one below it.
const SIDE_FLOOR: u32 = OFFSET_32 + STAMP_DROP / 2;

// A stamp lowered.
fn lower_stamp(stamp: u64) -> u32
    requires { Near stamp_limit stamp }
    ensures { result ≡ lowered stamp }
{
    if stamp == 0 {
        0
    } else {
        stamp as u32 - STAMP_DROP
    }
}

// The stamps lowered, then blanks. Public for the checker's `check`, which asks both questions below of them.
pub fn lower_point(stamps: &[u64; STRIDE], width: usize) -> [u32; STRIDE]
    requires { Stamped stamps.now × (width ≤ stride) }
    ensures { Lowered stamps.now width result }
{
    let mut x = [0u32; STRIDE];
    for l in 0..width {
        x[l] = lower_stamp(stamps[l]);
    }
    x
}

// The lead at a place of the bytes with a lowered stamp added, as a field whose offset number is the sum.
fn sum_in(bytes: &[u8], at: usize, x: u32) -> u32
    requires { (at + signed_bytes ≤ length bytes.now) × (lead_at bytes.now at + x < signed_full) }
    ensures { (off result ≡ lead_at bytes.now at + x) × (result < signed_full) }
{
    offset_added(word_in(bytes, at), x)
}

// The largest of `count` sums, as a field: one side of a row whose leads start at a place.
fn best_of(bytes: &[u8], at: usize, count: usize, x: &[u32; STRIDE]) -> u32
    requires { RowSized bytes.now at count x.now }
    ensures { BestIs bytes.now at count x.now result }
{
    let mut best = offset_32(SIDE_FLOOR);
    for l in 0..count {
        best = later(best, sum_in(bytes, at + LEAD_BYTES * l, x[l]));
    }
    best
}

// The same for a row of n + 1 leads. Rows of the full width have a call of their own, which is compiled for that length.
fn best(bytes: &[u8], at: usize, n: usize, x: &[u32; STRIDE]) -> u32
    requires { RowSized bytes.now at (n + 1) x.now }
    ensures { BestIs bytes.now at (n + 1) x.now result }
{
    if n == HIGHEST_N {
        best_of(bytes, at, STRIDE, x)
    } else {
        best_of(bytes, at, n + 1, x)
    }
}

// None of `count` sums is above the limit. All are looked at, so that the loop has no branch.
fn none_above_of(bytes: &[u8], at: usize, count: usize, x: &[u32; STRIDE], limit: u32) -> bool
    requires { RowSized bytes.now at count x.now × (side_floor ≤ limit) }
    ensures { NoneOver bytes.now at count x.now limit result }
{
    let mut none = true;
    for l in 0..count {
        none &= offset_32(sum_in(bytes, at + LEAD_BYTES * l, x[l])) <= limit;
    }
    none
}

// The same for a row of n + 1 leads, which has a call of its own too.
fn none_above(bytes: &[u8], at: usize, n: usize, x: &[u32; STRIDE], limit: u32) -> bool
    requires { RowSized bytes.now at (n + 1) x.now × (side_floor ≤ limit) }
    ensures { NoneOver bytes.now at (n + 1) x.now limit result }
{
    if n == HIGHEST_N {
        none_above_of(bytes, at, STRIDE, x, limit)
    } else {
        none_above_of(bytes, at, n + 1, x, limit)
    }
}

// Row i stands: no left sum is above the right side.
fn row_stands(rows: &Rows, i: usize, x: &[u32; STRIDE]) -> bool
    requires { (i ≤ rows.now.m) × Low x.now }
    ensures { (stamps : List ℕ) → Stamped stamps → Lowered stamps (rows.now.n + 1) x.now → Decides (Keeps (problem_of rows.now.bytes.now) (stamps_point stamps) i) result }
{
    let most = best(rows.bytes, rows.right_start(i), rows.n, x);
    none_above(rows.bytes, rows.left_start(i), rows.n, x, offset_32(most))
}

// The point whose stamps, lowered, are x keeps every inequality. Public for the checker's `check`.
pub fn keeps_rules(rows: &Rows, x: &[u32; STRIDE]) -> bool
    requires { Low x.now }
    ensures { (stamps : List ℕ) → Stamped stamps → Lowered stamps (rows.now.n + 1) x.now → Decides ((i : ℕ) → i < rows.now.m → Keeps (problem_of rows.now.bytes.now) (stamps_point stamps) i) result }
{
    for i in 0..rows.m {
        if !row_stands(rows, i, x) {
            return false;
        }
    }
    true
}

// One side of a row of n + 1 leads, blank or the largest sum.
fn side(bytes: &[u8], at: usize, n: usize, x: &[u32; STRIDE]) -> u64
    requires { RowSized bytes.now at (n + 1) x.now }
    ensures { result ≡ side_of (run bytes.now at) x.now (n + 1) }
{
    let largest = offset_32(best(bytes, at, n, x));
    if largest == SIDE_FLOOR {
        0
    } else {
        (largest - STAMP_DROP) as u64
    }
}

// The objective value of that point is the span s. Public for the checker's `check`.
pub fn value_is(rows: &Rows, x: &[u32; STRIDE], s: u64) -> bool
    requires { Low x.now × (s ≤ signed_full) }
    ensures { (stamps : List ℕ) (z : ℤ) → Stamped stamps → Lowered stamps (rows.now.n + 1) x.now → trop_of s ≡ fin z → Decides (value (problem_of rows.now.bytes.now) (stamps_point stamps) ≡ whole z) result }
{
    let first = side(rows.bytes, rows.left_start(rows.m), rows.n, x);
    let second = side(rows.bytes, rows.right_start(rows.m), rows.n, x);
    first != 0 && second != 0 && first + OFFSET == second + s
}
