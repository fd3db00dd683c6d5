// The values of a strategy: rounds of longest walks to a variable without a pick. Here a value is kept low, 2³⁰
// below its offset number, and 0 for blank: coefficient + value then has 32 bits, and rows are vectors of them.
ghost use Rattle.std.specs.Prelude.{◌≡◌, true, [], ◌+◌, ◌*◌, ◌<◌, ◌≤◌, length};
ghost use Rattle.definitions.specs.Limits.{lead_limit, signed_half, table_rows, stride};
ghost use Rattle.definitions.specs.Offset.{trop_of};
ghost use Rattle.duality.specs.Values.{difference};
ghost use Rattle.policy_iteration.specs.Tables.{system_of, point_of, pick_of, Caps, raised_limit, fold_limit, fold_least, side_most, side_least, high, highs, Table, Lows};
ghost use Rattle.policy_iteration.specs.Rounds.{folded, SideIs, PickedSum, PickedLeft, PickedSums, PickedLefts, Stepped, Exits, ValuesIs, SameUpTo};
ghost use Rattle.policy_iteration.specs.Ends.{Holds, RowEnds};
ghost use Rattle.policy_iteration.specs.Rows.{RightSide, system_in};

use crate::ends::Ends;
use crate::rows::Rows;
use records::limits::{OFFSET, OFFSET_32, STRIDE, TABLE};
use records::offset::{later, offset_32, offset_added};

// The low number of 0, and the offset of coefficients.
pub const LOW: u32 = HALF / 2;

pub const HALF: u32 = OFFSET_32;

// A coefficient plus a low value is at least this if both are whole, and below it if one is blank.
const FOLD: u32 = HALF + LOW / 2;

// A coefficient plus a value. Public for `pick_tables::tables`.
pub fn plus(a: u32, b: u64) -> u64
    requires { a + b ≤ 18446744073709551615 }
    ensures { result ≡ a + b }
{
    a as u64 + b
}

// A coefficient plus a low value as a low number.
fn fold(k: u32) -> u32
    ensures { result ≡ folded k }
{
    if k < FOLD { 0 } else { k - HALF }
}

// The largest of coefficient + variable in a row, at low values. All 32 places are looked at, whatever the width: past it
// there are blanks. The sums are compared as fields, with their signs: for these the processor has vectors.
#[inline(always)]
fn full_sum(table: &[u32; TABLE], row: usize, x: &[u32; STRIDE], width: usize) -> u32
    requires { (row < table_rows) × (width ≤ stride) × Table raised_limit table.now × Lows width x.now }
    ensures { SideIs table.now row (highs x.now) width (folded result) }
{
    let base = row * STRIDE;
    let mut best = offset_32(0);
    for l in 0..STRIDE {
        best = later(best, offset_added(offset_32(x[l]), table[base + l]));
    }
    offset_32(best)
}

// The same by the row's ends: the larger of two sums.
fn end_sum(table: &[u32; TABLE], ends: Ends, row: usize, x: &[u32; STRIDE], width: usize) -> u32
    requires { (row < table_rows) × (width ≤ stride) × Table raised_limit table.now × Lows width x.now × Holds table.now row ends }
    ensures { SideIs table.now row (highs x.now) width (folded result) }
{
    let base = row * STRIDE;
    let first = usize::from(ends.first);
    let last = usize::from(ends.last);
    (table[base + first] + x[first]).max(table[base + last] + x[last])
}

// The same by its ends or whole. Inlined, as `full_sum` and the sides below: known ends are else stored to be passed, and the two sides of
// a row share the vectors of x.
#[inline(always)]
fn row_sum(
    table: &[u32; TABLE],
    ends: Option<Ends>,
    row: usize,
    x: &[u32; STRIDE],
    width: usize,
) -> u32
    requires { (row < table_rows) × (width ≤ stride) × Table raised_limit table.now × Lows width x.now × RowEnds table.now row ends }
    ensures { SideIs table.now row (highs x.now) width (folded result) }
{
    match ends {
        Some(two) => end_sum(table, two, row, x, width),
        None => full_sum(table, row, x, width),
    }
}

// One side of a row at low values.
#[inline(always)]
pub fn full_side(table: &[u32; TABLE], row: usize, x: &[u32; STRIDE], width: usize) -> u32
    requires { (row < table_rows) × (width ≤ stride) × Table raised_limit table.now × Lows width x.now }
    ensures { SideIs table.now row (highs x.now) width result }
{
    fold(full_sum(table, row, x, width))
}

// One side of a row at low values, by its ends or whole. Each is folded by itself: folded after `row_sum`, a pass would be slower by a
// tenth. Public for `rows` and `look::greatest`.
#[inline(always)]
pub fn side(
    table: &[u32; TABLE],
    ends: Option<Ends>,
    row: usize,
    x: &[u32; STRIDE],
    width: usize,
) -> u32
    requires { (row < table_rows) × (width ≤ stride) × Table raised_limit table.now × Lows width x.now × RowEnds table.now row ends }
    ensures { SideIs table.now row (highs x.now) width result }
{
    match ends {
        Some(two) => fold(end_sum(table, two, row, x, width)),
        None => full_side(table, row, x, width),
    }
}

// An offset number less another. Public for `class_answers::answer`.
pub fn gap(side: u64, left: u64) -> u64
    requires { (side ≤ fold_limit) × (0 < side → fold_least ≤ side) × (left ≤ signed_half + lead_limit) }
    ensures { trop_of result ≡ difference (trop_of side) (trop_of left) }
{
    if side == 0 || left == 0 {
        0
    } else {
        side + OFFSET - left
    }
}

// A right side less a left coefficient, as low numbers. `gap` is its twin over offset numbers: each promises in its own form, and a trait
// with both forms as its laws would be no plainer.
fn given(side: u32, left: u32) -> u32
    requires { (side ≤ side_most) × (0 < side → side_least ≤ side) × (left ≤ signed_half + lead_limit) }
    ensures { trop_of (high result) ≡ difference (trop_of (high side)) (trop_of left) }
{
    if side == 0 || left == 0 {
        0
    } else {
        side + HALF - left
    }
}

// What a round is made of, for every variable: a sum, not folded yet, and a left coefficient.
#[derive(Clone, Copy)]
pub struct Picked {
    pub sums: [u32; STRIDE],
    pub lefts: [u32; STRIDE],
}

// The values before the first round. A variable without a pick is terminal: its exit is its cap. The others have none.
fn exits(caps: &[u32; STRIDE], picks: &[u32; STRIDE], width: usize, rows: usize) -> [u32; STRIDE]
    requires { Caps width caps.now × (length picks.now ≡ stride) × (width ≤ stride) }
    ensures { Exits (system_of [] [] caps.now width rows) (pick_of picks.now) width (highs result) }
{
    let mut out = [0u32; STRIDE];
    for j in 0..width {
        out[j] = if (picks[j] as usize) < rows {
            0
        } else {
            caps[j]
        };
    }
    out
}

// The two arrays agree. All places are compared, so that the loop has no branch: `==` stops at the first that differs, and is no
// vector code.
fn same(x: &[u32; STRIDE], y: &[u32; STRIDE]) -> bool
    requires { (length x.now ≡ stride) × (length y.now ≡ stride) }
    ensures { result ≡ true → SameUpTo stride x.now y.now }
{
    let mut count = 0u32;
    for j in 0..STRIDE {
        count += u32::from(x[j] != y[j]);
    }
    count == 0
}

impl Rows<'_> {
    // The largest sum in the row that variable j picks, and its left coefficient there. Where it picks none, they stand for its cap
    // and 0.
    fn picked(&self, cap: u32, pick: u32, j: usize, x: &[u32; STRIDE]) -> (u32, u32)
        requires { RightSide self.now × (cap ≤ side_most) × (j < stride) × Lows self.now.width x.now }
        ensures { PickedSum self.now.right.now x.now self.now.width self.now.count cap pick result.0 × PickedLeft self.now.left.now self.now.count pick j result.1 }
    {
        let row = pick as usize;
        if row < self.count {
            let sum = row_sum(self.right, self.right_ends[row], row, x, self.width);
            (sum, self.left[row * STRIDE + j])
        } else {
            (HALF + cap, HALF)
        }
    }

    fn picked_rows(&self, caps: &[u32; STRIDE], picks: &[u32; STRIDE], x: &[u32; STRIDE]) -> Picked
        requires { RightSide self.now × (length picks.now ≡ stride) × Lows self.now.width x.now × Caps self.now.width caps.now }
        ensures { PickedSums self.now.right.now caps.now picks.now x.now self.now.width self.now.count self.now.width result.sums × PickedLefts self.now.left.now picks.now self.now.count self.now.width result.lefts }
    {
        let mut sums = [0u32; STRIDE];
        let mut lefts = [0u32; STRIDE];
        for j in 0..self.width {
            let (sum, left) = self.picked(caps[j], picks[j], j, x);
            sums[j] = sum;
            lefts[j] = left;
        }
        Picked { sums, lefts }
    }

    // One round: every variable by its pick. The sums are folded all at once, as vectors: one by one they would be branches.
    fn round_from(
        &self,
        caps: &[u32; STRIDE],
        picks: &[u32; STRIDE],
        x: &[u32; STRIDE],
    ) -> [u32; STRIDE]
        requires { RightSide self.now × (length picks.now ≡ stride) × Lows self.now.width x.now × Caps self.now.width caps.now }
        ensures { Stepped (system_in self.now caps.now) (pick_of picks.now) (point_of (highs x.now)) (highs result) }
    {
        let picked = self.picked_rows(caps, picks, x);
        let sums = picked.sums;
        let lefts = picked.lefts;
        let mut out = [0u32; STRIDE];
        for j in 0..STRIDE {
            out[j] = given(fold(sums[j]), lefts[j]);
        }
        out
    }

    // The values of a strategy: rounds until one changes nothing, at most as many as there are variables. Public for `policy`.
    pub fn evaluate(&self, caps: &[u32; STRIDE], picks: &[u32; STRIDE]) -> [u32; STRIDE]
        requires { RightSide self.now × (length picks.now ≡ stride) × Caps self.now.width caps.now }
        ensures { ValuesIs (system_in self.now caps.now) (pick_of picks.now) (highs result) }
    {
        let mut x = exits(caps, picks, self.width, self.count);
        for _turn in 0..self.width {
            let y = self.round_from(caps, picks, &x);
            if same(&x, &y) {
                return x;
            }
            x = y;
        }
        x
    }
}
