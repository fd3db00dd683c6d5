// Policy iteration until no row fails. Values are low numbers here, and they fall in place: a row that
// fails lowers its variables at once, and they pick it.
ghost use Rattle.std.specs.Prelude.{◌≡◌, ◌+◌, ◌*◌, ◌<◌, ◌≤◌, length};
ghost use Rattle.base.specs.Decides.{Decides};
ghost use Rattle.definitions.specs.Limits.{stride, table_rows};
ghost use Rattle.policy_iteration.specs.Tables.{turn_limit, first_limit, side_most, side_least, high, highs, Caps};
ghost use Rattle.policy_iteration.specs.Ends.{Holds, RowEnds};
ghost use Rattle.policy_iteration.specs.Rows.{BothSides, system_in};
ghost use Rattle.policy_iteration.specs.Steps.{Gives, lesser, chosen_by, Lowering, LoweredOne, LoweredAll, LoweredAt, Passing, Passed, AllPicked, Turned, Ended};

use crate::ends::Ends;
use crate::rows::Rows;
use crate::values::{HALF, LOW};
use records::limits::{LEAD_LIMIT, STRIDE, TABLE};

// At most every whole left coefficient, and above every value: what stands for a blank right side.
const BLANK_TOP: u32 = HALF - LEAD_LIMIT as u32;

// What gives every variable of a row its value, once the left coefficient is taken off.
fn top_of(side: u32) -> u32
    requires { (side ≤ side_most) × (0 < side → side_least ≤ side) }
    ensures { Gives side result }
{
    if side == 0 { BLANK_TOP } else { side + HALF }
}

// The smaller of two.
fn smaller(a: u32, b: u32) -> u32
    ensures { result ≡ lesser a b }
{
    if a < b { a } else { b }
}

// The one row where the first number is lower, else the other.
fn choice(a: u32, b: u32, i: u32, k: u32) -> u32
    ensures { result ≡ chosen_by a b i k }
{
    if a < b { i } else { k }
}

// Row i lowers the value of variable j, and is picked if it does. Written as a choice and a `min` here, or as an `if`, it would have a
// branch, which costs a tenth of an iteration.
fn lower_place(
    left: &[u32; TABLE],
    i: usize,
    top: u32,
    j: usize,
    x: &mut [u32; STRIDE],
    picks: &mut [u32; STRIDE],
)
    requires { Lowering left.now x.old picks.old i × (j < stride) }
    ensures { LoweredOne left.now i top j x.old picks.old x.new picks.new }
{
    let given = top.saturating_sub(left[i * STRIDE + j]);
    let was = x[j];
    picks[j] = choice(given, was, i as u32, picks[j]);
    x[j] = smaller(given, was);
}

// Row i lowers the values of all variables.
fn lower_row(
    left: &[u32; TABLE],
    i: usize,
    top: u32,
    x: &mut [u32; STRIDE],
    picks: &mut [u32; STRIDE],
)
    requires { Lowering left.now x.old picks.old i }
    ensures { LoweredAll left.now i top x.old picks.old x.new picks.new }
{
    for j in 0..STRIDE {
        lower_place(left, i, top, j, x, picks);
    }
}

// Row i lowers the values of the variables at its ends: it holds no others.
fn lower_ends(
    left: &[u32; TABLE],
    ends: Ends,
    i: usize,
    top: u32,
    x: &mut [u32; STRIDE],
    picks: &mut [u32; STRIDE],
)
    requires { Lowering left.now x.old picks.old i × Holds left.now i ends }
    ensures { LoweredAll left.now i top x.old picks.old x.new picks.new }
{
    lower_place(left, i, top, usize::from(ends.first), x, picks);
    lower_place(left, i, top, usize::from(ends.last), x, picks);
}

// Row i, with this right side, lowers the values of its variables: it fails, and by its ends or whole.
fn lower_by(
    left: &[u32; TABLE],
    ends: Option<Ends>,
    i: usize,
    here: u32,
    x: &mut [u32; STRIDE],
    picks: &mut [u32; STRIDE],
)
    requires { Lowering left.now x.old picks.old i × RowEnds left.now i ends × (here ≤ side_most) × (0 < here → side_least ≤ here) }
    ensures { LoweredAt left.now i here x.old picks.old x.new picks.new }
{
    let top = top_of(here);
    match ends {
        Some(two) => lower_ends(left, two, i, top, x, picks),
        None => lower_row(left, i, top, x, picks),
    }
}

// Whether no variable is without a pick: then all values are blank.
fn no_exit(picks: &[u32; STRIDE], width: usize, rows: usize) -> bool
    requires { (length picks.now ≡ stride) × (width ≤ stride) }
    ensures { Decides (AllPicked picks.now width rows) result }
{
    picks[..width].iter().all(|pick| (*pick as usize) < rows)
}

// Picks as indices. By `map` of arrays an iteration would take a tenth of a microsecond more.
fn indices(picks: &[u32; STRIDE]) -> [usize; STRIDE]
    requires { length picks.now ≡ stride }
    ensures { result ≡ picks.now }
{
    let mut out = [0usize; STRIDE];
    for j in 0..STRIDE {
        out[j] = picks[j] as usize;
    }
    out
}

// The offset number of a low one. Public for `look::greatest`.
pub fn high_of(k: u32) -> u64
    ensures { result ≡ high k }
{
    if k == 0 {
        0
    } else {
        u64::from(k) + u64::from(LOW)
    }
}

// Low values as offset numbers, by a loop as in `indices`. Public for `look::point`.
pub fn highs_of(x: &[u32; STRIDE]) -> [u64; STRIDE]
    requires { length x.now ≡ stride }
    ensures { result ≡ highs x.now }
{
    let mut out = [0u64; STRIDE];
    for j in 0..STRIDE {
        out[j] = high_of(x[j]);
    }
    out
}

// What the iteration ends with: a strategy and its values; they solve the system, where that of variable 0 is not blank.
#[derive(Clone, Copy)]
pub struct Outcome {
    pub values: [u32; STRIDE],
    pub picks: [usize; STRIDE],
}

impl Rows<'_> {
    // A pass: each row in turn lowers the values of its variables, where it fails at the values as they then are. How many failed.
    fn pass(&self, x: &mut [u32; STRIDE], picks: &mut [u32; STRIDE]) -> u32
        requires { Passing (first_limit + table_rows * turn_limit) self.now x.old picks.old }
        ensures { Passed self.now.left.now self.now.right.now self.now.width self.now.count self.now.count x.old picks.old x.new picks.new result }
    {
        let mut failed = 0u32;
        for i in 0..self.count {
            let here = self.right_side(i, x);
            let there = self.left_side(i, x);
            if here < there {
                lower_by(self.left, self.left_ends[i], i, here, x, picks);
                failed += 1;
            }
        }
        failed
    }

    // Two passes; or one in which no row failed, or after which variable 0 is blank or no variable is without a pick: no later pass changes
    // that. None where variable 0 is blank already.
    fn passes(&self, x: &mut [u32; STRIDE], picks: &mut [u32; STRIDE]) -> u32
        requires { Passing first_limit self.now x.old picks.old }
        ensures { Turned self.now.left.now self.now.right.now self.now.width self.now.count x.old picks.old x.new picks.new result }
    {
        if x[0] == 0 {
            return 0;
        }
        let failed = self.pass(x, picks);
        if failed == 0 || x[0] == 0 || no_exit(picks, self.width, self.count) {
            return failed;
        }
        self.pass(x, picks)
    }

    // Policy iteration under caps, from the strategy without picks: its values, passes that lower them, the values of the strategy
    // that these have picked, and so on, until no row fails in a pass or variable 0 has no value left.
    pub fn iterate(&self, caps: &[u32; STRIDE]) -> Outcome
        requires { BothSides self.now × Caps self.now.width caps.now }
        ensures { Ended (system_in self.now caps.now) (highs result.values) result.picks }
    {
        let mut kept = [self.count as u32; STRIDE];
        let mut x = self.evaluate(caps, &kept);
        while self.passes(&mut x, &mut kept) != 0 {
            x = self.evaluate(caps, &kept);
        }
        Outcome {
            values: x,
            picks: indices(&kept),
        }
    }
}
