// One look: the greatest point that keeps the inequalities under the caps of the first list. Its second side S decides every trial:
// a span of at most t is possible exactly when −t is at most S.
ghost use Rattle.std.specs.Prelude.{◌≡◌, ◌+◌, ◌<◌, length};
ghost use Rattle.definitions.specs.Limits.{table_size, table_rows};
ghost use Rattle.policy_iteration.specs.Tables.{Caps};
ghost use Rattle.look.specs.Frames.{Ready};
ghost use Rattle.look.specs.Look.{start_for, Under, Looked};

use crate::caps::{caps_of, level_caps};
use crate::frame::Frame;
use policy_iteration::policy::high_of;
use policy_iteration::rows::Rows;
use policy_iteration::values::side;
use records::limits::{STRIDE, TABLE};

// The starts of classes 1 and 3, by their numbers in a record.
const ANCHOR: u64 = 0;

const SECOND_LIST: u64 = 1;

// What a look finds: the second side of the greatest point under caps as an offset number, whose 0 is blank, also where variable 0 has
// no value (`FoundBy` of `search` speaks of it so); the strategy that the point ends with, which blocks from the start every trial that is not possible, row m being the objective's;
// and that start: 0 the anchor, 1 the second list.
#[derive(Clone, Copy)]
pub struct Look {
    pub start: u64,
    pub second: u64,
    pub picks: [usize; STRIDE],
}

// The start from which what is not possible is blocked: the second list, 1; where the anchor is of it, the anchor alone is enough, 0.
fn start_for(right: &[u32; TABLE], row: usize, second: u64) -> u64
    requires { (length right.now ≡ table_size) × (row < table_rows) }
    ensures { result ≡ start_for right.now row second }
{
    if second == 0 || right[row * STRIDE] == 0 {
        SECOND_LIST
    } else {
        ANCHOR
    }
}

// The greatest point that keeps the inequalities under caps. A variable without a pick has the number m.
fn greatest_under(frame: &Frame, caps: &[u32; STRIDE]) -> Look
    requires { Ready frame.now × Caps (frame.now.n + 1) caps.now }
    ensures { Under frame.now.n frame.now.m frame.now.left.now frame.now.right.now caps.now result }
{
    let rules = Rows {
        left: frame.left,
        right: frame.right,
        left_ends: &frame.left_ends,
        right_ends: &frame.right_ends,
        width: frame.n + 1,
        count: frame.m,
    };
    let end = rules.iterate(caps);
    if end.values[0] == 0 {
        return Look {
            start: ANCHOR,
            second: 0,
            picks: end.picks,
        };
    }
    let row = frame.m;
    let second = high_of(side(
        frame.right,
        frame.right_ends[row],
        row,
        &end.values,
        rules.width,
    ));
    Look {
        start: start_for(frame.right, row, second),
        second,
        picks: end.picks,
    }
}

// A look at the problem in two tables. Level caps tell first whether any span is possible.
pub fn look_at(frame: &Frame) -> Look
    requires { Ready frame.now }
    ensures { Looked frame.now.n frame.now.m frame.now.left.now frame.now.right.now result }
{
    let free = greatest_under(frame, &level_caps());
    if free.second == 0 {
        return free;
    }
    greatest_under(frame, &caps_of(frame.left, frame.m))
}
