// The rows of a system in two tables, and the ends of the rows of each.
ghost use Rattle.std.specs.Prelude.{◌<◌};
ghost use Rattle.policy_iteration.specs.Tables.{highs, Lows};
ghost use Rattle.policy_iteration.specs.Rounds.{SideIs};
ghost use Rattle.policy_iteration.specs.Rows.{RightSide, BothSides};

use crate::ends::Ends;
use crate::values::side;
use records::limits::{ROWS, STRIDE, TABLE};

// The first `count` rows of two tables, over `width` variables.
#[derive(Clone, Copy)]
pub struct Rows<'a> {
    pub left: &'a [u32; TABLE],
    pub right: &'a [u32; TABLE],
    pub left_ends: &'a [Option<Ends>; ROWS],
    pub right_ends: &'a [Option<Ends>; ROWS],
    pub width: usize,
    pub count: usize,
}

impl Rows<'_> {
    // The right side of row i at low values. Inlined, as the left side: solving a ward's day is else slower by 7 in a hundred.
    #[inline(always)]
    pub fn right_side(&self, i: usize, x: &[u32; STRIDE]) -> u32
        requires { RightSide self.now × (i < self.now.count) × Lows self.now.width x.now }
        ensures { SideIs self.now.right.now i (highs x.now) self.now.width result }
    {
        side(self.right, self.right_ends[i], i, x, self.width)
    }

    // Its left side.
    #[inline(always)]
    pub fn left_side(&self, i: usize, x: &[u32; STRIDE]) -> u32
        requires { BothSides self.now × (i < self.now.count) × Lows self.now.width x.now }
        ensures { SideIs self.now.left.now i (highs x.now) self.now.width result }
    {
        side(self.left, self.left_ends[i], i, x, self.width)
    }
}
