// A problem of kind 1 as it stands in bytes, whose leads are read where they stand.
ghost use Rattle.std.specs.Prelude.{◌≡◌, ◌+◌, ◌*◌, ◌≤◌, get_or};
ghost use Rattle.definitions.specs.Limits.{stride};
ghost use Rattle.definitions.specs.ProblemRecord.{left_place, right_place};
ghost use Rattle.problem_records.specs.Tables.{Laid, left_table, right_table};

use crate::reader::{lead_in, row_place};
use records::limits::LEAD_BYTES;

// The leads of n + 1 variables in m + 1 rows. Public for `plan_tests`, `closed_walks::arcs`, `strategy_tests`, `checker::check`.
#[derive(Clone, Copy)]
pub struct Rows<'a> {
    pub bytes: &'a [u8],
    pub n: usize,
    pub m: usize,
    pub ghost laid: { Laid bytes.now n m },
}

impl<'a> Rows<'a> {
    // How many variables there are.
    pub fn width(&self) -> usize
        ensures { result ≡ self.now.n + 1 }
    {
        self.n + 1
    }

    // Where the left leads of row i start.
    pub fn left_start(&self, i: usize) -> usize
        requires { i ≤ self.now.m }
        ensures { result ≡ left_place self.now.n i 0 }
    {
        row_place(self.n, i)
    }

    // Where its right leads start.
    pub fn right_start(&self, i: usize) -> usize
        requires { i ≤ self.now.m }
        ensures { result ≡ right_place self.now.n i 0 }
    {
        self.left_start(i) + LEAD_BYTES * self.width()
    }

    // Row i's left lead of variable j, as an offset number.
    pub fn left(&self, i: usize, j: usize) -> u32
        requires { (i ≤ self.now.m) × (j ≤ self.now.n) }
        ensures { result ≡ get_or (left_table self.now.bytes.now) (i * stride + j) 0 }
    {
        lead_in(self.bytes, self.left_start(i) + LEAD_BYTES * j)
    }

    // Its right lead of variable j.
    pub fn right(&self, i: usize, j: usize) -> u32
        requires { (i ≤ self.now.m) × (j ≤ self.now.n) }
        ensures { result ≡ get_or (right_table self.now.bytes.now) (i * stride + j) 0 }
    {
        lead_in(self.bytes, self.right_start(i) + LEAD_BYTES * j)
    }
}
