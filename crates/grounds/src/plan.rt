// What the reasons for an answer are found from.
ghost use Rattle.std.specs.Prelude.{◌≡◌, ◌<◌};
ghost use Rattle.base.specs.Filled.{Filled};
ghost use Rattle.definitions.specs.Limits.{stride, table_rows};
ghost use Rattle.grounds.specs.Tables.{row_in};

use records::limits::{ROWS, STRIDE, TABLE};

// The right table of a problem of n + 1 moments and m + 1 rows, and an answer's stamps and picks.
#[derive(Clone, Copy)]
pub struct Plan<'a> {
    pub right: &'a [u32; TABLE],
    pub stamps: &'a [u64; STRIDE],
    pub picks: &'a [u64; ROWS],
    pub n: usize,
    pub m: usize,
}

impl<'a> Plan<'a> {
    // The right leads of row i.
    pub fn leads(&self, i: usize) -> [u32; STRIDE]
        requires { i < table_rows }
        ensures { Filled (λ l v. v ≡ row_in self.now.right.now i l) stride stride result }
    {
        let right = self.right;
        let at = i * STRIDE;
        let mut row = [0; STRIDE];
        row.copy_from_slice(&right[at..at + STRIDE]);
        row
    }
}
