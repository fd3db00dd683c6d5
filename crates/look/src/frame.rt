// The frame of a problem in two tables: the tables, its sizes and the ends of its rows. A row of a table, and a table with its
// objective's row raised by t.
ghost use Rattle.std.specs.Prelude.{◌≡◌, ◌<◌, length};
ghost use Rattle.definitions.specs.Limits.{lead_limit, table_size, table_rows, stride};
ghost use Rattle.records.specs.Decoded.{Near};
ghost use Rattle.policy_iteration.specs.Tables.{Table};
ghost use Rattle.search.specs.Trials.{Trialled};
ghost use Rattle.look.specs.Frames.{shifted, Raised, Copied, Coefficients, FrameOf};

use policy_iteration::ends::{Ends, ends_of};
use records::limits::{OFFSET, ROWS, STRIDE, TABLE};

// The tables of a problem, its n and m, and the ends of the rows of both tables, the objective's among them.
#[derive(Clone, Copy)]
pub struct Frame<'a> {
    pub left: &'a [u32; TABLE],
    pub right: &'a [u32; TABLE],
    pub n: usize,
    pub m: usize,
    pub left_ends: [Option<Ends>; ROWS],
    pub right_ends: [Option<Ends>; ROWS],
}

// The frame of the problem in two tables.
pub fn frame_of<'a>(
    left: &'a [u32; TABLE],
    right: &'a [u32; TABLE],
    n: usize,
    m: usize,
) -> Frame<'a>
    requires { Coefficients n m left.now right.now }
    ensures { FrameOf n m left.now right.now result }
{
    Frame {
        left,
        right,
        n,
        m,
        left_ends: ends_of(left, m + 1),
        right_ends: ends_of(right, m + 1),
    }
}

// The coefficients of a row.
pub fn row_of(table: &[u32; TABLE], row: usize) -> [u32; STRIDE]
    requires { (length table.now ≡ table_size) × (row < table_rows) }
    ensures { Copied table.now row stride result }
{
    let mut out = [0u32; STRIDE];
    out.copy_from_slice(&table[row * STRIDE..(row + 1) * STRIDE]);
    out
}

// A coefficient raised by t: blank stays blank.
fn shift(k: u32, t: u64) -> u32
    requires { Trialled t × Near lead_limit k }
    ensures { result ≡ shifted k t }
{
    if k == 0 {
        return 0;
    }
    (u64::from(k) + t - OFFSET) as u32
}

// Raises the objective's row of a copy of the right table by t. In place: a table that is handed back would be copied once more.
pub fn raise(table: &mut [u32; TABLE], row: usize, t: u64)
    requires { Table lead_limit table.old × (row < table_rows) × Trialled t }
    ensures { Raised table.old row t stride table.new }
{
    let base = row * STRIDE;
    for l in 0..STRIDE {
        table[base + l] = shift(table[base + l], t);
    }
}
