// An answer's stamps and picks in one number a variable, for a caller that keeps many: the stamp's offset number, then the pick at the
// variable's place and the one 32 places further on. They share a number because a desk's words are at most 1,000 (document 02, 2.11), which
// a number each would exceed.
ghost use Rattle.std.specs.Prelude.{◌≡◌, ◌<◌, length, get_or};
ghost use Rattle.base.specs.Filled.{Filled};
ghost use Rattle.definitions.specs.Limits.{signed_full, stride, table_rows};
ghost use Rattle.engine.specs.Packing.{most_picks, stamp_in, pick_at, Packed, Packable, PackedCells};

use records::limits::{ROWS, STRIDE};

// The numbers that a stamp can be, and a pick.
const STAMPS: usize = 4294967296;

const PICKS: usize = 128;

// The cell of a stamp and two picks.
fn cell(stamp: u64, pick: u64, far: u64) -> usize
    requires { (stamp < signed_full) × (pick < most_picks) × (far < most_picks) }
    ensures { Packed stamp pick far result }
{
    stamp as usize + STAMPS * (pick as usize + PICKS * far as usize)
}

// Stamps and picks as cells.
pub fn pack(stamps: &[u64; STRIDE], picks: &[u64; ROWS]) -> [usize; STRIDE]
    requires { Packable stamps.now picks.now }
    ensures { PackedCells stamps.now picks.now stride result }
{
    let mut out = [0usize; STRIDE];
    for j in 0..STRIDE {
        out[j] = cell(stamps[j], picks[j], picks[j + STRIDE]);
    }
    out
}

// The stamps in cells.
pub fn stamps_in(cells: &[usize; STRIDE]) -> [u64; STRIDE]
    requires { length cells.now ≡ stride }
    ensures { Filled (λ j v. v ≡ stamp_in (get_or cells.now j 0)) stride stride result }
{
    cells.map(|cell| (cell % STAMPS) as u64)
}

// The pick at place k in cells.
fn pick_at(cells: &[usize; STRIDE], k: usize) -> u64
    requires { (length cells.now ≡ stride) × (k < table_rows) }
    ensures { result ≡ pick_at cells.now k }
{
    let pick = if k < STRIDE {
        cells[k] / STAMPS % PICKS
    } else {
        cells[k - STRIDE] / STAMPS / PICKS
    };
    pick as u64
}

// The picks in cells.
pub fn picks_in(cells: &[usize; STRIDE]) -> [u64; ROWS]
    requires { length cells.now ≡ stride }
    ensures { Filled (λ k v. v ≡ pick_at cells.now k) table_rows table_rows result }
{
    let mut out = [0u64; ROWS];
    for k in 0..ROWS {
        out[k] = pick_at(cells, k);
    }
    out
}
