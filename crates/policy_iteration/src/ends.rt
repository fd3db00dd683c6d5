// The ends of a row: two places such that the others are blank. Most rows of a ward hold one or two moments on a side; that
// side is then the larger of two sums.
ghost use Rattle.std.specs.Prelude.{◌≡◌, ◌*◌, ◌^◌, ◌<◌, ◌≤◌, length};
ghost use Rattle.definitions.specs.Limits.{stride, table_size, table_rows};
ghost use Rattle.policy_iteration.specs.Ends.{entry, bits_in, RowEnds, BitsEnds, EndsOf};

use records::limits::{ROWS, STRIDE, TABLE};

// The two places, which may be one.
#[derive(Clone, Copy)]
pub struct Ends {
    pub first: u8,
    pub last: u8,
}

// After so many wide rows the others are not looked at.
const MANY_WIDE: u32 = 8;

// The bit of place l.
fn power(l: usize) -> u32
    requires { l < stride }
    ensures { result ≡ 2 ^ l }
{
    1u32 << l as u32
}

// The bit of place l for an entry, 0 for a blank.
fn bit(k: u32, l: usize) -> u32
    requires { l < stride }
    ensures { result ≡ entry k * 2 ^ l }
{
    if k == 0 { 0 } else { power(l) }
}

// The bits of the places of a row that are not blank.
fn bits_of(table: &[u32; TABLE], row: usize) -> u32
    requires { (length table.now ≡ table_size) × (row < table_rows) }
    ensures { result ≡ bits_in table.now row stride }
{
    let base = row * STRIDE;
    let mut bits = 0u32;
    for l in 0..STRIDE {
        bits += bit(table[base + l], l);
    }
    bits
}

// These are the ends of a row with these bits, if there are no others.
fn tested(bits: u32, ends: Ends) -> Option<Ends>
    requires { (ends.first < stride) × (ends.last < stride) }
    ensures { BitsEnds bits result }
{
    let low = power(usize::from(ends.first));
    if bits == low {
        return Some(ends);
    }
    if ends.first == ends.last || bits < low {
        return None;
    }
    if bits - low == power(usize::from(ends.last)) {
        Some(ends)
    } else {
        None
    }
}

// The ends of a row. Nothing is promised of counts of zeros: they guess the ends, which are then tested.
fn row_ends(table: &[u32; TABLE], row: usize) -> Option<Ends>
    requires { (length table.now ≡ table_size) × (row < table_rows) }
    ensures { RowEnds table.now row result }
{
    let bits = bits_of(table, row);
    if bits == 0 {
        return Some(Ends { first: 0, last: 0 });
    }
    let before = bits.trailing_zeros();
    let after = bits.leading_zeros();
    if 31 < before || 31 < after {
        return None;
    }
    tested(
        bits,
        Ends {
            first: before as u8,
            last: (31 - after) as u8,
        },
    )
}

// The ends of the rows of a table: none for a row with more entries than two, and for one that was not looked at.
// Public for `look::frame`.
pub fn ends_of(table: &[u32; TABLE], rows: usize) -> [Option<Ends>; ROWS]
    requires { (length table.now ≡ table_size) × (rows ≤ table_rows) }
    ensures { EndsOf table.now rows result }
{
    let mut out = [None; ROWS];
    let mut wide = 0u32;
    for i in 0..rows {
        if MANY_WIDE < wide {
            break;
        }
        let ends = row_ends(table, i);
        if ends.is_none() {
            wide += 1;
        }
        out[i] = ends;
    }
    out
}
