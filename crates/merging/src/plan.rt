// A plan from its bytes: n + 1 stamps, 4 bytes each.
ghost use Rattle.std.specs.Prelude.{◌≡◌, ◌+◌, ◌*◌, ◌≤◌, ◌<◌, length};
ghost use Rattle.definitions.specs.Limits.{highest_n, signed_bytes, signed_full, stride};
ghost use Rattle.definitions.specs.Bytes.{num_at};
ghost use Rattle.definitions.specs.Offset.{off};
ghost use Rattle.definitions.specs.Merging.{plan_fits};
ghost use Rattle.answer_reader.specs.Fields.{Padded};
ghost use Rattle.merging.specs.Plans.{numbers_in};

use answer_writer::writer::stamps_fit;
use records::bytes::word_in;
use records::limits::{LEAD_BYTES, STRIDE};
use records::offset::offset_32;

// The stamp of moment j, as an offset number.
fn stamp_in(bytes: &[u8], j: usize) -> u64
    requires { signed_bytes * j + signed_bytes ≤ length bytes.now }
    ensures { (result ≡ off (num_at signed_bytes bytes.now (signed_bytes * j))) × (result < signed_full) }
{
    offset_32(word_in(bytes, LEAD_BYTES * j)) as u64
}

// The first `count` stamps, and blanks behind them. The answer reader has the same behind its header: one function over both would take
// the law of a part behind a place, and be no plainer. Public for `merge`.
pub fn stamps_in(bytes: &[u8], count: usize) -> [u64; STRIDE]
    requires { (count ≤ stride) × (signed_bytes * count ≤ length bytes.now) }
    ensures { Padded stride (numbers_in bytes.now count) result }
{
    std::array::from_fn(|j| if j < count { stamp_in(bytes, j) } else { 0 })
}

// The bytes are n + 1 stamps of the form of class 1. Public for `merge`.
pub fn plan_fits(bytes: &[u8], n: usize) -> bool
    requires { n ≤ highest_n }
    ensures { result ≡ plan_fits n bytes.now }
{
    let count = n + 1;
    bytes.len() == LEAD_BYTES * count && stamps_fit(&stamps_in(bytes, count)[..count])
}
