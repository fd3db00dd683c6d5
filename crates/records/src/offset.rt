// Offset numbers: the form in which leads, stamps and spans are kept. 0 is blank, any other number k stands for k − 2³¹.
ghost use Rattle.std.specs.Prelude.{◌≡◌, ◌+◌, ◌<◌};
ghost use Rattle.base.specs.Numbers.{most};
ghost use Rattle.definitions.specs.Limits.{signed_half, signed_full};
ghost use Rattle.definitions.specs.Bytes.{whole_within, blank_or_within};
ghost use Rattle.definitions.specs.Offset.{trop_of, off};

use crate::limits::{FULL, OFFSET, OFFSET_32};

// The offset number of a 4-byte field, and the field of an offset number. Public for `answer_reader`, `answer_writer`.
pub fn offset(w: u64) -> u64
    ensures { (result ≡ off w) × (result < signed_full) }
{
    u64::from(offset_32((w % FULL) as u32))
}

// The same in 32 bits. Public for `problem_records::reader`, `answer_reader::answer`, `policy_iteration::values`, `closed_walks::gains`,
// `plan_tests`.
pub fn offset_32(w: u32) -> u32
    requires { w < signed_full }
    ensures { (result ≡ off w) × (result < signed_full) }
{
    if w < OFFSET_32 {
        w + OFFSET_32
    } else {
        w - OFFSET_32
    }
}

// The later of two 4-byte fields, the one with the larger offset number. As fields they are compared with their signs, for
// which the processor has vectors; offset numbers it has first to turn into fields. Public for `policy_iteration`, `closed_walks`,
// `plan_tests`.
pub fn later(a: u32, b: u32) -> u32
    requires { (a < signed_full) × (b < signed_full) }
    ensures { (off result ≡ most (off a) (off b)) × (result < signed_full) }
{
    if offset_32(a) <= offset_32(b) { b } else { a }
}

// A 4-byte field with a number added to its offset number. Public for `policy_iteration`, `plan_tests`.
pub fn offset_added(w: u32, d: u32) -> u32
    requires { (w < signed_full) × (off w + d < signed_full) }
    ensures { (off result ≡ off w + d) × (result < signed_full) }
{
    std::num::wrapping_add_u32(w, d)
}

// The number is whole and within ±limit. Public for `answer_reader::class`.
pub fn whole_within(limit: u64, k: u64) -> bool
    requires { limit < signed_half }
    ensures { result ≡ whole_within limit (trop_of k) }
{
    OFFSET - limit <= k && k <= OFFSET + limit
}

// The number is blank, or within ±limit. Public for `answer_reader::answer`.
pub fn blank_or_within(limit: u64, k: u64) -> bool
    requires { limit < signed_half }
    ensures { result ≡ blank_or_within limit (trop_of k) }
{
    k == 0 || whole_within(limit, k)
}
