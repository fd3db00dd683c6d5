// The stamps of the merged plan: the later of two, where the second is moved back. Stamps are offset numbers.
ghost use Rattle.std.specs.Prelude.{◌≡◌, false, ◌≤◌, ◌<◌};
ghost use Rattle.base.specs.Filled.{Filled};
ghost use Rattle.definitions.specs.Limits.{stamp_limit, word_half, signed_full, stride};
ghost use Rattle.definitions.specs.Offset.{trop_of};
ghost use Rattle.definitions.specs.Merging.{shift_of, above_zero, early};
ghost use Rattle.records.specs.Decoded.{Near};
ghost use Rattle.records.specs.Stamps.{Stamped};
ghost use Rattle.merging.specs.Plans.{back_by, later_of};
ghost use Rattle.merging.specs.Outcome.{joined, joined_early};

use records::limits::{OFFSET, STAMP_LIMIT, STRIDE};

// The shift, a signed number of 64 bits, is above 0. Public for `merge`, as are the next and the pair.
pub fn is_forward(shift: u64) -> bool
    ensures { result ≡ above_zero (shift_of shift) }
{
    0 < shift.cast_signed()
}

// How many minutes a shift that is not above 0 moves a plan back.
pub fn minutes_back(shift: u64) -> u64
    requires { above_zero (shift_of shift) ≡ false }
    ensures { (back_by result ≡ shift_of shift) × (result ≤ word_half) }
{
    shift.wrapping_neg()
}

// The later of the first stamp and the second moved back is below the least stamp: that is so only where the first is blank.
fn is_early(first: u64, second: u64, back: u64) -> bool
    requires { Near stamp_limit first × Near stamp_limit second × (back ≤ word_half) }
    ensures { result ≡ early (later_of back first second) }
{
    first == 0 && second != 0 && second < back + (OFFSET - STAMP_LIMIT)
}

// The later of the first stamp and the second moved back. A second stamp that would have no offset number any more is the earlier.
fn later_of(first: u64, second: u64, back: u64) -> u64
    requires { Near stamp_limit first × Near stamp_limit second × (back ≤ word_half) × (early (later_of back first second) ≡ false) }
    ensures { (trop_of result ≡ later_of back first second) × (result < signed_full) }
{
    first.max(second.saturating_sub(back))
}

// The stamps of two plans to be merged, and how many minutes the second is moved back.
#[derive(Clone, Copy)]
pub struct Pair<'a> {
    pub first: &'a [u64; STRIDE],
    pub second: &'a [u64; STRIDE],
    pub back: u64,
    pub ghost first_stamps: { Stamped first.now },
    pub ghost second_stamps: { Stamped second.now },
    pub ghost back_most: { back ≤ word_half },
}

impl Pair<'_> {
    // One of the first `count` stamps of the merged plan is below the least stamp.
    pub fn some_early(&self, count: usize) -> bool
        requires { count ≤ stride }
        ensures { result ≡ joined_early self.now.back self.now.first.now self.now.second.now count }
    {
        (0..count).any(|j| is_early(self.first[j], self.second[j], self.back))
    }

    // The first `count` stamps of the merged plan, then blanks, where none is below the least stamp.
    pub fn merged_stamps(&self, count: usize) -> [u64; STRIDE]
        requires { (count ≤ stride) × (joined_early self.now.back self.now.first.now self.now.second.now count ≡ false) }
        ensures { Filled (λ j v. (trop_of v ≡ joined self.now.back self.now.first.now self.now.second.now j) × (v < signed_full)) stride count result }
    {
        let mut out = [0u64; STRIDE];
        for j in 0..count {
            out[j] = later_of(self.first[j], self.second[j], self.back);
        }
        out
    }
}
