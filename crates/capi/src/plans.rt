// Two plans into one over lent bytes (document 02, 2.13), with the result as one number.
ghost use Rattle.definitions.specs.ProblemRecord.{meant};
ghost use Rattle.definitions.specs.Merging.{shift_of};
ghost use Rattle.capi.specs.Merged.{MergesAs};

use crate::numbers::size_number;
use merging::merge::merge;

// Writes the stamps of two plans merged at the start of the lent buffer. The shift is a signed number of 64 bits: C and Rust hand it over as
// such, and here it is the unsigned one with the same bits. No bytes mean the idle day.
#[unsafe(no_mangle)]
pub extern "C" fn span_merge(
    problem: &[u8],
    first: &[u8],
    second: &[u8],
    shift: u64,
    buffer: &mut [u8],
) -> u64
    ensures { MergesAs (meant problem.now) first.now second.now (shift_of shift) buffer.old result buffer.new }
{
    size_number(merge(problem, first, second, shift, buffer))
}
