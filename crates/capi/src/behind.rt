// The rules behind an answer and the binding round, in lent places, with their counts as one number.
ghost use Rattle.std.specs.Prelude.{◌≡◌, ◌≤◌, length};
ghost use Rattle.definitions.specs.Limits.{highest_m, stride};
ghost use Rattle.definitions.specs.Bytes.{put};
ghost use Rattle.definitions.specs.ProblemRecord.{meant};
ghost use Rattle.capi.specs.Numbers.{PlacesAs};
ghost use Rattle.capi.specs.Behind.{ReasonsAs, counts_number};

use crate::numbers::{QUARTER, TOO_FEW_PLACES};
use grounds::reasons::{Grounds, reasons};
use records::limits::{BYTE, ROWS, STRIDE};

// Copies numbers to the first of the lent places. By index: `copy_from_slice` changes no type, and of what a loop over an adapter of
// `iter_mut` wrote the proof knows nothing.
fn copy_numbers(from: &[usize], to: &mut [u64])
    requires { length from.now ≤ length to.old }
    ensures { to.new ≡ put to.old 0 from.now }
{
    for (i, number) in from.iter().enumerate() {
        to[i] = *number as u64;
    }
}

// Both counts as a number, the rules and the moments of the round in the lent places, where there are enough. (One function for this and
// `fields::lend` would take the way of copying as a closure with clauses: no plainer.)
fn lend_numbers(
    rules: &[usize],
    round: &[usize],
    rules_out: &mut [u64],
    round_out: &mut [u64],
) -> u64
    requires { (length rules.now ≤ highest_m) × (length round.now ≤ stride) }
    ensures { PlacesAs (counts_number (length rules.now) (length round.now)) round.now rules.now round_out.old rules_out.old result round_out.new rules_out.new }
{
    if round_out.len() < STRIDE || rules_out.len() < ROWS {
        return TOO_FEW_PLACES;
    }
    copy_numbers(round, round_out);
    copy_numbers(rules, rules_out);
    BYTE * rules.len() as u64 + QUARTER * round.len() as u64
}

// The rules behind an accepted answer to a problem, and the binding round of a least span; no bytes mean the idle day.
#[unsafe(no_mangle)]
pub extern "C" fn span_reasons(
    problem: &[u8],
    answer: &[u8],
    rules: &mut [u64],
    round: &mut [u64],
) -> u64
    ensures { ReasonsAs (meant problem.now) answer.now rules.old round.old result rules.new round.new }
{
    match reasons(problem, answer) {
        Ok(
            Grounds {
                rules: behind,
                round: found,
            },
        ) => match found {
            None => lend_numbers(behind.as_slice(), &[], rules, round),
            Some(turns) => lend_numbers(behind.as_slice(), turns.as_slice(), rules, round),
        },
        Err(refusal) => refusal.number() as u64,
    }
}
