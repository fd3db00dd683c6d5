// Two plans of a problem merged on bytes: the problem's refusals first, as in the checker, then 7, 12, 24, 25 and 26.
ghost use Rattle.std.specs.Prelude.{◌≡◌, List, ℕ, ◌≤◌, length};
ghost use Rattle.definitions.specs.Limits.{highest_n, merged_most};
ghost use Rattle.definitions.specs.ProblemRecord.{meant};
ghost use Rattle.definitions.specs.Merging.{shift_of, Merges};
ghost use Rattle.records.specs.Refusals.{refused_by};
ghost use Rattle.merging.specs.Plans.{plans_judged, pair_judged};
ghost use Rattle.merging.specs.Outcome.{merged_of, Read, Posed, Wrote};

use crate::plan::{plan_fits, stamps_in};
use crate::rules::both_keep;
use crate::stamps::{Pair, is_forward, minutes_back};
use answer_writer::writer::put_stamps;
use problem_records::reader::read_problem;
use records::limits::{LEAD_BYTES, MERGED_MOST, TABLE};
use records::problem::CHECKER_KINDS;
use records::refusal::Refusal;

// The first of refusals 7 and 12 that applies.
fn judge_plans(first: &[u8], second: &[u8], n: usize, room: usize) -> Result<(), Refusal>
    requires { n ≤ highest_n }
    ensures { refused_by result ≡ plans_judged n first.now second.now room }
{
    if room < MERGED_MOST {
        return Err(Refusal::Room);
    }
    if !plan_fits(first, n) || !plan_fits(second, n) {
        return Err(Refusal::Form);
    }
    Ok(())
}

// The first of refusals 24 and 25 that applies: the shift is above 0, the plans do not both keep the rules.
fn judge_pair(forward: bool, keep: bool) -> Result<(), Refusal>
    ensures { refused_by result ≡ pair_judged forward keep }
{
    if forward {
        return Err(Refusal::Shift);
    }
    if !keep {
        return Err(Refusal::Rule);
    }
    Ok(())
}

// The merged stamps put at the start of the buffer, or 26: of two plans that keep the rules.
fn merge_back(pair: &Pair, n: usize, out: &mut [u8]) -> Result<usize, Refusal>
    requires { (n ≤ highest_n) × (merged_most ≤ length out.old) }
    ensures { Wrote n pair.now.back pair.now.first.now pair.now.second.now out.old (merged_of result) out.new }
{
    let count = n + 1;
    if pair.some_early(count) {
        return Err(Refusal::Early);
    }
    let stamps = pair.merged_stamps(count);
    put_stamps(&stamps[..count], out, 0);
    Ok(LEAD_BYTES * count)
}

// Two plans of the right form merged, for the problem in two tables: 24, 25, 26, or the merged stamps.
fn merge_plans(
    left: &[u32; TABLE],
    right: &[u32; TABLE],
    n: usize,
    m: usize,
    first: &[u8],
    second: &[u8],
    shift: u64,
    out: &mut [u8],
) -> Result<usize, Refusal>
    requires { Posed n m left.now right.now first.now second.now (length out.old) }
    ensures { (p : List ℕ) → Read p n m left.now right.now → Merges p first.now second.now (shift_of shift) out.old (merged_of result) out.new }
{
    let x = stamps_in(first, n + 1);
    let y = stamps_in(second, n + 1);
    judge_pair(is_forward(shift), both_keep(left, right, n, m, &x, &y))?;
    let pair = Pair {
        first: &x,
        second: &y,
        back: minutes_back(shift),
    };
    merge_back(&pair, n, out)
}

// Two plans of the problem that the bytes mean merged into the lent buffer: how many bytes are written at its start, with every byte after
// them as it was, or the first refusal that applies, with the buffer as it was. The shift is a signed number of 64 bits, handed over as the
// unsigned one with the same bits. No bytes mean the idle day.
pub fn merge(
    problem: &[u8],
    first: &[u8],
    second: &[u8],
    shift: u64,
    out: &mut [u8],
) -> Result<usize, Refusal>
    ensures { Merges (meant problem.now) first.now second.now (shift_of shift) out.old (merged_of result) out.new }
{
    let mut left = [0u32; TABLE];
    let mut right = [0u32; TABLE];
    let layout = read_problem(problem, CHECKER_KINDS, &mut left, &mut right)?;
    judge_plans(first, second, layout.n, out.len())?;
    merge_plans(&left, &right, layout.n, layout.m, first, second, shift, out)
}
