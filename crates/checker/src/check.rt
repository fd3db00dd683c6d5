// The verdict on bytes: refusals 1 to 5, 20, 6, 17 and 8 to 13 first, in order; then what document 01 lists for the answer's class.
ghost use Rattle.std.specs.Prelude.{◌≡◌, ◌+◌, ◌≤◌, ℤ, get_or};
ghost use Rattle.base.specs.Decides.{Decides};
ghost use Rattle.definitions.specs.Limits.{signed_half};
ghost use Rattle.definitions.specs.Tropical.{fin};
ghost use Rattle.definitions.specs.Offset.{trop_of};
ghost use Rattle.definitions.specs.ProblemRecord.{problem_of, meant};
ghost use Rattle.definitions.specs.AnswerRecord.{Answer};
ghost use Rattle.definitions.specs.Certificate.{Second, start_of, AnchorAnd, AcceptedOptimal, AcceptedUnbounded};
ghost use Rattle.definitions.specs.Verdict.{Accepted, Judged, strategy_of};
ghost use Rattle.records.specs.Stamps.{Stamped, stamps_point};
ghost use Rattle.problem_records.specs.InForce.{StatesHeld, InForce};
ghost use Rattle.reach.specs.Marks.{Flags, Begins};
ghost use Rattle.closed_walks.specs.Tables.{Picked};
ghost use Rattle.checker.specs.Outcome.{verdict_of, Span, Meant, Formed, Answered};

use answer_reader::answer::{Head, read_answer};
use closed_walks::arcs::Tables;
use plan_tests::{keeps_rules, lower_point, value_is};
use problem_records::in_force::in_force;
use problem_records::laid::Rows;
use problem_records::reader::{judge_problem, read_tables};
use reach::anchor_and;
use records::idle::idle_day;
use records::limits::{INFEASIBLE, OFFSET, OPTIMAL, ROWS, SPAN_LIMIT, STRIDE, TABLE, UNBOUNDED};
use records::problem::{CHECKER_KINDS, Kind};
use records::refusal::Refusal;
use strategy_tests::certify::{certify_rows, certify_variables};
use strategy_tests::starts::{in_second, start_marks};

// An accepted answer's class, a number as `Head` has it, and the span's offset number.
#[derive(Clone, Copy, Debug, PartialEq, Eq)]
pub struct Certified {
    pub class: u64,
    pub span: u64,
}

// Class 1, least: the point keeps the rules, its value is the span, and the picks show that none is smaller: judged at
// the span less 1, from what the start means.
fn certify_optimal(
    rows: &Rows,
    stamps: &[u64; STRIDE],
    picks: &[u64; ROWS],
    span: u64,
    start: u64,
) -> bool
    requires { Stamped stamps.now × (get_or stamps.now 0 0 ≡ signed_half) × Picked picks.now (rows.now.m + 1) × Span span }
    ensures { (z : ℤ) → trop_of span ≡ fin z → Decides (AcceptedOptimal (start_of (problem_of rows.now.bytes.now) start) (problem_of rows.now.bytes.now) z (stamps_point stamps.now) (strategy_of picks.now)) result }
{
    let x = lower_point(stamps, rows.n + 1);
    keeps_rules(rows, &x)
        && value_is(rows, &x, span)
        && certify_variables(rows, picks, span - 1, start_marks(rows, start))
}

// Class 2, bottomless: judged at the lowest trial from a start, on tables: a cycle that uses the objective then weighs below zero.
fn certify_unbounded(rows: &Rows, picks: &[u64; ROWS], start: [u8; STRIDE]) -> bool
    requires { Picked picks.now (rows.now.n + 1) × Flags start }
    ensures { Decides (AcceptedUnbounded (Begins start (rows.now.n + 1)) (problem_of rows.now.bytes.now) (strategy_of picks.now)) result }
{
    let (n, m) = (rows.n, rows.m);
    let mut left = [0u32; TABLE];
    let mut right = [0u32; TABLE];
    read_tables(rows.bytes, n, m, &mut left, &mut right);
    let tables = Tables {
        left: &left,
        right: &right,
        n,
        m,
    };
    certify_rows(&tables, picks, OFFSET - SPAN_LIMIT - 1, start)
}

// Class 2 as its start names it (document 02, 2.4): variable k is of the second list, and reach begins there and at the anchor.
fn certify_named(rows: &Rows, picks: &[u64; ROWS], k: usize) -> bool
    requires { Picked picks.now (rows.now.n + 1) × (k ≤ rows.now.n) }
    ensures { Decides (Second (problem_of rows.now.bytes.now) k × AcceptedUnbounded (AnchorAnd k) (problem_of rows.now.bytes.now) (strategy_of picks.now)) result }
{
    in_second(rows, k) && certify_unbounded(rows, picks, anchor_and(k))
}

// What document 01 lists for the answer's class holds: reach begins where the answer's start says. Class 3 is judged at the top trial:
// a cycle that uses the objective then weighs zero or more.
fn certify(rows: &Rows, head: Head, stamps: &[u64; STRIDE], picks: &[u64; ROWS]) -> bool
    requires { Formed rows.now.n rows.now.m head stamps.now picks.now }
    ensures { (a : Answer) → Meant a head stamps.now picks.now → Decides (Accepted (problem_of rows.now.bytes.now) a) result }
{
    let Head { class, span, start } = head;
    match class {
        OPTIMAL => certify_optimal(rows, stamps, picks, span, start),
        UNBOUNDED => certify_named(rows, picks, start as usize - 1),
        INFEASIBLE => certify_variables(rows, picks, OFFSET + SPAN_LIMIT, start_marks(rows, start)),
        0 | 4.. => false,
    }
}

// The verdict on an answer for a problem within the layout.
fn check_answer(rows: &Rows, answer: &[u8]) -> Result<Certified, Refusal>
    ensures { Answered (problem_of rows.now.bytes.now) rows.now.n rows.now.m answer.now (verdict_of result) }
{
    let mut stamps = [0u64; STRIDE];
    let mut picks = [0u64; ROWS];
    let head = read_answer(answer, rows.n, rows.m, &mut stamps, &mut picks)?;
    if certify(rows, head, &stamps, &picks) {
        return Ok(Certified {
            class: head.class,
            span: head.span,
        });
    }
    Err(Refusal::NotCertified)
}

// The verdict on an answer for a problem of kind 5, from its rules in force.
fn check_room(
    problem: &[u8],
    room: &[u8],
    n: usize,
    m: usize,
    answer: &[u8],
) -> Result<Certified, Refusal>
    requires { StatesHeld problem.now n m × InForce problem.now n m room.now }
    ensures { Answered (problem_of problem.now) n m answer.now (verdict_of result) }
{
    check_answer(&Rows { bytes: room, n, m }, answer)
}

// The verdict on an answer for a problem of kind 5 within the layout: judged by its rules in force, which are laid out as kind 1.
fn check_in_force(problem: &[u8], n: usize, m: usize, answer: &[u8]) -> Result<Certified, Refusal>
    requires { StatesHeld problem.now n m }
    ensures { Answered (problem_of problem.now) n m answer.now (verdict_of result) }
{
    check_room(problem, &in_force(problem, n, m), n, m, answer)
}

// The verdict on a problem record and the bytes of an answer.
fn check_record(problem: &[u8], answer: &[u8]) -> Result<Certified, Refusal>
    ensures { Judged problem.now answer.now (verdict_of result) }
{
    let layout = judge_problem(problem, CHECKER_KINDS)?;
    let (n, m) = (layout.n, layout.m);
    match layout.kind {
        Kind::States => check_in_force(problem, n, m, answer),
        Kind::Problem | Kind::Questions => {
            let rows = Rows {
                bytes: problem,
                n,
                m,
            };
            check_answer(&rows, answer)
        }
    }
}

// The verdict on the bytes of a problem and of an answer, accepted with class and span or refused; no bytes mean the idle day.
pub fn check(problem: &[u8], answer: &[u8]) -> Result<Certified, Refusal>
    ensures { Judged (meant problem.now) answer.now (verdict_of result) }
{
    if problem.is_empty() {
        return check_record(&idle_day(), answer);
    }
    check_record(problem, answer)
}
